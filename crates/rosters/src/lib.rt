// The two rosters: one that keeps a word for each member and slot, and one that keeps the marked pairs as a list of codes.
#![tactic(auto)]

pub mod bit_roster;
pub mod list_roster;
