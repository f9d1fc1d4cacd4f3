// Sessions over a table: a roster is marked, then closed into a listing session that gives its crews one after another and finds them step by step.
#![tactic(auto)]

pub mod listing;
pub mod marking;
pub mod tour;
