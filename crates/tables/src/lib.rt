// Tables of members and slots: what a table and a roster mean, what members or slots have in common, and which pairs of sets are crews.
#![tactic(auto)]

pub mod bicliques;
pub mod common;
pub mod crew;
pub mod places;
pub mod refusals;
pub mod size;
pub mod table;
pub mod turned;
