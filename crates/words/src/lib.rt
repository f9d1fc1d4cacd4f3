// What every crate stands on: sets of numbers below 64 kept as the bits of a word, their order, and the number of a refusal.
#![tactic(auto)]

pub mod order;
pub mod refusal;
pub mod sets;
