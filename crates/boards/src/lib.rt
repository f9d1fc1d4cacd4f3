// Boards tell places: they keep lines of one kind in their order, in memory that the caller lends.
#![tactic(auto)]

pub mod board;
pub mod line;
pub mod metres;
pub mod refusals;
mod slices;
