// The finder of a table's crews: it works step by step, and keeps what it has found within a limit.
#![tactic(auto)]

pub mod finder;
mod found;
pub mod limit;
pub mod refusals;
