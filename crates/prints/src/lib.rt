// Print: a crew, how a list of crews ends, or a fault, each as a line of bytes in a caller's buffer.
#![tactic(auto)]

pub mod ending;
pub mod line;
pub mod print;
pub mod refusals;
