// The walk over the crews of a table: it reads the table's slot words at each asking, and stores no crew.
#![tactic(auto)]

mod rows;
pub mod walk;
