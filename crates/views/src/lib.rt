// Tables that show what something else holds: words that are lent, and a window of another table's slots.
#![tactic(auto)]

pub mod windowed;
pub mod word_table;
