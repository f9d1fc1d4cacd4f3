// The answer to a whole card: its crews, or its first fault, as the text to be shown.
#![tactic(auto)]

pub mod answer;
#[cfg(test)]
mod tests;
