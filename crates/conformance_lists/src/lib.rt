// The words of a line: numbers, and lists of them.
#![tactic(auto)]

pub mod line;
pub mod no_outcome;
