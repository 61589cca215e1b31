// Output as bytes: numbers in digits, the line of a record, and output in a lent buffer of any length.
// Each function that asks for room or for a small number is a helper for the crates above, whose calls ask for nothing.
#![tactic(auto)]

pub mod buffer;
pub mod digits;
pub mod lines;
