// The device record: its registers with their bits, masks and reset values, and what is built of it.
#![tactic(auto)]

pub mod builders;
pub mod numbers;
pub mod outcome;
pub mod record;
pub mod registers;
