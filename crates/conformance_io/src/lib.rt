// The geometry and the device by their numbers, room for lists, what a call gives, what it changed in both banks, and output.
#![tactic(auto)]

pub mod banks;
pub mod numbers;
pub mod outcome;
pub mod output;
pub mod records;
pub mod room;
