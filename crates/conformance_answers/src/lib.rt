// What each call gives for the inputs that stand in a line: its numbers and what it changed, or why there is nothing.
#![tactic(auto)]

pub mod bank_calls;
pub mod changing_calls;
pub mod device_calls;
pub mod update_calls;
