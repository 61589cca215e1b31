// The records of a row of signs, by value.
#![tactic(auto)]

pub mod queue;
pub mod row;
pub mod sign;
