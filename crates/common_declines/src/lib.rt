// What decline 3 takes, and declines 1 to 3, which open every call.
#![tactic(auto)]

pub mod common_decline;
pub mod possible;
