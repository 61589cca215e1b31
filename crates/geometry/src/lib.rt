// Sizes and lengths: Q, B and P with decline 1, what is lent with decline 2.
#![tactic(auto)]

pub mod banks;
pub mod layout;
pub mod lent;
