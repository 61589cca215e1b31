// Flash steps over two lent banks: what the next step of a running operation does, and one step.
#![tactic(auto)]

pub mod effect;
pub mod lent;
pub mod step;
pub mod write;
