// The calls by their names: each is made for the inputs that follow its name in a line, and what it gives is written.
#![tactic(auto)]

pub mod names;
pub mod written;
