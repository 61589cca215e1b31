// Garage hours: the smallest wait after which the minutes of an update lie in one window of the week.
#![tactic(auto)]

pub mod plan;
pub mod windows;
