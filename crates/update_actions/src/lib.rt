// The firmware updater's actions, by place.
#![tactic(auto)]

pub mod actions;
pub mod lower_word;
pub mod new_bank;
mod programming;
