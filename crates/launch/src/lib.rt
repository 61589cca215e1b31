// A store to NVMCON, and the launch.
#![tactic(auto)]

pub mod con_store;
pub mod launch;
