// Lists written by turns, and a block of words taken back from its lanes.
#![tactic(auto)]

pub mod blocks;
mod interleave;
