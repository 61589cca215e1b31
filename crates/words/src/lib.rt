// Words of 32 bits, quads of four words, and the list of declines. This layer knows nothing of flash memory.
#![tactic(auto)]

pub mod decline;
pub mod quad;
pub mod word;
