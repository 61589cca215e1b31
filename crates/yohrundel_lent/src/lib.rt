// The turn with the device record lent, for programs in other languages: alone in its archive, so that the compiler makes one function of
// the whole turn.
#![tactic(auto)]

mod answer;
mod thin;
