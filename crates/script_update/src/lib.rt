// The script of an update as it is written: what holds of it and of its play. It has no code of its own.
#![tactic(auto)]
