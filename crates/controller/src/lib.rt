// The controller as one machine: what holds of every operation and of every list of them. It has no code of its own.
#![tactic(auto)]
