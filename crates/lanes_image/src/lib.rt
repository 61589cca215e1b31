// The update from an image that was stored in byte lanes: what holds of it. It has no code of its own.
#![tactic(auto)]
