// Two updates with images that differ in one word: what holds of them. It has no code of its own.
#![tactic(auto)]
