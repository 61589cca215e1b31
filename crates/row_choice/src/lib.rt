// Which sign of a row is served, and that no other overtakes it.
#![tactic(auto)]
