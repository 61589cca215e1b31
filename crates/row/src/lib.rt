// What holds of every list of calls for a row of signs. No functions.
#![tactic(auto)]
