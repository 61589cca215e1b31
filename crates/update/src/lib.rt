// What an update is and what holds of it: its actions by place, the start, the turn, and power-fail safety. It has types and no functions;
// the code is in update_actions, update_start and update_turn.
#![tactic(auto)]

pub mod actions;
pub mod start;
pub mod turn;
