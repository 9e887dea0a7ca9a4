// A log on its way through the supervisor, turn by turn, with the first engine or the second.
#![tactic(auto)]

pub mod engines;
pub mod turns;
