// The table of tasks and the four lines of a supervisor: reading them, and the one way in which a task changes its place.
// Every function takes every input.
#![tactic(auto)]

pub mod dispatch;
pub mod moves;
pub mod place;
pub mod queues;
pub mod tasks;
pub mod tree;
