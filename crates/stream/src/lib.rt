// Standard input as a window on a buffer, cut into lines or not, standard output gathered in a buffer, and what is told on standard error: what the
// programs share. What reads or writes takes the runtime, by the bounds that it needs of it.
// Nothing says that the input ends and a proved loop has to: each loop over input has a number of turns that no run uses up.
#![tactic(auto)]

pub mod errors;
pub mod flow;
pub mod line;
pub mod output;
pub mod window;
pub mod words;
