#![tactic(auto)]
// The state on words: refusals, a lane that retires, and the signal of a lane.
pub mod refusal;
pub mod registry;
pub mod signal;
