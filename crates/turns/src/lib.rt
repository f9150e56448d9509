#![tactic(auto)]
// Turns at the front of the queue, and what follows where nothing was taken.
pub mod drained;
pub mod due;
pub mod turn;
