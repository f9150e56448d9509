#![tactic(auto)]
// The receive from one lane, on a store in order.
pub mod target;
