#![tactic(auto)]
// The batch on a store in order.
pub mod batch;
