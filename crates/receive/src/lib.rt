#![tactic(auto)]
// The plain and the fair receive on a store in order.
pub mod receiver;
