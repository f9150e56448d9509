#![tactic(auto)]
// The sender calls on a store in order.
pub mod sender;
