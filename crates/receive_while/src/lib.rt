#![tactic(auto)]
// The batch that stops in front of an item above a bound, on a store in order.
pub mod batch_while;
