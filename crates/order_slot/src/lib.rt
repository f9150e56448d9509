#![tactic(auto)]
// What a store in order asks of a slot, and the test of it.
mod record;
pub mod slot;
