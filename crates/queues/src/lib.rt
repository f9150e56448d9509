#![tactic(auto)]
// The header, the queue of lanes and the free slots, in the table store.
pub mod header;
pub mod queue;
pub mod registry;
