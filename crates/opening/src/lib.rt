#![tactic(auto)]
// Opening two lent stores, whatever they hold.
pub mod mpsc;
