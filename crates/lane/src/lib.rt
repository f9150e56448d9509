#![tactic(auto)]
// One sender's lane and its ring, as words of two lent stores.
pub mod consumer;
pub mod lane;
pub mod producer;
pub mod table;
