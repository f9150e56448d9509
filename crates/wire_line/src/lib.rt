#![tactic(auto)]
// Document 01's lines as bytes: what the replay program writes.
pub mod line;
