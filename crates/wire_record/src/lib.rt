#![tactic(auto)]
// Document 01's records as bytes: what the replay program reads.
pub mod kind;
pub mod record;
