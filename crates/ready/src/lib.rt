#![tactic(auto)]
// The ready marks of lanes, in pages and groups, and collecting them.
pub mod ready;
