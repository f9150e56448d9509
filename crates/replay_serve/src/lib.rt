#![tactic(auto)]
// Answers document 01's records: each by its call on the stores, and on a line of the text.
pub mod calls;
pub mod serve;
