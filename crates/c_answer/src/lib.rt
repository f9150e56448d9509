#![tactic(auto)]
// An answer for C and Rust to read: a tag, with its numbers in lent words.
pub mod answer;
pub mod numbers;
