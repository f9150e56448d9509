#![tactic(auto, unfolding(c_answer::specs::Answer::told, c_answer::specs::Answer::told_into))]
// The checked calls, on any stores, for C and Rust to link.
// What each takes is the C interface: slices, numbers, and eight words for the answer's numbers.
pub mod controlling;
pub mod receiving;
pub mod sending;
