#![tactic(auto, unfolding(c_answer::specs::Answer::told_into))]
// The checked batch that stops in front of an item, for C and Rust to link. It is apart from the other calls: it uses parts of the
// plain batch, and where these have one caller, the compiler puts them there.
// What each takes is the C interface: slices, numbers, and eight words for the answer's numbers.
pub mod receiving;
