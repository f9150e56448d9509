#![tactic(auto, unfolding(c_answer::specs::Answer::told_into, refinement::specs::Runs::receive_words, refinement::specs::Runs::output_words, refinement::specs::Runs::call_words, receive_while::specs::While::try_recv_batch_into_while))]
// The inner batch that stops in front of an item, for C and Rust to link. It is apart from the other calls: it uses parts of the
// plain batch, and where these have one caller, the compiler puts them there.
// What each takes is the C interface: slices, numbers, and eight words for the answer's numbers.
pub mod receiving;
