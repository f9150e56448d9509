#![tactic(auto, unfolding(c_answer::specs::Answer::told, c_answer::specs::Answer::told_into, refinement::specs::Runs::call_words, refinement::specs::Runs::receive_words, refinement::specs::Runs::output_words, sender::specs::Sender::sender_words, control::specs::Calls::control_words, receive_batch::specs::Batch::try_recv_batch_into))]
// The inner calls, on stores in order, for C and Rust to link. They are apart from the checked calls: where a call has one caller, the compiler puts it there,
// and a plain receive then takes a third of the time.
// What each takes is the C interface: slices, numbers, and eight words for the answer's numbers.
pub mod controlling;
pub mod receiving;
pub mod sending;
