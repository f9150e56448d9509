#![tactic(auto, using(crate::proofs::CheckedLaws::refuses, crate::proofs::CheckedLaws::passes), unfolding(crate::specs::Runs::checked_words, refinement::specs::Runs::call_words, refinement::specs::Runs::receive_words, sender::specs::Sender::sender_words, control::specs::Calls::control_words))]
// The checked calls, on any two stores: the stores are tested first, and a call on stores in order is the inner one.

// The inner call on stores in order, and refusal 5 on others. A macro and no function that is handed the call: what a closure borrows to change, as a send's
// rings or a batch's output, is unknown after it. Tried: `unwrap_or_else` on an Option of the refusal left the words after the call open; a function generic
// in a call on the table alone would serve eleven of the sixteen calls, and a call of it is no shorter.
macro_rules! checked {
    ($t:expr, $r:expr, $call:expr) => {
        if order::in_order($t, $r) {
            $call
        } else {
            model::Answer::Refused {
                why: model::Refusal::StoreNotInOrder,
            }
        }
    };
}

pub mod batch;
pub mod lane_control;
pub mod mpsc;
pub mod recv;
pub mod send;
