// The batches, credit given back, and poll all lanes: src/mpsc/receiver/batch.rs.
ghost use Rattle.std.specs.Prelude.{◌≡◌, length};
ghost use Rattle.model.specs.declared.ControlCall.TheVariants.{PollAllLanes, ReleaseConsumed};
ghost use Rattle.model.specs.declared.ReceiveCall.TheVariants.{TryRecvBatchInto, TryRecvBatchIntoWhile};
ghost use Rattle.model.specs.declared.Call.TheVariants.{Control};
ghost use Rattle.refinement.specs.Runs.{receive_into};
ghost use Rattle.fanring.specs.Runs.{checked_calls, checked_words};

use model::Answer;

// Receives up to `limit` items into the output, and gives back the places of all items that were handed out.
#[tactic(auto, using(crate::proofs::CheckedLaws::refuses_into, crate::proofs::CheckedLaws::passes_into), unfolding(refinement::specs::Runs::call_words, refinement::specs::Runs::receive_words, refinement::specs::Runs::output_words, receive_batch::specs::Batch::try_recv_batch_into))]
pub fn try_recv_batch_into(t: &mut [u64], r: &[u64], out: &mut [u64], limit: u64) -> Answer
    ensures { (result, t.new, r.now, out.new) ≡ receive_into checked_calls t.old r.now (TryRecvBatchInto limit (length out.old)) out.old }
{
    checked!(
        t,
        r,
        receive_batch::batch::try_recv_batch_into(t, r, out, limit)
    )
}

// Receives up to `limit` items into the output, stops in front of the first above `bound`, and gives back the places of all items
// that were handed out.
#[tactic(auto, using(crate::proofs::CheckedLaws::refuses_into, crate::proofs::CheckedLaws::passes_into), unfolding(refinement::specs::Runs::call_words, refinement::specs::Runs::receive_words, refinement::specs::Runs::output_words, receive_while::specs::While::try_recv_batch_into_while))]
pub fn try_recv_batch_into_while(
    t: &mut [u64],
    r: &[u64],
    out: &mut [u64],
    limit: u64,
    bound: u64,
) -> Answer
    ensures { (result, t.new, r.now, out.new) ≡ receive_into checked_calls t.old r.now (TryRecvBatchIntoWhile limit bound (length out.old)) out.old }
{
    checked!(
        t,
        r,
        receive_while::batch_while::try_recv_batch_into_while(t, r, out, limit, bound)
    )
}

// Gives back the places of all items that were handed out.
pub fn release_consumed(t: &mut [u64], r: &[u64]) -> Answer
    ensures { (result, t.new, r.now) ≡ checked_words t.old r.now (Control ReleaseConsumed) }
{
    checked!(t, r, all_lanes::all_lanes::release_consumed(t, r))
}

// Queues every lane that is neither queued nor paused, so that items sent without a signal are found.
pub fn poll_all_lanes(t: &mut [u64], r: &[u64]) -> Answer
    ensures { (result, t.new, r.now) ≡ checked_words t.old r.now (Control PollAllLanes) }
{
    checked!(t, r, all_lanes::all_lanes::poll_all_lanes(t, r))
}
