// The batch that stops in front of an item above a bound: `drain_into` with its admission rule and `try_recv_batch_into_while` of
// receiver/batch.rs.
ghost use Rattle.std.specs.Prelude.{◌≡◌, ◌+◌, ◌≤◌, ◌<◌, false, length};
ghost use Rattle.lane.specs.Table.{header_words};
ghost use Rattle.store.specs.Order.{StoreInOrder};
ghost use Rattle.turns.specs.Turn.{Turning, Ringed};
ghost use Rattle.receive_batch.specs.Batch.{Fronts, RestsAt};
ghost use Rattle.receive_while.specs.While.{give_admitted, drain_while, answer_while, try_recv_batch_into_while};

use lane::lane::Lane;
use model::Answer;
use queues::header::Header;
use receive_batch::batch;
use yring::ring::Ring;

// How many items were moved, and whether the next was above the bound: a batch that stops has both, so this is no Result.
#[derive(Clone, Copy)]
pub struct Drained {
    pub received: u64,
    pub rejected: bool,
}

// Moves the items of a chunk of the front lane that stand before the first above the bound, and counts them as that many
// receives would. Where there is none, the lane's burst and its place stay, and a budget of 0 becomes 64 all the same.
fn give_admitted(
    t: &mut [u64],
    r: &[u64],
    out: &mut [u64],
    at: usize,
    left: u64,
    bound: u64,
    front: Lane,
) -> Drained
    requires { Fronts t.old front × Ringed t.old r.now × (at + left ≤ length out.old) }
    ensures { (result, t.new, out.new) ≡ give_admitted t.old r.now out.old at left bound front }
{
    let capacity = t[Header::CAPACITY];
    let looked = Lane::load(t, front.key.slot).reload_is_empty();
    let l = looked.lane;
    let take = batch::chunk_size(t, left, l);
    let count = Ring::new(l.key.slot, capacity).accepted_prefix(r, l.head, take, bound);
    batch::gave_chunk(t, count, l.move_chunk(capacity, count));
    Ring::new(l.key.slot, capacity).pop_into(r, l.head, count, out, at);
    Drained {
        received: count,
        rejected: count < take,
    }
}

// Moves up to `limit` items to the output, chunk by chunk, and stops in front of the first above the bound.
fn drain_while(t: &mut [u64], r: &[u64], out: &mut [u64], limit: u64, bound: u64) -> Drained
    requires { Turning t.old × Ringed t.old r.now × (limit ≤ length out.old) }
    ensures { (result, t.new, out.new) ≡ drain_while t.old r.now out.old limit bound }
{
    let mut received = 0;
    while received < limit {
        let Some(lane) = batch::refresh_active(t) else {
            return Drained {
                received,
                rejected: false,
            };
        };
        let moved = give_admitted(t, r, out, received as usize, limit - received, bound, lane);
        received += moved.received;
        if moved.rejected {
            return Drained {
                received,
                rejected: true,
            };
        }
    }
    Drained {
        received,
        rejected: false,
    }
}

// The number of items, which are held no more, and that it stopped; else as a batch answers.
fn answer_while(t: &mut [u64], limit: u64, drained: Drained) -> Answer
    requires { (header_words ≤ length t.old) × (drained.rejected ≡ false → RestsAt limit drained.received t.old) }
    ensures { (result, t.new) ≡ answer_while limit drained t.old }
{
    let count = drained.received;
    if drained.rejected {
        Header::held_less(t, count);
        return Answer::Stopped { count };
    }
    batch::answer_items(t, limit, count)
}

// Receives up to `limit` items into the output, stops in front of the first above the bound, and gives back the places of all
// items that were handed out.
pub fn try_recv_batch_into_while(
    t: &mut [u64],
    r: &[u64],
    out: &mut [u64],
    limit: u64,
    bound: u64,
) -> Answer
    requires { StoreInOrder t.old r.now }
    ensures { (result, t.new, r.now, out.new) ≡ try_recv_batch_into_while t.old r.now out.old limit bound }
{
    match batch::batch_verdict(t, limit, out.len() as u64) {
        Err(why) => Answer::Refused { why },
        Ok(()) => {
            let drained = drain_while(t, r, out, limit, bound);
            all_lanes::all_lanes::release_all(t);
            answer_while(t, limit, drained)
        }
    }
}
