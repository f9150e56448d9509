// The batch: `drain_into`, `refresh_active` and `try_recv_batch_into` of receiver/batch.rs.
ghost use Rattle.std.specs.Prelude.{◌≡◌, ◌+◌, ◌≤◌, ◌<◌, length};
ghost use Rattle.yring.specs.Cursor.{Capacity};
ghost use Rattle.lane.specs.Order.{InOrder};
ghost use Rattle.lane.specs.Table.{header_words};
ghost use Rattle.queues.specs.Header.{Shaped, slots, queue_count, budget, capacity};
ghost use Rattle.store.specs.Order.{StoreInOrder};
ghost use Rattle.turns.specs.Turn.{Turning, Ringed};
ghost use Rattle.receive_batch.specs.Batch.{
  Fronts,
  look_front,
  run_down,
  refresh_active,
  full_budget,
  chunk_size,
  gave_chunk,
  give_chunk,
  drain_into,
  room_verdict,
  batch_verdict,
  RestsAt,
  answer_items,
  try_recv_batch_into,
};

use lane::lane::Lane;
use model::{Answer, Refusal};
use queues::header::Header;
use queues::queue;
use ready::ready as marks;
use std::ops::ControlFlow;
use store::refusal;
use turns::{drained, due, turn};
use yring::ring::Ring;

// Looks at the front lane. One with items is handed on as it then is, and nothing is stored; an empty one leaves the queue,
// and the search goes on.
fn look_front(t: &mut [u64]) -> ControlFlow<Option<Lane>>
    requires { Turning t.old }
    ensures { (result, t.new) ≡ look_front t.old }
{
    if t[Header::QUEUED] == 0 {
        return ControlFlow::Break(None);
    }
    let slot = queue::front_slot(t);
    match Lane::load(t, slot).refill() {
        Ok(lane) => ControlFlow::Break(Some(lane)),
        Err(found) => {
            turn::settle_empty_front(t, found);
            turn::meet_budget(t);
            ControlFlow::Continue(())
        }
    }
}

// The front lane, once empty ones have left: one with items, or none where no lane is queued. Out of line it would hand the lane on through memory.
#[inline(always)]
fn run_down(t: &mut [u64]) -> Option<Lane>
    requires { Turning t.old }
    ensures { (result, t.new) ≡ run_down t.old }
{
    loop {
        if let ControlFlow::Break(front) = look_front(t) {
            return front;
        }
    }
}

// The lane whose turn it is. Collects ready lanes when that is due, and once when none is queued. The search is called at one place, and so inlined once.
pub fn refresh_active(t: &mut [u64]) -> Option<Lane>
    requires { Turning t.old }
    ensures { (result, t.new) ≡ refresh_active t.old }
{
    due::collect_if_due(t);
    let mut collected = false;
    loop {
        if let Some(lane) = run_down(t) {
            return Some(lane);
        }
        if collected {
            return None;
        }
        marks::collect_ready(t, true);
        collected = true;
    }
}

// The budget that a chunk is charged to. Where it is 0 the Rust takes a chunk of no items, and sets it to 64 in its next round.
fn full_budget(budget: u64) -> u64
    ensures { result ≡ full_budget budget }
{
    if budget == 0 {
        return Header::POLL_BUDGET;
    }
    budget
}

// The front lane gave so many items.
pub fn gave_chunk(t: &mut [u64], moved: u64, l: Lane)
    requires { Shaped t.old × (l.key.slot < slots t.old) × (0 < queue_count t.old) × (moved ≤ full_budget (budget t.old)) }
    ensures { t.new ≡ gave_chunk t.old moved l }
{
    let budget = full_budget(t[Header::BUDGET]) - moved;
    let end = l.end_full_burst();
    let next = end.lane;
    next.store(t);
    turn::rotate_if(t, end.ended);
    t[Header::BUDGET] = budget;
}

// As many items as are left of the limit, as the budget has, and as the lane may give before credit is due or its turn ends.
pub fn chunk_size(t: &[u64], left: u64, l: Lane) -> u64
    requires { Shaped t.now × Capacity (capacity t.now) × InOrder (capacity t.now) l }
    ensures { result ≡ chunk_size t.now left l }
{
    let budget = full_budget(t[Header::BUDGET]);
    left.min(budget).min(l.chunk_limit(t[Header::CAPACITY]))
}

// Moves a chunk of the front lane to the output, from place `at` on, and counts it as that many receives would. The lane is
// loaded anew: beside its load the compiler leaves out the stores of words that did not change.
fn give_chunk(t: &mut [u64], r: &[u64], out: &mut [u64], at: usize, left: u64, front: Lane) -> u64
    requires { Fronts t.old front × Ringed t.old r.now × (at + left ≤ length out.old) }
    ensures { (result, t.new, out.new) ≡ give_chunk t.old r.now out.old at left front }
{
    let capacity = t[Header::CAPACITY];
    let looked = Lane::load(t, front.key.slot).reload_is_empty();
    let l = looked.lane;
    let take = chunk_size(t, left, l);
    gave_chunk(t, take, l.move_chunk(capacity, take));
    Ring::new(l.key.slot, capacity).pop_into(r, l.head, take, out, at);
    take
}

// Moves up to `limit` items to the output, chunk by chunk.
fn drain_into(t: &mut [u64], r: &[u64], out: &mut [u64], limit: u64) -> u64
    requires { Turning t.old × Ringed t.old r.now × (limit ≤ length out.old) }
    ensures { (result, t.new, out.new) ≡ drain_into t.old r.now out.old limit }
{
    let mut received = 0;
    while received < limit {
        let Some(lane) = refresh_active(t) else {
            return received;
        };
        received += give_chunk(t, r, out, received as usize, limit - received, lane);
    }
    received
}

// Whether the output has room for the limit.
fn room_verdict(limit: u64, room: u64) -> Result<(), Refusal>
    ensures { result ≡ room_verdict limit room }
{
    if room < limit {
        return Err(Refusal::OutputShort);
    }
    Ok(())
}

// Refusals 6 and 14 of a batch.
pub fn batch_verdict(t: &[u64], limit: u64, room: u64) -> Result<(), Refusal>
    requires { Shaped t.now }
    ensures { result ≡ batch_verdict t.now limit room }
{
    refusal::receiver_verdict(t)?;
    room_verdict(limit, room)
}

// The number of items, which are held no more; Empty or Disconnected where some were asked for and there were none.
pub fn answer_items(t: &mut [u64], limit: u64, received: u64) -> Answer
    requires { (header_words ≤ length t.old) × RestsAt limit received t.old }
    ensures { (result, t.new) ≡ answer_items limit received t.old }
{
    if received != 0 {
        Header::held_less(t, received);
        return Answer::Items { count: received };
    }
    if limit == 0 {
        return Answer::Items { count: 0 };
    }
    drained::nothing_taken(t)
}

// Receives up to `limit` items into the output, and gives back the places of all items that were handed out.
pub fn try_recv_batch_into(t: &mut [u64], r: &[u64], out: &mut [u64], limit: u64) -> Answer
    requires { StoreInOrder t.old r.now }
    ensures { (result, t.new, r.now, out.new) ≡ try_recv_batch_into t.old r.now out.old limit }
{
    match batch_verdict(t, limit, out.len() as u64) {
        Err(why) => Answer::Refused { why },
        Ok(()) => {
            let received = drain_into(t, r, out, limit);
            all_lanes::all_lanes::release_all(t);
            answer_items(t, limit, received)
        }
    }
}
