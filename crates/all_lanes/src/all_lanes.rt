// What is done for every issued slot: `release_consumed` and `poll_all_lanes` of receiver/batch.rs. And held, which is a word.
ghost use Rattle.std.specs.Prelude.{◌≡◌, ◌<◌};
ghost use Rattle.lane.specs.Order.{Refundable};
ghost use Rattle.lane.specs.Table.{lane_at};
ghost use Rattle.queues.specs.Header.{Shaped, slots, issued};
ghost use Rattle.queues.specs.Queue.{QueueNames};
ghost use Rattle.store.specs.Order.{StoreInOrder};
ghost use Rattle.all_lanes.specs.AllLanes.{AllRefundable, release_slot, release_all, release_consumed, may_queue, poll_slot, poll_slots, poll_all_lanes, HasHeader, count_held};

use lane::lane::Lane;
use model::Answer;
use queues::header::Header;
use ready::ready as marks;
use store::refusal;

// Gives back the credit of a slot's lane, where one is registered. Of a lane with nothing unreleased, which has no window
// either, that one word is read and none is written.
fn release_slot(t: &mut [u64], slot: u64)
    requires { Shaped t.old × (slot < slots t.old) × ((lane_at t.old slot).registered ≡ 1 → Refundable (lane_at t.old slot)) }
    ensures { t.new ≡ release_slot t.old slot }
{
    let l = Lane::load(t, slot);
    if l.unreleased == 0 {
        return;
    }
    if l.registered == 1 {
        let done = l.release_pending();
        done.lane.store(t);
    }
}

// Gives back the credit of every lane. As in `poll_slots`, and in crate `turns`, the loop is one line; a function that is handed its step is no shorter.
pub fn release_all(t: &mut [u64])
    requires { Shaped t.old × AllRefundable t.old }
    ensures { t.new ≡ release_all t.old }
{
    for slot in 0..t[Header::ISSUED] {
        release_slot(t, slot);
    }
}

// Gives back the places of all items that were handed out.
pub fn release_consumed(t: &mut [u64], r: &[u64]) -> Answer
    requires { StoreInOrder t.old r.now }
    ensures { (result, t.new, r.now) ≡ release_consumed t.old r.now }
{
    match refusal::receiver_verdict(t) {
        Err(why) => Answer::Refused { why },
        Ok(()) => {
            release_all(t);
            Answer::Done
        }
    }
}

// Whether a lane is registered, unpaused and unqueued.
#[tactic(auto, unfolding(crate::specs::AllLanes::may_queue))]
fn may_queue(l: Lane) -> bool
    ensures { result ≡ may_queue l }
{
    l.registered == 1 && l.paused == 0 && l.queued == 0
}

// Queues a slot's lane, whether or not it is pending.
fn poll_slot(t: &mut [u64], slot: u64)
    requires { Shaped t.old × QueueNames t.old × (slot < issued t.old) }
    ensures { t.new ≡ poll_slot t.old slot }
{
    if may_queue(Lane::load(t, slot)) {
        marks::enqueue(t, slot);
    }
}

fn poll_slots(t: &mut [u64])
    requires { Shaped t.old × QueueNames t.old }
    ensures { t.new ≡ poll_slots t.old }
{
    for slot in 0..t[Header::ISSUED] {
        poll_slot(t, slot);
    }
}

// Queues every lane that is neither queued nor paused, so that items sent without a signal are found. It has the test and the answer of `release_consumed`,
// and a function for both that is handed the loop is no shorter.
pub fn poll_all_lanes(t: &mut [u64], r: &[u64]) -> Answer
    requires { StoreInOrder t.old r.now }
    ensures { (result, t.new, r.now) ≡ poll_all_lanes t.old r.now }
{
    match refusal::receiver_verdict(t) {
        Err(why) => Answer::Refused { why },
        Ok(()) => {
            poll_slots(t);
            Answer::Done
        }
    }
}

// The number of items in the rings of registered lanes, also of a receiver that is closed: the word that every call keeps true.
pub fn held(t: &[u64], r: &[u64]) -> Answer
    requires { HasHeader t.now }
    ensures { (result, t.now, r.now) ≡ count_held t.now r.now }
{
    Answer::Held {
        count: t[Header::HELD],
    }
}
