// A turn at the front of the queue: the poll loop of src/mpsc/receiver.rs, and `settle_empty_front` of receiver/batch.rs.
ghost use Rattle.std.specs.Prelude.{◌≡◌, true, ◌*◌, ◌≤◌, ◌<◌, length};
ghost use Rattle.queues.specs.Header.{Shaped, slots, queue_count, free_count, lane_count, capacity};
ghost use Rattle.turns.specs.Turn.{Turning, Ringed, retire_if, settle_empty_front, meet_budget, less_one, rotate_if, gave_front, poll_front, turns};

use lane::lane::{EmptyLane, Lane};
use model::LaneKey;
use queues::header::Header;
use queues::queue;
use std::ops::ControlFlow;
use store::registry;
use yring::ring::Ring;

// What a take hands out.
#[derive(Clone, Copy)]
pub struct Took {
    pub item: u64,
    pub key: LaneKey,
}

// A lane whose sender is dropped retires.
pub fn retire_if(t: &mut [u64], l: Lane, dropped: bool)
    requires { Shaped t.old × (l.key.slot < slots t.old) × (free_count t.old < slots t.old) × (0 < lane_count t.old) }
    ensures { t.new ≡ retire_if dropped t.old l }
{
    if dropped {
        registry::retire_lane(t, l);
    }
}

// The front lane was found empty: it leaves the queue.
pub fn settle_empty_front(t: &mut [u64], found: EmptyLane)
    requires { Shaped t.old × (found.lane.key.slot < slots t.old) × (0 < queue_count t.old) × (free_count t.old < slots t.old) × (0 < lane_count t.old) }
    ensures { t.new ≡ settle_empty_front t.old found }
{
    let l = found.lane;
    l.store(t);
    queue::pop_front(t);
    retire_if(t, l, found.disconnected);
}

// Before every turn but the first a budget of 0 becomes 64.
pub fn meet_budget(t: &mut [u64])
    requires { Shaped t.old }
    ensures { t.new ≡ meet_budget t.old }
{
    if t[Header::QUEUED] == 0 {
        return;
    }
    if t[Header::BUDGET] == 0 {
        t[Header::BUDGET] = Header::POLL_BUDGET;
    }
}

// The budget after one more item. Where it is 0 the Rust would subtract from 0.
fn less_one(budget: u64) -> u64
    ensures { result ≡ less_one budget }
{
    if budget == 0 {
        return Header::POLL_BUDGET - 1;
    }
    budget - 1
}

pub fn rotate_if(t: &mut [u64], rotate: bool)
    requires { Shaped t.old × (0 < queue_count t.old) }
    ensures { t.new ≡ rotate_if rotate t.old }
{
    if rotate {
        queue::rotate_left(t);
    }
}

// The front lane gave an item.
fn gave_front(t: &mut [u64], rotate: bool, l: Lane)
    requires { Shaped t.old × (l.key.slot < slots t.old) × (0 < queue_count t.old) }
    ensures { t.new ≡ gave_front t.old rotate l }
{
    let budget = less_one(t[Header::BUDGET]);
    l.store(t);
    rotate_if(t, rotate);
    t[Header::BUDGET] = budget;
}

// One turn: the front lane gives an item, which ends the take, or is empty and leaves. With no lane queued the take ends too.
fn poll_front(t: &mut [u64], r: &[u64], fair: bool) -> ControlFlow<Option<Took>>
    requires { Turning t.old × Ringed t.old r.now }
    ensures { (result, t.new) ≡ poll_front t.old r.now fair }
{
    if t[Header::QUEUED] == 0 {
        return ControlFlow::Break(None);
    }
    let slot = queue::front_slot(t);
    let ring = Ring::new(slot, t[Header::CAPACITY]);
    match Lane::load(t, slot).poll(ring, r, fair) {
        Ok(polled) => {
            gave_front(t, polled.rotate, polled.lane);
            ControlFlow::Break(Some(Took {
                item: polled.item,
                key: polled.lane.key,
            }))
        }
        Err(found) => {
            settle_empty_front(t, found);
            meet_budget(t);
            ControlFlow::Continue(())
        }
    }
}

// Turn after turn, until a lane gives an item or none is queued.
pub fn turns(t: &mut [u64], r: &[u64], fair: bool) -> Option<Took>
    requires { Turning t.old × Ringed t.old r.now }
    ensures { (result, t.new) ≡ turns t.old r.now fair }
{
    loop {
        if let ControlFlow::Break(took) = poll_front(t, r, fair) {
            return took;
        }
    }
}

// `turns` of a fair receive. Most front lanes have an item at hand: their turn is short, and has no call.
pub fn fair_turns(t: &mut [u64], r: &[u64]) -> Option<Took>
    requires { Turning t.old × Ringed t.old r.now }
    ensures { (result, t.new) ≡ turns t.old r.now true }
{
    if t[Header::QUEUED] == 0 {
        return None;
    }
    let slot = queue::front_slot(t);
    let capacity = t[Header::CAPACITY];
    let l = Lane::load(t, slot);
    if l.is_at_hand(capacity) {
        let taken = l.poll_at_hand(Ring::new(slot, capacity), r);
        gave_front(t, true, taken.lane);
        return Some(Took {
            item: taken.item,
            key: taken.lane.key,
        });
    }
    let took = turns(t, &*r, true);
    took
}
