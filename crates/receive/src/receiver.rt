// The plain and the fair receive: src/mpsc/receiver.rs.
// A `take_..` function takes an item and puts its lane back; an `answer_..` function makes the call's answer of it.
// They differ in the window that the item comes through: `take_from_window` one that is open, `take_from_new_window`
// one that was opened for this item, `take_if_popped` the same if it gave one; `take_front_window` opens one on the
// front lane (plain), `take_lone` on the only queued lane (fair), whose item `take_from_lone_window` takes.
ghost use Rattle.std.specs.Prelude.{◌≡◌, ◌≤◌, ◌<◌, Some, length};
ghost use Rattle.lane.specs.Lane.{pop_fair};
ghost use Rattle.lane.specs.declared.consumer.Taken.{Taken};
ghost use Rattle.lane.specs.Table.{header_words};
ghost use Rattle.yring.specs.Ring.{Within};
ghost use Rattle.queues.specs.Header.{Shaped, slots, budget, channel};
ghost use Rattle.store.specs.Order.{StoreInOrder};
ghost use Rattle.turns.specs.Turn.{Turning, Ringed};
ghost use Rattle.turns.specs.Drained.{Rests};
ghost use Rattle.receive.specs.Receive.{take_from_window, Affords, FastOpen, take_if_popped, take_front_window, poll_loop, try_recv_refill, take_one, take_lone, take_fair, answer_one, try_recv, try_recv_fair};

use lane::consumer::Taken;
use lane::lane::Lane;
use model::{Answer, LaneId, OpenedChannel};
use queues::header::Header;
use queues::queue;
use ready::ready as marks;
use store::refusal;
use turns::turn::Took;
use turns::{drained, due, turn};
use yring::ring::Ring;

// An item of a window: its lane goes back, and the budget is charged.
fn take_from_window(t: &mut [u64], item: u64, l: Lane) -> Took
    requires { Shaped t.old × (l.key.slot < slots t.old) × (0 < budget t.old) }
    ensures { (Some result, t.new) ≡ take_from_window t.old item l }
{
    l.store(t);
    t[Header::BUDGET] -= 1;
    Took { item, key: l.key }
}

// An item of a window that was just opened: the next plain receive looks there first.
fn take_from_new_window(t: &mut [u64], item: u64, l: Lane) -> Took
    requires { Shaped t.old × (l.key.slot < slots t.old) × (0 < budget t.old) }
    ensures { (Some result, t.new) ≡ take_if_popped t.old (Some (record { item = item; lane = l })) }
{
    let took = take_from_window(t, item, l);
    t[Header::FAST] = l.key.slot;
    took
}

// The item of a window that was just opened, if it has one.
fn take_if_popped(t: &mut [u64], popped: Option<Taken>) -> Option<Took>
    requires { Shaped t.old × ((x : Taken) → popped ≡ Some x → x.lane.key.slot < slots t.old) × Affords t.old popped }
    ensures { (result, t.new) ≡ take_if_popped t.old popped }
{
    let taken = popped?;
    Some(take_from_new_window(t, taken.item, taken.lane))
}

// Opens a window on the front lane and takes its first item.
fn take_front_window(t: &mut [u64], r: &[u64]) -> Option<Took>
    requires { Turning t.old × Ringed t.old r.now }
    ensures { (result, t.new) ≡ take_front_window t.old r.now }
{
    if t[Header::QUEUED] == 0 {
        return None;
    }
    let slot = queue::front_slot(t);
    let ring = Ring::new(slot, t[Header::CAPACITY]);
    let l = Lane::load(t, slot).grant_fast(t[Header::CAPACITY], t[Header::BUDGET]);
    let popped = l.pop_fast(ring, r);
    take_if_popped(t, popped)
}

// Turns at the front, and once more after a look for ready lanes.
fn poll_loop(t: &mut [u64], r: &[u64]) -> Option<Took>
    requires { Turning t.old × Ringed t.old r.now }
    ensures { (result, t.new) ≡ poll_loop t.old r.now }
{
    if let Some(took) = turn::turns(t, r, false) {
        return Some(took);
    }
    marks::collect_ready(t, true);
    turn::turns(t, r, false)
}

fn try_recv_refill(t: &mut [u64], r: &[u64]) -> Option<Took>
    requires { Turning t.old × Ringed t.old r.now }
    ensures { (result, t.new) ≡ try_recv_refill t.old r.now }
{
    due::collect_if_due(t);
    if let Some(took) = take_front_window(t, r) {
        return Some(took);
    }
    poll_loop(t, r)
}

// An item for a fair receive through the open window of the only queued lane.
fn take_from_lone_window(t: &mut [u64], r: &[u64], ring: Ring, l: Lane) -> Took
    requires { Within ring (length r.now) × (0 < l.window) × Shaped t.old × (l.key.slot < slots t.old) × (0 < budget t.old) }
    ensures { (Some result, t.new) ≡ take_if_popped t.old (Some (pop_fair ring r.now l)) }
{
    let taken = l.pop_fair(ring, r);
    take_from_new_window(t, taken.item, taken.lane)
}

// The only queued lane has nothing to rotate past.
fn take_lone(t: &mut [u64], r: &[u64]) -> Option<Took>
    requires { Turning t.old × Ringed t.old r.now × (0 < budget t.old) }
    ensures { (result, t.new) ≡ take_lone t.old r.now }
{
    if t[Header::QUEUED] != 1 {
        return None;
    }
    let slot = queue::front_slot(t);
    let ring = Ring::new(slot, t[Header::CAPACITY]);
    let l = Lane::load(t, slot);
    if l.window != 0 {
        return Some(take_from_lone_window(t, r, ring, l));
    }
    let opened = l.fair_window(t[Header::CAPACITY], t[Header::BUDGET]);
    if opened.window == 0 {
        return None;
    }
    Some(take_from_lone_window(t, r, ring, opened))
}

fn take_fair(t: &mut [u64], r: &[u64]) -> Option<Took>
    requires { Turning t.old × Ringed t.old r.now }
    ensures { (result, t.new) ≡ take_fair t.old r.now }
{
    marks::collect_if_ready(t, true);
    t[Header::BUDGET] = Header::POLL_BUDGET;
    if let Some(took) = take_lone(t, r) {
        return Some(took);
    }
    turn::fair_turns(t, r)
}

// The item with its lane's id, held no more, or Empty or Disconnected.
fn answer_one(t: &mut [u64], channel: OpenedChannel, took: Option<Took>) -> Answer
    requires { (header_words ≤ length t.old) × Rests (took, t.old) }
    ensures { (result, t.new) ≡ answer_one channel (took, t.old) }
{
    match took {
        None => drained::nothing_taken(t),
        Some(took) => {
            Header::held_less(t, 1);
            Answer::Item {
                item: took.item,
                lane: LaneId {
                    channel,
                    key: took.key,
                },
            }
        }
    }
}

// Where no window is open at `fast_slot`.
fn answer_refill(t: &mut [u64], r: &[u64]) -> Answer
    requires { StoreInOrder t.old r.now }
    ensures { (result, t.new) ≡ answer_one (channel t.old) (try_recv_refill t.old r.now) }
{
    let channel = Header::channel(t);
    let took = try_recv_refill(t, r);
    answer_one(t, channel, took)
}

// First the open window at `fast_slot`, with no look-up of the queue and no look for ready lanes. Each
// way out calls the rest itself, with `r` lent anew and the answer in a local: the compiler then keeps
// the rest out of line, and what it needs in memory too.
fn try_recv_output(t: &mut [u64], r: &[u64]) -> Answer
    requires { StoreInOrder t.old r.now }
    ensures { (result, t.new) ≡ answer_one (channel t.old) (take_one t.old r.now) }
{
    let slot = t[Header::FAST];
    if slot >= t[Header::ISSUED] {
        let a = answer_refill(t, &*r);
        return a;
    }
    let l = Lane::load(t, slot);
    if l.registered != 1 {
        let a = answer_refill(t, &*r);
        return a;
    }
    if l.window == 0 {
        let a = answer_refill(t, &*r);
        return a;
    }
    answer_window(t, r, l)
}

// The next item of the open window.
fn answer_window(t: &mut [u64], r: &[u64], l: Lane) -> Answer
    requires { FastOpen t.old r.now l }
    ensures { (result, t.new) ≡ answer_one (channel t.old) (take_one t.old r.now) }
{
    let taken = l.pop_window(Ring::new(l.key.slot, t[Header::CAPACITY]), r);
    let took = take_from_window(t, taken.item, taken.lane);
    let channel = Header::channel(t);
    answer_one(t, channel, Some(took))
}

// Receives one item, in bursts of at most 64 of a lane.
pub fn try_recv(t: &mut [u64], r: &[u64]) -> Answer
    requires { StoreInOrder t.old r.now }
    ensures { (result, t.new, r.now) ≡ try_recv t.old r.now }
{
    match refusal::receiver_verdict(t) {
        Err(why) => Answer::Refused { why },
        Ok(()) => try_recv_output(t, r),
    }
}

// Receives one item, with a look for ready lanes first and a rotation after.
pub fn try_recv_fair(t: &mut [u64], r: &[u64]) -> Answer
    requires { StoreInOrder t.old r.now }
    ensures { (result, t.new, r.now) ≡ try_recv_fair t.old r.now }
{
    match refusal::receiver_verdict(t) {
        Err(why) => Answer::Refused { why },
        Ok(()) => {
            let channel = Header::channel(t);
            let took = take_fair(t, r);
            answer_one(t, channel, took)
        }
    }
}
