// The targeted receive: `try_recv_from` of receiver/lane_control.rs.
ghost use Rattle.std.specs.Prelude.{◌≡◌, ◌<◌};
ghost use Rattle.lane.specs.Table.{lane_at};
ghost use Rattle.queues.specs.Header.{Shaped, issued, slots, queue_count, free_count, lane_count};
ghost use Rattle.store.specs.Order.{StoreInOrder};
ghost use Rattle.receive_from.specs.Target.{AtHand, settle_target, queue_target, keep_target, take_from, try_recv_from};

use control::lane_control;
use lane::lane::{EmptyLane, Lane};
use model::{Answer, LaneId};
use queues::header::Header;
use queues::queue;
use store::{refusal, signal};
use turns::turn;
use yring::ring::Ring;

fn settle_target(t: &mut [u64], found: EmptyLane) -> Answer
    requires { Shaped t.old × (found.lane.key.slot < slots t.old) × (free_count t.old < slots t.old) × (0 < lane_count t.old) }
    ensures { (result, t.new) ≡ settle_target t.old found }
{
    let l = found.lane;
    l.store(t);
    queue::remove(t, l.key.slot);
    turn::retire_if(t, l, found.disconnected);
    if found.disconnected {
        return Answer::Disconnected;
    }
    Answer::Empty
}

// The lane goes to the back of the queue, with its signal marked.
fn queue_target(t: &mut [u64], l: Lane)
    requires { Shaped t.old × (l.key.slot < slots t.old) × (queue_count t.old < slots t.old) }
    ensures { t.new ≡ queue_target t.old l }
{
    lane_control::with_turn(l, 1, 1, 0).store(t);
    signal::mark_if_idle(t, l);
    queue::push_back(t, l.key.slot);
}

// An item was popped: the lane goes back, into the queue if it is neither paused nor there.
fn keep_target(t: &mut [u64], l: Lane)
    requires { Shaped t.old × (l.key.slot < slots t.old) × (l.queued ≡ 0 → queue_count t.old < slots t.old) }
    ensures { t.new ≡ keep_target t.old l }
{
    if l.paused != 0 {
        l.store(t);
        return;
    }
    if l.queued != 0 {
        l.store(t);
        return;
    }
    queue_target(t, l);
}

// Of any lane. Called where it is not queued, has no item known or an open window, or where credit is
// due with the item.
fn take_refilled(t: &mut [u64], r: &[u64], slot: u64) -> Answer
    requires { StoreInOrder t.old r.now × (slot < issued t.old) × ((lane_at t.old slot).registered ≡ 1) }
    ensures { (result, t.new) ≡ take_from t.old r.now slot }
{
    let channel = Header::channel(t);
    let ring = Ring::new(slot, t[Header::CAPACITY]);
    match Lane::load(t, slot).refill() {
        Err(found) => settle_target(t, found),
        Ok(lane) => {
            let key = lane.key;
            let taken = lane.pop_targeted(ring, r);
            keep_target(t, taken.lane);
            Header::held_less(t, 1);
            Answer::Item {
                item: taken.item,
                lane: LaneId { channel, key },
            }
        }
    }
}

// The next item of a queued lane that has one at hand.
fn take_at_hand(t: &mut [u64], r: &[u64], l: Lane) -> Answer
    requires { AtHand t.old r.now l }
    ensures { (result, t.new) ≡ take_from t.old r.now l.key.slot }
{
    let key = l.key;
    let taken = l.pop_targeted(Ring::new(key.slot, t[Header::CAPACITY]), r);
    taken.lane.store(t);
    Header::held_less(t, 1);
    let channel = Header::channel(t);
    Answer::Item {
        item: taken.item,
        lane: LaneId { channel, key },
    }
}

// Often the lane is queued and has an item at hand: few of its words change then. Each other way out
// calls the rest itself, with `r` lent anew and the answer in a local, as `try_recv_output` of crate
// `receive` does: the compiler then keeps the rest out of line, and the registers that it needs too.
fn take_from(t: &mut [u64], r: &[u64], slot: u64) -> Answer
    requires { StoreInOrder t.old r.now × (slot < issued t.old) × ((lane_at t.old slot).registered ≡ 1) }
    ensures { (result, t.new) ≡ take_from t.old r.now slot }
{
    let l = Lane::load(t, slot);
    if l.queued == 0 {
        let a = take_refilled(t, &*r, slot);
        return a;
    }
    if !l.is_at_hand(t[Header::CAPACITY]) {
        let a = take_refilled(t, &*r, slot);
        return a;
    }
    take_at_hand(t, r, l)
}

// Receives one item of this lane, paused or not.
pub fn try_recv_from(t: &mut [u64], r: &[u64], id: LaneId) -> Answer
    requires { StoreInOrder t.old r.now }
    ensures { (result, t.new, r.now) ≡ try_recv_from t.old r.now id }
{
    match refusal::id_verdict(t, id) {
        Err(why) => Answer::Refused { why },
        Ok(()) => take_from(t, r, id.key.slot),
    }
}
