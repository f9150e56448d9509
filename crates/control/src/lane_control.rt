// Pausing, resuming and closing: receiver/lane_control.rs, and the Drop of receiver.rs.
ghost use Rattle.std.specs.Prelude.{◌≡◌, ◌<◌, Ok, Err};
ghost use Rattle.model.specs.declared.Refusal.{Refusal};
ghost use Rattle.model.specs.declared.Answer.TheVariants.{Done, Refused};
ghost use Rattle.lane.specs.Table.{lane_at};
ghost use Rattle.store.specs.Refusal.{id_verdict};
ghost use Rattle.lane.specs.Order.{Refundable};
ghost use Rattle.queues.specs.Header.{Shaped, slots, queue_count, free_count, lane_count};
ghost use Rattle.store.specs.Order.{StoreInOrder};
ghost use Rattle.control.specs.Control.{with_turn, pause_lane, pause, resume_lane, resume, close, close_lane, close_receiver};

use lane::lane::Lane;
use model::{Answer, LaneId};
use queues::header::Header;
use queues::queue;
use store::{refusal, registry, signal};
use yring::ring;

pub fn with_turn(mut l: Lane, pending: u64, queued: u64, paused: u64) -> Lane
    ensures { result ≡ with_turn pending queued paused l }
{
    l.pending = pending;
    l.queued = queued;
    l.paused = paused;
    l
}

// What a call does with the lane that has an id, where no refusal applies.
fn with_lane<F: FnOnce(&mut [u64], Lane)>(t: &mut [u64], id: LaneId, act: F) -> Answer
    requires shaped { Shaped t.old }
    requires callable { (a : _) → a.now ≡ t.old → id_verdict t.old id ≡ Ok (tt {0}) → F.pre act a (lane_at t.old id.key.slot) }
    ensures refused { (why : Refusal) → id_verdict t.old id ≡ Err why → (result ≡ Refused why) × (t.new ≡ t.old) }
    ensures done { id_verdict t.old id ≡ Ok (tt {0}) → (result ≡ Done) × (a : _) × (b : _) × (a.now ≡ t.old) × (b.now ≡ t.new) × F.post act a (lane_at t.old id.key.slot) tt b }
{
    match refusal::id_verdict(t, id) {
        Err(why) => Answer::Refused { why },
        Ok(()) => {
            let l = Lane::load(t, id.key.slot);
            act(t, l);
            Answer::Done
        }
    }
}

// Ordinary receives skip a paused lane, so nothing else would give its credit back.
fn pause_lane(t: &mut [u64], l: Lane)
    requires { Shaped t.old × (l.key.slot < slots t.old) × Refundable l }
    ensures { t.new ≡ pause_lane t.old l }
{
    let done = l.release_pending();
    with_turn(done.lane, l.pending, 0, 1).store(t);
    queue::remove(t, l.key.slot);
}

// Takes a lane out of all receives but targeted ones.
pub fn pause(t: &mut [u64], r: &[u64], id: LaneId) -> Answer
    requires { StoreInOrder t.old r.now }
    ensures { (result, t.new, r.now) ≡ pause t.old r.now id }
{
    with_lane(t, id, pause_lane)
}

// The lane goes to the back of the queue whether or not it has items: the next receive looks.
fn resume_lane(t: &mut [u64], l: Lane)
    requires { Shaped t.old × (l.key.slot < slots t.old) × (l.paused ≡ 1 → queue_count t.old < slots t.old) }
    ensures { t.new ≡ resume_lane t.old l }
{
    if l.paused != 1 {
        return;
    }
    with_turn(l, 1, 1, 0).store(t);
    signal::mark_if_idle(t, l);
    queue::push_back(t, l.key.slot);
}

// Brings a paused lane back; a lane that is not paused stays as it is.
pub fn resume(t: &mut [u64], r: &[u64], id: LaneId) -> Answer
    requires { StoreInOrder t.old r.now }
    ensures { (result, t.new, r.now) ≡ resume t.old r.now id }
{
    with_lane(t, id, resume_lane)
}

// Out of the queue, and retired; the items of its ring are held no more.
fn close(t: &mut [u64], l: Lane)
    requires { Shaped t.old × (l.key.slot < slots t.old) × (free_count t.old < slots t.old) × (0 < lane_count t.old) }
    ensures { t.new ≡ close t.old l }
{
    queue::remove(t, l.key.slot);
    registry::retire_lane(t, l);
    Header::held_less(t, ring::distance(l.tail, l.head));
}

// Retires a lane, with the items that it holds.
pub fn close_lane(t: &mut [u64], r: &[u64], id: LaneId) -> Answer
    requires { StoreInOrder t.old r.now }
    ensures { (result, t.new, r.now) ≡ close_lane t.old r.now id }
{
    with_lane(t, id, close)
}

// The receiver goes; its lanes stay as they are, and their senders find it closed.
pub fn close_receiver(t: &mut [u64], r: &[u64]) -> Answer
    requires { StoreInOrder t.old r.now }
    ensures { (result, t.new, r.now) ≡ close_receiver t.old r.now }
{
    match refusal::receiver_verdict(t) {
        Err(why) => Answer::Refused { why },
        Ok(()) => {
            t[Header::ALIVE] = 0;
            Answer::Done
        }
    }
}
