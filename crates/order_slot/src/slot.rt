// An issued slot: its lane, and what the header, the queue, the free list and its page say of it.
ghost use Rattle.std.specs.Prelude.{◌≡◌, ◌≤◌, ◌<◌};
ghost use Rattle.model.specs.State.{release_batch};
ghost use Rattle.queues.specs.Header.{Shaped, issued, capacity, fast_slot, budget};
ghost use Rattle.queues.specs.Queue.{queue_of};
ghost use Rattle.ready.specs.Ready.{page_bit};
ghost use Rattle.store.specs.Order.{Fast};
ghost use Rattle.store.specs.Held.{held_in};
ghost use Rattle.order_slot.specs.Tells.{Tells};
ghost use Rattle.order_slot.specs.Clauses.{RegisteredHolds, UnregisteredHolds, SlotHolds};

use crate::record;
use lane::lane::Lane;
use queues::header::Header;
use queues::queue;
use ready::ready::Page;
use yring::ring;

// Whether a slot's window, if it has one, is the front lane's at `fast_slot` and within the budget.
fn window_holds(t: &[u64], slot: u64, window: u64) -> bool
    requires { Shaped t.now }
    ensures { Tells (0 < window → Fast slot (fast_slot t.now) (queue_of t.now) window (budget t.now)) result }
{
    window == 0
        || (slot == t[Header::FAST]
            && t[Header::QUEUED] != 0
            && queue::front_slot(t) == slot
            && window <= t[Header::BUDGET])
}

// Whether the page bit is set of a lane that is pending, unpaused and unqueued.
fn mark_holds(t: &[u64], l: Lane, slot: u64, queued: u64) -> bool
    requires { Shaped t.now × (slot < issued t.now) }
    ensures { Tells (l.paused ≡ 0 → l.pending ≡ 1 → queued ≡ 0 → page_bit t.now slot ≡ 1) result }
{
    let at = slot as usize;
    l.paused != 0
        || l.pending != 1
        || queued != 0
        || (Page::load(t, at / Page::LANES_PER_PAGE).bits >> (at % Page::LANES_PER_PAGE)) % 2 == 1
}

// Whether the queued flag says how often the queue names the lane, and the queue names no paused one.
fn queued_holds(l: Lane, queued: u64) -> bool
    ensures { Tells ((l.queued ≡ queued) × (1 ≤ queued → l.paused ≡ 0)) result }
{
    l.queued == queued && (queued == 0 || l.paused == 0)
}

fn registered_holds(t: &[u64], l: Lane, slot: u64, queued: u64, free: u64, batch: u64) -> bool
    requires { Shaped t.now × (slot < issued t.now) × (batch ≡ release_batch (capacity t.now)) }
    ensures { Tells (RegisteredHolds t.now l slot queued free) result }
{
    free == 0
        && queued_holds(l, queued)
        && mark_holds(t, l, slot, queued)
        && window_holds(t, slot, l.window)
        && record::lane_holds(l, t[Header::CAPACITY], batch)
}

// The slot stands `named` times in the queue.
fn unregistered_holds(generation: u64, named: u64, free: u64) -> bool
    ensures { Tells (UnregisteredHolds generation named free) result }
{
    named == 0 && (free == 0 || generation != u64::MAX)
}

// The slot stands `queued` times in the queue and `free` times in the free list.
pub fn slot_holds(t: &[u64], l: Lane, slot: u64, queued: u64, free: u64, batch: u64) -> bool
    requires { Shaped t.now × (slot < issued t.now) × (batch ≡ release_batch (capacity t.now)) }
    ensures { Tells (SlotHolds t.now l slot queued free) result }
{
    if !record::flags_hold(l) {
        return false;
    }
    if l.registered == 1 {
        registered_holds(t, l, slot, queued, free, batch)
    } else {
        unregistered_holds(l.key.generation, queued, free)
    }
}

// The items in a slot's ring; of a slot without a lane the cursors say nothing.
pub fn held_in(l: Lane) -> u64
    ensures { result ≡ held_in l }
{
    if l.registered == 1 {
        ring::distance(l.tail, l.head)
    } else {
        0
    }
}
