// A lane's record by itself: its flags, its cursors and its counts.
ghost use Rattle.std.specs.Prelude.{◌≡◌};
ghost use Rattle.model.specs.State.{release_batch};
ghost use Rattle.lane.specs.Order.{Cursors, Counts, InOrder};
ghost use Rattle.store.specs.Order.{Flags};
ghost use Rattle.order_slot.specs.Tells.{Tells};

use lane::lane::Lane;
use yring::ring;

pub(crate) fn flags_hold(l: Lane) -> bool
    ensures { Tells (Flags l) result }
{
    l.pending <= 1 && l.queued <= 1 && l.paused <= 1 && l.registered <= 1 && l.living <= 1
}

fn cursors_hold(capacity: u64, tail: u64, released: u64, head: u64, known: u64) -> bool
    ensures { Tells (Cursors capacity tail released head known) result }
{
    ring::distance(head, released) <= capacity
        && ring::distance(known, head) <= capacity
        && ring::distance(tail, known) <= capacity
        && ring::distance(tail, released) <= capacity
}

// `taken` is how far the head is from the released head, and `ahead` how far the known tail is from the head.
fn counts_hold(l: Lane, batch: u64, taken: u64, ahead: u64) -> bool
    ensures { Tells (Counts batch taken ahead l.cached l.unreleased l.burst l.window) result }
{
    l.burst < Lane::PREFETCH_LIMIT
        && l.window <= l.burst
        && l.unreleased < batch
        && l.window <= ahead
        && l.cached == ahead - l.window
        && l.window <= l.unreleased
        && l.unreleased - l.window == taken
}

pub(crate) fn lane_holds(l: Lane, capacity: u64, batch: u64) -> bool
    requires { batch ≡ release_batch capacity }
    ensures { Tells (InOrder capacity l) result }
{
    let taken = ring::distance(l.head, l.released);
    let ahead = ring::distance(l.known, l.head);
    cursors_hold(capacity, l.tail, l.released, l.head, l.known)
        && counts_hold(l, batch, taken, ahead)
}
