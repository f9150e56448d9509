// The two lists of slots, the queue and the free list: what they name is issued, and nothing is named twice.
ghost use Rattle.std.specs.Prelude.{◌≡◌, true, ℕ, ◌≤◌, ◌<◌, replicate};
ghost use Rattle.yring.specs.Lists.{tab};
ghost use Rattle.queues.specs.Header.{Shaped, issued};
ghost use Rattle.queues.specs.Queue.{queue_of};
ghost use Rattle.queues.specs.Registry.{free_of};
ghost use Rattle.order_slot.specs.Tells.{Tells};
ghost use Rattle.order_slot.specs.Clauses.{Names};
ghost use Rattle.order.specs.Seen.{Seen};

use crate::seen::Bitmap;
use lane::table;
use queues::header::Header;
use queues::{queue, registry};

// Notes the `n` slots that `slot_at` answers in `seen`, and says whether each is issued and none is there twice. The set is lent, and not handed
// back in an Option, as a kilobyte would be moved with it.
fn note_all<F: Fn(u64) -> u64>(seen: &mut Bitmap, n: u64, issued: u64, slot_at: F) -> bool
    requires callable { (k : ℕ) → k < n → F.pre slot_at k }
    requires issued_most { issued ≤ 8192 }
    requires empty { seen.old.words ≡ replicate 128 0 }
    ensures tells { (f : ℕ → ℕ) → ((k y : ℕ) → k < n → F.post slot_at k y → y ≡ f k) → Tells (Names issued (tab n f)) result }
    ensures seen { (f : ℕ → ℕ) → ((k y : ℕ) → k < n → F.post slot_at k y → y ≡ f k) → result ≡ true → Seen seen.new.words (tab n f) }
{
    for k in 0..n {
        if !seen.note(slot_at(k), issued) {
            return false;
        }
    }
    true
}

// Leaves the set of the queue's slots.
pub(crate) fn queue_holds(t: &[u64], seen: &mut Bitmap) -> bool
    requires { Shaped t.now × (seen.old.words ≡ replicate 128 0) }
    ensures tells { Tells (Names (issued t.now) (queue_of t.now)) result }
    ensures seen { result ≡ true → Seen seen.new.words (queue_of t.now) }
{
    let front = t[Header::FRONT];
    let slots = t[Header::SLOTS];
    note_all(seen, t[Header::QUEUED], t[Header::ISSUED], |k| {
        table::cell(t, queue::COLUMN, queue::row_of(front, k, slots))
    })
}

// Leaves the set of the free slots.
pub(crate) fn free_holds(t: &[u64], seen: &mut Bitmap) -> bool
    requires { Shaped t.now × (seen.old.words ≡ replicate 128 0) }
    ensures tells { Tells (Names (issued t.now) (free_of t.now)) result }
    ensures seen { result ≡ true → Seen seen.new.words (free_of t.now) }
{
    note_all(seen, t[Header::FREE], t[Header::ISSUED], |d| {
        registry::freed_at(t, d)
    })
}
