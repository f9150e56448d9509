#![tactic(auto)]
// Whether two stores are in order, for stores that nobody vouches for.
ghost use Rattle.std.specs.Prelude.{◌≡◌, true};
ghost use Rattle.store.specs.Order.{StoreInOrder};

mod header;
mod marks;
mod names;
mod seen;
mod slots;

use seen::Bitmap;

// Any words, of any length. Nothing is read before the lengths are known, and no word is used before it is tested.
pub fn in_order(t: &[u64], r: &[u64]) -> bool
    ensures { (result ≡ true → StoreInOrder t.now r.now) × (StoreInOrder t.now r.now → result ≡ true) }
{
    // Each set is cleared, a kilobyte, only where what stands before it holds.
    if !header::header_holds(t, r) {
        return false;
    }
    let mut queued = Bitmap::new();
    if !names::queue_holds(t, &mut queued) {
        return false;
    }
    let mut free = Bitmap::new();
    names::free_holds(t, &mut free)
        && slots::slots_hold(t, &queued, &free)
        && marks::pages_hold(t)
        && marks::groups_hold(t)
}
