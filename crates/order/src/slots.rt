// All issued slots, each read once.
ghost use Rattle.yring.specs.Cursor.{Capacity};
ghost use Rattle.queues.specs.Header.{Shaped, capacity};
ghost use Rattle.order_slot.specs.Tells.{Tells};
ghost use Rattle.order_slot.specs.Clauses.{SlotsHold, CountsHold};
ghost use Rattle.order.specs.Seen.{has};

use crate::seen::Bitmap;
use lane::lane::Lane;
use order_slot::slot as each;
use queues::header::Header;
use yring::release;

// Whether every issued slot is in order, and the counts of lanes, living senders and held items are true.
pub(crate) fn slots_hold(t: &[u64], queued: &Bitmap, free: &Bitmap) -> bool
    requires { Shaped t.now × Capacity (capacity t.now) }
    ensures { Tells (SlotsHold t.now (has queued.now.words) (has free.now.words) × CountsHold t.now) result }
{
    let batch = release::release_batch(t[Header::CAPACITY]);
    let mut lanes = 0;
    let mut living = 0;
    let mut held = 0;
    for slot in 0..t[Header::ISSUED] {
        let l = Lane::load(t, slot);
        let q = queued.has(slot as usize);
        let f = free.has(slot as usize);
        if !each::slot_holds(t, l, slot, q, f, batch) {
            return false;
        }
        lanes += l.registered;
        living += l.living;
        held += each::held_in(l);
    }
    lanes == t[Header::LANES] && living == t[Header::LIVING] && held == t[Header::HELD]
}
