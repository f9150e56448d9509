// The sender's end of a lane's ring: the producer of src/ring.rs.
ghost use Rattle.std.specs.Prelude.{◌≡◌};
ghost use Rattle.lane.specs.Lane.{push_and_flush};

use crate::lane::Lane;
use yring::ring::Ring;

// The lane with an item more, and how many places are free then.
#[derive(Clone, Copy)]
pub struct Sent {
    pub lane: Lane,
    pub free: u64,
}

impl Lane {
    // The lane with one item more, published, unless its ring is full. The caller puts the item
    // at the tail that the lane had.
    pub fn push_and_flush(mut self, ring: Ring) -> Option<Sent>
        ensures { result ≡ push_and_flush ring self }
    {
        let pushed = ring.push(self.tail, self.released)?;
        self.tail = pushed.cursor;
        Some(Sent {
            lane: self,
            free: pushed.free,
        })
    }
}
