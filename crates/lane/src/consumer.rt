// The receiver's end of a lane's ring: yring/src/consumer.rs.
ghost use Rattle.std.specs.Prelude.{◌≡◌, length};
ghost use Rattle.yring.specs.Ring.{Within};
ghost use Rattle.lane.specs.Lane.{prefetch, reload, release, pop, advance};

use crate::lane::Lane;
use yring::ring;
use yring::ring::Ring;

#[derive(Clone, Copy)]
pub struct Taken {
    pub item: u64,
    pub lane: Lane,
}

impl Lane {
    // Counts what was published since the last look. The Rust looks a second time where there is
    // nothing, for a sender that waits: serially that finds nothing either.
    pub(crate) fn prefetch(mut self) -> Lane
        requires { self.cached ≡ 0 }
        ensures { result ≡ prefetch self }
    {
        self.cached = ring::distance(self.tail, self.known);
        self.known = self.tail;
        self
    }

    // Looks again once the items known of are used up.
    pub(crate) fn reload(self) -> Lane
        ensures { result ≡ reload self }
    {
        if self.cached == 0 {
            return self.prefetch();
        }
        self
    }

    // Gives the places of all popped items back. No window is open, so the unreleased count has no
    // other items.
    pub(crate) fn release(mut self) -> Lane
        requires { self.window ≡ 0 }
        ensures { result ≡ release self }
    {
        self.released = self.head;
        self.unreleased = 0;
        self
    }

    // The item at the head, and the lane with the head past it. The caller knows that there is one.
    pub(crate) fn pop(mut self, ring: Ring, store: &[u64]) -> Taken
        requires { Within ring (length store.now) }
        ensures { result ≡ pop ring store.now self }
    {
        let item = ring.item_at(store, self.head);
        self.head = ring::after(self.head, 1);
        Taken { item, lane: self }
    }

    // The lane with the head `count` items on. The caller moves them to the output.
    pub(crate) fn advance(mut self, count: u64) -> Lane
        ensures { result ≡ advance count self }
    {
        self.head = ring::after(self.head, count);
        self
    }
}
