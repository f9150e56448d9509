// A lane: one sender's cursors and the receiver's counts. Port of src/mpsc/receiver/lane.rs.
// A method takes the lane and hands the next one back.
ghost use Rattle.std.specs.Prelude.{◌≡◌, true, false, Ok, ◌+◌, ◌-◌, ◌≤◌, ◌<◌, length};
ghost use Rattle.model.specs.State.{release_batch};
ghost use Rattle.yring.specs.Cursor.{Capacity};
ghost use Rattle.yring.specs.Ring.{Within};
ghost use Rattle.lane.specs.Order.{InOrder, Filled, FoundEmpty, Refundable};
ghost use Rattle.lane.specs.Lane.{
  new_lane,
  close_fast,
  window_for,
  open_window,
  grant_fast,
  pop_window,
  pop_fast,
  charge,
  add_burst,
  end_burst,
  release_at_batch,
  poll_item,
  poll,
  pop_fair,
  fair_window,
  burst_of_window,
  pop_targeted,
  end_full_burst,
  reload_is_empty,
  release_pending,
  refill,
  chunk_limit,
  move_chunk,
  settle_empty,
};

use crate::consumer::Taken;
use model::LaneKey;
use yring::release::release_batch;
use yring::ring::Ring;

// Flags are words that hold 0 or 1, so that a record loaded and stored is the same words.
#[derive(Clone, Copy)]
pub struct Lane {
    pub key: LaneKey,
    // The sender's cursors: where it stores next, and the head published to it.
    pub tail: u64,
    pub released: u64,
    // The receiver's: where it reads next, and the tail that it knows of (`cached_tail`).
    pub head: u64,
    pub known: u64,
    // Items known of and not in the window (`cached_available`).
    pub cached: u64,
    // Items popped, or in the window, whose places have not gone back.
    pub unreleased: u64,
    // Items of this turn at the front, those in the window included.
    pub burst: u64,
    // Items that plain receives may still pop with no more counting (`fast_left`).
    pub window: u64,
    pub pending: u64,
    pub queued: u64,
    pub paused: u64,
    pub registered: u64,
    pub living: u64,
}

// Here and in the structs below a flag says one thing more of a lane that is there in any case, so there is no Option to it.
#[derive(Clone, Copy)]
pub struct Released {
    pub lane: Lane,
    pub released: bool,
}

// A lane that was found empty. The Rust's `EmptyLane::Keep` never occurs: see `keep_never`.
#[derive(Clone, Copy)]
pub struct EmptyLane {
    pub lane: Lane,
    pub disconnected: bool,
    pub released: bool,
}

// An item of a poll. `rotate`: the lane's turn at the front is over.
#[derive(Clone, Copy)]
pub struct LanePoll {
    pub item: u64,
    pub rotate: bool,
    pub released: bool,
    pub lane: Lane,
}

#[derive(Clone, Copy)]
pub struct Targeted {
    pub item: u64,
    pub lane: Lane,
    pub released: bool,
}

#[derive(Clone, Copy)]
pub struct BurstEnd {
    pub lane: Lane,
    pub ended: bool,
}

#[derive(Clone, Copy)]
pub struct Reloaded {
    pub lane: Lane,
    pub empty: bool,
}

impl Lane {
    // The most items of one turn at the front.
    pub const PREFETCH_LIMIT: u64 = 64;

    // A lane newly registered: idle, unpaused, unqueued, all of its cursors at the first one.
    pub fn new(key: LaneKey, cursor: u64) -> Self
        ensures { result ≡ new_lane key cursor }
    {
        Lane {
            key,
            tail: cursor,
            released: cursor,
            head: cursor,
            known: cursor,
            cached: 0,
            unreleased: 0,
            burst: 0,
            window: 0,
            pending: 0,
            queued: 0,
            paused: 0,
            registered: 1,
            living: 1,
        }
    }

    // What a window may hold: one short of the release batch and of the burst limit, so that the
    // item that completes either is counted in full.
    fn window_for(self, capacity: u64, budget: u64) -> u64
        requires { Capacity capacity × InOrder capacity self }
        ensures { result ≡ window_for capacity budget self }
    {
        let credit = release_batch(capacity).saturating_sub(self.unreleased + 1);
        let turn = Lane::PREFETCH_LIMIT.saturating_sub(self.burst + 1);
        self.cached.min(credit).min(turn).min(budget)
    }

    // A window of `n` items, charged to the counts at once.
    fn open_window(mut self, n: u64) -> Lane
        requires { (n ≤ self.cached) × (self.unreleased + n ≤ 131072) × (self.burst + n ≤ 131072) }
        ensures { result ≡ open_window n self }
    {
        self.cached -= n;
        self.unreleased += n;
        self.burst += n;
        self.window = n;
        self
    }

    // Opens a window of at most `budget` items.
    pub fn grant_fast(self, capacity: u64, budget: u64) -> Lane
        requires { Capacity capacity × InOrder capacity self }
        ensures { result ≡ grant_fast capacity budget self }
    {
        let lane = self.close_fast().reload();
        let n = lane.window_for(capacity, budget);
        lane.open_window(n)
    }

    // Pops the next item of the window, if one is open.
    pub fn pop_fast(self, ring: Ring, store: &[u64]) -> Option<Taken>
        requires { Within ring (length store.now) }
        ensures { result ≡ pop_fast ring store.now self }
    {
        if self.window == 0 {
            return None;
        }
        Some(self.pop_window(ring, store))
    }

    // The next item of a window that has one.
    pub fn pop_window(self, ring: Ring, store: &[u64]) -> Taken
        requires { Within ring (length store.now) × (0 < self.window) }
        ensures { result ≡ pop_window ring store.now self }
    {
        let taken = self.pop(ring, store);
        let mut lane = taken.lane;
        lane.window -= 1;
        Taken {
            item: taken.item,
            lane,
        }
    }

    // Refunds what is left of the window to the counts.
    pub fn close_fast(mut self) -> Lane
        requires { Refundable self }
        ensures { result ≡ close_fast self }
    {
        self.cached += self.window;
        self.unreleased -= self.window;
        self.burst -= self.window;
        self.window = 0;
        self
    }

    // `n` items leave the cached count for the unreleased one.
    fn charge(mut self, n: u64) -> Lane
        requires { (n ≤ self.cached) × (self.unreleased + n ≤ 131072) }
        ensures { result ≡ charge n self }
    {
        self.cached -= n;
        self.unreleased += n;
        self
    }

    // `n` items more of this turn at the front.
    fn add_burst(mut self, n: u64) -> Lane
        requires { self.burst + n ≤ 131072 }
        ensures { result ≡ add_burst n self }
    {
        self.burst += n;
        self
    }

    // A turn at the front ends where `rotate` says so.
    fn end_burst(mut self, rotate: bool) -> Lane
        ensures { result ≡ end_burst rotate self }
    {
        if rotate {
            self.burst = 0;
        }
        self
    }

    // Gives credit back where the unreleased count has reached the batch.
    fn release_at_batch(self, capacity: u64) -> Released
        requires { Capacity capacity × (self.window ≡ 0) }
        ensures { result ≡ release_at_batch capacity self }
    {
        if self.unreleased == release_batch(capacity) {
            return Released {
                lane: self.release(),
                released: true,
            };
        }
        Released {
            lane: self,
            released: false,
        }
    }

    // The next item of a lane that `refill` found ready, its turn at the front counted.
    fn poll_item(self, ring: Ring, store: &[u64], fair: bool) -> LanePoll
        requires { Within ring (length store.now) × Filled ring.capacity self }
        ensures { Ok result ≡ poll_item ring store.now fair self }
    {
        let taken = self.pop_targeted(ring, store);
        let lane = taken.lane.add_burst(1);
        let rotate = fair | (lane.burst == Lane::PREFETCH_LIMIT);
        LanePoll {
            item: taken.item,
            rotate,
            released: taken.released,
            lane: lane.end_burst(rotate),
        }
    }

    // Pops one item with full counting: credit at the release batch, and the end of the turn at
    // the burst limit, or with every item where `fair`.
    pub fn poll(self, ring: Ring, store: &[u64], fair: bool) -> Result<LanePoll, EmptyLane>
        requires { Within ring (length store.now) × InOrder ring.capacity self }
        ensures { result ≡ poll ring store.now fair self }
    {
        Ok(self.refill()?.poll_item(ring, store, fair))
    }

    // Whether an item is at hand that only needs counting: no window is open, and no credit is due with it.
    pub fn is_at_hand(self, capacity: u64) -> bool
        requires { Capacity capacity × InOrder capacity self }
        ensures { result ≡ true → Filled capacity self × (self.unreleased + 1 ≡ release_batch capacity → ⊥) }
    {
        self.window == 0 && self.cached != 0 && self.unreleased + 1 != release_batch(capacity)
    }

    // `poll` of a fair receive, where an item is at hand.
    pub fn poll_at_hand(self, ring: Ring, store: &[u64]) -> Taken
        requires { Within ring (length store.now) × Filled ring.capacity self × (self.unreleased + 1 ≡ release_batch ring.capacity → ⊥) }
        ensures { poll ring store.now true self ≡ Ok (record { item = result.item; rotate = true; released = false; lane = result.lane }) }
    {
        let taken = self.pop(ring, store);
        let lane = taken.lane;
        Taken {
            item: taken.item,
            lane: lane.charge(1).end_burst(true),
        }
    }

    // Pops an item for a fair receive from the only queued lane, through the window that
    // `fair_window` left. A fair receive ends the burst, which then counts only what is left in it.
    pub fn pop_fair(self, ring: Ring, store: &[u64]) -> Taken
        requires { Within ring (length store.now) × (0 < self.window) }
        ensures { result ≡ pop_fair ring store.now self }
    {
        let taken = self.pop_window(ring, store);
        let lane = taken.lane;
        Taken {
            item: taken.item,
            lane: lane.burst_of_window(),
        }
    }

    // The window of a fair receive: the one that is open, or one opened at burst 0.
    pub fn fair_window(self, capacity: u64, budget: u64) -> Lane
        requires { Capacity capacity × InOrder capacity self }
        ensures { result ≡ fair_window capacity budget self }
    {
        if self.window == 0 {
            return self.end_burst(true).grant_fast(capacity, budget);
        }
        self
    }

    // The burst counts only what is left in the window.
    fn burst_of_window(mut self) -> Lane
        ensures { result ≡ burst_of_window self }
    {
        self.burst = self.window;
        self
    }

    // Pops the next item of a lane that `refill` found ready, and leaves the burst alone.
    pub fn pop_targeted(self, ring: Ring, store: &[u64]) -> Targeted
        requires { Within ring (length store.now) × Filled ring.capacity self }
        ensures { result ≡ pop_targeted ring store.now self }
    {
        let taken = self.pop(ring, store);
        let done = taken.lane.charge(1).release_at_batch(ring.capacity);
        let lane = done.lane;
        Targeted {
            item: taken.item,
            lane,
            released: done.released,
        }
    }

    // Ends a burst that has reached the limit, and says whether it had.
    pub fn end_full_burst(self) -> BurstEnd
        ensures { result ≡ end_full_burst self }
    {
        let ended = self.burst == Lane::PREFETCH_LIMIT;
        BurstEnd {
            lane: self.end_burst(ended),
            ended,
        }
    }

    // Looks again, and says whether the ring is empty.
    pub fn reload_is_empty(self) -> Reloaded
        requires { Refundable self }
        ensures { result ≡ reload_is_empty self }
    {
        let lane = self.close_fast().reload();
        Reloaded {
            lane,
            empty: lane.cached == 0,
        }
    }

    // Gives back the places of all popped items, and says whether there were any.
    pub fn release_pending(self) -> Released
        requires { Refundable self }
        ensures { result ≡ release_pending self }
    {
        let lane = self.close_fast();
        if lane.unreleased == 0 {
            return Released {
                lane,
                released: false,
            };
        }
        Released {
            lane: lane.release(),
            released: true,
        }
    }

    // Closes the window and looks again where nothing is cached: ready, or found empty and settled.
    pub fn refill(self) -> Result<Lane, EmptyLane>
        requires { Refundable self }
        ensures { result ≡ refill self }
    {
        let lane = self.close_fast().reload();
        if lane.cached == 0 {
            return Err(lane.settle_empty());
        }
        Ok(lane)
    }

    // The most items that one move may take before credit is due or the turn ends.
    pub fn chunk_limit(self, capacity: u64) -> u64
        requires { Capacity capacity × InOrder capacity self }
        ensures { result ≡ chunk_limit capacity self }
    {
        self.cached
            .min(Lane::PREFETCH_LIMIT - self.burst)
            .min(release_batch(capacity) - self.unreleased)
    }

    // The lane once `take` of its items are moved, of one that `refill` found ready. Every item is
    // admitted, so that as many are moved as were asked for. The caller moves them, by
    // `Ring::pop_into`; if it stores the lane, then before that, so that the compiler sees which of its
    // words did not change. A burst that is full now is ended by `end_full_burst`.
    pub fn move_chunk(self, capacity: u64, take: u64) -> Lane
        requires { Capacity capacity × Filled capacity self × (take ≤ chunk_limit capacity self) }
        ensures { result ≡ move_chunk capacity take self }
    {
        let done = self
            .advance(take)
            .charge(take)
            .add_burst(take)
            .release_at_batch(capacity);
        done.lane
    }

    // Settles a lane that was found empty: credit back, signal idle, burst 0, out of the queue.
    fn settle_empty(self) -> EmptyLane
        requires { FoundEmpty self }
        ensures { result ≡ settle_empty self }
    {
        let done = self.release_pending();
        let mut lane = done.lane;
        lane.burst = 0;
        lane.pending = 0;
        lane.queued = 0;
        EmptyLane {
            lane,
            disconnected: lane.living == 0,
            released: done.released,
        }
    }
}
