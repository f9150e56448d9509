// A ring of items in a lent store: yring/src/ring.rs, serially, with u64 cursors that wrap.
ghost use Rattle.std.specs.Prelude.{◌≡◌, ◌+◌, ◌^◌, ◌<◌, ◌≤◌, length, slice_set};
ghost use Rattle.yring.specs.Lists.{written};
ghost use Rattle.yring.specs.Cursor.{after, distance, Capacity};
ghost use Rattle.yring.specs.Ring.{Within, new_ring, index, item_at, items, run, push, put, pop_into, accepted_prefix};

// Where a lane's ring lies in the ring store.
#[derive(Clone, Copy)]
pub struct Ring {
    pub base: u64,
    pub capacity: u64,
}

// The cursor after an item, and how many places are free then.
#[derive(Clone, Copy)]
pub struct Pushed {
    pub cursor: u64,
    pub free: u64,
}

// How far `to` stands after `from`.
pub fn distance(to: u64, from: u64) -> u64
    ensures { result ≡ distance to from }
{
    to.wrapping_sub(from)
}

// The cursor `n` further.
pub fn after(cursor: u64, n: u64) -> u64
    ensures { result ≡ after cursor n }
{
    cursor.wrapping_add(n)
}

// How many places are free where so many are in use; 0 exactly if all are. It wraps where more are.
fn free_places(capacity: u64, used: u64) -> u64
    ensures { (result ≡ distance capacity used) × (result ≡ 0 → used ≡ capacity) }
{
    distance(capacity, used)
}

impl Ring {
    // The ring of a slot.
    pub fn new(slot: u64, capacity: u64) -> Self
        requires { (slot < 8192) × (capacity ≤ 65536) }
        ensures { result ≡ new_ring slot capacity }
    {
        Ring {
            base: slot * capacity,
            capacity,
        }
    }

    // Where a cursor's item stands. The capacity is a power of two, so the mask is the remainder.
    pub fn index(self, cursor: u64) -> usize
        requires { Capacity self.capacity × (self.base + self.capacity < 2 ^ 64) }
        ensures { (result ≡ index self cursor) × (result < self.base + self.capacity) }
    {
        (self.base + (cursor & (self.capacity - 1))) as usize
    }

    // The cursor after a push and the places that are left, unless the ring is full. A place is in use
    // until its credit is back. The item's word is `put` once the cursor is
    // stored: the compiler then sees which words of the lane did not change.
    pub fn push(self, cursor: u64, released: u64) -> Option<Pushed>
        ensures { result ≡ push self cursor released }
    {
        let free = free_places(self.capacity, distance(cursor, released));
        if free == 0 {
            return None;
        }
        Some(Pushed {
            cursor: after(cursor, 1),
            free: free - 1,
        })
    }

    // Stores an item at a cursor.
    pub fn put(self, store: &mut [u64], cursor: u64, item: u64)
        requires { Within self (length store.old) }
        ensures { store.new ≡ put self store.old cursor item }
    {
        put_at(store, self.index(cursor), item);
    }

    // The item at a cursor.
    pub fn item_at(self, store: &[u64], cursor: u64) -> u64
        requires { Within self (length store.now) }
        ensures { result ≡ item_at self store.now cursor }
    {
        let at = self.index(cursor);
        store[at]
    }

    // How many of the `count` items from the head on stand before the first that is above `bound`.
    pub fn accepted_prefix(self, store: &[u64], head: u64, count: u64, bound: u64) -> u64
        requires { Within self (length store.now) }
        ensures { (result ≡ accepted_prefix bound (items self store.now head count)) × (result ≤ count) }
    {
        let mut accepted = 0;
        while accepted < count {
            if self.item_at(store, after(head, accepted)) > bound {
                return accepted;
            }
            accepted += 1;
        }
        accepted
    }

    // Moves the `count` items from the head on to the output: up to the ring's end, then from its start. The output is lent, and the place stands beside it:
    // crate `queues`, module `header`, has why.
    pub fn pop_into(self, store: &[u64], head: u64, count: u64, out: &mut [u64], at: usize)
        requires { Within self (length store.now) × (count ≤ self.capacity) × (count ≤ 64) × (at + count ≤ length out.old) }
        ensures { out.new ≡ pop_into self store.now head count out.old at }
    {
        let n = count as usize;
        let start = self.index(head);
        let base = self.base as usize;
        let end = base + self.capacity as usize;
        if n <= end - start {
            move_slots(store, start, n, out, at);
            return;
        }
        let first = end - start;
        move_slots(store, start, first, out, at);
        move_slots(store, base, n - first, out, at + first);
    }
}

// Stores an item at its place.
pub fn put_at(store: &mut [u64], at: usize, item: u64)
    requires { at < length store.old }
    ensures { store.new ≡ slice_set store.old at item }
{
    store[at] = item;
}

// Moves `len` words that stand together. They go through an array of this function, which overlaps
// neither slice: the compiler then leaves the array out, and has the C library move them. From slice to slice, or by
// `copy_from_slice` through the array, a batch takes longer.
fn move_slots(src: &[u64], start: usize, len: usize, out: &mut [u64], at: usize)
    requires { (start + len ≤ length src.now) × (len ≤ 64) × (at + len ≤ length out.old) }
    ensures { out.new ≡ written out.old at (run src.now start len) }
{
    let mut block = [0; 64];
    copy_words(src, start, len, &mut block, 0);
    copy_words(&block, 0, len, out, at);
}

// Copies words one by one.
fn copy_words(src: &[u64], start: usize, len: usize, out: &mut [u64], at: usize)
    requires { (start + len ≤ length src.now) × (at + len ≤ length out.old) }
    ensures { out.new ≡ written out.old at (run src.now start len) }
{
    for i in 0..len {
        out[at + i] = src[start + i];
    }
}
