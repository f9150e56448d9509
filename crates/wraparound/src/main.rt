// Runs a lane past the top of its cursors, which are u64 that wrap. The lane starts three short of
// 2^64; its ring is filled until a send is refused and emptied until nothing is left, again and
// again. The items are numbered, and the program looks that they come out by their numbers.
#![tactic(auto)]

ghost use Rattle.std.specs.Prelude.{◌≡◌, true, ℕ, ◌<◌, ◌≤◌, get_or};
ghost use Rattle.yring.specs.Cursor.{after, distance, Capacity};
ghost use Rattle.yring.specs.Ring.{Within};
ghost use Rattle.lane.specs.Order.{InOrder, Filled};

use lane::lane::Lane;
use model::LaneKey;
use yring::ring;
use yring::ring::Ring;

// How far a lane has come: the next item to send, the next one due, and whether each item that came
// out was the one due: a flag of a run that goes on in any case.
#[derive(Clone, Copy)]
struct Run {
    lane: Lane,
    send: u64,
    due: u64,
    good: bool,
}

// Sends until the ring is full.
fn fill(run: Run, ring: Ring, store: &mut [u64; 64]) -> Run
    requires { Within ring 64 × InOrder ring.capacity run.lane }
    ensures { InOrder ring.capacity result.lane × (distance result.lane.tail result.lane.released ≡ ring.capacity) }
{
    let mut lane = run.lane;
    let mut send = run.send;
    while let Some(sent) = lane.push_and_flush(ring) {
        ring.put(store, lane.tail, send);
        lane = sent.lane;
        send = ring::after(send, 1);
    }
    Run { lane, send, ..run }
}

// Receives item by item until the lane is empty.
fn receive_items(run: Run, ring: Ring, store: &[u64; 64]) -> Run
    requires { Within ring 64 × InOrder ring.capacity run.lane }
    ensures { InOrder ring.capacity result.lane × (result.lane.head ≡ result.lane.tail) }
{
    let mut lane = run.lane;
    let mut due = run.due;
    let mut good = run.good;
    loop {
        match lane.poll(ring, store, false) {
            Err(found) => {
                return Run {
                    lane: found.lane,
                    due,
                    good,
                    ..run
                };
            }
            Ok(polled) => {
                lane = polled.lane;
                good = good & (polled.item == due);
                due = ring::after(due, 1);
            }
        }
    }
}

// Whether the first `count` items are numbered from `first` on.
fn numbered(items: &[u64; 64], count: usize, first: u64) -> bool
    requires { count ≤ 64 }
    ensures { result ≡ true → (i : ℕ) → i < count → get_or items.now i 0 ≡ after first i }
{
    for i in 0..count {
        if items[i] != ring::after(first, i as u64) {
            return false;
        }
    }
    true
}

// Moves as many items of a lane that has some as one move may: up to the ring's end and on from its
// start.
fn receive_chunk(run: Run, lane: Lane, ring: Ring, store: &[u64; 64]) -> Run
    requires { Within ring 64 × Filled ring.capacity lane }
    ensures { InOrder ring.capacity result.lane × (distance result.lane.tail result.lane.head < distance lane.tail lane.head) }
{
    let mut out = [0; 64];
    let take = lane.chunk_limit(ring.capacity);
    let moved = lane.move_chunk(ring.capacity, take);
    ring.pop_into(store, lane.head, take, &mut out, 0);
    let good = numbered(&out, take as usize, run.due);
    Run {
        lane: moved.end_full_burst().lane,
        due: ring::after(run.due, take),
        good: run.good & good,
        ..run
    }
}

// Receives chunk by chunk until the lane is empty.
fn receive_chunks(run: Run, ring: Ring, store: &[u64; 64]) -> Run
    requires { Within ring 64 × InOrder ring.capacity run.lane }
    ensures { InOrder ring.capacity result.lane × (result.lane.head ≡ result.lane.tail) }
{
    let mut run = run;
    loop {
        let lane = run.lane;
        match lane.refill() {
            Err(found) => {
                return Run {
                    lane: found.lane,
                    ..run
                };
            }
            Ok(filled) => {
                run = receive_chunk(run, filled, ring, store);
            }
        }
    }
}

// Fills the ring and empties it.
fn round(run: Run, ring: Ring, store: &mut [u64; 64], chunks: bool) -> Run
    requires { Within ring 64 × InOrder ring.capacity run.lane }
    ensures { InOrder ring.capacity result.lane × (result.lane.head ≡ result.lane.tail) }
{
    let full = fill(run, ring, store);
    if chunks {
        return receive_chunks(full, ring, store);
    }
    receive_items(full, ring, store)
}

// Rounds on a lane of its own until 256 items have gone through.
fn rounds(ring: Ring, chunks: bool) -> Run
    requires { Within ring 64 }
    ensures { InOrder ring.capacity result.lane × (result.lane.head ≡ result.lane.tail) }
{
    let mut store = [0; 64];
    let key = LaneKey {
        slot: 0,
        generation: 0,
    };
    let mut run = Run {
        lane: Lane::new(key, u64::MAX - 2),
        send: 0,
        due: 0,
        good: true,
    };
    for _ in 0..256 / ring.capacity {
        run = round(run, ring, &mut store, chunks);
    }
    run
}

// Runs the rounds at a capacity and writes how they went. That the line cannot be written is passed over.
fn show(rt: &impl Print, capacity: u64, chunks: bool) -> Run
    requires { Capacity capacity × (capacity ≤ 64) }
    ensures { InOrder capacity result.lane × (result.lane.head ≡ result.lane.tail) }
{
    let run = rounds(Ring::new(0, capacity), chunks);
    let way = if chunks { "by chunks" } else { "one by one" };
    let due = run.due;
    let order = if run.good { "in order" } else { "OUT OF ORDER" };
    let head = run.lane.head;
    let _ = println!(rt; "C {capacity}, {way}: {due} items {order}, head {head}");
    run
}

fn main(rt: HostRuntime) {
    show(&rt, 1, false);
    show(&rt, 1, true);
    show(&rt, 4, false);
    show(&rt, 4, true);
    show(&rt, 64, false);
    show(&rt, 64, true);
}
