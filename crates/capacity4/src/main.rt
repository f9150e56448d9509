// Document 01's example of credit: "C 4, sends 1 to 4: taken; 5: refusal 11. After one to three
// plain receives still 11; after the fourth, taken." A line for each call, and what it answers.
#![tactic(auto)]

ghost use Rattle.std.specs.Prelude.{◌≡◌, false};
ghost use Rattle.yring.specs.Ring.{new_ring};
ghost use Rattle.lane.specs.Lane.{new_lane, push_and_flush_item, poll};
ghost use Rattle.lane.specs.Order.{InOrder, sent_lane, polled_lane};

use lane::lane::Lane;
use model::LaneKey;
use yring::ring::Ring;

// The lane of slot 0, newly registered.
fn start() -> Lane
    ensures { (result ≡ new_lane (record { slot = 0; generation = 0 }) 0) × InOrder 4 result }
{
    Lane::new(
        LaneKey {
            slot: 0,
            generation: 0,
        },
        0,
    )
}

// Sends an item and says whether it was taken. That a line cannot be written is passed over, here as below.
fn send(rt: &impl Print, lane: Lane, store: &mut [u64; 4], item: u64) -> Lane
    requires { InOrder 4 lane }
    ensures { (result ≡ sent_lane lane (push_and_flush_item (new_ring 0 4) store.old item lane).0) × (store.new ≡ (push_and_flush_item (new_ring 0 4) store.old item lane).1) × InOrder 4 result }
{
    let ring = Ring::new(0, 4);
    match lane.push_and_flush(ring) {
        None => {
            let _ = println!(rt; "send {item}: refused 11");
            lane
        }
        Some(sent) => {
            ring.put(store, lane.tail, item);
            let _ = println!(rt; "send {item}: taken");
            sent.lane
        }
    }
}

// A plain receive, and which item it hands out.
fn receive(rt: &impl Print, lane: Lane, store: &[u64; 4]) -> Lane
    requires { InOrder 4 lane }
    ensures { (result ≡ polled_lane (poll (new_ring 0 4) store.now false lane)) × InOrder 4 result }
{
    match lane.poll(Ring::new(0, 4), store, false) {
        Err(found) => {
            let _ = println!(rt; "receive: empty");
            found.lane
        }
        Ok(polled) => {
            let item = polled.item;
            let _ = println!(rt; "receive: item {item}");
            polled.lane
        }
    }
}

fn main(rt: HostRuntime) {
    let mut store = [0; 4];
    let mut lane = start();
    lane = send(&rt, lane, &mut store, 1);
    lane = send(&rt, lane, &mut store, 2);
    lane = send(&rt, lane, &mut store, 3);
    lane = send(&rt, lane, &mut store, 4);
    lane = send(&rt, lane, &mut store, 5);
    lane = receive(&rt, lane, &store);
    lane = send(&rt, lane, &mut store, 5);
    lane = receive(&rt, lane, &store);
    lane = send(&rt, lane, &mut store, 5);
    lane = receive(&rt, lane, &store);
    lane = send(&rt, lane, &mut store, 5);
    lane = receive(&rt, lane, &store);
    lane = send(&rt, lane, &mut store, 5);
    lane = receive(&rt, lane, &store);
    receive(&rt, lane, &store);
}
