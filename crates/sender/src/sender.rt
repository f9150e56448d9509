// The sender calls: src/mpsc/sender.rs, and `register_sender` of src/mpsc.rs.
ghost use Rattle.std.specs.Prelude.{◌≡◌, ◌<◌, length};
ghost use Rattle.queues.specs.Header.{Shaped, slots, living_count};
ghost use Rattle.store.specs.Order.{StoreInOrder};
ghost use Rattle.sender.specs.Sender.{with_sender, take_signaled, SendRoom, pushed, send_signaled, send_unsignaled, try_send, try_send_unsignaled, drop_lane, drop_sender, FreeIssued, SlotDue, RegisterRoom, passed_over, capacity_verdict, lanes_verdict, slot_verdict, due_key, take_slot, register_lane, register_slot, register_sender};

use lane::lane::Lane;
use model::{Answer, LaneKey, Refusal};
use queues::header::Header;
use queues::registry;
use ready::ready as marks;
use store::{refusal, signal};
use yring::ring;
use yring::ring::Ring;

fn with_sender(mut l: Lane, pending: u64, living: u64) -> Lane
    ensures { result ≡ with_sender pending living l }
{
    l.pending = pending;
    l.living = living;
    l
}

// The lane that a send left is stored and marked; answers whether its signal went from idle to pending,
// and the ring's free places.
fn take_signaled(t: &mut [u64], lane: Lane, free: u64) -> Answer
    requires { Shaped t.old × (lane.key.slot < slots t.old) }
    ensures { (result, t.new) ≡ take_signaled t.old lane free }
{
    let woken = lane.pending == 0;
    let marked = with_sender(lane, 1, lane.living);
    marked.store(t);
    signal::mark_if_idle(t, lane);
    Answer::Taken { woken, free }
}

fn send_signaled(t: &mut [u64], r: &mut [u64], key: LaneKey, item: u64) -> Answer
    requires { SendRoom t.old (length r.old) key.slot }
    ensures { (result, t.new, r.new) ≡ send_signaled t.old (pushed t.old r.old key item) }
{
    let ring = Ring::new(key.slot, t[Header::CAPACITY]);
    let l = Lane::load(t, key.slot);
    match l.push_and_flush(ring) {
        None => Answer::Refused { why: Refusal::Full },
        Some(sent) => {
            // Known before the lane is stored, the place is one number to keep meanwhile.
            let at = ring.index(l.tail);
            let answer = take_signaled(t, sent.lane, sent.free);
            Header::held_more(t);
            ring::put_at(r, at, item);
            answer
        }
    }
}

// A function of its own beside `send_signaled`: of its arms only the full ring's is the same, and one function for both would take what
// is stored and what is answered as parameters.
fn send_unsignaled(t: &mut [u64], r: &mut [u64], key: LaneKey, item: u64) -> Answer
    requires { SendRoom t.old (length r.old) key.slot }
    ensures { (result, t.new, r.new) ≡ send_unsignaled t.old (pushed t.old r.old key item) }
{
    let ring = Ring::new(key.slot, t[Header::CAPACITY]);
    let l = Lane::load(t, key.slot);
    match l.push_and_flush(ring) {
        None => Answer::Refused { why: Refusal::Full },
        Some(sent) => {
            sent.lane.store(t);
            Header::held_more(t);
            ring.put(r, l.tail, item);
            Answer::Taken {
                woken: false,
                free: sent.free,
            }
        }
    }
}

// Stores one item and marks the lane; answers whether its signal went from idle to pending, and how
// many further sends the ring takes.
pub fn try_send(t: &mut [u64], r: &mut [u64], key: LaneKey, item: u64) -> Answer
    requires { StoreInOrder t.old r.old }
    ensures { (result, t.new, r.new) ≡ try_send t.old r.old key item }
{
    match refusal::send_verdict(t, key) {
        Err(why) => Answer::Refused { why },
        Ok(()) => send_signaled(t, r, key, item),
    }
}

// Stores one item and marks nothing; answers how many further sends the ring takes. Beside `try_send` for the reason of `send_unsignaled`.
pub fn try_send_unsignaled(t: &mut [u64], r: &mut [u64], key: LaneKey, item: u64) -> Answer
    requires { StoreInOrder t.old r.old }
    ensures { (result, t.new, r.new) ≡ try_send_unsignaled t.old r.old key item }
{
    match refusal::send_verdict(t, key) {
        Err(why) => Answer::Refused { why },
        Ok(()) => send_unsignaled(t, r, key, item),
    }
}

fn drop_lane(t: &mut [u64], l: Lane)
    requires { Shaped t.old × (l.key.slot < slots t.old) × (0 < living_count t.old) }
    ensures { t.new ≡ drop_lane t.old l }
{
    let living = t[Header::LIVING] - 1;
    let marked = with_sender(l, 1, 0);
    marked.store(t);
    signal::mark_if_idle(t, l);
    t[Header::LIVING] = living;
}

// Drops a sender: its lane is marked, so that a receive looks at it.
pub fn drop_sender(t: &mut [u64], r: &[u64], key: LaneKey) -> Answer
    requires { StoreInOrder t.old r.now }
    ensures { (result, t.new, r.now) ≡ drop_sender t.old r.now key }
{
    match refusal::sender_verdict(t, key) {
        Err(why) => Answer::Refused { why },
        Ok(()) => {
            let l = Lane::load(t, key.slot);
            drop_lane(t, l);
            Answer::Done
        }
    }
}

// How many slots of the free list have a living older sender, from the one freed last down to the first
// that has none.
fn passed_over(t: &[u64]) -> u64
    requires { Shaped t.now × FreeIssued t.now }
    ensures { result ≡ passed_over t.now }
{
    let n = t[Header::FREE];
    for d in 0..n {
        let l = Lane::load(t, registry::freed_at(t, d));
        if l.living != 1 {
            return d;
        }
    }
    n
}

// Refusals 6 and 7 of a registration.
fn lanes_verdict(t: &[u64], most: u64) -> Result<(), Refusal>
    requires { Shaped t.now }
    ensures { result ≡ lanes_verdict t.now most }
{
    refusal::receiver_verdict(t)?;
    capacity_verdict(t[Header::LANES], most)
}

fn capacity_verdict(lanes: u64, most: u64) -> Result<(), Refusal>
    ensures { result ≡ capacity_verdict lanes most }
{
    if lanes >= most {
        return Err(Refusal::AtCapacity);
    }
    Ok(())
}

// Refusals 8 and 9 of a registration that passes over `d` free slots.
fn slot_verdict(t: &[u64], d: u64) -> Result<(), Refusal>
    requires { Shaped t.now }
    ensures { result ≡ slot_verdict t.now d }
{
    if d < t[Header::FREE] || t[Header::ISSUED] < t[Header::SLOTS] {
        return Ok(());
    }
    if t[Header::FREE] == 0 {
        return Err(Refusal::NoFreeSlot);
    }
    Err(Refusal::OlderSenderLives)
}

// The key of the free slot below those passed over, with generation + 1; else of the next unused slot.
fn due_key(t: &[u64], d: u64) -> LaneKey
    requires { Shaped t.now × FreeIssued t.now }
    ensures { result ≡ due_key t.now d }
{
    if d < t[Header::FREE] {
        let slot = registry::freed_at(t, d);
        let l = Lane::load(t, slot);
        return LaneKey {
            slot,
            generation: l.key.generation + 1,
        };
    }
    LaneKey {
        slot: t[Header::ISSUED],
        generation: t[Header::GENERATION],
    }
}

// Takes the slot that is due.
fn take_slot(t: &mut [u64], d: u64)
    requires { Shaped t.old × SlotDue t.old d }
    ensures { t.new ≡ take_slot t.old d }
{
    if d < t[Header::FREE] {
        registry::reissue(t, d);
        return;
    }
    let slot = t[Header::ISSUED];
    marks::open_page(t, slot as usize);
    t[Header::ISSUED] = slot + 1;
}

// The lane of the slot that is due, registered.
fn register_lane(t: &mut [u64], d: u64, key: LaneKey)
    requires { RegisterRoom t.old d × (key.slot < slots t.old) }
    ensures { t.new ≡ register_lane t.old d key }
{
    let lanes = t[Header::LANES] + 1;
    let living = t[Header::LIVING] + 1;
    let l = Lane::new(key, t[Header::CURSOR]);
    take_slot(t, d);
    l.store(t);
    t[Header::LANES] = lanes;
    t[Header::LIVING] = living;
}

// A registration that refusals 6 and 7 let pass, over `d` free slots.
fn register_slot(t: &mut [u64], r: &[u64], d: u64) -> Answer
    requires { StoreInOrder t.old r.now }
    ensures { (result, t.new, r.now) ≡ register_slot t.old r.now d }
{
    match slot_verdict(t, d) {
        Err(why) => Answer::Refused { why },
        Ok(()) => {
            let key = due_key(t, d);
            register_lane(t, d, key);
            Answer::Registered { key }
        }
    }
}

// Registers a sender: the slot freed last of those without a living older sender, or else the next unused
// one, gets a new lane.
pub fn register_sender(t: &mut [u64], r: &[u64], most: u64) -> Answer
    requires { StoreInOrder t.old r.now }
    ensures { (result, t.new, r.now) ≡ register_sender t.old r.now most }
{
    match lanes_verdict(t, most) {
        Err(why) => Answer::Refused { why },
        Ok(()) => {
            let d = passed_over(t);
            register_slot(t, r, d)
        }
    }
}
