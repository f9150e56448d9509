// The refusals that several calls share, each test in document 01's order. A call makes its answer of one by a match: a `?` would want calls that answer a
// Result, and the rules speak of one enum of answers.
ghost use Rattle.std.specs.Prelude.{◌≡◌};
ghost use Rattle.queues.specs.Header.{Shaped};
ghost use Rattle.store.specs.Refusal.{sender_verdict, closed_verdict, send_verdict, receiver_verdict, lane_verdict, id_verdict};

use lane::lane::Lane;
use model::{LaneId, LaneKey, Refusal};
use queues::header::Header;

// Whether a living sender has this key.
pub fn sender_verdict(t: &[u64], key: LaneKey) -> Result<(), Refusal>
    requires { Shaped t.now }
    ensures { result ≡ sender_verdict t.now key }
{
    if key.slot >= t[Header::ISSUED] {
        return Err(Refusal::NoSuchSender);
    }
    let l = Lane::load(t, key.slot);
    if l.living != 1 || l.key != key {
        return Err(Refusal::NoSuchSender);
    }
    Ok(())
}

// Whether the lane and the receiver are open to a send.
fn closed_verdict(t: &[u64], l: Lane) -> Result<(), Refusal>
    requires { Shaped t.now }
    ensures { result ≡ closed_verdict t.now l }
{
    if t[Header::ALIVE] != 1 || l.registered != 1 {
        return Err(Refusal::LaneClosed);
    }
    Ok(())
}

// Whether the receiver is open.
pub fn receiver_verdict(t: &[u64]) -> Result<(), Refusal>
    requires { Shaped t.now }
    ensures { result ≡ receiver_verdict t.now }
{
    if t[Header::ALIVE] != 1 {
        return Err(Refusal::ReceiverClosed);
    }
    Ok(())
}

// Whether there is a lane with this id.
fn lane_verdict(t: &[u64], id: LaneId) -> Result<(), Refusal>
    requires { Shaped t.now }
    ensures { result ≡ lane_verdict t.now id }
{
    let key = id.key;
    if id.channel != Header::channel(t) || key.slot >= t[Header::ISSUED] {
        return Err(Refusal::NoSuchLane);
    }
    let l = Lane::load(t, key.slot);
    if l.registered != 1 || l.key != key {
        return Err(Refusal::NoSuchLane);
    }
    Ok(())
}

// Refusals 10 and 12 of a send.
pub fn send_verdict(t: &[u64], key: LaneKey) -> Result<(), Refusal>
    requires { Shaped t.now }
    ensures { result ≡ send_verdict t.now key }
{
    sender_verdict(t, key)?;
    closed_verdict(t, Lane::load(t, key.slot))
}

// Refusals 6 and 13 of a call by lane id.
pub fn id_verdict(t: &[u64], id: LaneId) -> Result<(), Refusal>
    requires { Shaped t.now }
    ensures { result ≡ id_verdict t.now id }
{
    receiver_verdict(t)?;
    lane_verdict(t, id)
}
