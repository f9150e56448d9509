// Reads document 01's records: u16 length of what follows, two-byte kind, u64 fields, all little-endian.
ghost use Rattle.std.specs.Prelude.{◌≡◌, ◌+◌, ◌*◌, ◌<◌, ◌≤◌, length};
ghost use Rattle.std.proofs.Math.Option.{some};
ghost use Rattle.wire_record.specs.declared.record.Unread.TheVariants.{Malformed};
ghost use Rattle.wire_record.specs.Kind.{code_of};
ghost use Rattle.wire_record.specs.Record.{number, field, key, id, opening, fields_of, said, size, parse};

use crate::kind::{Kind, UnknownKind};
use model::{Call, ControlCall, LaneId, LaneKey, OpenedChannel, Opening, ReceiveCall, SenderCall};

// What a record asks for.
#[derive(Clone, Copy)]
pub enum Record {
    Open { opening: Opening },
    Call { call: Call },
}

// A record that stands at the head of some bytes, and how many bytes it takes.
#[derive(Clone, Copy)]
pub struct Whole {
    pub record: Record,
    pub size: usize,
}

// Why no record stands there.
#[derive(Clone, Copy, Debug, PartialEq, Eq)]
pub enum Unread {
    // So far a beginning of a record, or too few bytes to tell.
    Incomplete,
    // Neither a record nor the beginning of one.
    Malformed,
}

impl From<UnknownKind> for Unread {
    ghost from_gives = { λ _ e. e ≡ Malformed };

    fn from(_e: UnknownKind) -> Unread {
        Unread::Malformed
    }
}

// The room of the output that the replay program lends to a batch.
const ROOM: u64 = 64;

fn u16_at(b: &[u8], i: usize) -> u16
    requires { i + 2 ≤ length b.now }
    ensures { result ≡ number b.now i 2 }
{
    u16::from_le_bytes(*b[i..].first_chunk().unwrap())
}

// Apart from `u16_at`: one function for both would need a trait of the two types' `from_le_bytes`, and so be no plainer.
fn u64_at(b: &[u8], i: usize) -> u64
    requires { i + 8 ≤ length b.now }
    ensures { result ≡ number b.now i 8 }
{
    u64::from_le_bytes(*b[i..].first_chunk().unwrap())
}

fn field(b: &[u8], j: usize) -> u64
    requires { size (j + 1) ≤ length b.now }
    ensures { result ≡ field b.now j }
{
    u64_at(b, 4 + 8 * j)
}

fn key(b: &[u8], j: usize) -> LaneKey
    requires { size (j + 2) ≤ length b.now }
    ensures { result ≡ key b.now j }
{
    LaneKey {
        slot: field(b, j),
        generation: field(b, j + 1),
    }
}

fn id(b: &[u8]) -> LaneId
    requires { size 4 ≤ length b.now }
    ensures { result ≡ id b.now }
{
    LaneId {
        channel: OpenedChannel {
            id: field(b, 0),
            opening: field(b, 3),
        },
        key: key(b, 1),
    }
}

fn opening(b: &[u8]) -> Opening
    requires { size 6 ≤ length b.now }
    ensures { result ≡ opening b.now }
{
    Opening {
        capacity: field(b, 0),
        slots: field(b, 1),
        channel: field(b, 2),
        cursor: field(b, 3),
        generation: field(b, 4),
        number: field(b, 5),
    }
}

#[tactic(auto, unfolding(crate::specs::Record::said, crate::specs::Record::fields_of))]
fn record_of(b: &[u8], kind: Kind) -> Record
    requires { size (fields_of (code_of kind)) ≤ length b.now }
    ensures { said (code_of kind) b.now ≡ some result }
{
    let call = match kind {
        Kind::Open => {
            return Record::Open {
                opening: opening(b),
            };
        }
        Kind::RegisterSender => Call::Sender(SenderCall::RegisterSender { most: field(b, 0) }),
        Kind::TrySend => Call::Sender(SenderCall::TrySend {
            key: key(b, 0),
            item: field(b, 2),
        }),
        Kind::TrySendUnsignaled => Call::Sender(SenderCall::TrySendUnsignaled {
            key: key(b, 0),
            item: field(b, 2),
        }),
        Kind::DropSender => Call::Sender(SenderCall::DropSender { key: key(b, 0) }),
        Kind::TryRecv => Call::Receive(ReceiveCall::TryRecv),
        Kind::TryRecvFair => Call::Receive(ReceiveCall::TryRecvFair),
        Kind::TryRecvFrom => Call::Receive(ReceiveCall::TryRecvFrom { id: id(b) }),
        Kind::TryRecvBatchInto => Call::Receive(ReceiveCall::TryRecvBatchInto {
            limit: field(b, 0),
            room: ROOM,
        }),
        Kind::Pause => Call::Control(ControlCall::Pause { id: id(b) }),
        Kind::Resume => Call::Control(ControlCall::Resume { id: id(b) }),
        Kind::CloseLane => Call::Control(ControlCall::CloseLane { id: id(b) }),
        Kind::ReleaseConsumed => Call::Control(ControlCall::ReleaseConsumed),
        Kind::PollAllLanes => Call::Control(ControlCall::PollAllLanes),
        Kind::CloseReceiver => Call::Control(ControlCall::CloseReceiver),
        Kind::CountHeld => Call::Control(ControlCall::CountHeld),
        Kind::TryRecvBatchIntoWhile => Call::Receive(ReceiveCall::TryRecvBatchIntoWhile {
            limit: field(b, 0),
            bound: field(b, 1),
            room: ROOM,
        }),
    };
    Record::Call { call }
}

// The record at the head of the bytes, whatever they are.
pub fn parse(b: &[u8]) -> Result<Whole, Unread>
    ensures { result ≡ parse b.now }
{
    if b.len() < 4 {
        return Err(Unread::Incomplete);
    }
    let kind = Kind::try_from(u16_at(b, 2))?;
    let fields = kind.fields();
    if u16_at(b, 0) != 2 + 8 * fields {
        return Err(Unread::Malformed);
    }
    let size = 4 + 8 * usize::from(fields);
    if b.len() < size {
        return Err(Unread::Incomplete);
    }
    Ok(Whole {
        record: record_of(b, kind),
        size,
    })
}
