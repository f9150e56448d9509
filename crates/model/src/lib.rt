#![tactic(auto)]
// The types that the code and the rules share, keys, calls and answers, and the number of a refusal.
ghost use Rattle.std.specs.Prelude.{◌≡◌};
ghost use Rattle.model.specs.Answers.{number};

// Names one lane of one opening: its slot, and which of that slot's lanes, one after the other.
#[derive(Clone, Copy, PartialEq, Eq)]
pub struct LaneKey {
    pub slot: u64,
    pub generation: u64,
}

// One opening of a channel: the channel's id, and the opening number that the host chose.
#[derive(Clone, Copy, PartialEq, Eq)]
pub struct OpenedChannel {
    pub id: u64,
    pub opening: u64,
}

// Names one lane among all openings of all channels, if the host gives no opening number of a channel
// twice and goes on with one copy of the stores.
#[derive(Clone, Copy, PartialEq, Eq)]
pub struct LaneId {
    pub channel: OpenedChannel,
    pub key: LaneKey,
}

// What an opening asks for; the two lent stores stand beside it.
#[derive(Clone, Copy)]
pub struct Opening {
    pub capacity: u64,
    pub slots: u64,
    pub channel: u64,
    // Where every ring's cursors start, and the generation of a slot's first lane.
    pub cursor: u64,
    pub generation: u64,
    // The opening number: tells this opening's lane ids from those of others with the same channel id.
    pub number: u64,
}

// The calls are in three enums, so that a rule about one kind names only that kind's cases.
#[derive(Clone, Copy)]
pub enum SenderCall {
    RegisterSender { most: u64 },
    TrySend { key: LaneKey, item: u64 },
    TrySendUnsignaled { key: LaneKey, item: u64 },
    DropSender { key: LaneKey },
}

#[derive(Clone, Copy)]
pub enum ReceiveCall {
    TryRecv,
    TryRecvFair,
    TryRecvFrom { id: LaneId },
    // `room` is the length of the lent output.
    TryRecvBatchInto { limit: u64, room: u64 },
    // An item is admitted if it is at most `bound`.
    TryRecvBatchIntoWhile { limit: u64, bound: u64, room: u64 },
}

#[derive(Clone, Copy)]
pub enum ControlCall {
    Pause { id: LaneId },
    Resume { id: LaneId },
    CloseLane { id: LaneId },
    ReleaseConsumed,
    PollAllLanes,
    CloseReceiver,
    CountHeld,
}

#[derive(Clone, Copy)]
pub enum Call {
    Sender(SenderCall),
    Receive(ReceiveCall),
    Control(ControlCall),
}

// Document 01's refusals, in the order of its table.
#[derive(Clone, Copy)]
pub enum Refusal {
    CapacityOutOfRange,
    SlotsOutOfRange,
    RingStoreShort,
    TableStoreShort,
    StoreNotInOrder,
    ReceiverClosed,
    AtCapacity,
    NoFreeSlot,
    OlderSenderLives,
    NoSuchSender,
    LaneClosed,
    Full,
    OutputShort,
    NoSuchLane,
    Malformed,
}

impl Refusal {
    // Document 01's number of the refusal. The claims name this method, and so it is no `From`.
    #[tactic(auto, unfolding(crate::specs::Answers::number))]
    pub fn number(self) -> u64
        ensures { result ≡ number self }
    {
        match self {
            Refusal::CapacityOutOfRange => 1,
            Refusal::SlotsOutOfRange => 2,
            Refusal::RingStoreShort => 3,
            Refusal::TableStoreShort => 4,
            Refusal::StoreNotInOrder => 5,
            Refusal::ReceiverClosed => 6,
            Refusal::AtCapacity => 7,
            Refusal::NoFreeSlot => 8,
            Refusal::OlderSenderLives => 9,
            Refusal::NoSuchSender => 10,
            Refusal::LaneClosed => 12,
            Refusal::Full => 11,
            Refusal::OutputShort => 14,
            Refusal::NoSuchLane => 13,
            Refusal::Malformed => 15,
        }
    }
}

// What a call answers. A refusal is one of the answers, and no `Err` beside them: the rules and their theorems are about this enum.
// The items of a batch are the first `count` words of its output; `Stopped` is a batch that stopped in front of an item.
#[derive(Clone, Copy)]
pub enum Answer {
    Done,
    Registered { key: LaneKey },
    // Whether the lane's signal went from idle to pending, and how many further sends its ring takes.
    Taken { woken: bool, free: u64 },
    Item { item: u64, lane: LaneId },
    Items { count: u64 },
    Stopped { count: u64 },
    Empty,
    Disconnected,
    Held { count: u64 },
    Refused { why: Refusal },
}
