// The kinds of document 01's records, and of document 02's N2.
ghost use Rattle.std.specs.Prelude.{◌≡◌, ◌≤◌};
ghost use Rattle.wire_record.specs.Kind.{code_of, Decodes};
ghost use Rattle.wire_record.specs.Record.{most_fields, fields_of};

// In the order of their codes, from 0 on.
#[derive(Clone, Copy, Debug, PartialEq, Eq)]
pub enum Kind {
    Open,
    RegisterSender,
    TrySend,
    TrySendUnsignaled,
    DropSender,
    TryRecv,
    TryRecvFair,
    TryRecvFrom,
    TryRecvBatchInto,
    Pause,
    Resume,
    CloseLane,
    ReleaseConsumed,
    PollAllLanes,
    CloseReceiver,
    CountHeld,
    TryRecvBatchIntoWhile,
}

// A code that no kind has.
#[derive(Clone, Copy, Debug, PartialEq, Eq)]
pub struct UnknownKind(pub u16);

impl TryFrom<u16> for Kind {
    type Error = UnknownKind;

    ghost try_from_gives = { Decodes };

    fn try_from(code: u16) -> Result<Self, UnknownKind> {
        match code {
            0 => Ok(Kind::Open),
            1 => Ok(Kind::RegisterSender),
            2 => Ok(Kind::TrySend),
            3 => Ok(Kind::TrySendUnsignaled),
            4 => Ok(Kind::DropSender),
            5 => Ok(Kind::TryRecv),
            6 => Ok(Kind::TryRecvFair),
            7 => Ok(Kind::TryRecvFrom),
            8 => Ok(Kind::TryRecvBatchInto),
            9 => Ok(Kind::Pause),
            10 => Ok(Kind::Resume),
            11 => Ok(Kind::CloseLane),
            12 => Ok(Kind::ReleaseConsumed),
            13 => Ok(Kind::PollAllLanes),
            14 => Ok(Kind::CloseReceiver),
            15 => Ok(Kind::CountHeld),
            16 => Ok(Kind::TryRecvBatchIntoWhile),
            _ => Err(UnknownKind(code)),
        }
    }
}

impl Kind {
    // How many u64 fields a record of this kind has.
    #[tactic(auto, unfolding(crate::specs::Record::fields_of))]
    pub fn fields(self) -> u16
        ensures count { result ≡ fields_of (code_of self) }
        ensures at_most { result ≤ most_fields }
    {
        match self {
            Kind::TryRecv
            | Kind::TryRecvFair
            | Kind::ReleaseConsumed
            | Kind::PollAllLanes
            | Kind::CloseReceiver
            | Kind::CountHeld => 0,
            Kind::RegisterSender | Kind::TryRecvBatchInto => 1,
            Kind::DropSender | Kind::TryRecvBatchIntoWhile => 2,
            Kind::TrySend | Kind::TrySendUnsignaled => 3,
            Kind::TryRecvFrom | Kind::Pause | Kind::Resume | Kind::CloseLane => 4,
            Kind::Open => 6,
        }
    }
}
