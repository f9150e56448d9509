// The lengths of the stores, and the words of the header.
ghost use Rattle.std.specs.Prelude.{◌≤◌, length};
ghost use Rattle.yring.specs.Cursor.{Capacity};
ghost use Rattle.lane.specs.Table.{header_words};
ghost use Rattle.queues.specs.Header.{issued};
ghost use Rattle.order_slot.specs.Tells.{Tells};
ghost use Rattle.order_slot.specs.Clauses.{LengthsHold, PlacesHold, LimitsHold, HeaderHolds};

use lane::lane::Lane;
use queues::header::Header;
use ready::ready::Group;

// The most slots that an opening takes, and the logarithm of the largest capacity.
const MOST_SLOTS: u64 = 8192;

const MOST_LOG: u32 = 16;

fn is_capacity(c: u64) -> bool
    ensures { Tells (Capacity c) result }
{
    let log = c.trailing_zeros();
    log <= MOST_LOG && c == 1 << log
}

fn lengths_hold(t: &[u64], r: &[u64]) -> bool
    ensures { Tells (LengthsHold t.now r.now) result }
{
    if t.len() < Lane::HEADER_WORDS {
        return false;
    }
    let slots = t[Header::SLOTS];
    let capacity = t[Header::CAPACITY];
    1 <= slots
        && slots <= MOST_SLOTS
        && Lane::HEADER_WORDS + Lane::ROW_WORDS * slots as usize <= t.len()
        && is_capacity(capacity)
        && (slots * capacity) as usize <= r.len()
}

fn places_hold(t: &[u64]) -> bool
    requires { header_words ≤ length t.now }
    ensures { Tells (PlacesHold t.now) result }
{
    let slots = t[Header::SLOTS];
    t[Header::ISSUED] <= slots
        && t[Header::FRONT] < slots
        && t[Header::QUEUED] <= slots
        && t[Header::FREE] <= slots
        && t[Header::FAST] < slots
}

fn limits_hold(t: &[u64]) -> bool
    requires { (header_words ≤ length t.now) × (issued t.now ≤ 8192) }
    ensures { Tells (LimitsHold t.now) result }
{
    t[Header::ALIVE] <= 1
        && t[Header::GROUP] <= t[Header::ISSUED].div_ceil(Group::LANES_PER_GROUP as u64)
        && t[Header::BUDGET] <= Header::POLL_BUDGET
}

pub(crate) fn header_holds(t: &[u64], r: &[u64]) -> bool
    ensures { Tells (HeaderHolds t.now r.now) result }
{
    lengths_hold(t, r) && places_hold(t) && limits_hold(t)
}
