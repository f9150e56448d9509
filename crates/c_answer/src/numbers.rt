// A lane's key and its id, of the numbers that C gives.
ghost use Rattle.std.specs.Prelude.{◌≡◌};
ghost use Rattle.c_answer.specs.Numbers.{lane_id, lane_key};

use model::{LaneId, LaneKey, OpenedChannel};

#[inline(always)]
pub fn lane_key(slot: u64, generation: u64) -> LaneKey
    ensures { result ≡ lane_key slot generation }
{
    LaneKey { slot, generation }
}

#[inline(always)]
pub fn lane_id(channel: u64, slot: u64, generation: u64, opening: u64) -> LaneId
    ensures { result ≡ lane_id channel slot generation opening }
{
    LaneId {
        channel: OpenedChannel {
            id: channel,
            opening,
        },
        key: lane_key(slot, generation),
    }
}
