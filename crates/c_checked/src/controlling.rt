// The checked calls that hand nothing out, on any stores.
ghost use Rattle.std.specs.Prelude.{◌≡◌};
ghost use Rattle.fanring.specs.Runs.{checked_words};
ghost use Rattle.model.specs.declared.ControlCall.TheVariants.{CloseLane, CloseReceiver, CountHeld, Pause, PollAllLanes, ReleaseConsumed, Resume};
ghost use Rattle.model.specs.declared.Call.TheVariants.{Control};
ghost use Rattle.c_answer.specs.Answer.{told};
ghost use Rattle.c_answer.specs.Numbers.{lane_id};

use c_answer::{answer, numbers};
use fanring::{batch, lane_control, recv};

// Pauses a lane.
#[unsafe(no_mangle)]
pub extern "C" fn fanring_pause(
    table: &mut [u64],
    rings: &[u64],
    channel: u64,
    slot: u64,
    generation: u64,
    opening: u64,
    words: &mut [u64; 8],
) -> u64
    ensures { (result, words.new, table.new, rings.now) ≡ told words.old (checked_words table.old rings.now (Control (Pause (lane_id channel slot generation opening)))) }
{
    let id = numbers::lane_id(channel, slot, generation, opening);
    let done = lane_control::pause(table, rings, id);
    answer::tell(done, words)
}

// Resumes a lane.
#[unsafe(no_mangle)]
pub extern "C" fn fanring_resume(
    table: &mut [u64],
    rings: &[u64],
    channel: u64,
    slot: u64,
    generation: u64,
    opening: u64,
    words: &mut [u64; 8],
) -> u64
    ensures { (result, words.new, table.new, rings.now) ≡ told words.old (checked_words table.old rings.now (Control (Resume (lane_id channel slot generation opening)))) }
{
    let id = numbers::lane_id(channel, slot, generation, opening);
    let done = lane_control::resume(table, rings, id);
    answer::tell(done, words)
}

// Closes a lane.
#[unsafe(no_mangle)]
pub extern "C" fn fanring_close_lane(
    table: &mut [u64],
    rings: &[u64],
    channel: u64,
    slot: u64,
    generation: u64,
    opening: u64,
    words: &mut [u64; 8],
) -> u64
    ensures { (result, words.new, table.new, rings.now) ≡ told words.old (checked_words table.old rings.now (Control (CloseLane (lane_id channel slot generation opening)))) }
{
    let id = numbers::lane_id(channel, slot, generation, opening);
    let done = lane_control::close_lane(table, rings, id);
    answer::tell(done, words)
}

// Gives back the places of all items that were handed out.
#[unsafe(no_mangle)]
pub extern "C" fn fanring_release_consumed(
    table: &mut [u64],
    rings: &[u64],
    words: &mut [u64; 8],
) -> u64
    ensures { (result, words.new, table.new, rings.now) ≡ told words.old (checked_words table.old rings.now (Control ReleaseConsumed)) }
{
    let done = batch::release_consumed(table, rings);
    answer::tell(done, words)
}

// Queues every lane that is neither queued nor paused.
#[unsafe(no_mangle)]
pub extern "C" fn fanring_poll_all_lanes(
    table: &mut [u64],
    rings: &[u64],
    words: &mut [u64; 8],
) -> u64
    ensures { (result, words.new, table.new, rings.now) ≡ told words.old (checked_words table.old rings.now (Control PollAllLanes)) }
{
    let done = batch::poll_all_lanes(table, rings);
    answer::tell(done, words)
}

// Closes the receiver.
#[unsafe(no_mangle)]
pub extern "C" fn fanring_close_receiver(
    table: &mut [u64],
    rings: &[u64],
    words: &mut [u64; 8],
) -> u64
    ensures { (result, words.new, table.new, rings.now) ≡ told words.old (checked_words table.old rings.now (Control CloseReceiver)) }
{
    let done = recv::close_receiver(table, rings);
    answer::tell(done, words)
}

// The number of items in rings of registered lanes.
#[unsafe(no_mangle)]
pub extern "C" fn fanring_held(table: &[u64], rings: &[u64], words: &mut [u64; 8]) -> u64
    ensures { (result, words.new, table.now, rings.now) ≡ told words.old (checked_words table.now rings.now (Control CountHeld)) }
{
    let done = recv::held(table, rings);
    answer::tell(done, words)
}
