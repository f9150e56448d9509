// The checked receives, on any stores.
ghost use Rattle.std.specs.Prelude.{◌≡◌, length};
ghost use Rattle.model.specs.declared.ReceiveCall.TheVariants.{TryRecv, TryRecvBatchInto, TryRecvFair, TryRecvFrom};
ghost use Rattle.model.specs.declared.Call.TheVariants.{Receive};
ghost use Rattle.refinement.specs.Runs.{receive_into};
ghost use Rattle.fanring.specs.Runs.{checked_calls, checked_words};
ghost use Rattle.c_answer.specs.Answer.{told, told_into};
ghost use Rattle.c_answer.specs.Numbers.{lane_id};

use c_answer::{answer, numbers};
use fanring::{batch, lane_control, recv};

// Receives one item.
#[unsafe(no_mangle)]
pub extern "C" fn fanring_try_recv(table: &mut [u64], rings: &[u64], words: &mut [u64; 8]) -> u64
    ensures { (result, words.new, table.new, rings.now) ≡ told words.old (checked_words table.old rings.now (Receive TryRecv)) }
{
    let done = recv::try_recv(table, rings);
    answer::tell(done, words)
}

// Receives one item, each lane in its turn.
#[unsafe(no_mangle)]
pub extern "C" fn fanring_try_recv_fair(
    table: &mut [u64],
    rings: &[u64],
    words: &mut [u64; 8],
) -> u64
    ensures { (result, words.new, table.new, rings.now) ≡ told words.old (checked_words table.old rings.now (Receive TryRecvFair)) }
{
    let done = recv::try_recv_fair(table, rings);
    answer::tell(done, words)
}

// Receives one item of a lane.
#[unsafe(no_mangle)]
pub extern "C" fn fanring_try_recv_from(
    table: &mut [u64],
    rings: &[u64],
    channel: u64,
    slot: u64,
    generation: u64,
    opening: u64,
    words: &mut [u64; 8],
) -> u64
    ensures { (result, words.new, table.new, rings.now) ≡ told words.old (checked_words table.old rings.now (Receive (TryRecvFrom (lane_id channel slot generation opening)))) }
{
    let id = numbers::lane_id(channel, slot, generation, opening);
    let done = lane_control::try_recv_from(table, rings, id);
    answer::tell(done, words)
}

// Receives up to `limit` items into the output.
#[unsafe(no_mangle)]
pub extern "C" fn fanring_try_recv_batch_into(
    table: &mut [u64],
    rings: &[u64],
    out: &mut [u64],
    limit: u64,
    words: &mut [u64; 8],
) -> u64
    ensures { (result, words.new, table.new, rings.now, out.new) ≡ told_into words.old (receive_into checked_calls table.old rings.now (TryRecvBatchInto limit (length out.old)) out.old) }
{
    let done = batch::try_recv_batch_into(table, rings, out, limit);
    answer::tell(done, words)
}
