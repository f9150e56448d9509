// The checked batch that stops in front of an item, on any stores.
ghost use Rattle.std.specs.Prelude.{◌≡◌, length};
ghost use Rattle.model.specs.declared.ReceiveCall.TheVariants.{TryRecvBatchIntoWhile};
ghost use Rattle.refinement.specs.Runs.{receive_into};
ghost use Rattle.fanring.specs.Runs.{checked_calls};
ghost use Rattle.c_answer.specs.Answer.{told_into};

use c_answer::answer;
use fanring::batch;

// Receives up to `limit` items into the output, and stops in front of the first above `bound`.
#[unsafe(no_mangle)]
pub extern "C" fn fanring_try_recv_batch_into_while(
    table: &mut [u64],
    rings: &[u64],
    out: &mut [u64],
    limit: u64,
    bound: u64,
    words: &mut [u64; 8],
) -> u64
    ensures { (result, words.new, table.new, rings.now, out.new) ≡ told_into words.old (receive_into checked_calls table.old rings.now (TryRecvBatchIntoWhile limit bound (length out.old)) out.old) }
{
    let done = batch::try_recv_batch_into_while(table, rings, out, limit, bound);
    answer::tell(done, words)
}
