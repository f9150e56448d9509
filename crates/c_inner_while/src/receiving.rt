// The inner batch that stops in front of an item, on stores in order, as an accepted opening and every call leave them.
ghost use Rattle.std.specs.Prelude.{◌≡◌, length};
ghost use Rattle.store.specs.Order.{StoreInOrder};
ghost use Rattle.model.specs.declared.ReceiveCall.TheVariants.{TryRecvBatchIntoWhile};
ghost use Rattle.refinement.specs.Runs.{inner_calls, receive_into};
ghost use Rattle.c_answer.specs.Answer.{told_into};

use c_answer::answer;
use receive_while::batch_while;

// Receives up to `limit` items into the output, and stops in front of the first above `bound`.
#[unsafe(no_mangle)]
pub extern "C" fn fanring_inner_try_recv_batch_into_while(
    table: &mut [u64],
    rings: &[u64],
    out: &mut [u64],
    limit: u64,
    bound: u64,
    words: &mut [u64; 8],
) -> u64
    requires { StoreInOrder table.old rings.now }
    ensures { (result, words.new, table.new, rings.now, out.new) ≡ told_into words.old (receive_into inner_calls table.old rings.now (TryRecvBatchIntoWhile limit bound (length out.old)) out.old) }
{
    let done = batch_while::try_recv_batch_into_while(table, rings, out, limit, bound);
    answer::tell(done, words)
}
