// The inner sender calls, on stores in order, as an accepted opening and every call leave them.
ghost use Rattle.std.specs.Prelude.{◌≡◌};
ghost use Rattle.store.specs.Order.{StoreInOrder};
ghost use Rattle.model.specs.declared.SenderCall.TheVariants.{DropSender, RegisterSender, TrySend, TrySendUnsignaled};
ghost use Rattle.model.specs.declared.Call.TheVariants.{Sender};
ghost use Rattle.refinement.specs.Runs.{call_words};
ghost use Rattle.c_answer.specs.Answer.{told};
ghost use Rattle.c_answer.specs.Numbers.{lane_key};

use c_answer::{answer, numbers};
use sender::sender as sends;

// Registers a sender with a lane.
#[unsafe(no_mangle)]
pub extern "C" fn fanring_inner_register_sender(
    table: &mut [u64],
    rings: &[u64],
    most: u64,
    words: &mut [u64; 8],
) -> u64
    requires { StoreInOrder table.old rings.now }
    ensures { (result, words.new, table.new, rings.now) ≡ told words.old (call_words table.old rings.now (Sender (RegisterSender most))) }
{
    let done = sends::register_sender(table, rings, most);
    answer::tell(done, words)
}

// Sends an item.
#[unsafe(no_mangle)]
pub extern "C" fn fanring_inner_try_send(
    table: &mut [u64],
    rings: &mut [u64],
    slot: u64,
    generation: u64,
    item: u64,
    words: &mut [u64; 8],
) -> u64
    requires { StoreInOrder table.old rings.old }
    ensures { (result, words.new, table.new, rings.new) ≡ told words.old (call_words table.old rings.old (Sender (TrySend (lane_key slot generation) item))) }
{
    let done = sends::try_send(table, rings, numbers::lane_key(slot, generation), item);
    answer::tell(done, words)
}

// Sends an item and marks nothing.
#[unsafe(no_mangle)]
pub extern "C" fn fanring_inner_try_send_unsignaled(
    table: &mut [u64],
    rings: &mut [u64],
    slot: u64,
    generation: u64,
    item: u64,
    words: &mut [u64; 8],
) -> u64
    requires { StoreInOrder table.old rings.old }
    ensures { (result, words.new, table.new, rings.new) ≡ told words.old (call_words table.old rings.old (Sender (TrySendUnsignaled (lane_key slot generation) item))) }
{
    let done = sends::try_send_unsignaled(table, rings, numbers::lane_key(slot, generation), item);
    answer::tell(done, words)
}

// Drops a sender.
#[unsafe(no_mangle)]
pub extern "C" fn fanring_inner_drop_sender(
    table: &mut [u64],
    rings: &[u64],
    slot: u64,
    generation: u64,
    words: &mut [u64; 8],
) -> u64
    requires { StoreInOrder table.old rings.now }
    ensures { (result, words.new, table.new, rings.now) ≡ told words.old (call_words table.old rings.now (Sender (DropSender (lane_key slot generation)))) }
{
    let done = sends::drop_sender(table, rings, numbers::lane_key(slot, generation));
    answer::tell(done, words)
}
