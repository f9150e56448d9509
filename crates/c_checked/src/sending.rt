// Opening and the checked sender calls, on any stores.
ghost use Rattle.std.specs.Prelude.{◌≡◌};
ghost use Rattle.fanring.specs.Runs.{checked_words};
ghost use Rattle.model.specs.declared.SenderCall.TheVariants.{DropSender, RegisterSender, TrySend, TrySendUnsignaled};
ghost use Rattle.model.specs.declared.Call.TheVariants.{Sender};
ghost use Rattle.opening.specs.Opening.{open_store};
ghost use Rattle.c_answer.specs.Answer.{told};
ghost use Rattle.c_answer.specs.Numbers.{lane_key};

use c_answer::{answer, numbers};
use fanring::{mpsc, send};
use model::Opening;

// Opens a channel on two stores, whatever they hold.
#[unsafe(no_mangle)]
pub extern "C" fn fanring_open(
    table: &mut [u64],
    rings: &[u64],
    capacity: u64,
    slots: u64,
    channel: u64,
    cursor: u64,
    generation: u64,
    number: u64,
    words: &mut [u64; 8],
) -> u64
    ensures { (result, words.new, table.new, rings.now) ≡ told words.old (open_store (record { capacity = capacity; slots = slots; channel = channel; cursor = cursor; generation = generation; number = number }) table.old rings.now) }
{
    let done = mpsc::open(
        Opening {
            capacity,
            slots,
            channel,
            cursor,
            generation,
            number,
        },
        table,
        rings,
    );
    answer::tell(done, words)
}

// Registers a sender with a lane.
#[unsafe(no_mangle)]
pub extern "C" fn fanring_register_sender(
    table: &mut [u64],
    rings: &[u64],
    most: u64,
    words: &mut [u64; 8],
) -> u64
    ensures { (result, words.new, table.new, rings.now) ≡ told words.old (checked_words table.old rings.now (Sender (RegisterSender most))) }
{
    let done = mpsc::register_sender(table, rings, most);
    answer::tell(done, words)
}

// Sends an item.
#[unsafe(no_mangle)]
pub extern "C" fn fanring_try_send(
    table: &mut [u64],
    rings: &mut [u64],
    slot: u64,
    generation: u64,
    item: u64,
    words: &mut [u64; 8],
) -> u64
    ensures { (result, words.new, table.new, rings.new) ≡ told words.old (checked_words table.old rings.old (Sender (TrySend (lane_key slot generation) item))) }
{
    let done = send::try_send(table, rings, numbers::lane_key(slot, generation), item);
    answer::tell(done, words)
}

// Sends an item and marks nothing.
#[unsafe(no_mangle)]
pub extern "C" fn fanring_try_send_unsignaled(
    table: &mut [u64],
    rings: &mut [u64],
    slot: u64,
    generation: u64,
    item: u64,
    words: &mut [u64; 8],
) -> u64
    ensures { (result, words.new, table.new, rings.new) ≡ told words.old (checked_words table.old rings.old (Sender (TrySendUnsignaled (lane_key slot generation) item))) }
{
    let done = send::try_send_unsignaled(table, rings, numbers::lane_key(slot, generation), item);
    answer::tell(done, words)
}

// Drops a sender.
#[unsafe(no_mangle)]
pub extern "C" fn fanring_drop_sender(
    table: &mut [u64],
    rings: &[u64],
    slot: u64,
    generation: u64,
    words: &mut [u64; 8],
) -> u64
    ensures { (result, words.new, table.new, rings.now) ≡ told words.old (checked_words table.old rings.now (Sender (DropSender (lane_key slot generation)))) }
{
    let done = send::drop_sender(table, rings, numbers::lane_key(slot, generation));
    answer::tell(done, words)
}
