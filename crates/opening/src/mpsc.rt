// The opening: the constructor of src/mpsc.rs, over two lent stores.
ghost use Rattle.std.specs.Prelude.{◌≡◌, ◌≤◌};
ghost use Rattle.opening.specs.Opening.{sizes_verdict, stores_verdict, open_sized, open_store};

use lane::lane::Lane;
use model::{Answer, Opening, Refusal};
use queues::header::Header;

// `MAX_CAPACITY_PER_SENDER`, and the most slots.
const MAX_CAPACITY: u64 = 65536;

const MAX_SLOTS: u64 = 8192;

// Refusals 1 and 2 of an opening.
fn sizes_verdict(opening: Opening) -> Result<(), Refusal>
    ensures { result ≡ sizes_verdict opening }
{
    if !(1..=MAX_CAPACITY).contains(&opening.capacity) {
        return Err(Refusal::CapacityOutOfRange);
    }
    if !(1..=MAX_SLOTS).contains(&opening.slots) {
        return Err(Refusal::SlotsOutOfRange);
    }
    Ok(())
}

// Refusals 3 and 4 of an opening, for stores of so many words.
fn stores_verdict(slots: u64, capacity: u64, table: u64, rings: u64) -> Result<(), Refusal>
    requires { (slots ≤ 8192) × (capacity ≤ 65536) }
    ensures { result ≡ stores_verdict slots capacity table rings }
{
    if slots * capacity > rings {
        return Err(Refusal::RingStoreShort);
    }
    if Lane::ROW_WORDS as u64 * slots + Lane::HEADER_WORDS as u64 > table {
        return Err(Refusal::TableStoreShort);
    }
    Ok(())
}

// Stores the header of a new channel in the table.
fn open_sized(opening: Opening, t: &mut [u64], r: &[u64]) -> Answer
    requires { (opening.slots ≤ 8192) × (opening.capacity ≤ 65536) }
    ensures { (result, t.new, r.now) ≡ open_sized opening t.old r.now }
{
    let capacity = opening.capacity.next_power_of_two();
    match stores_verdict(opening.slots, capacity, t.len() as u64, r.len() as u64) {
        Err(why) => Answer::Refused { why },
        Ok(()) => {
            Header::new(opening, capacity).store(t);
            Answer::Done
        }
    }
}

// Opens a channel over two lent stores, whatever their words hold.
pub fn open(opening: Opening, t: &mut [u64], r: &[u64]) -> Answer
    ensures { (result, t.new, r.now) ≡ open_store opening t.old r.now }
{
    match sizes_verdict(opening) {
        Err(why) => Answer::Refused { why },
        Ok(()) => open_sized(opening, t, r),
    }
}
