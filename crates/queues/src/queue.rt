// The receiver's `active` queue: a ring of slot numbers in the rows of the table store.
ghost use Rattle.std.specs.Prelude.{◌≡◌, ◌+◌, ◌%◌, ◌≤◌, ◌<◌};
ghost use Rattle.queues.specs.Header.{Shaped, queue_count, slots};
ghost use Rattle.queues.specs.Queue.{front_slot, push_back, pop_front, rotate_left, remove};

use crate::header::Header;
use lane::lane::Lane;
use lane::table;

// The column of the rows that holds the queue's places.
pub const COLUMN: usize = Lane::LANE_WORDS;

// The row that is `n` past the front, round a ring of `slots`. A remainder would cost a division.
pub fn row_of(front: u64, n: u64, slots: u64) -> usize
    requires { (front < slots) × (n ≤ slots) × (slots ≤ 8192) }
    ensures { (result ≡ (front + n) % slots) × (result < slots) }
{
    let row = front + n;
    if row < slots {
        return row as usize;
    }
    (row - slots) as usize
}

pub fn front_slot(t: &[u64]) -> u64
    requires { Shaped t.now }
    ensures { result ≡ front_slot t.now }
{
    table::cell(t, COLUMN, t[Header::FRONT] as usize)
}

pub fn push_back(t: &mut [u64], slot: u64)
    requires { Shaped t.old × (queue_count t.old < slots t.old) }
    ensures { t.new ≡ push_back t.old slot }
{
    let n = t[Header::QUEUED];
    let row = row_of(t[Header::FRONT], n, t[Header::SLOTS]);
    table::set_cell(t, COLUMN, row, slot);
    t[Header::QUEUED] = n + 1;
}

pub fn pop_front(t: &mut [u64])
    requires { Shaped t.old × (0 < queue_count t.old) }
    ensures { t.new ≡ pop_front t.old }
{
    let n = t[Header::QUEUED];
    let next = row_of(t[Header::FRONT], 1, t[Header::SLOTS]);
    t[Header::FRONT] = next as u64;
    t[Header::QUEUED] = n - 1;
}

// The front goes to the back.
pub fn rotate_left(t: &mut [u64])
    requires { Shaped t.old × (0 < queue_count t.old) }
    ensures { t.new ≡ rotate_left t.old }
{
    let slot = front_slot(t);
    let back = row_of(t[Header::FRONT], t[Header::QUEUED], t[Header::SLOTS]);
    let next = row_of(t[Header::FRONT], 1, t[Header::SLOTS]);
    table::set_cell(t, COLUMN, back, slot);
    t[Header::FRONT] = next as u64;
}

// Takes a slot out of the queue, wherever it stands; the others keep their order.
pub fn remove(t: &mut [u64], slot: u64)
    requires { Shaped t.old }
    ensures { t.new ≡ remove t.old slot }
{
    let first = t[Header::FRONT];
    let n = t[Header::QUEUED];
    let slots = t[Header::SLOTS];
    let mut kept = 0;
    for i in 0..n {
        let x = table::cell(t, COLUMN, row_of(first, i, slots));
        if x == slot {
            continue;
        }
        table::set_cell(t, COLUMN, row_of(first, kept, slots), x);
        kept += 1;
    }
    t[Header::QUEUED] = kept;
}
