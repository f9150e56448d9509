// The registry's free list: slot numbers in the rows of the table store, the one freed last at the end.
ghost use Rattle.std.specs.Prelude.{◌≡◌, ◌<◌};
ghost use Rattle.queues.specs.Header.{Shaped, free_count, slots};
ghost use Rattle.queues.specs.Registry.{free, freed_at, reissue};

use crate::header::Header;
use lane::lane::Lane;
use lane::table;

// The column of the rows that holds the free list's places.
pub const COLUMN: usize = Lane::LANE_WORDS + 1;

pub fn free(t: &mut [u64], slot: u64)
    requires { Shaped t.old × (free_count t.old < slots t.old) }
    ensures { t.new ≡ free t.old slot }
{
    let n = t[Header::FREE];
    table::set_cell(t, COLUMN, n as usize, slot);
    t[Header::FREE] = n + 1;
}

// The slot `d` places down the list; 0 is the one freed last.
pub fn freed_at(t: &[u64], d: u64) -> u64
    requires { Shaped t.now × (d < free_count t.now) }
    ensures { result ≡ freed_at t.now d }
{
    let last = t[Header::FREE] - 1;
    table::cell(t, COLUMN, (last - d) as usize)
}

// Takes the slot `d` places down off the list; those above it move down by one place.
pub fn reissue(t: &mut [u64], d: u64)
    requires { Shaped t.old × (d < free_count t.old) }
    ensures { t.new ≡ reissue t.old d }
{
    let last = t[Header::FREE] - 1;
    let gap = last - d;
    for i in 0..d {
        let above = table::cell(t, COLUMN, (gap + i + 1) as usize);
        table::set_cell(t, COLUMN, (gap + i) as usize, above);
    }
    t[Header::FREE] = last;
}
