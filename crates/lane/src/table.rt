// The table store: a lane's record is the first words of its slot's row. Only this file knows the places.
ghost use Rattle.std.specs.Prelude.{◌≡◌, ◌+◌, ◌*◌, ◌≤◌, ◌<◌, length, get_or};
ghost use Rattle.lane.specs.Table.{row_words, lane_words, HasRow, cell, set_cell, words, of_words, lane_at, put_lane};

use crate::lane::Lane;
use model::LaneKey;

// 2^32. Counts are two to a word, cut to 32 bits, which hold all counts of a lane in order. Unreleased and window, which some
// calls test alone, are the lower halves.
const HALF: u64 = 4294967296;

impl Lane {
    // The header's words, the words of a slot's row, and those of them that the record takes.
    pub const HEADER_WORDS: usize = 512;

    pub const ROW_WORDS: usize = 16;

    pub const LANE_WORDS: usize = 12;

    fn words(self) -> [u64; 12]
        ensures { result ≡ words self }
    {
        [
            self.key.generation,
            self.tail,
            self.released,
            self.head,
            self.known,
            self.unreleased % HALF + HALF * (self.cached % HALF),
            self.window % HALF + HALF * (self.burst % HALF),
            self.pending,
            self.queued,
            self.paused,
            self.registered,
            self.living,
        ]
    }

    // The lane of a slot whose record is these words.
    fn of_words(slot: u64, words: &[u64]) -> Self
        requires { length words.now ≡ lane_words }
        ensures { result ≡ of_words slot (λ i. get_or words.now i 0) }
    {
        Lane {
            key: LaneKey {
                slot,
                generation: words[0],
            },
            tail: words[1],
            released: words[2],
            head: words[3],
            known: words[4],
            cached: words[5] / HALF % HALF,
            unreleased: words[5] % HALF,
            burst: words[6] / HALF % HALF,
            window: words[6] % HALF,
            pending: words[7],
            queued: words[8],
            paused: words[9],
            registered: words[10],
            living: words[11],
        }
    }

    pub fn load(table: &[u64], slot: u64) -> Self
        requires { HasRow slot (length table.now) }
        ensures { result ≡ lane_at table.now slot }
    {
        let at = Lane::HEADER_WORDS + Lane::ROW_WORDS * slot as usize;
        let end = at + Lane::LANE_WORDS;
        Lane::of_words(slot, &table[at..end])
    }

    pub fn store(self, table: &mut [u64])
        requires { HasRow self.key.slot (length table.old) }
        ensures { table.new ≡ put_lane table.old self }
    {
        // Word by word: `copy_from_slice` takes the record through memory, and then the words that did not change are stored too.
        let words = self.words();
        let at = Lane::HEADER_WORDS + Lane::ROW_WORDS * self.key.slot as usize;
        for i in 0..Lane::LANE_WORDS {
            table[at + i] = words[i];
        }
    }
}

// A word of a slot's row, for the columns that are no lane's.
pub fn cell(table: &[u64], column: usize, row: usize) -> u64
    requires { HasRow row (length table.now) × (column < row_words) }
    ensures { result ≡ cell table.now column row }
{
    table[Lane::HEADER_WORDS + Lane::ROW_WORDS * row + column]
}

pub fn set_cell(table: &mut [u64], column: usize, row: usize, word: u64)
    requires { HasRow row (length table.old) × (column < row_words) }
    ensures { table.new ≡ set_cell table.old column row word }
{
    table[Lane::HEADER_WORDS + Lane::ROW_WORDS * row + column] = word;
}
