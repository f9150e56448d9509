// The header: the channel's own words, at the start of the table store.
// The table is a lent slice in the crates of the calls, with `Shaped` and the like as clauses, and so are the ring store and an output with its place. A struct around them
// would hold a `&mut`: each function would then promise also that the field keeps its reference, and a clause would read `self.new.words.now` for `t.new`.
ghost use Rattle.std.specs.Prelude.{◌≡◌, ◌≤◌, length};
ghost use Rattle.lane.specs.Table.{header_words};
ghost use Rattle.queues.specs.Header.{channel, held_more, held_less, new_header, header_list, put_header};

use model::{OpenedChannel, Opening};
use yring::ring;

#[derive(Clone, Copy)]
pub struct Header {
    // Slots 0 to issued - 1 have been issued.
    pub issued: u64,
    // The queue is a ring of slot numbers: the place of its front, and how many there are.
    pub front: u64,
    pub queued: u64,
    // How many slots are free, and how many there are.
    pub free: u64,
    pub slots: u64,
    // `items_until_ready_poll`
    pub budget: u64,
    // `ready_group_cursor`
    pub group: u64,
    // `receiver_alive`: 1 while the receiver is open.
    pub alive: u64,
    pub capacity: u64,
    pub channel: u64,
    // Where every ring starts, and the generation of a slot's first lane.
    pub cursor: u64,
    pub generation: u64,
    // `fast_slot`
    pub fast: u64,
    // Registered lanes and living senders.
    pub lanes: u64,
    pub living: u64,
    // The opening number, which lane ids carry beside the channel's id.
    pub opening: u64,
    // The items in the rings of registered lanes.
    pub held: u64,
}

impl Header {
    pub const ISSUED: usize = 0;

    pub const FRONT: usize = 1;

    pub const QUEUED: usize = 2;

    pub const FREE: usize = 3;

    pub const SLOTS: usize = 4;

    pub const BUDGET: usize = 5;

    pub const GROUP: usize = 6;

    pub const ALIVE: usize = 7;

    pub const CAPACITY: usize = 8;

    pub const CHANNEL: usize = 9;

    pub const CURSOR: usize = 10;

    pub const GENERATION: usize = 11;

    pub const FAST: usize = 12;

    pub const LANES: usize = 13;

    pub const LIVING: usize = 14;

    pub const OPENING: usize = 15;

    pub const HELD: usize = 16;

    // The words that the header takes.
    pub const WORDS: usize = 17;

    // `READY_POLL_INTERVAL`
    pub const POLL_BUDGET: u64 = 64;

    // The header of a channel that was just opened, of capacity `capacity` after rounding.
    pub fn new(opening: Opening, capacity: u64) -> Self
        ensures { result ≡ new_header opening capacity }
    {
        Header {
            issued: 0,
            front: 0,
            queued: 0,
            free: 0,
            slots: opening.slots,
            budget: Header::POLL_BUDGET,
            group: 0,
            alive: 1,
            capacity,
            channel: opening.channel,
            cursor: opening.cursor,
            generation: opening.generation,
            fast: 0,
            lanes: 0,
            living: 0,
            opening: opening.number,
            held: 0,
        }
    }

    // The header's words, in the order of their places.
    fn words(self) -> [u64; 17]
        ensures { result ≡ header_list self }
    {
        [
            self.issued,
            self.front,
            self.queued,
            self.free,
            self.slots,
            self.budget,
            self.group,
            self.alive,
            self.capacity,
            self.channel,
            self.cursor,
            self.generation,
            self.fast,
            self.lanes,
            self.living,
            self.opening,
            self.held,
        ]
    }

    // The channel's id and the opening number, as lane ids carry them.
    pub fn channel(table: &[u64]) -> OpenedChannel
        requires { header_words ≤ length table.now }
        ensures { result ≡ channel table.now }
    {
        OpenedChannel {
            id: table[Header::CHANNEL],
            opening: table[Header::OPENING],
        }
    }

    // One item more is held.
    pub fn held_more(table: &mut [u64])
        requires { header_words ≤ length table.old }
        ensures { table.new ≡ held_more table.old }
    {
        table[Header::HELD] = ring::after(table[Header::HELD], 1);
    }

    // So many items fewer are held.
    pub fn held_less(table: &mut [u64], n: u64)
        requires { header_words ≤ length table.old }
        ensures { table.new ≡ held_less table.old n }
    {
        table[Header::HELD] = ring::distance(table[Header::HELD], n);
    }

    // The first words of the table store.
    pub fn store(self, table: &mut [u64])
        requires { header_words ≤ length table.old }
        ensures { table.new ≡ put_header table.old self }
    {
        // Word by word: `copy_from_slice` takes the words through memory, and then needs the C library's `memcpy`.
        let words = self.words();
        for i in 0..Header::WORDS {
            table[i] = words[i];
        }
    }
}
