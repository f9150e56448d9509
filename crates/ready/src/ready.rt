// The ready index: src/ready.rs, and `collect_ready` of receiver/registry.rs.
ghost use Rattle.std.specs.Prelude.{◌≡◌, ◌*◌, ◌≤◌, ◌<◌, length};
ghost use Rattle.lane.specs.Table.{HasRow};
ghost use Rattle.queues.specs.Header.{Shaped, slots, queue_count, issued};
ghost use Rattle.queues.specs.Queue.{QueueNames};
ghost use Rattle.ready.specs.Bits.{with_bit};
ghost use Rattle.ready.specs.Ready.{
  new_page,
  read_page,
  mark_page,
  put_page,
  new_group,
  read_group,
  mark_group,
  put_group,
  set_group_bit,
  mark,
  open_group,
  open_page,
  Linked,
  wanted_lane,
  wanted,
  queued_lane,
  enqueue,
  offer,
  collect_page,
  collect_group,
  group_count,
  group_at,
  collect_ready,
  has_ready,
};

use lane::lane::Lane;
use lane::table;
use queues::header::Header;
use queues::queue;

// `word` with its bit `b` set.
fn with_bit(word: u64, b: usize) -> u64
    requires { b < 64 }
    ensures { result ≡ with_bit word b }
{
    word | (1 << b)
}

// A page: 64 lanes, a bit for each (`ReadyPage`).
#[derive(Clone, Copy)]
pub struct Page {
    pub id: usize,
    pub bits: u64,
}

impl Page {
    pub const LANES_PER_PAGE: usize = 64;

    // The column of the rows that holds the page words.
    pub const COLUMN: usize = Lane::LANE_WORDS + 2;

    pub fn new(id: usize) -> Self
        ensures { result ≡ new_page id }
    {
        Page { id, bits: 0 }
    }

    pub fn load(t: &[u64], id: usize) -> Self
        requires { HasRow id (length t.now) }
        ensures { result ≡ read_page t.now id }
    {
        Page {
            id,
            bits: table::cell(t, Page::COLUMN, id),
        }
    }

    pub fn store(self, t: &mut [u64])
        requires { HasRow self.id (length t.old) }
        ensures { t.new ≡ put_page t.old self }
    {
        table::set_cell(t, Page::COLUMN, self.id, self.bits);
    }

    fn mark(mut self, lane: usize) -> Self
        requires { lane < 64 }
        ensures { result ≡ mark_page self lane }
    {
        self.bits = with_bit(self.bits, lane);
        self
    }
}

// A group: 64 pages, a bit for each (`ReadyGroup`). Pages and groups are two types, as in the Rust and as document 01 asks for; one type generic in its column
// would have to be given the column as a bare number, as a const argument cannot be computed.
#[derive(Clone, Copy)]
pub struct Group {
    pub id: usize,
    pub bits: u64,
}

impl Group {
    pub const PAGES_PER_GROUP: usize = 64;

    pub const LANES_PER_GROUP: usize = Page::LANES_PER_PAGE * Group::PAGES_PER_GROUP;

    // The column of the rows that holds the group words.
    pub const COLUMN: usize = Lane::LANE_WORDS + 3;

    pub fn new(id: usize) -> Self
        ensures { result ≡ new_group id }
    {
        Group { id, bits: 0 }
    }

    pub fn load(t: &[u64], id: usize) -> Self
        requires { HasRow id (length t.now) }
        ensures { result ≡ read_group t.now id }
    {
        Group {
            id,
            bits: table::cell(t, Group::COLUMN, id),
        }
    }

    pub fn store(self, t: &mut [u64])
        requires { HasRow self.id (length t.old) }
        ensures { t.new ≡ put_group t.old self }
    {
        table::set_cell(t, Group::COLUMN, self.id, self.bits);
    }

    fn mark(mut self, page: usize) -> Self
        requires { page < 64 }
        ensures { result ≡ mark_group self page }
    {
        self.bits = with_bit(self.bits, page);
        self
    }
}

// Marks a slot's page, and the group of a page that had no mark (`ReadyPage::mark`, `ReadyGroup::mark`).
pub fn mark(t: &mut [u64], slot: usize)
    requires { Shaped t.old × (slot < slots t.old) }
    ensures { t.new ≡ mark t.old slot }
{
    let page = Page::load(t, slot / Page::LANES_PER_PAGE);
    page.mark(slot % Page::LANES_PER_PAGE).store(t);
    if page.bits == 0 {
        set_group_bit(t, page.id);
    }
}

fn set_group_bit(t: &mut [u64], page: usize)
    requires { HasRow page (length t.old) }
    ensures { t.new ≡ set_group_bit t.old page }
{
    let group = Group::load(t, page / Group::PAGES_PER_GROUP);
    group.mark(page % Group::PAGES_PER_GROUP).store(t);
}

// The page of a slot that is issued for the first time comes to be with the first of its slots, and so does the group.
pub fn open_page(t: &mut [u64], slot: usize)
    requires { HasRow slot (length t.old) }
    ensures { t.new ≡ open_page t.old slot }
{
    if slot % Page::LANES_PER_PAGE == 0 {
        Page::new(slot / Page::LANES_PER_PAGE).store(t);
        open_group(t, slot / Page::LANES_PER_PAGE);
    }
}

fn open_group(t: &mut [u64], page: usize)
    requires { HasRow page (length t.old) }
    ensures { t.new ≡ open_group t.old page }
{
    if page % Group::PAGES_PER_GROUP == 0 {
        Group::new(page / Group::PAGES_PER_GROUP).store(t);
    }
}

// Whether a lane is to be queued: pending, unpaused and unqueued.
fn wanted_lane(l: Lane) -> bool
    ensures { result ≡ wanted_lane l }
{
    l.registered == 1 && l.pending == 1 && l.paused == 0 && l.queued == 0
}

// Whether a slot is issued and its lane to be queued.
fn wanted(t: &[u64], slot: u64) -> bool
    requires { Shaped t.now }
    ensures { result ≡ wanted t.now slot }
{
    slot < t[Header::ISSUED] && wanted_lane(Lane::load(t, slot))
}

fn queued_lane(mut l: Lane) -> Lane
    ensures { result ≡ queued_lane l }
{
    l.queued = 1;
    l
}

// The lane of a slot goes to the back of the queue.
pub fn enqueue(t: &mut [u64], slot: u64)
    requires { Shaped t.old × (slot < slots t.old) × (queue_count t.old < slots t.old) }
    ensures { t.new ≡ enqueue t.old slot }
{
    let l = Lane::load(t, slot);
    queued_lane(l).store(t);
    queue::push_back(t, slot);
}

// Queues the lane of a slot if it is to be queued.
fn offer(t: &mut [u64], slot: u64)
    requires { Shaped t.old × QueueNames t.old }
    ensures { t.new ≡ offer t.old slot }
{
    if wanted(t, slot) {
        enqueue(t, slot);
    }
}

// Takes a page and offers its lanes, lowest bit first.
fn collect_page(t: &mut [u64], id: usize)
    requires { Shaped t.old × QueueNames t.old × (64 * id < issued t.old) }
    ensures { t.new ≡ collect_page t.old id }
{
    let mut bits = Page::load(t, id).bits;
    Page::new(id).store(t);
    while bits != 0 {
        let lane = bits.trailing_zeros() as usize;
        bits &= bits - 1;
        offer(t, (Page::LANES_PER_PAGE * id + lane) as u64);
    }
}

// Takes a group and collects its pages, lowest bit first.
fn collect_group(t: &mut [u64], id: usize)
    requires { Shaped t.old × QueueNames t.old × Linked t.old × (4096 * id < issued t.old) }
    ensures { t.new ≡ collect_group t.old id }
{
    let mut bits = Group::load(t, id).bits;
    Group::new(id).store(t);
    while bits != 0 {
        let page = bits.trailing_zeros() as usize;
        bits &= bits - 1;
        collect_page(t, Group::PAGES_PER_GROUP * id + page);
    }
}

// How many groups have an issued slot.
fn group_count(issued: u64) -> u64
    requires { issued ≤ 8192 }
    ensures { result ≡ group_count issued }
{
    issued.div_ceil(Group::LANES_PER_GROUP as u64)
}

// The group that `next` stands at, of `n`: past the last it starts again.
fn group_at(n: u64, next: u64) -> u64
    requires { 0 < n }
    ensures { (result ≡ group_at n next) × (result < n) }
{
    if next < n { next } else { 0 }
}

// Collects from the group cursor round: all groups, or the first that has bits.
pub fn collect_ready(t: &mut [u64], all: bool)
    requires { Shaped t.old × QueueNames t.old × Linked t.old }
    ensures { t.new ≡ collect_ready all t.old }
{
    let n = group_count(t[Header::ISSUED]);
    let mut next = t[Header::GROUP];
    for _ in 0..n {
        let group = group_at(n, next);
        next = group + 1;
        if Group::load(t, group as usize).bits == 0 {
            continue;
        }
        collect_group(t, group as usize);
        t[Header::GROUP] = next;
        if !all {
            return;
        }
    }
}

// Whether any group has bits.
fn has_ready(t: &[u64]) -> bool
    requires { Shaped t.now }
    ensures { result ≡ has_ready (group_count (issued t.now)) t.now }
{
    for group in (0..group_count(t[Header::ISSUED])).rev() {
        if Group::load(t, group as usize).bits != 0 {
            return true;
        }
    }
    false
}

// `collect_ready` if any group has bits: with none, this is a look at each group's word and no call.
pub fn collect_if_ready(t: &mut [u64], all: bool)
    requires { Shaped t.old × QueueNames t.old × Linked t.old }
    ensures { t.new ≡ collect_ready all t.old }
{
    if has_ready(t) {
        collect_ready(t, all);
    }
}
