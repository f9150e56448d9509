// The words of the pages and groups that exist.
ghost use Rattle.std.specs.Prelude.{◌≡◌, ℕ, ◌*◌, ◌<◌};
ghost use Rattle.queues.specs.Header.{Shaped, issued};
ghost use Rattle.ready.specs.Bits.{bit};
ghost use Rattle.order_slot.specs.Tells.{Tells};
ghost use Rattle.order_slot.specs.Clauses.{PageHolds, GroupHolds, PagesHold, GroupsHold};

use queues::header::Header;
use ready::ready::{Group, Page};

// Whether every set bit stands below place `n`.
fn bits_below(word: u64, n: u64) -> bool
    ensures { Tells ((b : ℕ) → b < 64 → bit word b ≡ 1 → b < n) result }
{
    n >= 64 || word >> n == 0
}

fn page_holds(t: &[u64], page: usize) -> bool
    requires { Shaped t.now × (64 * page < issued t.now) }
    ensures { Tells (PageHolds t.now page) result }
{
    let word = Page::load(t, page).bits;
    let group = Group::load(t, page / Group::PAGES_PER_GROUP).bits;
    (group >> (page % Group::PAGES_PER_GROUP)) % 2 == u64::from(word != 0)
        && bits_below(
            word,
            t[Header::ISSUED] - (Page::LANES_PER_PAGE * page) as u64,
        )
}

// A group's bits are of pages that exist.
fn group_holds(t: &[u64], group: usize) -> bool
    requires { Shaped t.now × (4096 * group < issued t.now) }
    ensures { Tells (GroupHolds t.now group) result }
{
    let pages = t[Header::ISSUED].div_ceil(Page::LANES_PER_PAGE as u64);
    bits_below(
        Group::load(t, group).bits,
        pages - (Group::PAGES_PER_GROUP * group) as u64,
    )
}

// Two loops, of pages and of groups: `(0..n).all(..)` was tried, and the proof that it tells each page from its runs of calls did not close.
pub(crate) fn pages_hold(t: &[u64]) -> bool
    requires { Shaped t.now }
    ensures { Tells (PagesHold t.now) result }
{
    let n = t[Header::ISSUED].div_ceil(Page::LANES_PER_PAGE as u64) as usize;
    for page in 0..n {
        if !page_holds(t, page) {
            return false;
        }
    }
    true
}

pub(crate) fn groups_hold(t: &[u64]) -> bool
    requires { Shaped t.now }
    ensures { Tells (GroupsHold t.now) result }
{
    let n = t[Header::ISSUED].div_ceil(Group::LANES_PER_GROUP as u64) as usize;
    for group in 0..n {
        if !group_holds(t, group) {
            return false;
        }
    }
    true
}
