// A receive that took nothing: `is_drained` and `retire_empty_paused_lanes` of receiver/registry.rs.
ghost use Rattle.std.specs.Prelude.{◌≡◌, ◌<◌};
ghost use Rattle.queues.specs.Header.{issued};
ghost use Rattle.turns.specs.Drained.{Idle, retire_empty_paused, retire_empty_paused_lanes, is_drained, nothing_taken};

use crate::turn;
use lane::lane::Lane;
use model::Answer;
use queues::header::Header;

// Retires a slot's lane if it is paused and empty: its sender is dropped, and no receive would find it.
fn retire_empty_paused(t: &mut [u64], slot: u64)
    requires { Idle t.old × (slot < issued t.old) }
    ensures { t.new ≡ retire_empty_paused t.old slot }
{
    let l = Lane::load(t, slot);
    if l.registered != 1 {
        return;
    }
    if l.paused != 1 {
        return;
    }
    let looked = l.reload_is_empty();
    turn::retire_if(t, looked.lane, looked.empty);
}

// A loop of one line, as in crate `all_lanes`: a function that is handed its step is no shorter.
fn retire_empty_paused_lanes(t: &mut [u64])
    requires { Idle t.old }
    ensures { t.new ≡ retire_empty_paused_lanes t.old }
{
    for slot in 0..t[Header::ISSUED] {
        retire_empty_paused(t, slot);
    }
}

// Whether no sender lives and no lane is registered; empty paused lanes do not hide that.
fn is_drained(t: &mut [u64]) -> bool
    requires { Idle t.old }
    ensures { (result, t.new) ≡ is_drained t.old }
{
    if t[Header::LIVING] != 0 {
        return false;
    }
    retire_empty_paused_lanes(t);
    t[Header::LANES] == 0
}

// Disconnected if the channel is drained, else Empty.
pub fn nothing_taken(t: &mut [u64]) -> Answer
    requires { Idle t.old }
    ensures { (result, t.new) ≡ nothing_taken t.old }
{
    if is_drained(t) {
        return Answer::Disconnected;
    }
    Answer::Empty
}
