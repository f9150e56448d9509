// A lane's signal: `mark_ready` of src/mpsc.rs, where it was idle.
ghost use Rattle.std.specs.Prelude.{◌≡◌, ◌<◌};
ghost use Rattle.queues.specs.Header.{Shaped, slots};
ghost use Rattle.store.specs.Signal.{mark_if_idle};

use lane::lane::Lane;
use ready::ready as marks;

// Idle to pending sets the page bit; `l` is the lane before.
pub fn mark_if_idle(t: &mut [u64], l: Lane)
    requires { Shaped t.old × (l.key.slot < slots t.old) }
    ensures { t.new ≡ mark_if_idle t.old l }
{
    if l.pending == 0 {
        marks::mark(t, l.key.slot as usize);
    }
}
