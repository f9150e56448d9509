// Retiring a lane: receiver/registry.rs, and `Registry::retire_lane` of src/mpsc.rs.
ghost use Rattle.std.specs.Prelude.{◌≡◌, ◌<◌};
ghost use Rattle.queues.specs.Header.{Shaped, slots, free_count, lane_count};
ghost use Rattle.store.specs.Registry.{retired, free_unless_last, retire_lane};

use lane::lane::Lane;
use queues::header::Header;
use queues::registry;

fn retired(mut l: Lane) -> Lane
    ensures { result ≡ retired l }
{
    l.paused = 0;
    l.registered = 0;
    l
}

// The slot is free again, unless its generation is the last: an old id would then name a new lane.
fn free_unless_last(t: &mut [u64], l: Lane)
    requires { Shaped t.old × (free_count t.old < slots t.old) }
    ensures { t.new ≡ free_unless_last t.old l }
{
    if l.key.generation == u64::MAX {
        return;
    }
    registry::free(t, l.key.slot);
}

pub fn retire_lane(t: &mut [u64], l: Lane)
    requires { Shaped t.old × (l.key.slot < slots t.old) × (free_count t.old < slots t.old) × (0 < lane_count t.old) }
    ensures { t.new ≡ retire_lane t.old l }
{
    let lanes = t[Header::LANES] - 1;
    retired(l).store(t);
    t[Header::LANES] = lanes;
    free_unless_last(t, l);
}
