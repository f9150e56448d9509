// The release batch: how many consumed places go back to the sender at once (receiver/lane.rs, `Lane::new`).
ghost use Rattle.std.specs.Prelude.{◌≡◌};
ghost use Rattle.yring.specs.Cursor.{Capacity};
ghost use Rattle.model.specs.State.{release_batch};

// The least batch, where the ring is not smaller.
const MIN_RELEASE_BATCH: u64 = 64;

// min(max(C / 2 rounded up, 64), C)
pub fn release_batch(capacity: u64) -> u64
    requires { Capacity capacity }
    ensures { result ≡ release_batch capacity }
{
    capacity.div_ceil(2).max(MIN_RELEASE_BATCH).min(capacity)
}
