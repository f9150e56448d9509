// A set of slots as a bitmap on the stack.
ghost use Rattle.std.specs.Prelude.{◌≡◌, true, ◌≤◌, ◌<◌, replicate};
ghost use Rattle.order_slot.specs.Tells.{Tells};
ghost use Rattle.order.specs.Seen.{has, add};

#[derive(Drop)]
pub(crate) struct Bitmap {
    words: [u64; 128],
}

impl Bitmap {
    // No slot.
    pub(crate) fn new() -> Self
        ensures { result.words ≡ replicate 128 0 }
    {
        Bitmap { words: [0; 128] }
    }

    // 1 where the set has the slot, else 0.
    pub(crate) fn has(&self, slot: usize) -> u64
        requires { slot < 8192 }
        ensures { result ≡ has self.now.words slot }
    {
        (self.words[slot / 64] >> (slot % 64)) % 2
    }

    fn add(&mut self, slot: usize)
        requires { slot < 8192 }
        ensures { self.new.words ≡ add self.old.words slot }
    {
        self.words[slot / 64] |= 1 << (slot % 64);
    }

    // Adds a slot that is issued and was not in the set, and says whether it was so.
    pub(crate) fn note(&mut self, slot: u64, issued: u64) -> bool
        requires { issued ≤ 8192 }
        ensures tells { Tells ((slot < issued) × (has self.old.words slot ≡ 0)) result }
        ensures seen_after { result ≡ true → self.new.words ≡ add self.old.words slot }
    {
        if slot >= issued || self.has(slot as usize) != 0 {
            return false;
        }
        self.add(slot as usize);
        true
    }
}
