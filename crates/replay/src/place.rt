// Where the program stands in its buffer and its text, and what comes next.
ghost use Rattle.std.specs.Prelude.{◌≡◌, ◌≤◌, ◌<◌};
ghost use Rattle.replay.specs.declared.place.Next.TheVariants.{Read};

// What comes next: a read; a round over the bytes in the buffer; the last round, as the input has ended; nothing.
#[derive(Clone, Copy, Debug, PartialEq, Eq)]
pub enum Next {
    Read,
    Answer,
    End,
    Stop,
}

// The bytes of the buffer from `at` to `have` are not answered yet, and `end` bytes of the text are due to be written.
// The arrays stand beside it and not in it: it is copied from step to step, and they are not.
#[derive(Clone, Copy)]
pub struct Place {
    pub next: Next,
    pub at: usize,
    pub have: usize,
    pub end: usize,
    ghost in_buffer: { (at ≤ have) × (have ≤ 65536) },
    // Where it asks for bytes there is room for one at least, as a read that asks for none looks like the end of the input.
    ghost room: { next ≡ Read → have < 65536 },
}
