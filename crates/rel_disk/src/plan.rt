// Which calls of a disk fail.
ghost use Rattle.std.specs.Prelude.{◌≡◌};
ghost use Rattle.rel_disk.specs.declared.plan.Turn.{Turn};

/// What becomes of a call.
#[derive(Clone, Copy)]
pub enum Turn {
    /// The disk within does it.
    Passes,
    /// The call fails and does nothing.
    Fails,
    /// The call fails and has a part of its effect: a write writes the first half of its bytes, rounded up, and a cut and a
    /// sync are done whole. A call that only reads does nothing.
    FailsInPart,
    /// The call fails, and a write writes the first half of its bytes, rounded down. Any other call does nothing.
    Stops,
}

/// Which calls of a disk fail.
pub trait Plan: Copy {
    /// What becomes of the next call.
    ghost turn_of: { Self → Turn };

    /// The plan after it.
    ghost after_turn: { Self → Self };

    /// Counts a call, and says what becomes of it.
    fn turn(&mut self) -> Turn
        ensures turn { result ≡ turn_of self.old }
        ensures after { self.new ≡ after_turn self.old };
}
