//! How many comparisons were made.
ghost use Rattle.std.specs.Prelude.{◌≡◌, ◌+◌, ◌<◌, ◌^◌};

use std::marker::{Model, PhantomData};

/// The brand of the counters that anyone can make.
#[derive(Drop)]
pub struct Counted;

/// How many comparisons with stored keys of this brand were made. Code over any brand can make no counter of it: what compares
/// keys there counts in the counter that it was given.
#[derive(Drop)]
pub struct Ticks<B = Counted> {
    count: u64,
    of: PhantomData<B>,
}

impl<B> Model for Ticks<B> {
    ghost use Rattle.std.specs.Prelude.{ℕ};

    ghost Value = { ℕ };

    ghost view = { λ t. t.count };
}

impl Ticks<Counted> {
    /// None yet.
    pub fn new() -> Ticks<Counted>
        ensures { result ≡ 0 }
    {
        Ticks {
            count: 0,
            of: PhantomData,
        }
    }
}

impl<B> Ticks<B> {
    /// How many there are.
    pub fn count(&self) -> u64
        ensures { result ≡ self.now }
    {
        self.count
    }

    // One more.
    pub(super) fn tick(&mut self)
        requires { self.old + 1 < 2 ^ 64 }
        ensures { self.new ≡ self.old + 1 }
    {
        self.count += 1;
    }
}
