//! The keys of rows.
ghost use Rattle.std.specs.Prelude.{◌≡◌, ◌+◌, ◌<◌, ◌^◌};
ghost use Rattle.worker_table.specs.Keys.{compare_pairs};
ghost use Rattle.worker_table.specs.Stored.{pair_of};

mod ticks;

use std::cmp::Ordering;
use std::marker::PhantomData;
pub use ticks::{Counted, Ticks};

/// The state and the input of a row. No other module reads them.
#[derive_where(Clone, Copy)]
pub struct Key<B> {
    state: u32,
    input: u32,
    of: PhantomData<B>,
}

impl<B> Key<B> {
    /// The key of these.
    pub fn new(pair: (u32, u32)) -> Key<B>
        ensures { pair_of result ≡ pair }
    {
        Key {
            state: pair.0,
            input: pair.1,
            of: PhantomData,
        }
    }

    /// How the wanted pair stands to this key. Nothing else compares keys, and it ticks once.
    pub fn order_of(&self, wanted: (u32, u32), ticks: &mut Ticks<B>) -> Ordering
        requires { ticks.old + 1 < 2 ^ 64 }
        ensures order { result ≡ compare_pairs wanted (pair_of self.now) }
        ensures ticks { ticks.new ≡ ticks.old + 1 }
    {
        ticks.tick();
        wanted.0.cmp(&self.state).then(wanted.1.cmp(&self.input))
    }
}
