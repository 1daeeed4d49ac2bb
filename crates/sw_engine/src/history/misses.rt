//! How often a session could not publish.

ghost use Rattle.std.specs.Prelude.{◌≡◌};
ghost use Rattle.sw_engine.specs.Published.{IsOneMore};

use crate::history::locked::Miss;
use std::marker::Model;

/// How many publishings there was no memory for.
#[derive(Drop)]
pub(crate) struct Misses {
    count: u64,
}

impl Model for Misses {
    ghost use Rattle.std.specs.Prelude.{ℕ};

    ghost Value = { ℕ };

    ghost view = { λ m. m.count };
}

impl Misses {
    /// None yet.
    pub(crate) fn new() -> Misses
        ensures { result ≡ 0 }
    {
        Misses { count: 0 }
    }

    /// One more. The count stays at its type's greatest number once it is there.
    pub(crate) fn add(&mut self, _miss: Miss)
        ensures { IsOneMore self.old self.new }
    {
        self.count = self.count.saturating_add(1);
    }

    /// How many.
    pub(crate) fn count(&self) -> u64
        ensures { result ≡ self.now }
    {
        self.count
    }
}
