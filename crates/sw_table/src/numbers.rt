//! Keys that follow one another.

ghost use Rattle.std.specs.Prelude.{◌≡◌, ◌≤◌, ◌<◌, ◌+◌, ◌^◌, ◌++◌, ◌∷◌, [], ℕ, true, false, length, map, slice_index_or, take, IfOk, MatchOption};
ghost use Rattle.std.specs.List.{range_with_len};
ghost use Rattle.sw_table.specs.Keys.{HasNo, IsKeyAt};
ghost use Rattle.sw_table.specs.Packed.{stretch};

use std::alloc::{AllocError, Global};
use std::marker::Model;

/// Keys that follow one another, from a first one on. They take no memory.
#[derive(Debug, Drop)]
pub(crate) struct Numbers {
    first: u64,
    many: usize,
}

impl Model for Numbers {
    ghost use Rattle.std.specs.Prelude.{List, ℕ};
    ghost use Rattle.std.specs.List.{range_with_len};
    ghost use Rattle.sw_table.specs.Keys.{IsNumbers};

    ghost Value = { List ℕ };

    ghost view = { λ n. range_with_len n.first n.many };

    ghost invariant = { λ n. IsNumbers n.first n.many };
}

impl Numbers {
    /// No keys.
    pub(crate) fn new() -> Numbers
        ensures { result ≡ [] }
    {
        Numbers { first: 1, many: 0 }
    }

    /// So many from 1 on.
    pub(crate) fn from_one(many: usize) -> Numbers
        requires { many < 2 ^ 63 }
        ensures { result ≡ range_with_len 1 many }
    {
        Numbers { first: 1, many }
    }

    /// How many there are.
    #[inline]
    pub(crate) fn len(&self) -> usize
        ensures { result ≡ length self.now }
    {
        self.many
    }

    /// The one at a place.
    #[inline]
    pub(crate) fn at(&self, place: usize) -> u64
        requires { place < length self.now }
        ensures { (d : ℕ) → result ≡ slice_index_or self.now place d }
    {
        self.first + place as u64
    }

    /// Adds so many numbers, from one on, if they follow these, and says whether they do; else nothing changes.
    fn join(&mut self, first: u64, many: usize) -> bool
        requires some { 1 ≤ first }
        requires within { first + many < 2 ^ 64 }
        ensures joined { result ≡ true → self.new ≡ self.old ++ range_with_len first many }
        ensures other { result ≡ false → self.new ≡ self.old }
    {
        if self.many == 0 {
            self.first = first;
            self.many = many;
            return true;
        }
        if self.first + self.many as u64 != first {
            return false;
        }
        self.many += many;
        true
    }

    /// Adds a key if it follows, and says whether it does; else nothing changes. Where there is none yet each may be
    /// the first but 0 and the greatest of 64 bits.
    pub(crate) fn push(&mut self, key: u64) -> bool
        ensures joined { result ≡ true → self.new ≡ self.old ++ key ∷ [] }
        ensures other { result ≡ false → self.new ≡ self.old }
    {
        if key == 0 || key == u64::MAX {
            return false;
        }
        self.join(key, 1)
    }

    /// Adds so many of others, from a place on, if they follow, and says whether they do; else nothing changes.
    pub(crate) fn extend_from(&mut self, others: &Numbers, start: usize, many: usize) -> bool
        requires { start + many ≤ length others.now }
        ensures joined { result ≡ true → self.new ≡ self.old ++ stretch start many others.now }
        ensures other { result ≡ false → self.new ≡ self.old }
    {
        self.join(others.first + start as u64, many)
    }

    /// Adds each of others, raised by how many there are, if they follow, and says whether they do; else nothing
    /// changes.
    pub(crate) fn extend_behind(&mut self, others: &Numbers) -> bool
        requires { length self.old + length others.now < 2 ^ 63 }
        ensures joined { result ≡ true → self.new ≡ self.old ++ map (λ (k : ℕ). length self.old + k) others.now }
        ensures other { result ≡ false → self.new ≡ self.old }
    {
        if others.first != 1 {
            return false;
        }
        self.join(1 + self.many as u64, others.many)
    }

    /// Keeps so many at most, the first ones.
    pub(crate) fn truncate(&mut self, many: usize)
        ensures { self.new ≡ take many self.old }
    {
        if many < self.many {
            self.many = many;
        }
    }

    /// The place of a key, by a difference.
    pub(crate) fn find(&self, key: u64) -> Option<usize>
        ensures { MatchOption result (HasNo key self.now) (IsKeyAt key self.now) }
    {
        if key < self.first || key - self.first >= self.many as u64 {
            return None;
        }
        Some((key - self.first) as usize)
    }

    /// The same keys as a list.
    pub(crate) fn listed(&self, alloc: Global) -> Result<Vec<u64>, AllocError>
        ensures { IfOk result (λ keys. keys.items ≡ self.now) }
    {
        let mut keys = Vec::with_capacity(alloc, self.len())?;
        for place in 0..self.len() {
            keys.push(self.at(place))?;
        }
        Ok(keys)
    }
}
