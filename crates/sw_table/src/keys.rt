//! The keys of a list of rows.

ghost use Rattle.std.specs.Prelude.{◌≡◌, ◌≤◌, ◌<◌, ◌+◌, ◌^◌, ◌++◌, ◌∷◌, [], true, false, ℕ, length, map, slice_index_or, take, All, MatchOption, OnOk, OnErr};
ghost use Rattle.std.specs.List.{range_with_len};
ghost use Rattle.sw_table.specs.Kept.{kept};
ghost use Rattle.sw_table.specs.Keys.{HasNo, IsKeyAt};
ghost use Rattle.sw_table.specs.Live.{Rises};
ghost use Rattle.sw_table.specs.Packed.{stretch};

use crate::finding::find_key;
use crate::keeping::keep_keys;
use crate::numbers::Numbers;
use std::alloc::{AllocError, Global};
use std::marker::Model;

/// How keys are kept.
#[derive(Debug, Drop)]
enum Form {
    /// Keys that follow one another. No memory is taken.
    Numbered(Numbers),
    /// These keys.
    Listed(Vec<u64>),
}

/// The keys of rows in their order. They take no memory while each came after the one before and `keep` took none
/// out.
#[derive(Debug, Drop)]
pub(crate) struct Keys {
    form: Form,
}

impl Model for Keys {
    ghost use Rattle.std.specs.Prelude.{List, ℕ};
    ghost use Rattle.sw_table.specs.KeyForms.{keys_in};

    ghost Value = { List ℕ };

    ghost view = { λ k. keys_in k.form };
}

impl Keys {
    /// No keys.
    pub(crate) fn new() -> Keys
        ensures { result ≡ [] }
    {
        Keys {
            form: Form::Numbered(Numbers::new()),
        }
    }

    /// So many keys from 1 on.
    pub(crate) fn from_one(many: usize) -> Keys
        requires { many < 2 ^ 63 }
        ensures { result ≡ range_with_len 1 many }
    {
        Keys {
            form: Form::Numbered(Numbers::from_one(many)),
        }
    }

    /// How many keys there are.
    #[inline]
    pub(crate) fn len(&self) -> usize
        ensures { result ≡ length self.now }
    {
        match &self.form {
            Form::Numbered(numbers) => numbers.len(),
            Form::Listed(keys) => keys.len(),
        }
    }

    /// The key at a place.
    #[inline]
    pub(crate) fn at(&self, place: usize) -> u64
        requires { place < length self.now }
        ensures { (d : ℕ) → result ≡ slice_index_or self.now place d }
    {
        match &self.form {
            Form::Numbered(numbers) => numbers.at(place),
            Form::Listed(keys) => keys[place],
        }
    }

    /// Makes room for so many more keys; the keys stay.
    pub(crate) fn reserve(&mut self, more: usize) -> Result<(), AllocError>
        ensures { self.new ≡ self.old }
    {
        match &mut self.form {
            Form::Numbered(_) => Ok(()),
            Form::Listed(keys) => keys.reserve(more),
        }
    }

    /// Adds a key at the end; after an error nothing has changed.
    pub(crate) fn push(&mut self, alloc: Global, key: u64) -> Result<(), AllocError>
        ensures ok { OnOk result (self.new ≡ self.old ++ key ∷ []) }
        ensures err { OnErr result (self.new ≡ self.old) }
    {
        match &mut self.form {
            Form::Numbered(numbers) => {
                if numbers.push(key) {
                    return Ok(());
                }
                let mut keys = numbers.listed(alloc)?;
                keys.push(key)?;
                self.form = Form::Listed(keys);
            }
            Form::Listed(keys) => keys.push(key)?,
        }
        Ok(())
    }

    /// Adds so many keys of a list, from a place on, where all are numbers that follow, and says whether they are;
    /// else nothing changes.
    fn join(&mut self, keys: &Keys, start: usize, many: usize) -> bool
        requires { start + many ≤ length keys.now }
        ensures joined { result ≡ true → self.new ≡ self.old ++ stretch start many keys.now }
        ensures other { result ≡ false → self.new ≡ self.old }
    {
        match &mut self.form {
            Form::Numbered(own) => match &keys.form {
                Form::Numbered(theirs) => own.extend_from(theirs, start, many),
                Form::Listed(_) => false,
            },
            Form::Listed(_) => false,
        }
    }

    /// Adds each key of a list, raised by how many keys there are, where all are numbers that follow, and says whether
    /// they are; else nothing changes.
    fn join_behind(&mut self, keys: &Keys) -> bool
        requires { length self.old + length keys.now < 2 ^ 63 }
        ensures joined { result ≡ true → self.new ≡ self.old ++ map (λ (k : ℕ). length self.old + k) keys.now }
        ensures other { result ≡ false → self.new ≡ self.old }
    {
        match &mut self.form {
            Form::Numbered(own) => match &keys.form {
                Form::Numbered(theirs) => own.extend_behind(theirs),
                Form::Listed(_) => false,
            },
            Form::Listed(_) => false,
        }
    }

    /// Adds so many keys of a list, from a place on, one by one; after an error nothing has changed.
    fn push_each(
        &mut self,
        alloc: Global,
        keys: &Keys,
        start: usize,
        many: usize,
    ) -> Result<(), AllocError>
        requires { start + many ≤ length keys.now }
        ensures ok { OnOk result (self.new ≡ self.old ++ stretch start many keys.now) }
        ensures err { OnErr result (self.new ≡ self.old) }
    {
        let before = self.len();
        let _all = keys.len();
        for done in 0..many {
            if let Err(e) = self.push(alloc, keys.at(start + done)) {
                self.truncate(before);
                return Err(e);
            }
        }
        Ok(())
    }

    /// Adds so many keys of a list, from a place on; after an error nothing has changed.
    pub(crate) fn extend_from(
        &mut self,
        alloc: Global,
        keys: &Keys,
        start: usize,
        many: usize,
    ) -> Result<(), AllocError>
        requires { start + many ≤ length keys.now }
        ensures ok { OnOk result (self.new ≡ self.old ++ stretch start many keys.now) }
        ensures err { OnErr result (self.new ≡ self.old) }
    {
        if self.join(keys, start, many) {
            return Ok(());
        }
        self.push_each(alloc, keys, start, many)
    }

    /// Adds each key of a list, raised by how many keys there are, one by one; after an error nothing has changed.
    fn push_behind(&mut self, alloc: Global, keys: &Keys) -> Result<(), AllocError>
        requires few { length self.old + length keys.now < 2 ^ 63 }
        requires small { All (λ (k : ℕ). k < 2 ^ 63) keys.now }
        ensures ok { OnOk result (self.new ≡ self.old ++ map (λ (k : ℕ). length self.old + k) keys.now) }
        ensures err { OnErr result (self.new ≡ self.old) }
    {
        let before = self.len();
        let more = keys.len();
        for place in 0..more {
            if let Err(e) = self.push(alloc, before as u64 + keys.at(place)) {
                self.truncate(before);
                return Err(e);
            }
        }
        Ok(())
    }

    /// Adds each key of a list, raised by how many keys there are; after an error nothing has changed.
    pub(crate) fn extend_behind(&mut self, alloc: Global, keys: &Keys) -> Result<(), AllocError>
        requires few { length self.old + length keys.now < 2 ^ 63 }
        requires small { All (λ (k : ℕ). k < 2 ^ 63) keys.now }
        ensures ok { OnOk result (self.new ≡ self.old ++ map (λ (k : ℕ). length self.old + k) keys.now) }
        ensures err { OnErr result (self.new ≡ self.old) }
    {
        if self.join_behind(keys) {
            return Ok(());
        }
        self.push_behind(alloc, keys)
    }

    /// Keeps so many keys at most, the first ones.
    pub(crate) fn truncate(&mut self, many: usize)
        ensures { self.new ≡ take many self.old }
    {
        match &mut self.form {
            Form::Numbered(numbers) => numbers.truncate(many),
            Form::Listed(keys) => keys.truncate(many),
        }
    }

    /// The place of a key, by a difference or by binary search.
    pub(crate) fn find(&self, key: u64) -> Option<usize>
        requires { Rises (λ (k : ℕ). k) self.now }
        ensures { MatchOption result (HasNo key self.now) (IsKeyAt key self.now) }
    {
        match &self.form {
            Form::Numbered(numbers) => numbers.find(key),
            Form::Listed(keys) => find_key(keys, key),
        }
    }

    /// Takes the keys out whose flags are false; after an error nothing has changed.
    pub(crate) fn keep(&mut self, alloc: Global, live: &[bool]) -> Result<(), AllocError>
        requires { length live.now ≡ length self.old }
        ensures ok { OnOk result (self.new ≡ kept live.now self.old) }
        ensures err { OnErr result (self.new ≡ self.old) }
    {
        match &mut self.form {
            Form::Numbered(numbers) => {
                let mut keys = numbers.listed(alloc)?;
                keep_keys(&mut keys, live);
                self.form = Form::Listed(keys);
            }
            Form::Listed(keys) => keep_keys(keys, live),
        }
        Ok(())
    }
}
