//! The bit vector.

ghost use Rattle.std.specs.Prelude.{◌≡◌, ◌+◌, ◌-◌, ◌^◌, ◌<◌, ◌&&◌, [], ◌∷◌, ◌++◌, List, length, replicate, count_by, true, false, slice_index_or, slice_set, MatchResult};
ghost use Rattle.sw_query.specs.declared.refusal.Refusal.TheVariants.{NoMemory};
ghost use Rattle.sw_bits.specs.Places.{AreOnes};

use std::alloc::Global;
use std::marker::Model;
use sw_query::Refusal;

/// A list of truth values, 64 of them a word. Contracts see the list.
#[derive(Drop)]
pub struct Bits {
    words: Vec<u64>,
    len: usize,
}

impl Model for Bits {
    ghost use Rattle.std.specs.Prelude.{List, Bool};
    ghost use Rattle.sw_bits.specs.Places.{places, AreWords};

    ghost Value = { List Bool };

    ghost view = { λ b. places b.words.items 0 b.len };

    ghost invariant = { λ b. AreWords b.words.items b.len };
}

/// So many words of 1s.
fn full_words(alloc: Global, whole: usize) -> Result<Vec<u64>, Refusal>
    ensures { MatchResult result (λ words. words.items ≡ replicate whole (2 ^ 64 - 1)) (λ e. e ≡ NoMemory) }
{
    let mut words = Vec::new(alloc);
    match words.resize(whole, u64::MAX) {
        Ok(()) => Ok(words),
        Err(_) => Err(Refusal::NoMemory),
    }
}

/// One more word, whose first `rest` bits are 1s.
fn push_ones(words: &mut Vec<u64>, rest: usize) -> Result<(), Refusal>
    requires { rest < 64 }
    ensures { MatchResult result (λ _. words.new.items ≡ words.old.items ++ (2 ^ rest - 1) ∷ []) (λ e. e ≡ NoMemory) }
{
    match words.push((1 << rest) - 1) {
        Ok(()) => Ok(()),
        Err(_) => Err(Refusal::NoMemory),
    }
}

/// The words of so many true places.
fn words_of_ones(alloc: Global, len: usize) -> Result<Vec<u64>, Refusal>
    ensures { MatchResult result (λ words. AreOnes words.items len) (λ e. e ≡ NoMemory) }
{
    let mut words = full_words(alloc, len / 64)?;
    let rest = len % 64;
    if rest > 0 {
        push_ones(&mut words, rest)?;
    }
    Ok(words)
}

impl Bits {
    /// So many true places. The one refusal is `NoMemory`.
    pub fn all(alloc: Global, len: usize) -> Result<Bits, Refusal>
        ensures { MatchResult result (λ bits. bits ≡ replicate len true) (λ e. e ≡ NoMemory) }
    {
        let words = words_of_ones(alloc, len)?;
        Ok(Bits { words, len })
    }

    /// How many places there are.
    pub fn len(&self) -> usize
        ensures { result ≡ length self.now }
    {
        self.len
    }

    /// Whether place i, from 0, is true.
    #[inline]
    pub fn get(&self, i: usize) -> bool
        requires { i < length self.now }
        ensures { result ≡ slice_index_or self.now i false }
    {
        (self.words[i / 64] >> (i % 64)) % 2 == 1
    }

    /// Place i stays true only where it was and x is; no other place changes. It takes no memory.
    #[inline]
    pub fn refine(&mut self, i: usize, x: bool)
        requires { i < length self.old }
        ensures { self.new ≡ slice_set self.old i (slice_index_or self.old i false && x) }
    {
        let at = i / 64;
        self.words[at] &= !(u64::from(!x) << (i % 64));
    }

    /// How many places are true, counted by whole words.
    pub fn count(&self) -> usize
        ensures { result ≡ count_by (λ b. b) self.now }
    {
        let mut count = 0;
        for word in &self.words {
            count += word.count_ones() as usize;
        }
        count
    }
}
