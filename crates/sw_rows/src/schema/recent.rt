//! Texts that came lately, each with its code, so that one that comes again is found without its hash: a cache, kept small, so that what is
//! in use of it stays near the processor.

ghost use Rattle.std.specs.Prelude.{◌≡◌, ◌≤◌, ℕ, List, Some, length, IfSome};
ghost use Rattle.sw_rows.specs.Recent.{AreTrueOf};
ghost use Rattle.sw_rows.specs.Slots.{IsTrueOf};
ghost use Rattle.sw_rows.specs.Texts.{code_of};
ghost use Rattle.sw_rows.specs.declared.schema.texts.TheConstants.{MOST_TEXTS};

use crate::schema::slot::Slot;
use crate::schema::slots::Slots;
use std::alloc::Global;

/// How many hints there are at first.
const FEWEST_HINTS: usize = 2_048;

/// How many hints there are at most.
const MOST_HINTS: usize = 131_072;

/// How many slots there are at most: their numbers fit a hint.
pub(crate) const MOST_SLOTS: usize = 65_535;

/// How many hints come in the place of each, where texts come to be more than two thirds of them and they are not many yet.
const GROWTH: usize = 16;

/// From so many on, hints are only doubled.
const MANY_HINTS: usize = 32_768;

/// In how many hints a text may be found.
const NEIGHBOURS: usize = 6;

/// Slots in the order in which their texts came, and hints that tell their numbers, from 1: a text's is told by the first of its hints
/// that told none when it came, or else by its first one.
#[derive(Drop)]
pub(crate) struct Recent {
    hints: Vec<u16>,
    slots: Slots,
}

impl Recent {
    /// No slots. It takes no memory.
    pub fn none(alloc: Global) -> Recent
        ensures { (ts : List (List ℕ)) → AreTrueOf ts result }
    {
        Recent {
            hints: Vec::new(alloc),
            slots: Slots::none(alloc),
        }
    }

    /// The first of a text's hints.
    #[inline]
    fn place(&self, text: &Slot) -> usize {
        let many = self.hints.len() as u64;
        ((text.sum() >> 32).wrapping_mul(many) >> 32) as usize
    }

    /// Where the hints of a text end whose first one is at a place.
    #[inline]
    fn end(&self, place: usize) -> usize
        ensures { result ≤ length self.now.hints.items }
    {
        self.hints.len().min(place.saturating_add(NEIGHBOURS))
    }

    /// Where a text is told: by the first of its hints that tells none, else its first one.
    fn free(&self, text: &Slot) -> usize {
        let place = self.place(text);
        for at in place..self.end(place) {
            if self.hints[at] == 0 {
                return at;
            }
        }
        place
    }

    /// The code of a text, where one of its hints tells a slot that has it.
    pub fn code(&self, text: &[u8]) -> Option<u64>
        ensures { (ts : List (List ℕ)) → AreTrueOf ts self.now → IfSome result (λ code. code_of ts text.now ≡ Some code) }
    {
        let wanted = Slot::of(text, 0)?;
        let place = self.place(&wanted);
        for at in place..self.end(place) {
            let number = usize::from(self.hints[at]);
            if number == 0 || number > self.slots.len() {
                return None;
            }
            if let Some(code) = self.slots.code_at(number - 1, &wanted) {
                return Some(code);
            }
        }
        None
    }

    /// Makes more hints, all blank, where there are few for so many texts, and there may be more and there is memory.
    fn widen(&mut self, texts: usize)
        ensures { (ts : List (List ℕ)) → AreTrueOf ts self.old → AreTrueOf ts self.new }
    {
        let many = self.hints.len();
        if many < MOST_HINTS && many / 3 * 2 < texts {
            let growth = if many < MANY_HINTS { GROWTH } else { 2 };
            let wanted = (many * growth).clamp(FEWEST_HINTS, MOST_HINTS);
            self.clear();
            let _ = self.hints.resize(wanted, 0u16);
        }
    }

    /// Puts a slot behind the others, or in the place of one of them where there are as many as there may be, and tells its number;
    /// None where there is no memory.
    fn put(&mut self, slot: Slot, code: u64) -> Option<u16>
        ensures { (ts : List (List ℕ)) → IsTrueOf ts slot → AreTrueOf ts self.old → AreTrueOf ts self.new }
    {
        let many = self.slots.len();
        if many >= MOST_SLOTS {
            // codes rise as texts come, so it is the one that came first
            let at = code as usize % MOST_SLOTS;
            self.slots.set(at, &slot);
            return Some((at + 1) as u16);
        }
        if !self.slots.push(&slot) {
            return None;
        }
        Some((many + 1) as u16)
    }

    /// Puts a text with its code, one of so many texts, into a slot.
    pub fn note(&mut self, text: &[u8], code: u64, texts: usize)
        requires { code ≤ MOST_TEXTS }
        ensures { (ts : List (List ℕ)) → code_of ts text.now ≡ Some code → AreTrueOf ts self.old → AreTrueOf ts self.new }
    {
        let Some(slot) = Slot::of(text, code) else {
            return;
        };
        self.widen(texts);
        let place = self.free(&slot);
        let Some(number) = self.put(slot, code) else {
            return;
        };
        if let Some(hint) = self.hints.get_mut(place) {
            *hint = number;
        }
    }

    /// Forgets all texts.
    pub fn clear(&mut self)
        ensures { (ts : List (List ℕ)) → AreTrueOf ts self.new }
    {
        self.hints.clear();
        self.slots.clear();
    }
}
