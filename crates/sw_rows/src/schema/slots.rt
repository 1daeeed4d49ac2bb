//! Short texts with their codes, in columns: of one of up to sixteen bytes twenty-one are looked at, so that those of many texts stay near the
//! processor.

ghost use Rattle.std.specs.Prelude.{◌≡◌, ◌<◌, ◌++◌, ◌∷◌, [], true, length, slice_index_or, slice_set, if◌then◌else◌};
ghost use Rattle.sw_rows.specs.Slots.{TellsCode, text_in};
ghost use Rattle.sw_rows.specs.declared.schema.slots.TheConstants.{BOTH_WORDS};

use crate::schema::slot::Slot;
use std::alloc::Global;
use std::marker::Model;

/// How many bytes the first and the last word of a slot have at most.
const BOTH_WORDS: u8 = 16;

/// The first and the last word of a slot.
#[derive(Clone, Copy)]
pub(crate) struct Ends {
    first: u64,
    last: u64,
}

impl Ends {
    /// Those of a slot.
    #[inline]
    fn of(slot: &Slot) -> Ends
        ensures { result ≡ record { first = slot.now.first; last = slot.now.last } }
    {
        Ends {
            first: slot.first,
            last: slot.last,
        }
    }
}

/// Whether the middle word at a place is that of a text, where it has one; else it is not read.
#[inline]
fn has_middle(middles: &[u64], at: usize, text: &Slot) -> bool
    requires { at < length middles.now }
    ensures { result ≡ true → BOTH_WORDS < text.now.many → slice_index_or middles.now at 0 ≡ text.now.middle }
{
    text.many <= BOTH_WORDS || middles[at] == text.middle
}

/// Slots, in columns.
#[derive(Drop)]
pub(crate) struct Slots {
    ends: Vec<Ends>,
    middles: Vec<u64>,
    lens: Vec<u8>,
    codes: Vec<u32>,
}

impl Model for Slots {
    ghost use Rattle.std.specs.Prelude.{List};
    ghost use Rattle.sw_rows.specs.Slots.{AreInStep, slots_in};
    ghost use Rattle.sw_rows.specs.declared.schema.slot.Slot.{Slot};

    ghost Value = { List Slot };

    ghost view = { λ s. slots_in s.ends.items s.middles.items s.lens.items s.codes.items };

    ghost invariant = { λ s. AreInStep s.ends.items s.middles.items s.lens.items s.codes.items };
}

impl Slots {
    /// No slots. It takes no memory.
    pub fn none(alloc: Global) -> Slots
        ensures { result ≡ [] }
    {
        Slots {
            ends: Vec::new(alloc),
            middles: Vec::new(alloc),
            lens: Vec::new(alloc),
            codes: Vec::new(alloc),
        }
    }

    /// How many there are.
    #[inline]
    pub fn len(&self) -> usize
        ensures { result ≡ length self.now }
    {
        self.ends.len()
    }

    /// The code at a place, where the text that stands there is that of a slot.
    #[inline]
    pub fn code_at(&self, at: usize, text: &Slot) -> Option<u64>
        requires { at < length self.now }
        ensures { TellsCode self.now (text_in text.now) result }
    {
        let ends = self.ends[at];
        if ends.first != text.first || ends.last != text.last || self.lens[at] != text.many {
            return None;
        }
        if !has_middle(&self.middles, at, text) {
            return None;
        }
        Some(u64::from(self.codes[at]))
    }

    /// Puts a slot behind the others, where there is memory for it, and tells whether there was.
    pub fn push(&mut self, slot: &Slot) -> bool
        ensures { self.new ≡ (if result then self.old ++ slot.now ∷ [] else self.old) }
    {
        if self.ends.reserve(1).is_err() {
            return false;
        }
        if self.middles.reserve(1).is_err() {
            return false;
        }
        if self.lens.reserve(1).is_err() {
            return false;
        }
        if self.codes.reserve(1).is_err() {
            return false;
        }
        self.ends.push_reserved(Ends::of(slot));
        self.middles.push_reserved(slot.middle);
        self.lens.push_reserved(slot.many);
        self.codes.push_reserved(slot.code);
        true
    }

    /// Puts a slot in the place of another.
    pub fn set(&mut self, at: usize, slot: &Slot)
        requires { at < length self.old }
        ensures { self.new ≡ slice_set self.old at slot.now }
    {
        self.ends[at] = Ends::of(slot);
        self.middles[at] = slot.middle;
        self.lens[at] = slot.many;
        self.codes[at] = slot.code;
    }

    /// Forgets all.
    pub fn clear(&mut self)
        ensures { self.new ≡ [] }
    {
        self.ends.clear();
        self.middles.clear();
        self.lens.clear();
        self.codes.clear();
    }
}
