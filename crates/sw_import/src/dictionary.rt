//! Texts for which numbers are written.

ghost use Rattle.std.specs.Prelude.{[], ◌≡◌, length, option_map, OnErr, OnOk};
ghost use Rattle.sw_rows.specs.Texts.{code_of, text_of};
ghost use Rattle.sw_import.specs.Numbered.{learned};

use indexmap::IndexSet;
use std::alloc::{AllocError, Global};
use std::marker::Model;
use sw_rows::TextKey;

/// Texts, with the numbers 1, 2, 3 and so on in the order in which they were first seen.
pub struct Dictionary {
    texts: IndexSet<String, TextKey>,
}

// By hand: the drop of a derived one is written out at each way out of a function.
impl Drop for Dictionary {
    fn drop(self) {
        let Self { texts: _texts } = self;
    }
}

impl Model for Dictionary {
    ghost use Rattle.std.specs.Prelude.{List, ℕ};
    ghost use Rattle.sw_rows.specs.Texts.{texts_of};

    ghost Value = { List (List ℕ) };

    ghost view = { λ s. texts_of s.texts };
}

impl Dictionary {
    /// No texts. They will be hashed under the key.
    pub(crate) fn new(alloc: Global, key: TextKey) -> Dictionary
        ensures { result ≡ [] }
    {
        Dictionary {
            texts: IndexSet::with_hasher(alloc, key),
        }
    }

    /// How many texts there are.
    pub fn len(&self) -> usize
        ensures { result ≡ length self.now }
    {
        self.texts.len()
    }

    /// The text of a number, if one has it.
    pub fn text(&self, number: usize) -> Option<&str>
        ensures { option_map (λ text. text.now) result ≡ text_of self.now number }
    {
        let text = self.texts.get_index(number.checked_sub(1)?)?;
        Some(text.as_str())
    }

    /// The number of a text, if it is one of these.
    pub fn number(&self, text: &str) -> Option<u64>
        ensures { result ≡ code_of self.now text.now }
    {
        // for the prover: there are few
        let _count = self.texts.len();
        let place = self.texts.get_index_of(text)?;
        Some(place as u64 + 1)
    }

    /// Adds a text: a new one comes last, and a known one changes nothing. The one error is that there is no memory; then nothing
    /// has changed.
    pub(crate) fn add(&mut self, text: &str) -> Result<(), AllocError>
        ensures added { OnOk result (self.new ≡ learned self.old text.now) }
        ensures refused { OnErr result (self.new ≡ self.old) }
    {
        if self.texts.contains(text) {
            return Ok(());
        }
        let alloc = *self.texts.allocator();
        let text = String::from_str(alloc, text)?;
        match self.texts.insert(text) {
            Ok(_) => Ok(()),
            Err(_) => Err(AllocError),
        }
    }
}
