//! Texts of cells, each with a code that stands for it.

ghost use Rattle.std.specs.Prelude.{[], ◌≡◌, ◌≤◌, length, pos, take, true, if◌then◌else◌, ◌<◌, is_some, option_map, List, None, Ok, Some, IfErr, IfOk, IfSome, OnErr, OnOk};
ghost use Rattle.std.specs.List.{list_all};
ghost use Rattle.sw_rows.specs.Adding.{Adds};
ghost use Rattle.sw_rows.specs.Texts.{code_given, code_of, has_text, is_text, is_text_byte, text_of, with_text, AreTexts};
ghost use Rattle.sw_rows.specs.declared.schema.texts.TheConstants.{MOST_TEXTS};

use crate::schema::recent::{MOST_SLOTS, Recent};
use crate::schema::slot::MOST_BYTES as MOST_BYTES_OF_SLOT;
use crate::schema::text_key::TextKey;
use indexmap::IndexSet;
use std::alloc::Global;
use std::marker::Model;
use sw_query::Refusal;

/// How many bytes the text of a cell has at most.
pub const MOST_BYTES_OF_TEXT: usize = 64;

/// How many texts there are at most, no two of them the same.
pub const MOST_TEXTS: u64 = 1_048_576;

fn are_text_bytes(bytes: &[u8]) -> bool
    ensures { result ≡ list_all is_text_byte bytes.now }
{
    bytes.iter().all(|byte| *byte >= 32 && *byte != 127)
}

/// Bytes as the text of a cell, and None where they are none.
///
/// The text of a cell is UTF-8 of at most `MOST_BYTES_OF_TEXT` bytes, none of them below 32 and none 127. It may be
/// empty.
#[tactic(auto, using(crate::proofs::Schemas::TextLemmas::text_read, crate::proofs::Schemas::TextLemmas::text_refused))]
pub fn read_text(bytes: &[u8]) -> Option<&str>
    ensures value { option_map (λ text. text.now) result ≡ (if is_text bytes.now then Some bytes.now else None) }
    ensures text { IfSome result (λ text. is_text text.now ≡ true) }
{
    if bytes.len() > MOST_BYTES_OF_TEXT || !are_text_bytes(bytes) {
        return None;
    }
    match str::from_utf8(bytes) {
        Ok(text) => Some(text),
        Err(_) => None,
    }
}

/// The number of a cell that stands for the text of a code.
pub(crate) fn cell_of(code: u64) -> i64
    requires { code ≤ MOST_TEXTS }
    ensures { result ≡ pos code }
{
    // few codes fit 63 bits
    code as i64
}

/// Texts of cells in the order in which they were first seen. Their codes are 1, 2, 3 and so on.
///
/// No text stands twice, each may be the text of a cell, and there are at most `MOST_TEXTS` of them.
pub struct Texts {
    texts: IndexSet<String, TextKey>,
    recent: Recent,
}

// By hand: the drop of a derived one is written out at each way out of a function.
impl Drop for Texts {
    fn drop(self) {
        let Self {
            texts: _texts,
            recent: _recent,
        } = self;
    }
}

impl Model for Texts {
    ghost use Rattle.std.specs.Prelude.{List, ℕ};
    ghost use Rattle.sw_rows.specs.Recent.{AreTrueOf};
    ghost use Rattle.sw_rows.specs.Texts.{texts_of, AreTexts};

    ghost Value = { List (List ℕ) };

    ghost view = { λ s. texts_of s.texts };

    ghost invariant = { λ s. AreTexts (texts_of s.texts) × AreTrueOf (texts_of s.texts) s.recent };
}

impl Texts {
    /// No texts. They will be hashed under the key.
    pub fn new(alloc: Global, key: TextKey) -> Self
        ensures { result ≡ [] }
    {
        Texts {
            texts: IndexSet::with_hasher(alloc, key),
            recent: Recent::none(alloc),
        }
    }

    /// How many texts there are.
    pub fn len(&self) -> usize
        ensures value { result ≡ length self.now }
        ensures texts { AreTexts self.now }
    {
        self.texts.len()
    }

    /// The code of a text, if it is one of these, by its hash.
    fn code_by_hash(&self, text: &str) -> Option<u64>
        ensures value { result ≡ code_of self.now text.now }
        ensures found { is_some result ≡ has_text self.now text.now }
        ensures few { IfSome result (λ code. code ≤ MOST_TEXTS) }
    {
        let place = self.texts.get_index_of(text)?;
        Some(place as u64 + 1)
    }

    /// The code of a text, if it is one of these. Texts are compared byte by byte.
    pub fn code(&self, text: &str) -> Option<u64>
        ensures value { result ≡ code_of self.now text.now }
        ensures found { is_some result ≡ has_text self.now text.now }
        ensures few { IfSome result (λ code. code ≤ MOST_TEXTS) }
    {
        match self.seen(text.as_bytes()) {
            Some(code) => Some(code),
            None => self.code_by_hash(text),
        }
    }

    /// The text of a code, if one has it.
    pub fn text(&self, code: u64) -> Option<&str>
        ensures value { option_map (λ text. text.now) result ≡ text_of self.now code }
        ensures text { IfSome result (λ text. is_text text.now ≡ true) }
    {
        let place = code.checked_sub(1)?;
        let text = self.texts.get_index(place as usize)?;
        Some(text.as_str())
    }

    /// The code of these bytes where they are a text that came lately: they need not be looked at then. None tells nothing of them.
    pub(crate) fn seen(&self, bytes: &[u8]) -> Option<u64>
        ensures code { IfSome result (λ code. code_of self.now bytes.now ≡ Some code) }
        ensures few { IfSome result (λ code. code ≤ MOST_TEXTS) }
        ensures text { IfSome result (λ _. is_text bytes.now ≡ true) }
    {
        let code = self.recent.code(bytes)?;
        Some(code)
    }

    /// The code of a text, which comes last where it is new. A known one changes nothing.
    ///
    /// Refused `TooMany` of limit `MOST_TEXTS` where the text is new and there are as many, and `NoMemory` where there
    /// is no memory for a new one: nothing has changed then. A known text is never refused.
    pub fn add(&mut self, text: &str) -> Result<u64, Refusal>
        requires { is_text text.now ≡ true }
        ensures { Adds self.old text.now self.new result }
    {
        match self.seen(text.as_bytes()) {
            Some(code) => Ok(code),
            None => self.add_unseen(text),
        }
    }

    /// The same, for one of so many texts. Where they are more than can have come lately, none is looked for there.
    pub(crate) fn add_one_of(&mut self, text: &str, many: usize) -> Result<u64, Refusal>
        requires { is_text text.now ≡ true }
        ensures { Adds self.old text.now self.new result }
    {
        if many <= MOST_SLOTS {
            self.add(text)
        } else {
            self.add_by_hash(text)
        }
    }

    /// The same, for a text that `seen` does not find.
    pub(crate) fn add_unseen(&mut self, text: &str) -> Result<u64, Refusal>
        requires { is_text text.now ≡ true }
        ensures { Adds self.old text.now self.new result }
    {
        match self.add_by_hash(text) {
            Ok(code) => {
                self.recent.note(text.as_bytes(), code, self.texts.len());
                Ok(code)
            }
            Err(e) => Err(e),
        }
    }

    /// The same, without a look at what came lately.
    fn add_by_hash(&mut self, text: &str) -> Result<u64, Refusal>
        requires { is_text text.now ≡ true }
        ensures { Adds self.old text.now self.new result }
    {
        let is_full = self.len() as u64 >= MOST_TEXTS;
        // a short one is most likely new, and is put at once; where there is no memory for that, it may be known
        if text.len() <= MOST_BYTES_OF_SLOT && !is_full {
            if let Ok(code) = self.put(text) {
                return Ok(code);
            }
        }
        match self.code_by_hash(text) {
            Some(code) => Ok(code),
            None if is_full => Err(Refusal::TooMany { limit: MOST_TEXTS }),
            None => self.put(text),
        }
    }

    /// Puts a text behind the others where none of them is the same, and tells its code.
    ///
    /// Refused `NoMemory` where there is no memory for it: nothing has changed then.
    fn put(&mut self, text: &str) -> Result<u64, Refusal>
        requires few { length self.old < MOST_TEXTS }
        requires text { is_text text.now ≡ true }
        ensures code { IfOk result (λ code. code_given self.old text.now ≡ Ok code) }
        ensures few { IfOk result (λ code. code ≤ MOST_TEXTS) }
        ensures added { OnOk result (self.new ≡ with_text self.old text.now) }
        ensures refused { IfErr result (λ e. e ≡ Refusal.NoMemory) }
        ensures unchanged { OnErr result (self.new ≡ self.old) }
    {
        let alloc = *self.texts.allocator();
        let Ok(owned) = String::from_str(alloc, text) else {
            return Err(Refusal::NoMemory);
        };
        match self.texts.insert_full(owned) {
            Ok((place, _)) => Ok(place as u64 + 1),
            Err(_) => Err(Refusal::NoMemory),
        }
    }

    /// Takes back the texts that came last, so that the first `len` are left. Where there are no more, nothing changes.
    pub fn truncate(&mut self, len: usize)
        ensures { self.new ≡ take len self.old }
    {
        self.texts.truncate(len);
        self.recent.clear();
    }
}
