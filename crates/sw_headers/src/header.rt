//! The header that is given.

ghost use Rattle.std.specs.Prelude.{◌≡◌, ◌≤◌, ◌++◌, ◌∷◌, ◌||◌, [], filter, length, map, IfOk, OnOk};
ghost use Rattle.std.specs.List.{list_all};
ghost use Rattle.sw_headers.specs.Steps.{commas, joined, joined_on, keeps_at, lacking, next_field};
ghost use Rattle.sw_headers.specs.Under.{is_named, kept_in, or_empty, words};

use std::alloc::{AllocError, Global};

/// The word for a column that is passed by.
const PASSED: &str = "-";

/// A header that stands in place of a text's first record.
#[derive(Drop)]
pub struct Header {
    /// The record of the columns that are kept.
    record: Vec<u8>,
    /// For each column of the text, whether it is kept.
    keeps: Vec<bool>,
}

impl Header {
    /// The header of a text: a field for each column, divided by commas, as a table's header has them, or `-` where the
    /// column is passed by.
    #[tactic(auto, using(crate::proofs::Asked::names_joined))]
    pub fn new(alloc: Global, asked: &str) -> Result<Header, AllocError>
        ensures keeps { IfOk result (λ header. header.keeps.items ≡ map is_named (words asked.now)) }
        ensures names { IfOk result (λ header. words header.record.items ≡ or_empty (filter is_named (words asked.now))) }
    {
        let found = words_of(alloc, asked)?;
        let mut header = Header {
            record: Vec::new(alloc),
            keeps: Vec::new(alloc),
        };
        header.push_all(found.as_slice())?;
        Ok(header)
    }

    /// Adds the columns of a header that has none yet.
    fn push_all(&mut self, words: &[&str]) -> Result<(), AllocError>
        ensures keeps { OnOk result (self.new.keeps.items ≡ self.old.keeps.items ++ map is_named (map (λ w. w.now) words.now)) }
        ensures record { OnOk result (self.new.record.items ≡ joined self.old.record.items (map (λ w. w.now) words.now)) }
    {
        let mut has_kept = false;
        for word in words {
            has_kept = self.push(word, has_kept)?;
        }
        Ok(())
    }

    /// Adds a column. Says whether one is kept by now.
    fn push(&mut self, word: &str, has_kept: bool) -> Result<bool, AllocError>
        ensures keeps { OnOk result (self.new.keeps.items ≡ self.old.keeps.items ++ is_named word.now ∷ []) }
        ensures record { OnOk result (self.new.record.items ≡ joined_on has_kept self.old.record.items word.now) }
        ensures kept { IfOk result (λ r. r ≡ (has_kept || is_named word.now)) }
    {
        let is_kept = word != PASSED;
        self.keeps.push(is_kept)?;
        if !is_kept {
            return Ok(has_kept);
        }
        if has_kept {
            self.record.push(b',')?;
        }
        self.record.extend_from_slice(word.as_bytes())?;
        Ok(true)
    }

    /// The record of the columns that are kept.
    pub(crate) fn record(&self) -> &[u8]
        ensures { result.now ≡ self.now.record.items }
    {
        self.record.as_slice()
    }

    /// Whether the field at a place of a record is kept. Those past the last column are, so that the record has too many.
    pub(crate) fn keeps(&self, place: usize) -> bool
        ensures { result ≡ keeps_at self.now.keeps.items place }
    {
        match self.keeps.get(place) {
            Some(is_kept) => *is_kept,
            None => true,
        }
    }

    /// The place behind a field.
    pub(crate) fn next_field(&self, place: usize) -> usize
        ensures { result ≡ next_field self.now.keeps.items place }
    {
        if place < self.keeps.len() {
            place + 1
        } else {
            place
        }
    }

    /// How many commas follow a record whose last field is at a place: where it is too short, though it has none or all of
    /// the fields that are kept, so many that it has another number than are kept.
    pub(crate) fn commas(&self, place: usize) -> usize
        ensures { result ≡ commas self.now.keeps.items place }
    {
        let keeps = self.keeps.as_slice();
        if place >= keeps.len() || place + 1 >= keeps.len() {
            return 0;
        }
        lacking(kept_in(&keeps[..place + 1]), kept_in(keeps))
    }

    /// Whether no column is passed by.
    pub(crate) fn keeps_all(&self) -> bool
        ensures { result ≡ list_all (λ k. k) self.now.keeps.items }
    {
        self.keeps.iter().all(|is_kept| *is_kept)
    }
}

/// The words of a header, which commas divide.
fn words_of(alloc: Global, asked: &str) -> Result<Vec<&str>, AllocError>
    ensures { IfOk result (λ found. map (λ word. word.now) found.items ≡ words asked.now) }
{
    asked.split(',').collect(alloc)
}

/// How many of some columns are kept.
fn kept_in(keeps: &[bool]) -> usize
    ensures result { result ≡ kept_in keeps.now }
    ensures few { result ≤ length keeps.now }
{
    let mut count = 0;
    let mut rest = keeps;
    while let Some((is_kept, more)) = rest.split_first() {
        if *is_kept {
            count += 1;
        }
        rest = more;
    }
    count
}

/// How many commas follow so many fields that are kept, where a record is too short.
fn lacking(given: usize, all: usize) -> usize
    ensures { result ≡ lacking given all }
{
    if given == 0 {
        all
    } else if given == all {
        1
    } else {
        0
    }
}
