//! What is to become of cells that stand for no value of their column.

ghost use Rattle.std.specs.Prelude.{◌≡◌};
ghost use Rattle.sw_import.specs.Made.{is_blank};

use crate::forms::Form;

/// What becomes of a blank cell in a column of numbers, flags or times.
#[derive(Clone, Copy)]
pub enum Blank<'a> {
    /// The table is refused.
    Refuse,
    /// The row is left out.
    Drop,
    /// The column is one of texts.
    Text,
    /// These bytes are written in its place.
    Value(&'a [u8]),
}

/// What becomes of a text that is longer than the text of a cell may be, or has control bytes.
#[derive(Clone, Copy, PartialEq, Eq)]
pub enum Long {
    /// The table is refused.
    Refuse,
    /// Its longest beginning that may be the text of a cell is written.
    Cut,
    /// The row is left out.
    Drop,
    /// The column is one of numbers, each of which stands for a text.
    Number,
}

/// What becomes of dates and times.
#[derive(Clone, Copy, PartialEq, Eq)]
pub enum Times {
    /// They are written as whole seconds since 1970 began, those before it being negative.
    Seconds,
    /// Dates are written as days since the first of January 1970, and times of a day are texts.
    Days,
    /// They are texts.
    Text,
}

/// What is to become of cells that stand for no value of their column.
#[derive(Clone, Copy)]
pub struct Rules<'a> {
    /// Of blank cells.
    pub blank: Blank<'a>,
    /// The word that stands for no value, as an empty cell does.
    pub null: Option<&'a [u8]>,
    /// Of long texts.
    pub long: Long,
    /// Of dates and times.
    pub times: Times,
}

impl Rules<'_> {
    /// Whether a cell has no value: it is empty, or the word for that.
    pub fn is_blank(&self, cell: &[u8]) -> bool
        ensures { result ≡ is_blank self.now cell.now }
    {
        match self.null {
            Some(word) => cell.is_empty() || cell == word,
            None => cell.is_empty(),
        }
    }

    /// What is written in place of a cell of a form, where that has no value and something is.
    pub(crate) fn filling(&self, form: Form, cell: &[u8]) -> Option<&[u8]> {
        match self.blank {
            Blank::Value(value) if !form.takes_blanks() && self.is_blank(cell) => Some(value),
            _ => None,
        }
    }
}
