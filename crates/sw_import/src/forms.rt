//! What the cells of a column are, and how each is written.

ghost use Rattle.std.specs.Prelude.{[], ◌≡◌, slice_index_or};
ghost use Rattle.sw_rows.specs.Cells.{HasPlaces, cell_value};
ghost use Rattle.sw_rows.specs.Domains.{domain};
ghost use Rattle.sw_import.specs.Forms.{begins_plainly, domain_of, fits, flag_of, forms_tried, number_domain, number_word, takes_blanks, word_of};

use crate::dates::{days_of, seconds_of};
use crate::rules::Times;
use sw_rows::{Kind, read_cell_bytes};

/// What the cells of a column are.
#[derive(Clone, Copy, PartialEq, Eq)]
pub enum Form {
    /// Numbers with at most so many decimals, 0 to 6, which are written as they stand.
    Number(u8),
    /// `true` and `false` in whatever case, which are written in lower case.
    Flag,
    /// Dates and times, which are written as whole seconds since 1970 began.
    Seconds,
    /// Dates, which are written as days since the first of January 1970.
    Days,
    /// Texts, which are written as they stand.
    Text,
    /// Texts, for each of which a number is written.
    Code,
}

impl Form {
    /// The kind of the attribute that the column becomes.
    pub fn kind(self) -> Kind
        ensures value { domain [] result ≡ domain_of self }
        ensures places { HasPlaces result }
    {
        match self {
            Form::Seconds | Form::Days | Form::Code => Kind::Int,
            Form::Number(places) => number_kind(places),
            Form::Flag => Kind::Flag,
            Form::Text => Kind::Text,
        }
    }

    /// The word of a header for the kind, and of messages for the form.
    pub fn word(self) -> &'static str
        ensures { result.now ≡ word_of self }
    {
        match self {
            Form::Number(places) => number_word(places),
            Form::Flag => "flag",
            Form::Text => "text",
            Form::Seconds | Form::Days | Form::Code => "int",
        }
    }

    /// What a cell of the form is, as a fault tells it.
    pub(crate) fn told(self) -> &'static str {
        match self {
            Form::Seconds => "date or time",
            Form::Days => "date",
            _ => self.word(),
        }
    }

    /// Whether cells without a value may stand in the column.
    pub fn takes_blanks(self) -> bool
        ensures { result ≡ takes_blanks self }
    {
        match self {
            Form::Text | Form::Code => true,
            _ => false,
        }
    }
}

/// The kind of numbers with so many decimals, of which there are at most six.
fn number_kind(places: u8) -> Kind
    ensures value { domain [] result ≡ number_domain places }
    ensures places { HasPlaces result }
{
    if places == 0 {
        Kind::Int
    } else {
        Kind::Fix(places.min(6))
    }
}

/// The word of a header for numbers with so many decimals.
fn number_word(places: u8) -> &'static str
    ensures { result.now ≡ number_word places }
{
    match places {
        0 => "int",
        1 => "fix1",
        2 => "fix2",
        3 => "fix3",
        4 => "fix4",
        5 => "fix5",
        _ => "fix6",
    }
}

/// The number of a cell of numbers with so many decimals.
pub(crate) fn number_of(places: u8, cell: &[u8]) -> Option<i64>
    ensures { result ≡ cell_value (number_domain places) cell.now }
{
    read_cell_bytes(number_kind(places), cell)
}

/// Whether a cell begins as a plain number does: perhaps with a `-`, and then with a digit, which is no zero before
/// another digit.
fn begins_plainly(cell: &[u8]) -> bool
    ensures { result ≡ begins_plainly cell.now }
{
    let digits = match cell {
        [b'-', rest @ ..] => rest,
        _ => cell,
    };
    match digits {
        [b'0', next, ..] => !next.is_ascii_digit(),
        [first, ..] => first.is_ascii_digit(),
        [] => false,
    }
}

/// The most decimals of a number.
pub(crate) const MOST_DECIMALS: usize = 6;

/// The most bytes of a short number: 12 digits times ten for each of six decimals are within 64 bits.
const SHORT: usize = 12;

/// What there is from the first dot of digits on; none where another byte stands among them.
fn dot_and_after(digits: &[u8]) -> Option<&[u8]> {
    let mut found: &[u8] = &[];
    for place in 0..digits.len() {
        if digits[place] == b'.' && found.is_empty() {
            found = &digits[place..];
        } else if !digits[place].is_ascii_digit() {
            return None;
        }
    }
    Some(found)
}

/// How many decimals a short plain number has: it is one of all forms of numbers with so many decimals or more, and of no
/// other form that is tried. None of any other cell.
pub(crate) fn short_decimals(cell: &[u8]) -> Option<usize> {
    if cell.len() > SHORT || !begins_plainly(cell) {
        return None;
    }
    let digits = match cell {
        [b'-', rest @ ..] => rest,
        _ => cell,
    };
    let after = dot_and_after(digits)?.len();
    if after == 1 || after > MOST_DECIMALS + 1 {
        return None;
    }
    Some(after.saturating_sub(1))
}

/// The flag that a cell is, in whatever case.
pub(crate) fn flag_of(cell: &[u8]) -> Option<bool>
    ensures { result ≡ flag_of cell.now }
{
    if cell.eq_ignore_ascii_case(b"true") {
        Some(true)
    } else if cell.eq_ignore_ascii_case(b"false") {
        Some(false)
    } else {
        None
    }
}

/// Whether a cell is one of a form.
pub fn fits(form: Form, cell: &[u8]) -> bool
    ensures { result ≡ fits form cell.now }
{
    match form {
        Form::Number(places) => begins_plainly(cell) && number_of(places, cell).is_some(),
        Form::Flag => flag_of(cell).is_some(),
        Form::Seconds => seconds_of(cell).is_some(),
        Form::Days => days_of(cell).is_some(),
        Form::Text | Form::Code => true,
    }
}

/// How many forms are tried before texts.
pub const TRIED: usize = 9;

/// The form that is tried at a place, from the most special: numbers without decimals, with at most one, and so on to
/// six, flags, and times where they are wanted.
pub fn tried(place: usize, times: Times) -> Form
    ensures { result ≡ slice_index_or (forms_tried times) place Form.Text }
{
    match place {
        0 => Form::Number(0),
        1 => Form::Number(1),
        2 => Form::Number(2),
        3 => Form::Number(3),
        4 => Form::Number(4),
        5 => Form::Number(5),
        6 => Form::Number(6),
        7 => Form::Flag,
        8 => match times {
            Times::Seconds => Form::Seconds,
            Times::Days => Form::Days,
            Times::Text => Form::Flag,
        },
        _ => Form::Text,
    }
}
