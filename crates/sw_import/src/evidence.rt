//! What was seen of the cells of a column.

ghost use Rattle.std.specs.Prelude.{◌≡◌, ◌+◌, ◌<◌, ◌^◌};

use crate::faults::MOST_SHOWN;
use crate::forms::{Form, MOST_DECIMALS, TRIED, fits, short_decimals, tried};
use crate::making::is_text;
use crate::rules::{Rules, Times};

/// How many cells or rows there are of some sort, and the line of the first, from 1; 0 where there is none.
#[derive(Clone, Copy, PartialEq, Eq)]
pub struct Tally {
    /// How many there are.
    pub count: u64,
    /// The line of the first.
    pub first: u64,
}

impl Tally {
    /// None.
    pub(crate) fn new() -> Tally
        ensures { result.count ≡ 0 }
    {
        Tally { count: 0, first: 0 }
    }

    /// One more, in a line.
    pub(crate) fn add(&mut self, line: u64)
        ensures { (self.old.count + 1 < 2 ^ 64) → self.new.count ≡ self.old.count + 1 }
    {
        if self.count == 0 {
            self.first = line;
        }
        self.count = self.count.saturating_add(1);
    }
}

/// How many bytes of a cell are kept to be shown: one more than are shown, by which it is seen that there are more.
const MOST_KEPT: usize = MOST_SHOWN + 1;

/// How a cell begins.
#[derive(Clone, Copy)]
pub(crate) struct Beginning {
    bytes: [u8; MOST_KEPT],
    length: usize,
}

impl Beginning {
    /// That of an empty cell.
    fn new() -> Beginning {
        Beginning {
            bytes: [0; MOST_KEPT],
            length: 0,
        }
    }

    /// That of a cell.
    fn of(cell: &[u8]) -> Beginning {
        let mut begins = Beginning::new();
        for place in 0..MOST_KEPT {
            if place < cell.len() {
                begins.bytes[place] = cell[place];
                begins.length = place + 1;
            }
        }
        begins
    }

    /// Its bytes: all of a cell that is shown whole, and more than are shown of another.
    pub(crate) fn as_bytes(&self) -> &[u8] {
        self.bytes.get(..self.length).unwrap_or_default()
    }
}

/// The usual words for a value that is missing, in lower case.
const MISSING: [&str; 16] = [
    "na", "n/a", "#na", "#n/a", "<na>", "nan", "-nan", "null", "none", "nil", "missing", "\\n",
    "-", "--", "?", ".",
];

/// How many bytes the longest of them has.
const MOST_MISSING: usize = 7;

/// Whether a cell is one of the usual words for a value that is missing, in whatever case.
fn is_missing(cell: &[u8]) -> bool {
    cell.len() <= MOST_MISSING
        && MISSING
            .iter()
            .any(|word| cell.eq_ignore_ascii_case(word.as_bytes()))
}

/// Whether a cell looks like a number of whatever form: digits, and perhaps signs, commas, a dot and an exponent.
fn looks_numeric(cell: &[u8]) -> bool {
    let mut has_digit = false;
    let mut has_dot = false;
    let mut last = b'e';
    for byte in cell {
        let may_stand = match *byte {
            b'+' | b'-' => last == b'e' || last == b'E',
            b',' | b'e' | b'E' => has_digit,
            b'.' => !has_dot,
            other => other.is_ascii_digit(),
        };
        if !may_stand {
            return false;
        }
        has_digit = has_digit || byte.is_ascii_digit();
        has_dot = has_dot || *byte == b'.';
        last = *byte;
    }
    has_digit
}

/// What was seen of the cells of a column.
#[derive(Clone, Copy)]
pub struct Evidence {
    /// For each form that is tried, in order, whether every cell that has a value is of it, but those with a usual word for
    /// a missing one and the first of the others.
    pub(crate) fits: [bool; TRIED],
    /// Whether there is such a form.
    pub(crate) is_special: bool,
    /// The cells that have a value.
    pub valued: Tally,
    /// The cells without a value.
    pub blank: Tally,
    /// The cells that are too long for texts, or have bytes that no text has.
    pub long: Tally,
    /// The cells that are not UTF-8.
    pub broken: Tally,
    /// The cell after which texts were the only form left, if there is one and others came before it.
    pub odd: Tally,
    /// The cells with a usual word for a missing value, as long as another form than texts was left for the others.
    pub missing: Tally,
    /// The first other cell with a value, where texts are the only form that fits it; those behind it may be of another.
    pub lone: Tally,
    /// Whether every cell with a value looks like a number, but the usual words for a missing one.
    pub(crate) is_numeric: bool,
    /// How the cell begins for which the column is one of texts: the odd or lone one, or else the first with a usual word for a
    /// missing value.
    pub(crate) cause: Beginning,
}

/// Whether all of a cell is UTF-8.
fn is_utf8(cell: &[u8]) -> bool {
    str::from_utf8(cell).is_ok()
}

impl Evidence {
    /// Of no cell.
    pub(crate) fn new() -> Evidence {
        Evidence {
            fits: [true; TRIED],
            is_special: true,
            valued: Tally::new(),
            blank: Tally::new(),
            long: Tally::new(),
            broken: Tally::new(),
            odd: Tally::new(),
            missing: Tally::new(),
            lone: Tally::new(),
            is_numeric: true,
            cause: Beginning::new(),
        }
    }

    /// Takes a form from those that are left, where a cell is none of it.
    fn try_forms(&mut self, times: Times, cell: &[u8]) {
        for place in 0..TRIED {
            if self.fits[place] && !fits(tried(place, times), cell) {
                self.fits[place] = false;
            }
        }
    }

    /// Leaves the forms of numbers with so many decimals or more, as a short plain number does that has so many.
    fn leave_numbers(&mut self, decimals: usize) {
        for place in 0..TRIED {
            self.fits[place] &= decimals <= place && place <= MOST_DECIMALS;
        }
    }

    /// How many cells with a value were held against the forms, and are of each that is left.
    fn held(&self) -> u64 {
        let others = self.missing.count.saturating_add(self.lone.count);
        self.valued.count.saturating_sub(others)
    }

    /// Takes in whether a form other than texts is left after a cell of a line. Behind none but usual words for a missing value
    /// the cell is a lone one, and all forms are left.
    fn see_special(&mut self, cell: &[u8], line: u64) {
        self.is_special = self.fits.contains(&true);
        if self.is_special || self.lone.count > 0 {
            return;
        }
        self.cause = Beginning::of(cell);
        if self.held() > 0 {
            self.odd.add(line);
        } else {
            self.lone.add(line);
            self.fits = [true; TRIED];
            self.is_special = true;
        }
    }

    /// Takes a cell of a line with a usual word for a missing value in.
    fn add_missing(&mut self, cell: &[u8], line: u64) {
        if self.missing.count == 0 && self.lone.count == 0 {
            self.cause = Beginning::of(cell);
        }
        self.missing.add(line);
    }

    /// Takes a cell with a value in.
    fn add_value(&mut self, times: Times, cell: &[u8], line: u64) {
        if self.is_special && is_missing(cell) {
            self.add_missing(cell, line);
        } else if self.is_special {
            self.try_forms(times, cell);
            self.see_special(cell, line);
        }
        if self.is_numeric && !is_missing(cell) {
            self.is_numeric = looks_numeric(cell);
        }
        self.valued.add(line);
    }

    /// Takes a short plain number with so many decimals in.
    fn add_number(&mut self, decimals: usize, cell: &[u8], line: u64) {
        if self.is_special {
            self.leave_numbers(decimals);
            self.see_special(cell, line);
        }
        self.valued.add(line);
    }

    /// Takes in how a cell stands as a text.
    fn add_text(&mut self, cell: &[u8], line: u64) {
        if is_text(cell) {
            return;
        }
        if is_utf8(cell) {
            self.long.add(line);
        } else {
            self.broken.add(line);
        }
    }

    /// Takes a cell of a line in. A short plain number, which most cells of numbers are, is looked at once for all forms.
    pub(crate) fn add(&mut self, rules: &Rules<'_>, cell: &[u8], line: u64) {
        if rules.is_blank(cell) {
            self.blank.add(line);
        } else if let Some(decimals) = short_decimals(cell) {
            self.add_number(decimals, cell, line);
            return;
        } else {
            self.add_value(rules.times, cell, line);
        }
        self.add_text(cell, line);
    }

    /// The first form of which every cell with a value is; texts where none is, and where no cell has a value.
    pub(crate) fn found(&self, times: Times) -> Form {
        if self.held() == 0 || self.missing.count > 0 || self.lone.count > 0 {
            return Form::Text;
        }
        for place in 0..TRIED {
            if self.fits[place] {
                return tried(place, times);
            }
        }
        Form::Text
    }

    /// Whether another form than texts fits all cells with a value, and there are some, but usual words for a missing one and
    /// a lone cell.
    pub(crate) fn fits_other(&self) -> bool {
        self.is_special && self.held() > 0
    }

    /// Whether a lone cell is why the column is one of texts: the others are of another form, or all look like numbers.
    pub(crate) fn is_lone(&self) -> bool {
        self.lone.count > 0 && (self.is_numeric || self.fits_other())
    }
}
