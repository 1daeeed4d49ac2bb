//! Why no table is made.

ghost use Rattle.std.specs.Prelude.{◌≡◌};
ghost use Rattle.sw_import.specs.Faults.{is_memory};

use crate::dates::after_digits;
use crate::forms::MOST_DECIMALS;
use std::alloc::{AllocError, Global};
use std::fmt;
use sw_rows::Refusal;
use thiserror::Error;

/// How many bytes of a cell are shown at most.
pub(crate) const MOST_SHOWN: usize = 40;

/// A byte as it is shown: itself where it is a character of ASCII, else as `\xHH`.
fn push_shown(text: &mut String, byte: u8) -> Result<(), AllocError> {
    if byte.is_ascii_graphic() || byte == b' ' {
        text.push(char::from(byte))?;
        return Ok(());
    }
    write!(text, "\\x{byte:02x}")
}

/// The beginning of a cell as it is shown, and two dots where there is more.
pub(crate) fn shown(alloc: Global, cell: &[u8]) -> Result<String, AllocError> {
    let mut text = String::new(alloc);
    for byte in cell.iter().take(MOST_SHOWN) {
        push_shown(&mut text, *byte)?;
    }
    if cell.len() > MOST_SHOWN {
        text.push_str("..")?;
    }
    Ok(text)
}

/// Whether a character would change what a terminal shows.
fn is_control(c: char) -> bool {
    c < ' ' || c == '\u{7f}' || (c >= '\u{80}' && c < '\u{a0}')
}

/// A heading as it is shown: control characters as `\xHH`.
pub(crate) fn shown_heading(alloc: Global, heading: &str) -> Result<String, AllocError> {
    let mut text = String::new(alloc);
    for c in heading.chars() {
        if is_control(c) {
            write!(text, "\\x{:02x}", u32::from(c))?;
        } else {
            text.push(c)?;
        }
    }
    Ok(text)
}

/// A column of the values: its number, from 1, and its heading.
#[derive(Debug, Drop)]
pub struct At {
    /// The number, from 1.
    pub number: u64,
    /// The heading as it is shown, which may be empty.
    pub heading: String,
}

impl fmt::Display for At {
    fn fmt<W: fmt::Write>(&self, f: &mut fmt::Formatter<W>) -> fmt::Result {
        let At { number, heading } = self;
        if heading.is_empty() {
            return write!(f, "column {number} without a heading");
        }
        write!(f, "column {number} ({heading})")
    }
}

impl std::error::Error for At {}

/// Cells of a column that can be no cells of what it becomes.
#[derive(Debug, Drop, Error)]
#[error("{count} in {at}, the first in line {line}")]
pub struct Lack {
    /// How many there are.
    pub count: u64,
    /// The line of the first, from 1.
    pub line: u64,
    /// The column.
    pub at: At,
}

/// Such cells of one column or more.
#[derive(Debug, Drop)]
pub struct Lacks {
    /// One of each column.
    pub lacks: Vec<Lack>,
}

impl fmt::Display for Lacks {
    fn fmt<W: fmt::Write>(&self, f: &mut fmt::Formatter<W>) -> fmt::Result {
        let mut divider = "";
        for lack in self.lacks.as_slice() {
            write!(f, "{divider}{lack}")?;
            divider = "; ";
        }
        Ok(())
    }
}

/// So many fields, in words.
#[derive(Clone, Copy)]
struct Fields(u64);

impl fmt::Display for Fields {
    fn fmt<W: fmt::Write>(&self, f: &mut fmt::Formatter<W>) -> fmt::Result {
        let Fields(count) = self;
        let word = if *count == 1 { "field" } else { "fields" };
        write!(f, "{count} {word}")
    }
}

/// What is told besides of a cell that is a number but for how many decimals it has; nothing of another.
pub(crate) fn more_decimals(cell: &[u8]) -> &'static str {
    let digits = match cell {
        [b'-' | b'+', rest @ ..] => rest,
        _ => cell,
    };
    match (digits, after_digits(digits)) {
        ([b'0'..=b'9', ..], [b'.', decimals @ ..])
            if decimals.len() > MOST_DECIMALS && after_digits(decimals).is_empty() => {
            " (more than 6 decimals)"
        }
        _ => "",
    }
}

/// Why no table is made.
#[derive(Debug, Drop)]
pub enum Fault {
    /// A growth was refused.
    NoMemory,
    /// There is no record, and the first would have the headings.
    NoHeader,
    /// There is no record, and none would have headings.
    NoRecord,
    /// No column has a heading or number that was asked for.
    NoColumn {
        asked: String,
        count: u64,
    },
    /// More columns than one have a heading that was asked for.
    ManyAlike {
        asked: String,
        count: u64,
    },
    /// More columns are asked for than a table has.
    ManyColumns,
    /// A new name or a kind is asked for of a column that is not written.
    NotWritten {
        asked: String,
    },
    /// What is asked of a column is not divided by an equals sign.
    NoEquals {
        asked: String,
    },
    /// A name is none.
    NoName {
        name: String,
    },
    /// A name is that of another column.
    NameTwice {
        name: String,
    },
    /// A kind is none.
    NoKind {
        kind: String,
    },
    /// A record has fewer fields than the first one, which is the header or another.
    Ragged {
        line: u64,
        found: u64,
        wanted: u64,
        first: &'static str,
    },
    /// A record has more fields than the first one.
    Wide {
        line: u64,
        found: u64,
        wanted: u64,
        first: &'static str,
    },
    /// There are more rows than a table has.
    ManyRows {
        line: u64,
    },
    /// Blank cells stand in columns of numbers, flags or times.
    Blanks(Lacks),
    /// Texts are too long.
    Longs(Lacks),
    /// Texts are not UTF-8.
    Encodings(Lacks),
    /// A cell is none of the kind that was asked for its column.
    Cell {
        line: u64,
        at: At,
        cell: String,
        kind: &'static str,
    },
    /// The value for blank cells is none of the kind of a column that has some.
    Value {
        value: String,
        at: At,
        kind: &'static str,
    },
    /// What is wrong with values that another byte may divide: they have one column, and its first field, which is called so,
    /// has that byte.
    Undivided {
        why: String,
        first: &'static str,
        divider: &'static str,
    },
    /// The table would be none.
    Table(Refusal),
}

impl Fault {
    /// Tells what is wrong with what is asked of columns.
    fn of_asked<W: fmt::Write>(&self, f: &mut fmt::Formatter<W>) -> fmt::Result {
        match self {
            Fault::NoHeader => f.write_str("there is no record, and so no heading"),
            Fault::NoRecord => f.write_str("there is no record"),
            Fault::NoColumn { asked, count } => write!(
                f,
                "no column has the heading or the number `{asked}`: there are {count} columns"
            ),
            Fault::ManyAlike { asked, count } => write!(
                f,
                "{count} columns have the heading `{asked}`: give the number of one"
            ),
            Fault::ManyColumns => f.write_str(
                "more than 8 columns are asked for, and a table has at most 8",
            ),
            Fault::NotWritten { asked } => write!(
                f,
                "`{asked}` is asked of a column that is not written"
            ),
            Fault::NoEquals { asked } => write!(
                f,
                "`{asked}` has no `=` between the heading and what is asked of its column"
            ),
            Fault::NoName { name } => write!(
                f,
                "`{name}` is no name: a name has 1 to 32 letters, digits and underscores, begins with no digit, and is no word of scripts"
            ),
            Fault::NameTwice { name } => write!(f, "`{name}` is the name of more columns than one"),
            Fault::NoKind { kind } => write!(
                f,
                "`{kind}` is no kind: int, fix1 to fix6, flag, text, seconds or days"
            ),
            _ => Ok(()),
        }
    }

    /// Tells what is wrong with a record, or a cell of it.
    fn of_records<W: fmt::Write>(&self, f: &mut fmt::Formatter<W>) -> fmt::Result {
        match self {
            Fault::Ragged {
                line,
                found,
                wanted,
                first,
            } => write!(
                f,
                "line {line}: {}, and {first} has {wanted}; --ragged fill takes fields that are missing at the end for empty ones",
                Fields(*found)
            ),
            Fault::Wide {
                line,
                found,
                wanted,
                first,
            } => write!(
                f,
                "line {line}: {}, and {first} has {wanted}",
                Fields(*found)
            ),
            Fault::ManyRows { line } => write!(
                f,
                "line {line}: more than 1048576 rows; --sample N writes the first N"
            ),
            Fault::Cell {
                line,
                at,
                cell,
                kind,
            } => {
                let more = more_decimals(cell.as_bytes());
                write!(f, "line {line}, {at}: `{cell}` is no {kind}{more}")
            }
            Fault::Value { value, at, kind } => write!(
                f,
                "`{value}` in place of cells without a value is no {kind}: {at}"
            ),
            _ => Ok(()),
        }
    }

    /// Tells what else keeps a table from being made.
    fn of_table<W: fmt::Write>(&self, f: &mut fmt::Formatter<W>) -> fmt::Result {
        match self {
            Fault::NoMemory => f.write_str("no memory"),
            Fault::Blanks(it) => write!(
                f,
                "cells without a value: {it}; choose: --empty drop leaves their rows out, --empty VALUE writes VALUE in their place, --empty text makes texts of the column"
            ),
            Fault::Longs(it) => write!(
                f,
                "texts of more than 64 bytes, or with bytes below 32 or 127: {it}; choose: --long cut writes the longest beginning that can be a text, --long drop leaves their rows out, --long number writes numbers that stand for the texts"
            ),
            Fault::Encodings(it) => write!(
                f,
                "texts that are not UTF-8: {it}; iconv -f LATIN1 -t UTF-8 makes UTF-8 of a file in Latin-1"
            ),
            Fault::Undivided {
                why,
                first,
                divider,
            } => write!(
                f,
                "{why}; one column, whose {first} has a divider: --delimiter '{divider}' divides there"
            ),
            Fault::Table(it) => write!(f, "the table would be refused: {it}"),
            _ => Ok(()),
        }
    }
}

// By hand, in parts: one function for all messages is dear to prove.
impl fmt::Display for Fault {
    fn fmt<W: fmt::Write>(&self, f: &mut fmt::Formatter<W>) -> fmt::Result {
        match self {
            Fault::Ragged { .. }
            | Fault::Wide { .. }
            | Fault::ManyRows { .. }
            | Fault::Cell { .. }
            | Fault::Value { .. } => self.of_records(f),
            Fault::NoMemory
            | Fault::Blanks(_)
            | Fault::Longs(_)
            | Fault::Encodings(_)
            | Fault::Undivided { .. }
            | Fault::Table(_) => self.of_table(f),
            _ => self.of_asked(f),
        }
    }
}

impl std::error::Error for Fault {}

impl Fault {
    /// Whether memory was wanting.
    pub fn is_memory(&self) -> bool
        ensures { result ≡ is_memory self.now }
    {
        match self {
            Fault::NoMemory | Fault::Table(Refusal::NoMemory) => true,
            _ => false,
        }
    }
}

impl From<AllocError> for Fault {
    fn from(_error: AllocError) -> Fault {
        Fault::NoMemory
    }
}
