//! Why a call is refused.

ghost use Rattle.std.specs.Prelude.{◌≡◌, Some};
ghost use Rattle.sw_query.specs.Refusals.{why_name};

use crate::name::Name;
use std::fmt;
use thiserror::Error;

/// What is wrong with a line of a script, an entry of a history, or the cuts.
#[derive(Clone, Copy, Debug, PartialEq, Eq)]
pub enum Why {
    /// The line is not UTF-8.
    Encoding,
    /// The line is longer than 4,096 bytes.
    Length,
    /// A token stands where the grammar has another one or none.
    Word,
    /// The line ends where the grammar wants more.
    End,
    /// A word stands where a value or a key is wanted, and is none.
    Value,
    /// The text is no history, or an entry of it is none.
    History,
    /// The text is no list of cuts.
    Cuts,
}

impl Why {
    /// The name of the reason, as it is printed.
    fn name(self) -> &'static str
        ensures { result.now ≡ why_name self }
    {
        match self {
            Why::Encoding => "Encoding",
            Why::Length => "Length",
            Why::Word => "Word",
            Why::End => "End",
            Why::Value => "Value",
            Why::History => "History",
            Why::Cuts => "Cuts",
        }
    }
}

impl fmt::Display for Why {
    ghost output = { λ w. Some (why_name w) };

    fn fmt<W: fmt::Write>(&self, f: &mut fmt::Formatter<W>) -> fmt::Result {
        f.write_str(self.name())
    }
}

/// Why a call was refused, with the values that show it. Each has a number, with which its text begins.
#[derive(Debug, Drop, Error)]
pub enum Refusal {
    /// A growth was refused.
    #[error("1")]
    NoMemory,
    /// A field of a table is none. The header is record 0, rows count from 1, fields from 1; field 0 where there is no
    /// header.
    #[error("2 record {rec} field {field}")]
    BadTable { rec: u64, field: u64 },
    /// A line of a script is no call. Lines count from 1; line 0 is a text that has no lines.
    #[error("3 line {line} why {why}")]
    BadLine { line: u32, why: Why },
    /// A well-formed name is no attribute of the table.
    #[error("4 name {name}")]
    UnknownAttribute { name: Name },
    /// There is more of something than its greatest number.
    #[error("5 limit {limit}")]
    TooMany { limit: u64 },
    /// An area has fewer boxes than a query needs maps.
    #[error("6 boxes {boxes} needed {needed}")]
    NoBlank { boxes: u64, needed: u64 },
    /// The cells used and those wanted exceed the capacity.
    #[error("7 used {used} want {want} capacity {capacity}")]
    Short { used: u64, want: u64, capacity: u64 },
    /// The budget's word changed between a look and an exchange.
    #[error("8 seen {seen} found {found}")]
    Contended { seen: u64, found: u64 },
    /// Fewer or more shares are given than sessions were made.
    #[error("9 made {made} given {given}")]
    SharesOut { made: u64, given: u64 },
    /// The history has its greatest length.
    #[error("10 entries {entries}")]
    HistoryFull { entries: u64 },
    /// The first entry, from 1, whose reply is not that of one thread over a plain list of rows.
    #[error("11 index {index}")]
    NotLegal { index: u64 },
    /// The source failed.
    #[error("12")]
    Input,
    /// The sink failed.
    #[error("13")]
    Output,
    /// A viewer has seen more updates than are published.
    #[error("14 seen {seen} told {told}")]
    Ahead { seen: u64, told: u64 },
}
