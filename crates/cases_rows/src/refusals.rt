//! Printed refusals.

use crate::told::held;
use std::alloc::Global;
use sw_rows::{Name, Refusal, Why};
use test_words::{number, split};

/// The reason of a number, in the order in which they are declared.
fn why(place: u64) -> Why {
    match place {
        1 => Why::Encoding,
        2 => Why::Length,
        3 => Why::Word,
        4 => Why::End,
        5 => Why::Value,
        6 => Why::History,
        _ => Why::Cuts,
    }
}

/// A refusal of 7 to 14 with these values.
fn later(of: u64, a: u64, b: u64, c: u64) -> Refusal {
    match of {
        7 => Refusal::Short {
            used: a,
            want: b,
            capacity: c,
        },
        8 => Refusal::Contended { seen: a, found: b },
        9 => Refusal::SharesOut { made: a, given: b },
        10 => Refusal::HistoryFull { entries: a },
        11 => Refusal::NotLegal { index: a },
        12 => Refusal::Input,
        13 => Refusal::Output,
        _ => Refusal::Ahead { seen: a, told: b },
    }
}

/// A refusal of a number with these values.
fn of_number(of: u64, a: u64, b: u64, c: u64) -> Refusal {
    match of {
        1 => Refusal::NoMemory,
        2 => Refusal::BadTable { rec: a, field: b },
        3 => Refusal::BadLine {
            line: (a & 0xffff_ffff) as u32,
            why: why(b),
        },
        5 => Refusal::TooMany { limit: a },
        6 => Refusal::NoBlank {
            boxes: a,
            needed: b,
        },
        _ => later(of, a, b, c),
    }
}

/// A refusal by its number and its values, printed.
pub(crate) fn printed(alloc: Global, args: &str) -> Result<String, Refusal> {
    let (of, values) = split(args, ':');
    let (a, values) = split(values, ':');
    let (b, c) = split(values, ':');
    let refusal = of_number(number(of), number(a), number(b), number(c));
    held(format!(in alloc; "{refusal}"))
}

/// The refusal of an unknown name, printed.
pub(crate) fn unknown(alloc: Global, name: &str) -> Result<String, Refusal> {
    let name = held(Name::copied(alloc, name))?;
    held(format!(in alloc; "{}", Refusal::UnknownAttribute { name }))
}
