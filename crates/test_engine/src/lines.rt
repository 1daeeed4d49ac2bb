//! Lines of refusals: how they are written, and whether one went out.

use std::alloc::{AllocError, Global};
use sw_cli::{Noting, status, write_fault};
use sw_rows::{Counted, Name, Refusal, Sink, Why};
use test_words::unescaped;

/// Refusals by their place, from 0.
const REFUSALS: [Refusal; 19] = [
    Refusal::NoMemory,
    Refusal::BadTable { rec: 2, field: 3 },
    Refusal::BadLine {
        line: 4,
        why: Why::Encoding,
    },
    Refusal::BadLine {
        line: 4,
        why: Why::Length,
    },
    Refusal::BadLine {
        line: 4,
        why: Why::Word,
    },
    Refusal::BadLine {
        line: 4,
        why: Why::End,
    },
    Refusal::BadLine {
        line: 4,
        why: Why::Value,
    },
    Refusal::BadLine {
        line: 4,
        why: Why::History,
    },
    Refusal::BadLine {
        line: 4,
        why: Why::Cuts,
    },
    Refusal::TooMany { limit: 8 },
    Refusal::NoBlank {
        boxes: 1,
        needed: 2,
    },
    Refusal::Short {
        used: 128,
        want: 64,
        capacity: 128,
    },
    Refusal::Contended {
        seen: 64,
        found: 128,
    },
    Refusal::SharesOut { made: 2, given: 1 },
    Refusal::HistoryFull { entries: 1_048_576 },
    Refusal::NotLegal { index: 1 },
    Refusal::Input,
    Refusal::Output,
    Refusal::Ahead { seen: 5, told: 4 },
];

/// Tells the line of a refusal as it is written, the status, and whether its `Display` says the same.
fn tell_line(alloc: Global, refusal: &Refusal, text: &mut String) -> Result<(), AllocError> {
    let mut out = Counted::new(Vec::new(alloc));
    let _ = write_fault(refusal, &mut out);
    let line = String::from_utf8_lossy(alloc, out.inner.as_slice())?;
    let displayed = format!(in alloc; "sideways: refused {refusal}\n")?;
    let is_same = displayed.as_str() == line.as_str();
    write!(
        text,
        "{line}status {}, displayed alike {is_same}",
        status(refusal)
    )
}

/// Tells the line of the refusal of a place; of another word that of an attribute with that name.
pub(crate) fn fault(alloc: Global, word: &str, text: &mut String) -> Result<(), AllocError> {
    match word.parse::<usize>() {
        Ok(place) if place < 19 => tell_line(alloc, &REFUSALS[place], text),
        _ => {
            let name = Name::copied(alloc, word)?;
            tell_line(alloc, &Refusal::UnknownAttribute { name }, text)
        }
    }
}

/// Tells whether the line of a refused call went out, where bytes are written in pieces that are divided by |.
pub(crate) fn noting(alloc: Global, pieces: &str, text: &mut String) -> Result<(), AllocError> {
    let bytes = unescaped(alloc, pieces)?;
    let mut noting = Noting::new(Counted::new(Vec::new(alloc)));
    for piece in bytes.as_slice().split(|byte: &u8| *byte == b'|') {
        let _ = noting.write_some(piece);
    }
    write!(text, "{}", noting.has_refused())
}
