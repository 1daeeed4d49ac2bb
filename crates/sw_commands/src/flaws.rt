//! What is wrong with a log, by its file and line.

use std::alloc::{AllocError, Global};
use sw_logs::{Fault, Flaw};
use sw_rows::Refusal;

/// The field that a flaw is of, and what was wanted there.
fn wanted(flaw: Flaw) -> &'static str {
    match flaw {
        Flaw::Columns => "header: wanted the columns session, start, end, call, reply",
        Flaw::Fields => "record: wanted as many fields as the header has",
        Flaw::Encoding => "record: wanted UTF-8",
        Flaw::Session => "session: wanted a whole number from 1 to 1024",
        Flaw::Time => "start and end: wanted whole numbers from 0 to 18446744073709551615",
        Flaw::Ends => "end: wanted a time that is not before the start",
        Flaw::Empty => "call: wanted a call, and there is none",
    }
}

/// The bytes of a text from its first record on, as far as it was gone over.
#[derive(Clone, Copy)]
struct Walk {
    line: u64,
    record: u64,
    in_quotes: bool,
    in_record: bool,
}

impl Walk {
    /// Goes over a byte.
    fn over(self, byte: u8) -> Walk {
        let ends = byte == b'\n' && !self.in_quotes;
        Walk {
            line: self.line.saturating_add(u64::from(byte == b'\n')),
            record: self
                .record
                .saturating_add(u64::from(ends && self.in_record)),
            in_quotes: self.in_quotes ^ (byte == b'"'),
            in_record: !ends && (self.in_record || (byte != b'\n' && byte != b'\r')),
        }
    }
}

/// The line on which a record begins, from 1; the header is record 0.
fn line_of(bytes: &[u8], record: u64) -> u64 {
    let mut walk = Walk {
        line: 1,
        record: 0,
        in_quotes: false,
        in_record: false,
    };
    for byte in bytes {
        let before = walk;
        walk = walk.over(*byte);
        if before.record == record && walk.in_record && !before.in_record {
            return before.line;
        }
    }
    walk.line
}

/// What is told of a log that is refused: its file and line, the field, and what was wanted there.
pub fn told(alloc: Global, name: &str, bytes: &[u8], fault: &Fault) -> Result<String, AllocError> {
    match fault {
        Fault::NoMemory => String::from_str(alloc, "no memory"),
        Fault::Input { .. } => format!(in alloc; "{name}: cannot be read"),
        Fault::TooMany { limit } => format!(in alloc; "{name}: more than {limit} calls or bytes"),
        Fault::Record { record, flaw, .. } => {
            let line = line_of(bytes, *record);
            let wanted = wanted(*flaw);
            format!(in alloc; "{name} line {line}, {wanted}")
        }
        Fault::Call {
            record,
            refusal,
            ..
        } => called(alloc, name, line_of(bytes, *record), refusal),
    }
}

/// What is told of a line in the place of a call.
fn called(alloc: Global, name: &str, line: u64, refusal: &Refusal) -> Result<String, AllocError> {
    match refusal {
        Refusal::BadLine { why, .. } => {
            format!(in alloc;
                "{name} line {line}, call: wanted a call of a script, and it has none: {why}"
            )
        }
        Refusal::UnknownAttribute { name: attr } => {
            format!(in alloc;
                "{name} line {line}, call: wanted an attribute of the table, and {attr} is none"
            )
        }
        other => {
            format!(in alloc;
                "{name} line {line}, call: wanted a call that can be read: refused {other}"
            )
        }
    }
}
