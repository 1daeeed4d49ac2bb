//! Sessions' logs are read.

ghost use Rattle.std.specs.Prelude.{◌≡◌, length, IfOk};
ghost use Rattle.sw_logs.specs.Orders.{AllFit};
ghost use Rattle.sw_logs.specs.Readings.{HasMore, KnowsMore};
ghost use Rattle.sw_spine.specs.History.{CallsBelow};

use crate::logged::{Logged, Origin};
use csv::{ByteRecord, Reader, ReaderBuilder};
use std::alloc::{AllocError, Global};
use std::fmt;
use sw_lang::parse_line;
use sw_rows::{Call, MOST_BYTES, Refusal, Schema, Source, read_all};
use sw_spine::{Lines, MOST_ENTRIES, MOST_SESSIONS};
use thiserror::Error;

/// What is wrong with a record of a log.
#[derive(Clone, Copy, Debug)]
pub enum Flaw {
    /// It is a header without one of the five columns.
    Columns,
    /// It has fewer fields than the header.
    Fields,
    /// A field is not UTF-8.
    Encoding,
    /// The session is no whole number from 1 to 1,024.
    Session,
    /// A time is no whole number.
    Time,
    /// It ends before it starts.
    Ends,
    /// The call is an empty line or a comment.
    Empty,
}

impl fmt::Display for Flaw {
    fn fmt<W: fmt::Write>(&self, f: &mut fmt::Formatter<W>) -> fmt::Result {
        f.write_str(match self {
            Flaw::Columns => "lacks one of the columns session, start, end, call, reply",
            Flaw::Fields => "has too few fields",
            Flaw::Encoding => "is not UTF-8",
            Flaw::Session => "has no session from 1 to 1024",
            Flaw::Time => "has a time that is no whole number",
            Flaw::Ends => "ends before it starts",
            Flaw::Empty => "has no call",
        })
    }
}

/// Why logs are refused. Logs count from 1, and the records of a log too; its header is record 0.
#[derive(Debug, Drop, Error)]
pub enum Fault {
    /// A growth was refused.
    #[error("no memory")]
    NoMemory,
    /// The source failed.
    #[error("log {log} cannot be read")]
    Input {
        log: u64,
    },
    /// There are more calls, or more bytes in a log, than this.
    #[error("more than {limit}")]
    TooMany {
        limit: u64,
    },
    /// A record is none.
    #[error("log {log} record {record} {flaw}")]
    Record {
        log: u64,
        record: u64,
        flaw: Flaw,
    },
    /// A record has a line in the place of a call that is refused.
    #[error("log {log} record {record} has no call: {refusal}")]
    Call {
        log: u64,
        record: u64,
        refusal: Refusal,
    },
}

/// Where the five columns stand.
#[derive(Clone, Copy)]
struct Columns {
    session: usize,
    start: usize,
    end: usize,
    call: usize,
    reply: usize,
}

/// Where a column stands in a header.
fn column(header: &ByteRecord, name: &[u8]) -> Option<usize> {
    for place in 0..header.len() {
        if let Some(field) = header.get(place) {
            if field == name {
                return Some(place);
            }
        }
    }
    None
}

fn columns_of(header: &ByteRecord) -> Option<Columns> {
    Some(Columns {
        session: column(header, b"session")?,
        start: column(header, b"start")?,
        end: column(header, b"end")?,
        call: column(header, b"call")?,
        reply: column(header, b"reply")?,
    })
}

/// The lines of a reply; None of an empty one.
fn lines_of(alloc: Global, text: &str) -> Result<Option<Lines>, AllocError> {
    if text.is_empty() {
        return Ok(None);
    }
    let mut items = Vec::new(alloc);
    for line in text.lines() {
        items.push(String::from_str(alloc, line)?)?;
    }
    Ok(Some(Lines::of(items)))
}

/// What a record says beside its call.
#[derive(Clone, Copy)]
struct Frame {
    session: u64,
    start: u64,
    end: u64,
}

fn text_at(row: &ByteRecord, place: usize) -> Result<&str, Flaw> {
    let Some(field) = row.get(place) else {
        return Err(Flaw::Fields);
    };
    match std::str::from_utf8(field) {
        Ok(text) => Ok(text),
        Err(_) => Err(Flaw::Encoding),
    }
}

fn number_at(row: &ByteRecord, place: usize, flaw: Flaw) -> Result<u64, Flaw> {
    match text_at(row, place)?.parse::<u64>() {
        Ok(number) => Ok(number),
        Err(_) => Err(flaw),
    }
}

fn frame_of(row: &ByteRecord, columns: &Columns) -> Result<Frame, Flaw> {
    let session = number_at(row, columns.session, Flaw::Session)?;
    if session == 0 || session > MOST_SESSIONS as u64 {
        return Err(Flaw::Session);
    }
    let start = number_at(row, columns.start, Flaw::Time)?;
    let end = number_at(row, columns.end, Flaw::Time)?;
    if end < start {
        return Err(Flaw::Ends);
    }
    Ok(Frame {
        session,
        start,
        end,
    })
}

/// The call of a line, whose texts become known.
#[tactic(auto, using(crate::proofs::ReadingLemmas::learned_more, crate::proofs::ReadingLemmas::same_more, sw_lang::proofs::Known::Knowing::learned_width, sw_spine::proofs::Histories::fits_below))]
fn call_of(alloc: Global, schema: &mut Schema, origin: Origin, text: &str) -> Result<Call, Fault>
    ensures width { length schema.new ≡ length schema.old }
    ensures learned { KnowsMore schema.old schema.new }
    ensures below { IfOk result (CallsBelow (length schema.new)) }
{
    let _count = schema.len();
    match parse_line(alloc, schema, 1, text) {
        Ok(Some(call)) => Ok(call),
        Ok(None) => Err(Fault::Record {
            log: origin.log,
            record: origin.record,
            flaw: Flaw::Empty,
        }),
        Err(Refusal::NoMemory) => Err(Fault::NoMemory),
        Err(refusal) => Err(Fault::Call {
            log: origin.log,
            record: origin.record,
            refusal,
        }),
    }
}

fn flawed(origin: Origin, flaw: Flaw) -> Fault {
    Fault::Record {
        log: origin.log,
        record: origin.record,
        flaw,
    }
}

/// The call of a record.
#[tactic(auto, using(crate::proofs::ReadingLemmas::same_more))]
fn logged_of(
    alloc: Global,
    schema: &mut Schema,
    columns: &Columns,
    origin: Origin,
    row: &ByteRecord,
) -> Result<Logged, Fault>
    ensures width { length schema.new ≡ length schema.old }
    ensures learned { KnowsMore schema.old schema.new }
    ensures below { IfOk result (λ c. CallsBelow (length schema.new) c.call) }
{
    let _count = schema.len();
    let frame = match frame_of(row, columns) {
        Ok(frame) => frame,
        Err(flaw) => return Err(flawed(origin, flaw)),
    };
    let reply = match text_at(row, columns.reply) {
        Ok(text) => lines_of(alloc, text),
        Err(flaw) => return Err(flawed(origin, flaw)),
    };
    let Ok(reply) = reply else {
        return Err(Fault::NoMemory);
    };
    let text = match text_at(row, columns.call) {
        Ok(text) => text,
        Err(flaw) => return Err(flawed(origin, flaw)),
    };
    let call = call_of(alloc, schema, origin, text)?;
    Ok(Logged {
        session: frame.session,
        start: frame.start,
        end: frame.end,
        call,
        reply,
        origin,
    })
}

/// The next record, and whether there was one.
fn next_record(rdr: &mut Reader<&[u8]>, row: &mut ByteRecord) -> Result<bool, Fault> {
    // Over memory, and with records of any length, only memory can fail.
    match rdr.read_byte_record(row) {
        Ok(found) => Ok(found),
        Err(_) => Err(Fault::NoMemory),
    }
}

/// Adds the calls of a log's records behind its header.
#[tactic(auto, using(crate::proofs::ReadingLemmas::same_more, crate::proofs::ReadingLemmas::none_more))]
fn add_records(
    alloc: Global,
    schema: &mut Schema,
    log: u64,
    rdr: &mut Reader<&[u8]>,
    calls: &mut Vec<Logged>,
) -> Result<(), Fault>
    requires { AllFit (length schema.old) calls.old.items }
    ensures width { length schema.new ≡ length schema.old }
    ensures learned { KnowsMore schema.old schema.new }
    ensures kept { HasMore calls.old.items calls.new.items }
    ensures fit { AllFit (length schema.new) calls.new.items }
{
    let _count = schema.len();
    let mut row = ByteRecord::new(alloc);
    if !next_record(rdr, &mut row)? {
        return Err(flawed(Origin { log, record: 0 }, Flaw::Columns));
    }
    let Some(columns) = columns_of(&row) else {
        return Err(flawed(Origin { log, record: 0 }, Flaw::Columns));
    };
    for record in 1..u64::MAX {
        if !next_record(rdr, &mut row)? {
            return Ok(());
        }
        if calls.len() >= MOST_ENTRIES {
            return Err(Fault::TooMany {
                limit: MOST_ENTRIES as u64,
            });
        }
        let call = logged_of(alloc, schema, &columns, Origin { log, record }, &row)?;
        if calls.push(call).is_err() {
            return Err(Fault::NoMemory);
        }
    }
    Ok(())
}

/// Reads a session's log, or that of several, and adds its calls to those of logs before, in the order of its records.
/// Texts of calls become known.
///
/// A log is a text of comma-separated values. Its header has the columns `session`, `start`, `end`, `call` and `reply`,
/// in any order; others are ignored. Refused with the log's number, as it is given, and the record where a record is
/// none; calls of the records before it stand then, and their texts are known. Answered or refused, the calls that were
/// there stand before the new ones, and of the attributes nothing has changed but that they know more texts.
#[tactic(auto, using(crate::proofs::ReadingLemmas::same_more, crate::proofs::ReadingLemmas::none_more))]
pub fn read_log<R: Source>(
    alloc: Global,
    schema: &mut Schema,
    log: u64,
    source: &mut R,
    calls: &mut Vec<Logged>,
) -> Result<(), Fault>
    requires { AllFit (length schema.old) calls.old.items }
    ensures width { length schema.new ≡ length schema.old }
    ensures learned { KnowsMore schema.old schema.new }
    ensures kept { HasMore calls.old.items calls.new.items }
    ensures fit { AllFit (length schema.new) calls.new.items }
{
    let _count = schema.len();
    let bytes = match read_all(alloc, source, MOST_BYTES) {
        Ok(bytes) => bytes,
        Err(Refusal::Input) => return Err(Fault::Input { log }),
        Err(Refusal::TooMany { limit }) => return Err(Fault::TooMany { limit }),
        Err(_) => return Err(Fault::NoMemory),
    };
    let mut rdr = ReaderBuilder::new()
        .has_headers(false)
        .flexible(true)
        .from_reader(alloc, bytes.as_slice());
    add_records(alloc, schema, log, &mut rdr, calls)
}
