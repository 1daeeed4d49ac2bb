//! What trials tell of records, calls and counts.

use crate::playing::Played;
use std::alloc::{AllocError, Global};
use std::sync::Wait;
use std::sync::atomic::Ordering;
use sw_cli::{check_file, write_record};
use sw_rows::{Call, Counted, Refusal, Reply, ReplyRows, TextKey};
use sw_spine::{Record, StateRef};
use test_maps::Counts;

/// What a trial is made with, threads and memory, and the text in which it tells what came of it.
#[derive(Drop)]
pub(crate) struct Telling<'t, R: Wait> {
    pub rt: &'t R,
    pub alloc: Global,
    pub text: &'t mut String,
}

/// What was made, or the refusal that there is no memory.
pub(crate) fn held<T, E: Drop>(made: Result<T, E>) -> Result<T, Refusal> {
    match made {
        Ok(value) => Ok(value),
        Err(_) => Err(Refusal::NoMemory),
    }
}

/// Shows a row of a reply.
fn show_row(text: &mut String, key: u64, cells: &[i64]) -> Result<(), AllocError> {
    write!(text, "{key}:")?;
    for cell in cells {
        write!(text, " {cell}")?;
    }
    text.push_str(", ")
}

/// Shows a reply of rows.
fn show_rows(text: &mut String, rows: &ReplyRows) -> Result<(), AllocError> {
    let mut left = rows.left();
    while let Some((key, cells)) = left.next() {
        show_row(text, key, cells)?;
    }
    write!(text, "{} rows", rows.len())
}

/// Shows a reply.
pub(crate) fn show(text: &mut String, reply: &Reply) -> Result<(), AllocError> {
    match reply {
        Reply::Rows(rows) => show_rows(text, rows),
        Reply::Count(n) => write!(text, "{n}"),
        Reply::Sum(sum) => write!(text, "{sum}"),
        Reply::Least(Some(cell)) => write!(text, "{cell}"),
        Reply::Inserted(key) => write!(text, "key {key}"),
        Reply::Least(None) => text.push_str("none"),
        Reply::Full => text.push_str("full"),
        Reply::Removed => text.push_str("removed"),
        Reply::NoSuchKey => text.push_str("no such key"),
        Reply::RemovedMany(n) => write!(text, "({n} removed)"),
    }
}

/// Tells the replies to a session, in the record's order.
fn tell_session(text: &mut String, record: &Record, session: u64) -> Result<(), AllocError> {
    for entry in record.entries.as_slice() {
        if entry.session() == session {
            if let StateRef::Answered(reply) = entry.state() {
                text.push_str("; ")?;
                show(text, reply)?;
            }
        }
    }
    Ok(())
}

/// Tells the replies to the first two sessions.
pub(crate) fn tell_replies(text: &mut String, record: &Record) -> Result<(), AllocError> {
    tell_session(text, record, 1)?;
    tell_session(text, record, 2)
}

/// Tells what the check of a record's file writes.
pub(crate) fn tell_file(alloc: Global, text: &mut String, record: &Record) -> Result<(), Refusal> {
    let mut file = Counted::new(Vec::new(alloc));
    write_record(alloc, record, &mut file)?;
    let mut line = Counted::new(Vec::new(alloc));
    let _status = check_file(alloc, TextKey::fixed(), file.inner.as_slice(), &mut line)?;
    let told = held(String::from_utf8_lossy(alloc, line.inner.as_slice()))?;
    held(write!(text, "; {}", told.trim_end()))
}

/// Tells how often maps were begun, stepped and asked.
pub(crate) fn tell_counts(text: &mut String, counts: &Counts) -> Result<(), AllocError> {
    let begins = counts.begins.load(Ordering::SeqCst);
    let steps = counts.steps.load(Ordering::SeqCst);
    let tails = counts.tails.load(Ordering::SeqCst);
    write!(text, "; {begins} begun, {steps} steps, {tails} asked")
}

/// Whether two calls are the same, by what is shown of them.
fn is_same_call(alloc: Global, one: &Call, other: &Call) -> Result<bool, AllocError> {
    let shown = format!(in alloc; "{one:?}")?;
    let second = format!(in alloc; "{other:?}")?;
    Ok(shown.as_str() == second.as_str())
}

/// Whether a session's entries that are not void are these calls, in order.
fn are_made(
    alloc: Global,
    record: &Record,
    session: u64,
    calls: &[Call],
) -> Result<bool, AllocError> {
    let mut rest = calls;
    for entry in record.entries.as_slice() {
        if entry.session() == session && !matches!(entry.state(), StateRef::Void) {
            let Some((call, later)) = rest.split_first() else {
                return Ok(false);
            };
            if !is_same_call(alloc, entry.call(), call)? {
                return Ok(false);
            }
            rest = later;
        }
    }
    Ok(rest.is_empty())
}

/// Whether the entries of each session that are not void are the calls of its block.
fn are_all_made(alloc: Global, record: &Record, blocks: &[Vec<Call>]) -> Result<bool, AllocError> {
    let mut all = true;
    let mut session = 1u64;
    for block in blocks {
        all = are_made(alloc, record, session, block.as_slice())? && all;
        session = session.wrapping_add(1);
    }
    Ok(all)
}

/// How many entries of a record are void.
fn voided(record: &Record) -> usize {
    let mut many = 0usize;
    for entry in record.entries.as_slice() {
        if let StateRef::Void = entry.state() {
            many = many.wrapping_add(1);
        }
    }
    many
}

/// Tells that a record is legal, or that it is not; or that not all was answered in time, that more entries are void than calls were
/// refused, or that the others are not the calls of the blocks.
pub(crate) fn tell_right(
    alloc: Global,
    text: &mut String,
    played: &Played,
    blocks: &[Vec<Call>],
) -> Result<(), AllocError> {
    let Played { record, tally, .. } = played;
    let all = are_all_made(alloc, record, blocks)?;
    text.push_str(if record.check().is_err() {
        "not legal"
    } else if !tally.answered {
        "late or unanswered"
    } else if voided(record) > tally.refused {
        "too many void entries"
    } else if !all {
        "other calls"
    } else {
        "legal"
    })
}
