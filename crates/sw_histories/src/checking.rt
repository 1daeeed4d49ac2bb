//! The check of a history file.

ghost use Rattle.sw_lang.specs.Sinks.{Writes};
ghost use Rattle.sw_histories.specs.FileChecks.{ChecksFile, Judges, count_line, illegal_line, legal_line, place_line};

pub(crate) mod explaining;

use crate::reading::read_record;
use std::alloc::Global;
use sw_lang::{write_all, write_number};
use sw_rows::{Refusal, Sink, TextKey};
use sw_spine::Record;

fn write_count<W: Sink>(count: usize, out: &mut W) -> Result<(), Refusal>
    ensures { Writes (W.taken out.old) (W.taken out.new) (W.failed out.old) (W.failed out.new) result (count_line count) }
{
    write_number(count, out)?;
    write_all(out, b" entries\n")
}

pub(crate) fn write_legal<W: Sink>(count: usize, out: &mut W) -> Result<(), Refusal>
    ensures { Writes (W.taken out.old) (W.taken out.new) (W.failed out.old) (W.failed out.new) result (legal_line count) }
{
    write_all(out, b"legal: ")?;
    write_count(count, out)
}

fn write_place<W: Sink>(place: u64, out: &mut W) -> Result<(), Refusal>
    ensures { Writes (W.taken out.old) (W.taken out.new) (W.failed out.old) (W.failed out.new) result (place_line place) }
{
    write_number(place, out)?;
    write_all(out, b"\n")
}

pub(crate) fn write_illegal<W: Sink>(place: u64, out: &mut W) -> Result<(), Refusal>
    ensures { Writes (W.taken out.old) (W.taken out.new) (W.failed out.old) (W.failed out.new) result (illegal_line place) }
{
    write_all(out, b"not legal: entry ")?;
    write_place(place, out)
}

/// Writes the verdict on a record and answers its status.
fn judge<W: Sink>(history: &Record, out: &mut W) -> Result<u8, Refusal>
    ensures { Judges history.now (W.taken out.old) (W.taken out.new) (W.failed out.old) (W.failed out.new) result }
{
    match history.check() {
        Ok(()) => match write_legal(history.entries.len(), out) {
            Ok(()) => Ok(0),
            Err(e) => Err(e),
        },
        Err(Refusal::NotLegal { index }) => match write_illegal(index, out) {
            Ok(()) => Ok(1),
            Err(e) => Err(e),
        },
        Err(_) => Err(Refusal::NoMemory),
    }
}

/// Checks the bytes of a history file and writes the verdict as a line: `legal: N entries`, answered 0, or
/// `not legal: entry I`, answered 1, for the first entry, from 1, that is not.
///
/// Refused as `read_record` is where the bytes are no history, and then nothing was written; `Output` where the sink
/// fails, and then a beginning of the line was; `NoMemory` otherwise.
pub fn check_file<W: Sink>(
    alloc: Global,
    key: TextKey,
    bytes: &[u8],
    out: &mut W,
) -> Result<u8, Refusal>
    ensures { ChecksFile bytes.now (W.taken out.old) (W.taken out.new) (W.failed out.old) (W.failed out.new) result }
{
    match read_record(alloc, key, bytes) {
        Ok(history) => judge(&history, out),
        Err(e) => Err(e),
    }
}
