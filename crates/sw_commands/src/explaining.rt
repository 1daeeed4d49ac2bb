//! What each refusal means, and what to do about it.

ghost use Rattle.std.specs.Prelude.{◌≡◌, IfOk};

use crate::failure::Failure;
use crate::outflow::{Outflow, Reader};
use crate::shaping::flush;
use std::alloc::Global;
use std::io;
use std::io::{BufWriter, Write};
use sw_lang::write_all;
use sw_rows::{Counted, Refusal, Sink};

/// How many refusals there are. They are numbered from 1.
const REFUSALS: u64 = 14;

/// What the refusal of a number means and what to do about it, in lines; none where no refusal has the number.
fn explanation(number: u64) -> Option<&'static str> {
    match number {
        1 => Some(NO_MEMORY),
        2 => Some(BAD_TABLE),
        3 => Some(BAD_LINE),
        4 => Some(UNKNOWN_ATTRIBUTE),
        5 => Some(TOO_MANY),
        6 => Some(NO_BLANK),
        7 => Some(SHORT),
        8 => Some(CONTENDED),
        9 => Some(SHARES_OUT),
        10 => Some(HISTORY_FULL),
        11 => Some(NOT_LEGAL),
        12 => Some(INPUT),
        13 => Some(OUTPUT),
        14 => Some(AHEAD),
        _ => None,
    }
}

const NO_MEMORY: &str = "\
refused 1: memory was wanted and the system gave none.
  As a reply line: that call changed no row, and the calls after it are made. As the fault of a run:
  nothing was answered, or, where replies stand before it, the history was not written.
  What to do: give the program more memory (see ulimit -v, or the container's limit), ask for fewer rows at a time, or
  leave the maps a smaller --budget. The exit status is 3.
";

const BAD_TABLE: &str = "\
refused 2 record R field F: a field of the table cannot be read.
  Records are counted from 0, which is the header; fields from 1. Field 0 of record 0: the table is empty. In the header a
  name is not one, stands twice, or has an unknown kind after its colon. In a row the field is missing, is one too many, or
  is no cell of its attribute's kind: int, fix1 to fix6, flag (true, false), or text (at most 64 bytes of UTF-8, no control
  bytes). A name without a kind is an int: write city:text in the header where texts stand.
  What to do: mend that field, or let sideways import make the table of the file; run --all-faults lists every bad one. A
  record may go over several lines of the file, where a quoted field has line ends in it.
";

const BAD_LINE: &str = "\
refused 3 line L why W: a line of the script is no call. Lines are counted from 1.
  Encoding: it is not UTF-8. Length: it is longer than 4096 bytes. Word: a word stands where another one is wanted, or one
  too many; texts are compared by = alone, and not summed. End: the line ends too early. Value: a value or a key is wanted,
  and the word is none of that kind; a text stands in quotes, 'it''s', and nothing else does.
  Cuts, with line 0: the text of --cuts is not name=value;name=value with rising values, or cuts an attribute of texts.
  History: the file that was to be checked is no history, or that entry is none in the file's format; 0 is the whole text.
  What to do: mend the line. Calls look like this:
    select a, b where a >= 5 and b < 7    count    sum b where a = 5    min b    max b    insert 5, 7, 1    delete 3
    delete where b < 7    count where city = 'Oslo'    insert 'it''s', 4
";

const UNKNOWN_ATTRIBUTE: &str = "\
refused 4 name N: the table has no attribute of this name.
  What to do: look at the first record of the table; great and small letters are told apart.
";

const TOO_MANY: &str = "\
refused 5 limit L: there is more of something than L, the most that is taken.
  268435456: bytes of the table or of the script. 8: attributes of a table. 1024: blocks of a script. 15: cuts of an
  attribute. 1048576: rows of the table, calls of the script, different texts of both, or entries of a history. Another
  number: rows of the table, by --limit.
  What to do: take less of it, or give a greater --limit where that was it; sideways import --columns chooses columns.
";

const NO_BLANK: &str = "\
refused 6 boxes B needed N: a query needs more maps than there are boxes for.
  A run does not end with it: such a query scans, and its reply is the same. A caller of the crates sees it.
  What to do: give more --maps; --stats shows how often was scanned.
";

const SHORT: &str = "\
refused 7 used U want W capacity C: the budget has no room for the cells of a map.
  A run does not end with it: such a query scans, and its reply is the same. A caller of the crates sees it.
  What to do: give a greater --budget; --stats shows how often was scanned.
";

const CONTENDED: &str = "\
refused 8 seen S found F: another thread took or gave cells of the budget at the same moment.
  A run does not end with it: such a query scans, and its reply is the same. A caller of the crates sees it.
  What to do: nothing; the next query tries again.
";

const SHARES_OUT: &str = "\
refused 9 made M given G: an engine was to be closed with G tickets, while M sessions were made.
  The program does not come to it. A caller of the crates gets the engine and the tickets back.
  What to do: end each session, and close with the ticket of each.
";

const HISTORY_FULL: &str = "\
refused 10 entries E: the history has E entries, the most that it takes, and the call was not made.
  What to do: give the calls to several runs.
";

const NOT_LEGAL: &str = "\
refused 11 index I: entry I of a history, from 1, is not what one thread would be replied over a plain list of rows.
  The program tells it as the verdict of check, with the status 1. A caller of the crates sees it as a refusal.
  What to do: look at that entry; all before it are as they should be.
";

const INPUT: &str = "\
refused 12: a file could not be opened or read, a word of the command line is not UTF-8, or the system gave no random bytes.
  What to do: look at the path and at whether the file may be read. The exit status is 2.
";

const OUTPUT: &str = "\
refused 13: the replies, the history or the verdict could not be written.
  What to do: look at whether the disk is full, the path and its folder may be written, and the reader of a pipe is still
  there. What went to standard output before is a beginning; a history file is as it was. The exit status is 3.
";

const AHEAD: &str = "\
refused 14 seen S told T: a viewer has seen more updates than those published.
  The program has no viewers. A caller of the crates may meet it later again; nothing has changed.
";

/// Writes what the refusal of a number means, or of all numbers in their order where none is given.
///
/// Refused `Output` where the sink fails; then a beginning went out. A number that no refusal has writes nothing.
fn write_explanations<W: Sink>(only: Option<u64>, out: &mut W) -> Result<(), Refusal> {
    let (first, last) = match only {
        Some(number) => (number, number),
        None => (1, REFUSALS),
    };
    for number in first..=last {
        if let Some(text) = explanation(number) {
            write_all(out, text.as_bytes())?;
        }
    }
    Ok(())
}

/// Writes what the refusal of a number means, or of all numbers, all of it.
fn write_all_of<W: Write + Drop>(alloc: Global, only: Option<u64>, out: W) -> Result<(), Refusal> {
    let Ok(buffer) = BufWriter::new(alloc, out) else {
        return Err(Refusal::NoMemory);
    };
    let mut out = Counted::new(buffer);
    match write_explanations(only, &mut out) {
        Ok(()) => flush(&mut out),
        Err(refusal) => Err(refusal),
    }
}

/// Writes on standard output what the refusal of a number means, or of all numbers where none is given, and answers the
/// exit status 0. Refused `Output` where it cannot be written, of which the failure's words tell why, and `NoMemory`.
pub fn explain<R: Print>(rt: &R, alloc: Global, only: Option<u64>) -> Result<u8, Failure>
    ensures { IfOk result (λ status. status ≡ 0) }
{
    let reader = Reader::new();
    match write_all_of(alloc, only, Outflow::new(io::writer(rt), &reader)) {
        Ok(()) => Ok(0),
        Err(refusal) => Err(Failure::of_output(alloc, &reader, refusal)),
    }
}
