//! What is told where no order was found goes out as lines.

ghost use Rattle.std.specs.Prelude.{IsOkUnless};

use crate::telling::{Reached, Tried};
use sw_lang::{write_all, write_number};
use sw_logs::{Logged, Origin};
use sw_rows::{Refusal, Sink};

/// The name of a log, by its number from 1.
fn name_of<'a>(names: &[&'a str], log: u64) -> &'a str {
    match names.get((log as usize).saturating_sub(1)) {
        Some(name) => *name,
        None => "log",
    }
}

/// A text between two others.
fn write_between<W: Sink>(before: &str, text: &str, after: &str, out: &mut W) -> Result<(), Refusal>
    ensures { IsOkUnless result Refusal.Output }
{
    write_all(out, before.as_bytes())?;
    write_all(out, text.as_bytes())?;
    write_all(out, after.as_bytes())
}

/// A number behind a text.
fn write_counted<W: Sink>(before: &str, number: u64, out: &mut W) -> Result<(), Refusal>
    ensures { IsOkUnless result Refusal.Output }
{
    write_all(out, before.as_bytes())?;
    write_number(number, out)
}

/// Writes where a call was read.
///
/// Refused `Output` where the sink fails; then a beginning went out.
pub fn write_origin<W: Sink>(names: &[&str], origin: Origin, out: &mut W) -> Result<(), Refusal>
    ensures { IsOkUnless result Refusal.Output }
{
    write_all(out, name_of(names, origin.log).as_bytes())?;
    write_counted(" record ", origin.record, out)
}

/// Where a call was read, its session and its times, and the call.
fn write_call_line<W: Sink>(
    names: &[&str],
    logged: &Logged,
    call: &str,
    out: &mut W,
) -> Result<(), Refusal>
    ensures { IsOkUnless result Refusal.Output }
{
    write_origin(names, logged.origin, out)?;
    write_counted(", session ", logged.session, out)?;
    write_counted(", from ", logged.start, out)?;
    write_counted(" to ", logged.end, out)?;
    write_between(": ", call, "\n", out)
}

/// How many lines two texts have in common before one that differs.
fn common(one: &[String], other: &[String]) -> usize {
    let mut count = 0usize;
    for line in one {
        match other.get(count) {
            Some(second) if second.as_str() == line.as_str() => count = count.saturating_add(1),
            _ => return count,
        }
    }
    count
}

/// The line of a text at a place, and how many lines there are if there are several.
fn write_line_at<W: Sink>(
    before: &str,
    lines: &[String],
    place: usize,
    out: &mut W,
) -> Result<(), Refusal>
    ensures { IsOkUnless result Refusal.Output }
{
    match lines.get(place) {
        Some(line) => write_between(before, line.as_str(), "", out)?,
        None => write_between(before, "no more lines", "", out)?,
    }
    if lines.len() > 1 {
        write_counted(" (line ", (place as u64).saturating_add(1), out)?;
        write_counted(" of ", lines.len() as u64, out)?;
        write_all(out, b")")?;
    }
    write_all(out, b"\n")
}

/// What a call was given and the list gives it, by its first line.
fn write_same<W: Sink>(indent: &str, lines: &[String], out: &mut W) -> Result<(), Refusal>
    ensures { IsOkUnless result Refusal.Output }
{
    write_all(out, indent.as_bytes())?;
    write_line_at("given, as the list gives: ", lines, 0, out)
}

/// What a call was given, and what the list gives it, by the first line that differs.
fn write_replies<W: Sink>(
    indent: &str,
    logged: &Logged,
    expected: &[String],
    out: &mut W,
) -> Result<(), Refusal>
    ensures { IsOkUnless result Refusal.Output }
{
    let Some(given) = &logged.reply else {
        write_all(out, indent.as_bytes())?;
        return write_all(out, b"outcome unknown\n");
    };
    let given = given.as_slice();
    let place = common(given, expected);
    if place == given.len() && place == expected.len() {
        return write_same(indent, given, out);
    }
    write_all(out, indent.as_bytes())?;
    write_line_at("given: ", given, place, out)?;
    write_all(out, indent.as_bytes())?;
    write_line_at("the list gives: ", expected, place, out)
}

/// A call that was tried.
fn write_tried<W: Sink>(
    names: &[&str],
    calls: &[Logged],
    tried: &Tried,
    indent: &str,
    out: &mut W,
) -> Result<(), Refusal>
    ensures { IsOkUnless result Refusal.Output }
{
    match calls.get(tried.number) {
        Some(logged) => {
            write_call_line(names, logged, tried.call.as_str(), out)?;
            write_replies(indent, logged, tried.expected.as_slice(), out)
        }
        None => Ok(()),
    }
}

/// The other calls that might have come next.
fn write_others<W: Sink>(
    names: &[&str],
    calls: &[Logged],
    others: &[Tried],
    out: &mut W,
) -> Result<(), Refusal>
    ensures { IsOkUnless result Refusal.Output }
{
    if !others.is_empty() {
        write_all(out, b"calls that might come before it:\n")?;
    }
    for tried in others {
        write_all(out, b"  ")?;
        write_tried(names, calls, tried, "    ", out)?;
    }
    Ok(())
}

/// The last calls that changed rows of the call that was to come next.
fn write_changes<W: Sink>(
    names: &[&str],
    calls: &[Logged],
    changes: &[(usize, String)],
    out: &mut W,
) -> Result<(), Refusal>
    ensures { IsOkUnless result Refusal.Output }
{
    if !changes.is_empty() {
        write_all(out, b"the last changes of its rows, the latest first:\n")?;
    }
    for (number, call) in changes {
        if let Some(logged) = calls.get(*number) {
            write_all(out, b"  ")?;
            write_call_line(names, logged, call.as_str(), out)?;
        }
    }
    Ok(())
}

/// How many calls were placed.
fn write_counts<W: Sink>(calls: &[Logged], reached: &Reached, out: &mut W) -> Result<(), Refusal>
    ensures { IsOkUnless result Refusal.Output }
{
    write_counted(": ", reached.placed as u64, out)?;
    write_counted(" of ", calls.len() as u64, out)?;
    write_all(out, b" calls were placed at best\n")
}

/// Writes how far a search came, with the call that had to come next and could not: a beginning for its first line, and
/// then what is told, with the logs' names.
///
/// Refused `Output` where the sink fails; then a beginning of the lines went out.
pub fn write_reached<W: Sink>(
    beginning: &str,
    names: &[&str],
    calls: &[Logged],
    reached: &Reached,
    out: &mut W,
) -> Result<(), Refusal>
    ensures { IsOkUnless result Refusal.Output }
{
    write_all(out, beginning.as_bytes())?;
    write_counts(calls, reached, out)?;
    if let Some(due) = &reached.due {
        write_all(out, b"the next is ")?;
        write_tried(names, calls, due, "  ", out)?;
    }
    write_others(names, calls, reached.others.as_slice(), out)?;
    write_changes(names, calls, reached.changes.as_slice(), out)
}
