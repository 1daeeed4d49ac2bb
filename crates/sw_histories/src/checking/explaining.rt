//! Why a history is not legal.

ghost use Rattle.std.specs.Prelude.{◌≡◌, ◌-◌, ◌<◌, ◌≤◌, length, map, string_bytes, IfOk, IsOkUnless};
ghost use Rattle.sw_lang.specs.Sinks.{Writes};
ghost use Rattle.sw_spine.specs.Checks.{IsExpectedAt};
ghost use Rattle.sw_histories.specs.Explained.{Explains, ExplainsFile, JudgesExplained, ShowsParting, ShowsPartingOf, entry_line, line_at, said};

use crate::checking::{write_illegal, write_legal};
use crate::reading::read_record;
use crate::writing::call_string;
use std::alloc::{AllocError, Global};
use sw_lang::write_all;
use sw_rows::{Refusal, Reply, Schema, Sink, TextKey};
use sw_spine::{KeptEntry, Lines, Record, StateRef};

/// How many entries are named that changed rows, at most.
const MOST_CHANGES: usize = 3;

/// The entry at a place, from 1: its session and its call.
fn entry_line(
    alloc: Global,
    schema: &Schema,
    place: u64,
    entry: &KeptEntry,
) -> Result<String, AllocError>
    ensures { IfOk result (λ text. string_bytes text ≡ entry_line schema.now place entry.now) }
{
    let call = call_string(alloc, schema, entry.call())?;
    format!(in alloc;
        "entry {place}, session {}: {}\n",
        entry.session(),
        call.as_str()
    )
}

/// The line at a place, from 0, of a reply, or that it has none there.
fn line_at(alloc: Global, lines: &[String], place: usize) -> Result<String, AllocError>
    ensures { IfOk result (λ text. string_bytes text ≡ line_at place (map (λ t. string_bytes t) lines.now)) }
{
    let number = place as u128 + 1;
    match lines.get(place) {
        Some(line) => { format!(in alloc; "line {number} of {}: {}\n", lines.len(), line.as_str()) }
        None => format!(in alloc; "no line {number}\n"),
    }
}

/// Two replies where they part: a line of each.
fn parting(alloc: Global, given: &Lines, listed: &Lines) -> Result<String, AllocError>
    ensures { IfOk result (λ text. ShowsParting given.now listed.now (string_bytes text)) }
{
    let place = given.part_at(listed);
    let ours = line_at(alloc, given.as_slice(), place)?;
    let theirs = line_at(alloc, listed.as_slice(), place)?;
    format!(in alloc; "given, {}the list's, {}", ours.as_str(), theirs.as_str())
}

/// The reply that an entry keeps and the list's, where they part.
fn parting_of(
    alloc: Global,
    schema: &Schema,
    entry: &KeptEntry,
    listed: &Lines,
) -> Result<String, AllocError>
    ensures { IfOk result (λ text. ShowsPartingOf schema.now entry.now listed.now (string_bytes text)) }
{
    match entry.state() {
        StateRef::Answered(reply) => {
            let lines = Lines::of_reply(alloc, schema, entry.call(), reply)?;
            parting(alloc, &lines, listed)
        }
        StateRef::Lines(lines) => parting(alloc, lines, listed),
        StateRef::Open | StateRef::Void => parting(alloc, &Lines::of(Vec::new(alloc)), listed),
    }
}

/// The last of some places, as many as are shown at most.
fn last_of(places: &[usize]) -> &[usize] {
    &places[places.len().saturating_sub(MOST_CHANGES)..]
}

/// The entries at some places, from 0, as those that changed rows last.
fn changes_text(alloc: Global, history: &Record, places: &[usize]) -> Result<String, AllocError> {
    let mut text = String::new(alloc);
    if !places.is_empty() {
        text.push_str("its rows were changed last by\n")?;
    }
    for place in places {
        if let Some(entry) = history.entries.get(*place) {
            let number = (*place as u64).saturating_add(1);
            text.push_str("  ")?;
            text.push_str(entry_line(alloc, &history.schema, number, entry)?.as_str())?;
        }
    }
    Ok(text)
}

/// The entry at a place, from 1, its reply and the list's where they part, and which entries changed rows last.
fn explanation_text(
    alloc: Global,
    history: &Record,
    place: u64,
    listed: &Reply,
    changes: &[usize],
) -> Result<String, AllocError>
    requires some { 0 < place }
    requires within { place ≤ length history.now.entries }
    requires listed { IsExpectedAt history.now (place - 1) listed.now }
    ensures { IfOk result (λ text. Explains history.now place (string_bytes text)) }
{
    let schema = &history.schema;
    let entry = &history.entries[(place - 1) as usize];
    let lines = Lines::of_reply(alloc, schema, entry.call(), listed)?;
    let named = entry_line(alloc, schema, place, entry)?;
    let parted = parting_of(alloc, schema, entry, &lines)?;
    let more = changes_text(alloc, history, changes)?;
    format!(in alloc; "{}{}{}", named.as_str(), parted.as_str(), more.as_str())
}

/// Why the entry at a place, from 1, does not agree: the entry, its reply and the list's where they part, and which
/// entries changed rows last that it asks for. The one refusal is `NoMemory`.
fn explanation(alloc: Global, history: &Record, place: u64) -> Result<String, Refusal>
    requires some { 0 < place }
    requires within { place ≤ length history.now.entries }
    ensures told { IfOk result (λ text. Explains history.now place (string_bytes text)) }
    ensures refused { IsOkUnless result Refusal.NoMemory }
{
    let index = (place - 1) as usize;
    let listed = history.expected_at(index)?;
    let changes = history.changes_before(index)?;
    match explanation_text(alloc, history, place, &listed, last_of(changes.as_slice())) {
        Ok(text) => Ok(text),
        Err(_) => Err(Refusal::NoMemory),
    }
}

/// Writes that an entry does not agree, and why.
fn write_explained<W: Sink>(place: u64, why: &[u8], out: &mut W) -> Result<(), Refusal>
    ensures { Writes (W.taken out.old) (W.taken out.new) (W.failed out.old) (W.failed out.new) result (said place why.now) }
{
    write_illegal(place, out)?;
    write_all(out, why)
}

/// Writes the verdict on a record with its explanation, and answers its status.
fn judge_explained<W: Sink>(alloc: Global, history: &Record, out: &mut W) -> Result<u8, Refusal>
    ensures { JudgesExplained history.now (W.taken out.old) (W.taken out.new) (W.failed out.old) (W.failed out.new) result }
{
    match history.check() {
        Ok(()) => match write_legal(history.entries.len(), out) {
            Ok(()) => Ok(0),
            Err(e) => Err(e),
        },
        Err(Refusal::NotLegal { index }) => {
            let why = explanation(alloc, history, index)?;
            match write_explained(index, why.as_bytes(), out) {
                Ok(()) => Ok(1),
                Err(e) => Err(e),
            }
        }
        Err(_) => Err(Refusal::NoMemory),
    }
}

/// Checks the bytes of a history file as `check_file` does, and where the history is not legal writes more lines: the
/// entry, its reply and the list's at the first line where they part, and which entries changed rows last that it asks for.
///
/// Refused as `check_file` is, `NoMemory` also where there is none for the lines; then nothing was written.
pub fn explain_file<W: Sink>(
    alloc: Global,
    key: TextKey,
    bytes: &[u8],
    out: &mut W,
) -> Result<u8, Refusal>
    ensures { ExplainsFile bytes.now (W.taken out.old) (W.taken out.new) (W.failed out.old) (W.failed out.new) result }
{
    match read_record(alloc, key, bytes) {
        Ok(history) => judge_explained(alloc, &history, out),
        Err(e) => Err(e),
    }
}
