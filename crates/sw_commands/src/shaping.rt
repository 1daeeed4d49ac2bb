//! The replies of a run in another form than lines: from its record, when all calls were made.

use crate::inputs::{Kept, Script};
use std::alloc::{AllocError, Global};
use std::io::{BufWriter, Write};
use sw_faults::call_lines;
use sw_outputs::{Told, makes_table, write_csv, write_json, write_table};
use sw_rows::{Counted, Refusal, Reply, Schema, Sink, Why};
use sw_spine::{KeptEntry, Record, StateRef};

/// The form in which replies go out.
#[derive(Clone, Copy, PartialEq, Eq)]
pub enum Form {
    /// Lines, as a history has them.
    Lines,
    /// Comma-separated values, a header before them.
    Csv,
    /// A line of JSON each.
    Json,
    /// The last reply alone, as a table.
    Table,
}

impl Form {
    /// The form of a name.
    pub fn named(name: &str) -> Option<Form> {
        match name {
            "lines" => Some(Form::Lines),
            "csv" => Some(Form::Csv),
            "json" => Some(Form::Json),
            "table" => Some(Form::Table),
            _ => None,
        }
    }
}

/// Where a call stands among the entries of a record, behind the number of its block.
type Place = (u64, usize);

/// The places of all entries, block after block.
fn places(alloc: Global, entries: &[KeptEntry]) -> Result<Vec<Place>, AllocError> {
    let mut places = Vec::with_capacity(alloc, entries.len())?;
    for place in 0..entries.len() {
        if place < entries.len() {
            places.push((entries[place].session(), place))?;
        }
    }
    places.sort()?;
    Ok(places)
}

/// The bytes of a script, where they are at hand.
pub fn script_bytes<'k>(script: Script<'k>, kept: &'k Kept) -> Option<&'k [u8]> {
    match (script, kept) {
        (Script::Given(lines), _) => Some(lines),
        (_, Kept::Once(Some(bytes))) => Some(bytes.as_slice()),
        _ => None,
    }
}

/// The lines of all calls of a script, where there are as many as entries.
fn lines(
    alloc: Global,
    script: Option<&[u8]>,
    entries: usize,
) -> Result<Option<Vec<u32>>, AllocError> {
    let Some(script) = script else {
        return Ok(None);
    };
    let lines = call_lines(alloc, script)?;
    if lines.len() == entries {
        Ok(Some(lines))
    } else {
        Ok(None)
    }
}

/// What an entry was answered; none where its call was refused.
fn reply_of(entry: &KeptEntry) -> Option<&Reply> {
    match entry.state() {
        StateRef::Answered(reply) => Some(reply),
        StateRef::Lines(_) | StateRef::Open | StateRef::Void => None,
    }
}

/// The calls of a record, block after block, each with its line, where lines are known.
struct Calls<'r> {
    schema: &'r Schema,
    entries: &'r [KeptEntry],
    places: Vec<Place>,
    lines: Option<Vec<u32>>,
}

// By hand, as with `Keeping`.
impl Drop for Calls<'_> {
    fn drop(self) {
        let Self {
            schema: _,
            entries: _,
            places: _places,
            lines: _lines,
        } = self;
    }
}

impl Calls<'_> {
    /// What came of the call of a number, from 0.
    fn told(&self, number: usize) -> Option<Told<'_>> {
        let (block, place) = *self.places.get(number)?;
        let entry = self.entries.get(place)?;
        let line = match &self.lines {
            Some(lines) => lines.get(number).copied(),
            None => None,
        };
        Some(Told {
            number: (number as u64).saturating_add(1),
            block,
            line,
            call: entry.call(),
            reply: reply_of(entry),
        })
    }
}

/// Writes what came of a call in a form of its own for each.
fn write_one<W: Sink>(
    alloc: Global,
    form: Form,
    schema: &Schema,
    told: &Told<'_>,
    out: &mut W,
) -> Result<(), Refusal> {
    match form {
        Form::Json => write_json(alloc, schema, told, out),
        Form::Csv => write_csv(alloc, schema, told, out),
        Form::Lines | Form::Table => Ok(()),
    }
}

/// The last line of a script that is a call, 1 where none is.
fn last_line(calls: &Calls<'_>) -> u32 {
    match &calls.lines {
        Some(lines) => match lines.last() {
            Some(line) => *line,
            None => 1,
        },
        None => 1,
    }
}

/// Writes the last reply as a table. Refused `BadLine` of the last call where that makes none.
fn write_last<W: Sink>(alloc: Global, calls: &Calls<'_>, out: &mut W) -> Result<(), Refusal> {
    let line = last_line(calls);
    let told = match calls.places.len().checked_sub(1) {
        Some(last) => calls.told(last),
        None => None,
    };
    match told {
        Some(told) if !makes_table(told.call) => Err(Refusal::BadLine {
            line,
            why: Why::Word,
        }),
        Some(told) if told.reply.is_none() => Err(Refusal::NoMemory),
        Some(told) => write_table(alloc, calls.schema, &told, out),
        None => Err(Refusal::BadLine {
            line,
            why: Why::End,
        }),
    }
}

/// Writes what came of all calls.
fn write_all_told<W: Sink>(
    alloc: Global,
    form: Form,
    calls: &Calls<'_>,
    out: &mut W,
) -> Result<(), Refusal> {
    if form == Form::Table {
        return write_last(alloc, calls, out);
    }
    for number in 0..calls.places.len() {
        if let Some(told) = calls.told(number) {
            write_one(alloc, form, calls.schema, &told, out)?;
        }
    }
    Ok(())
}

/// The calls of a record, with their lines.
fn calls_of<'r>(
    alloc: Global,
    record: &'r Record,
    script: Option<&[u8]>,
) -> Result<Calls<'r>, AllocError> {
    let entries = record.entries.as_slice();
    Ok(Calls {
        schema: &record.schema,
        entries,
        places: places(alloc, entries)?,
        lines: lines(alloc, script, entries.len())?,
    })
}

/// Writes what is left of a buffer.
pub fn flush<W: Write + Drop>(out: &mut Counted<BufWriter<W>>) -> Result<(), Refusal> {
    match out.inner.flush() {
        Ok(()) => Ok(()),
        Err(_) => Err(Refusal::Output),
    }
}

/// Writes the replies of a run in a form; nothing where they went out as lines.
///
/// Refused `Output` where the output fails, `NoMemory`, and `BadLine` of the last call where a table is asked of which
/// that makes none; then nothing was written.
pub fn shape<W: Write + Drop>(
    alloc: Global,
    form: Form,
    record: &Record,
    script: Option<&[u8]>,
    out: W,
) -> Result<(), Refusal> {
    if form == Form::Lines {
        return Ok(());
    }
    let Ok(calls) = calls_of(alloc, record, script) else {
        return Err(Refusal::NoMemory);
    };
    let Ok(buffer) = BufWriter::new(alloc, out) else {
        return Err(Refusal::NoMemory);
    };
    let mut out = Counted::new(buffer);
    match write_all_told(alloc, form, &calls, &mut out) {
        Ok(()) => flush(&mut out),
        Err(refusal) => Err(refusal),
    }
}
