//! What the columns of a table have.

ghost use Rattle.std.specs.Prelude.{◌≡◌, IfOk};

use crate::failure::Failure;
use crate::inputs::{Keeping, Kept, Place, is_read_once, open_table};
use crate::outflow::{Outflow, Reader};
use crate::shaping::flush;
use crate::wording::{Asking, Keeps, words};
use std::alloc::{AllocError, Global};
use std::hash::RandomState;
use std::io;
use std::io::{BufWriter, Write};
use std::random::RandomSource;
use std::rt::Files;
use std::thread::Threads;
use sw_describe::{Column, frequent};
use sw_outputs::{Described, write_description, write_json_description};
use sw_rows::{Counted, Kind, PackedRows, Refusal, Schema, Sink, TextKey, load_in_parts};

/// A description that is asked for.
#[derive(Clone, Copy)]
pub struct Description<'a> {
    /// Where the table is.
    pub table: Place<'a>,
    /// The header that stands in place of the table's first record, if one is given.
    pub header: Option<&'a str>,
    /// Whether it is written as JSON.
    pub is_json: bool,
    /// Whether all faults of a table that is refused are told, in place of the first.
    pub faults: bool,
}

/// What was read of a table.
type Loaded = (Schema, PackedRows);

/// What an attribute of a table has.
fn describe_one(
    alloc: Global,
    state: RandomState,
    table: &Loaded,
    attr: usize,
) -> Result<Described, AllocError> {
    let (schema, rows) = table;
    let mut cells = Vec::new(alloc);
    rows.append_column(attr, &mut cells)?;
    let has_texts = attr < schema.len() && schema.kind(attr) == Kind::Text;
    Ok(Described {
        column: Column::of(alloc, state, cells.as_slice())?,
        frequent: if has_texts {
            frequent(alloc, state, cells.as_slice())?
        } else {
            Vec::new(alloc)
        },
    })
}

/// What all attributes of a table have.
fn describe_all(
    alloc: Global,
    state: RandomState,
    table: &Loaded,
) -> Result<Vec<Described>, AllocError> {
    let mut columns = Vec::new(alloc);
    for attr in 0..table.0.len() {
        columns.push(describe_one(alloc, state, table, attr)?)?;
    }
    Ok(columns)
}

/// Writes what a table has.
fn write_to<W: Sink>(
    alloc: Global,
    is_json: bool,
    table: &Loaded,
    columns: &[Described],
    out: &mut W,
) -> Result<(), Refusal> {
    let (schema, rows) = table;
    if is_json {
        write_json_description(alloc, schema, rows.len(), columns, out)
    } else {
        write_description(alloc, schema, rows.len(), columns, out)
    }
}

/// Writes what a table has, all of it.
fn write_columns<W: Write + Drop>(
    alloc: Global,
    is_json: bool,
    table: &Loaded,
    columns: &[Described],
    out: W,
) -> Result<(), Refusal> {
    let Ok(buffer) = BufWriter::new(alloc, out) else {
        return Err(Refusal::NoMemory);
    };
    let mut out = Counted::new(buffer);
    match write_to(alloc, is_json, table, columns, &mut out) {
        Ok(()) => flush(&mut out),
        Err(refusal) => Err(refusal),
    }
}

/// Describes a table that was read.
fn describe<R: RandomSource + Print>(
    rt: &R,
    alloc: Global,
    is_json: bool,
    table: &Loaded,
    reader: &Reader,
) -> Result<u8, Refusal>
    ensures { IfOk result (λ status. status ≡ 0) }
{
    let Ok(state) = RandomState::new(rt) else {
        return Err(Refusal::Input);
    };
    let Ok(columns) = describe_all(alloc, state, table) else {
        return Err(Refusal::NoMemory);
    };
    let out = Outflow::new(io::writer(rt), reader);
    write_columns(alloc, is_json, table, columns.as_slice(), out)?;
    Ok(0)
}

/// What came of reading a table, and what was kept of it.
#[derive(Drop)]
struct Came {
    read: Result<Loaded, Refusal>,
    kept: Kept,
}

/// Reads the table of a place, under a header where one is given.
fn read_at<R: Files + RandomSource + Input + Threads + Sync>(
    rt: &R,
    alloc: Global,
    place: Place<'_>,
    header: Option<&str>,
) -> Came {
    let source = match open_table(rt, alloc, place, header) {
        Ok(source) => Counted::new(source),
        Err(refusal) => {
            return Came {
                read: Err(refusal),
                kept: Kept::Often,
            };
        }
    };
    let mut source = Keeping::new(source, Kept::new(alloc, is_read_once(rt, place)));
    let read = match TextKey::new(rt) {
        Ok(key) => match load_in_parts(rt, alloc, key, &mut source) {
            Ok(table) => Ok(table),
            Err(refusal) => Err(source.why(refusal)),
        },
        Err(refusal) => Err(refusal),
    };
    Came {
        read,
        kept: source.into_kept(),
    }
}

impl Description<'_> {
    /// What is asked by it.
    fn asking(&self) -> Asking<'_> {
        Asking {
            table: self.table,
            header: self.header,
            script: None,
            cuts: "",
            faults: self.faults,
        }
    }

    /// Describes a table that was read. The failure's words tell why that cannot be written.
    fn describe<R: RandomSource + Print>(
        &self,
        rt: &R,
        alloc: Global,
        table: &Loaded,
    ) -> Result<u8, Failure>
        ensures { IfOk result (λ status. status ≡ 0) }
    {
        let reader = Reader::new();
        match describe(rt, alloc, self.is_json, table, &reader) {
            Ok(status) => Ok(status),
            Err(refusal) => Err(Failure::of_output(alloc, &reader, refusal)),
        }
    }

    /// Reads the table and writes on standard output what its columns have; answers the exit status 0. Refused as `load`
    /// is, `Input` where the table cannot be opened or the system gives no random bytes, and `Output` where standard output
    /// fails. The failure's words tell what is wrong with the table, or why nothing can be written, where that can be found.
    pub fn make<R: Files + RandomSource + Print + Input + Threads + Sync>(
        &self,
        rt: &R,
        alloc: Global,
    ) -> Result<u8, Failure>
        ensures { IfOk result (λ status. status ≡ 0) }
    {
        let Came { read, kept } = read_at(rt, alloc, self.table, self.header);
        match read {
            Ok(table) => self.describe(rt, alloc, &table),
            Err(refusal) => {
                let kept = Keeps {
                    table: kept,
                    script: Kept::Often,
                };
                let words = words(rt, alloc, &self.asking(), &refusal, kept);
                Err(Failure { refusal, words })
            }
        }
    }
}
