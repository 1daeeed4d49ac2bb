//! The table goes out, record by record.

ghost use Rattle.std.specs.Prelude.{[], ◌≡◌, ◌∷◌, ◌++◌, ◌≤◌, IfOk, OnOk, is_some};
ghost use Rattle.csv.specs.Records.{fields_of, partial_of};
ghost use Rattle.sw_import.specs.Imports.{header_of, left_out_of, most_rows};
ghost use Rattle.sw_import.specs.Records.{IsOpen, records_left};
ghost use Rattle.sw_import.specs.Taken.{IsBegun, MakesRow, TakesIn, TakesRest, TellsOneMore};

use crate::columns::field;
use crate::evidence::Tally;
use crate::faults::{Fault, shown};
use crate::making::{Made, make};
use crate::pages::Pages;
use crate::planning::Planned;
use crate::records::{Records, line_of};
use crate::rules::Rules;
use csv::ByteRecord;
use itoa::{Buffer, Integer};
use std::alloc::{AllocError, Global};
use sw_rows::MOST_ROWS;

/// What was done to the cells of a column.
#[derive(Clone, Copy)]
pub struct Done {
    /// The cells without a value in whose place another was written.
    pub filled: Tally,
    /// The other cells of which another text was written than theirs.
    pub changed: Tally,
    /// The cells for which their rows were left out.
    pub left_out: Tally,
}

impl Done {
    /// Nothing.
    pub(crate) fn new() -> Done
        ensures { result.left_out.count ≡ 0 }
    {
        Done {
            filled: Tally::new(),
            changed: Tally::new(),
            left_out: Tally::new(),
        }
    }

    /// Takes in a cell of which another text was written than its own.
    fn add(&mut self, is_filled: bool, line: u64)
        ensures { self.new.left_out ≡ self.old.left_out }
    {
        if is_filled {
            self.filled.add(line);
        } else {
            self.changed.add(line);
        }
    }
}

/// What rows are made by: the values, of which lines are told, the rules and the columns.
#[derive(Clone, Copy)]
pub(crate) struct Maker<'a> {
    /// Where memory comes from.
    pub(crate) alloc: Global,
    /// The text of the values.
    pub(crate) text: &'a [u8],
    /// The rules.
    pub(crate) rules: &'a Rules<'a>,
    /// The columns.
    pub(crate) plan: &'a [Planned],
}

/// A table that is being written.
#[derive(Drop)]
pub(crate) struct Table {
    /// Its text.
    pub(crate) pages: Pages,
    /// How many rows it has.
    pub(crate) rows: u64,
    /// What was done to the cells of each column.
    pub(crate) done: Vec<Done>,
}

/// Adds a number to a row, as a field.
pub(crate) fn push_number<N: Integer>(number: N, row: &mut ByteRecord) -> Result<(), AllocError>
    requires { partial_of row.old ≡ [] }
    ensures field { OnOk result (fields_of row.new ≡ fields_of row.old ++ N.text number ∷ []) }
    ensures partial { OnOk result (partial_of row.new ≡ []) }
{
    let mut buffer = Buffer::new();
    row.push_field(buffer.format(number).as_bytes())
}

/// Takes in that a row is left out for a cell of the column at a place.
#[tactic(auto, using(crate::proofs::TakenLemmas::tells_none))]
fn note_left_out(done: &mut [Done], place: usize, line: u64)
    ensures { TellsOneMore place done.old done.new }
{
    if place < done.len() {
        done[place].left_out.add(line);
    }
}

/// Takes in what was written of a cell of the column at a place.
#[tactic(auto, using(crate::proofs::TakenLemmas::tells_same))]
fn note_cell(done: &mut [Done], place: usize, is_filled: bool, line: u64)
    ensures { left_out_of done.new ≡ left_out_of done.old }
{
    if place < done.len() {
        done[place].add(is_filled, line);
    }
}

/// Takes in what was written of the record of a line.
fn note_record(maker: &Maker<'_>, row: &ByteRecord, line: u64, made: &ByteRecord, done: &mut [Done])
    ensures { left_out_of done.new ≡ left_out_of done.old }
{
    for place in 0..maker.plan.len() {
        let planned = &maker.plan[place];
        if planned.keeps_cells() {
            continue;
        }
        let cell = field(row, planned.column.place);
        if field(made, place) != cell {
            let is_filled = maker.rules.filling(planned.form, cell).is_some();
            note_cell(done, place, is_filled, line);
        }
    }
}

/// That a cell is none of what its column is taken for.
fn no_cell(
    maker: &Maker<'_>,
    planned: &Planned,
    cell: &[u8],
    line: u64,
) -> Result<Fault, AllocError> {
    let alloc = maker.alloc;
    let at = planned.column.at(alloc)?;
    let kind = planned.form.told();
    Ok(match maker.rules.filling(planned.form, cell) {
        Some(value) => Fault::Value {
            value: shown(alloc, value)?,
            at,
            kind,
        },
        None => Fault::Cell {
            line,
            at,
            cell: shown(alloc, cell)?,
            kind,
        },
    })
}

/// Makes the record that is written of one that was read, in a line. Where it is left out, answers for the column at which
/// place.
fn make_record(
    maker: &Maker<'_>,
    row: &ByteRecord,
    line: u64,
    made: &mut ByteRecord,
) -> Result<Option<usize>, Fault>
    ensures { IfOk result (λ left_out. MakesRow maker.now (fields_of row.now) left_out (fields_of made.new)) }
{
    made.clear();
    let rules = maker.rules;
    let plan = maker.plan;
    for place in 0..plan.len() {
        let planned = &plan[place];
        let cell = field(row, planned.column.place);
        let written = make(rules, planned.form, &planned.dictionary, cell);
        match written {
            Made::Bytes(bytes) => made.push_field(bytes)?,
            Made::Number(number) => push_number(number, made)?,
            Made::Code(number) => push_number(number, made)?,
            Made::LeftOut => return Ok(Some(place)),
            Made::Refused => return Err(no_cell(maker, planned, cell, line)?),
        }
    }
    Ok(None)
}

/// The header of a table: of each column its name and its kind.
fn header(alloc: Global, plan: &[Planned]) -> Result<ByteRecord, AllocError>
    ensures { IfOk result (λ header. fields_of header ≡ header_of plan.now) }
{
    let mut header = ByteRecord::new(alloc);
    for planned in plan {
        let name = planned.column.name.as_str();
        let kind = planned.form.word();
        let text = format!(in alloc; "{name}:{kind}")?;
        header.push_field(text.as_bytes())?;
    }
    Ok(header)
}

/// How many rows may be written: so many, or a table's most, of which a further one is a fault.
#[derive(Clone, Copy)]
pub(crate) struct Most {
    /// So many.
    pub(crate) rows: u64,
    /// Whether further rows are left.
    pub(crate) is_sample: bool,
}

impl Most {
    /// A sample of so many rows, or all rows of a table.
    pub(crate) fn of(sample: Option<u64>) -> Most
        ensures rows { result.rows ≡ most_rows sample }
        ensures sample { result.is_sample ≡ is_some sample }
    {
        match sample {
            Some(rows) => Most {
                rows: rows.min(MOST_ROWS),
                is_sample: true,
            },
            None => Most {
                rows: MOST_ROWS,
                is_sample: false,
            },
        }
    }
}

impl Table {
    /// A table of its header alone.
    pub(crate) fn new(alloc: Global, plan: &[Planned]) -> Result<Table, AllocError>
        ensures { IfOk result (IsBegun plan.now) }
    {
        let mut pages = Pages::new(alloc);
        pages.add(&header(alloc, plan)?)?;
        Ok(Table {
            pages,
            rows: 0,
            done: vec![in alloc; Done::new(); plan.len()]?,
        })
    }

    /// Takes a record in: the row that it makes is written, or it is left out.
    fn take(
        &mut self,
        maker: &Maker<'_>,
        most: u64,
        row: &ByteRecord,
        made: &mut ByteRecord,
    ) -> Result<(), Fault>
        requires { self.old.rows ≤ most }
        ensures taken { OnOk result (TakesIn maker.now (fields_of row.now ∷ []) self.old self.new) }
        ensures few { OnOk result (self.new.rows ≤ most) }
    {
        let line = line_of(maker.text, row);
        if let Some(place) = make_record(maker, row, line, made)? {
            note_left_out(self.done.as_mut_slice(), place, line);
            return Ok(());
        }
        if self.rows >= most {
            return Err(Fault::ManyRows { line });
        }
        self.pages.add(made)?;
        note_record(maker, row, line, made, self.done.as_mut_slice());
        self.rows += 1;
        Ok(())
    }

    /// Takes the records in that a reader of a text has left, or as many as a sample wants.
    pub(crate) fn take_all(
        &mut self,
        maker: &Maker<'_>,
        most: Most,
        records: &mut Records<'_>,
    ) -> Result<(), Fault>
        requires plain { IsOpen records.old.rdr }
        requires few { self.old.rows ≤ most.rows }
        ensures { OnOk result (TakesRest maker.now most (records_left records.old.rdr) self.old self.new) }
    {
        let mut made = ByteRecord::new(maker.alloc);
        'rows: for _ in 0..u64::MAX {
            if most.is_sample && self.rows >= most.rows {
                return Ok(());
            }
            if !records.next()? {
                return Ok(());
            }
            self.take(maker, most.rows, &records.row, &mut made)?;
        }
        // No memory holds so many records.
        Err(Fault::NoMemory)
    }
}
