//! A table is made of values.

ghost use Rattle.std.specs.Prelude.{◌≡◌, ◌<◌, ◌^◌, true, length, vec_len, IfOk, IfSome, OnOk};
ghost use Rattle.csv.specs.Records.{fields_of};
ghost use Rattle.sw_import.specs.Imports.{IsImportOf, IsTable};
ghost use Rattle.sw_import.specs.Records.{IsOpen, are_even, records_left, takes_fields, width_of};
ghost use Rattle.sw_import.specs.Taken.{IsTableOfFew, rows_of};

use crate::columns::{Asked, Column, columns_of, field};
use crate::evidence::Evidence;
use crate::faults::{At, Fault, shown_heading};
use crate::forms::Form;
use crate::planning::{Planned, plan, see_plan};
use crate::records::{Records, line_of};
use crate::rules::Rules;
use crate::telling::{divider_in, first_field};
use crate::writing::{Done, Maker, Most, Table};
use csv::ByteRecord;
use std::alloc::{AllocError, Global};
use std::thread::Threads;
use sw_rows::{Counted, TextKey, load, load_in_parts};

/// How values are made into a table.
#[derive(Clone, Copy)]
pub struct How<'a> {
    /// Which columns are written, and what is asked of them.
    pub asked: Asked<'a>,
    /// What becomes of cells that stand for no value of their column.
    pub rules: Rules<'a>,
    /// The byte that divides the values of a record.
    pub delimiter: u8,
    /// Whether the first record has the headings of the columns.
    pub has_header: bool,
    /// Whether fields that a record lacks at its end are cells without a value.
    pub fills_short: bool,
    /// How many rows are written, where it is not all.
    pub sample: Option<u64>,
}

/// A table that was made, and what was done for it.
pub struct Imported {
    /// The bytes of the table.
    pub bytes: Vec<u8>,
    /// What became of each column.
    pub plan: Vec<Planned>,
    /// What was done to the cells of each column.
    pub done: Vec<Done>,
    /// How many rows were read.
    pub read: u64,
    /// How many rows were written.
    pub written: u64,
    /// The columns that were not written.
    pub others: Vec<At>,
    /// Whether the columns have headings of their own.
    pub has_header: bool,
    /// The byte that may divide the values, which have one column, as the command line takes it.
    pub divider: Option<&'static str>,
}

// By hand: the drop of a derived one is written out at each way out of a function.
impl Drop for Imported {
    fn drop(self) {
        let Self {
            bytes: _bytes,
            plan: _plan,
            done: _done,
            read: _,
            written: _,
            others: _others,
            has_header: _,
            divider: _,
        } = self;
    }
}

/// The values of a text, and how many each record has.
#[derive(Clone, Copy)]
struct Values<'a> {
    text: &'a [u8],
    delimiter: u8,
    has_header: bool,
    fills_short: bool,
    width: usize,
}

impl<'a> Values<'a> {
    /// The rows, of which none was read.
    #[tactic(auto, using(crate::proofs::RecordLemmas::no_records))]
    fn rows(self, alloc: Global) -> Result<Records<'a>, AllocError>
        ensures plain { IfOk result (λ records. IsOpen records.rdr) }
        ensures all { IfOk result (λ records. records_left records.rdr ≡ rows_of self.entry) }
    {
        let mut records = Records::of(alloc, self.delimiter, self.text);
        if self.has_header && !records.next()? {
            return Ok(Records::of(alloc, self.delimiter, &[]));
        }
        Ok(records)
    }

    /// Whether a record of so many fields is one of these.
    fn takes(self, fields: usize) -> bool
        ensures { result ≡ takes_fields self.entry.fills_short self.entry.width fields }
    {
        fields == self.width || (fields < self.width && self.fills_short)
    }

    /// Why a record of a line with so many fields is none of these.
    fn refused(self, line: u64, fields: usize) -> Fault {
        let found = fields as u64;
        let wanted = self.width as u64;
        let first = if self.has_header {
            "the header"
        } else {
            "the first record"
        };
        if found < wanted {
            Fault::Ragged {
                line,
                found,
                wanted,
                first,
            }
        } else {
            Fault::Wide {
                line,
                found,
                wanted,
                first,
            }
        }
    }
}

/// The headings of columns that have none: `column_1` and so on.
fn headings(alloc: Global, count: usize) -> Result<ByteRecord, AllocError>
    ensures { IfOk result (λ header. length (fields_of header) ≡ count) }
{
    let mut header = ByteRecord::new(alloc);
    for place in 0..count {
        let number = (place as u64).saturating_add(1);
        let heading = format!(in alloc; "column_{number}")?;
        header.push_field(heading.as_bytes())?;
    }
    Ok(header)
}

/// The first record of a text, if there is one.
fn first_of(alloc: Global, delimiter: u8, text: &[u8]) -> Result<Option<ByteRecord>, AllocError>
    ensures { IfOk result (λ found. IfSome found (λ first. length (fields_of first) ≡ width_of delimiter text.now)) }
{
    let mut records = Records::of(alloc, delimiter, text);
    if records.next()? {
        Ok(Some(records.into_row()))
    } else {
        Ok(None)
    }
}

/// The byte that may divide the values of a text, where its first record is one field with such a byte.
fn divider_of(
    alloc: Global,
    how: &How<'_>,
    text: &[u8],
) -> Result<Option<&'static str>, AllocError> {
    match first_of(alloc, how.delimiter, text)? {
        Some(first) if first.len() == 1 => Ok(divider_in(field(&first, 0))),
        _ => Ok(None),
    }
}

/// The record of the headings of a text.
fn header_of(alloc: Global, how: &How<'_>, text: &[u8]) -> Result<ByteRecord, Fault>
    ensures { IfOk result (λ header. length (fields_of header) ≡ width_of how.now.delimiter text.now) }
{
    match first_of(alloc, how.delimiter, text)? {
        Some(first) if how.has_header => Ok(first),
        Some(first) => Ok(headings(alloc, first.len())?),
        None if how.has_header => Err(Fault::NoHeader),
        None => Err(Fault::NoRecord),
    }
}

/// Takes the cells of the record of a line in.
fn see_record(
    rules: &Rules<'_>,
    columns: &[Column],
    row: &ByteRecord,
    line: u64,
    seen: &mut [Evidence],
)
    requires { length seen.old ≡ length columns.now }
{
    for place in 0..columns.len() {
        seen[place].add(rules, field(row, columns[place].place), line);
    }
}

/// Looks at all rows: how many there are, and what their cells are.
fn survey(
    alloc: Global,
    values: Values<'_>,
    rules: &Rules<'_>,
    columns: &[Column],
    seen: &mut [Evidence],
) -> Result<u64, Fault>
    requires { length seen.old ≡ length columns.now }
    ensures count { IfOk result (λ read. read ≡ length (rows_of values.entry)) }
    ensures few { OnOk result (length (rows_of values.entry) < 2 ^ 64) }
    ensures even { OnOk result (are_even values.entry.fills_short values.entry.width (rows_of values.entry) ≡ true) }
{
    let mut records = values.rows(alloc)?;
    'rows: for count in 0..u64::MAX {
        if !records.next()? {
            return Ok(count);
        }
        let row = &records.row;
        let line = line_of(values.text, row);
        if !values.takes(row.len()) {
            return Err(values.refused(line, row.len()));
        }
        see_record(rules, columns, row, line, seen);
    }
    // No memory holds so many records.
    Err(Fault::NoMemory)
}

/// What was seen of so many columns before any cell.
fn nothing_seen(alloc: Global, count: usize) -> Result<Vec<Evidence>, AllocError>
    ensures { IfOk result (λ seen. vec_len seen ≡ count) }
{
    vec![in alloc; Evidence::new(); count]
}

/// Adds the texts of a record for which numbers are written.
fn learn_record(plan: &mut [Planned], row: &ByteRecord) -> Result<(), AllocError> {
    for planned in plan {
        if planned.form == Form::Code {
            let cell = field(row, planned.column.place);
            if let Ok(text) = str::from_utf8(cell) {
                planned.dictionary.add(text)?;
            }
        }
    }
    Ok(())
}

/// Adds the texts of the records that are left for which numbers are written.
fn learn_all(records: &mut Records<'_>, plan: &mut [Planned]) -> Result<(), AllocError>
    requires { IsOpen records.old.rdr }
{
    'rows: for _ in 0..u64::MAX {
        if !records.next()? {
            break;
        }
        learn_record(plan, &records.row)?;
    }
    Ok(())
}

/// Gathers the texts for which numbers are written, where there are such.
fn learn(alloc: Global, values: Values<'_>, plan: &mut [Planned]) -> Result<(), AllocError> {
    if !plan.iter().any(|planned| planned.form == Form::Code) {
        return Ok(());
    }
    learn_all(&mut values.rows(alloc)?, plan)
}

/// The columns of a header that are not written.
fn others(alloc: Global, header: &ByteRecord, plan: &[Planned]) -> Result<Vec<At>, AllocError> {
    let mut others = Vec::new(alloc);
    for place in 0..header.len() {
        if plan.iter().any(|planned| planned.column.place == place) {
            continue;
        }
        let heading = String::from_utf8_lossy(alloc, field(header, place))?;
        let at = At {
            number: (place as u64).saturating_add(1),
            heading: shown_heading(alloc, heading.as_str())?,
        };
        others.push(at)?;
    }
    Ok(others)
}

/// Writes the table of a plan.
fn write_table(
    alloc: Global,
    values: Values<'_>,
    how: &How<'_>,
    plan: &[Planned],
) -> Result<Table, Fault>
    ensures { IfOk result (IsTableOfFew how.now plan.now (rows_of values.entry)) }
{
    let mut records = values.rows(alloc)?;
    let mut table = Table::new(alloc, plan)?;
    let maker = Maker {
        alloc,
        text: values.text,
        rules: &how.rules,
        plan,
    };
    table.take_all(&maker, Most::of(how.sample), &mut records)?;
    Ok(table)
}

/// Refuses bytes that are no table.
fn see_table(alloc: Global, key: TextKey, bytes: &[u8]) -> Result<(), Fault>
    ensures { OnOk result (IsTable bytes.now) }
{
    match load(alloc, key, &mut Counted::new(bytes)) {
        Ok(_) => Ok(()),
        Err(refusal) => Err(Fault::Table(refusal)),
    }
}

/// Refuses bytes that are no table; many are read in parts, each by a thread of its own.
fn see_table_in_parts<R: Threads + Sync>(
    rt: &R,
    alloc: Global,
    key: TextKey,
    bytes: &[u8],
) -> Result<(), Fault>
    ensures { OnOk result (IsTable bytes.now) }
{
    match load_in_parts(rt, alloc, key, &mut Counted::new(bytes)) {
        Ok(_) => Ok(()),
        Err(refusal) => Err(Fault::Table(refusal)),
    }
}

/// What becomes of the columns of a header, by what is asked of them and by all rows; and how many rows there are.
fn plan_by_rows(
    alloc: Global,
    key: TextKey,
    how: &How<'_>,
    values: Values<'_>,
    header: &ByteRecord,
) -> Result<(Vec<Planned>, u64), Fault>
    ensures count { IfOk result (λ planned. planned.1 ≡ length (rows_of values.entry)) }
    ensures few { OnOk result (length (rows_of values.entry) < 2 ^ 64) }
    ensures even { OnOk result (are_even values.entry.fills_short values.entry.width (rows_of values.entry) ≡ true) }
{
    let rules = &how.rules;
    let columns = columns_of(alloc, header, &how.asked)?;
    let mut seen = nothing_seen(alloc, columns.len())?;
    let read = survey(
        alloc,
        values,
        rules,
        columns.as_slice(),
        seen.as_mut_slice(),
    )?;
    Ok((plan(alloc, key, rules, columns, seen.as_slice())?, read))
}

/// Makes the bytes of a table of the values of a text, of which this is the record of the headings, and says what was done for it.
fn make_under(
    alloc: Global,
    key: TextKey,
    how: &How<'_>,
    text: &[u8],
    header: &ByteRecord,
) -> Result<Imported, Fault>
    requires { length (fields_of header.now) ≡ width_of how.now.delimiter text.now }
    ensures { IfOk result (IsImportOf how.now text.now) }
{
    let values = Values {
        text,
        delimiter: how.delimiter,
        has_header: how.has_header,
        fills_short: how.fills_short,
        width: header.len(),
    };
    let (mut plan, read) = plan_by_rows(alloc, key, how, values, header)?;
    see_plan(alloc, &how.rules, plan.as_slice())?;
    learn(alloc, values, plan.as_mut_slice())?;
    let table = write_table(alloc, values, how, plan.as_slice())?;
    let others = others(alloc, header, plan.as_slice())?;
    let divider = divider_of(alloc, how, text)?;
    let Table { pages, rows, done } = table;
    Ok(Imported {
        bytes: pages.into_bytes()?,
        plan,
        done,
        read,
        written: rows,
        others,
        has_header: how.has_header,
        divider,
    })
}

/// What is wrong with values, told with the byte that may divide them.
fn undivided(alloc: Global, how: &How<'_>, fault: &Fault, divider: &'static str) -> Fault {
    match format!(in alloc; "{fault}") {
        Ok(why) => Fault::Undivided {
            why,
            first: first_field(how.has_header),
            divider,
        },
        Err(_) => Fault::NoMemory,
    }
}

/// What is told in place of what is wrong with values, where a byte may divide them.
fn with_divider(alloc: Global, how: &How<'_>, text: &[u8], fault: &Fault) -> Option<Fault> {
    if fault.is_memory() {
        return None;
    }
    match divider_of(alloc, how, text) {
        Ok(Some(divider)) => Some(undivided(alloc, how, fault, divider)),
        Ok(None) => None,
        Err(_) => Some(Fault::NoMemory),
    }
}

/// Makes the bytes of a table of the values of a text, and says what was done for it.
fn make(alloc: Global, key: TextKey, how: &How<'_>, text: &[u8]) -> Result<Imported, Fault>
    ensures { IfOk result (IsImportOf how.now text.now) }
{
    let header = header_of(alloc, how, text)?;
    match make_under(alloc, key, how, text, &header) {
        Ok(made) => Ok(made),
        Err(fault) => match with_divider(alloc, how, text, &fault) {
            Some(told) => Err(told),
            None => Err(fault),
        },
    }
}

/// Makes a table of the values of a text. Texts are hashed under the key.
///
/// What it makes, the reader of tables has read. The first fault refuses it, in this order: there is no record; what is
/// asked of columns; the first record that is ragged; texts that are not UTF-8; cells without a value; texts that are too
/// long; then record by record a cell that is none of the kind that was asked for, and a row too many.
pub fn import(alloc: Global, key: TextKey, how: &How<'_>, text: &[u8]) -> Result<Imported, Fault>
    ensures made { IfOk result (IsImportOf how.now text.now) }
    ensures table { IfOk result (λ made. IsTable made.bytes.items) }
{
    let made = make(alloc, key, how, text)?;
    see_table(alloc, key, made.bytes.as_slice())?;
    Ok(made)
}

/// Makes a table as `import` does, and has it read in parts, where it is long, each by a thread of its own.
pub fn import_in_parts<R: Threads + Sync>(
    rt: &R,
    alloc: Global,
    key: TextKey,
    how: &How<'_>,
    text: &[u8],
) -> Result<Imported, Fault>
    ensures made { IfOk result (IsImportOf how.now text.now) }
    ensures table { IfOk result (λ made. IsTable made.bytes.items) }
{
    let made = make(alloc, key, how, text)?;
    see_table_in_parts(rt, alloc, key, made.bytes.as_slice())?;
    Ok(made)
}
