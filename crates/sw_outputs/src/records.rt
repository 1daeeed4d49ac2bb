//! Replies as comma-separated values.

ghost use Rattle.std.specs.Prelude.{◌≡◌, [], List, ℕ, IfOk, None, Some, map, option_map};
ghost use Rattle.sw_rows.specs.Spelling.{kind_text};
ghost use Rattle.sw_lang.specs.PrintedCalls.{name_at};
ghost use Rattle.sw_lang.specs.Replies.{kind_at, sum_text};
ghost use Rattle.sw_outputs.specs.Fields.{answer_records, attrs_differ, cell_field, cell_fields, csv_text, header_field, keyed_records, makes_table, number_field, one_column, records_text, scalar_records, table_text, table_told, keyed_text, rows_text};
ghost use Rattle.sw_outputs.specs.JsonLines.{kind_called};
ghost use Rattle.sw_outputs.specs.Records.{IsMade, AddsField, AddsText, EndsRecord, EndsWith};
ghost use Rattle.sw_outputs.specs.Sinks.{WroteMade};

use crate::cells::{field_text, kind_or_int, line_of, name_of};
use crate::lines::{attr_called, called, shown};
use crate::told::Told;
use csv::{ByteRecord, Writer};
use itoa::{Buffer, Integer};
use std::alloc::{AllocError, Global};
use sw_lang::{kind_name, write_all};
use sw_rows::{Call, Refusal, Reply, ReplyRows, Schema, Sink};

/// Records that are written to memory, and the one that is being made.
struct Records {
    writer: Writer<Vec<u8>>,
    record: ByteRecord,
}

// By hand: the drop of a derived one is written out at each way out of a function.
impl Drop for Records {
    fn drop(self) {
        let Self {
            writer: _writer,
            record: _record,
        } = self;
    }
}

impl Records {
    /// No records yet.
    fn new(alloc: Global) -> Records
        ensures { IsMade result [] [] }
    {
        let bytes = Vec::new(alloc);
        let writer = Writer::from_writer(bytes);
        let record = ByteRecord::new(alloc);
        Records { writer, record }
    }

    /// Adds a field to the record.
    fn add(&mut self, field: &[u8]) -> Result<(), AllocError>
        ensures { AddsField result self.old self.new field.now }
    {
        self.record.push_field(field)?;
        Ok(())
    }

    /// Ends the record. Over memory, only memory can fail.
    fn end(&mut self) -> Result<(), AllocError>
        ensures { EndsRecord result self.old self.new }
    {
        let Ok(()) = self.writer.write_byte_record(&self.record) else {
            return Err(AllocError);
        };
        self.record.clear();
        Ok(())
    }

    /// The bytes of all records.
    fn into_bytes(self) -> Result<Vec<u8>, AllocError>
        ensures { (bs : List ℕ) (fs : List (List ℕ)) → IsMade self bs fs → IfOk result (λ text. text.items ≡ bs) }
    {
        let Self {
            writer,
            record: _record,
        } = self;
        match writer.into_inner() {
            Ok(bytes) => Ok(bytes),
            Err(_) => Err(AllocError),
        }
    }

    /// Adds a number as a field.
    fn add_number<N: Integer>(&mut self, number: N) -> Result<(), AllocError>
        ensures { AddsField result self.old self.new (N.text number) }
    {
        let mut buffer = Buffer::new();
        let text = buffer.format(number);
        self.add(text.as_bytes())?;
        Ok(())
    }
}

/// The name of the kind of an attribute.
fn kind_of(schema: &Schema, attr: usize) -> &'static str
    ensures { result.now ≡ kind_text (kind_at schema.now attr) }
{
    kind_name(kind_or_int(schema, attr))
}

/// The field of a header for an attribute.
fn header_text(alloc: Global, schema: &Schema, attr: usize) -> Result<Vec<u8>, AllocError>
    ensures { IfOk result (λ text. text.items ≡ header_field schema.now attr) }
{
    let mut text = Vec::from_slice(alloc, name_of(schema, attr).as_bytes())?;
    text.push(b':')?;
    text.extend_from_slice(kind_of(schema, attr).as_bytes())?;
    Ok(text)
}

/// Adds the names of some attributes, and ends the record.
fn add_names(schema: &Schema, attrs: &[usize], records: &mut Records) -> Result<(), AllocError>
    ensures { EndsWith result records.old records.new (map (name_at schema.now) attrs.now) }
{
    let mut rest = attrs;
    while let Some((attr, later)) = rest.split_first() {
        let name = name_of(schema, *attr);
        records.add(name.as_bytes())?;
        rest = later;
    }
    records.end()?;
    Ok(())
}

/// Adds the header of a table.
fn add_header(
    alloc: Global,
    schema: &Schema,
    attrs: &[usize],
    records: &mut Records,
) -> Result<(), AllocError>
    ensures { EndsWith result records.old records.new (map (header_field schema.now) attrs.now) }
{
    let mut rest = attrs;
    while let Some((attr, later)) = rest.split_first() {
        let text = header_text(alloc, schema, *attr)?;
        records.add(text.as_slice())?;
        rest = later;
    }
    records.end()?;
    Ok(())
}

/// Adds the cells of a row, and ends the record.
fn add_cells(
    alloc: Global,
    schema: &Schema,
    attrs: &[usize],
    cells: &[i64],
    records: &mut Records,
) -> Result<(), AllocError>
    ensures { EndsWith result records.old records.new (cell_fields (map (kind_at schema.now) attrs.now) cells.now) }
{
    let mut attrs = attrs;
    let mut cells = cells;
    while let Some((attr, later)) = attrs.split_first() {
        let Some((cell, after)) = cells.split_first() else {
            return records.end();
        };
        let text = field_text(alloc, schema, *attr, *cell)?;
        records.add(text.as_slice())?;
        attrs = later;
        cells = after;
    }
    records.end()?;
    Ok(())
}

/// Adds the rows of a reply, each with its key first.
fn add_keyed_rows(
    alloc: Global,
    schema: &Schema,
    attrs: &[usize],
    rows: &ReplyRows,
    records: &mut Records,
) -> Result<(), AllocError>
    ensures { AddsText result records.old records.new (keyed_text schema.now attrs.now rows.now) }
{
    let mut left = rows.left();
    while let Some((key, cells)) = left.next() {
        records.add_number(key)?;
        add_cells(alloc, schema, attrs, cells, records)?;
    }
    Ok(())
}

/// Adds the rows of a reply without their keys.
fn add_rows(
    alloc: Global,
    schema: &Schema,
    attrs: &[usize],
    rows: &ReplyRows,
    records: &mut Records,
) -> Result<(), AllocError>
    ensures { AddsText result records.old records.new (rows_text schema.now attrs.now rows.now) }
{
    let mut left = rows.left();
    while let Some((_, cells)) = left.next() {
        add_cells(alloc, schema, attrs, cells, records)?;
    }
    Ok(())
}

/// The rows of a reply as records, their keys first, under the names.
fn keyed_rows(
    alloc: Global,
    schema: &Schema,
    attrs: &[usize],
    rows: &ReplyRows,
) -> Result<Vec<u8>, AllocError>
    ensures { IfOk result (λ text. text.items ≡ records_text (keyed_records schema.now attrs.now rows.now)) }
{
    let mut records = Records::new(alloc);
    records.add(b"key")?;
    add_names(schema, attrs, &mut records)?;
    add_keyed_rows(alloc, schema, attrs, rows, &mut records)?;
    let text = records.into_bytes()?;
    Ok(text)
}

/// The rows of a reply as a table.
fn table_rows(
    alloc: Global,
    schema: &Schema,
    attrs: &[usize],
    rows: &ReplyRows,
) -> Result<Vec<u8>, AllocError>
    ensures { IfOk result (λ text. text.items ≡ table_text schema.now attrs.now rows.now) }
{
    let mut records = Records::new(alloc);
    add_header(alloc, schema, attrs, &mut records)?;
    add_rows(alloc, schema, attrs, rows, &mut records)?;
    let text = records.into_bytes()?;
    Ok(text)
}

/// The digits of a number.
fn digits<N: Integer>(alloc: Global, number: N) -> Result<Vec<u8>, AllocError>
    ensures { IfOk result (λ text. text.items ≡ N.text number) }
{
    let mut buffer = Buffer::new();
    Vec::from_slice(alloc, buffer.format(number).as_bytes())
}

/// The field of the least or the greatest cell that a call was answered.
fn extreme(alloc: Global, schema: &Schema, call: &Call, cell: i64) -> Result<Vec<u8>, AllocError>
    ensures { IfOk result (λ text. text.items ≡ cell_field (kind_called schema.now call.now) cell) }
{
    match attr_called(call) {
        Some(attr) => field_text(alloc, schema, attr, cell),
        None => digits(alloc, cell),
    }
}

/// The field of the sum that a call was answered.
fn sum_field(alloc: Global, schema: &Schema, call: &Call, sum: i128) -> Result<Vec<u8>, AllocError>
    ensures { IfOk result (λ text. text.items ≡ sum_text (kind_called schema.now call.now) sum) }
{
    let text = line_of(alloc, schema, call, &Reply::Sum(sum))?;
    Ok(text)
}

/// The number of a reply as a field; none where there is no number.
fn number_of(
    alloc: Global,
    schema: &Schema,
    call: &Call,
    reply: &Reply,
) -> Result<Option<Vec<u8>>, AllocError>
    ensures { IfOk result (λ t. option_map (λ b. b.items) t ≡ number_field (kind_called schema.now call.now) reply.now) }
{
    match reply {
        Reply::Rows(_) | Reply::Full | Reply::Least(None) => Ok(None),
        Reply::Sum(sum) => Ok(Some(sum_field(alloc, schema, call, *sum)?)),
        Reply::Least(Some(cell)) => Ok(Some(extreme(alloc, schema, call, *cell)?)),
        Reply::Count(number) | Reply::Inserted(number) | Reply::RemovedMany(number) => {
            Ok(Some(digits(alloc, *number)?))
        }
        Reply::Removed => Ok(Some(digits(alloc, 1u64)?)),
        Reply::NoSuchKey => Ok(Some(digits(alloc, 0u64)?)),
    }
}

/// A number under what it is called.
fn full_column(alloc: Global, name: &str, number: &[u8]) -> Result<Vec<u8>, AllocError>
    ensures { IfOk result (λ text. text.items ≡ records_text (scalar_records name.now (Some number.now))) }
{
    let mut records = Records::new(alloc);
    records.add(name.as_bytes())?;
    records.end()?;
    records.add(number)?;
    records.end()?;
    let text = records.into_bytes()?;
    Ok(text)
}

/// What a number is called, where there is none.
fn empty_column(alloc: Global, name: &str) -> Result<Vec<u8>, AllocError>
    ensures { IfOk result (λ text. text.items ≡ records_text (scalar_records name.now None)) }
{
    let mut records = Records::new(alloc);
    records.add(name.as_bytes())?;
    records.end()?;
    let text = records.into_bytes()?;
    Ok(text)
}

/// A reply of one number as one column.
fn scalar(alloc: Global, schema: &Schema, call: &Call, reply: &Reply) -> Result<Vec<u8>, AllocError>
    ensures { IfOk result (λ text. text.items ≡ records_text (one_column schema.now call.now reply.now)) }
{
    match number_of(alloc, schema, call, reply)? {
        Some(number) => full_column(alloc, called(call), number.as_slice()),
        None => empty_column(alloc, called(call)),
    }
}

/// The records of what a call was answered.
fn answer(alloc: Global, schema: &Schema, told: &Told<'_>) -> Result<Vec<u8>, AllocError>
    ensures { IfOk result (λ text. text.items
        ≡ records_text (answer_records schema.now told.now.call.now told.now.reply)) }
{
    match told.reply {
        Some(Reply::Rows(rows)) => keyed_rows(alloc, schema, shown(told.call), rows),
        Some(reply) => scalar(alloc, schema, told.call, reply),
        None => full_column(alloc, "refused", b"1"),
    }
}

/// What goes out of a call as comma-separated values.
fn values_told(alloc: Global, schema: &Schema, told: &Told<'_>) -> Result<Vec<u8>, AllocError>
    ensures { IfOk result (λ text. text.items ≡ csv_text schema.now told.now) }
{
    let records = answer(alloc, schema, told)?;
    if told.number > 1 {
        let mut text = Vec::from_slice(alloc, b"\n")?;
        text.extend_from_slice(records.as_slice())?;
        Ok(text)
    } else {
        Ok(records)
    }
}

/// Writes what a call was answered as comma-separated values: rows as records under a header of `key` and the names, another
/// reply as one column. An empty line stands before each but the first call's.
///
/// Refused `NoMemory`, and then nothing was written, or `Output` where the sink fails, and then a beginning was.
pub fn write_csv<W: Sink>(
    alloc: Global,
    schema: &Schema,
    told: &Told<'_>,
    out: &mut W,
) -> Result<(), Refusal>
    ensures { WroteMade W.taken W.failed out.old out.new result (csv_text schema.now told.now) }
{
    match values_told(alloc, schema, told) {
        Ok(text) => write_all(out, text.as_slice()),
        Err(_) => Err(Refusal::NoMemory),
    }
}

/// Whether no attribute stands twice.
fn are_distinct(attrs: &[usize]) -> bool
    ensures { result ≡ attrs_differ attrs.now }
{
    let mut rest = attrs;
    while let Some((attr, later)) = rest.split_first() {
        if later.contains(attr) {
            return false;
        }
        rest = later;
    }
    true
}

/// Whether the reply of a call makes a table: it is one of rows, and shows no attribute twice.
pub fn makes_table(call: &Call) -> bool
    ensures { result ≡ makes_table call.now }
{
    let attrs = shown(call);
    match attrs.split_first() {
        Some(_) => are_distinct(attrs),
        None => false,
    }
}

/// Writes the rows of a reply as a table, under a header of names with kinds, and without their keys; nothing where the
/// reply is none of rows.
///
/// Refused `NoMemory`, and then nothing was written, or `Output` where the sink fails, and then a beginning was. The caller
/// asks first whether the call makes a table.
pub fn write_table<W: Sink>(
    alloc: Global,
    schema: &Schema,
    told: &Told<'_>,
    out: &mut W,
) -> Result<(), Refusal>
    ensures { WroteMade W.taken W.failed out.old out.new result (table_told schema.now told.now) }
{
    match told.reply {
        Some(Reply::Rows(rows)) => match table_rows(alloc, schema, shown(told.call), rows) {
            Ok(text) => write_all(out, text.as_slice()),
            Err(_) => Err(Refusal::NoMemory),
        },
        Some(_) | None => write_all(out, b""),
    }
}
