//! Tables of comma-separated values.

ghost use Rattle.std.specs.Prelude.{[], ◌+◌, ◌≡◌, ◌<◌, ◌≤◌, drop, false, length, Err, IfOk, OnErr, OnOk};
ghost use Rattle.csv.specs.Records.{fields_of};
ghost use Rattle.sw_rows.specs.Groups.{AreSeen, IsCodeOrZero};
ghost use Rattle.sw_rows.specs.Cells.{HasPlaces};
ghost use Rattle.sw_rows.specs.Domains.{domain};
ghost use Rattle.sw_rows.specs.Domains as kind;
ghost use Rattle.sw_rows.specs.Gives.{Gives};
ghost use Rattle.sw_rows.specs.Records.{IsPlain, left_in};
ghost use Rattle.sw_rows.specs.Tables.{shown_packed, table_in, table_of_records, text_field, NoText, GivesCell, GivesCells, GivesRowsBehind, GivesRowsOf, table_seeing, with_fields, with_records};
ghost use Rattle.sw_rows.specs.Texts.{is_text, with_texts};
ghost use Rattle.sw_rows.specs.declared.table.TheConstants.{MOST_ROWS};
ghost use Rattle.sw_table.specs.Packed.{zeros};

pub(crate) mod cell;
pub(crate) mod group;
pub(crate) mod numbered;
pub(crate) mod records;
pub(crate) mod seen;

use crate::kind::Kind;
use crate::loading::cuts::has_no_quote;
use crate::loading::fronts::{long_at, refused_at};
use crate::schema::text_key::TextKey;
use crate::schema::texts::{Texts, cell_of, read_text};
use crate::schema::{Columns, Fields, Schema, read_header};
use crate::table::cell::read_cell_bytes;
use crate::table::group::{Group, TOGETHER};
use crate::table::numbered::NumberedRows;
use crate::table::records::Records;
use crate::table::seen::SeenCodes;
use csv::ByteRecord;
use std::alloc::Global;
use sw_query::Refusal;
use sw_table::PackedRows;

/// The place of a field: its record's number and its own, both from 1.
#[derive(Clone, Copy)]
struct At {
    rec: u64,
    field: u64,
}

impl At {
    /// That there is no cell here.
    fn fault(self) -> Refusal
        ensures { result ≡ Refusal.BadTable self.rec self.field }
    {
        let At { rec, field } = self;
        Refusal::BadTable { rec, field }
    }
}

/// Reads a field of texts: its code, where that was seen, or else that of its text, which is added where it is new.
fn read_text_field(texts: &mut Texts, at: At, field: &[u8], seen: u32) -> Result<i64, Refusal>
    requires { IsCodeOrZero texts.old field.now seen }
    ensures gives { GivesCell at.rec at.field texts.old (kind.Text []) field.now result }
    ensures learned { OnOk result (texts.new ≡ with_texts texts.old (text_field (kind.Text []) field.now)) }
    ensures no_text { is_text field.now ≡ false → result ≡ Err (Refusal.BadTable at.rec at.field) }
{
    if seen != 0 {
        return Ok(cell_of(u64::from(seen)));
    }
    // it may have come in the same group
    if let Some(code) = texts.seen(field) {
        return Ok(cell_of(code));
    }
    let Some(text) = read_text(field) else {
        return Err(at.fault());
    };
    match texts.add_unseen(text) {
        Ok(code) => Ok(cell_of(code)),
        Err(e) => Err(e),
    }
}

/// Reads the field of a cell of a kind.
fn read_field(
    kind: Kind,
    texts: &mut Texts,
    at: At,
    field: &[u8],
    seen: u32,
) -> Result<i64, Refusal>
    requires places { HasPlaces kind }
    requires seen { IsCodeOrZero texts.old field.now seen }
    ensures gives { GivesCell at.rec at.field texts.old (domain [] kind) field.now result }
    ensures learned { OnOk result (texts.new ≡ with_texts texts.old (text_field (domain [] kind) field.now)) }
    ensures no_text { NoText (domain [] kind) field.now
        → OnErr result (result ≡ Err (Refusal.BadTable at.rec at.field)) }
{
    if let Kind::Text = kind {
        return read_text_field(texts, at, field, seen);
    }
    match read_cell_bytes(kind, field) {
        Some(cell) => Ok(cell),
        None => Err(at.fault()),
    }
}

/// Reads the cells of record `rec`, of some of which codes were seen, and adds its texts.
fn read_cells(
    columns: &Columns,
    texts: &mut Texts,
    rec: u64,
    row: &ByteRecord,
    seen: &[u32; 8],
) -> Result<[i64; 8], Refusal>
    requires few { rec ≤ MOST_ROWS }
    requires seen { AreSeen texts.old (fields_of row.now) seen.now }
    ensures gives { GivesCells rec texts.old columns.now (fields_of row.now) result }
    ensures learned { OnOk result (texts.new ≡ with_fields texts.old columns.now (fields_of row.now)) }
    ensures within { IfOk result (λ cells. drop (length columns.now) cells ≡ drop (length columns.now) zeros) }
{
    let count = columns.len();
    let found = row.len();
    if found != count {
        let field = found.min(count) as u64 + 1;
        return Err(Refusal::BadTable { rec, field });
    }
    let mut cells = [0i64; 8];
    for attr in 0..count {
        let field = attr as u64 + 1;
        match read_field(
            columns.kind(attr),
            texts,
            At { rec, field },
            row.field(attr),
            seen[attr],
        ) {
            Ok(cell) => cells[attr] = cell,
            Err(e) => return Err(e),
        }
    }
    Ok(cells)
}

/// How many rows are ever inserted at most, those of the table included.
pub const MOST_ROWS: u64 = 1_048_576;

/// No rows yet, of as many cells as there are attributes.
pub(crate) fn no_rows(alloc: Global, columns: &Columns) -> NumberedRows
    requires { 0 < length columns.now }
    ensures { result ≡ record { width = length columns.now; items = [] } }
{
    NumberedRows::new(alloc, columns.len())
}

/// Adds the rows of a group, and their texts. After a refusal nothing is told of the rows or the texts.
fn read_group(
    rows: &mut NumberedRows,
    columns: &Columns,
    texts: &mut Texts,
    group: &Group,
) -> Result<(), Refusal>
    requires few { length rows.old.items + length group.now ≤ MOST_ROWS }
    requires width { rows.old.width ≡ length columns.now }
    ensures gives { GivesRowsBehind rows.old.items texts.old columns.now group.now rows.new.items result }
    ensures learned { OnOk result (texts.new ≡ with_records texts.old columns.now group.now) }
    ensures width { OnOk result (rows.new.width ≡ rows.old.width) }
    ensures count { OnOk result (length rows.new.items ≡ length rows.old.items + length group.now) }
{
    let seen = SeenCodes::of(columns, texts, group);
    for place in 0..group.len() {
        let key = rows.len() as u64 + 1;
        match read_cells(columns, texts, key, group.record(place), seen.at(place)) {
            Ok(cells) => {
                if rows.push(&cells).is_err() {
                    return Err(Refusal::NoMemory);
                }
            }
            Err(e) => return Err(e),
        }
    }
    Ok(())
}

/// Adds the rows that are left to none, and their texts. Records are read up to sixteen ahead: where one finds no memory, `NoMemory` comes also in
/// place of a fault before it.
pub(crate) fn read_rows(
    alloc: Global,
    mut rows: NumberedRows,
    columns: &Columns,
    texts: &mut Texts,
    records: &mut Records<'_>,
) -> Result<PackedRows, Refusal>
    requires none { rows ≡ record { width = length columns.now; items = [] } }
    requires plain { IsPlain records.old.rdr }
    ensures gives { GivesRowsOf texts.old columns.now (left_in records.old) result }
    ensures learned { OnOk result (texts.new ≡ with_records texts.old columns.now (left_in records.old)) }
    ensures width { IfOk result (λ rows. rows.width ≡ length columns.now) }
{
    let mut group = Group::none(alloc);
    for _turn in 0..MOST_ROWS / TOGETHER as u64 {
        let Ok(is_more) = group.fill(records) else {
            return Err(Refusal::NoMemory);
        };
        match read_group(&mut rows, columns, texts, &group) {
            Ok(()) if is_more => {}
            Ok(()) => return Ok(rows.into_packed()),
            Err(e) => return Err(e),
        }
    }
    match records.next() {
        Ok(true) => Err(Refusal::TooMany { limit: MOST_ROWS }),
        Ok(false) => Ok(rows.into_packed()),
        Err(_) => Err(Refusal::NoMemory),
    }
}

/// Reads the rows that are left under a header.
fn read_under(
    alloc: Global,
    columns: Columns,
    records: &mut Records<'_>,
) -> Result<(Schema, PackedRows), Refusal>
    requires plain { IsPlain records.old.rdr }
    requires some { 0 < length columns }
    ensures gives { Gives ⊥ shown_packed result (table_seeing columns (left_in records.old)) }
    ensures width { IfOk result (λ t. t.1.width ≡ length t.0) }
{
    let mut texts = columns.no_texts(alloc);
    let none = no_rows(alloc, &columns);
    match read_rows(alloc, none, &columns, &mut texts, records) {
        Ok(rows) => Ok((columns.into_schema(texts), rows)),
        Err(e) => Err(e),
    }
}

/// Reads the header and the rows that are left.
fn read_records(
    alloc: Global,
    key: TextKey,
    records: &mut Records<'_>,
) -> Result<(Schema, PackedRows), Refusal>
    requires { IsPlain records.old.rdr }
    ensures gives { Gives ⊥ shown_packed result (table_of_records (left_in records.old)) }
    ensures width { IfOk result (λ t. t.1.width ≡ length t.0) }
{
    match records.next() {
        Ok(true) => {}
        Ok(false) => return Err(Refusal::BadTable { rec: 0, field: 0 }),
        Err(_) => return Err(Refusal::NoMemory),
    }
    match read_header(alloc, key, &records.row) {
        Ok(columns) => read_under(alloc, columns, records),
        Err(e) => Err(e),
    }
}

/// Reads the table that bytes spell, on one thread.
pub(crate) fn read_whole(
    alloc: Global,
    key: TextKey,
    bytes: &[u8],
) -> Result<(Schema, PackedRows), Refusal>
    ensures gives { Gives ⊥ shown_packed result (table_in bytes.now) }
    ensures width { IfOk result (λ t. t.1.width ≡ length t.0) }
{
    let mut records = Records::of(alloc, bytes);
    read_records(alloc, key, &mut records)
}

/// Reads a table one of whose records has a ninth field there. It is refused before that record is read whole.
pub(crate) fn read_long(
    alloc: Global,
    key: TextKey,
    bytes: &[u8],
    at: usize,
) -> Result<(Schema, PackedRows), Refusal>
    requires { at ≤ length bytes.now }
    ensures gives { Gives ⊥ shown_packed result (table_in bytes.now) }
    ensures width { IfOk result (λ t. t.1.width ≡ length t.0) }
{
    match refused_at(alloc, key, bytes, at) {
        Some(refusal) => Err(refusal),
        None => read_whole(alloc, key, bytes),
    }
}

/// Reads the table that bytes spell, of a record of too many fields no more than is needed.
pub(crate) fn read_table(
    alloc: Global,
    key: TextKey,
    bytes: &[u8],
) -> Result<(Schema, PackedRows), Refusal>
    ensures gives { Gives ⊥ shown_packed result (table_in bytes.now) }
    ensures width { IfOk result (λ t. t.1.width ≡ length t.0) }
{
    match long_at(bytes, !has_no_quote(bytes)) {
        Some(at) => read_long(alloc, key, bytes, at),
        None => read_whole(alloc, key, bytes),
    }
}
