//! The header, and rows with their texts.

ghost use Rattle.std.specs.Prelude.{◌≡◌, ◌≤◌, ℕ, List, [], Some, None, true, if◌then◌else◌, filter_map, map, option_map, IfOk, IfSome, OnOk};
ghost use Rattle.std.specs.List.{cons_option};
ghost use Rattle.serde_json.specs.View.{view};
ghost use Rattle.sw_rows.specs.Domains.{domain};
ghost use Rattle.sw_rows.specs.Domains as kind;
ghost use Rattle.sw_rows.specs.Header.{has_texts, kinds_of, texts_of};
ghost use Rattle.sw_rows.specs.Texts.{is_text};
ghost use Rattle.sw_rows.specs.declared.table.TheConstants.{MOST_ROWS};
ghost use Rattle.sw_lang.specs.Learning.{knowing};
ghost use Rattle.sw_histories.specs.FromTokens.{AreCounted, AreFew};
ghost use Rattle.sw_histories.specs.Outlines.{ReadsRows, ReadsRowsUpTo, values_in, values_of};
ghost use Rattle.sw_histories.specs.RecordReading.{cell_in, cells_of, header_in, number_in, of_kind, row_learned, row_read, text_in};

use crate::reading::members::{array_at, texts};
use crate::reading::outline::{ArrayOf, enter};
use crate::reading::values::{NoValue, read};
use json::{Reader, Scratch};
use serde_json::Value;
use std::alloc::{AllocError, Global};
use sw_rows::{Kind, PackedRows, Refusal, Row, Schema, TextKey, read_text};

/// The attributes, where they are those of a header.
pub(super) fn read_header(
    alloc: Global,
    key: TextKey,
    value: &Value,
) -> Result<Option<Schema>, AllocError>
    ensures { IfOk result (λ o. o ≡ header_in (view value.now)) }
{
    let Some(items) = array_at(value, "attributes") else {
        return Ok(None);
    };
    let Some(fields) = texts(alloc, items)? else {
        return Ok(None);
    };
    match Schema::of(alloc, key, fields.as_slice()) {
        Ok(schema) => Ok(Some(schema)),
        Err(Refusal::NoMemory) => Err(AllocError),
        Err(_) => Ok(None),
    }
}

/// The text that a value is, where it may be the text of a cell.
fn text_in(value: &Value) -> Option<&str>
    ensures value { option_map (λ t. t.now) result ≡ text_in (view value.now) }
    ensures text { IfSome result (λ t. is_text t.now ≡ true) }
{
    let text = value.as_str()?;
    read_text(text.as_bytes())
}

/// Makes the text that a value is known.
fn learn_value(schema: &mut Schema, value: &Value) -> Result<(), AllocError>
    requires { has_texts schema.old ≡ true }
    ensures { OnOk result (schema.new ≡ knowing (cons_option (text_in (view value.now)) []) schema.old) }
{
    // for the prover: the schema is one
    let _count = schema.len();
    let Some(text) = text_in(value) else {
        return Ok(());
    };
    schema.learn_text(text)
}

fn learn_values(schema: &mut Schema, items: &[Value]) -> Result<(), AllocError>
    requires { has_texts schema.old ≡ true }
    ensures { OnOk result (schema.new ≡ knowing (filter_map text_in (map view items.now)) schema.old) }
{
    // for the prover: the schema is one
    let _count = schema.len();
    let mut rest = items;
    while let Some((value, later)) = rest.split_first() {
        learn_value(schema, value)?;
        rest = later;
    }
    Ok(())
}

/// Makes the texts of a row known, from the left, where an attribute is of texts.
fn learn_cells(schema: &mut Schema, items: &[Value]) -> Result<(), AllocError>
    ensures { OnOk result (schema.new ≡ knowing (filter_map text_in (map view items.now)) schema.old) }
{
    // for the prover: the schema is one
    let _count = schema.len();
    if !schema.has_texts() {
        return Ok(());
    }
    learn_values(schema, items)
}

fn of_kind(kind: Kind, number: i64) -> bool
    ensures { (texts : List (List ℕ)) → if◌then◌else◌ result (Some number) None ≡ of_kind (domain texts kind) number }
{
    match kind {
        Kind::Int | Kind::Fix(_) => true,
        Kind::Flag => number == 0 || number == 1,
        Kind::Text => false,
    }
}

/// A number that is a cell of a kind.
fn read_number(kind: Kind, value: &Value) -> Option<i64>
    ensures { (texts : List (List ℕ)) → result ≡ number_in (domain texts kind) (view value.now) }
{
    let number = value.as_i64()?;
    if of_kind(kind, number) {
        return Some(number);
    }
    None
}

/// The code of a text that is known.
fn read_code(schema: &Schema, value: &Value) -> Option<i64>
    ensures { result ≡ cell_in (kind.Text (texts_of schema.now)) (view value.now) }
{
    let text = text_in(value)?;
    schema.code(text)
}

/// A cell of a kind.
fn read_cell(schema: &Schema, kind: Kind, value: &Value) -> Option<i64>
    ensures { result ≡ cell_in (domain (texts_of schema.now) kind) (view value.now) }
{
    match kind {
        Kind::Text => read_code(schema, value),
        Kind::Int | Kind::Fix(_) | Kind::Flag => read_number(kind, value),
    }
}

/// The cells of a row, as many as there are attributes.
fn read_cells(schema: &Schema, items: &[Value]) -> Option<[i64; 8]>
    ensures { result ≡ cells_of (kinds_of schema.now) (map view items.now) }
{
    let count = schema.len();
    if items.len() != count {
        return None;
    }
    let mut cells = [0i64; 8];
    for attr in 0..count {
        match read_cell(schema, schema.kind(attr), &items[attr]) {
            Some(cell) => cells[attr] = cell,
            None => return None,
        }
    }
    Some(cells)
}

/// The cells of a row, whose texts are made known first.
fn read_row(schema: &mut Schema, value: &Value) -> Result<Option<[i64; 8]>, AllocError>
    ensures cells { IfOk result (λ cells. cells ≡ row_read schema.old (view value.now)) }
    ensures learned { OnOk result (schema.new ≡ row_learned schema.old (view value.now)) }
{
    // for the prover: the schema is one
    let _count = schema.len();
    let Some(items) = value.as_array() else {
        return Ok(None);
    };
    learn_cells(schema, items.as_slice())?;
    Ok(read_cells(schema, items.as_slice()))
}

/// The cells of a row, whose value is let go.
fn take_row(schema: &mut Schema, value: Value) -> Result<Option<[i64; 8]>, AllocError>
    ensures cells { IfOk result (λ cells. cells ≡ row_read schema.old (view value)) }
    ensures learned { OnOk result (schema.new ≡ row_learned schema.old (view value)) }
{
    read_row(schema, &value)
}

/// Rows in order, up to the end of their array; their keys are 1, 2, 3 and so on, and their texts are known then. Room
/// for so many is made at once.
fn read_rows(
    alloc: Global,
    schema: &mut Schema,
    reader: &mut Reader<'_>,
    count: usize,
) -> Result<Option<PackedRows>, AllocError>
    requires { AreFew (values_in reader.old) }
    ensures { IfOk result (ReadsRows schema.old schema.new (values_in reader.old)) }
{
    let mut rows = PackedRows::new(alloc, schema.len());
    rows.reserve(count)?;
    'rows: while !reader.take_end_array() {
        let value = match read(alloc, reader, 125) {
            Ok(value) => value,
            Err(NoValue::Memory) => return Err(AllocError),
            Err(NoValue::Invalid) => unreachable!(),
        };
        let Some(cells) = take_row(schema, value)? else {
            return Ok(None);
        };
        let key = rows.len() as u64 + 1;
        rows.add(&Row { key, cells })?;
    }
    Ok(Some(rows))
}

/// The rows of an array of a text's object.
fn read_rows_of(
    alloc: Global,
    schema: &mut Schema,
    items: ArrayOf<'_>,
    scratch: &mut Scratch,
) -> Result<Option<PackedRows>, AllocError>
    requires { AreFew (values_of items) }
    ensures { IfOk result (ReadsRows schema.old schema.new (values_of items.entry)) }
{
    let Ok(mut reader) = Reader::new(items.text, scratch) else {
        return Err(AllocError);
    };
    match enter(&mut reader, items.at.place) {
        Ok(()) => read_rows(alloc, schema, &mut reader, items.at.count),
        Err(_) => unreachable!(),
    }
}

/// The same, at most as many as the limit.
pub(super) fn read_rows_up_to(
    alloc: Global,
    schema: &mut Schema,
    limit: u64,
    items: ArrayOf<'_>,
    scratch: &mut Scratch,
) -> Result<Option<PackedRows>, AllocError>
    requires counted { AreCounted (values_of items) items.at.count }
    requires most { limit ≤ MOST_ROWS }
    ensures { IfOk result (ReadsRowsUpTo schema.old schema.new limit (values_of items.entry)) }
{
    if items.at.count as u64 > limit {
        return Ok(None);
    }
    read_rows_of(alloc, schema, items, scratch)
}
