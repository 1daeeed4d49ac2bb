//! A record is read from a JSON text.

ghost use Rattle.std.specs.Prelude.{◌≡◌, ◌≤◌, option_map, IfErr, IfOk, IfSome};
ghost use Rattle.serde_json.specs.Data.{object};
ghost use Rattle.serde_json.specs.View.{members_view, view};
ghost use Rattle.sw_query.specs.declared.refusal.Refusal.TheVariants.{BadLine};
ghost use Rattle.sw_query.specs.declared.refusal.Why.TheVariants as why;
ghost use Rattle.sw_rows.specs.declared.table.TheConstants.{MOST_ROWS};
ghost use Rattle.sw_histories.specs.Outlines.{IsOutlineOf, IsWithinMost, front_as, front_of, limit_of, outside_in, read_as, record_in};
ghost use Rattle.sw_histories.specs.Told.{Reads, TellsText};
ghost use Rattle.sw_histories.specs.RecordReading.{record_at};

mod entries;
mod members;
mod outline;
mod rows;
pub(crate) mod values;

use crate::reading::entries::read_entries_of;
use crate::reading::members::{array_at, has_members, number_at};
use crate::reading::outline::{ArrayOf, Outline, read_outline};
use crate::reading::rows::{read_header, read_rows_up_to};
use crate::reading::values::{NoValue, read};
use crate::writing::least_format;
use json::Scratch;
use serde_json::{Map, Value};
use std::alloc::{AllocError, Global};
use sw_rows::{MOST_ROWS, PackedRows, Refusal, Schema, TextKey, Why};
use sw_spine::{MOST_ENTRIES, Record};

fn no_history(line: u32) -> Refusal
    ensures { result ≡ BadLine line why.History }
{
    Refusal::BadLine {
        line,
        why: Why::History,
    }
}

/// What stands outside the entries and the rows of a file.
#[derive(Drop)]
struct Front {
    schema: Schema,
    format: u64,
    limit: u64,
}

/// The limit, where the members and the place of the entries are a history's.
fn read_limit(value: &Value) -> Option<u64>
    ensures told { result ≡ limit_of (view value.now) }
    ensures most { IfSome result (λ limit. limit ≤ MOST_ROWS) }
{
    if !has_members(value, 5) {
        return None;
    }
    match array_at(value, "entries") {
        Some(_) => number_at(value, "limit", 1, MOST_ROWS),
        None => None,
    }
}

/// The attributes, the format and the limit; None where they are no history's.
fn read_front(alloc: Global, key: TextKey, value: &Value) -> Result<Option<Front>, AllocError>
    ensures told { IfOk result (λ o. option_map front_as o ≡ front_of (view value.now)) }
    ensures most { IfOk result IsWithinMost }
{
    let Some(limit) = read_limit(value) else {
        return Ok(None);
    };
    let Some(schema) = read_header(alloc, key, value)? else {
        return Ok(None);
    };
    let Some(format) = number_at(value, "format", least_format(&schema), 3) else {
        return Ok(None);
    };
    Ok(Some(Front {
        schema,
        format,
        limit,
    }))
}

/// The same of an object's members, which are let go.
fn take_front(
    alloc: Global,
    key: TextKey,
    members: Map<String, Value>,
) -> Result<Option<Front>, AllocError>
    ensures told { IfOk result (λ o. option_map front_as o ≡ front_of (object (members_view members.entries))) }
    ensures most { IfOk result IsWithinMost }
{
    let value = Value::Object(members);
    read_front(alloc, key, &value)
}

/// What stands outside the entries of a file.
#[derive(Drop)]
struct Outer {
    schema: Schema,
    format: u64,
    limit: u64,
    rows: PackedRows,
}

/// The part outside the entries of a text whose outline was read; None where it is none.
fn read_outside(
    alloc: Global,
    key: TextKey,
    text: &str,
    scratch: &mut Scratch,
    outline: Outline,
) -> Result<Option<Outer>, AllocError>
    requires { IsOutlineOf text.now outline }
    ensures { IfOk result (λ o. option_map read_as o ≡ outside_in text.now) }
{
    let Some(at) = outline.rows else {
        return Ok(None);
    };
    let Some(front) = take_front(alloc, key, outline.members)? else {
        return Ok(None);
    };
    let Front {
        mut schema,
        format,
        limit,
    } = front;
    match read_rows_up_to(alloc, &mut schema, limit, ArrayOf { text, at }, scratch) {
        Ok(Some(rows)) => Ok(Some(Outer {
            schema,
            format,
            limit,
            rows,
        })),
        Ok(None) => Ok(None),
        Err(e) => Err(e),
    }
}

/// The record of a text whose outline was read. What stands outside the entries is looked at first, then their number,
/// then entries in order.
fn read_outlined(
    alloc: Global,
    key: TextKey,
    text: &str,
    scratch: &mut Scratch,
    outline: Outline,
) -> Result<Record, Refusal>
    requires { IsOutlineOf text.now outline }
    ensures answers { Reads (λ h. h) result (record_in text.now) }
    ensures why { IfErr result TellsText }
{
    let Some(entries) = outline.entries else {
        return Err(no_history(0));
    };
    let Ok(read) = read_outside(alloc, key, text, scratch, outline) else {
        return Err(Refusal::NoMemory);
    };
    let Some(outer) = read else {
        return Err(no_history(0));
    };
    if entries.count > MOST_ENTRIES {
        return Err(Refusal::TooMany {
            limit: MOST_ENTRIES as u64,
        });
    }
    let Outer {
        mut schema,
        format,
        limit,
        rows,
    } = outer;
    let items = ArrayOf { text, at: entries };
    match read_entries_of(alloc, format, &mut schema, items, scratch) {
        Ok(entries) => Ok(Record {
            schema,
            rows,
            limit,
            entries,
        }),
        Err(e) => Err(e),
    }
}

/// The record of a text. The text is gone through to find what stands where, and then its rows and its entries are read
/// once the attributes are known, one after another, so that they never stand beside the record as JSON values.
fn read_record_text(alloc: Global, key: TextKey, text: &str) -> Result<Record, Refusal>
    ensures answers { Reads (λ h. h) result (record_in text.now) }
    ensures why { IfErr result TellsText }
{
    let mut scratch = Scratch::new(alloc);
    match read_outline(alloc, text, &mut scratch) {
        Ok(outline) => read_outlined(alloc, key, text, &mut scratch, outline),
        Err(NoValue::Invalid) => Err(no_history(0)),
        Err(NoValue::Memory) => Err(Refusal::NoMemory),
    }
}

/// The record of a file's bytes. Its attributes know the texts of the rows, one row after another and each from the
/// left, and then those of the calls; they are hashed under the key.
///
/// Refused `BadLine` of line 0 and why `History` where the bytes are no such JSON outside the entries; then `TooMany`
/// of 1,048,576 where there are more entries; then for the first entry, from 1, that is none `BadLine` with its number:
/// why `History` for its members, its session, its reply, and a call that deletes the rows under conditions where the
/// format is not 3; or what `parse_line` finds in its call, `UnknownAttribute` and `TooMany` of `sw_rows::MOST_TEXTS`
/// among it. `NoMemory` otherwise.
pub fn read_record(alloc: Global, key: TextKey, bytes: &[u8]) -> Result<Record, Refusal>
    ensures answers { Reads (λ h. h) result (record_at bytes.now) }
    ensures why { IfErr result TellsText }
{
    match std::str::from_utf8(bytes) {
        Ok(text) => read_record_text(alloc, key, text),
        Err(_) => Err(no_history(0)),
    }
}
