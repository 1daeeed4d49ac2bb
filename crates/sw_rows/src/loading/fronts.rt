//! The beginning of a table, where it shows already that a record has too many fields.

ghost use Rattle.std.specs.Prelude.{◌≡◌, ◌<◌, ◌≤◌, ◌++◌, ℕ, List, length, IfSome};
ghost use Rattle.csv.specs.Reading.{default_config, records, strip_bom};
ghost use Rattle.sw_rows.specs.Beginnings.{RefusesAll};
ghost use Rattle.sw_rows.specs.Gives.{Fails};
ghost use Rattle.sw_rows.specs.Records.{IsPlain, left_in};
ghost use Rattle.sw_rows.specs.Tables.{table_in};

use crate::loading::cuts::{feed_at, has_no_quote};
use crate::schema::text_key::TextKey;
use crate::schema::{Columns, read_header};
use crate::table::records::Records;
use crate::table::{MOST_ROWS, no_rows, read_rows};
use std::alloc::Global;
use sw_query::Refusal;

/// How many bytes a table has at least whose records may be too long to be read whole.
const LEAST: usize = 1_048_576;

/// How many bytes with no line feed are no ordinary record.
const SPAN: usize = 65_536;

/// Whether there are many bytes with no line feed.
fn has_long_line(bytes: &[u8]) -> bool {
    for part in bytes.chunks(SPAN) {
        if feed_at(part).is_none() {
            return true;
        }
    }
    false
}

/// Where the ninth field of a record begins, if a record has one.
fn ninth_at(bytes: &[u8]) -> Option<usize>
    ensures { IfSome result (λ at. at ≤ length bytes.now) }
{
    let mut commas = 0u64;
    let mut is_quoted = false;
    // a quote opens at the start of a field, and again where it is doubled
    let mut opens = true;
    for at in 0..bytes.len() {
        let c = bytes[at];
        if c == b'"' && (is_quoted || opens) {
            is_quoted = !is_quoted;
            opens = true;
        } else if !is_quoted {
            opens = c == b',' || c == b'\n' || c == b'\r';
            if c == b',' {
                if commas == 7 {
                    return Some(at + 1);
                }
                commas += 1;
            } else if opens {
                commas = 0;
            }
        }
    }
    None
}

/// How many records bytes have, if they can be counted.
fn count_records(alloc: Global, bytes: &[u8]) -> Option<u64>
    ensures { IfSome result (λ n. n ≡ length (records default_config (strip_bom bytes.now))) }
{
    let mut records = Records::of(alloc, bytes);
    for n in 0..MOST_ROWS {
        match records.next() {
            Ok(true) => {}
            Ok(false) => return Some(n),
            Err(_) => return None,
        }
    }
    None
}

/// The refusal of the rows of every table that begins so, where the last record is the first that is refused, and has
/// too many fields.
fn refused_row(
    alloc: Global,
    columns: &Columns,
    records: &mut Records<'_>,
    count: u64,
) -> Option<Refusal>
    requires plain { IsPlain records.old.rdr }
    requires some { 0 < length columns.now }
    requires count { count ≡ length (left_in records.old) }
    ensures { RefusesAll columns.now (left_in records.old) result }
{
    let mut texts = columns.no_texts(alloc);
    let most = columns.len() as u64;
    match read_rows(alloc, no_rows(alloc, columns), columns, &mut texts, records) {
        Err(Refusal::BadTable { rec, field }) if rec == count && field > most => {
            Some(Refusal::BadTable { rec, field })
        }
        _ => None,
    }
}

/// The refusal of every table that begins so, where the last record has too many fields.
fn refused_front(alloc: Global, key: TextKey, front: &[u8], count: u64) -> Option<Refusal>
    requires long { 3 ≤ length front.now }
    requires count { count ≡ length (records default_config (strip_bom front.now)) }
    ensures { (rest : List ℕ) → IfSome result (λ e. Fails ⊥ e (table_in (front.now ++ rest))) }
{
    let mut records = Records::of(alloc, front);
    let Ok(true) = records.next() else {
        return None;
    };
    if records.row.len() > 8 {
        return Some(Refusal::TooMany { limit: 8 });
    }
    if count < 2 {
        return None;
    }
    match read_header(alloc, key, &records.row) {
        Ok(columns) => refused_row(alloc, &columns, &mut records, count - 1),
        Err(_) => None,
    }
}

/// Where the ninth field of a record begins in a long table, if a record has one. A record may be long where there is a
/// quote, or where there are many bytes with no line feed.
pub(crate) fn long_at(bytes: &[u8], has_quotes: bool) -> Option<usize>
    ensures { IfSome result (λ at. at ≤ length bytes.now) }
{
    if bytes.len() >= LEAST && (has_quotes || has_long_line(bytes)) {
        return ninth_at(bytes);
    }
    None
}

/// The refusal of a table one of whose records has a ninth field there, where the bytes before it tell it.
pub(crate) fn refused_at(alloc: Global, key: TextKey, bytes: &[u8], at: usize) -> Option<Refusal>
    requires { at ≤ length bytes.now }
    ensures { IfSome result (λ e. Fails ⊥ e (table_in bytes.now)) }
{
    let (front, _) = bytes.split_at(at);
    if front.len() < 3 {
        return None;
    }
    let count = count_records(alloc, front)?;
    refused_front(alloc, key, front, count)
}
