//! A table that is read in parts, each by a thread of its own.

ghost use Rattle.std.specs.Prelude.{◌≡◌, ◌<◌, ◌≤◌, [], ℕ, Bool, true, false, length, Ok, IfOk, IfSome};
ghost use Rattle.std.specs.Thread.{IsSync};
ghost use Rattle.csv.specs.Reading.{is_bom, strip_bom};
ghost use Rattle.sw_rows.specs.Gives.{Gives};
ghost use Rattle.sw_rows.specs.Header.{has_texts};
ghost use Rattle.sw_rows.specs.Parts.{GivesRows, IsKnownQuoteless, IsPart, MayBeRead, begins_plain, rows_behind, rows_of_part, FailsBehind, GivesBoth, IsHeader};
ghost use Rattle.sw_rows.specs.Tables.{shown_packed, table_in};
ghost use Rattle.sw_rows.specs.declared.table.TheConstants.{MOST_ROWS};

use crate::loading::cuts::{
    Cuts, HALVINGS, LEAST_HALVED, PARTS, begins_plain, cut, has_no_quote_in_halves,
};
use crate::loading::fronts::long_at;
use crate::loading::text_parts::read_text_table;
use crate::schema::text_key::TextKey;
use crate::schema::{Columns, Schema, read_header};
use crate::table::numbered::NumberedRows;
use crate::table::records::Records;
use crate::table::{MOST_ROWS, no_rows, read_long, read_rows, read_whole};
use std::alloc::Global;
use std::thread::{Threads, join};
use sw_query::Refusal;
use sw_table::PackedRows;

/// How many bytes at the front of a part tell how long its lines are.
const FRONT: usize = 65_536;

/// How many rows a part has, by the lines at its front.
fn rows_about(part: &[u8]) -> usize {
    let front = &part[..part.len().min(FRONT)];
    let mut feeds = 0usize;
    for c in front {
        feeds = feeds.saturating_add((*c == b'\n') as usize);
    }
    feeds.saturating_mul(part.len() / FRONT + 1)
}

/// No rows yet, with room for those of about so many parts like this one, where there is memory for it: a page is taken
/// when it is filled.
pub(crate) fn no_rows_of(
    alloc: Global,
    columns: &Columns,
    part: &[u8],
    parts: usize,
) -> NumberedRows
    requires { 0 < length columns.now }
    ensures { result ≡ record { width = length columns.now; items = [] } }
{
    let mut rows = no_rows(alloc, columns);
    // without it the list grows as rows come
    let many = rows_about(part)
        .saturating_mul(parts)
        .min(MOST_ROWS as usize);
    rows.make_room(many);
    rows
}

/// Reads the rows of a part.
fn read_part(
    alloc: Global,
    columns: &Columns,
    part: &[u8],
    parts: usize,
) -> Result<PackedRows, Refusal>
    requires plain { begins_plain part.now ≡ true }
    requires numbers { has_texts columns.now ≡ false }
    requires some { 0 < length columns.now }
    ensures rows { GivesRows result (rows_of_part columns.now part.now) }
    ensures part { IfOk result (IsPart (length columns.now)) }
{
    let mut texts = columns.no_texts(alloc);
    let mut records = Records::of(alloc, part);
    let none = no_rows_of(alloc, columns, part, parts);
    read_rows(alloc, none, columns, &mut texts, &mut records)
}

/// Adds the rows of a part, of which each takes the number behind its own.
pub(crate) fn append(rows: &mut PackedRows, more: &PackedRows) -> Result<(), Refusal>
    requires few { length rows.old.items ≤ MOST_ROWS }
    requires more { IsPart rows.old.width more.now }
    ensures gives { Gives ⊥ (λ _. rows.new.items) result (rows_behind rows.old.items (Ok more.now.items)) }
    ensures width { rows.new.width ≡ rows.old.width }
{
    if (rows.len() + more.len()) as u64 > MOST_ROWS {
        return Err(Refusal::TooMany { limit: MOST_ROWS });
    }
    match rows.extend_behind(more) {
        Ok(()) => Ok(()),
        Err(_) => Err(Refusal::NoMemory),
    }
}

/// The refusal of a part that lies behind so many rows.
fn behind(count: u64, refusal: Refusal) -> Refusal
    requires { count ≤ MOST_ROWS }
    ensures { FailsBehind count refusal result }
{
    match refusal {
        Refusal::BadTable { rec, field } if rec <= MOST_ROWS - count => Refusal::BadTable {
            rec: count + rec,
            field,
        },
        Refusal::BadTable { rec: _, field: _ } | Refusal::TooMany { limit: _ } => {
            Refusal::TooMany { limit: MOST_ROWS }
        }
        // A part tells of nothing else but memory.
        _ => Refusal::NoMemory,
    }
}

/// The rows of two parts, or the first fault of both.
fn joined(
    first: Result<PackedRows, Refusal>,
    rest: Result<PackedRows, Refusal>,
) -> Result<PackedRows, Refusal>
    requires first { IfOk first (λ rows. IsPart rows.width rows) }
    requires rest { IfOk first (λ rows. IfOk rest (IsPart rows.width)) }
    ensures width { (n : ℕ) → IfOk first (IsPart n) → IfOk result (λ all. all.width ≡ n) }
    ensures gives { GivesBoth first rest result }
{
    let mut rows = match first {
        Ok(rows) => rows,
        Err(refusal) => return Err(refusal),
    };
    match rest {
        Ok(more) => match append(&mut rows, &more) {
            Ok(()) => Ok(rows),
            Err(refusal) => Err(refusal),
        },
        Err(refusal) => Err(behind(rows.len() as u64, refusal)),
    }
}

/// Reads the rows of a part, halved so many times, in a thread for each half.
#[cycle(halves)]
fn read_halves<R: Threads + Sync>(
    rt: &R,
    alloc: Global,
    columns: &Columns,
    part: &[u8],
    cuts: Cuts,
) -> Result<PackedRows, Refusal>
    requires plain { begins_plain part.now ≡ true }
    requires known { IsKnownQuoteless cuts.is_quoteless part.now }
    requires numbers { has_texts columns.now ≡ false }
    requires some { 0 < length columns.now }
    ensures rows { GivesRows result (rows_of_part columns.now part.now) }
    ensures part { IfOk result (IsPart (length columns.now)) }
{
    if cuts.halvings == 0 || part.len() < LEAST_HALVED {
        return read_part(alloc, columns, part, cuts.parts);
    }
    let Some(at) = cut(part, part.len() / 2, cuts.is_quoteless) else {
        return read_part(alloc, columns, part, cuts.parts);
    };
    let (left, right) = part.split_at(at);
    let (left_cuts, right_cuts) = (cuts.of_first(), cuts.of_second());
    let (first, rest) = join(
        rt,
        || -> Result<PackedRows, Refusal>
            requires { IsSync R.row × MayBeRead left_cuts.is_quoteless columns.now left.now × (has_texts columns.now ≡ false) }
            ensures rows { GivesRows result (rows_of_part columns.entry.now left.entry.now) }
            ensures part { IfOk result (IsPart (length columns.entry.now)) }
        { read_halves(rt, alloc, columns, left, left_cuts) },
        || -> Result<PackedRows, Refusal>
            requires { IsSync R.row × MayBeRead right_cuts.is_quoteless columns.now right.now × (has_texts columns.now ≡ false) }
            ensures rows { GivesRows result (rows_of_part columns.entry.now right.entry.now) }
            ensures part { IfOk result (IsPart (length columns.entry.now)) }
        { read_halves(rt, alloc, columns, right, right_cuts) },
    );
    joined(first, rest)
}

/// Whether three bytes are a byte order mark.
fn is_mark(a: u8, b: u8, c: u8) -> bool
    ensures { result ≡ is_bom a b c }
{
    a == 0xEF && b == 0xBB && c == 0xBF
}

/// The bytes without a byte order mark at their start.
#[tactic(auto, using(crate::proofs::Loads::CutLaws::short_bom, crate::proofs::Loads::CutLaws::no_bom, crate::proofs::Loads::CutLaws::one_bom))]
fn unmarked(bytes: &[u8]) -> &[u8]
    ensures rest { result.now ≡ strip_bom bytes.now }
    ensures quoteless { (known : Bool) → IsKnownQuoteless known bytes.now → IsKnownQuoteless known result.now }
{
    if bytes.len() < 3 {
        return bytes;
    }
    if !is_mark(bytes[0], bytes[1], bytes[2]) {
        return bytes;
    }
    let (_, rest) = bytes.split_at(3);
    rest
}

/// The attributes of bytes that are one record, where they are that and it is a header.
fn read_head(alloc: Global, key: TextKey, head: &[u8]) -> Option<Columns>
    requires { begins_plain head.now ≡ true }
    ensures head { IfSome result (IsHeader head.now) }
    ensures some { IfSome result (λ s. 0 < length s) }
{
    let mut records = Records::of(alloc, head);
    let Ok(true) = records.next() else {
        return None;
    };
    let Ok(columns) = read_header(alloc, key, &records.row) else {
        return None;
    };
    match records.next() {
        Ok(false) => Some(columns),
        _ => None,
    }
}

/// Reads the table that bytes spell, its rows in parts, each in a thread, where it is long.
fn read_parts<R: Threads + Sync>(
    rt: &R,
    alloc: Global,
    key: TextKey,
    bytes: &[u8],
    is_quoteless: bool,
) -> Result<(Schema, PackedRows), Refusal>
    requires known { IsKnownQuoteless is_quoteless bytes.now }
    ensures gives { Gives ⊥ shown_packed result (table_in bytes.now) }
    ensures width { IfOk result (λ t. t.1.width ≡ length t.0) }
{
    let text = unmarked(bytes);
    if !begins_plain(text) {
        return read_whole(alloc, key, bytes);
    }
    let Some(at) = cut(text, 0, is_quoteless) else {
        return read_whole(alloc, key, bytes);
    };
    let (head, body) = text.split_at(at);
    let cuts = Cuts {
        halvings: HALVINGS,
        parts: PARTS,
        is_quoteless,
    };
    let Some(columns) = read_head(alloc, key, head) else {
        return read_whole(alloc, key, bytes);
    };
    if columns.has_texts() {
        return match read_text_table(rt, alloc, columns, body, cuts) {
            Some(table) => Ok(table),
            // in sequence, which tells the first fault
            None => read_whole(alloc, key, bytes),
        };
    }
    match read_halves(rt, alloc, &columns, body, cuts) {
        Ok(rows) => {
            let texts = columns.no_texts(alloc);
            Ok((columns.into_schema(texts), rows))
        }
        Err(refusal) => Err(refusal),
    }
}

/// The same, and of a record of too many fields no more than is needed.
pub(crate) fn read_table_in_parts<R: Threads + Sync>(
    rt: &R,
    alloc: Global,
    key: TextKey,
    bytes: &[u8],
) -> Result<(Schema, PackedRows), Refusal>
    ensures gives { Gives ⊥ shown_packed result (table_in bytes.now) }
    ensures width { IfOk result (λ t. t.1.width ≡ length t.0) }
{
    let is_quoteless = has_no_quote_in_halves(rt, bytes, HALVINGS);
    match long_at(bytes, !is_quoteless) {
        Some(at) => read_long(alloc, key, bytes, at),
        None => read_parts(rt, alloc, key, bytes, is_quoteless),
    }
}
