//! A table with attributes of texts that is read in parts, each by a thread of its own and with texts of its own.

ghost use Rattle.std.specs.Prelude.{◌≡◌, ◌<◌, true, length, map, Ok, IfSome};
ghost use Rattle.std.specs.Thread.{IsSync};
ghost use Rattle.csv.specs.Reading.{default_config, records};
ghost use Rattle.sw_rows.specs.Header.{has_texts, kinds_of};
ghost use Rattle.sw_rows.specs.Parts.{AreCodes, IsKnownQuoteless, IsPart, MayBeRead, IsRead, begins_plain, row_exchanged, JoinsParts};
ghost use Rattle.sw_rows.specs.Tables.{shown_packed, table_seeing};
ghost use Rattle.sw_rows.specs.Texts.{with_texts};

use crate::kind::Kind;
use crate::loading::cuts::{Cuts, LEAST_HALVED, cut};
use crate::loading::parts::{append, no_rows_of};
use crate::schema::texts::{MOST_TEXTS, Texts, cell_of};
use crate::schema::{Columns, Schema};
use crate::table::read_rows;
use crate::table::records::Records;
use std::alloc::Global;
use std::thread::{Threads, join};
use sw_table::PackedRows;

/// The rows of a part, and the texts of their cells.
#[derive(Drop)]
pub(crate) struct Part {
    rows: PackedRows,
    texts: Texts,
}

/// Reads a part, where it is not refused.
fn read_part(alloc: Global, columns: &Columns, part: &[u8], parts: usize) -> Option<Part>
    requires plain { begins_plain part.now ≡ true }
    requires some { 0 < length columns.now }
    ensures { IfSome result (IsRead columns.now part.now) }
{
    let mut texts = columns.no_texts(alloc);
    let mut records = Records::of(alloc, part);
    let none = no_rows_of(alloc, columns, part, parts);
    match read_rows(alloc, none, columns, &mut texts, &mut records) {
        Ok(rows) => Some(Part { rows, texts }),
        Err(_) => None,
    }
}

/// Adds texts, and tells the code of each, where all find room.
fn add_texts(alloc: Global, texts: &mut Texts, more: &Texts) -> Option<Vec<i64>>
    ensures texts { IfSome result (λ _. texts.new ≡ with_texts texts.old more.now) }
    ensures codes { IfSome result (λ codes. AreCodes more.now texts.new codes.items) }
{
    let mut codes = Vec::new(alloc);
    for place in 0..more.len() {
        let Some(text) = more.text(place as u64 + 1) else {
            unreachable!()
        };
        let Ok(code) = texts.add_one_of(text, more.len()) else {
            return None;
        };
        if codes.push(cell_of(code)).is_err() {
            return None;
        }
    }
    Some(codes)
}

/// Exchanges the cells of all attributes of texts for other codes.
fn exchange_texts(columns: &Columns, rows: &mut PackedRows, codes: &[i64])
    requires { rows.old.width ≡ length columns.now }
    ensures { rows.new
        ≡ record rows.old { items = map (row_exchanged (kinds_of columns.now) codes.now) rows.old.items } }
{
    for attr in 0..columns.len() {
        if let Kind::Text = columns.kind(attr) {
            rows.exchange(attr, codes);
        }
    }
}

/// One part of two, where both together are not too much. The texts of the second are added to those of the first, and
/// its cells get their codes there.
fn joined(alloc: Global, columns: &Columns, first: Part, rest: Part) -> Option<Part>
    requires first { IsPart (length columns.now) first.rows }
    requires rest { IsPart (length columns.now) rest.rows }
    ensures { JoinsParts columns.now first rest result }
{
    let Part {
        mut rows,
        mut texts,
    } = first;
    let Part {
        rows: mut more,
        texts: others,
    } = rest;
    // a part that has as many texts as there may be may have left some out
    if others.len() as u64 >= MOST_TEXTS {
        return None;
    }
    let codes = add_texts(alloc, &mut texts, &others)?;
    exchange_texts(columns, &mut more, &codes);
    match append(&mut rows, &more) {
        Ok(()) => Some(Part { rows, texts }),
        Err(_) => None,
    }
}

/// Reads a part, halved so many times, in a thread for each half, where it is not refused.
#[cycle(text_halves)]
fn read_halves<R: Threads + Sync>(
    rt: &R,
    alloc: Global,
    columns: &Columns,
    part: &[u8],
    cuts: Cuts,
) -> Option<Part>
    requires plain { begins_plain part.now ≡ true }
    requires known { IsKnownQuoteless cuts.is_quoteless part.now }
    requires some { 0 < length columns.now }
    ensures { IfSome result (IsRead columns.now part.now) }
{
    if cuts.halvings == 0 || part.len() < LEAST_HALVED {
        return read_part(alloc, columns, part, cuts.parts);
    }
    let Some(at) = cut(part, part.len() / 2, cuts.is_quoteless) else {
        return read_part(alloc, columns, part, cuts.parts);
    };
    let (left, right) = part.split_at(at);
    let (left_cuts, right_cuts) = (cuts.of_first(), cuts.of_second());
    let (first, rest) = join(
        rt,
        || -> Option<Part>
            requires { IsSync R.row × MayBeRead left_cuts.is_quoteless columns.now left.now }
            ensures { IfSome result (IsRead columns.entry.now left.entry.now) }
        { read_halves(rt, alloc, columns, left, left_cuts) },
        || -> Option<Part>
            requires { IsSync R.row × MayBeRead right_cuts.is_quoteless columns.now right.now }
            ensures { IfSome result (IsRead columns.entry.now right.entry.now) }
        { read_halves(rt, alloc, columns, right, right_cuts) },
    );
    joined(alloc, columns, first?, rest?)
}

/// Reads the table of the records of `body` under these attributes, in parts, where no part is refused.
pub(crate) fn read_text_table<R: Threads + Sync>(
    rt: &R,
    alloc: Global,
    columns: Columns,
    body: &[u8],
    cuts: Cuts,
) -> Option<(Schema, PackedRows)>
    requires plain { begins_plain body.now ≡ true }
    requires known { IsKnownQuoteless cuts.is_quoteless body.now }
    requires some { 0 < length columns }
    requires texts { has_texts columns ≡ true }
    ensures gives { IfSome result (λ t. table_seeing columns (records default_config body.now) ≡ Ok (shown_packed t)) }
    ensures width { IfSome result (λ t. t.1.width ≡ length t.0) }
{
    let Part { rows, texts } = read_halves(rt, alloc, &columns, body, cuts)?;
    Some((columns.into_schema(texts), rows))
}
