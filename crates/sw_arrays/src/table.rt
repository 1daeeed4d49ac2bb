//! Tables of columns.

ghost use Rattle.std.specs.Prelude.{◌≡◌, ◌≤◌, ◌+◌, true, length, option_map, is_some, IfOk, IfSome};
ghost use Rattle.sw_rows.specs.Gives.{Gives};
ghost use Rattle.sw_rows.specs.Header.{has_texts, texts_of};
ghost use Rattle.sw_rows.specs.Tables.{shown_packed};
ghost use Rattle.sw_rows.specs.Texts.{code_of, is_text};
ghost use Rattle.sw_rows.specs.declared.table.TheConstants.{MOST_ROWS};
ghost use Rattle.sw_arrays.specs.Columns.{HaveCells, knowing, lacking_in, new_text, none_lacking, rows_in, table_in, text_between};

use crate::columns::{Cells, flat_cells, lacking_in};
use crate::header::{Attribute, columns_in, schema_of};
use std::alloc::{AllocError, Global};
use sw_rows::{MOST_ROWS, PackedRows, Refusal, Schema, TextKey, read_text};

/// A table as it is given: its attributes with their cells, how many rows there are, and the texts for which cells of texts
/// stand: their bytes, one behind the other, and where each ends. The first has the code 1.
#[repr(C)]
#[derive(Clone, Copy)]
pub struct Given<'a> {
    pub attributes: &'a [Attribute<'a>],
    pub rows: u64,
    pub texts: &'a [u8],
    pub ends: &'a [u64],
}

/// Whether a text is known.
#[tactic(auto, using(crate::proofs::Knows::code_some, crate::proofs::Knows::code_none))]
fn is_known(schema: &Schema, text: &str) -> bool
    ensures { result ≡ is_some (code_of (texts_of schema.now) text.now) }
{
    match schema.code(text) {
        Some(_) => true,
        None => false,
    }
}

/// The text of bytes, if they are one that attributes may know, and do not.
#[tactic(auto, using(crate::proofs::Knows::known_ends, crate::proofs::Knows::new_goes))]
fn new_text<'a>(schema: &Schema, bytes: &'a [u8]) -> Option<&'a str>
    ensures value { option_map (λ text. text.now) result ≡ new_text schema.now bytes.now }
    ensures may { IfSome result (λ text. (is_text text.now ≡ true) × (has_texts schema.now ≡ true)) }
{
    if !schema.has_texts() {
        return None;
    }
    let text = read_text(bytes)?;
    if is_known(schema, text) {
        return None;
    }
    Some(text)
}

/// The new text from one place to another, if there is one.
fn text_between<'a>(schema: &Schema, texts: &'a [u8], start: u64, end: u64) -> Option<&'a str>
    ensures value { option_map (λ text. text.now) result ≡ text_between schema.now texts.now start end }
    ensures may { IfSome result (λ text. (is_text text.now ≡ true) × (has_texts schema.now ≡ true)) }
{
    if start > end || end > texts.len() as u64 {
        return None;
    }
    new_text(schema, &texts[start as usize..end as usize])
}

/// Makes texts known, each of which ends at its place. A fault is one of the header, whose fields go on with the texts.
#[tactic(auto, using(crate::proofs::Knows::text_goes, crate::proofs::Knows::text_ends, crate::proofs::Knows::code_fails, crate::proofs::Knows::texts_done))]
fn know(schema: &mut Schema, texts: &[u8], ends: &[u64]) -> Result<(), Refusal>
    ensures { Gives ⊥ (λ done. schema.new) result (knowing (length schema.old + 1) texts.now 0 ends.now schema.old) }
{
    let columns = schema.len() as u64;
    let mut start = 0;
    for place in 0..ends.len() {
        let end = ends[place];
        let Some(text) = text_between(schema, texts, start, end) else {
            let field = columns + 1 + place as u64;
            return Err(Refusal::BadTable { rec: 0, field });
        };
        match schema.add_text(text) {
            Ok(_) => start = end,
            Err(e) => return Err(e),
        }
    }
    Ok(())
}

/// That columns lack no cell.
fn check(schema: &Schema, columns: &[Cells<'_>], many: usize) -> Result<(), Refusal>
    ensures { Gives ⊥ (λ done. done) result (none_lacking (lacking_in schema.now many 0 columns.now)) }
{
    match lacking_in(schema, columns, many) {
        Some(place) => Err(Refusal::BadTable {
            rec: place.row,
            field: place.column,
        }),
        None => Ok(()),
    }
}

/// The first rows of columns.
#[tactic(auto, using(crate::proofs::Rows::flat_long, crate::proofs::Rows::flat_rows))]
fn rows_in(alloc: Global, columns: &[Cells<'_>], many: usize) -> Result<PackedRows, AllocError>
    requires some { 1 ≤ length columns.now }
    requires most { length columns.now ≤ 8 }
    requires few { many ≤ MOST_ROWS }
    requires there { HaveCells many columns.now }
    ensures { IfOk result (λ p. p.items ≡ rows_in columns.now many) }
{
    let cells = flat_cells(alloc, columns, many)?;
    Ok(PackedRows::of_cells(columns.len(), many, cells))
}

/// The table of columns: its attributes and its rows.
///
/// Refused `BadTable` of record 0 at the first attribute that is none, or whose name an earlier one has; `TooMany` of more
/// attributes, rows or texts than there may be; `BadTable` of record 0 at the first text that is none, or known, or which no
/// attribute may have, counted on from the attributes; `BadTable` of the first row of the first column that has no cell of its
/// kind there; in this order. `NoMemory` comes at any time.
#[tactic(auto, using(crate::proofs::Rows::some_columns, crate::proofs::Rows::few_columns, crate::proofs::Rows::all_there))]
pub fn table_in(
    alloc: Global,
    key: TextKey,
    given: Given<'_>,
) -> Result<(Schema, PackedRows), Refusal>
    ensures { Gives ⊥ shown_packed result (table_in given.entry) }
{
    let mut schema = schema_of(alloc, key, given.attributes)?;
    if given.rows > MOST_ROWS {
        return Err(Refusal::TooMany { limit: MOST_ROWS });
    }
    know(&mut schema, given.texts, given.ends)?;
    let Ok(columns) = columns_in(alloc, given.attributes) else {
        return Err(Refusal::NoMemory);
    };
    let many = given.rows as usize;
    check(&schema, &columns, many)?;
    match rows_in(alloc, &columns, many) {
        Ok(rows) => Ok((schema, rows)),
        Err(_) => Err(Refusal::NoMemory),
    }
}
