//! Conditions as they are given.

ghost use Rattle.std.specs.Prelude.{◌≡◌, []};
ghost use Rattle.sw_rows.specs.Domains.{is_of_texts};
ghost use Rattle.sw_lang.specs.Replies.{kind_at};
ghost use Rattle.sw_arrays.specs.Asked.{Answers, bound_of, cond_after, cond_in, conds_after, is_bound_on, is_held, is_one_text, is_range};

use crate::cells::is_cell;
use std::alloc::Global;
use sw_rows::{Bound, Cond, Conds, Kind, Schema};

/// Why numbers are no call.
#[derive(Clone, Copy, Debug, PartialEq, Eq)]
pub enum Fault {
    /// A growth was refused.
    NoMemory,
    /// An attribute is none of the table, or is of texts where numbers are wanted; or none or more than 8 are asked for.
    NoAttribute,
    /// A condition has no bound, or one of an unknown kind, or bounds that are none of its attribute's kind; or an earlier
    /// condition is on its attribute.
    BadCondition,
    /// A cell is none of its attribute's kind, or there are more or fewer than attributes.
    BadCell,
}

/// A condition as numbers: the kind of a bound is 0 of none, 1 of one before its value, 2 of one after it.
#[repr(C)]
#[derive(Clone, Copy)]
pub struct Range {
    pub attribute: u64,
    pub lower: i64,
    pub upper: i64,
    pub lower_kind: u32,
    pub upper_kind: u32,
}

/// The bound of a kind, if it has one.
fn bound_of(kind: u32, value: i64) -> Option<Bound>
    ensures { result ≡ bound_of kind value }
{
    match kind {
        1 => Some(Bound::Before(value)),
        2 => Some(Bound::After(value)),
        _ => None,
    }
}

fn cond_in(range: &Range) -> Cond
    ensures { result ≡ cond_in range.now }
{
    Cond {
        attr: range.attribute as usize,
        lower: bound_of(range.lower_kind, range.lower),
        upper: bound_of(range.upper_kind, range.upper),
    }
}

/// Whether there is no bound, or one of a known kind at a cell of the attribute's.
fn is_bound_on(schema: &Schema, attr: usize, kind: u32, value: i64) -> bool
    ensures { result ≡ is_bound_on (kind_at schema.now attr) kind value }
{
    kind == 0 || (kind <= 2 && is_cell(schema, attr, value))
}

/// Whether an attribute of the table is of texts.
fn is_of_texts(schema: &Schema, attr: usize) -> bool
    ensures { result ≡ is_of_texts (kind_at schema.now attr) }
{
    if attr >= schema.len() {
        return false;
    }
    matches!(schema.kind(attr), Kind::Text)
}

/// Whether the bounds are those of one text.
fn is_one_text(range: &Range) -> bool
    ensures { result ≡ is_one_text range.now }
{
    range.lower_kind == 1
        && range.upper_kind == 2
        && !(range.lower < range.upper)
        && !(range.upper < range.lower)
}

fn is_range(schema: &Schema, attr: usize, range: &Range) -> bool
    ensures { result ≡ is_range (kind_at schema.now attr) range.now }
{
    is_bound_on(schema, attr, range.lower_kind, range.lower)
        && is_bound_on(schema, attr, range.upper_kind, range.upper)
        && !(range.lower_kind == 0 && range.upper_kind == 0)
        && (!is_of_texts(schema, attr) || is_one_text(range))
}

/// Whether a condition is on an attribute.
fn is_held(conds: &Conds, attr: usize) -> bool
    ensures { result ≡ is_held conds.now attr }
{
    conds.as_slice().iter().any(|c| c.attr == attr)
}

/// The condition of a range after others.
fn cond_after(schema: &Schema, conds: &Conds, range: &Range) -> Result<Cond, Fault>
    ensures { result ≡ cond_after schema.now conds.now range.now }
{
    let attr = range.attribute as usize;
    if attr >= schema.len() {
        return Err(Fault::NoAttribute);
    }
    if is_held(conds, attr) || !is_range(schema, attr, range) {
        return Err(Fault::BadCondition);
    }
    Ok(cond_in(range))
}

/// The conditions of ranges, each on an attribute of its own.
#[tactic(auto, using(crate::proofs::Steps::cond_goes, crate::proofs::Steps::cond_ends, crate::proofs::Steps::conds_done))]
pub fn conds_of(alloc: Global, schema: &Schema, ranges: &[Range]) -> Result<Conds, Fault>
    ensures { Answers (λ conds. conds) result (conds_after schema.now [] ranges.now) }
{
    let mut conds = Conds::new(alloc);
    for range in ranges {
        let cond = match cond_after(schema, &conds, range) {
            Ok(cond) => cond,
            Err(fault) => return Err(fault),
        };
        if conds.push(cond).is_err() {
            return Err(Fault::NoMemory);
        }
    }
    Ok(conds)
}
