//! Calls as they are given.

ghost use Rattle.std.specs.Prelude.{◌≡◌, nat_lt, IfOk};
ghost use Rattle.std.specs.List.{list_all};
ghost use Rattle.sw_lang.specs.Fits.{FitsCall, FitsQuery};
ghost use Rattle.sw_arrays.specs.Asked.{Answers, are_names, call_asked, delete_asked, names_in, number_in, query_in, want_in};

use crate::cells::row_of;
use crate::range::{Fault, Range, conds_of};
use std::alloc::Global;
use sw_rows::{Call, Conds, Kind, Names, Query, Schema, Want};

/// What is wanted of rows, by numbers of attributes.
#[derive(Clone, Copy)]
pub enum Wanted<'a> {
    Rows(&'a [u64]),
    Count,
    Sum(u64),
    Min(u64),
    Max(u64),
}

/// A call as numbers.
#[derive(Clone, Copy)]
pub enum Asked<'a> {
    Select(Wanted<'a>, &'a [Range]),
    Insert(&'a [i64]),
    Delete(u64),
    DeleteWhere(&'a [Range]),
}

/// Whether all are below a number.
fn are_below(attributes: &[u64], columns: u64) -> bool
    ensures { result ≡ list_all (λ a. nat_lt a columns) attributes.now }
{
    attributes.iter().all(|a| *a < columns)
}

/// Whether these are attributes of the table, 1 to 8.
fn are_names(schema: &Schema, attributes: &[u64]) -> bool
    ensures { result ≡ are_names schema.now attributes.now }
{
    let columns = schema.len() as u64;
    1 <= attributes.len() && attributes.len() <= 8 && are_below(attributes, columns)
}

/// Attributes of the table, 1 to 8.
fn names_of(alloc: Global, schema: &Schema, attributes: &[u64]) -> Result<Names, Fault>
    ensures { Answers (λ names. names) result (names_in schema.now attributes.now) }
{
    if !are_names(schema, attributes) {
        return Err(Fault::NoAttribute);
    }
    let mut names = Names::new(alloc);
    for attribute in attributes {
        if names.push(*attribute as usize).is_err() {
            return Err(Fault::NoMemory);
        }
    }
    Ok(names)
}

/// An attribute of the table whose cells are numbers or flags.
fn number_of(schema: &Schema, attribute: u64) -> Result<usize, Fault>
    ensures { result ≡ number_in schema.now attribute }
{
    let attr = attribute as usize;
    if attr >= schema.len() {
        return Err(Fault::NoAttribute);
    }
    match schema.kind(attr) {
        Kind::Text => Err(Fault::NoAttribute),
        Kind::Int | Kind::Fix(_) | Kind::Flag => Ok(attr),
    }
}

fn want_of(alloc: Global, schema: &Schema, wanted: Wanted<'_>) -> Result<Want, Fault>
    ensures { Answers (λ want. want) result (want_in schema.now wanted.entry) }
{
    match wanted {
        Wanted::Rows(attributes) => match names_of(alloc, schema, attributes) {
            Ok(names) => Ok(Want::Rows(names)),
            Err(fault) => Err(fault),
        },
        Wanted::Count => Ok(Want::Count),
        Wanted::Sum(attribute) => match number_of(schema, attribute) {
            Ok(attr) => Ok(Want::Sum(attr)),
            Err(fault) => Err(fault),
        },
        Wanted::Min(attribute) => match number_of(schema, attribute) {
            Ok(attr) => Ok(Want::Min(attr)),
            Err(fault) => Err(fault),
        },
        Wanted::Max(attribute) => match number_of(schema, attribute) {
            Ok(attr) => Ok(Want::Max(attr)),
            Err(fault) => Err(fault),
        },
    }
}

/// The query that numbers ask for. It fits the table as that of a line does.
pub fn query_of(
    alloc: Global,
    schema: &Schema,
    wanted: Wanted<'_>,
    ranges: &[Range],
) -> Result<Query, Fault>
    ensures answers { Answers (λ query. query) result (query_in schema.now wanted.entry ranges.now) }
    ensures fits { IfOk result (FitsQuery schema.now) }
{
    let want = match want_of(alloc, schema, wanted) {
        Ok(want) => want,
        Err(fault) => return Err(fault),
    };
    let conds = match conds_of(alloc, schema, ranges) {
        Ok(conds) => conds,
        Err(fault) => return Err(fault),
    };
    Ok(Query { conds, want })
}

/// Conditions, one at least.
fn deleted(alloc: Global, schema: &Schema, ranges: &[Range]) -> Result<Conds, Fault>
    ensures { Answers (λ conds. conds) result (delete_asked schema.now ranges.now) }
{
    if ranges.is_empty() {
        return Err(Fault::BadCondition);
    }
    match conds_of(alloc, schema, ranges) {
        Ok(conds) => Ok(conds),
        Err(fault) => Err(fault),
    }
}

/// The call that numbers ask for. It fits the table as the call of a line does.
pub fn call_of(alloc: Global, schema: &Schema, asked: Asked<'_>) -> Result<Call, Fault>
    ensures answers { Answers (λ call. call) result (call_asked schema.now asked.entry) }
    ensures fits { IfOk result (FitsCall schema.now) }
{
    match asked {
        Asked::Select(wanted, ranges) => match query_of(alloc, schema, wanted, ranges) {
            Ok(query) => Ok(Call::Select(query)),
            Err(fault) => Err(fault),
        },
        Asked::Insert(cells) => match row_of(schema, cells) {
            Ok(row) => Ok(Call::Insert(row)),
            Err(fault) => Err(fault),
        },
        Asked::Delete(key) => Ok(Call::Delete(key)),
        Asked::DeleteWhere(ranges) => match deleted(alloc, schema, ranges) {
            Ok(conds) => Ok(Call::DeleteWhere(conds)),
            Err(fault) => Err(fault),
        },
    }
}
