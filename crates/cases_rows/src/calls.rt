//! Lines of a script, conditions and cuts.

use crate::sinks::Slow;
use crate::told::{held, text_of};
use std::alloc::{AllocError, Global};
use sw_lang::{Cuts, parse_cuts, parse_line, write_call};
use sw_rows::{Call, Cond, Conds, Query, Refusal, Schema, Want};
use test_words::place;

/// Adds numbers, each after a blank.
fn push_numbers(alloc: Global, text: &mut String, numbers: &[usize]) -> Result<(), AllocError> {
    for number in numbers {
        let one = format!(in alloc; " {number}")?;
        text.push_str(one.as_str())?;
    }
    Ok(())
}

/// What a query wants.
fn wanted(alloc: Global, want: &Want) -> Result<String, AllocError> {
    match want {
        Want::Rows(names) => {
            let mut text = format!(in alloc; "{} names:", names.len())?;
            push_numbers(alloc, &mut text, names.as_slice())?;
            Ok(text)
        }
        Want::Count => String::from_str(alloc, "count"),
        Want::Sum(attr) => format!(in alloc; "sum {attr}"),
        Want::Min(attr) => format!(in alloc; "min {attr}"),
        Want::Max(attr) => format!(in alloc; "max {attr}"),
    }
}

/// Adds conditions, each with its attribute's number and its two bounds.
fn push_conds(alloc: Global, text: &mut String, conds: &[Cond]) -> Result<(), AllocError> {
    for cond in conds {
        let one = format!(in alloc; " | {} {:?} {:?}", cond.attr, cond.lower, cond.upper)?;
        text.push_str(one.as_str())?;
    }
    Ok(())
}

fn query_parts(alloc: Global, query: &Query) -> Result<String, AllocError> {
    let mut text = wanted(alloc, &query.want)?;
    push_conds(alloc, &mut text, query.conds.as_slice())?;
    Ok(text)
}

fn deletion_parts(alloc: Global, conds: &Conds) -> Result<String, AllocError> {
    let mut text = String::from_str(alloc, "delete")?;
    push_conds(alloc, &mut text, conds.as_slice())?;
    Ok(text)
}

fn call_parts(alloc: Global, call: &Call) -> Result<String, AllocError> {
    match call {
        Call::Select(query) => query_parts(alloc, query),
        Call::Insert(cells) => format!(in alloc; "insert {cells:?}"),
        Call::Delete(key) => format!(in alloc; "delete {key}"),
        Call::DeleteWhere(conds) => deletion_parts(alloc, conds),
    }
}

/// The call of line 7, in its parts.
pub(crate) fn parts(alloc: Global, schema: &mut Schema, text: &str) -> Result<String, Refusal> {
    match parse_line(alloc, schema, 7, text)? {
        Some(call) => held(call_parts(alloc, &call)),
        None => held(String::from_str(alloc, "none")),
    }
}

/// The text that is printed of a call, as a sink takes it that takes three bytes at a time.
fn print_call(alloc: Global, schema: &Schema, call: &Call) -> Result<String, Refusal> {
    let mut out = Slow::counted(alloc, 3, 0);
    write_call(schema, call, &mut out)?;
    text_of(alloc, out.inner.bytes.as_slice())
}

/// The call of a line, printed.
pub(crate) fn printed(alloc: Global, schema: &mut Schema, text: &str) -> Result<String, Refusal> {
    match parse_line(alloc, schema, 7, text)? {
        Some(call) => print_call(alloc, schema, &call),
        None => Ok(String::new(alloc)),
    }
}

/// The conditions of a line's query, none of another line.
fn conds_of(alloc: Global, schema: &mut Schema, text: &str) -> Result<Conds, Refusal> {
    match parse_line(alloc, schema, 7, text)? {
        Some(Call::Select(query)) => Ok(query.conds),
        _ => Ok(Conds::new(alloc)),
    }
}

/// The place of the first condition on an attribute.
pub(crate) fn place_of(
    alloc: Global,
    schema: &mut Schema,
    attr: &str,
    text: &str,
) -> Result<String, Refusal> {
    let conds = conds_of(alloc, schema, text)?;
    held(format!(in alloc; "{:?}", conds.place_of(place(attr))))
}

/// Puts a condition without bounds on attribute 7 in the place of the first.
fn exchange_first(conds: &mut Conds) {
    if !conds.as_slice().is_empty() {
        let cond = Cond {
            attr: 7,
            lower: None,
            upper: None,
        };
        conds.set(0, cond);
    }
}

/// Where the condition on attribute 7 stands, and all conditions.
fn seventh(alloc: Global, conds: &Conds) -> Result<String, AllocError> {
    let mut told = format!(in alloc; "{:?}", conds.place_of(7))?;
    push_conds(alloc, &mut told, conds.as_slice())?;
    Ok(told)
}

/// The conditions once the first of them is exchanged for one without bounds on attribute 7, and the place of that.
pub(crate) fn exchanged(alloc: Global, schema: &mut Schema, text: &str) -> Result<String, Refusal> {
    let mut conds = conds_of(alloc, schema, text)?;
    exchange_first(&mut conds);
    held(seventh(alloc, &conds))
}

fn cuts_parts(alloc: Global, cuts: &Cuts) -> Result<String, AllocError> {
    let mut text = format!(in alloc; "{} lists:", cuts.len())?;
    for attr in 0..cuts.len() {
        let one = format!(in alloc; " {:?}", cuts.of(attr))?;
        text.push_str(one.as_str())?;
    }
    Ok(text)
}

/// The cuts of a text, a list for each attribute.
pub(crate) fn cuts(alloc: Global, schema: &Schema, text: &str) -> Result<String, Refusal> {
    let cuts = parse_cuts(alloc, schema, text)?;
    held(cuts_parts(alloc, &cuts))
}
