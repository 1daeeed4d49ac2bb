//! Faults of the text of `--cuts`, in words.

use crate::shown::shown;
use std::alloc::{AllocError, Global};
use sw_lang::parse_cuts;
use sw_rows::{Refusal, Schema};

/// Whether a text of cuts is refused.
fn is_refused(alloc: Global, schema: &Schema, cuts: &str) -> Result<bool, AllocError> {
    match parse_cuts(alloc, schema, cuts) {
        Ok(_) => Ok(false),
        Err(Refusal::NoMemory) => Err(AllocError),
        Err(_) => Ok(true),
    }
}

/// What is wrong with a part of the text, of its number, from 1.
fn wrong_part(
    alloc: Global,
    schema: &Schema,
    number: usize,
    part: &str,
) -> Result<String, AllocError> {
    let names = names(alloc, schema)?;
    let part = shown(alloc, part.as_bytes())?;
    format!(in alloc;
        "--cuts, part {number}: {part} is refused, wanted name=value of {names}, each value a cell \
        of its column's kind and above those before it, at most 15 of a column\n"
    )
}

/// The names of the attributes that may be cut.
fn names(alloc: Global, schema: &Schema) -> Result<String, AllocError> {
    let mut text = String::new(alloc);
    for attr in 0..schema.len() {
        if attr < schema.len() && schema.kind(attr) != sw_rows::Kind::Text {
            if !text.is_empty() {
                text.push_str(", ")?;
            }
            text.push_str(schema.name(attr))?;
        }
    }
    Ok(text)
}

/// What is wrong with the text of `--cuts`: its first part with which it is refused. Nothing where it is not.
pub(crate) fn wrong_cuts(alloc: Global, schema: &Schema, cuts: &str) -> Result<String, AllocError> {
    let mut front = String::new(alloc);
    let mut number = 0usize;
    if cuts.is_empty() {
        return Ok(front);
    }
    for part in cuts.split(';') {
        if number > 0 {
            front.push_str(";")?;
        }
        front.push_str(part)?;
        number = number.saturating_add(1);
        if is_refused(alloc, schema, front.as_str())? {
            return wrong_part(alloc, schema, number, part);
        }
    }
    Ok(String::new(alloc))
}
