//! What is wrong with a cell.

ghost use Rattle.sw_rows.specs.Cells.{HasPlaces};

use crate::shown::shown;
use std::alloc::{AllocError, Global};
use sw_rows::{Kind, MOST_BYTES_OF_TEXT, MOST_NUMBER, read_cell_bytes, read_text};

/// What is told besides of a cell whose attribute has its kind by none being named.
pub(crate) const BARE: &str = "; a name without a kind is an int; sideways import finds kinds";

/// Whether a field is a cell of a kind.
pub(crate) fn is_cell(kind: Kind, field: &[u8]) -> bool
    requires { HasPlaces kind }
{
    match kind {
        Kind::Text => read_text(field).is_some(),
        _ => read_cell_bytes(kind, field).is_some(),
    }
}

/// The decimals that a kind has room for.
fn places_of(kind: Kind) -> u8 {
    match kind {
        Kind::Fix(places) => places,
        _ => 0,
    }
}

/// A number's text without its sign.
fn unsigned(field: &[u8]) -> &[u8] {
    match field.split_first() {
        Some((b'+' | b'-', rest)) => rest,
        _ => field,
    }
}

/// Whether all of some bytes, of which there are some, are digits.
fn are_digits(bytes: &[u8]) -> bool {
    !bytes.is_empty() && bytes.iter().all(|byte| byte.is_ascii_digit())
}

/// The parts of a number's text before and behind its first dot.
fn parts(text: &[u8]) -> (&[u8], Option<&[u8]>) {
    let whole = text.iter().take_while(|byte| **byte != b'.').count();
    match text.split_at_checked(whole) {
        Some((whole, rest)) => match rest.split_first() {
            Some((_, decimals)) => (whole, Some(decimals)),
            None => (whole, None),
        },
        None => (text, None),
    }
}

/// How many decimals a number's text has, if it is one but for their number and its size.
fn decimals_of(field: &[u8]) -> Option<usize> {
    let (whole, decimals) = parts(unsigned(field));
    match decimals {
        None if are_digits(whole) => Some(0),
        Some(decimals) if are_digits(whole) && are_digits(decimals) => Some(decimals.len()),
        _ => None,
    }
}

/// What is wanted of a number of a kind.
fn wanted_number(kind: Kind) -> &'static str {
    match kind {
        Kind::Fix(1) => "a number with at most 1 decimal",
        Kind::Fix(2) => "a number with at most 2 decimals",
        Kind::Fix(3) => "a number with at most 3 decimals",
        Kind::Fix(4) => "a number with at most 4 decimals",
        Kind::Fix(5) => "a number with at most 5 decimals",
        Kind::Fix(_) => "a number with at most 6 decimals",
        _ => "a whole number",
    }
}

/// What is wrong with the field of a number.
fn wrong_number(alloc: Global, kind: Kind, field: &[u8]) -> Result<String, AllocError> {
    if field.is_empty() {
        return format!(in alloc; "empty, wanted {}", wanted_number(kind));
    }
    if field.len() > MOST_NUMBER {
        return format!(in alloc; "{} bytes, a number has at most {MOST_NUMBER}", field.len());
    }
    match decimals_of(field) {
        Some(1) if places_of(kind) == 0 => {
            format!(in alloc; "1 decimal, wanted {}", wanted_number(kind))
        }
        Some(found) if found > usize::from(places_of(kind)) => {
            format!(in alloc; "{found} decimals, wanted {}", wanted_number(kind))
        }
        Some(_) => String::from_str(alloc, "does not fit 64 bits"),
        None => format!(in alloc; "not a number, wanted {}", wanted_number(kind)),
    }
}

/// What is wrong with the field of a text.
fn wrong_text(alloc: Global, field: &[u8]) -> Result<String, AllocError> {
    if field.len() > MOST_BYTES_OF_TEXT {
        return format!(in alloc; "{} bytes, at most {MOST_BYTES_OF_TEXT}", field.len());
    }
    match field.iter().position(|byte| *byte < 32 || *byte == 127) {
        Some(place) => {
            let place = place.saturating_add(1);
            format!(in alloc; "byte {place} is a control byte, which no text has")
        }
        None => String::from_str(alloc, "not UTF-8"),
    }
}

/// What is wrong with a field that is no cell of a kind, and the field.
pub(crate) fn wrong(alloc: Global, kind: Kind, field: &[u8]) -> Result<String, AllocError> {
    let what = match kind {
        Kind::Text => wrong_text(alloc, field)?,
        Kind::Flag => String::from_str(alloc, "neither true nor false")?,
        Kind::Int | Kind::Fix(_) => wrong_number(alloc, kind, field)?,
    };
    let field = shown(alloc, field)?;
    format!(in alloc; "{what}: {field}")
}
