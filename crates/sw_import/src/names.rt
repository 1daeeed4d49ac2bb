//! The names of attributes, which headings give.

ghost use Rattle.std.specs.Prelude.{◌≡◌, IfOk, IfSome, true};
ghost use Rattle.sw_rows.specs.Header.{is_name};

use crate::faults::{Fault, shown};
use std::alloc::{AllocError, Global};
use sw_rows::{MOST_NAME, Name, is_name};

/// How many numbers are tried after a name that another column has.
const MOST_TRIES: u32 = 99;

/// Adds a byte of a heading to a name: a letter, a digit or an underscore, or one underscore for a run of others.
fn push_byte(name: &mut Vec<u8>, byte: u8, is_after_other: bool) -> Result<bool, AllocError> {
    let is_other = !byte.is_ascii_alphanumeric() && byte != b'_';
    if !is_other {
        name.push(byte)?;
    } else if !is_after_other {
        name.push(b'_')?;
    }
    Ok(is_other)
}

/// The name of a heading: its letters, digits and underscores, and an underscore for each run of other bytes; before a
/// digit at the beginning another one; `column` where there is none.
fn plain_name(alloc: Global, heading: &[u8]) -> Result<Vec<u8>, AllocError> {
    let mut name = Vec::new(alloc);
    let mut is_after_other = false;
    match heading {
        [] => name.extend_from_slice(b"column")?,
        [b'0'..=b'9', ..] => name.push(b'_')?,
        _ => {}
    }
    for byte in heading {
        is_after_other = push_byte(&mut name, *byte, is_after_other)?;
    }
    Ok(name)
}

/// A name with a number after it, cut so that it is short enough; the first has none, and one that is a word of scripts
/// has an underscore after it.
fn numbered(alloc: Global, plain: &[u8], number: u32) -> Result<Vec<u8>, AllocError> {
    let mut after = String::new(alloc);
    if number > 1 {
        write!(after, "_{number}")?;
    } else if !is_name(&plain[..plain.len().min(MOST_NAME)]) {
        after.push('_')?;
    }
    let room = MOST_NAME.saturating_sub(after.len());
    let mut name = Vec::from_slice(alloc, &plain[..plain.len().min(room)])?;
    name.extend_from_slice(after.as_bytes())?;
    Ok(name)
}

/// Whether one of some names has these bytes.
fn is_taken(names: &[Name], name: &[u8]) -> bool {
    names.iter().any(|taken| taken.as_str().as_bytes() == name)
}

/// A name of these bytes, where they are one that no column has.
fn free_name(alloc: Global, names: &[Name], bytes: &[u8]) -> Result<Option<Name>, AllocError>
    ensures name { IfOk result (λ found. IfSome found (λ name. is_name name ≡ true)) }
    ensures same { IfOk result (λ found. IfSome found (λ name. name ≡ bytes.now)) }
{
    if !is_name(bytes) || is_taken(names, bytes) {
        return Ok(None);
    }
    match str::from_utf8(bytes) {
        Ok(text) => Ok(Some(Name::copied(alloc, text)?)),
        Err(_) => Ok(None),
    }
}

/// The name that a heading gives to a column beside others: where one of them has it, with the first number from 2 with
/// which none has it.
pub(crate) fn name_of(alloc: Global, names: &[Name], heading: &[u8]) -> Result<Name, Fault> {
    let plain = plain_name(alloc, heading)?;
    for number in 1..=MOST_TRIES {
        let bytes = numbered(alloc, plain.as_slice(), number)?;
        if let Some(name) = free_name(alloc, names, bytes.as_slice())? {
            return Ok(name);
        }
    }
    Err(Fault::NoName {
        name: shown(alloc, heading)?,
    })
}

/// A name that is asked for, of a column beside others.
pub(crate) fn name_asked(alloc: Global, names: &[Name], asked: &[u8]) -> Result<Name, Fault>
    ensures { IfOk result (λ name. name ≡ asked.now) }
{
    if let Some(name) = free_name(alloc, names, asked)? {
        return Ok(name);
    }
    let name = shown(alloc, asked)?;
    if is_name(asked) {
        Err(Fault::NameTwice { name })
    } else {
        Err(Fault::NoName { name })
    }
}
