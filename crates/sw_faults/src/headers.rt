//! The header of a table, and what is wrong with one.

use crate::records::unmarked;
use crate::shown::shown;
use csv::ByteRecord;
use std::alloc::{AllocError, Global};
use sw_rows::{MOST_NAME, Refusal, Schema, TextKey, is_name};

/// The fields of a header as texts; those that are none are empty, which no name is.
fn fields_of<'r>(alloc: Global, header: &'r ByteRecord) -> Result<Vec<&'r str>, AllocError> {
    let mut fields = Vec::new(alloc);
    for place in 0..header.len() {
        let field = match header.get(place) {
            Some(field) => field,
            None => &[],
        };
        fields.push(str::from_utf8(field).ok().unwrap_or(""))?;
    }
    Ok(fields)
}

/// The attributes of a header; the inner refusal is that of the header.
pub(crate) fn schema_of(
    alloc: Global,
    key: TextKey,
    header: &ByteRecord,
) -> Result<Result<Schema, Refusal>, AllocError> {
    let fields = fields_of(alloc, header)?;
    match Schema::of(alloc, key, fields.as_slice()) {
        Err(Refusal::NoMemory) => Err(AllocError),
        read => Ok(read),
    }
}

/// The name and the kind of a field of a header, as they stand there.
fn parts(field: &[u8]) -> (&[u8], Option<&[u8]>) {
    let name = field.iter().take_while(|byte| **byte != b':').count();
    match field.split_at_checked(name) {
        Some((name, rest)) => match rest.split_first() {
            Some((_, kind)) => (name, Some(kind)),
            None => (name, None),
        },
        None => (field, None),
    }
}

/// Whether a field of a header leaves its kind out.
pub(crate) fn has_no_kind(field: &[u8]) -> bool {
    parts(field).1.is_none()
}

/// Whether some bytes are a kind.
fn is_kind(word: &[u8]) -> bool {
    matches!(
        word,
        b"int" | b"flag" | b"text" | b"fix1" | b"fix2" | b"fix3" | b"fix4" | b"fix5" | b"fix6"
    )
}

/// How many columns a table has at most.
pub const MOST_COLUMNS: usize = 8;

/// Whether a text begins as a table does whose header has a kind with each name.
pub fn has_kinds(text: &[u8]) -> bool {
    let text = unmarked(text);
    let end = text
        .iter()
        .take_while(|byte| **byte != b'\n' && **byte != b'\r')
        .count();
    let mut rest = text.get(..end).unwrap_or_default();
    for _ in 0..MOST_COLUMNS {
        let many = rest.iter().take_while(|byte| **byte != b',').count();
        let Some((field, more)) = rest.split_at_checked(many) else {
            return false;
        };
        if !is_column(field) {
            return false;
        }
        match more.split_first() {
            Some((_, more)) => rest = more,
            None => return true,
        }
    }
    false
}

/// Whether a field of a header is a name with a kind.
fn is_column(field: &[u8]) -> bool {
    match parts(field) {
        (name, Some(kind)) => is_name(name) && is_kind(kind),
        _ => false,
    }
}

/// The first byte of a name that none has there.
fn bad_byte(name: &[u8]) -> Option<u8> {
    name.iter()
        .copied()
        .find(|byte| !byte.is_ascii_alphanumeric() && *byte != b'_')
}

/// What is wrong with bytes that are no name.
fn wrong_name(alloc: Global, name: &[u8]) -> Result<String, AllocError> {
    let Some(first) = name.first() else {
        return String::from_str(alloc, "a column without a name");
    };
    if let Some(byte) = bad_byte(name) {
        let byte = shown(alloc, &[byte])?;
        return format!(in alloc; "{byte} stands in a name, which has letters, digits and _");
    }
    if first.is_ascii_digit() {
        return String::from_str(alloc, "a name begins with a digit");
    }
    if name.len() > MOST_NAME {
        return format!(in alloc; "{} bytes, a name has at most {MOST_NAME}", name.len());
    }
    String::from_str(alloc, "a word of the language is no name")
}

/// How a name is had of a heading that is none.
const NAMES: &str = "sideways import makes names of headings";

/// What is told of a header that begins as comments do.
const COMMENT: &str = "a table has no comments, and sed '/^#/d' takes such lines out";

/// What is wrong with a field of a header that is none, or whose name stands before it, and the field.
pub(crate) fn wrong(alloc: Global, field: &[u8]) -> Result<String, AllocError> {
    let (name, kind) = parts(field);
    let field = shown(alloc, field)?;
    match kind {
        Some(kind) if !is_kind(kind) => {
            format!(in alloc; "an unknown kind, wanted int, fix1 to fix6, flag or text: {field}")
        }
        _ if is_name(name) => format!(in alloc; "a name that stands twice: {field}; {NAMES}"),
        _ => {
            let what = wrong_name(alloc, name)?;
            let more = if name.first() == Some(&b'#') {
                COMMENT
            } else {
                NAMES
            };
            format!(in alloc; "{what}: {field}; {more}")
        }
    }
}
