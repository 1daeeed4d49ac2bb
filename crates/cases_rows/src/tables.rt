//! Tables, cells and limits of bytes.

use crate::sources::Faltering;
use crate::told::{held, or_refused, push_line};
use std::alloc::{AllocError, Global};
use sw_rows::{Counted, Refusal, Row, Schema, Source, TextKey, load, read_all, read_cell};
use test_words::{number, place, split};

/// The attributes of a table.
fn header(alloc: Global, schema: &Schema) -> Result<String, AllocError> {
    let mut text = String::new(alloc);
    for attr in 0..schema.len() {
        let name = schema.name(attr);
        let kind = schema.kind(attr);
        let one = format!(in alloc; " {name}:{kind:?}")?;
        text.push_str(one.as_str())?;
    }
    Ok(text)
}

/// A row of a table with so many attributes.
fn push_row(alloc: Global, text: &mut String, row: &Row, count: usize) -> Result<(), AllocError> {
    let key = format!(in alloc; " | {}:", row.key)?;
    text.push_str(key.as_str())?;
    for cell in row.cells.iter().take(count) {
        let one = format!(in alloc; " {cell}")?;
        text.push_str(one.as_str())?;
    }
    Ok(())
}

/// The attributes of a table, then its rows.
pub(crate) fn shown(alloc: Global, schema: &Schema, rows: &[Row]) -> Result<String, AllocError> {
    let mut text = header(alloc, schema)?;
    for row in rows {
        push_row(alloc, &mut text, row, schema.len())?;
    }
    Ok(text)
}

/// The table that a source gives, its rows as a plain list.
pub(crate) fn load_plain<R: Source>(
    alloc: Global,
    source: &mut R,
) -> Result<(Schema, Vec<Row>), Refusal> {
    let (schema, rows) = load(alloc, TextKey::fixed(), source)?;
    let rows = held(rows.to_rows(alloc))?;
    Ok((schema, rows))
}

/// The same, shown.
fn load_shown<R: Source>(alloc: Global, source: &mut R) -> Result<String, Refusal> {
    let (schema, rows) = load_plain(alloc, source)?;
    held(shown(alloc, &schema, rows.as_slice()))
}

/// The table of a text.
fn load_text(alloc: Global, text: &[u8]) -> Result<String, AllocError> {
    let mut source = Counted::new(text);
    or_refused(alloc, load_shown(alloc, &mut source))
}

/// The tables of a text's beginnings, a line each.
pub(crate) fn beginnings(alloc: Global, text: &[u8]) -> Result<String, AllocError> {
    let mut told = String::new(alloc);
    for kept in 0..text.len() {
        let table = load_text(alloc, &text[..kept])?;
        let line = format!(in alloc; "{kept}:{table}")?;
        push_line(&mut told, line.as_str())?;
    }
    Ok(told)
}

/// How many rows the table of a text has.
pub(crate) fn count(alloc: Global, text: &[u8]) -> Result<String, Refusal> {
    let mut source = Counted::new(text);
    let (_, rows) = load(alloc, TextKey::fixed(), &mut source)?;
    held(format!(in alloc; "{}", rows.len()))
}

/// How many bytes of a text are read under a limit.
pub(crate) fn within(alloc: Global, limit: &str, text: &[u8]) -> Result<String, Refusal> {
    let mut source = Counted::new(text);
    let bytes = read_all(alloc, &mut source, place(limit))?;
    held(format!(in alloc; "{}", bytes.len()))
}

/// The table of a text from a source that gives so many bytes at a time and fails at one read, and its failures.
fn load_faltering(
    alloc: Global,
    most: usize,
    fails_at: u64,
    text: &[u8],
) -> Result<(String, u64), AllocError> {
    let mut source = Counted::new(Faltering::new(text, most, fails_at));
    let told = or_refused(alloc, load_shown(alloc, &mut source))?;
    Ok((told, source.failures()))
}

/// The same for one read that fails, with the number of failures.
pub(crate) fn faltering(alloc: Global, args: &str, text: &[u8]) -> Result<String, AllocError> {
    let (most, fails_at) = split(args, ':');
    let (told, failures) = load_faltering(alloc, place(most), number(fails_at), text)?;
    format!(in alloc; "{failures} failures:{told}")
}

/// The same from a source that gives a byte at a time, for each read that fails and one more, a line each.
pub(crate) fn failing(alloc: Global, text: &[u8]) -> Result<String, AllocError> {
    let mut told = String::new(alloc);
    for before in 0..text.len() as u64 + 2 {
        let (table, failures) = load_faltering(alloc, 1, before + 1, text)?;
        let line = format!(in alloc; "{}: {failures} failures:{table}", before + 1)?;
        push_line(&mut told, line.as_str())?;
    }
    Ok(told)
}

/// A text as a cell of a kind.
pub(crate) fn cell(alloc: Global, kind: &str, text: &str) -> Result<String, Refusal> {
    let field = held(format!(in alloc; "x:{kind}"))?;
    let schema = Schema::of(alloc, TextKey::fixed(), &[field.as_str()])?;
    let found = read_cell(schema.kind(0), text);
    held(format!(in alloc; "{found:?}"))
}

fn push_field<'a>(fields: &mut Vec<&'a str>, field: &'a str) -> Result<(), AllocError> {
    fields.push(field)?;
    Ok(())
}

/// The attributes of a header whose fields stand with blanks between.
pub(crate) fn fields(alloc: Global, text: &str) -> Result<String, Refusal> {
    let mut fields = Vec::new(alloc);
    for field in text.split_whitespace() {
        held(push_field(&mut fields, field))?;
    }
    let schema = Schema::of(alloc, TextKey::fixed(), fields.as_slice())?;
    held(header(alloc, &schema))
}

/// The place of a name among a table's attributes.
pub(crate) fn find(alloc: Global, schema: &Schema, name: &str) -> Result<String, AllocError> {
    format!(in alloc; "{:?}", schema.find(name))
}
