//! The table that cases are about, and which case a line is.

use crate::told::{held, or_refused, text_of};
use crate::{calls, refusals, replies, sharing, sinks, tables};
use std::alloc::{AllocError, Global};
use sw_lang::parse_line;
use sw_rows::{Call, Counted, Refusal, Row, Schema, Update, has_key, update, update_all};
use test_words::{number, place, push_unescaped, split};

/// A table, and the updates that were made of it.
#[derive(Drop)]
struct Table {
    schema: Schema,
    rows: Vec<Row>,
    updates: Vec<Update>,
}

/// What the cases before left: a table, and bytes that the next text begins with.
#[derive(Drop)]
pub(crate) struct Bench {
    table: Option<Table>,
    before: Vec<u8>,
}

impl Bench {
    pub(crate) fn new(alloc: Global) -> Self {
        Bench {
            table: None,
            before: Vec::new(alloc),
        }
    }
}

fn load_table(alloc: Global, text: &[u8]) -> Result<Table, Refusal> {
    let (schema, rows) = tables::load_plain(alloc, &mut Counted::new(text))?;
    Ok(Table {
        schema,
        rows,
        updates: Vec::new(alloc),
    })
}

fn shown(alloc: Global, table: &Table) -> Result<String, Refusal> {
    held(tables::shown(alloc, &table.schema, table.rows.as_slice()))
}

/// Takes the table of a text, and shows it.
fn take_table(alloc: Global, bench: &mut Bench, text: &[u8]) -> Result<String, Refusal> {
    let table = load_table(alloc, text)?;
    let told = shown(alloc, &table)?;
    bench.table = Some(table);
    Ok(told)
}

/// The update of a line: the row of this key comes in, or a key goes.
fn update_of(alloc: Global, schema: &mut Schema, key: u64, text: &str) -> Result<Update, Refusal> {
    match parse_line(alloc, schema, 7, text)? {
        Some(Call::Insert(cells)) => Ok(Update::Insert(Row { key, cells })),
        Some(Call::Delete(key)) => Ok(Update::Remove(key)),
        _ => Ok(Update::Remove(0)),
    }
}

/// Makes an update of the rows, and keeps it.
fn change(table: &mut Table, one: Update) -> Result<(), AllocError> {
    update(&mut table.rows, one)?;
    table.updates.push(one)?;
    Ok(())
}

/// Makes the update of a line, and shows the table.
fn take_update(alloc: Global, table: &mut Table, key: &str, text: &str) -> Result<String, Refusal> {
    let one = update_of(alloc, &mut table.schema, number(key), text)?;
    held(change(table, one))?;
    shown(alloc, table)
}

/// The rows once the updates that were made are made again, all at once.
fn again(alloc: Global, table: &mut Table) -> Result<String, Refusal> {
    held(update_all(&mut table.rows, table.updates.as_slice()))?;
    shown(alloc, table)
}

/// A case that changes the table's rows.
fn of_rows(alloc: Global, table: &mut Table, args: &str, text: &str) -> Result<String, Refusal> {
    match args {
        "again" => again(alloc, table),
        key => take_update(alloc, table, key, text),
    }
}

/// A case of a table's attributes and a line.
fn of_line(
    alloc: Global,
    schema: &mut Schema,
    word: &str,
    args: &str,
    text: &str,
) -> Result<String, Refusal> {
    match word {
        "find" => held(tables::find(alloc, schema, text)),
        "line" => calls::parts(alloc, schema, text),
        "print" => calls::printed(alloc, schema, text),
        "place" => calls::place_of(alloc, schema, args, text),
        "exchange" => calls::exchanged(alloc, schema, text),
        "cuts" => calls::cuts(alloc, schema, text),
        "reply" => replies::of_update(alloc, schema, args, text),
        "row" => replies::of_row(alloc, schema, args, text),
        _ => held(String::from_str(alloc, "no case")),
    }
}

/// A case of a table.
fn of_table(
    alloc: Global,
    table: &mut Table,
    word: &str,
    args: &str,
    text: &str,
) -> Result<String, Refusal> {
    let Table { schema, rows, .. } = table;
    match word {
        "ask" => replies::asked(alloc, schema, rows.as_slice(), text),
        "keys" => replies::keys(alloc, schema, rows.as_slice(), text),
        "asksink" => replies::failing(alloc, schema, rows.as_slice(), args, text),
        "shared" => held(sharing::changed(alloc, schema, rows.as_slice(), args)),
        "has" => held(format!(in alloc; "{}", has_key(rows.as_slice(), number(text)))),
        _ => of_line(alloc, schema, word, args, text),
    }
}

/// A case of a text.
fn of_text(
    alloc: Global,
    bench: &mut Bench,
    word: &str,
    args: &str,
    text: &str,
) -> Result<String, Refusal> {
    match (word, &mut bench.table) {
        ("cell", _) => tables::cell(alloc, args, text),
        ("header", _) => tables::fields(alloc, text),
        ("update", Some(table)) => of_rows(alloc, table, args, text),
        (_, Some(table)) => of_table(alloc, table, word, args, text),
        (_, None) => held(String::from_str(alloc, "no table")),
    }
}

/// A case of bytes.
fn of_bytes(
    alloc: Global,
    bench: &mut Bench,
    word: &str,
    args: &str,
    bytes: &[u8],
) -> Result<String, Refusal> {
    match word {
        "table" => take_table(alloc, bench, bytes),
        "beginnings" => held(tables::beginnings(alloc, bytes)),
        "rows" => tables::count(alloc, bytes),
        "within" => tables::within(alloc, args, bytes),
        "give" => held(tables::faltering(alloc, args, bytes)),
        "failing" => held(tables::failing(alloc, bytes)),
        "sink" => sinks::one_write(alloc, place(args), bytes),
        "write" => sinks::written(alloc, args, bytes),
        _ => {
            let text = text_of(alloc, bytes)?;
            of_text(alloc, bench, word, args, text.as_str())
        }
    }
}

/// Puts the bytes of a text so often before the next text.
fn repeat(alloc: Global, bench: &mut Bench, times: u64, text: &str) -> Result<(), AllocError> {
    let mut piece = Vec::new(alloc);
    push_unescaped(&mut piece, text)?;
    for _ in 0..times {
        bench.before.extend_from_slice(piece.as_slice())?;
    }
    Ok(())
}

/// The bytes of a text, after those that were put before it.
fn bytes_of(alloc: Global, bench: &mut Bench, text: &str) -> Result<Vec<u8>, AllocError> {
    let mut bytes = Vec::from_slice(alloc, bench.before.as_slice())?;
    push_unescaped(&mut bytes, text)?;
    bench.before.clear();
    Ok(bytes)
}

/// The case of a line: its command, what stands after that and a colon, and its text.
fn take(alloc: Global, bench: &mut Bench, line: &str) -> Result<String, Refusal> {
    let (head, text) = split(line, ' ');
    let (word, args) = split(head, ':');
    match word {
        "repeat" => {
            held(repeat(alloc, bench, number(args), text))?;
            Ok(String::new(alloc))
        }
        "refusal" => refusals::printed(alloc, args),
        "unknown" => refusals::unknown(alloc, text),
        _ => {
            let bytes = held(bytes_of(alloc, bench, text))?;
            of_bytes(alloc, bench, word, args, bytes.as_slice())
        }
    }
}

/// Makes the case of a line, and says what it tells.
pub(crate) fn told_of(alloc: Global, bench: &mut Bench, line: &str) -> Result<String, AllocError> {
    if line.is_empty() || line.starts_with('#') {
        return Ok(String::new(alloc));
    }
    or_refused(alloc, take(alloc, bench, line))
}
