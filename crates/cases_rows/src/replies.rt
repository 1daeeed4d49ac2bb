//! Replies, and the texts that are written of them.

ghost use Rattle.std.specs.Prelude.{IfOk};
ghost use Rattle.sw_lang.specs.Fits.{FitsCall};

use crate::sinks::Slow;
use crate::told::{held, push_line, text_of};
use std::alloc::{AllocError, Global};
use sw_lang::{parse_line, write_reply};
use sw_rows::{
    Call, Cells, Conds, Counted, Names, PackedRows, Query, Refusal, Reply, ReplyRows, Row, Schema,
    Sink, Want, answer, matching_keys,
};
use test_words::{cell, number};

/// The call of a line; of a line without one the deletion of key 0.
fn call_of(alloc: Global, schema: &mut Schema, text: &str) -> Result<Call, Refusal>
    ensures { IfOk result (FitsCall schema.new) }
{
    match parse_line(alloc, schema, 7, text)? {
        Some(call) => Ok(call),
        None => Ok(Call::Delete(0)),
    }
}

/// The keys of the rows that a call deletes by conditions, in the order in which they go.
fn deleted(alloc: Global, schema: &Schema, rows: &[Row], call: &Call) -> Result<Vec<u64>, Refusal>
    requires { FitsCall schema.now call.now }
{
    let _ = schema.len();
    let rows = held(PackedRows::of(alloc, rows))?;
    match call {
        Call::DeleteWhere(conds) => held(matching_keys(alloc, &rows, conds.as_slice())),
        _ => Ok(Vec::new(alloc)),
    }
}

/// What a select is answered over rows, or a call that deletes rows by conditions; the rows stay.
fn answered(alloc: Global, schema: &Schema, rows: &[Row], call: &Call) -> Result<Reply, Refusal>
    requires { FitsCall schema.now call.now }
{
    let _ = schema.len();
    match call {
        Call::Select(query) => answer(alloc, rows, query),
        Call::DeleteWhere(_) => {
            let keys = deleted(alloc, schema, rows, call)?;
            Ok(Reply::RemovedMany(keys.len() as u64))
        }
        _ => Ok(Reply::NoSuchKey),
    }
}

/// Writes the lines of a reply, and answers the refusal where there is one.
fn write_to(
    out: &mut Counted<Slow>,
    schema: &Schema,
    call: &Call,
    reply: &Reply,
) -> Option<Refusal> {
    match write_reply(schema, call, reply, out) {
        Ok(()) => None,
        Err(refusal) => Some(refusal),
    }
}

/// The lines of a reply.
fn lines(alloc: Global, schema: &Schema, call: &Call, reply: &Reply) -> Result<String, Refusal> {
    let mut out = Slow::counted(alloc, 1_000, 0);
    write_reply(schema, call, reply, &mut out)?;
    text_of(alloc, out.inner.bytes.as_slice())
}

/// The lines of a copy of a reply.
fn copied_lines(
    alloc: Global,
    schema: &Schema,
    call: &Call,
    reply: &Reply,
) -> Result<String, Refusal> {
    let copy = held(reply.copied(alloc))?;
    lines(alloc, schema, call, &copy)
}

/// The keys of the rows of a table that a line deletes by its conditions.
pub(crate) fn keys(
    alloc: Global,
    schema: &mut Schema,
    rows: &[Row],
    text: &str,
) -> Result<String, Refusal> {
    let call = call_of(alloc, schema, text)?;
    let keys = deleted(alloc, schema, rows, &call)?;
    held(format!(in alloc; "{:?}", keys.as_slice()))
}

/// What a call is answered over the rows of a table.
pub(crate) fn asked(
    alloc: Global,
    schema: &mut Schema,
    rows: &[Row],
    text: &str,
) -> Result<String, Refusal> {
    let call = call_of(alloc, schema, text)?;
    let reply = answered(alloc, schema, rows, &call)?;
    copied_lines(alloc, schema, &call, &reply)
}

/// What became of a reply's lines where the sink takes a byte at a time and fails at one write.
fn sent_till(
    alloc: Global,
    schema: &Schema,
    call: &Call,
    reply: &Reply,
    fails_at: u64,
) -> Result<String, AllocError> {
    let mut out = Slow::counted(alloc, 1, fails_at);
    let refusal = write_to(&mut out, schema, call, reply);
    let took = String::from_utf8_lossy(alloc, out.inner.bytes.as_slice())?;
    let failures = out.failures();
    match refusal {
        Some(refusal) => format!(in alloc; "{failures} failures, refused {refusal}, took {took:?}"),
        None => format!(in alloc; "{failures} failures, took {took:?}"),
    }
}

/// The same for each of these writes, a line each.
fn sent(
    alloc: Global,
    schema: &Schema,
    call: &Call,
    reply: &Reply,
    writes: u64,
) -> Result<String, AllocError> {
    let mut told = String::new(alloc);
    for before in 0..writes {
        let line = sent_till(alloc, schema, call, reply, before.wrapping_add(1))?;
        push_line(&mut told, line.as_str())?;
    }
    Ok(told)
}

/// What becomes of the lines of a select's reply where a sink fails at its first writes.
pub(crate) fn failing(
    alloc: Global,
    schema: &mut Schema,
    rows: &[Row],
    writes: &str,
    text: &str,
) -> Result<String, Refusal> {
    let call = call_of(alloc, schema, text)?;
    let reply = answered(alloc, schema, rows, &call)?;
    held(sent(alloc, schema, &call, &reply, number(writes)))
}

/// The reply of a word, with its key or how many rows are gone.
fn update_reply(word: &str, key: u64) -> Reply {
    match word {
        "inserted" => Reply::Inserted(key),
        "full" => Reply::Full,
        "removed" => Reply::Removed,
        "many" => Reply::RemovedMany(key),
        _ => Reply::NoSuchKey,
    }
}

/// The call that has such a reply.
fn update_call(word: &str) -> Call {
    match word {
        "inserted" | "full" => Call::Insert([0; 8]),
        _ => Call::Delete(0),
    }
}

/// The lines of the reply to an insert or a delete.
pub(crate) fn of_update(
    alloc: Global,
    schema: &Schema,
    word: &str,
    key: &str,
) -> Result<String, Refusal> {
    let call = update_call(word);
    let reply = update_reply(word, number(key));
    lines(alloc, schema, &call, &reply)
}

/// Cells that are written with blanks between.
fn cells_of(alloc: Global, text: &str) -> Result<Cells, AllocError> {
    let mut cells = Cells::new(alloc);
    for word in text.split_whitespace() {
        cells.push(cell(word))?;
    }
    Ok(cells)
}

/// The select of all attributes.
fn all_of(alloc: Global, schema: &Schema) -> Result<Call, AllocError> {
    let mut names = Names::new(alloc);
    for attr in 0..schema.len() {
        names.push(attr)?;
    }
    Ok(Call::Select(Query {
        conds: Conds::new(alloc),
        want: Want::Rows(names),
    }))
}

/// The rows of a reply of one row.
fn one_row(alloc: Global, key: u64, cells: &Cells) -> Result<ReplyRows, AllocError> {
    let mut rows = ReplyRows::new(alloc);
    rows.push(key, cells.as_slice())?;
    Ok(rows)
}

/// The lines of a reply of one row, of this key and these cells of all attributes.
pub(crate) fn of_row(
    alloc: Global,
    schema: &Schema,
    key: &str,
    cells: &str,
) -> Result<String, Refusal> {
    let cells = held(cells_of(alloc, cells))?;
    let rows = held(one_row(alloc, number(key), &cells))?;
    let call = held(all_of(alloc, schema))?;
    lines(alloc, schema, &call, &Reply::Rows(rows))
}
