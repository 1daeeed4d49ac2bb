//! Cells as texts.

ghost use Rattle.std.specs.Prelude.{◌≡◌, ◌∷◌, [], IfErr, IfNone, IfOk, IfSome, List, ℕ, Some, string_bytes};
ghost use Rattle.json.specs.Print.{quoted};
ghost use Rattle.serde_json.specs.Data.{string};
ghost use Rattle.serde_json.specs.Read.{read};
ghost use Rattle.sw_rows.specs.Cells.{HasPlaces};
ghost use Rattle.sw_rows.specs.Domains.{domain};
ghost use Rattle.sw_rows.specs.Header.{texts_of};
ghost use Rattle.sw_query.specs.declared.query.Want.TheVariants.{Min};
ghost use Rattle.sw_query.specs.declared.refusal.Refusal.TheVariants.{NoMemory};
ghost use Rattle.sw_lang.specs.PrintedExamples.{asking};
ghost use Rattle.sw_lang.specs.PrintedCalls.{name_at};
ghost use Rattle.sw_lang.specs.Replies as replies;
ghost use Rattle.sw_lang.specs.Replies.{kind_at, reply_lines};
ghost use Rattle.sw_outputs.specs.Fields.{IsPlain, cell_field};
ghost use Rattle.sw_outputs.specs.JsonLines.{cell_json};
ghost use Rattle.sw_outputs.specs.Texts.{Puts, value_text};

use itoa::{Buffer, Integer};
use serde_json::Value;
use std::alloc::{AllocError, Global};
use sw_lang::write_reply;
use sw_rows::{Call, Conds, Counted, Kind, Query, Refusal, Reply, Schema, Want};

/// A want of memory as a refusal.
pub(crate) fn no_memory(_error: AllocError) -> Refusal
    ensures { result ≡ NoMemory }
{
    Refusal::NoMemory
}

/// The lines of a reply. They go to memory, so no memory is the one failure.
fn lines_of(
    alloc: Global,
    schema: &Schema,
    call: &Call,
    reply: &Reply,
) -> Result<Vec<u8>, AllocError>
    ensures { IfOk result (λ text. text.items ≡ replies.reply_bytes schema.now call.now reply.now) }
{
    let mut lines = Counted::new(Vec::new(alloc));
    match write_reply(schema, call, reply, &mut lines) {
        Ok(()) => Ok(lines.inner),
        Err(_) => Err(AllocError),
    }
}

/// The line of a reply of one line, without its end.
pub(crate) fn line_of(
    alloc: Global,
    schema: &Schema,
    call: &Call,
    reply: &Reply,
) -> Result<Vec<u8>, AllocError>
    ensures { IfOk result (λ t. (l : List ℕ) → reply_lines schema.now call.now reply.now ≡ l ∷ [] → t.items ≡ l) }
{
    let mut bytes = lines_of(alloc, schema, call, reply)?;
    let _end = bytes.pop();
    Ok(bytes)
}

/// The question for the least cell of an attribute.
fn least_of(alloc: Global, attr: usize) -> Call
    ensures { result ≡ asking (Min attr) }
{
    Call::Select(Query {
        conds: Conds::new(alloc),
        want: Want::Min(attr),
    })
}

/// The kind of an attribute, and whole numbers where the table has no such attribute.
pub(crate) fn kind_or_int(schema: &Schema, attr: usize) -> Kind
    ensures kind { domain (texts_of schema.now) result ≡ kind_at schema.now attr }
    ensures places { HasPlaces result }
{
    if attr < schema.len() {
        schema.kind(attr)
    } else {
        Kind::Int
    }
}

/// The text that a cell of a kind stands for, where that is of texts.
fn text_of_kind(schema: &Schema, kind: Kind, cell: i64) -> Option<&str>
    ensures json { IfSome result (λ t. quoted t.now ≡ value_text (cell_json (domain (texts_of schema.now) kind) cell)) }
    ensures field { IfSome result (λ text. text.now ≡ cell_field (domain (texts_of schema.now) kind) cell) }
    ensures plain { IfNone result (IsPlain (domain (texts_of schema.now) kind) cell) }
{
    match kind {
        Kind::Text => match schema.text(cell) {
            Some(text) => Some(text),
            None => Some(""),
        },
        Kind::Int | Kind::Fix(_) | Kind::Flag => None,
    }
}

/// The text that a cell stands for, where its attribute is of texts.
pub(crate) fn text_of(schema: &Schema, attr: usize, cell: i64) -> Option<&str>
    ensures json { IfSome result (λ text. quoted text.now ≡ value_text (cell_json (kind_at schema.now attr) cell)) }
    ensures field { IfSome result (λ text. text.now ≡ cell_field (kind_at schema.now attr) cell) }
    ensures plain { IfNone result (IsPlain (kind_at schema.now attr) cell) }
{
    text_of_kind(schema, kind_or_int(schema, attr), cell)
}

/// A cell of an attribute as a reply has it: a text between single quotes, each of its own twice.
pub(crate) fn quoted_text(
    alloc: Global,
    schema: &Schema,
    attr: usize,
    cell: i64,
) -> Result<Vec<u8>, AllocError>
    ensures { IfOk result (λ text. text.items ≡ replies.cell_text (kind_at schema.now attr) cell) }
{
    let call = least_of(alloc, attr);
    let text = line_of(alloc, schema, &call, &Reply::Least(Some(cell)))?;
    Ok(text)
}

/// A cell of an attribute as a table has it: a number with its kind's decimals, `true` or `false`, or a text as it is.
pub(crate) fn field_text(
    alloc: Global,
    schema: &Schema,
    attr: usize,
    cell: i64,
) -> Result<Vec<u8>, AllocError>
    ensures { IfOk result (λ text. text.items ≡ cell_field (kind_at schema.now attr) cell) }
{
    match text_of(schema, attr, cell) {
        Some(text) => Vec::from_slice(alloc, text.as_bytes()),
        None => quoted_text(alloc, schema, attr, cell),
    }
}

/// A cell of an attribute as a table has it: a number with its kind's decimals, `true` or `false`, or a text as it is.
///
/// The one refusal is `NoMemory`.
pub fn cell_text(alloc: Global, schema: &Schema, attr: usize, cell: i64) -> Result<Vec<u8>, Refusal>
    ensures text { IfOk result (λ text. text.items ≡ cell_field (kind_at schema.now attr) cell) }
    ensures memory { IfErr result (λ e. e ≡ NoMemory) }
{
    match field_text(alloc, schema, attr, cell) {
        Ok(text) => Ok(text),
        Err(_) => Err(Refusal::NoMemory),
    }
}

/// A text as JSON has it, in quotes: reading it gives the text back. The one error is that there is no memory.
pub fn json_text(alloc: Global, text: &str) -> Result<String, AllocError>
    ensures read { IfOk result (λ json. read (string_bytes json) ≡ Some (string text.now)) }
    ensures quoted { IfOk result (λ json. string_bytes json ≡ quoted text.now) }
{
    let value = Value::from(String::from_str(alloc, text)?);
    value.to_string(alloc)
}

/// Puts a text in quotes behind a line.
pub(crate) fn put_text(alloc: Global, text: &str, line: &mut Vec<u8>) -> Result<(), AllocError>
    ensures { Puts result line.old.items line.new.items (quoted text.now) }
{
    let json = json_text(alloc, text)?;
    line.extend_from_slice(json.as_bytes())?;
    Ok(())
}

/// Puts the digits of a number behind a line.
pub(crate) fn put_number<N: Integer>(number: N, line: &mut Vec<u8>) -> Result<(), AllocError>
    ensures { Puts result line.old.items line.new.items (N.text number) }
{
    let mut buffer = Buffer::new();
    line.extend_from_slice(buffer.format(number).as_bytes())?;
    Ok(())
}

/// Puts a cell of an attribute behind a line as JSON has it: a number with its kind's decimals, `true` or `false`, or a
/// text in quotes.
pub(crate) fn put_cell(
    alloc: Global,
    schema: &Schema,
    attr: usize,
    cell: i64,
    line: &mut Vec<u8>,
) -> Result<(), AllocError>
    ensures { Puts result line.old.items line.new.items (value_text (cell_json (kind_at schema.now attr) cell)) }
{
    match text_of(schema, attr, cell) {
        Some(text) => put_text(alloc, text, line),
        None => {
            let text = quoted_text(alloc, schema, attr, cell)?;
            line.extend_from_slice(text.as_slice())?;
            Ok(())
        }
    }
}

/// A cell of an attribute as JSON has it.
pub(crate) fn json_cell(
    alloc: Global,
    schema: &Schema,
    attr: usize,
    cell: i64,
) -> Result<Vec<u8>, AllocError>
    ensures { IfOk result (λ text. text.items ≡ value_text (cell_json (kind_at schema.now attr) cell)) }
{
    let mut text = Vec::new(alloc);
    put_cell(alloc, schema, attr, cell, &mut text)?;
    Ok(text)
}

/// The name of an attribute.
pub(crate) fn name_of(schema: &Schema, attr: usize) -> &str
    ensures { result.now ≡ name_at schema.now attr }
{
    if attr < schema.len() {
        schema.name(attr)
    } else {
        ""
    }
}
