//! A record is written as a JSON text.

mod turned;

ghost use Rattle.std.specs.Prelude.{◌≡◌, ◌++◌, ℕ, List, [], decimal, false, map, string_bytes, IfOk, OnOk};
ghost use Rattle.serde_json.specs.View.{view};
ghost use Rattle.serde_json.specs.Written.{comma_if, compact_text, has_float};
ghost use Rattle.sw_lang.specs.PrintedCalls.{call_text};
ghost use Rattle.sw_rows.specs.Cells.{HasPlaces};
ghost use Rattle.sw_rows.specs.Domains.{domain};
ghost use Rattle.sw_rows.specs.Header.{kinds_of, texts_of};
ghost use Rattle.sw_histories.specs.RecordText.{Puts, WritesRecord, attribute_text, attributes_data, before_text, behind_text, cell_data, closing_text, entries_data, entry_data, format_of, front_text, has_delete_where, is_delete_where, item_text, items_then, least_format, numbers_text, opening_text, record_text, row_data, rows_data, state_data, texts_data};
ghost use Rattle.sw_spine.specs.Kept.{state_of};

use serde_json::{Value, json};
use std::alloc::{AllocError, Global};
use std::mem;
use sw_lang::{kind_name, write_all, write_call};
use sw_rows::{Call, Counted, Kind, PackedRows, Refusal, Row, Schema, Sink};
use sw_spine::{KeptEntry, Lines, Record, RecordRef, StateRef};
use turned::TurnedText;

/// For how many entries room stands at most, once their text is made.
const SPARE: usize = 8_192;

/// The bytes of a call. They go to memory, so no memory is the one failure.
fn call_bytes(alloc: Global, schema: &Schema, call: &Call) -> Result<Vec<u8>, AllocError>
    ensures { IfOk result (λ text. text.items ≡ call_text schema.now call.now) }
{
    let mut out = Counted::new(Vec::new(alloc));
    match write_call(schema, call, &mut out) {
        Ok(()) => Ok(out.inner),
        Err(_) => Err(AllocError),
    }
}

/// A call as it is printed.
pub(crate) fn call_string(alloc: Global, schema: &Schema, call: &Call) -> Result<String, AllocError>
    ensures { IfOk result (λ text. string_bytes text ≡ call_text schema.now call.now) }
{
    let _width = schema.len();
    let bytes = call_bytes(alloc, schema, call)?;
    match String::from_utf8(bytes) {
        Ok(text) => Ok(text),
        Err(_) => unreachable!(),
    }
}

/// A name with its type.
fn attribute_string(alloc: Global, name: &str, kind: Kind) -> Result<String, AllocError>
    requires { HasPlaces kind }
    ensures { (texts : List (List ℕ)) → IfOk result (λ t. string_bytes t
        ≡ attribute_text (name.now, domain texts kind)) }
{
    let mut text = String::from_str(alloc, name)?;
    text.push_str(":")?;
    text.push_str(kind_name(kind))?;
    Ok(text)
}

fn attributes_value(alloc: Global, schema: &Schema) -> Result<Value, AllocError>
    ensures { IfOk result (λ v. view v ≡ attributes_data schema.now) }
{
    let mut items = Vec::new(alloc);
    for attr in 0..schema.len() {
        let text = attribute_string(alloc, schema.name(attr), schema.kind(attr))?;
        items.push(Value::String(text))?;
    }
    Ok(Value::Array(items))
}

/// The least number of the format for a record of these attributes.
pub(crate) fn least_format(schema: &Schema) -> u64
    ensures { result ≡ least_format schema.now }
{
    if schema.has_texts() { 2 } else { 1 }
}

/// Whether a call deletes the rows under conditions.
pub(crate) fn is_delete_where(call: &Call) -> bool
    ensures { result ≡ is_delete_where call.now }
{
    match call {
        Call::DeleteWhere(_) => true,
        Call::Select(_) | Call::Insert(_) | Call::Delete(_) => false,
    }
}

/// Whether the call of an entry deletes the rows under conditions.
fn has_delete_where(entries: &[KeptEntry]) -> bool
    ensures { result ≡ has_delete_where entries.now }
{
    let mut rest = entries;
    while let Some((entry, later)) = rest.split_first() {
        if is_delete_where(entry.call()) {
            return true;
        }
        rest = later;
    }
    false
}

/// The number of the format in which a record of these attributes and entries is written.
fn format_of(schema: &Schema, entries: &[KeptEntry]) -> u64
    ensures { result ≡ format_of schema.now entries.now }
{
    if has_delete_where(entries) {
        3
    } else {
        least_format(schema)
    }
}

/// A cell as a number or, of texts, as its text.
fn cell_value(alloc: Global, schema: &Schema, kind: Kind, cell: i64) -> Result<Value, AllocError>
    ensures { IfOk result (λ v. view v ≡ cell_data (domain (texts_of schema.now) kind) cell) }
{
    match kind {
        Kind::Text => match schema.text(cell) {
            Some(text) => Value::try_from_str(alloc, text),
            None => Value::try_from_str(alloc, ""),
        },
        Kind::Int | Kind::Fix(_) | Kind::Flag => Ok(Value::from(cell)),
    }
}

fn row_value(alloc: Global, schema: &Schema, row: &Row) -> Result<Value, AllocError>
    ensures { IfOk result (λ v. view v ≡ row_data (kinds_of schema.now) row.now) }
{
    let mut items = Vec::new(alloc);
    for attr in 0..schema.len() {
        let cell = cell_value(alloc, schema, schema.kind(attr), row.cells[attr])?;
        items.push(cell)?;
    }
    Ok(Value::Array(items))
}

fn lines_value(alloc: Global, lines: &[String]) -> Result<Value, AllocError>
    ensures { IfOk result (λ v. view v ≡ texts_data (map (λ t. string_bytes t) lines.now)) }
{
    let mut items = Vec::new(alloc);
    for line in lines {
        items.push(Value::String(String::from_str(alloc, line.as_str())?))?;
    }
    Ok(Value::Array(items))
}

fn state_value(
    alloc: Global,
    schema: &Schema,
    call: &Call,
    state: StateRef<'_>,
) -> Result<Value, AllocError>
    ensures { IfOk result (λ v. view v ≡ state_data schema.now call.now (state_of state.entry)) }
{
    match state {
        StateRef::Answered(reply) => {
            let lines = Lines::of_reply(alloc, schema, call, reply)?;
            lines_value(alloc, lines.as_slice())
        }
        StateRef::Lines(lines) => lines_value(alloc, lines.as_slice()),
        StateRef::Open => Value::try_from_str(alloc, "open"),
        StateRef::Void => Value::try_from_str(alloc, "void"),
    }
}

fn entry_value(alloc: Global, schema: &Schema, entry: &KeptEntry) -> Result<Value, AllocError>
    ensures { IfOk result (λ v. view v ≡ entry_data schema.now entry.now) }
{
    let call = call_string(alloc, schema, entry.call())?;
    let reply = state_value(alloc, schema, entry.call(), entry.state())?;
    json!(in alloc; {"call": call, "reply": reply, "session": entry.session()})
}

/// Puts the text of a value after a text.
fn put_value(alloc: Global, value: &Value, text: &mut Vec<u8>) -> Result<(), AllocError>
    requires { has_float (view value.now) ≡ false }
    ensures { Puts result text.old.items text.new.items (compact_text (view value.now)) }
{
    let bytes = value.to_vec(alloc)?;
    text.extend_from_slice(bytes.as_slice())?;
    Ok(())
}

/// Puts a comma after a text, where an item stands before.
fn put_comma(is_later: bool, text: &mut Vec<u8>) -> Result<(), AllocError>
    ensures { Puts result text.old.items text.new.items (comma_if is_later) }
{
    if is_later {
        text.push(b',')?;
    }
    Ok(())
}

fn put_entry(
    alloc: Global,
    schema: &Schema,
    entry: &KeptEntry,
    is_later: bool,
    text: &mut Vec<u8>,
) -> Result<(), AllocError>
    ensures { Puts result text.old.items text.new.items (item_text is_later (entry_data schema.now entry.now)) }
{
    let value = entry_value(alloc, schema, entry)?;
    put_comma(is_later, text)?;
    put_value(alloc, &value, text)
}

/// Puts entries as an array, one after another, so that only one stands as a JSON value.
fn put_entries(
    alloc: Global,
    schema: &Schema,
    entries: &[KeptEntry],
    text: &mut Vec<u8>,
) -> Result<(), AllocError>
    ensures { Puts result text.old.items text.new.items (compact_text (entries_data schema.now entries.now)) }
{
    text.push(b'[')?;
    let mut is_later = false;
    let mut rest = entries;
    while let Some((entry, later)) = rest.split_first() {
        put_entry(alloc, schema, entry, is_later, text)?;
        is_later = true;
        rest = later;
    }
    text.push(b']')?;
    Ok(())
}

fn put_row(
    alloc: Global,
    schema: &Schema,
    row: &Row,
    is_later: bool,
    text: &mut Vec<u8>,
) -> Result<(), AllocError>
    ensures { Puts result text.old.items text.new.items (item_text is_later (row_data (kinds_of schema.now) row.now)) }
{
    let value = row_value(alloc, schema, row)?;
    put_comma(is_later, text)?;
    put_value(alloc, &value, text)
}

/// Puts rows as an array.
fn put_rows(
    alloc: Global,
    schema: &Schema,
    rows: &PackedRows,
    text: &mut Vec<u8>,
) -> Result<(), AllocError>
    ensures { Puts result text.old.items text.new.items
        (compact_text (rows_data (kinds_of schema.now) rows.now.items)) }
{
    text.push(b'[')?;
    let mut is_later = false;
    for place in 0..rows.len() {
        put_row(alloc, schema, &rows.get(place), is_later, text)?;
        is_later = true;
    }
    text.push(b']')?;
    Ok(())
}

/// Puts the attributes as an array.
fn put_attributes(alloc: Global, schema: &Schema, text: &mut Vec<u8>) -> Result<(), AllocError>
    ensures { Puts result text.old.items text.new.items (compact_text (attributes_data schema.now)) }
{
    let value = attributes_value(alloc, schema)?;
    put_value(alloc, &value, text)
}

fn put_number(alloc: Global, number: u64, text: &mut Vec<u8>) -> Result<(), AllocError>
    ensures { Puts result text.old.items text.new.items (decimal number) }
{
    let value = Value::from(number);
    put_value(alloc, &value, text)
}

/// Puts what stands before the entries.
fn put_opening(alloc: Global, schema: &Schema, text: &mut Vec<u8>) -> Result<(), AllocError>
    ensures { OnOk result (text.new.items ≡ opening_text text.old.items schema.now) }
{
    text.extend_from_slice(b"{\"attributes\":")?;
    put_attributes(alloc, schema, text)?;
    text.extend_from_slice(b",\"entries\":")?;
    Ok(())
}

/// Puts the format and the limit.
fn put_numbers(alloc: Global, format: u64, limit: u64, text: &mut Vec<u8>) -> Result<(), AllocError>
    ensures { OnOk result (text.new.items ≡ numbers_text text.old.items format limit) }
{
    text.extend_from_slice(b",\"format\":")?;
    put_number(alloc, format, text)?;
    text.extend_from_slice(b",\"limit\":")?;
    put_number(alloc, limit, text)
}

/// Puts the rows and what stands behind them.
fn put_closing(
    alloc: Global,
    schema: &Schema,
    rows: &PackedRows,
    text: &mut Vec<u8>,
) -> Result<(), AllocError>
    ensures { OnOk result (text.new.items ≡ closing_text text.old.items schema.now rows.now.items) }
{
    text.extend_from_slice(b",\"rows\":")?;
    put_rows(alloc, schema, rows, text)?;
    text.push(b'}')?;
    Ok(())
}

/// Puts what stands before the rows.
fn put_front(alloc: Global, history: &RecordRef<'_>, text: &mut Vec<u8>) -> Result<(), AllocError>
    ensures { OnOk result (text.new.items ≡ front_text text.old.items history.now) }
{
    put_opening(alloc, history.schema, text)?;
    put_entries(alloc, history.schema, history.entries, text)?;
    let format = format_of(history.schema, history.entries);
    put_numbers(alloc, format, history.limit, text)
}

fn record_bytes(alloc: Global, history: &RecordRef<'_>) -> Result<Vec<u8>, AllocError>
    ensures { IfOk result (λ text. text.items ≡ record_text history.now) }
{
    let mut text = Vec::new(alloc);
    put_front(alloc, history, &mut text)?;
    put_closing(alloc, history.schema, history.rows, &mut text)?;
    Ok(text)
}

/// What stands before the items of the entries.
fn bytes_before(alloc: Global, schema: &Schema) -> Result<Vec<u8>, AllocError>
    ensures { IfOk result (λ text. text.items ≡ before_text schema.now) }
{
    let mut text = Vec::new(alloc);
    put_opening(alloc, schema, &mut text)?;
    text.push(b'[')?;
    Ok(text)
}

/// What stands behind the items of the entries, in a record of this format.
fn text_behind(
    alloc: Global,
    history: &RecordRef<'_>,
    format: u64,
) -> Result<TurnedText, AllocError>
    ensures { IfOk result (λ text. text ≡ behind_text format history.now) }
{
    let mut text = Vec::new(alloc);
    text.push(b']')?;
    put_numbers(alloc, format, history.limit, &mut text)?;
    put_closing(alloc, history.schema, history.rows, &mut text)?;
    Ok(TurnedText::ending(text))
}

/// Puts the item of an entry before a text. The entry goes.
fn put_entry_before(
    alloc: Global,
    schema: &Schema,
    entry: KeptEntry,
    is_later: bool,
    text: &mut TurnedText,
) -> Result<(), AllocError>
    ensures { OnOk result (text.new ≡ item_text is_later (entry_data schema.now entry) ++ text.old) }
{
    let mut piece = Vec::new(alloc);
    put_entry(alloc, schema, &entry, is_later, &mut piece)?;
    text.put_before(piece)
}

/// Gives back the room of entries that were taken, where it is much.
fn give_back(entries: &mut Vec<KeptEntry>)
    ensures { entries.new.items ≡ entries.old.items }
{
    if entries.capacity() - entries.len() >= SPARE {
        entries.shrink_to_fit();
    }
}

/// Puts the items of entries before a text, the last one first.
fn put_entries_before(
    alloc: Global,
    schema: &Schema,
    entries: Vec<KeptEntry>,
    text: &mut TurnedText,
) -> Result<(), AllocError>
    ensures { OnOk result (text.new ≡ items_then false (map (entry_data schema.now) entries.items) text.old) }
{
    let mut left = entries;
    while let Some(entry) = left.pop() {
        put_entry_before(alloc, schema, entry, !left.is_empty(), text)?;
        give_back(&mut left);
    }
    Ok(())
}

/// The bytes of a record with these entries, which go as their items are put: the text is made from its end.
fn record_bytes_out(
    alloc: Global,
    history: &RecordRef<'_>,
    entries: Vec<KeptEntry>,
) -> Result<Vec<u8>, AllocError>
    ensures { IfOk result (λ text. text.items ≡ record_text (record history.now { entries = entries.items })) }
{
    let format = format_of(history.schema, entries.as_slice());
    let mut text = text_behind(alloc, history, format)?;
    put_entries_before(alloc, history.schema, entries, &mut text)?;
    let before = bytes_before(alloc, history.schema)?;
    text.put_before(before)?;
    Ok(text.into_bytes())
}

/// Writes the text of a record's file: one JSON object without blanks, in which keys ascend. An answered entry is
/// written with the lines of its reply, and a cell of texts as its text. The format is 3 where a call deletes the rows
/// under conditions; elsewhere it is 2 where an attribute is of texts, and 1 where none is.
///
/// Refused `NoMemory`, and then nothing was written, or `Output` where the sink fails, and then a beginning of the text
/// was.
pub fn write_record<W: Sink>(alloc: Global, history: &Record, out: &mut W) -> Result<(), Refusal>
    ensures { WritesRecord history.now (W.taken out.old) (W.taken out.new) (W.failed out.old) (W.failed out.new) result }
{
    write_record_ref(alloc, &history.by_ref(), out)
}

/// The same of a record that is read where it stands.
pub fn write_record_ref<W: Sink>(
    alloc: Global,
    history: &RecordRef<'_>,
    out: &mut W,
) -> Result<(), Refusal>
    ensures { WritesRecord history.now (W.taken out.old) (W.taken out.new) (W.failed out.old) (W.failed out.new) result }
{
    match record_bytes(alloc, history) {
        Ok(text) => write_all(out, text.as_slice()),
        Err(_) => Err(Refusal::NoMemory),
    }
}

/// The same of a record that is not needed any more: its entries go as their text is made, so that not both stand
/// whole. Behind it the record has none, whatever came of it.
pub fn write_out_record<W: Sink>(
    alloc: Global,
    spent: &mut Record,
    out: &mut W,
) -> Result<(), Refusal>
    ensures text { WritesRecord spent.old (W.taken out.old) (W.taken out.new) (W.failed out.old) (W.failed out.new) result }
    ensures left { spent.new ≡ record spent.old { entries = [] } }
{
    let entries = mem::replace(&mut spent.entries, Vec::new(alloc));
    match record_bytes_out(alloc, &spent.by_ref(), entries) {
        Ok(text) => write_all(out, text.as_slice()),
        Err(_) => Err(Refusal::NoMemory),
    }
}
