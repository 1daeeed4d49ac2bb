//! Replies as lines of JSON.

ghost use Rattle.std.specs.Prelude.{◌≡◌, IfOk, List, codes, map};
ghost use Rattle.json.specs.Print.{quoted};
ghost use Rattle.sw_lang.specs.PrintedCalls.{call_text};
ghost use Rattle.sw_lang.specs.Replies.{sum_text};
ghost use Rattle.sw_rows.specs.Header.{Column};
ghost use Rattle.sw_outputs.specs.JsonLines.{attrs_shown, called_word, cell_json, count_json, kind_called, kind_if, line_json, name_json, names_json, one_json, place_text, rows_json, scalar_json, told_line, answer_text, cells_shown, further, number_text, shown_row, shown_rows};
ghost use Rattle.sw_outputs.specs.Sinks.{WroteMade};
ghost use Rattle.sw_outputs.specs.Texts.{Puts, comma_if, value_text};

use crate::cells::{line_of, name_of, put_cell, put_number, put_text};
use crate::told::Told;
use std::alloc::{AllocError, Global};
use sw_lang::{write_all, write_call};
use sw_rows::{Call, Counted, Refusal, Reply, ReplyRows, Schema, Sink, Want};

/// The attributes whose cells a call shows.
pub(crate) fn shown(call: &Call) -> &[usize]
    ensures { result.now ≡ attrs_shown call.now }
{
    match call {
        Call::Select(query) => match &query.want {
            Want::Rows(names) => names.as_slice(),
            Want::Count | Want::Sum(_) | Want::Min(_) | Want::Max(_) => &[],
        },
        Call::Insert(_) | Call::Delete(_) | Call::DeleteWhere(_) => &[],
    }
}

/// The bytes of a call. They go to memory, so no memory is the one failure.
fn call_bytes(alloc: Global, schema: &Schema, call: &Call) -> Result<Vec<u8>, AllocError>
    ensures { IfOk result (λ text. text.items ≡ call_text schema.now call.now) }
{
    let mut out = Counted::new(Vec::new(alloc));
    match write_call(schema, call, &mut out) {
        Ok(()) => Ok(out.inner),
        Err(_) => Err(AllocError),
    }
}

/// Puts the call as it is printed, in quotes.
fn put_called(
    alloc: Global,
    schema: &Schema,
    call: &Call,
    line: &mut Vec<u8>,
) -> Result<(), AllocError>
    ensures { Puts result line.old.items line.new.items (quoted (call_text schema.now call.now)) }
{
    let bytes = call_bytes(alloc, schema, call)?;
    match String::from_utf8(bytes) {
        Ok(text) => put_text(alloc, text.as_str(), line),
        Err(_) => Err(AllocError),
    }
}

/// Puts names as the further items of a list, and its end.
fn put_names(
    alloc: Global,
    schema: &Schema,
    attrs: &[usize],
    line: &mut Vec<u8>,
) -> Result<(), AllocError>
    ensures { Puts result line.old.items line.new.items (further (map (name_json schema.now) attrs.now)) }
{
    let mut rest = attrs;
    while let Some((attr, later)) = rest.split_first() {
        line.push(b',')?;
        put_text(alloc, name_of(schema, *attr), line)?;
        rest = later;
    }
    line.push(b']')?;
    Ok(())
}

/// Puts the names of what the rows of a reply show, the key first.
fn put_columns(
    alloc: Global,
    schema: &Schema,
    attrs: &[usize],
    line: &mut Vec<u8>,
) -> Result<(), AllocError>
    ensures { Puts result line.old.items line.new.items (value_text (names_json schema.now attrs.now)) }
{
    line.extend_from_slice(b"[\"key\"")?;
    put_names(alloc, schema, attrs, line)?;
    Ok(())
}

/// Puts cells as the further items of a list, and its end.
fn put_cells(
    alloc: Global,
    schema: &Schema,
    attrs: &[usize],
    cells: &[i64],
    line: &mut Vec<u8>,
) -> Result<(), AllocError>
    ensures { Puts result line.old.items line.new.items (further (cells_shown schema.now attrs.now cells.now)) }
{
    let mut attrs = attrs;
    let mut cells = cells;
    while let Some((attr, later)) = attrs.split_first() {
        let Some((cell, after)) = cells.split_first() else {
            line.push(b']')?;
            return Ok(());
        };
        line.push(b',')?;
        put_cell(alloc, schema, *attr, *cell, line)?;
        attrs = later;
        cells = after;
    }
    line.push(b']')?;
    Ok(())
}

/// Puts a row as a list: its key and its cells.
fn put_row(
    alloc: Global,
    schema: &Schema,
    attrs: &[usize],
    row: (u64, &[i64]),
    line: &mut Vec<u8>,
) -> Result<(), AllocError>
    ensures { Puts result line.old.items line.new.items (shown_row schema.now attrs.now row.entry) }
{
    let (key, cells) = row;
    line.push(b'[')?;
    put_number(key, line)?;
    put_cells(alloc, schema, attrs, cells, line)
}

/// Puts a comma, where an item stands before.
fn put_comma(is_later: bool, line: &mut Vec<u8>) -> Result<(), AllocError>
    ensures { Puts result line.old.items line.new.items (comma_if is_later) }
{
    if is_later {
        line.push(b',')?;
    }
    Ok(())
}

/// Puts the rows of a reply as a list.
fn put_rows(
    alloc: Global,
    schema: &Schema,
    attrs: &[usize],
    rows: &ReplyRows,
    line: &mut Vec<u8>,
) -> Result<(), AllocError>
    ensures { Puts result line.old.items line.new.items (shown_rows schema.now attrs.now rows.now) }
{
    line.push(b'[')?;
    let mut is_later = false;
    let mut left = rows.left();
    while let Some(row) = left.next() {
        put_comma(is_later, line)?;
        put_row(alloc, schema, attrs, row, line)?;
        is_later = true;
    }
    line.push(b']')?;
    Ok(())
}

/// Puts a reply of rows: the names of what they show, and the rows.
fn put_shown(
    alloc: Global,
    schema: &Schema,
    attrs: &[usize],
    rows: &ReplyRows,
    line: &mut Vec<u8>,
) -> Result<(), AllocError>
    ensures { Puts result line.old.items line.new.items (value_text (rows_json schema.now attrs.now rows.now)) }
{
    line.extend_from_slice(b"{\"columns\":")?;
    put_columns(alloc, schema, attrs, line)?;
    line.extend_from_slice(b",\"rows\":")?;
    put_rows(alloc, schema, attrs, rows, line)?;
    line.push(b'}')?;
    Ok(())
}

/// What the number of a reply is called.
pub(crate) fn called(call: &Call) -> &'static str
    ensures { result.now ≡ called_word call.now }
{
    match call {
        Call::Select(query) => match &query.want {
            Want::Rows(_) => "rows",
            Want::Count => "count",
            Want::Sum(_) => "sum",
            Want::Min(_) => "min",
            Want::Max(_) => "max",
        },
        Call::Insert(_) => "key",
        Call::Delete(_) | Call::DeleteWhere(_) => "removed",
    }
}

/// The attribute that a call sums or compares, or the first that it shows.
pub(crate) fn attr_called(call: &Call) -> Option<usize>
    ensures { (columns : List Column) → kind_if columns result ≡ kind_called columns call.now }
{
    match call {
        Call::Select(query) => match &query.want {
            Want::Rows(names) => names.as_slice().first().copied(),
            Want::Count => None,
            Want::Sum(attr) | Want::Min(attr) | Want::Max(attr) => Some(*attr),
        },
        Call::Insert(_) | Call::Delete(_) | Call::DeleteWhere(_) => None,
    }
}

/// Puts the least or the greatest cell that a call was answered.
fn put_extreme(
    alloc: Global,
    schema: &Schema,
    call: &Call,
    cell: i64,
    line: &mut Vec<u8>,
) -> Result<(), AllocError>
    ensures { Puts result line.old.items line.new.items (value_text (cell_json (kind_called schema.now call.now) cell)) }
{
    match attr_called(call) {
        Some(attr) => put_cell(alloc, schema, attr, cell, line),
        None => put_number(cell, line),
    }
}

/// Puts the sum that a call was answered.
fn put_sum(
    alloc: Global,
    schema: &Schema,
    call: &Call,
    sum: i128,
    line: &mut Vec<u8>,
) -> Result<(), AllocError>
    ensures { Puts result line.old.items line.new.items (sum_text (kind_called schema.now call.now) sum) }
{
    let text = line_of(alloc, schema, call, &Reply::Sum(sum))?;
    line.extend_from_slice(text.as_slice())?;
    Ok(())
}

/// Puts the number of a reply, and `null` where it has none.
fn put_value(
    alloc: Global,
    schema: &Schema,
    call: &Call,
    reply: &Reply,
    line: &mut Vec<u8>,
) -> Result<(), AllocError>
    ensures { Puts result line.old.items line.new.items (number_text schema.now call.now reply.now) }
{
    match reply {
        Reply::Count(number) | Reply::Inserted(number) | Reply::RemovedMany(number) => {
            put_number(*number, line)
        }
        Reply::Removed => put_number(1u64, line),
        Reply::NoSuchKey => put_number(0u64, line),
        Reply::Sum(sum) => put_sum(alloc, schema, call, *sum, line),
        Reply::Least(Some(cell)) => put_extreme(alloc, schema, call, *cell, line),
        Reply::Rows(_) | Reply::Full | Reply::Least(None) => {
            line.extend_from_slice(b"null")?;
            Ok(())
        }
    }
}

/// Puts a reply of one number under what it is called.
fn put_scalar(
    alloc: Global,
    schema: &Schema,
    call: &Call,
    reply: &Reply,
    line: &mut Vec<u8>,
) -> Result<(), AllocError>
    ensures { Puts result line.old.items line.new.items (value_text (scalar_json schema.now call.now reply.now)) }
{
    line.push(b'{')?;
    put_text(alloc, called(call), line)?;
    line.push(b':')?;
    put_value(alloc, schema, call, reply, line)?;
    line.push(b'}')?;
    Ok(())
}

/// Puts that a call was refused.
fn put_refused(line: &mut Vec<u8>) -> Result<(), AllocError>
    ensures { Puts result line.old.items line.new.items (value_text (one_json (codes "refused") (count_json 1))) }
{
    line.extend_from_slice(b"{\"refused\":1}")?;
    Ok(())
}

/// Puts what a call was answered.
fn put_answer(
    alloc: Global,
    schema: &Schema,
    told: &Told<'_>,
    line: &mut Vec<u8>,
) -> Result<(), AllocError>
    ensures { Puts result line.old.items line.new.items (answer_text schema.now told.now) }
{
    match told.reply {
        Some(Reply::Rows(rows)) => put_shown(alloc, schema, shown(told.call), rows, line),
        Some(reply) => put_scalar(alloc, schema, told.call, reply, line),
        None => put_refused(line),
    }
}

/// Puts the number of a line, and `null` where it is not known.
fn put_line(number: Option<u32>, line: &mut Vec<u8>) -> Result<(), AllocError>
    ensures { Puts result line.old.items line.new.items (value_text (line_json number)) }
{
    match number {
        Some(number) => put_number(number, line),
        None => {
            line.extend_from_slice(b"null")?;
            Ok(())
        }
    }
}

/// Puts where a call stands.
fn put_place(told: &Told<'_>, line: &mut Vec<u8>) -> Result<(), AllocError>
    ensures { Puts result line.old.items line.new.items (place_text told.now) }
{
    line.extend_from_slice(b"{\"number\":")?;
    put_number(told.number, line)?;
    line.extend_from_slice(b",\"block\":")?;
    put_number(told.block, line)?;
    line.extend_from_slice(b",\"line\":")?;
    put_line(told.line, line)?;
    line.extend_from_slice(b",\"call\":")?;
    Ok(())
}

/// The line of a call, with its end.
fn line_told(alloc: Global, schema: &Schema, told: &Told<'_>) -> Result<Vec<u8>, AllocError>
    ensures { IfOk result (λ line. line.items ≡ told_line schema.now told.now) }
{
    let mut line = Vec::new(alloc);
    put_place(told, &mut line)?;
    put_called(alloc, schema, told.call, &mut line)?;
    line.extend_from_slice(b",\"reply\":")?;
    put_answer(alloc, schema, told, &mut line)?;
    line.extend_from_slice(b"}\n")?;
    Ok(line)
}

/// Writes a call and what came of it as a line of JSON: its number, its block, its line, the call as it is printed, and the
/// reply.
///
/// The reply of rows is an object of `columns`, the names of what a row shows with `key` first, and `rows`, a list for each;
/// another is an object of one number, `null` where there is none. Refused `NoMemory`, and then nothing was written, or
/// `Output` where the sink fails, and then a beginning of the line was.
pub fn write_json<W: Sink>(
    alloc: Global,
    schema: &Schema,
    told: &Told<'_>,
    out: &mut W,
) -> Result<(), Refusal>
    ensures { WroteMade W.taken W.failed out.old out.new result (told_line schema.now told.now) }
{
    match line_told(alloc, schema, told) {
        Ok(line) => write_all(out, line.as_slice()),
        Err(_) => Err(Refusal::NoMemory),
    }
}
