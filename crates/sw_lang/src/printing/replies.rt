//! Replies go out as lines.

ghost use Rattle.std.specs.Prelude.{◌≡◌, ◌++◌, codes, decimal};
ghost use Rattle.sw_lang.specs.Replies.{extreme_text, first_kind, kinds_called, kinds_wanted, removed_line, reply_bytes, sum_text, rows_text};
ghost use Rattle.sw_lang.specs.Sinks.{Wrote};
ghost use Rattle.sw_lang.specs.Shown.{AreSound, domain_of};

use crate::domain::{AttrValues, values_or_int};
use crate::printing::cells::{write_extreme, write_sum};
use crate::printing::rows::write_rows;
use crate::printing::sinks::{write_all, write_number};
use sw_rows::{Call, Kind, Refusal, Reply, ReplyRows, Schema, Sink, Want};

/// The values of the first attribute that is shown, or of the one that is summed or compared.
fn values_wanted<'a>(schema: &'a Schema, want: &Want) -> AttrValues<'a>
    ensures domain { domain_of result ≡ first_kind (kinds_wanted schema.now want.now) }
    ensures sound { AreSound result }
{
    match want {
        Want::Rows(attrs) => match attrs.as_slice().first() {
            Some(attr) => values_or_int(schema, *attr),
            None => AttrValues::Numbers(Kind::Int),
        },
        Want::Count => AttrValues::Numbers(Kind::Int),
        Want::Sum(attr) | Want::Min(attr) | Want::Max(attr) => values_or_int(schema, *attr),
    }
}

fn values_called<'a>(schema: &'a Schema, call: &Call) -> AttrValues<'a>
    ensures domain { domain_of result ≡ first_kind (kinds_called schema.now call.now) }
    ensures sound { AreSound result }
{
    match call {
        Call::Select(query) => values_wanted(schema, &query.want),
        Call::Insert(_) | Call::Delete(_) | Call::DeleteWhere(_) => AttrValues::Numbers(Kind::Int),
    }
}

/// The rows that a query is answered.
fn write_rows_wanted<W: Sink>(
    schema: &Schema,
    want: &Want,
    rows: &ReplyRows,
    out: &mut W,
) -> Result<(), Refusal>
    ensures { Wrote W.taken W.failed out.old out.new result (rows_text (kinds_wanted schema.now want.now) rows.now) }
{
    match want {
        Want::Rows(attrs) => write_rows(schema, attrs.as_slice(), rows, out),
        Want::Count => write_rows(schema, &[], rows, out),
        Want::Sum(attr) => write_rows(schema, &[*attr], rows, out),
        Want::Min(attr) => write_rows(schema, &[*attr], rows, out),
        Want::Max(attr) => write_rows(schema, &[*attr], rows, out),
    }
}

fn write_rows_called<W: Sink>(
    schema: &Schema,
    call: &Call,
    rows: &ReplyRows,
    out: &mut W,
) -> Result<(), Refusal>
    ensures { Wrote W.taken W.failed out.old out.new result (rows_text (kinds_called schema.now call.now) rows.now) }
{
    match call {
        Call::Select(query) => write_rows_wanted(schema, &query.want, rows, out),
        Call::Insert(_) | Call::Delete(_) | Call::DeleteWhere(_) => {
            write_rows(schema, &[], rows, out)
        }
    }
}

/// A number as a line.
fn write_number_line<W: Sink>(number: u64, out: &mut W) -> Result<(), Refusal>
    ensures { Wrote W.taken W.failed out.old out.new result (decimal number ++ codes "\n") }
{
    write_number(number, out)?;
    write_all(out, b"\n")
}

fn write_sum_line<W: Sink>(values: AttrValues, sum: i128, out: &mut W) -> Result<(), Refusal>
    requires { AreSound values }
    ensures { Wrote W.taken W.failed out.old out.new result (sum_text (domain_of values.entry) sum ++ codes "\n") }
{
    write_sum(values, sum, out)?;
    write_all(out, b"\n")
}

fn write_extreme_line<W: Sink>(
    values: AttrValues,
    extreme: Option<i64>,
    out: &mut W,
) -> Result<(), Refusal>
    requires { AreSound values }
    ensures { Wrote W.taken W.failed out.old out.new result (extreme_text (domain_of values.entry) extreme ++ codes "\n") }
{
    write_extreme(values, extreme, out)?;
    write_all(out, b"\n")
}

fn write_key_line<W: Sink>(key: u64, out: &mut W) -> Result<(), Refusal>
    ensures { Wrote W.taken W.failed out.old out.new result ((codes "key " ++ decimal key) ++ codes "\n") }
{
    write_all(out, b"key ")?;
    write_number_line(key, out)
}

/// How many rows are gone, without the bracket before it.
fn write_removed_end<W: Sink>(many: u64, out: &mut W) -> Result<(), Refusal>
    ensures { Wrote W.taken W.failed out.old out.new result ((decimal many ++ codes " removed)") ++ codes "\n") }
{
    write_number(many, out)?;
    write_all(out, b" removed)\n")
}

/// How many rows are gone, as a line.
fn write_removed_line<W: Sink>(many: u64, out: &mut W) -> Result<(), Refusal>
    ensures { Wrote W.taken W.failed out.old out.new result (removed_line many ++ codes "\n") }
{
    write_all(out, b"(")?;
    write_removed_end(many, out)
}

/// Writes the lines of the reply to a call.
///
/// Cells are written by the kinds of the attributes that the call names. Refused `Output` where the sink fails; then a
/// beginning of the lines went out.
pub fn write_reply<W: Sink>(
    schema: &Schema,
    call: &Call,
    reply: &Reply,
    out: &mut W,
) -> Result<(), Refusal>
    ensures { Wrote W.taken W.failed out.old out.new result (reply_bytes schema.now call.now reply.now) }
{
    match reply {
        Reply::Rows(rows) => write_rows_called(schema, call, rows, out),
        Reply::Count(count) => write_number_line(*count, out),
        Reply::Sum(sum) => write_sum_line(values_called(schema, call), *sum, out),
        Reply::Least(extreme) => write_extreme_line(values_called(schema, call), *extreme, out),
        Reply::Inserted(key) => write_key_line(*key, out),
        Reply::Full => write_all(out, b"full\n"),
        Reply::Removed => write_all(out, b"removed\n"),
        Reply::NoSuchKey => write_all(out, b"no such key\n"),
        Reply::RemovedMany(many) => write_removed_line(*many, out),
    }
}
