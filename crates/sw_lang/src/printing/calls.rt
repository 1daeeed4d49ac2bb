//! Calls go out as text.

ghost use Rattle.std.specs.Prelude.{◌≡◌, ◌++◌, ◌||◌, codes, decimal, false, is_some};
ghost use Rattle.sw_lang.specs.PrintedCalls.{call_text, comparison, cond_terms, joiner, name_at, terms_text, want_text, where_text, attrs_text, bounds_text, equal_text, lower_text, more_attrs, query_text, row_text, term_text, text_cond_text, upper_text};
ghost use Rattle.sw_lang.specs.Replies.{cell_text};
ghost use Rattle.sw_lang.specs.Sinks.{Wrote};
ghost use Rattle.sw_lang.specs.Shown.{AreSound, domain_of};

use crate::domain::{AttrValues, values_or_int};
use crate::printing::cells::write_cell;
use crate::printing::rows::write_cells;
use crate::printing::sinks::{write_all, write_number};
use crate::reading::single::are_texts;
use sw_rows::{Bound, Call, Cond, Query, Refusal, Schema, Sink, Want};

/// The name of an attribute.
fn write_name<W: Sink>(schema: &Schema, attr: usize, out: &mut W) -> Result<(), Refusal>
    ensures { Wrote W.taken W.failed out.old out.new result (name_at schema.now attr) }
{
    if attr < schema.len() {
        write_all(out, schema.name(attr).as_bytes())
    } else {
        Ok(())
    }
}

/// A comma, a space and a name.
fn write_next_name<W: Sink>(schema: &Schema, attr: usize, out: &mut W) -> Result<(), Refusal>
    ensures { Wrote W.taken W.failed out.old out.new result (codes ", " ++ name_at schema.now attr) }
{
    write_all(out, b", ")?;
    write_name(schema, attr, out)
}

fn write_more_names<W: Sink>(schema: &Schema, attrs: &[usize], out: &mut W) -> Result<(), Refusal>
    ensures { Wrote W.taken W.failed out.old out.new result (more_attrs schema.now attrs.now) }
{
    let mut attrs = attrs;
    while let Some((attr, later)) = attrs.split_first() {
        write_next_name(schema, *attr, out)?;
        attrs = later;
    }
    Ok(())
}

fn write_some_names<W: Sink>(
    schema: &Schema,
    attr: usize,
    later: &[usize],
    out: &mut W,
) -> Result<(), Refusal>
    ensures { Wrote W.taken W.failed out.old out.new result (name_at schema.now attr ++ more_attrs schema.now later.now) }
{
    write_name(schema, attr, out)?;
    write_more_names(schema, later, out)
}

fn write_names<W: Sink>(schema: &Schema, attrs: &[usize], out: &mut W) -> Result<(), Refusal>
    ensures { Wrote W.taken W.failed out.old out.new result (attrs_text schema.now attrs.now) }
{
    match attrs.split_first() {
        Some((attr, later)) => write_some_names(schema, *attr, later, out),
        None => Ok(()),
    }
}

fn write_select<W: Sink>(schema: &Schema, attrs: &[usize], out: &mut W) -> Result<(), Refusal>
    ensures { Wrote W.taken W.failed out.old out.new result (codes "select " ++ attrs_text schema.now attrs.now) }
{
    write_all(out, b"select ")?;
    write_names(schema, attrs, out)
}

/// A word, with its space, and a name.
fn write_aggregate<W: Sink>(
    word: &[u8],
    schema: &Schema,
    attr: usize,
    out: &mut W,
) -> Result<(), Refusal>
    ensures { Wrote W.taken W.failed out.old out.new result (word.now ++ name_at schema.now attr) }
{
    write_all(out, word)?;
    write_name(schema, attr, out)
}

/// What is asked for.
fn write_want<W: Sink>(schema: &Schema, want: &Want, out: &mut W) -> Result<(), Refusal>
    ensures { Wrote W.taken W.failed out.old out.new result (want_text schema.now want.now) }
{
    match want {
        Want::Rows(attrs) => write_select(schema, attrs.as_slice(), out),
        Want::Count => write_all(out, b"count"),
        Want::Sum(attr) => write_aggregate(b"sum ", schema, *attr, out),
        Want::Min(attr) => write_aggregate(b"min ", schema, *attr, out),
        Want::Max(attr) => write_aggregate(b"max ", schema, *attr, out),
    }
}

/// An operator with its spaces, and a value.
fn write_compared<W: Sink>(
    values: AttrValues,
    op: &[u8],
    value: &i64,
    out: &mut W,
) -> Result<(), Refusal>
    requires { AreSound values }
    ensures { Wrote W.taken W.failed out.old out.new result (op.now ++ cell_text (domain_of values.entry) value.now) }
{
    write_all(out, op)?;
    write_cell(values, value, out)
}

fn write_comparison<W: Sink>(
    schema: &Schema,
    attr: usize,
    op: &[u8],
    value: &i64,
    out: &mut W,
) -> Result<(), Refusal>
    ensures { Wrote W.taken W.failed out.old out.new result (comparison schema.now attr op.now value.now) }
{
    write_name(schema, attr, out)?;
    write_compared(values_or_int(schema, attr), op, value, out)
}

fn write_joiner<W: Sink>(started: bool, out: &mut W) -> Result<(), Refusal>
    ensures { Wrote W.taken W.failed out.old out.new result (joiner started) }
{
    write_all(out, if started { b" and " } else { b" where " })
}

/// A comparison after its joiner.
fn write_term<W: Sink>(
    schema: &Schema,
    started: bool,
    attr: usize,
    op: &[u8],
    value: &i64,
    out: &mut W,
) -> Result<(), Refusal>
    ensures { Wrote W.taken W.failed out.old out.new result (term_text started schema.now attr op.now value.now) }
{
    write_joiner(started, out)?;
    write_comparison(schema, attr, op, value, out)
}

fn write_lower<W: Sink>(
    schema: &Schema,
    started: bool,
    cond: &Cond,
    out: &mut W,
) -> Result<(), Refusal>
    ensures { Wrote W.taken W.failed out.old out.new result (lower_text started schema.now cond.now) }
{
    match &cond.lower {
        Some(Bound::Before(value)) => write_term(schema, started, cond.attr, b" >= ", value, out),
        Some(Bound::After(value)) => write_term(schema, started, cond.attr, b" > ", value, out),
        None => Ok(()),
    }
}

fn write_upper<W: Sink>(
    schema: &Schema,
    started: bool,
    cond: &Cond,
    out: &mut W,
) -> Result<(), Refusal>
    ensures { Wrote W.taken W.failed out.old out.new result (upper_text started schema.now cond.now) }
{
    match &cond.upper {
        Some(Bound::Before(value)) => write_term(schema, started, cond.attr, b" < ", value, out),
        Some(Bound::After(value)) => write_term(schema, started, cond.attr, b" <= ", value, out),
        None => Ok(()),
    }
}

/// Whether a comparison stands before an upper bound's.
fn continues(started: bool, lower: Option<Bound>) -> bool
    ensures { result ≡ (started || is_some lower) }
{
    started || lower.is_some()
}

/// The texts that bounds name: the lower bound's, and the upper one's where it is another.
fn write_equal<W: Sink>(
    schema: &Schema,
    started: bool,
    attr: usize,
    texts: (&i64, &i64),
    out: &mut W,
) -> Result<(), Refusal>
    ensures { Wrote W.taken W.failed out.old out.new result (equal_text started schema.now attr texts.entry) }
{
    let (lower, upper) = texts;
    write_term(schema, started, attr, b" = ", lower, out)?;
    if lower == upper {
        return Ok(());
    }
    write_term(schema, true, attr, b" = ", upper, out)
}

/// The comparisons of bounds.
fn write_bounds<W: Sink>(
    schema: &Schema,
    started: bool,
    cond: &Cond,
    out: &mut W,
) -> Result<(), Refusal>
    ensures { Wrote W.taken W.failed out.old out.new result (bounds_text started schema.now cond.now) }
{
    write_lower(schema, started, cond, out)?;
    write_upper(schema, continues(started, cond.lower), cond, out)
}

/// The comparisons of a condition on texts.
fn write_text_cond<W: Sink>(
    schema: &Schema,
    started: bool,
    cond: &Cond,
    out: &mut W,
) -> Result<(), Refusal>
    ensures { Wrote W.taken W.failed out.old out.new result (text_cond_text started schema.now cond.now) }
{
    match (&cond.lower, &cond.upper) {
        (Some(Bound::Before(lower)), Some(Bound::After(upper))) => {
            write_equal(schema, started, cond.attr, (lower, upper), out)
        }
        _ => write_bounds(schema, started, cond, out),
    }
}

/// The comparisons of a condition.
fn write_cond<W: Sink>(
    schema: &Schema,
    started: bool,
    cond: &Cond,
    out: &mut W,
) -> Result<(), Refusal>
    ensures { Wrote W.taken W.failed out.old out.new result (terms_text started (cond_terms schema.now cond.now)) }
{
    if are_texts(values_or_int(schema, cond.attr)) {
        write_text_cond(schema, started, cond, out)
    } else {
        write_bounds(schema, started, cond, out)
    }
}

/// Whether a comparison stands before what follows a condition.
fn starts(started: bool, cond: &Cond) -> bool
    ensures { result ≡ (started || (is_some cond.now.lower || is_some cond.now.upper)) }
{
    started || cond.lower.is_some() || cond.upper.is_some()
}

/// The comparisons of conditions.
fn write_where<W: Sink>(schema: &Schema, conds: &[Cond], out: &mut W) -> Result<(), Refusal>
    ensures { Wrote W.taken W.failed out.old out.new result (where_text schema.now false conds.now) }
{
    let mut conds = conds;
    let mut started = false;
    while let Some((cond, later)) = conds.split_first() {
        write_cond(schema, started, cond, out)?;
        started = starts(started, cond);
        conds = later;
    }
    Ok(())
}

fn write_query<W: Sink>(schema: &Schema, query: &Query, out: &mut W) -> Result<(), Refusal>
    ensures { Wrote W.taken W.failed out.old out.new result (query_text schema.now query.now) }
{
    write_want(schema, &query.want, out)?;
    write_where(schema, query.conds.as_slice(), out)
}

/// The numbers of all attributes that a table may have.
const ATTRS: [usize; 8] = [0, 1, 2, 3, 4, 5, 6, 7];

/// A cell for each attribute.
fn write_row_cells<W: Sink>(schema: &Schema, cells: &[i64], out: &mut W) -> Result<(), Refusal>
    ensures { Wrote W.taken W.failed out.old out.new result (row_text schema.now cells.now) }
{
    write_cells(schema, &ATTRS[..schema.len()], cells, out)
}

fn write_insert<W: Sink>(schema: &Schema, cells: &[i64], out: &mut W) -> Result<(), Refusal>
    ensures { Wrote W.taken W.failed out.old out.new result (codes "insert " ++ row_text schema.now cells.now) }
{
    write_all(out, b"insert ")?;
    write_row_cells(schema, cells, out)
}

fn write_delete<W: Sink>(key: u64, out: &mut W) -> Result<(), Refusal>
    ensures { Wrote W.taken W.failed out.old out.new result (codes "delete " ++ decimal key) }
{
    write_all(out, b"delete ")?;
    write_number(key, out)
}

fn write_delete_where<W: Sink>(schema: &Schema, conds: &[Cond], out: &mut W) -> Result<(), Refusal>
    ensures { Wrote W.taken W.failed out.old out.new result (codes "delete" ++ where_text schema.now false conds.now) }
{
    write_all(out, b"delete")?;
    write_where(schema, conds, out)
}

/// Writes a call as a line without its end.
///
/// Conditions stand in their order, each as a comparison for its lower bound and one for its upper bound; one on texts
/// as equality with the text of its lower bound, and with that of its upper bound where it is another. Takes no memory.
/// Refused `Output` where the sink fails; then a beginning of the text went out.
pub fn write_call<W: Sink>(schema: &Schema, call: &Call, out: &mut W) -> Result<(), Refusal>
    ensures { Wrote W.taken W.failed out.old out.new result (call_text schema.now call.now) }
{
    match call {
        Call::Select(query) => write_query(schema, query, out),
        Call::Insert(cells) => write_insert(schema, cells, out),
        Call::Delete(key) => write_delete(*key, out),
        Call::DeleteWhere(conds) => write_delete_where(schema, conds.as_slice(), out),
    }
}
