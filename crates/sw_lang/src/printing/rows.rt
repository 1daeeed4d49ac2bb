//! Rows go out as lines.

ghost use Rattle.std.specs.Prelude.{◌++◌, ◌∷◌, codes, decimal, map};
ghost use Rattle.sw_lang.specs.Replies.{cell_text, kind_at, more_cells, rows_line, kinds_at, row_shown, rows_text, shown, rows_shown};
ghost use Rattle.sw_lang.specs.Sinks.{Wrote};
ghost use Rattle.sw_lang.specs.Shown.{AreSound, domain_of};

use crate::domain::{AttrValues, values_or_int};
use crate::printing::cells::write_cell;
use crate::printing::sinks::{write_all, write_number};
use sw_rows::{Refusal, ReplyRows, Schema, Sink};

/// A comma, a space and a cell.
fn write_next_cell<W: Sink>(values: AttrValues, cell: &i64, out: &mut W) -> Result<(), Refusal>
    requires { AreSound values }
    ensures { Wrote W.taken W.failed out.old out.new result (codes ", " ++ cell_text (domain_of values.entry) cell.now) }
{
    write_all(out, b", ")?;
    write_cell(values, cell, out)
}

/// The cells after the first.
fn write_more_cells<W: Sink>(
    schema: &Schema,
    attrs: &[usize],
    cells: &[i64],
    out: &mut W,
) -> Result<(), Refusal>
    ensures { Wrote W.taken W.failed out.old out.new result (more_cells (map (kind_at schema.now) attrs.now) cells.now) }
{
    let mut attrs = attrs;
    let mut cells = cells;
    while let Some((attr, later)) = attrs.split_first() {
        let Some((cell, after)) = cells.split_first() else {
            return Ok(());
        };
        write_next_cell(values_or_int(schema, *attr), cell, out)?;
        attrs = later;
        cells = after;
    }
    Ok(())
}

/// The cells of some attributes, of which this is the first.
fn write_some_cells<W: Sink>(
    schema: &Schema,
    attr: usize,
    later: &[usize],
    cells: &[i64],
    out: &mut W,
) -> Result<(), Refusal>
    ensures { Wrote W.taken W.failed out.old out.new result (shown schema.now (attr ∷ later.now) cells.now) }
{
    let Some((cell, after)) = cells.split_first() else {
        return Ok(());
    };
    write_cell(values_or_int(schema, attr), cell, out)?;
    write_more_cells(schema, later, after, out)
}

/// The cells of a row.
pub(crate) fn write_cells<W: Sink>(
    schema: &Schema,
    attrs: &[usize],
    cells: &[i64],
    out: &mut W,
) -> Result<(), Refusal>
    ensures { Wrote W.taken W.failed out.old out.new result (shown schema.now attrs.now cells.now) }
{
    match attrs.split_first() {
        Some((attr, later)) => write_some_cells(schema, *attr, later, cells, out),
        None => Ok(()),
    }
}

/// A colon, a space and the cells of a row.
fn write_after_key<W: Sink>(
    schema: &Schema,
    attrs: &[usize],
    cells: &[i64],
    out: &mut W,
) -> Result<(), Refusal>
    ensures { Wrote W.taken W.failed out.old out.new result (codes ": " ++ shown schema.now attrs.now cells.now) }
{
    write_all(out, b": ")?;
    write_cells(schema, attrs, cells, out)
}

/// A row without its line's end.
fn write_row<W: Sink>(
    schema: &Schema,
    attrs: &[usize],
    key: u64,
    cells: &[i64],
    out: &mut W,
) -> Result<(), Refusal>
    ensures { Wrote W.taken W.failed out.old out.new result (row_shown schema.now attrs.now key cells.now) }
{
    write_number(key, out)?;
    write_after_key(schema, attrs, cells, out)
}

/// A row as a line.
fn write_row_line<W: Sink>(
    schema: &Schema,
    attrs: &[usize],
    key: u64,
    cells: &[i64],
    out: &mut W,
) -> Result<(), Refusal>
    ensures { Wrote W.taken W.failed out.old out.new result (row_shown schema.now attrs.now key cells.now ++ codes "\n") }
{
    write_row(schema, attrs, key, cells, out)?;
    write_all(out, b"\n")
}

/// Rows as lines.
fn write_row_lines<W: Sink>(
    schema: &Schema,
    attrs: &[usize],
    rows: &ReplyRows,
    out: &mut W,
) -> Result<(), Refusal>
    ensures { Wrote W.taken W.failed out.old out.new result (rows_shown schema.now attrs.now rows.now) }
{
    let mut left = rows.left();
    while let Some((key, cells)) = left.next() {
        write_row_line(schema, attrs, key, cells, out)?;
    }
    Ok(())
}

/// How many rows there are, without the bracket before it.
fn write_count_end<W: Sink>(count: usize, out: &mut W) -> Result<(), Refusal>
    ensures { Wrote W.taken W.failed out.old out.new result ((decimal count ++ codes " rows)") ++ codes "\n") }
{
    write_number(count, out)?;
    write_all(out, b" rows)\n")
}

/// How many rows there are, as a line.
fn write_rows_line<W: Sink>(count: usize, out: &mut W) -> Result<(), Refusal>
    ensures { Wrote W.taken W.failed out.old out.new result (rows_line count ++ codes "\n") }
{
    write_all(out, b"(")?;
    write_count_end(count, out)
}

/// Rows as lines, and how many there are.
pub(crate) fn write_rows<W: Sink>(
    schema: &Schema,
    attrs: &[usize],
    rows: &ReplyRows,
    out: &mut W,
) -> Result<(), Refusal>
    ensures { Wrote W.taken W.failed out.old out.new result (rows_text (kinds_at schema.now attrs.now) rows.now) }
{
    write_row_lines(schema, attrs, rows, out)?;
    write_rows_line(rows.len(), out)
}
