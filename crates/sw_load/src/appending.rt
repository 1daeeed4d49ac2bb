//! Cells and keys of rows, added at the ends of two lists.

ghost use Rattle.std.specs.Prelude.{◌≡◌, ◌≤◌, ◌<◌, ◌+◌, ◌^◌, All, length, map};
ghost use Rattle.sw_table.specs.declared.row.Row.{Row};
ghost use Rattle.sw_table.specs.Rows.{cell_of};
ghost use Rattle.sw_table.specs.Packed.{HasRoomFor, stretch};
ghost use Rattle.sw_load.specs.Appended.{Fit, IsAppended, cell_or_key, key_cell, part_of};
ghost use Rattle.sw_load.specs.declared.appending.TheConstants.{BLOCK};

use crate::columns::{Column, Columns};
use crate::part::Part;
use std::mem;
use sw_table::{PackedRows, Row};

/// How many rows are gone through together. What a list holds of them is read into a block first, and goes into the list
/// from there: where memory that may lie anywhere is written row by row, the compiler asks for each row anew how rows are kept.
const BLOCK: usize = 256;

/// Reads the cells of an attribute of the rows from a place on into a block, as many as it has.
fn read_cells(rows: &PackedRows, start: usize, attr: usize, block: &mut [i64])
    requires { start + length block.old ≤ length rows.now.items }
    ensures { block.new ≡ map (cell_of attr) (stretch start (length block.old) rows.now.items) }
{
    let _all = rows.len();
    for k in 0..block.len() {
        block[k] = rows.cell(start + k, attr);
    }
}

/// Reads the keys of the rows from a place on, which fit a cell, into a block, as many as it has.
fn read_keys(rows: &PackedRows, start: usize, block: &mut [i64])
    requires within { start + length block.old ≤ length rows.now.items }
    requires small { All (λ (r : Row). r.key < 2 ^ 63) (stretch start (length block.old) rows.now.items) }
    ensures { block.new ≡ map key_cell (stretch start (length block.old) rows.now.items) }
{
    let _all = rows.len();
    for k in 0..block.len() {
        block[k] = rows.key(start + k) as i64;
    }
}

/// Takes the list out: what fills a list of its own holds its length in a register, and not in memory.
#[inline]
fn taken(out: &mut Vec<i64>) -> Vec<i64>
    ensures { result ≡ out.old }
{
    let alloc = *out.allocator();
    mem::replace(out, Vec::new(alloc))
}

/// Adds cells at the end of a list, which has room for them.
fn append(cells: &[i64], out: &mut Vec<i64>)
    requires { HasRoomFor (length cells.now) out.old }
    ensures { IsAppended cells.now out.old out.new }
{
    let mut list = taken(out);
    for cell in cells {
        list.push_reserved(*cell);
    }
    *out = list;
}

/// Adds what a list holds of the rows of a part, a block at most, at the list's end, where there is room for it.
fn append_block(rows: &PackedRows, part: Part, column: Column, out: &mut Vec<i64>)
    requires few { part.many ≤ BLOCK }
    requires within { part.start + part.many ≤ length rows.now.items }
    requires fit { Fit column (part_of rows.now.items part) }
    requires room { HasRoomFor part.many out.old }
    ensures { IsAppended (map (cell_or_key column) (part_of rows.now.items part)) out.old out.new }
{
    let mut block = [0; BLOCK];
    let cells = &mut block[..part.many];
    match column {
        Column::Key => read_keys(rows, part.start, cells),
        Column::Cell(attr) => read_cells(rows, part.start, attr, cells),
    }
    append(cells, out);
}

/// Adds the columns of a part of the rows at the ends of two lists, which have room for them, block by block.
pub(crate) fn append_part(
    rows: &PackedRows,
    part: Part,
    columns: Columns,
    heads: &mut Vec<i64>,
    tails: &mut Vec<i64>,
)
    requires within { part.start + part.many ≤ length rows.now.items }
    requires fit { Fit columns.tail (part_of rows.now.items part) }
    requires heads { HasRoomFor part.many heads.old }
    requires tails { HasRoomFor part.many tails.old }
    ensures heads { IsAppended (map (cell_of columns.head) (part_of rows.now.items part)) heads.old heads.new }
    ensures tails { IsAppended (map (cell_or_key columns.tail) (part_of rows.now.items part)) tails.old tails.new }
{
    let _all = rows.len();
    let mut from = part.start;
    let end = part.start + part.many;
    while from < end {
        let next = Part {
            start: from,
            many: BLOCK.min(end - from),
        };
        append_block(rows, next, Column::Cell(columns.head), heads);
        append_block(rows, next, columns.tail, tails);
        from += next.many;
    }
}
