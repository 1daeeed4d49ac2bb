//! Columns of cells as they are given.

ghost use Rattle.std.specs.Prelude.{◌≡◌, ◌≤◌, ◌+◌, ◌++◌, length, pos, unwrap_or, vec_len, true, All, IfOk};
ghost use Rattle.sw_rows.specs.declared.table.TheConstants.{MOST_ROWS};
ghost use Rattle.sw_table.specs.Packed.{HasRoomFor, IsSameRoom};
ghost use Rattle.sw_lang.specs.Replies.{kind_at};
ghost use Rattle.sw_arrays.specs.Columns.{HasCell, HaveCells, are_rows, cell_in, cells_at, first_lacking, flat_cells, has_last, is_cell_there, is_of_numbers, lacking_in, row_cells};

use crate::cells::is_cell;
use std::alloc::{AllocError, Global};
use sw_rows::{Kind, MOST_ROWS, Schema};

/// The cells of a column: that of the first row comes first, and each other one stands `stride` places behind that of the row
/// before it.
#[repr(C)]
#[derive(Clone, Copy)]
pub struct Cells<'a> {
    pub cells: &'a [i64],
    pub stride: u64,
}

/// Where a cell is wanted: its row and its column, both from 1.
#[repr(C)]
#[derive(Clone, Copy)]
pub struct Place {
    pub row: u64,
    pub column: u64,
}

/// The cell of a row, if there is one.
#[inline]
pub fn cell_in(column: Cells<'_>, row: usize) -> Option<i64>
    ensures { result ≡ cell_in column.entry row }
{
    let Some(place) = (row as u64).checked_mul(column.stride) else {
        return None;
    };
    match column.cells.get(place as usize) {
        Some(cell) => Some(*cell),
        None => None,
    }
}

/// The same, 0 where there is none.
#[inline]
fn cell_or_zero(column: Cells<'_>, row: usize) -> i64
    ensures { result ≡ unwrap_or (cell_in column.entry row) (pos 0) }
{
    match cell_in(column, row) {
        Some(cell) => cell,
        None => 0,
    }
}

/// The cells of a row, with zeros after them.
#[tactic(auto, using(crate::proofs::Rows::row_next, crate::proofs::Rows::row_whole))]
#[inline]
pub fn cells_at(columns: &[Cells<'_>], row: usize) -> [i64; 8]
    requires { length columns.now ≤ 8 }
    ensures { result ≡ cells_at columns.now row }
{
    let mut cells = [0; 8];
    for attr in 0..columns.len() {
        cells[attr] = cell_or_zero(columns[attr], row);
    }
    cells
}

/// The cell of a row that has one.
#[tactic(auto, using(crate::proofs::Rows::cell_is))]
#[inline]
fn cell_there(column: Cells<'_>, row: usize) -> i64
    requires { HasCell row column }
    ensures { result ≡ unwrap_or (cell_in column.entry row) (pos 0) }
{
    column.cells[row * column.stride as usize]
}

/// Adds the cells of a row, which each column has, at the end of a list that has room for them.
#[inline]
fn push_cells(columns: &[Cells<'_>], row: usize, out: &mut Vec<i64>)
    requires there { All (HasCell row) columns.now }
    requires room { HasRoomFor (length columns.now) out.old }
    ensures items { out.new.items ≡ out.old.items ++ row_cells columns.now row }
    ensures len { vec_len out.new ≡ vec_len out.old + length columns.now }
    ensures room { IsSameRoom out.old out.new }
{
    for attr in 0..columns.len() {
        out.push_reserved(cell_there(columns[attr], row));
    }
}

/// The cells of the first rows, one row's after another's. The one error is that there is no memory for them.
pub(crate) fn flat_cells(
    alloc: Global,
    columns: &[Cells<'_>],
    many: usize,
) -> Result<Vec<i64>, AllocError>
    requires most { length columns.now ≤ 8 }
    requires few { many ≤ MOST_ROWS }
    requires there { HaveCells many columns.now }
    ensures { IfOk result (λ cells. cells.items ≡ flat_cells columns.now many) }
{
    let mut cells = Vec::with_capacity(alloc, many * columns.len())?;
    for row in 0..many {
        push_cells(columns, row, &mut cells);
    }
    Ok(cells)
}

/// Whether a row has a cell of the attribute's kind.
fn is_cell_there(schema: &Schema, attr: usize, column: Cells<'_>, row: usize) -> bool
    ensures { result ≡ is_cell_there (kind_at schema.now attr) (cell_in column.entry row) }
{
    match cell_in(column, row) {
        Some(cell) => is_cell(schema, attr, cell),
        None => false,
    }
}

/// Whether any number is a cell of an attribute.
fn is_of_numbers(schema: &Schema, attr: usize) -> bool
    ensures { result ≡ is_of_numbers (kind_at schema.now attr) }
{
    if attr >= schema.len() {
        return true;
    }
    matches!(schema.kind(attr), Kind::Int | Kind::Fix(_))
}

/// Whether there is a cell in the last of so many rows, or there is no row.
fn has_last(column: Cells<'_>, many: usize) -> bool
    ensures { result ≡ has_last column.entry many }
{
    many == 0 || cell_in(column, many - 1).is_some()
}

/// The first row that has no cell of the attribute's kind, each of them looked at.
#[tactic(auto, using(crate::proofs::Rows::lacking_goes, crate::proofs::Rows::lacking_ends, crate::proofs::Rows::lacking_none))]
fn found_lacking(schema: &Schema, attr: usize, column: Cells<'_>, many: usize) -> Option<u64>
    ensures { result ≡ first_lacking (kind_at schema.now attr) column.entry 0 many }
{
    for row in 0..many {
        if !is_cell_there(schema, attr, column, row) {
            return Some(row as u64 + 1);
        }
    }
    None
}

/// The first of so many rows that has no cell of the attribute's kind, from 1.
#[tactic(auto, using(crate::proofs::Rows::numbers_there))]
fn first_lacking(schema: &Schema, attr: usize, column: Cells<'_>, many: usize) -> Option<u64>
    ensures { result ≡ first_lacking (kind_at schema.now attr) column.entry 0 many }
{
    if is_of_numbers(schema, attr) && has_last(column, many) {
        return None;
    }
    found_lacking(schema, attr, column, many)
}

/// The first cell that columns lack, column by column.
#[tactic(auto, using(crate::proofs::Rows::column_goes, crate::proofs::Rows::column_ends, crate::proofs::Rows::columns_done))]
pub(crate) fn lacking_in(schema: &Schema, columns: &[Cells<'_>], many: usize) -> Option<Place>
    ensures { result ≡ lacking_in schema.now many 0 columns.now }
{
    for attr in 0..columns.len() {
        if let Some(row) = first_lacking(schema, attr, columns[attr], many) {
            let column = attr as u64 + 1;
            return Some(Place { row, column });
        }
    }
    None
}

/// Whether columns have a cell of each attribute, for so many rows.
pub fn are_rows(schema: &Schema, columns: &[Cells<'_>], many: usize) -> bool
    ensures are { result ≡ are_rows schema.now columns.now many }
    ensures few { result ≡ true → length columns.now ≤ 8 }
{
    columns.len() == schema.len() && lacking_in(schema, columns, many).is_none()
}
