//! Cells as they are given.

ghost use Rattle.std.specs.Prelude.{◌≡◌};
ghost use Rattle.sw_lang.specs.Replies.{kind_at};
ghost use Rattle.sw_arrays.specs.Asked.{are_cells, is_cell, row_in};

use crate::range::Fault;
use sw_rows::{Kind, Schema};

/// Whether a cell is one of an attribute's kind; of an attribute that is none of the table, any is.
pub fn is_cell(schema: &Schema, attr: usize, cell: i64) -> bool
    ensures { result ≡ is_cell (kind_at schema.now attr) cell }
{
    if attr >= schema.len() {
        return true;
    }
    match schema.kind(attr) {
        Kind::Int | Kind::Fix(_) => true,
        Kind::Flag => 0 <= cell && cell <= 1,
        Kind::Text => schema.text(cell).is_some(),
    }
}

/// Whether cells are those of the first attributes.
#[tactic(auto, using(crate::proofs::Steps::cells_go, crate::proofs::Steps::cells_end, crate::proofs::Steps::cells_done))]
fn are_cells(schema: &Schema, cells: &[i64]) -> bool
    ensures { result ≡ are_cells schema.now 0 cells.now }
{
    for attr in 0..cells.len() {
        if !is_cell(schema, attr, cells[attr]) {
            return false;
        }
    }
    true
}

/// The cells of a row, with zeros after them: one of its kind for each attribute.
pub fn row_of(schema: &Schema, cells: &[i64]) -> Result<[i64; 8], Fault>
    ensures { result ≡ row_in schema.now cells.now }
{
    if cells.len() != schema.len() || !are_cells(schema, cells) {
        return Err(Fault::BadCell);
    }
    let mut row = [0; 8];
    let (front, _) = row.split_at_mut(cells.len());
    front.copy_from_slice(cells);
    Ok(row)
}
