//! Rows of a reply, copied column by column into a caller's block.

ghost use Rattle.std.specs.Prelude.{◌≡◌, drop, pos, slice_index_or};
ghost use Rattle.sw_arrays.specs.Blocks.{column_in, filled, keys_in, many_in};

use sw_rows::{ReplyRows, RowsLeft};

/// The rows from one on.
#[tactic(auto, using(crate::proofs::Blocks::row_passed, crate::proofs::Blocks::rows_ended))]
fn from_row(rows: &ReplyRows, from: usize) -> RowsLeft<'_>
    ensures { result ≡ drop from rows.now }
{
    let mut left = rows.left();
    for _ in 0..from {
        if left.next().is_none() {
            return left;
        }
    }
    left
}

/// Copies the keys of rows from one on, as many as there is room for, and answers how many.
#[tactic(auto, using(crate::proofs::Blocks::copied_next, crate::proofs::Blocks::copied_all, crate::proofs::Blocks::copied_full, crate::proofs::Blocks::row_passed, crate::proofs::Blocks::row_within))]
pub fn keys_into(rows: &ReplyRows, from: usize, out: &mut [u64]) -> usize
    ensures copied { out.new ≡ filled (drop from (keys_in rows.now)) out.old }
    ensures many { result ≡ many_in (drop from (keys_in rows.now)) out.old }
{
    let mut left = from_row(rows, from);
    for place in 0..out.len() {
        match left.next() {
            Some((key, _)) => out[place] = key,
            None => return place,
        }
    }
    out.len()
}

/// The same of a column of their cells; of a column that a row does not have the cell is 0.
#[tactic(auto, using(crate::proofs::Blocks::copied_next, crate::proofs::Blocks::copied_all, crate::proofs::Blocks::copied_full, crate::proofs::Blocks::row_passed, crate::proofs::Blocks::row_within))]
pub fn cells_into(rows: &ReplyRows, column: usize, from: usize, out: &mut [i64]) -> usize
    ensures copied { out.new ≡ filled (drop from (column_in column rows.now)) out.old }
    ensures many { result ≡ many_in (drop from (column_in column rows.now)) out.old }
{
    let mut left = from_row(rows, from);
    for place in 0..out.len() {
        match left.next() {
            Some((_, cells)) => out[place] = cell_at(cells, column),
            None => return place,
        }
    }
    out.len()
}

/// The cell at a place, or 0.
fn cell_at(cells: &[i64], column: usize) -> i64
    ensures { result ≡ slice_index_or cells.now column (pos 0) }
{
    match cells.get(column) {
        Some(cell) => *cell,
        None => 0,
    }
}
