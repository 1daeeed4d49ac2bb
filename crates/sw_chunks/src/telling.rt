//! The list of all updates that came, which contracts alone see.

ghost use Rattle.std.specs.Prelude.{◌≡◌, ◌++◌, ◌∷◌, [], ℕ, map, All};
ghost use Rattle.sw_table.specs.declared.row.Row.{Row};
ghost use Rattle.sw_table.specs.declared.row.Update.{Update};
ghost use Rattle.sw_table.specs.declared.row.Update.TheVariants.{Insert};
ghost use Rattle.sw_query.specs.Scan.{cell_of};
ghost use Rattle.sw_chunks.specs.Heads.{CellsFit, IsCell, told_in};

use std::snapshot::Snapshot;
use sw_query::{PackedRows, Row, Update};
use sw_tie::Book;

/// Tells of a cell that it is of 64 bits.
fn cell_fits(cell: &i64)
    ensures { IsCell cell.now }
{
    let _value = *cell;
}

/// Tells of cells that they are of 64 bits.
fn all_fit(cells: &[i64])
    ensures { All IsCell cells.now }
{
    for cell in cells {
        cell_fits(cell);
    }
}

/// Tells of a row that its cells are of 64 bits.
fn cells_fit(row: &Row)
    ensures { (a : ℕ) → IsCell (cell_of a row.now) }
{
    all_fit(row.cells.as_slice());
}

/// Adds an update at the end of the list.
fn tell(told: &mut Book<Update>, update: &Update)
    ensures { told_in told.new.rows ≡ told_in told.old.rows ++ update.now ∷ [] }
{
    let _share = told.open(Snapshot::of(update));
}

/// A list of these rows as insertions.
pub(crate) fn tell_rows(rows: &PackedRows) -> Book<Update>
    ensures told { told_in result.rows ≡ map Insert rows.now.items }
    ensures fit { All (λ (r : Row). (a : ℕ) → IsCell (cell_of a r)) rows.now.items }
{
    let mut told = Book::new();
    for at in 0..rows.len() {
        let row = rows.get(at);
        cells_fit(&row);
        tell(&mut told, &Update::Insert(row));
    }
    told
}

/// Tells of an update that the cells of its row are of 64 bits.
fn update_fits(update: &Update)
    ensures { CellsFit update.now }
{
    match update {
        Update::Insert(row) => cells_fit(row),
        Update::Remove(_) => {}
    }
}

/// Adds updates at the end of the list.
pub(crate) fn tell_all(told: &mut Book<Update>, updates: &[Update])
    ensures told { told_in told.new.rows ≡ told_in told.old.rows ++ updates.now }
    ensures fit { All (λ (u : Update). CellsFit u) updates.now }
{
    for update in updates {
        update_fits(update);
        tell(told, update);
    }
}
