//! Rows as they are read.

ghost use Rattle.std.specs.Prelude.{◌≡◌, ◌≤◌, ◌<◌, ◌^◌, ◌++◌, [], drop, length, OnErr, OnOk};
ghost use Rattle.sw_rows.specs.Groups.{with_row};
ghost use Rattle.sw_table.specs.Packed.{zeros};

use std::alloc::{AllocError, Global};
use std::marker::Model;
use sw_table::PackedRows;

/// Adds cells at the end of a list, one by one, since they are few. After an error the list is as it was.
#[inline]
fn push_cells(list: &mut Vec<i64>, cells: &[i64]) -> Result<(), AllocError>
    ensures ok { OnOk result (list.new.items ≡ list.old.items ++ cells.now) }
    ensures err { OnErr result (list.new.items ≡ list.old.items) }
{
    list.reserve(cells.len())?;
    for cell in cells {
        list.push_reserved(*cell);
    }
    Ok(())
}

/// Rows with the keys 1, 2, 3 and so on, while they are read: for one more it need not be asked whether cells are shared, or keys follow one another.
#[derive(Drop)]
pub(crate) struct NumberedRows {
    width: usize,
    many: usize,
    cells: Vec<i64>,
}

impl Model for NumberedRows {
    ghost use Rattle.sw_rows.specs.Groups.{AreWhole};
    ghost use Rattle.sw_table.specs.Packed.{Packed, numbered};

    ghost Value = { Packed };

    ghost view = { λ r. numbered r.width r.many r.cells.items };

    ghost invariant = { λ r. AreWhole r.width r.many r.cells.items };
}

impl NumberedRows {
    /// No rows yet. It takes no memory.
    pub(crate) fn new(alloc: Global, width: usize) -> NumberedRows
        requires some { 1 ≤ width }
        requires most { width ≤ 8 }
        ensures { result ≡ record { width = width; items = [] } }
    {
        NumberedRows {
            width,
            many: 0,
            cells: Vec::new(alloc),
        }
    }

    /// Makes room for so many more rows, where there is memory for it; the rows stay.
    pub(crate) fn make_room(&mut self, more: usize)
        ensures { self.new ≡ self.old }
    {
        let _room = self.cells.reserve_exact(more.saturating_mul(self.width));
    }

    /// How many rows there are.
    #[inline]
    pub(crate) fn len(&self) -> usize
        ensures many { result ≡ length self.now.items }
        ensures few { result < 2 ^ 63 }
    {
        // for the prover: no more rows than cells, which are fewer than 2^63
        let _cells = self.cells.len();
        self.many
    }

    /// Adds a row of these cells, with the next key. After an error nothing has changed.
    #[inline]
    pub(crate) fn push(&mut self, cells: &[i64; 8]) -> Result<(), AllocError>
        requires { drop self.old.width cells.now ≡ drop self.old.width zeros }
        ensures ok { OnOk result (self.new ≡ with_row cells.now self.old) }
        ensures err { OnErr result (self.new ≡ self.old) }
    {
        // for the prover: one more row can be counted
        let _many = self.len();
        push_cells(&mut self.cells, &cells[..self.width])?;
        self.many += 1;
        Ok(())
    }

    /// The same rows. Nothing is copied.
    pub(crate) fn into_packed(self) -> PackedRows
        ensures { result ≡ self }
    {
        let NumberedRows { width, many, cells } = self;
        PackedRows::of_cells(width, many, cells)
    }
}
