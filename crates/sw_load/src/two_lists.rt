//! Rows in two lists, one after the other.

ghost use Rattle.std.specs.Prelude.{◌≡◌, ◌≤◌, ◌<◌, ◌+◌, ◌^◌, ◌++◌, length, map, slice_index_or, take, OnOk, OnErr};
ghost use Rattle.sw_table.specs.declared.row.Row.{Row};
ghost use Rattle.sw_table.specs.Rows.{cell_of};
ghost use Rattle.sw_table.specs.Kept.{kept};
ghost use Rattle.sw_table.specs.Packed.{HasRoomFor};
ghost use Rattle.sw_load.specs.Appended.{Fit, IsAppended, cell_or_key, part_of};

use crate::appending::append_part;
use crate::columns::Columns;
use crate::part::Part;
use std::alloc::{AllocError, Global};
use std::marker::Model;
use sw_table::{PackedRows, Row};

/// There are fewer rows than this.
const END: usize = 1 << 63;

/// Rows, and later ones behind them in a list of their own: so that no row is moved or copied where others come.
#[derive(Debug)]
pub(crate) struct TwoLists {
    rows: PackedRows,
    more: PackedRows,
}

// By hand: the drop of a derived one is written out at each way out of a function.
impl Drop for TwoLists {
    fn drop(self) {
        let Self {
            rows: _rows,
            more: _more,
        } = self;
    }
}

impl Model for TwoLists {
    ghost use Rattle.std.specs.Prelude.{◌<◌, ◌+◌, ◌^◌, ◌++◌, length};
    ghost use Rattle.sw_table.specs.Packed.{Packed};

    ghost Value = { Packed };

    ghost view = { λ l. record { width = l.rows.width; items = l.rows.items ++ l.more.items } };

    ghost invariant = { λ l. length l.rows.items + length l.more.items < 2 ^ 63 };
}

impl TwoLists {
    /// These rows. Nothing is copied.
    pub(crate) fn of(alloc: Global, rows: PackedRows) -> TwoLists
        ensures { result ≡ rows }
    {
        let _many = rows.len();
        let more = PackedRows::new(alloc, rows.width());
        TwoLists { rows, more }
    }

    /// How many cells are kept of a row of the first list.
    #[inline]
    pub(crate) fn width(&self) -> usize
        ensures value { result ≡ self.now.width }
        ensures some { 1 ≤ self.now.width }
        ensures most { self.now.width ≤ 8 }
    {
        self.rows.width()
    }

    /// How many rows there are.
    #[inline]
    pub(crate) fn len(&self) -> usize
        ensures many { result ≡ length self.now.items }
        ensures few { result < 2 ^ 63 }
    {
        self.rows.len() + self.more.len()
    }

    /// How many rows came later. No clause tells of them.
    pub(crate) fn later(&self) -> usize {
        self.more.len()
    }

    /// The key of the row at a place.
    #[inline]
    pub(crate) fn key(&self, place: usize) -> u64
        requires { place < length self.now.items }
        ensures { (d : Row) → result ≡ (slice_index_or self.now.items place d).key }
    {
        let many = self.rows.len();
        if place < many {
            self.rows.key(place)
        } else {
            self.more.key(place - many)
        }
    }

    /// A cell of the row at a place, 0 past its cells.
    #[inline]
    pub(crate) fn cell(&self, place: usize, attr: usize) -> i64
        requires { place < length self.now.items }
        ensures { (d : Row) → result ≡ cell_of attr (slice_index_or self.now.items place d) }
    {
        let many = self.rows.len();
        if place < many {
            self.rows.cell(place, attr)
        } else {
            self.more.cell(place - many, attr)
        }
    }

    /// Adds the columns of a part of the rows at the ends of two lists, which have room for them.
    pub(crate) fn append_part(
        &self,
        part: Part,
        columns: Columns,
        heads: &mut Vec<i64>,
        tails: &mut Vec<i64>,
    )
        requires within { part.start + part.many ≤ length self.now.items }
        requires fit { Fit columns.tail (part_of self.now.items part) }
        requires heads { HasRoomFor part.many heads.old }
        requires tails { HasRoomFor part.many tails.old }
        ensures heads { IsAppended (map (cell_of columns.head) (part_of self.now.items part)) heads.old heads.new }
        ensures tails { IsAppended (map (cell_or_key columns.tail) (part_of self.now.items part)) tails.old tails.new }
    {
        let all = self.rows.len();
        let start = part.start.min(all);
        let many = part.many.min(all - start);
        let rest = Part {
            start: part.start - start,
            many: part.many - many,
        };
        append_part(&self.rows, Part { start, many }, columns, heads, tails);
        append_part(&self.more, rest, columns, heads, tails);
    }

    /// Adds rows at the end; after an error the rows are as they were.
    pub(crate) fn extend(&mut self, later: &PackedRows) -> Result<(), AllocError>
        ensures ok { OnOk result (self.new.items ≡ self.old.items ++ later.now.items) }
        ensures err { OnErr result (self.new.items ≡ self.old.items) }
    {
        let many = later.len();
        if END - self.len() <= many {
            return Err(AllocError);
        }
        self.more.extend_from(later, 0, many)
    }

    /// Keeps so many rows at most, the first ones.
    pub(crate) fn truncate(&mut self, many: usize)
        ensures { self.new.items ≡ take many self.old.items }
    {
        self.more.truncate(many.saturating_sub(self.rows.len()));
        self.rows.truncate(many);
    }

    /// Takes the rows out whose flags are false, and moves all others into the first list. After an error the rows are
    /// as they were.
    pub(crate) fn compact(&mut self, alloc: Global, live: &[bool]) -> Result<(), AllocError>
        requires { length live.now ≡ length self.old.items }
        ensures ok { OnOk result (self.new.items ≡ kept live.now self.old.items) }
        ensures err { OnErr result (self.new.items ≡ self.old.items) }
    {
        let before = self.rows.len();
        self.rows.extend_from(&self.more, 0, self.more.len())?;
        if let Err(e) = self.rows.keep(live) {
            self.rows.truncate(before);
            return Err(e);
        }
        let _left = self.rows.len();
        self.more = PackedRows::new(alloc, self.rows.width());
        Ok(())
    }
}
