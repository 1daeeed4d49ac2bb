//! Rows by place, some of them live.

ghost use Rattle.std.specs.Prelude.{◌≡◌, ◌<◌, Bool, List, length, replicate, slice_index_or, true, false};
ghost use Rattle.sw_query.specs.Scan.{cell_of};
ghost use Rattle.sw_table.specs.declared.row.Row.{Row};

use sw_table::{LiveTable, PackedRows, Row};

/// Rows by place, each of them live or not: what a scan reads. A row that is not live is passed over.
pub trait Places {
    /// The rows by place, whether live or not.
    ghost rows: { Self → List Row };

    /// Whether the row at each place is live. One that has no flag is not.
    ghost flags: { Self → List Bool };

    /// How many places there are.
    fn places(&self) -> usize
        ensures { result ≡ length (rows self.now) };

    /// Whether the row at a place is live.
    fn is_live(&self, place: usize) -> bool
        requires { place < length (rows self.now) }
        ensures { result ≡ slice_index_or (flags self.now) place false };

    /// A cell of the row at a place.
    fn cell(&self, place: usize, attr: usize) -> i64
        requires place { place < length (rows self.now) }
        requires attr { attr < 8 }
        ensures { (d : Row) → result ≡ cell_of attr (slice_index_or (rows self.now) place d) };

    /// The key of the row at a place.
    fn key(&self, place: usize) -> u64
        requires { place < length (rows self.now) }
        ensures { (d : Row) → result ≡ (slice_index_or (rows self.now) place d).key };
}

/// A plain list of rows, all of them live.
#[derive(Clone, Copy)]
pub(crate) struct AllLive<'a> {
    pub(crate) rows: &'a [Row],
}

impl<'a> Places for AllLive<'a> {
    ghost rows = { λ s. s.rows.now };

    ghost flags = { λ s. replicate (length s.rows.now) true };

    #[inline]
    fn places(&self) -> usize {
        self.rows.len()
    }

    #[inline]
    fn is_live(&self, place: usize) -> bool {
        true
    }

    #[inline]
    fn cell(&self, place: usize, attr: usize) -> i64 {
        self.rows[place].cells[attr]
    }

    #[inline]
    fn key(&self, place: usize) -> u64 {
        self.rows[place].key
    }
}

/// Packed rows are all live.
impl Places for PackedRows {
    ghost rows = { λ s. s.items };

    ghost flags = { λ s. replicate (length s.items) true };

    #[inline]
    fn places(&self) -> usize {
        self.len()
    }

    #[inline]
    fn is_live(&self, place: usize) -> bool {
        true
    }

    #[inline]
    fn cell(&self, place: usize, attr: usize) -> i64 {
        PackedRows::cell(self, place, attr)
    }

    #[inline]
    fn key(&self, place: usize) -> u64 {
        PackedRows::key(self, place)
    }
}

/// The rows that came to a table and are still held, by its flags.
impl Places for LiveTable {
    ghost rows = { λ t. t.came };

    ghost flags = { λ t. t.live };

    #[inline]
    fn places(&self) -> usize {
        self.came().len()
    }

    #[inline]
    fn is_live(&self, place: usize) -> bool {
        self.live()[place]
    }

    #[inline]
    fn cell(&self, place: usize, attr: usize) -> i64 {
        self.came().cell(place, attr)
    }

    #[inline]
    fn key(&self, place: usize) -> u64 {
        self.came().key(place)
    }
}
