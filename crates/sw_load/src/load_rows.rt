//! The rows of a load.

ghost use Rattle.std.specs.Prelude.{◌≡◌, ◌≤◌, ◌<◌, ◌+◌, ◌^◌, ◌++◌, true, pos, All, length, map, replicate, slice_index_or, vec_len, MatchOption, OnOk, OnErr};
ghost use Rattle.sw_query.specs.Scan.{cell_of};
ghost use Rattle.sw_table.specs.declared.row.Row.{Row};
ghost use Rattle.sw_table.specs.Rows.{HasNoRow, IsRowAt};
ghost use Rattle.sw_table.specs.Kept.{kept};
ghost use Rattle.sw_table.specs.Live.{Rises, key_of};
ghost use Rattle.sw_table.specs.Packed.{HasRoomFor, IsSameRoom};
ghost use Rattle.sw_load.specs.Keys.{IsPlaceOf};

use crate::columns::{Column, Columns};
use crate::flags::are_all_live;
use crate::gone::place_of;
use crate::left::{append_left, compact, keep};
use crate::two_lists::TwoLists;
use std::alloc::{AllocError, Global};
use std::marker::Model;
use sw_query::Places;
use sw_table::{PackedRows, Row};

/// With more places than these that are gone the rows are moved.
const MOST_GONE: usize = 1024;

/// With more later rows than these the rows are moved.
const MOST_LATER: usize = 65_536;

/// The rows of a load: those that it began with and those that came later, without those that are gone. A row that goes
/// moves no other, until very many are gone.
#[derive(Debug)]
pub struct LoadRows {
    all: TwoLists,
    gone: Vec<usize>,
}

// By hand: the drop of a derived one is written out at each way out of a function.
impl Drop for LoadRows {
    fn drop(self) {
        let Self {
            all: _all,
            gone: _gone,
        } = self;
    }
}

impl Model for LoadRows {
    ghost use Rattle.sw_table.specs.Packed.{Packed};
    ghost use Rattle.sw_load.specs.Left.{AreGoneIn, left_in};

    ghost Value = { Packed };

    ghost view = { λ l. record { width = l.all.width; items = left_in l.all l.gone } };

    ghost invariant = { λ l. AreGoneIn l.all l.gone };
}

impl LoadRows {
    /// These rows. Nothing is copied.
    pub fn of(alloc: Global, rows: PackedRows) -> LoadRows
        ensures { result ≡ rows }
    {
        LoadRows {
            all: TwoLists::of(alloc, rows),
            gone: Vec::new(alloc),
        }
    }

    /// How many cells are kept of a row.
    #[inline]
    pub fn width(&self) -> usize
        ensures value { result ≡ self.now.width }
        ensures some { 1 ≤ self.now.width }
        ensures most { self.now.width ≤ 8 }
    {
        self.all.width()
    }

    /// How many rows there are.
    #[inline]
    pub fn len(&self) -> usize
        ensures many { result ≡ length self.now.items }
        ensures few { result < 2 ^ 63 }
    {
        self.all.len() - self.gone.len()
    }

    /// The key of the row at a place.
    pub fn key(&self, place: usize) -> u64
        requires { place < length self.now.items }
        ensures { (d : Row) → result ≡ (slice_index_or self.now.items place d).key }
    {
        let _many = self.all.len();
        self.all.key(place_of(&self.gone, place))
    }

    /// A cell of the row at a place, 0 past its cells.
    pub fn cell(&self, place: usize, attr: usize) -> i64
        requires place { place < length self.now.items }
        ensures { (d : Row) → result ≡ cell_of attr (slice_index_or self.now.items place d) }
    {
        let _many = self.all.len();
        self.all.cell(place_of(&self.gone, place), attr)
    }

    /// The first place, by binary search, of a row whose key is not below this one, or how many rows there are.
    fn first_not_below(&self, key: u64) -> usize
        requires { Rises key_of self.now.items }
        ensures { IsPlaceOf key self.now.items result }
    {
        let mut low = 0;
        let mut high = self.len();
        while low < high {
            let mid = low + (high - low) / 2;
            if self.key(mid) < key {
                low = mid + 1;
            } else {
                high = mid;
            }
        }
        low
    }

    /// The place of the row of a key, by binary search.
    pub fn find(&self, key: u64) -> Option<usize>
        requires { Rises key_of self.now.items }
        ensures { MatchOption result (HasNoRow key self.now.items) (IsRowAt key self.now.items) }
    {
        let place = self.first_not_below(key);
        if place < self.len() && self.key(place) == key {
            Some(place)
        } else {
            None
        }
    }

    /// Adds each row's cells of two attributes at the ends of two lists, which have room for them.
    pub fn append_cells(&self, head: usize, tail: usize, heads: &mut Vec<i64>, tails: &mut Vec<i64>)
        requires heads { HasRoomFor (length self.now.items) heads.old }
        requires tails { HasRoomFor (length self.now.items) tails.old }
        ensures heads { heads.new.items ≡ heads.old.items ++ map (cell_of head) self.now.items }
        ensures tails { tails.new.items ≡ tails.old.items ++ map (cell_of tail) self.now.items }
        ensures head_room { IsSameRoom heads.old heads.new }
        ensures tail_room { IsSameRoom tails.old tails.new }
        ensures head_len { vec_len heads.new ≡ vec_len heads.old + length self.now.items }
        ensures tail_len { vec_len tails.new ≡ vec_len tails.old + length self.now.items }
    {
        let tail = Column::Cell(tail);
        append_left(&self.all, &self.gone, Columns { head, tail }, heads, tails);
    }

    /// Adds each row's cell of an attribute at the end of a list, and its key, which fits a cell, at the end of another
    /// list; both have room for them.
    pub fn append_keys(&self, head: usize, heads: &mut Vec<i64>, keys: &mut Vec<i64>)
        requires small { All (λ (r : Row). r.key < 2 ^ 63) self.now.items }
        requires heads { HasRoomFor (length self.now.items) heads.old }
        requires keys { HasRoomFor (length self.now.items) keys.old }
        ensures heads { heads.new.items ≡ heads.old.items ++ map (cell_of head) self.now.items }
        ensures keys { keys.new.items ≡ keys.old.items ++ map (λ (r : Row). pos r.key) self.now.items }
        ensures head_room { IsSameRoom heads.old heads.new }
        ensures key_room { IsSameRoom keys.old keys.new }
        ensures head_len { vec_len heads.new ≡ vec_len heads.old + length self.now.items }
        ensures key_len { vec_len keys.new ≡ vec_len keys.old + length self.now.items }
    {
        let tail = Column::Key;
        append_left(&self.all, &self.gone, Columns { head, tail }, heads, keys);
    }

    /// Appends later rows, and keeps of all of them those whose flags are true. After an error the rows are as they
    /// were.
    pub fn keep(&mut self, later: &PackedRows, live: &[bool]) -> Result<(), AllocError>
        requires { length live.now ≡ length (self.old.items ++ later.now.items) }
        ensures ok { OnOk result (self.new.items ≡ kept live.now (self.old.items ++ later.now.items)) }
        ensures err { OnErr result (self.new.items ≡ self.old.items) }
    {
        if later.len() == 0 && are_all_live(live) {
            return Ok(());
        }
        keep(&mut self.all, &mut self.gone, later, live)?;
        if self.gone.len() > MOST_GONE || self.all.later() > MOST_LATER {
            // Where there is no memory for it, the load stays as it is.
            let _compacted = compact(&mut self.all, &mut self.gone);
        }
        Ok(())
    }
}

/// The rows of a load are all live.
impl Places for LoadRows {
    ghost rows = { λ s. s.items };

    ghost flags = { λ s. replicate (length s.items) true };

    #[inline]
    fn places(&self) -> usize {
        self.len()
    }

    #[inline]
    fn is_live(&self, place: usize) -> bool {
        true
    }

    #[inline]
    fn cell(&self, place: usize, attr: usize) -> i64 {
        LoadRows::cell(self, place, attr)
    }

    #[inline]
    fn key(&self, place: usize) -> u64 {
        LoadRows::key(self, place)
    }
}
