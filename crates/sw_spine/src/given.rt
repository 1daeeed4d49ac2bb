//! A pass over the rows ever inserted that leaves out those that went long ago.

ghost use Rattle.std.specs.Prelude.{◌≡◌, ◌<◌, length, slice_index_or, IfOk};
ghost use Rattle.sw_table.specs.Kept.{kept};
ghost use Rattle.sw_spine.specs.Listed.{flags_at, rows_at};

use std::alloc::{AllocError, Global};
use std::marker::Model;
use sw_rows::{PackedRows, Places};

/// The places that a pass goes over: some of the first ones, rising, and all from a place on.
#[derive(Drop)]
pub(crate) struct Listing {
    pub(crate) some: Vec<usize>,
    pub(crate) from: usize,
}

/// The rows ever inserted, opening rows first, with a flag each, and the places to go over.
#[derive(Drop)]
pub struct Given<'a> {
    pub(crate) rows: &'a PackedRows,
    pub(crate) came: &'a PackedRows,
    pub(crate) live: &'a [bool],
    pub(crate) listing: &'a Listing,
}

impl<'a> Model for Given<'a> {
    ghost use Rattle.std.specs.Prelude.{◌++◌, length};
    ghost use Rattle.sw_spine.specs.Listed.{Given, IsListed, listed};

    ghost Value = { Given };

    ghost view = { λ s. record {
      rows = s.rows.now.items ++ s.came.now.items;
      live = s.live.now;
      places = listed s.listing.now.some.items s.listing.now.from (length (s.rows.now.items ++ s.came.now.items));
    } };

    ghost invariant = { λ s. IsListed
        (s.rows.now.items ++ s.came.now.items)
        s.live.now
        s.listing.now.some.items
        s.listing.now.from };
}

impl<'a> Given<'a> {
    /// The place that the pass goes over as the one of a number, from 0.
    #[inline]
    fn place(&self, number: usize) -> usize
        requires { number < length self.now.places }
        ensures place { result ≡ slice_index_or self.now.places number 0 }
        ensures inside { result < length self.now.rows }
        ensures flags { length self.now.live ≡ length self.now.rows }
    {
        if number < self.listing.some.len() {
            self.listing.some[number]
        } else {
            self.listing.from + (number - self.listing.some.len())
        }
    }

    /// The places of live rows, in their order.
    pub(crate) fn live_places(&self, alloc: Global) -> Result<Vec<usize>, AllocError>
        ensures { IfOk result (λ found. found.items ≡ kept (flags_at self.now.places self.now.live) self.now.places) }
    {
        let mut found = Vec::new(alloc);
        for number in 0..self.places() {
            if self.is_live(number) {
                found.push(self.place(number))?;
            }
        }
        Ok(found)
    }
}

impl<'a> Places for Given<'a> {
    ghost rows = { λ s. rows_at s.places s.rows };

    ghost flags = { λ s. flags_at s.places s.live };

    #[inline]
    fn places(&self) -> usize {
        self.listing.some.len() + (self.rows.len() + self.came.len() - self.listing.from)
    }

    #[inline]
    fn is_live(&self, number: usize) -> bool {
        self.live[self.place(number)]
    }

    #[inline]
    fn cell(&self, number: usize, attr: usize) -> i64 {
        let place = self.place(number);
        if place < self.rows.len() {
            self.rows.cell(place, attr)
        } else {
            self.came.cell(place - self.rows.len(), attr)
        }
    }

    #[inline]
    fn key(&self, number: usize) -> u64 {
        let place = self.place(number);
        if place < self.rows.len() {
            self.rows.key(place)
        } else {
            self.came.key(place - self.rows.len())
        }
    }
}
