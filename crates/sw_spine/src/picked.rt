//! A pass over some of a table's rows.

ghost use Rattle.std.specs.Prelude.{◌≡◌, ◌<◌, length, slice_index_or};
ghost use Rattle.sw_spine.specs.Listed.{flags_at, rows_at};

use crate::given::Listing;
use std::marker::Model;
use sw_rows::{LiveTable, Places};

/// The rows that came to a table, with a flag each, and the places of them to go over.
#[derive(Drop)]
pub(crate) struct Picked<'a> {
    pub(crate) table: &'a LiveTable,
    pub(crate) listing: &'a Listing,
}

impl<'a> Model for Picked<'a> {
    ghost use Rattle.std.specs.Prelude.{length};
    ghost use Rattle.sw_spine.specs.Indexes.{IsInside};
    ghost use Rattle.sw_spine.specs.Listed.{Given, listed};

    ghost Value = { Given };

    ghost view = { λ s. record {
      rows = s.table.now.came;
      live = s.table.now.live;
      places = listed s.listing.now.some.items s.listing.now.from (length s.table.now.came);
    } };

    ghost invariant = { λ s. IsInside (length s.table.now.came) s.listing.now.some.items s.listing.now.from };
}

impl<'a> Picked<'a> {
    /// The place that the pass goes over as the one of a number, from 0.
    #[inline]
    fn place(&self, number: usize) -> usize
        requires { number < length self.now.places }
        ensures place { result ≡ slice_index_or self.now.places number 0 }
        ensures inside { result < length self.now.rows }
    {
        let _all = self.table.came().len();
        if number < self.listing.some.len() {
            self.listing.some[number]
        } else {
            self.listing.from + (number - self.listing.some.len())
        }
    }
}

impl<'a> Places for Picked<'a> {
    ghost rows = { λ s. rows_at s.places s.rows };

    ghost flags = { λ s. flags_at s.places s.live };

    #[inline]
    fn places(&self) -> usize {
        self.listing.some.len() + (self.table.came().len() - self.listing.from)
    }

    #[inline]
    fn is_live(&self, number: usize) -> bool {
        self.table.live()[self.place(number)]
    }

    #[inline]
    fn cell(&self, number: usize, attr: usize) -> i64 {
        self.table.came().cell(self.place(number), attr)
    }

    #[inline]
    fn key(&self, number: usize) -> u64 {
        self.table.came().key(self.place(number))
    }
}
