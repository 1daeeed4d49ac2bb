//! Records that are read together.

ghost use Rattle.std.specs.Prelude.{◌≡◌, ◌<◌, ◌≤◌, [], length, slice_index_or, take, true, IfOk, OnOk};
ghost use Rattle.csv.specs.Records.{fields_of};
ghost use Rattle.sw_rows.specs.Groups.{group_and};
ghost use Rattle.sw_rows.specs.Records.{IsPlain, left_in};

use crate::table::records::Records;
use csv::ByteRecord;
use std::alloc::{AllocError, Global};
use std::marker::Model;

/// How many records are read together: it divides `MOST_ROWS`.
pub(crate) const TOGETHER: usize = 16;

/// Makes a place behind the others, if there is none yet.
fn make_place(places: &mut Vec<ByteRecord>, at: usize) -> Result<(), AllocError>
    requires { at ≤ length places.old.items }
    ensures within { OnOk result (at < length places.new.items) }
    ensures others { take at places.new.items ≡ take at places.old.items }
{
    if at == places.len() {
        let alloc = *places.allocator();
        places.push(ByteRecord::new(alloc))?;
    }
    Ok(())
}

/// The records that were read last, in places that are filled anew each time.
#[derive(Drop)]
pub(crate) struct Group {
    places: Vec<ByteRecord>,
    many: usize,
}

impl Model for Group {
    ghost use Rattle.std.specs.Prelude.{◌≤◌, List, ℕ, length};
    ghost use Rattle.sw_rows.specs.Groups.{StandFirst, records_in};

    ghost Value = { List (List (List ℕ)) };

    ghost view = { λ b. records_in b.many b.places.items };

    ghost invariant = { λ b. StandFirst b.many b.places.items };
}

impl Group {
    /// No records. It takes no memory.
    pub(crate) fn none(alloc: Global) -> Group
        ensures { result ≡ [] }
    {
        Group {
            places: Vec::new(alloc),
            many: 0,
        }
    }

    /// How many there are.
    #[inline]
    pub(crate) fn len(&self) -> usize
        ensures value { result ≡ length self.now }
        ensures few { result ≤ TOGETHER }
    {
        self.many
    }

    /// The record at a place.
    #[inline]
    pub(crate) fn record(&self, place: usize) -> &ByteRecord
        requires { place < length self.now }
        ensures { fields_of result.now ≡ slice_index_or self.now place [] }
    {
        &self.places[place]
    }

    /// Reads the next records of a text in the place of these, and says whether there may be more. Where there may not, these are the last.
    pub(crate) fn fill(&mut self, records: &mut Records<'_>) -> Result<bool, AllocError>
        requires { IsPlain records.old.rdr }
        ensures plain { IfOk result (λ _. IsPlain records.new.rdr) }
        ensures all { IfOk result (λ more. left_in records.old ≡ group_and more self.new (left_in records.new)) }
        ensures full { IfOk result (λ more. more ≡ true → length self.new ≡ TOGETHER) }
    {
        self.many = 0;
        for at in 0..TOGETHER {
            make_place(&mut self.places, at)?;
            if !records.read_into(&mut self.places[at])? {
                return Ok(false);
            }
            self.many = at + 1;
        }
        Ok(true)
    }
}
