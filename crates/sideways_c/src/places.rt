//! Where a table that is given is none.

ghost use Rattle.std.specs.Prelude.{◌≡◌};
ghost use Rattle.sw_rows.specs.Tables.{table_of};
ghost use Rattle.sw_arrays.specs.Columns.{table_in};
ghost use Rattle.sideways_c.specs.Places.{IsPlaceTold, ReadsTable, TellsPlace, place_of};

use crate::codes::{OK, code_of};
use std::alloc::Global;
use sw_arrays::{Given, Place, table_in};
use sw_rows::{Refusal, TextKey, load_bytes};

/// The place of a refusal, or that it has none.
fn place_of(refusal: &Refusal) -> Place
    ensures { result ≡ place_of refusal.now }
{
    match refusal {
        Refusal::BadTable { rec, field } => Place {
            row: *rec,
            column: *field,
        },
        _ => Place { row: 0, column: 0 },
    }
}

/// A code, and the place of the fault.
fn told(read: Result<(), Refusal>) -> (u32, Place)
    ensures { IsPlaceTold read result.0 result.1 }
{
    match read {
        Ok(()) => (OK, Place { row: 0, column: 0 }),
        Err(e) => (code_of(&e), place_of(&e)),
    }
}

/// That bytes are a table.
fn read_bytes(alloc: Global, table: &[u8]) -> Result<(), Refusal>
    ensures { ReadsTable (table_of table.now) result }
{
    match load_bytes(alloc, TextKey::fixed(), table) {
        Ok(_) => Ok(()),
        Err(e) => Err(e),
    }
}

/// That columns are one.
fn read_columns(alloc: Global, table: Given<'_>) -> Result<(), Refusal>
    ensures { ReadsTable (table_in table.entry) result }
{
    match table_in(alloc, TextKey::fixed(), table) {
        Ok(_) => Ok(()),
        Err(e) => Err(e),
    }
}

/// Tells whether bytes are a table, and where the first fault is, if they are none.
#[unsafe(no_mangle)]
pub extern "C" fn sideways_table_fault(alloc: Global, table: &[u8], place: &mut Place) -> u32
    ensures { TellsPlace (table_of table.now) result place.new }
{
    let (code, at) = told(read_bytes(alloc, table));
    *place = at;
    code
}

/// The same of columns.
#[unsafe(no_mangle)]
pub extern "C" fn sideways_columns_fault(alloc: Global, table: &Given<'_>, place: &mut Place) -> u32
    ensures { TellsPlace (table_in table.now) result place.new }
{
    let (code, at) = told(read_columns(alloc, *table));
    *place = at;
    code
}
