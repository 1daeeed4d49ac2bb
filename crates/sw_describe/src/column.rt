//! The numbers of a column.

ghost use Rattle.std.specs.Prelude.{◌≡◌, length, IfOk, OnOk};
ghost use Rattle.sw_describe.specs.Columns.{each_once, greater_with, greatest, least, lesser_with, times, with_cell};

use indexmap::IndexSet;
use std::alloc::{AllocError, Global};
use std::hash::RandomState;

/// How many distinct cells a column has, and the least and the greatest of them, if there are any.
#[derive(Clone, Copy, Debug, PartialEq, Eq)]
pub struct Column {
    /// How many distinct cells.
    pub distinct: usize,
    /// The least cell.
    pub least: Option<i64>,
    /// The greatest cell.
    pub greatest: Option<i64>,
}

/// The lesser of the least so far and a cell.
fn lesser_with(least: Option<i64>, cell: i64) -> Option<i64>
    ensures { result ≡ lesser_with least cell }
{
    match least {
        Some(least) => Some(least.min(cell)),
        None => Some(cell),
    }
}

/// The greater of the greatest so far and a cell.
fn greater_with(greatest: Option<i64>, cell: i64) -> Option<i64>
    ensures { result ≡ greater_with greatest cell }
{
    match greatest {
        Some(greatest) => Some(greatest.max(cell)),
        None => Some(cell),
    }
}

/// The least of some cells.
fn least_of(cells: &[i64]) -> Option<i64>
    ensures { result ≡ least cells.now }
{
    let mut found = None;
    for cell in cells {
        found = lesser_with(found, *cell);
    }
    found
}

/// The greatest of some cells.
fn greatest_of(cells: &[i64]) -> Option<i64>
    ensures { result ≡ greatest cells.now }
{
    let mut found = None;
    for cell in cells {
        found = greater_with(found, *cell);
    }
    found
}

/// Adds a cell to those that were seen.
fn see(seen: &mut IndexSet<i64, RandomState>, cell: i64) -> Result<(), AllocError>
    ensures { OnOk result (seen.new.keys ≡ with_cell seen.old.keys cell) }
{
    match seen.insert(cell) {
        Ok(_) => Ok(()),
        Err(_) => Err(AllocError),
    }
}

/// How many distinct cells there are.
fn distinct_of(alloc: Global, state: RandomState, cells: &[i64]) -> Result<usize, AllocError>
    ensures { IfOk result (λ many. many ≡ length (each_once cells.now)) }
{
    let mut seen: IndexSet<i64, RandomState> = IndexSet::with_hasher(alloc, state);
    for cell in cells {
        see(&mut seen, *cell)?;
    }
    Ok(seen.len())
}

impl Column {
    /// The numbers of a column of these cells. The one error is that there is no memory.
    pub fn of(alloc: Global, state: RandomState, cells: &[i64]) -> Result<Column, AllocError>
        ensures distinct { IfOk result (λ c. c.distinct ≡ length (each_once cells.now)) }
        ensures least { IfOk result (λ c. c.least ≡ least cells.now) }
        ensures greatest { IfOk result (λ c. c.greatest ≡ greatest cells.now) }
    {
        let distinct = distinct_of(alloc, state, cells)?;
        Ok(Column {
            distinct,
            least: least_of(cells),
            greatest: greatest_of(cells),
        })
    }
}

/// How often a cell stands in a column.
pub fn count_of(cells: &[i64], cell: i64) -> usize
    ensures { result ≡ times cell cells.now }
{
    cells.iter().filter(|other| cell == **other).count()
}
