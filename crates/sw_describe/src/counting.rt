//! The most frequent cells of a column.

ghost use Rattle.std.specs.Prelude.{◌≡◌, All, IfOk};
ghost use Rattle.sw_describe.specs.Columns.{times};

use crate::column::count_of;
use indexmap::IndexMap;
use std::alloc::{AllocError, Global};
use std::hash::RandomState;

/// How many of the most frequent cells are told.
pub const MOST_FREQUENT: usize = 8;

/// Cells with how often each was seen.
type Counts = IndexMap<i64, u64, RandomState>;

/// Counts a cell.
fn note(counts: &mut Counts, cell: i64) -> Result<(), AllocError> {
    let before = match counts.get(&cell) {
        Some(count) => *count,
        None => 0,
    };
    match counts.insert(cell, before.saturating_add(1)) {
        Ok(_) => Ok(()),
        Err(_) => Err(AllocError),
    }
}

/// The cells of a column, how often each was seen, in the order in which they were first seen.
fn counted(alloc: Global, state: RandomState, cells: &[i64]) -> Result<Counts, AllocError> {
    let mut counts: Counts = IndexMap::with_hasher(alloc, state);
    for cell in cells {
        note(&mut counts, *cell)?;
    }
    Ok(counts)
}

/// The cells of a column, each behind `u64::MAX` less how often it was seen, so that the most frequent one stands first; of
/// those that are equally frequent the one that was seen first comes first.
fn ordered(
    alloc: Global,
    state: RandomState,
    cells: &[i64],
) -> Result<Vec<(u64, i64)>, AllocError> {
    let counts = counted(alloc, state, cells)?;
    let mut found = Vec::new(alloc);
    for (cell, count) in counts.iter() {
        found.push((u64::MAX - *count, *cell))?;
    }
    found.sort_by_key(|one: &(u64, i64)| one.0)?;
    Ok(found)
}

/// The most frequent cells of a column with how often each stands there, at most `MOST_FREQUENT` of them, the most frequent
/// first; of those that are equally frequent the one that stands first in the column comes first.
///
/// The one error is that there is no memory. That these are the most frequent, and their order, no clause says.
pub fn frequent(
    alloc: Global,
    state: RandomState,
    cells: &[i64],
) -> Result<Vec<(i64, usize)>, AllocError>
    ensures { IfOk result (λ found. All (λ one. one.1 ≡ times one.0 cells.now) found.items) }
{
    let ordered = ordered(alloc, state, cells)?;
    let mut found = Vec::new(alloc);
    for (_, cell) in ordered.as_slice().iter().take(MOST_FREQUENT) {
        found.push((*cell, count_of(cells, *cell)))?;
    }
    Ok(found)
}
