//! The rows of a reply, put together by place and in key order.

ghost use Rattle.std.specs.Prelude.{◌≡◌, ℕ, ℤ, pos, ◌+◌, ◌<◌, ◌^◌, ◌≤ℤ◌, ◌++◌, ◌∷◌, [], map, length, All, IsPermutation};
ghost use Rattle.std.specs.List.Sorted.{IsNonDecreasingBy};
ghost use Rattle.sw_query.specs.Replies.{reply_row};
ghost use Rattle.sw_set.specs.Choice.{HavePlace, chosen, placed, row_in, values_shown};
ghost use Rattle.sw_query.specs.Outcomes.{MemoryAside};

use crate::reply::choice::Choice;
use crate::reply::window::{Column, Window, value_at};
use std::alloc::Global;
use sw_map::CrackerMap;
use sw_query::{Cells, Refusal, ReplyRows};
use sw_slots::sort_dense;

/// Adds a key and the place of its row.
fn push_found(found: &mut Vec<(u64, usize)>, key: u64, place: usize) -> Result<(), Refusal>
    ensures { MemoryAside result (λ _. found.new.items ≡ found.old.items ++ (key, place) ∷ []) }
{
    match found.push((key, place)) {
        Ok(()) => Ok(()),
        Err(_) => Err(Refusal::NoMemory),
    }
}

/// An empty list with room for so many keys.
fn room_for(alloc: Global, many: usize) -> Result<Vec<(u64, usize)>, Refusal>
    ensures { MemoryAside result (λ found. found.items ≡ []) }
{
    match Vec::with_capacity(alloc, many) {
        Ok(found) => Ok(found),
        Err(_) => Err(Refusal::NoMemory),
    }
}

/// The keys of the chosen rows of a range, each with its place. The range begins at a place.
pub(crate) fn found_keys<M: CrackerMap>(
    alloc: Global,
    keys: &mut Window<'_, M>,
    from: usize,
    choice: &Choice,
) -> Result<Vec<(u64, usize)>, Refusal>
    requires whole { All (λ (k : ℤ). pos 0 ≤ℤ k) keys.old }
    requires fits { from + length keys.old < 2 ^ 64 }
    ensures { MemoryAside result (λ found. found.items ≡ chosen choice.now.bits (placed from keys.old)) }
{
    let mut found = room_for(alloc, choice.count(keys.len()))?;
    for place in 0..keys.len() {
        if choice.has(place) {
            push_found(&mut found, keys.at(place) as u64, from + place)?;
        }
    }
    Ok(found)
}

/// Puts keys in ascending order, each with its place. Dense keys are put into slots, others are compared.
pub(crate) fn sort_by_key(alloc: Global, found: &mut Vec<(u64, usize)>)
    ensures moved { IsPermutation found.old.items found.new.items }
    ensures sorted { IsNonDecreasingBy (λ p. p.0) found.new.items }
{
    if sort_dense(alloc, found) {
        return;
    }
    found.sort_unstable_by_key(|p| p.0);
}

/// Adds a cell.
fn push_cell(cells: &mut Cells, cell: i64) -> Result<(), Refusal>
    ensures { MemoryAside result (λ _. cells.new ≡ cells.old ++ cell ∷ []) }
{
    match cells.push(cell) {
        Ok(()) => Ok(()),
        Err(_) => Err(Refusal::NoMemory),
    }
}

/// The cells of some attributes at a place, where so many places are in each column.
fn cells_at<M: CrackerMap>(
    alloc: Global,
    boxes: &[M],
    columns: &[Column; 8],
    names: &[usize],
    place: usize,
) -> Result<Cells, Refusal>
    requires few { All (λ (a : ℕ). a < 8) names.now }
    requires inside { HavePlace (map M.held boxes.now) columns.now names.now place }
    ensures { MemoryAside result (λ cells. cells ≡ values_shown (map M.held boxes.now) columns.now names.now place) }
{
    let mut cells = Cells::new(alloc);
    for name in names {
        let column = columns[*name];
        push_cell(&mut cells, value_at(&boxes[column.at], column.side, place))?;
    }
    Ok(cells)
}

/// Adds a row at the end. Refused `NoMemory` alone.
pub fn push_row(rows: &mut ReplyRows, key: u64, cells: &[i64]) -> Result<(), Refusal>
    ensures { MemoryAside result (λ _. rows.new ≡ rows.old ++ reply_row key cells.now ∷ []) }
{
    match rows.push(key, cells) {
        Ok(()) => Ok(()),
        Err(_) => Err(Refusal::NoMemory),
    }
}

/// The rows at places, in their order, each with its key and its cells of some attributes.
pub(crate) fn rows_at<M: CrackerMap>(
    alloc: Global,
    boxes: &[M],
    columns: &[Column; 8],
    names: &[usize],
    found: &[(u64, usize)],
) -> Result<ReplyRows, Refusal>
    requires few { All (λ (a : ℕ). a < 8) names.now }
    requires inside { All (λ (p : ℕ × ℕ). HavePlace (map M.held boxes.now) columns.now names.now p.1) found.now }
    ensures { MemoryAside result (λ rows. rows ≡ map (row_in (map M.held boxes.now) columns.now names.now) found.now) }
{
    let mut rows = ReplyRows::new(alloc);
    for (key, place) in found {
        let cells = cells_at(alloc, boxes, columns, names, *place)?;
        push_row(&mut rows, *key, cells.as_slice())?;
    }
    Ok(rows)
}
