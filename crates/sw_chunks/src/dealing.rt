//! Areas made of rows.

ghost use Rattle.std.specs.Prelude.{◌≡◌, ◌≤◌, ◌<◌, ◌^◌, ◌+◌, ◌++◌, ◌∷◌, [], ℕ, get_or, length, All, IfOk, IsOkUnless, OnOk};
ghost use Rattle.sw_query.specs.declared.refusal.Refusal.TheVariants.{NoMemory};
ghost use Rattle.sw_table.specs.declared.row.Row.{Row};
ghost use Rattle.sw_set.specs.Shelf.{Rises, key_of};
ghost use Rattle.sw_chunks.specs.Cuts.{Interval, RiseAbove, intervals};
ghost use Rattle.sw_chunks.specs.Heads.{ArePartsOf, opened_areas};
ghost use Rattle.sw_chunks.specs.Places.{owners_kept, owners_of};

use crate::division::Division;
use crate::places::place_in;
use std::alloc::Global;
use std::mem;
use sw_map::CrackerMap;
use sw_query::{PackedRows, Refusal, Row};
use sw_set::Area;

/// As many empty parts as that, of rows of so many cells. Refused `NoMemory` alone.
fn empty_parts(alloc: Global, width: usize, many: usize) -> Result<Vec<PackedRows>, Refusal>
    requires some { 1 ≤ width }
    requires most { width ≤ 8 }
    ensures many { IfOk result (λ parts. length parts.items ≡ many) }
    ensures empty { IfOk result (λ parts. (k : ℕ) (d : _) → k < many → (get_or parts.items k d).items ≡ []) }
    ensures refused { IsOkUnless result NoMemory }
{
    let mut parts = Vec::new(alloc);
    for _ in 0..many {
        if parts.push(PackedRows::new(alloc, width)).is_err() {
            return Err(Refusal::NoMemory);
        }
    }
    Ok(parts)
}

/// Adds a row to a part. Refused `NoMemory` alone.
fn push_row(part: &mut PackedRows, row: &Row) -> Result<(), Refusal>
    ensures pushed { OnOk result (part.new.items ≡ part.old.items ++ row.now ∷ []) }
    ensures refused { IsOkUnless result NoMemory }
{
    match part.add(row) {
        Ok(()) => Ok(()),
        Err(_) => Err(Refusal::NoMemory),
    }
}

/// The rows by the intervals in which their cells lie, copied in one pass. Refused `NoMemory` alone.
fn deal(alloc: Global, by: &Division<'_>, rows: &PackedRows) -> Result<Vec<PackedRows>, Refusal>
    requires rising { RiseAbove None by.now.cuts.now }
    ensures many { IfOk result (λ parts. length parts.items ≡ length by.now.cuts.now + 1) }
    ensures parts { IfOk result (λ parts. ArePartsOf by.now.attribute by.now.cuts.now rows.now.items parts.items) }
    ensures refused { IsOkUnless result NoMemory }
{
    let mut parts = empty_parts(alloc, rows.width(), by.cuts.len() + 1)?;
    for at in 0..rows.len() {
        let row = rows.get(at);
        let place = place_in(by.cuts, row.cells[usize::from(by.attribute)]);
        push_row(&mut parts[usize::from(place)], &row)?;
    }
    Ok(parts)
}

/// The same of rows that are taken over: without cuts they are the one part, and are not copied.
fn parts_of(alloc: Global, by: &Division<'_>, rows: PackedRows) -> Result<Vec<PackedRows>, Refusal>
    requires rising { RiseAbove None by.now.cuts.now }
    ensures many { IfOk result (λ parts. length parts.items ≡ length by.now.cuts.now + 1) }
    ensures parts { IfOk result (λ parts. ArePartsOf by.now.attribute by.now.cuts.now rows.items parts.items) }
    ensures refused { IsOkUnless result NoMemory }
{
    if !by.cuts.is_empty() {
        return deal(alloc, by, &rows);
    }
    let mut parts = Vec::new(alloc);
    match parts.push(rows) {
        Ok(()) => Ok(parts),
        Err(_) => Err(Refusal::NoMemory),
    }
}

/// Where the interval at a place begins.
fn interval_start(cuts: &[i64], place: usize) -> Option<i64>
    requires { place ≤ length cuts.now }
    ensures { (i : Interval) → result ≡ (get_or (intervals cuts.now) place i).0 }
{
    interval_end(cuts, place.checked_sub(1)?)
}

/// The value below which it ends.
fn interval_end(cuts: &[i64], place: usize) -> Option<i64>
    requires { place ≤ length cuts.now }
    ensures { (i : Interval) → result ≡ (get_or (intervals cuts.now) place i).1 }
{
    cuts.get(place).copied()
}

/// An area of each interval, with the rows whose cells lie there. Without cuts they are not copied. Refused `NoMemory`
/// alone.
pub(crate) fn areas_of<M: CrackerMap>(
    alloc: Global,
    by: &Division<'_>,
    rows: PackedRows,
) -> Result<Vec<Area<M>>, Refusal>
    requires rising { RiseAbove None by.now.cuts.now }
    requires keys { All (λ (r : Row). r.key < 2 ^ 63) rows.items }
    requires rise { Rises key_of rows.items }
    ensures areas { IfOk result (λ areas. areas.items ≡ opened_areas by.now.attribute by.now.cuts.now rows.items) }
    ensures refused { IsOkUnless result NoMemory }
{
    let mut parts = parts_of(alloc, by, rows)?;
    let mut areas = Vec::new(alloc);
    for k in 0..parts.len() {
        let part = mem::replace(&mut parts[k], PackedRows::new(alloc, 1));
        let area = Area::of(
            alloc,
            by.attribute,
            interval_start(by.cuts, k),
            interval_end(by.cuts, k),
            part,
        )?;
        if areas.push(area).is_err() {
            return Err(Refusal::NoMemory);
        }
    }
    Ok(areas)
}

/// The keys of rows, and beside each the area to which its row goes. Refused `NoMemory` alone.
fn owners_of(alloc: Global, by: &Division<'_>, rows: &PackedRows) -> Result<Vec<(u64, u8)>, Refusal>
    ensures owners { IfOk result (λ owners. owners.items ≡ owners_of by.now.attribute by.now.cuts.now rows.now.items) }
    ensures refused { IsOkUnless result NoMemory }
{
    let Ok(mut owners) = Vec::with_capacity(alloc, rows.len()) else {
        return Err(Refusal::NoMemory);
    };
    for at in 0..rows.len() {
        let place = place_in(by.cuts, rows.cell(at, usize::from(by.attribute)));
        if owners.push((rows.key(at), place)).is_err() {
            return Err(Refusal::NoMemory);
        }
    }
    Ok(owners)
}

/// What a head keeps of them: nothing without cuts. Refused `NoMemory` alone.
#[tactic(auto, using(crate::proofs::Kept::kept_none, crate::proofs::Kept::kept_some))]
pub(crate) fn owners_kept(
    alloc: Global,
    by: &Division<'_>,
    rows: &PackedRows,
) -> Result<Vec<(u64, u8)>, Refusal>
    ensures owners { IfOk result (λ owners. owners.items ≡ owners_kept by.now.attribute by.now.cuts.now rows.now.items) }
    ensures refused { IsOkUnless result NoMemory }
{
    if by.cuts.is_empty() {
        return Ok(Vec::new(alloc));
    }
    owners_of(alloc, by, rows)
}
