//! Making the maps that a query needs.

ghost use Rattle.std.specs.Prelude.{◌≡◌, ◌<◌, ◌↔◌, false, length, All, Contains, IfErr, IsTrue, OnErr};
ghost use Rattle.sw_set.specs.Prepared.{ComesFromMap, IsOfBudget, IsShort};
ghost use Rattle.sw_set.specs.Boxed.{AreNeededKept, HasAt, IsFreshBut, IsHeld, IsSameButBoxes, LacksOne};
ghost use Rattle.sw_set.specs.Preparing.{HasFreeOr, HasMapOr, HasOneMoreOr, HaveMapsOr};
ghost use Rattle.sw_set.specs.Sought.{AreAllNeeded, LacksMap};

use crate::area::Area;
use sw_map::{CrackerMap, Tail};
use sw_query::Refusal;

/// Whether a refusal is `Short`.
fn is_short(e: &Refusal) -> bool
    ensures { IsTrue result ↔ IsShort e.now }
{
    matches!(e, Refusal::Short { .. })
}

/// Begins a map in a box. On `Short` the least recently used unneeded box with a lease is cleared and it is tried
/// again, until it succeeds or there is no such box: each turn leaves one box more blank, so there are fewer turns than
/// boxes.
fn begin_again<M: CrackerMap>(
    area: &mut Area<M>,
    at: usize,
    tails: &[Tail],
    tail: Tail,
    cells: u64,
) -> Result<(), Refusal>
    requires within { at < length area.old.boxes }
    requires fresh { IsFreshBut at tail area.old.boxes }
    requires some { 0 < cells }
    ensures same { IsSameButBoxes area.old area.new }
    ensures kept { AreNeededKept at tails.now area.old.boxes area.new.boxes }
    ensures told { IfErr result (ComesFromMap M.tells) }
    ensures ends { HasMapOr result tail cells area.new.boxes }
    ensures lacking { OnErr result (¬ IsHeld tail cells area.new.boxes) }
    ensures spent { IfErr result (λ e. IsShort e → AreAllNeeded tails.now area.new.boxes) }
{
    for _turn in 0..area.boxes() {
        let Err(e) = area.make(at, tail, cells) else {
            return Ok(());
        };
        if !is_short(&e) {
            return Err(e);
        }
        let Some(i) = area.leased(tails) else {
            return Err(e);
        };
        area.clear_at(i);
    }
    unreachable!()
}

/// Gives the map in a box so many cells, more than it has: its lease grows in place, or, where it does not, or finds no
/// memory or too few cells, it is begun again. Where the budget was contended nothing is tried again.
fn widen<M: CrackerMap>(
    area: &mut Area<M>,
    at: usize,
    tails: &[Tail],
    tail: Tail,
    cells: u64,
) -> Result<(), Refusal>
    requires within { at < length area.old.boxes }
    requires fresh { IsFreshBut at tail area.old.boxes }
    requires begun { HasAt area.old.boxes at (λ b. b.is_blank ≡ false) }
    requires tail { HasAt area.old.boxes at (λ b. b.tail ≡ tail) }
    requires more { HasAt area.old.boxes at (λ b. b.cells < cells) }
    ensures same { IsSameButBoxes area.old area.new }
    ensures kept { AreNeededKept at tails.now area.old.boxes area.new.boxes }
    ensures told { IfErr result (ComesFromMap M.tells) }
    ensures ends { HasMapOr result tail cells area.new.boxes }
    ensures lacking { OnErr result (¬ IsHeld tail cells area.new.boxes) }
    ensures spent { IfErr result (λ e. IsShort e → AreAllNeeded tails.now area.new.boxes) }
{
    match area.grow_at(at, cells) {
        Ok(true) => return Ok(()),
        Err(Refusal::Contended { seen, found }) => {
            return Err(Refusal::Contended { seen, found });
        }
        _ => {}
    }
    begin_again(area, at, tails, tail, cells)
}

/// A box for a map that the area lacks. Refused `NoBlank`, all boxes have needed maps, so there are fewer than are needed.
fn find_box<M: CrackerMap>(area: &Area<M>, tails: &[Tail], tail: Tail) -> Result<usize, Refusal>
    requires needed { Contains tails.now tail }
    requires lacks { All (LacksMap tail) area.now.boxes }
    ensures { HasFreeOr result tails.now area.now.boxes }
{
    area.known();
    let Some(at) = area.free_box(tails) else {
        let boxes = area.boxes() as u64;
        let needed = tails.len() as u64;
        return Err(Refusal::NoBlank { boxes, needed });
    };
    Ok(at)
}

/// Sees to it that a box has a map of the tail with room for so many pairs.
fn ensure_map<M: CrackerMap>(
    area: &mut Area<M>,
    tails: &[Tail],
    tail: Tail,
    cells: u64,
) -> Result<(), Refusal>
    requires needed { Contains tails.now tail }
    requires some { 0 < cells }
    ensures same { IsSameButBoxes area.old area.new }
    ensures told { IfErr result (ComesFromMap M.tells) }
    ensures ends { HasOneMoreOr result tails.now tail cells area.old.boxes area.new.boxes }
    ensures lacking { IfErr result (λ e. IsOfBudget e → ¬ IsHeld tail cells area.new.boxes) }
    ensures spent { IfErr result (λ e. IsShort e → AreAllNeeded tails.now area.new.boxes) }
{
    area.known();
    if let Some(at) = area.with_map(tail) {
        if area.cells_at(at) >= cells {
            return Ok(());
        }
        return widen(area, at, tails, tail, cells);
    }
    let at = find_box(area, tails, tail)?;
    begin_again(area, at, tails, tail, cells)
}

/// Sees to it for every tail that is needed, in order.
pub(crate) fn make_all<M: CrackerMap>(
    area: &mut Area<M>,
    tails: &[Tail],
    cells: u64,
) -> Result<(), Refusal>
    requires some { 0 < cells }
    ensures same { IsSameButBoxes area.old area.new }
    ensures told { IfErr result (ComesFromMap M.tells) }
    ensures ends { HaveMapsOr result tails.now cells area.old.boxes area.new.boxes }
    ensures lacking { IfErr result (λ e. IsOfBudget e → LacksOne tails.now cells area.new.boxes) }
    ensures spent { IfErr result (λ e. IsShort e → AreAllNeeded tails.now area.new.boxes) }
{
    for i in 0..tails.len() {
        ensure_map(area, tails, tails[i], cells)?;
    }
    Ok(())
}
