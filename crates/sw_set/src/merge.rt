//! Merging: the updates that wait are logged in the tape one after the other, or taken up by a load with which the area
//! begins anew.

ghost use Rattle.std.specs.Prelude.{◌≡◌, ◌<◌, [], true, false, length, drop, MatchResult};
ghost use Rattle.sw_table.specs.declared.row.Update.TheVariants.{Insert, Remove};
ghost use Rattle.sw_table.specs.Updates.{has_key};
ghost use Rattle.sw_query.specs.Outcomes.{IsRefused};
ghost use Rattle.sw_map.specs.declared.tail.Tail.TheVariants.{Key};
ghost use Rattle.sw_tape.specs.declared.tape.TheConstants.{MAX_ENTRIES};
ghost use Rattle.sw_set.specs.Merged.{HasBegunWithInboxOr, HasMergedOr, IsRemovalLogged, IsSameShell, MergesByOneLoad, StandsForSame, removals_in};
ghost use Rattle.sw_set.specs.Merging.{HasBegunWithOr, HasKeysOr, HasMergedEachOr, HasMergedFromOr, IsLoggedOrNot, IsStretch};
ghost use Rattle.sw_set.specs.Prepared.{IsReady};
ghost use Rattle.sw_set.specs.Boxed.{HasAt, IsSameButBoxes};
ghost use Rattle.sw_set.specs.Shelf.{MayMerge, MayMergeAll, tape_rows};
ghost use Rattle.sw_set.specs.Aligned.{AreSameMaps, IsStalled};

pub(crate) mod position;

use crate::area::Area;
use sw_map::{CrackerMap, Tail};
use sw_query::{Refusal, Row, Update};
use sw_tape::MAX_ENTRIES;

/// The most removals that a merge takes up one by one. Where more wait, one load takes up all that waits.
pub(crate) const MOST_REMOVALS_MERGED: usize = 64;

/// Logs a row that comes, if the tape has room for it, and answers whether it had. Refused `NoMemory`, nothing has changed.
fn try_insertion<M: CrackerMap>(area: &mut Area<M>, row: Row) -> Result<bool, Refusal>
    requires received { area.old.inbox ≡ [] }
    requires may { MayMerge (Insert row) area.old }
    ensures told { IsLoggedOrNot (IsStalled M.stalls) (Insert row) area.old area.new result }
    ensures nothing { MatchResult result (λ logged. logged ≡ false → area.new ≡ area.old) (λ _. area.new ≡ area.old) }
{
    area.known();
    if area.tape_len() == MAX_ENTRIES {
        return Ok(false);
    }
    area.log_insertion(row)?;
    Ok(true)
}

/// The box of the key map, which is stepped to the tape's end; none where there is no key map, its lease is too small
/// for the tape's peak, or a step found no memory.
fn aligned_keys<M: CrackerMap>(area: &mut Area<M>) -> Option<usize>
    ensures same { IsSameButBoxes area.old area.new }
    ensures maps { AreSameMaps area.old.boxes area.new.boxes }
    ensures found { HasKeysOr (IsStalled M.stalls) area.old area.new result }
{
    area.known();
    let Some(at) = area.with_map(Tail::Key) else {
        return None;
    };
    if area.cells_at(at) < area.peak() as u64 {
        return None;
    }
    if let Err(_) = area.align_at(at) {
        return None;
    }
    Some(at)
}

/// Logs that the live row of a key goes, at the place that the key map in a box tells. Refused `NoMemory`, nothing has
/// changed.
fn log_at<M: CrackerMap>(area: &mut Area<M>, at: usize, key: u64) -> Result<(), Refusal>
    requires received { area.old.inbox ≡ [] }
    requires room { length area.old.tape < MAX_ENTRIES }
    requires live { has_key key (tape_rows area.old) ≡ true }
    requires within { at < length area.old.boxes }
    requires ready { HasAt area.old.boxes at (λ b. IsReady Key area.old.tape b) }
    ensures same { IsSameShell area.old area.new }
    ensures ends { MatchResult result (λ _. IsRemovalLogged key area.old area.new) (IsRefused area.old area.new) }
{
    let place = area.place_of(at, key);
    area.log_removal(key, place)
}

/// Logs that the live row of a key goes, if the tape has room for it and a key map tells its place, and answers whether it
/// was logged. Refused `NoMemory`, the tape is as it was, and the key map has perhaps gone further.
fn try_removal<M: CrackerMap>(area: &mut Area<M>, key: u64) -> Result<bool, Refusal>
    requires received { area.old.inbox ≡ [] }
    requires live { has_key key (tape_rows area.old) ≡ true }
    ensures { IsLoggedOrNot (IsStalled M.stalls) (Remove key) area.old area.new result }
{
    area.known();
    if area.tape_len() == MAX_ENTRIES {
        return Ok(false);
    }
    let Some(at) = aligned_keys(area) else {
        return Ok(false);
    };
    log_at(area, at, key)?;
    Ok(true)
}

/// Logs an update where it can be logged, and answers whether it was. Refused `NoMemory`, the tape is as it was, and
/// the key map has perhaps gone further.
fn log_one<M: CrackerMap>(area: &mut Area<M>, update: Update) -> Result<bool, Refusal>
    requires received { area.old.inbox ≡ [] }
    requires may { MayMerge update area.old }
    ensures { IsLoggedOrNot (IsStalled M.stalls) update area.old area.new result }
{
    match update {
        Update::Insert(row) => try_insertion(area, row),
        Update::Remove(key) => try_removal(area, key),
    }
}

/// Where the updates end that one load takes up, from a place on: after the last removal, or after the first update
/// where no removal follows it. Once an area has begun anew it has no key map, so each later removal would have it
/// begin anew again.
fn end_of_stretch(updates: &[Update], at: usize) -> usize
    requires { at < length updates.now }
    ensures { IsStretch updates.now at result }
{
    let mut upto = updates.len();
    while upto > at + 1 && matches!(updates[upto - 1], Update::Insert(_)) {
        upto -= 1;
    }
    upto
}

/// Begins the area anew with the updates that one load takes up, and answers where they end. Refused `NoMemory`,
/// nothing has changed.
fn restart_from<M: CrackerMap>(
    area: &mut Area<M>,
    updates: &[Update],
    at: usize,
) -> Result<usize, Refusal>
    requires received { area.old.inbox ≡ [] }
    requires within { at < length updates.now }
    requires receivable { MayMergeAll (drop at updates.now) area.old }
    ensures same { IsSameShell area.old area.new }
    ensures ends { HasBegunWithOr result updates.now at area.old area.new }
{
    let upto = end_of_stretch(updates, at);
    area.restart_after(&updates[at..upto])?;
    Ok(upto)
}

/// Merges the update at a place, and later ones where the area is begun anew; it answers up to where. Refused
/// `NoMemory`, the tape is as it was, and the key map has perhaps gone further.
fn merge_from<M: CrackerMap>(
    area: &mut Area<M>,
    updates: &[Update],
    at: usize,
) -> Result<usize, Refusal>
    requires received { area.old.inbox ≡ [] }
    requires within { at < length updates.now }
    requires receivable { MayMergeAll (drop at updates.now) area.old }
    ensures same { IsSameShell area.old area.new }
    ensures ends { HasMergedFromOr (IsStalled M.stalls) result updates.now at area.old area.new }
{
    area.known();
    if log_one(area, updates[at])? {
        return Ok(at + 1);
    }
    restart_from(area, updates, at)
}

/// Merges updates one after the other. A refusal stops it, and it answers how many are merged.
fn merge_each<M: CrackerMap>(area: &mut Area<M>, updates: &[Update]) -> Result<(), usize>
    requires received { area.old.inbox ≡ [] }
    requires receivable { MayMergeAll updates.now area.old }
    ensures { HasMergedEachOr (IsStalled M.stalls) result updates.now area.old area.new }
{
    let mut many = 0;
    while many < updates.len() {
        match merge_from(area, updates, many) {
            Ok(upto) => many = upto,
            Err(_) => return Err(many),
        }
    }
    Ok(())
}

/// How many rows go by these updates.
fn removals_in(updates: &[Update]) -> usize
    ensures { result ≡ removals_in updates.now }
{
    let mut many = 0;
    for update in updates {
        many += match update {
            Update::Insert(_) => 0,
            Update::Remove(_) => 1,
        };
    }
    many
}

impl<M: CrackerMap> Area<M> {
    /// Merges the updates that wait: one after the other, or, where more than `MOST_REMOVALS_MERGED` of them are removals,
    /// by one load that takes up all of them, with which the area is begun anew.
    ///
    /// One after the other, a row that comes is logged, or, where the tape is full, the area is begun anew with it. A row
    /// that goes is logged by the place of its pair in the key map at the tape's end; where the tape is full, or no key map
    /// with room for the tape's peak can be stepped to the end, the area is begun anew without it. One load takes up all
    /// updates to the last removal that waits.
    ///
    /// The area stands for the same rows. The one refusal is `NoMemory`: a beginning of the updates is merged then, and the
    /// rest waits; where one load was to take up all of them, nothing has changed.
    pub fn merge(&mut self) -> Result<(), Refusal>
        ensures same { StandsForSame self.old self.new }
        ensures ends { ¬ MergesByOneLoad self.old → HasMergedOr (IsStalled M.stalls) result self.old self.new }
        ensures by_load { MergesByOneLoad self.old → HasBegunWithInboxOr result self.old self.new }
        ensures nothing { self.old.inbox ≡ [] → self.new ≡ self.old }
    {
        if removals_in(self.waiting()) > MOST_REMOVALS_MERGED {
            self.restart_with_inbox()
        } else {
            self.merge_in_turn()
        }
    }

    /// Begins the area anew with all that waits. Refused `NoMemory`, nothing has changed.
    fn restart_with_inbox(&mut self) -> Result<(), Refusal>
        ensures same { StandsForSame self.old self.new }
        ensures ends { HasBegunWithInboxOr result self.old self.new }
    {
        let mut waiting = self.take_inbox();
        match self.restart_after(waiting.updates()) {
            Ok(()) => {
                waiting.clear();
                self.put_inbox(waiting);
                Ok(())
            }
            Err(e) => {
                self.put_inbox(waiting);
                Err(e)
            }
        }
    }

    /// Merges the updates that wait, one after the other. Refused `NoMemory`, a beginning of them is merged, and the rest
    /// waits.
    fn merge_in_turn(&mut self) -> Result<(), Refusal>
        ensures same { StandsForSame self.old self.new }
        ensures ends { HasMergedOr (IsStalled M.stalls) result self.old self.new }
        ensures nothing { self.old.inbox ≡ [] → self.new ≡ self.old }
    {
        let mut waiting = self.take_inbox();
        match merge_each(self, waiting.updates()) {
            Ok(()) => {
                waiting.clear();
                self.put_inbox(waiting);
                Ok(())
            }
            Err(many) => {
                waiting.drop_first(many);
                self.put_inbox(waiting);
                Err(Refusal::NoMemory)
            }
        }
    }
}
