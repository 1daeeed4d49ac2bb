//! The boxes of an area: they hold its maps, and each knows when its map was last used.

ghost use Rattle.std.specs.Prelude.{◌≡◌, ◌<◌, ◌≤◌, [], false, List, length, map, All, IfErr, MatchOption, OnErr, remove, slice_index_or, slice_set};
ghost use Rattle.sw_table.specs.declared.row.Row.{Row};
ghost use Rattle.sw_query.specs.Outcomes.{MemoryAside};
ghost use Rattle.sw_kernel.specs.Replay.{Step};
ghost use Rattle.sw_kernel.specs.Tapes.{peak_from};
ghost use Rattle.sw_map.specs.Held.{KeysFit, blank};
ghost use Rattle.sw_map.specs.Lawful.{IsAligned, IsLawful};
ghost use Rattle.sw_map.specs.Refusals.{HasBegunOr, HasGrownOr};
ghost use Rattle.sw_set.specs.Aligned.{AreSameMaps, HasRoomWhereNeeded, IsAtEnd, IsStalled};
ghost use Rattle.sw_set.specs.Aligning.{AlignsBoxes};
ghost use Rattle.sw_set.specs.Boxed.{AreDropped, AreMoreOr, HasAt, IsCleared, IsFree, IsOneCleared, IsSetAt};
ghost use Rattle.sw_set.specs.Figures.{capped, cells_among, maps_among};
ghost use Rattle.sw_set.specs.Prepared.{ComesFromMap, IsReady};
ghost use Rattle.sw_set.specs.Shelf.{AreApart, HasLease};
ghost use Rattle.sw_set.specs.Sought.{AreAllBlank, EndsBy, FindsUnless, HasCursor, HasReachedOr, HaveSomeMap, HoldsMap, IsCrackedAt, IsNeeded, IsNeededIfMap, IsUncracked, IsUnneeded, LacksMap, Shows, TellsUnless};

use crate::area::figures::{cells_among, maps_among};
use crate::area::pick::{find_blank, find_leased, find_map, find_unneeded};
use crate::area::resting::find_at_end;
use crate::prepare::align::{align_boxes, align_map, is_needed};
use std::alloc::Global;
use std::marker::Model;
use std::sync::atomic::{AtomicU64, Ordering};
use sw_map::{CrackerMap, Tail};
use sw_query::{Bound, Refusal};
use sw_tape::Tape;

/// Boxes, each blank or with a map, and with a stamp: the number of the query that its map was last needed for.
pub(crate) struct Boxes<M: CrackerMap> {
    maps: Vec<M>,
    /// Those who share the area stamp too.
    stamps: Vec<AtomicU64>,
    clock: u64,
    /// Whether the clock counts the area's own queries.
    counts: bool,
}

// By hand: the drop of a derived one is written out at each way out of a function.
impl<M: CrackerMap> Drop for Boxes<M> {
    fn drop(self) {
        let Self {
            maps: _maps,
            stamps: _stamps,
            clock: _,
            counts: _,
        } = self;
    }
}

impl<M: CrackerMap> Model for Boxes<M> {
    ghost use Rattle.std.specs.Prelude.{◌≡◌, List, map, vec_len};
    ghost use Rattle.sw_map.specs.Held.{Held};
    ghost use Rattle.sw_set.specs.Codes.{boxes_code};

    ghost Value = { List Held };

    ghost coded = { boxes_code };

    ghost view = { λ b. map M.held b.maps.items };

    ghost invariant = { λ b. vec_len b.stamps ≡ vec_len b.maps };
}

impl<M: CrackerMap> Boxes<M> {
    /// No boxes; the clock counts.
    pub(crate) fn new(alloc: Global) -> Boxes<M>
        ensures { result ≡ [] }
    {
        Boxes {
            maps: Vec::new(alloc),
            stamps: Vec::new(alloc),
            clock: 0,
            counts: true,
        }
    }

    /// Takes a blank box. Refused `NoMemory`, nothing has changed, and that box comes back.
    pub(crate) fn supply(&mut self, it: M) -> Result<(), (M, Refusal)>
        requires { M.held it ≡ blank }
        ensures { AreMoreOr result it self.old self.new }
    {
        if self.maps.reserve(1).is_err() || self.stamps.reserve(1).is_err() {
            return Err((it, Refusal::NoMemory));
        }
        self.maps.push_reserved(it);
        self.stamps.push_reserved(AtomicU64::new(0));
        Ok(())
    }

    /// How many there are.
    pub(crate) fn len(&self) -> usize
        ensures { result ≡ length self.now }
    {
        self.maps.len()
    }

    /// All of them.
    pub(crate) fn as_slice(&self) -> &[M]
        ensures { map M.held result.now ≡ self.now }
    {
        self.maps.as_slice()
    }

    /// The box at a place.
    pub(crate) fn at(&self, at: usize) -> &M
        requires { at < length self.now }
        ensures { HasAt self.now at (λ b. M.held result.now ≡ b) }
    {
        &self.maps[at]
    }

    /// How many have maps, up to the greatest number of the type.
    pub(crate) fn maps(&self) -> u64
        ensures { result ≡ capped (maps_among self.now) }
    {
        maps_among(self.maps.as_slice())
    }

    /// How many cells their leases have, up to the greatest number of the type.
    pub(crate) fn cells(&self) -> u64
        ensures { result ≡ capped (cells_among self.now) }
    {
        cells_among(self.maps.as_slice())
    }

    // Stamps. No clause speaks of them.

    /// The number by which uses are stamped from now on, in place of a count of the area's own queries.
    pub(crate) fn set_now(&mut self, now: u64)
        ensures { self.new ≡ self.old }
    {
        self.clock = now;
        self.counts = false;
    }

    /// Counts one query more, if the clock counts; the number stops at the greatest of its type.
    pub(crate) fn tick(&mut self)
        ensures { self.new ≡ self.old }
    {
        if self.counts {
            self.clock = self.clock.saturating_add(1);
        }
    }

    /// Stamps the boxes whose maps the tails need.
    pub(crate) fn stamp(&self, tails: &[Tail]) {
        self.stamp_by(tails, self.clock);
    }

    /// The same with a number of the caller's.
    pub(crate) fn stamp_by(&self, tails: &[Tail], now: u64) {
        stamp_needed(self.maps.as_slice(), self.stamps.as_slice(), tails, now);
    }

    /// The stamp of the least recently used map, if a box has one.
    pub(crate) fn oldest(&self) -> Option<u64>
        ensures { MatchOption result (AreAllBlank self.now) (λ _. HaveSomeMap self.now) }
    {
        let Some(at) = self.leased(&[]) else {
            return None;
        };
        Some(self.stamps[at].load(Ordering::SeqCst))
    }

    // Which box.

    /// The box that has a map of the tail.
    pub(crate) fn with_map(&self, tail: Tail) -> Option<usize>
        ensures { FindsUnless (LacksMap tail) (HoldsMap tail) self.now result }
    {
        find_map(self.maps.as_slice(), tail)
    }

    /// The box that has the map of a tail at a tape's end, if one has it.
    pub(crate) fn at_end(&self, tail: Tail, tape: &Tape) -> Option<usize>
        ensures { FindsUnless (λ m. ¬ IsReady tail tape.now m) (IsReady tail tape.now) self.now result }
    {
        find_at_end(self.maps.as_slice(), tail, tape)
    }

    /// A box for a new map: the first blank one, else the least recently used that the tails do not need.
    pub(crate) fn free(&self, tails: &[Tail]) -> Option<usize>
        ensures { FindsUnless (IsNeeded tails.now) (IsFree tails.now) self.now result }
    {
        if let Some(i) = find_blank(self.maps.as_slice()) {
            return Some(i);
        }
        find_unneeded(self.maps.as_slice(), self.stamps.as_slice(), tails)
    }

    /// The least recently used box with a lease that the tails do not need.
    pub(crate) fn leased(&self, tails: &[Tail]) -> Option<usize>
        ensures { FindsUnless (IsNeededIfMap tails.now) (IsUnneeded tails.now) self.now result }
    {
        find_leased(self.maps.as_slice(), self.stamps.as_slice(), tails)
    }

    /// The box to drop first: a blank one, else that of the least recently used map.
    fn droppable(&self) -> Option<usize>
        ensures { MatchOption result (length self.now ≡ 0) (λ at. at < length self.now) }
    {
        if let Some(at) = find_blank(self.maps.as_slice()) {
            return Some(at);
        }
        find_leased(self.maps.as_slice(), self.stamps.as_slice(), &[])
    }

    // What the map of a tail shows.

    /// The cursor of the map of a tail, if there is one.
    pub(crate) fn cursor(&self, tail: Tail) -> Option<usize>
        ensures { TellsUnless (LacksMap tail) (HasCursor tail) self.now result }
    {
        match self.with_map(tail) {
            Some(at) => Some(self.at(at).cursor()),
            None => None,
        }
    }

    /// What the map of a tail shows at a place, if there is such a map and such a place.
    pub(crate) fn peek(&self, tail: Tail, place: usize) -> Option<i64>
        requires apart { AreApart self.now }
        ensures { TellsUnless (EndsBy tail place) (Shows tail place) self.now result }
    {
        let Some(at) = self.with_map(tail) else {
            return None;
        };
        let it = self.at(at);
        if place < it.len() {
            Some(it.tail_at(place))
        } else {
            None
        }
    }

    /// How many pairs of the key map stand before a bound, if there is a key map and it has cracked at that bound.
    pub(crate) fn place(&self, bound: Bound) -> Option<usize>
        requires apart { AreApart self.now }
        ensures { TellsUnless (IsUncracked bound) (IsCrackedAt bound) self.now result }
    {
        match self.with_map(Tail::Key) {
            Some(at) => self.at(at).find(bound),
            None => None,
        }
    }

    // Maps go, and boxes with them.

    /// Clears the box at a place.
    pub(crate) fn clear_at(&mut self, at: usize)
        requires { at < length self.old }
        ensures { self.new ≡ slice_set self.old at blank }
    {
        clear_box(&mut self.maps[at]);
    }

    /// Clears the map of a tail, if there is one.
    pub(crate) fn clear(&mut self, tail: Tail)
        requires apart { AreApart self.old }
        ensures { IsCleared tail self.old self.new }
    {
        if let Some(at) = self.with_map(tail) {
            self.clear_at(at);
        }
    }

    /// Clears the least recently used map, and answers the cells of its lease; 0 just where no box has a map.
    pub(crate) fn clear_oldest(&mut self) -> u64
        requires leases { All HasLease self.old }
        ensures cleared { IsOneCleared self.old self.new result }
        ensures none { result ≡ 0 → AreAllBlank self.old }
    {
        let Some(at) = self.leased(&[]) else {
            return 0;
        };
        let cells = self.at(at).cells();
        self.clear_at(at);
        cells
    }

    /// Makes all boxes blank. Their memory may stay with them until they are trimmed.
    pub(crate) fn reset(&mut self)
        ensures blank { All (λ m. m ≡ blank) self.new }
        ensures many { length self.new ≡ length self.old }
    {
        reset_all(self.maps.as_mut_slice());
    }

    /// Gives back the memory that stayed with boxes when they were reset.
    pub(crate) fn trim(&mut self)
        ensures { self.new ≡ self.old }
    {
        trim_all(self.maps.as_mut_slice());
    }

    /// Drops the box at a place; its lease goes back.
    fn drop_at(&mut self, at: usize)
        requires { at < length self.old }
        ensures { self.new ≡ remove self.old at }
    {
        let _box = self.maps.remove(at);
        let _stamp = self.stamps.remove(at);
    }

    /// Drops up to so many boxes, blank ones first, then by least recent use, and answers how many: as many as that, or
    /// all. The boxes that stay are as they were.
    pub(crate) fn shed(&mut self, most: usize) -> usize
        ensures dropped { AreDropped most self.old self.new result }
        ensures all { result < most → length self.new ≡ 0 }
    {
        for gone in 0..most {
            let Some(at) = self.droppable() else {
                return gone;
            };
            self.drop_at(at);
        }
        most
    }

    // Maps come, and follow a tape.

    /// Resets the box at a place and begins a map of some cells in it. Refused, it is blank.
    pub(crate) fn begin_at(
        &mut self,
        at: usize,
        attribute: u8,
        tail: Tail,
        cells: u64,
    ) -> Result<(), Refusal>
        requires { at < length self.old }
        ensures begun { IsSetAt self.old at (HasBegunOr result attribute tail cells) self.new }
        ensures told { IfErr result (ComesFromMap M.tells) }
    {
        begin_box(&mut self.maps[at], attribute, tail, cells)
    }

    /// Grows the lease of the map in the box at a place to so many cells, and answers whether it grew. Refused, the box
    /// is blank.
    pub(crate) fn grow_at(&mut self, at: usize, cells: u64) -> Result<bool, Refusal>
        requires within { at < length self.old }
        requires begun { HasAt self.old at (λ b. b.is_blank ≡ false) }
        requires more { HasAt self.old at (λ b. b.cells < cells) }
        ensures grown { IsSetAt self.old at (HasGrownOr result cells (slice_index_or self.old at blank)) self.new }
        ensures told { IfErr result (ComesFromMap M.tells) }
    {
        grow_box(&mut self.maps[at], cells)
    }

    /// Steps the map in the box at a place to a tape's end. Refused, it had entries to replay, and stands at the cursor
    /// that it reached.
    pub(crate) fn align_at(&mut self, at: usize, tape: &Tape) -> Result<(), Refusal>
        requires within { at < length self.old }
        requires aligned { HasAt self.old at (λ b. IsAligned b.head tape.now b) }
        requires keys { All (λ (e : Step Row). KeysFit e) tape.now }
        requires room { HasAt self.old at (λ b. peak_from 0 tape.now ≤ b.cells) }
        ensures aligned { HasAt self.old at (λ b. IsSetAt self.old at (IsAligned b.head tape.now) self.new) }
        ensures maps { AreSameMaps self.old self.new }
        ensures ends { HasReachedOr result at (length tape.now) self.old self.new }
        ensures stalled { OnErr result (IsStalled M.stalls tape.now) }
    {
        align_map(&mut self.maps[at], tape)
    }

    /// Aligns by a function every box that has a map of the tails: it stands at the tape's end then.
    pub(crate) fn align_by<F: Fn(u8, &mut [M], &[Tail], &Tape) -> Result<(), Refusal>>(
        &mut self,
        align: &F,
        attribute: u8,
        tails: &[Tail],
        tape: &Tape,
    ) -> Result<(), Refusal>
        requires aligns { AlignsBoxes F.Fn align.now M.held }
        requires lawful { All (IsLawful attribute tape.now) self.old }
        requires keys { All (λ (e : Step Row). KeysFit e) tape.now }
        requires room { All (HasRoomWhereNeeded tails.now tape.now) self.old }
        ensures lawful { All (IsLawful attribute tape.now) self.new }
        ensures maps { AreSameMaps self.old self.new }
        ensures ends { MemoryAside result (λ _. All (IsAtEnd tails.now tape.now) self.new) }
    {
        align_boxes(align, attribute, self.maps.as_mut_slice(), tails, tape)
    }
}

fn clear_box<M: CrackerMap>(it: &mut M)
    ensures { M.held it.new ≡ blank }
{
    it.clear();
}

fn reset_box<M: CrackerMap>(it: &mut M)
    ensures { M.held it.new ≡ blank }
{
    it.reset();
}

/// Makes all boxes blank. Their memory may stay with them until they are trimmed.
fn reset_all<M: CrackerMap>(boxes: &mut [M])
    ensures blank { All (λ m. M.held m ≡ blank) boxes.new }
    ensures many { length boxes.new ≡ length boxes.old }
{
    for it in boxes.iter_mut() {
        reset_box(it);
    }
}

/// Takes from all boxes the memory that stayed with them when they were reset.
fn trim_all<M: CrackerMap>(boxes: &mut [M])
    ensures { map M.held boxes.new ≡ map M.held boxes.old }
{
    for at in 0..boxes.len() {
        boxes[at].trim();
    }
}

#[tactic(auto, using(crate::proofs::Areas::Refused::by_map))]
fn begin_box<M: CrackerMap>(
    it: &mut M,
    attribute: u8,
    tail: Tail,
    cells: u64,
) -> Result<(), Refusal>
    ensures begun { HasBegunOr result attribute tail cells (M.held it.new) }
    ensures told { IfErr result (ComesFromMap M.tells) }
{
    it.reset();
    it.begin(attribute, tail, cells)
}

#[tactic(auto, using(crate::proofs::Areas::Refused::by_map))]
fn grow_box<M: CrackerMap>(it: &mut M, cells: u64) -> Result<bool, Refusal>
    requires begun { (M.held it.old).is_blank ≡ false }
    requires more { (M.held it.old).cells < cells }
    ensures grown { HasGrownOr result cells (M.held it.old) (M.held it.new) }
    ensures told { IfErr result (ComesFromMap M.tells) }
{
    it.grow(cells)
}

/// Sets the stamps of the boxes that have maps which are needed.
fn stamp_needed<M: CrackerMap>(boxes: &[M], stamps: &[AtomicU64], tails: &[Tail], now: u64) {
    for at in 0..stamps.len() {
        if at < boxes.len() && !boxes[at].is_blank() && is_needed(tails, boxes[at].tail()) {
            stamps[at].store(now, Ordering::SeqCst);
        }
    }
}
