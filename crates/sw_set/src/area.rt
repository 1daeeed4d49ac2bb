//! An area, and its single changes.

ghost use Rattle.std.specs.Prelude.{◌≡◌, ◌<◌, ◌≤◌, ◌+◌, ◌^◌, ◌++◌, false, true, List, [], length, All, IfErr, IfOk, IsOk, IsOkUnless, MatchOption, OnErr, slice_index_or};
ghost use Rattle.sw_table.specs.declared.row.Row.{Row};
ghost use Rattle.sw_table.specs.declared.row.Update.TheVariants.{Insert};
ghost use Rattle.sw_query.specs.declared.refusal.Refusal.TheVariants.{NoMemory};
ghost use Rattle.sw_table.specs.Updates.{has_key, rows_then};
ghost use Rattle.sw_query.specs.Scan.{AsksBelow, TakesMemory, answer};
ghost use Rattle.sw_kernel.specs.Replay.{inserted, ranged, removed};
ghost use Rattle.sw_map.specs.declared.tail.Tail.TheVariants.{Key};
ghost use Rattle.sw_kernel.specs.Tapes.{peak_from};
ghost use Rattle.sw_map.specs.Held.{blank, pairs_in, place_of};
ghost use Rattle.sw_tape.specs.declared.tape.TheConstants.{MAX_ENTRIES};
ghost use Rattle.sw_tape.specs.Bounds.{HasPieces};
ghost use Rattle.sw_tape.specs.Restart.{first_rows};
ghost use Rattle.sw_set.specs.Figures.{capped, cells_among, maps_among};
ghost use Rattle.sw_set.specs.Merged.{without_inbox};
ghost use Rattle.sw_set.specs.Needs.{head_in};
ghost use Rattle.sw_query.specs.Outcomes.{MemoryAside};
ghost use Rattle.sw_set.specs.Outcomes.{CameToWaitOr, HasBegunAnewOr, HasLoggedOr, HasMadeAt, HasMadeRoomOr, HasRestartedOr, IsSuppliedOr, rows_standing};
ghost use Rattle.sw_set.specs.Prepared.{ComesFromMap, IsPreparedFor, IsReady, stands_if};
ghost use Rattle.sw_set.specs.Boxed.{HasAt, HasGrownAt, IsCleared, IsFree, IsFreshBut, IsOneCleared, IsSameButBoxes, IsShed};
ghost use Rattle.sw_set.specs.Shelf.{AreaState, IsAreaLawful, IsSameArea, LiesIn, MayComeAfterLoad, MayMerge, MayMergeAll, MayReceiveAll, Rises, arranged_rows, key_of, lies_within, loaded_area, rows_in, rows_left_by, tape_rows, with_box, with_inbox};
ghost use Rattle.sw_set.specs.Aligning.{AlignsBoxes};
ghost use Rattle.sw_set.specs.Aligned.{AreSameMaps, HasRoomWhereNeeded, IsAtEnd, IsStalled};
ghost use Rattle.sw_set.specs.Sought.{AreAllBlank, EndsBy, FindsUnless, HasCursor, HasReachedOr, HaveSomeMap, HoldsMap, IsCrackedAt, IsNeeded, IsNeededIfMap, IsUncracked, IsUnneeded, LacksMap, Shows, TellsUnless};

pub(crate) mod boxes;
pub(crate) mod figures;
pub(crate) mod inbox;
pub(crate) mod live;
pub(crate) mod pick;
pub(crate) mod ready;
pub(crate) mod resting;

use crate::area::boxes::Boxes;
use crate::area::inbox::Inbox;
use crate::area::live::LiveRows;
use crate::area::ready::Ready;
use crate::merge::position::place_of_row;
use crate::reply::{ShownRange, nothing};
use std::alloc::Global;
use std::marker::Model;
use sw_map::{CrackerMap, Tail};
use sw_query::{Bound, PackedRows, Query, Refusal, Reply, Row, Update};
use sw_tape::{Entry, LoadRows, Tape};

/// The rows whose cells of one attribute lie in an interval, the tape that reorganised them, and the boxes whose maps
/// replay it.
pub struct Area<M: CrackerMap> {
    alloc: Global,
    attribute: u8,
    from: Option<i64>,
    below: Option<i64>,
    inbox: Inbox,
    tape: Tape,
    live: LiveRows,
    boxes: Boxes<M>,
    restarts: u64,
}

// By hand: the drop of a derived one is written out at each way out of a function.
impl<M: CrackerMap> Drop for Area<M> {
    fn drop(self) {
        let Self {
            alloc: _,
            attribute: _,
            from: _,
            below: _,
            inbox: _inbox,
            tape: _tape,
            live: _live,
            boxes: _boxes,
            restarts: _,
        } = self;
    }
}

impl<M: CrackerMap> Model for Area<M> {
    ghost use Rattle.sw_set.specs.Shelf.{AreaState, IsAreaLawful, area_over};
    ghost use Rattle.sw_set.specs.Tied.{IsTied};
    ghost use Rattle.sw_set.specs.Codes.{area_code};

    ghost Value = { AreaState };

    ghost coded = { area_code };

    ghost view = { λ a. area_over a.attribute a.from a.below a.inbox a.tape a.boxes };

    ghost invariant = { λ a.
        IsAreaLawful (area_over a.attribute a.from a.below a.inbox a.tape a.boxes)
        × IsTied a.attribute a.tape a.live };
}

impl<M: CrackerMap> Area<M> {
    /// An area of these rows, which rise by key and lie in the interval from the one value up to below the other; its tape
    /// is one load of them, and it has no boxes. Refused `NoMemory` alone.
    pub fn new(
        alloc: Global,
        attribute: u8,
        from: Option<i64>,
        below: Option<i64>,
        rows: &[Row],
    ) -> Result<Area<M>, Refusal>
        requires attribute { attribute < 8 }
        requires keys { All (λ (r : Row). r.key < 2 ^ 63) rows.now }
        requires rise { Rises key_of rows.now }
        requires within { All (λ (r : Row). lies_within attribute from below r ≡ true) rows.now }
        ensures { MemoryAside result (λ a. a ≡ loaded_area attribute from below rows.now) }
    {
        match PackedRows::of(alloc, rows) {
            Ok(copy) => Area::of(alloc, attribute, from, below, copy),
            Err(_) => Err(Refusal::NoMemory),
        }
    }

    /// The same of rows that are taken over and not copied.
    pub fn of(
        alloc: Global,
        attribute: u8,
        from: Option<i64>,
        below: Option<i64>,
        rows: PackedRows,
    ) -> Result<Area<M>, Refusal>
        requires attribute { attribute < 8 }
        requires keys { All (λ (r : Row). r.key < 2 ^ 63) rows.items }
        requires rise { Rises key_of rows.items }
        requires within { All (λ (r : Row). lies_within attribute from below r ≡ true) rows.items }
        ensures { MemoryAside result (λ a. a ≡ loaded_area attribute from below rows.items) }
    {
        let live = LiveRows::all(alloc, rows.width(), rows.len())?;
        let tape = Tape::of(alloc, rows)?;
        Ok(Area {
            alloc,
            attribute,
            from,
            below,
            inbox: Inbox::new(alloc),
            tape,
            live,
            boxes: Boxes::new(alloc),
            restarts: 0,
        })
    }

    /// Takes a blank box. Refused `NoMemory`, nothing has changed, and that box comes back.
    pub fn supply(&mut self, it: M) -> Result<(), (M, Refusal)>
        requires { M.held it ≡ blank }
        ensures { IsSuppliedOr result it self.old self.new }
    {
        self.boxes.supply(it)
    }

    /// Tells a caller in another module when an area is lawful.
    pub(crate) fn known(&self)
        ensures { IsAreaLawful self.now }
    {
        let _many = self.boxes.len();
    }

    /// How many boxes there are.
    pub fn boxes(&self) -> usize
        ensures { result ≡ length self.now.boxes }
    {
        self.boxes.len()
    }

    /// How many entries the tape has, at most 4,096. What is always true of an area is told beside it.
    pub fn tape_len(&self) -> usize
        ensures many { result ≡ length self.now.tape }
        ensures few { length self.now.tape ≤ MAX_ENTRIES }
        ensures lawful { IsAreaLawful self.now }
    {
        self.tape.len()
    }

    /// How many pieces the maps are cracked into that stand at the tape's end.
    pub fn pieces(&self) -> usize
        ensures { HasPieces result self.now.tape }
    {
        self.tape.pieces()
    }

    /// How many boxes have maps, up to the greatest number of the type.
    pub fn maps(&self) -> u64
        ensures { result ≡ capped (maps_among self.now.boxes) }
    {
        self.boxes.maps()
    }

    /// How many cells their leases have, up to the greatest number of the type.
    pub fn cells(&self) -> u64
        ensures { result ≡ capped (cells_among self.now.boxes) }
    {
        self.boxes.cells()
    }

    /// How often the area was begun anew, up to the greatest number of the type. No clause speaks of it.
    pub fn restarts(&self) -> u64 {
        self.restarts
    }

    /// The number by which uses of maps are stamped from now on. Until it is first set, the area counts its own queries.
    pub fn set_now(&mut self, now: u64)
        ensures { self.new ≡ self.old }
    {
        self.boxes.set_now(now);
    }

    /// Counts one query more, if the area counts its own; the number stops at the greatest of its type.
    pub(crate) fn tick(&mut self)
        ensures { self.new ≡ self.old }
    {
        self.boxes.tick();
    }

    /// Stamps the boxes whose maps are needed.
    pub(crate) fn stamp(&mut self, tails: &[Tail])
        ensures { self.new ≡ self.old }
    {
        self.boxes.stamp(tails);
    }

    /// The same with a number of the caller's, by who shares the area.
    pub(crate) fn stamp_by(&self, tails: &[Tail], now: u64) {
        self.boxes.stamp_by(tails, now);
    }

    /// Gives back the memory that stayed with blank boxes when the area began anew. `prepare` does so at its end; who merges
    /// and does not prepare calls it. Nothing that contracts see changes.
    pub fn trim(&mut self)
        ensures { self.new ≡ self.old }
    {
        self.boxes.trim();
    }

    /// The allocator that the area's collections use.
    pub(crate) fn alloc(&self) -> Global {
        self.alloc
    }

    /// The attribute that is the head of the area's maps.
    pub fn attribute(&self) -> u8
        ensures { result ≡ self.now.attribute }
    {
        self.attribute
    }

    /// Where the interval of the head's cells begins, if it has a beginning.
    pub fn from(&self) -> Option<i64>
        ensures { result ≡ self.now.from }
    {
        self.from
    }

    /// The value below which the interval of the head's cells ends, if it has an end.
    pub fn below(&self) -> Option<i64>
        ensures { result ≡ self.now.below }
    {
        self.below
    }

    /// The area's tape.
    pub(crate) fn tape(&self) -> &Tape
        ensures { result.now ≡ self.now.tape }
    {
        &self.tape
    }

    /// Logs one range at the tape's end. A refusal changes nothing.
    pub(crate) fn log(&mut self, lower: Option<Bound>, upper: Option<Bound>) -> Result<(), Refusal>
        requires { length self.old.tape < MAX_ENTRIES }
        ensures { HasLoggedOr result (ranged lower upper) self.old self.new }
    {
        self.tape.push(Entry::Range(lower, upper))
    }

    /// Logs a row that comes, at the tape's end. A refusal changes nothing.
    pub(crate) fn log_insertion(&mut self, row: Row) -> Result<(), Refusal>
        requires received { self.old.inbox ≡ [] }
        requires room { length self.old.tape < MAX_ENTRIES }
        requires may { MayMerge (Insert row) self.old }
        ensures { HasLoggedOr result (inserted row) self.old self.new }
    {
        self.live.push(row)?;
        if let Err(e) = self.tape.push(Entry::Insert(row)) {
            self.live.undo_push();
            return Err(e);
        }
        Ok(())
    }

    /// Logs that the live row of a key goes, whose pair stands at a place at the tape's end. A refusal changes nothing.
    pub(crate) fn log_removal(&mut self, key: u64, place: usize) -> Result<(), Refusal>
        requires received { self.old.inbox ≡ [] }
        requires room { length self.old.tape < MAX_ENTRIES }
        requires live { has_key key (tape_rows self.old) ≡ true }
        requires within { place < length (arranged_rows self.old) }
        requires own { (d : Row) → (slice_index_or (arranged_rows self.old) place d).key ≡ key }
        ensures { HasLoggedOr result (removed place) self.old self.new }
    {
        let Some(at) = self.live.find(load_of(&self.tape), key) else {
            unreachable!()
        };
        self.tape.push(Entry::Remove(place))?;
        self.live.remove(at);
        Ok(())
    }

    /// Begins the area anew with those rows that are live: its tape is one load of them, and all boxes are blank. A refusal
    /// changes nothing.
    fn restart_with(&mut self, live: LiveRows) -> Result<(), Refusal>
        requires many { length live.flags ≡ length (first_rows self.old.tape ++ live.later) }
        requires keys { All (λ (r : Row). r.key < 2 ^ 63) (rows_standing live self.old) }
        requires rise { Rises key_of (rows_standing live self.old) }
        requires within { All (LiesIn self.old) (rows_standing live self.old) }
        requires receivable { MayComeAfterLoad (rows_standing live self.old) self.old.inbox self.old }
        ensures { HasBegunAnewOr result (rows_standing live self.old) self.old self.new }
    {
        let width = load_of(&self.tape).width();
        let all = LiveRows::all(self.alloc, width, live.count())?;
        self.tape.restart_live(live.later(), live.flags())?;
        self.boxes.reset();
        self.live = all;
        self.restarts = self.restarts.saturating_add(1);
        Ok(())
    }

    /// Begins the area anew with its live rows. A refusal changes nothing.
    pub(crate) fn restart(&mut self) -> Result<(), Refusal>
        ensures same { IsSameArea self.old self.new }
        ensures ends { HasRestartedOr result self.old self.new }
    {
        let live = self.live.after(self.alloc, load_of(&self.tape), &[])?;
        self.restart_with(live)
    }

    /// Begins the area anew with the rows that are live after these updates. A refusal changes nothing.
    pub(crate) fn restart_after(&mut self, updates: &[Update]) -> Result<(), Refusal>
        requires received { self.old.inbox ≡ [] }
        requires receivable { MayMergeAll updates.now self.old }
        ensures { HasBegunAnewOr result (rows_left_by updates.now self.old) self.old self.new }
    {
        let live = self.live.after(self.alloc, load_of(&self.tape), updates)?;
        self.restart_with(live)
    }

    /// Steps the map in the box at a place to the tape's end. Refused, it had entries to replay, and stands at the
    /// cursor that it reached.
    pub(crate) fn align_at(&mut self, at: usize) -> Result<(), Refusal>
        requires within { at < length self.old.boxes }
        requires begun { HasAt self.old.boxes at (λ b. b.is_blank ≡ false) }
        requires room { HasAt self.old.boxes at (λ b. peak_from 0 self.old.tape ≤ b.cells) }
        ensures same { IsSameButBoxes self.old self.new }
        ensures maps { AreSameMaps self.old.boxes self.new.boxes }
        ensures ends { HasReachedOr result at (length self.old.tape) self.old.boxes self.new.boxes }
        ensures stalled { OnErr result (IsStalled M.stalls self.old.tape) }
    {
        self.boxes.align_at(at, &self.tape)
    }

    /// Where the pair of the live row of a key stands at the tape's end, told by the key map in the box at a place.
    pub(crate) fn place_of(&self, at: usize, key: u64) -> usize
        requires within { at < length self.now.boxes }
        requires ready { HasAt self.now.boxes at (λ b. IsReady Key self.now.tape b) }
        requires live { has_key key (tape_rows self.now) ≡ true }
        ensures within { result < length (arranged_rows self.now) }
        ensures own { (d : Row) → (slice_index_or (arranged_rows self.now) result d).key ≡ key }
    {
        let load = load_of(&self.tape);
        let Some(row) = self.live.find(load, key) else {
            unreachable!()
        };
        let value = self.live.cell(load, row, usize::from(self.attribute));
        place_of_row(self.boxes.at(at), &self.tape, value, key)
    }

    /// Makes room for so many updates more: until they are received, `receive` takes no memory. A refusal changes nothing.
    pub fn room(&mut self, more: usize) -> Result<(), Refusal>
        ensures same { self.new ≡ record self.old { spare = self.new.spare } }
        ensures ends { HasMadeRoomOr result more self.old.spare self.new.spare }
        ensures roomy { more ≤ self.old.spare → IsOk result }
    {
        self.inbox.room(more)
    }

    /// Appends updates to those that wait: an inserted key exceeds all that came before it, its row lies in the area's
    /// interval, and a removed key is live then. A refusal changes nothing.
    pub fn receive(&mut self, updates: &[Update]) -> Result<(), Refusal>
        requires { MayReceiveAll updates.now self.old }
        ensures ends { CameToWaitOr result updates.now self.old self.new }
        ensures roomy { length updates.now ≤ self.old.spare → IsOk result }
    {
        self.inbox.receive(updates)
    }

    /// Whether the area has a row of a key, as if what waits were merged. It takes no memory.
    pub fn holds(&self, key: u64) -> bool
        ensures { result ≡ has_key key (rows_in self.now) }
    {
        let mut held = self.live.holds(load_of(&self.tape), key);
        for update in self.inbox.updates() {
            held = holds_after(held, update, key);
        }
        held
    }

    /// The updates that wait.
    pub(crate) fn waiting(&self) -> &[Update]
        ensures { result.now ≡ self.now.inbox }
    {
        self.inbox.updates()
    }

    /// Takes out what waits.
    pub(crate) fn take_inbox(&mut self) -> Inbox
        ensures area { self.new ≡ without_inbox self.old }
        ensures taken { result.updates ≡ self.old.inbox }
        ensures spare { result.spare ≡ self.old.spare }
        ensures receivable { MayMergeAll result.updates self.old }
    {
        self.inbox.take(self.alloc)
    }

    /// These updates wait from now on, and no others.
    pub(crate) fn put_inbox(&mut self, waiting: Inbox)
        requires { MayMergeAll waiting.updates self.old }
        ensures { self.new ≡ with_inbox waiting self.old }
    {
        self.inbox = waiting;
    }

    /// Whether a bound, if it is there, stands in a range of the tape.
    pub(crate) fn stands(&self, bound: Option<Bound>) -> bool
        ensures { result ≡ stands_if bound self.now.tape }
    {
        match bound {
            None => true,
            Some(b) => self.tape.marked(b),
        }
    }

    /// The box that has the map of a tail at the tape's end, if one has it.
    pub(crate) fn at_end(&self, tail: Tail) -> Option<usize>
        ensures { FindsUnless
            (λ m. ¬ IsReady tail self.now.tape m) (λ m. IsReady tail self.now.tape m) self.now.boxes result }
    {
        self.boxes.at_end(tail, &self.tape)
    }

    /// The greatest number of pairs after any entry of the tape.
    pub(crate) fn peak(&self) -> usize
        ensures peak { result ≡ peak_from 0 self.now.tape }
        ensures few { result ≤ 2 ^ 63 }
    {
        self.tape.peak()
    }

    /// The box that has a map of the tail.
    pub(crate) fn with_map(&self, tail: Tail) -> Option<usize>
        ensures { FindsUnless (LacksMap tail) (HoldsMap tail) self.now.boxes result }
    {
        self.boxes.with_map(tail)
    }

    /// A box for a new map: the first blank one, else the least recently used that the tails do not need.
    pub(crate) fn free_box(&self, tails: &[Tail]) -> Option<usize>
        ensures { FindsUnless (IsNeeded tails.now) (IsFree tails.now) self.now.boxes result }
    {
        self.boxes.free(tails)
    }

    /// The least recently used box with a lease that the tails do not need.
    pub(crate) fn leased(&self, tails: &[Tail]) -> Option<usize>
        ensures { FindsUnless (IsNeededIfMap tails.now) (IsUnneeded tails.now) self.now.boxes result }
    {
        self.boxes.leased(tails)
    }

    /// The cells of the box at a place.
    pub(crate) fn cells_at(&self, at: usize) -> u64
        requires { at < length self.now.boxes }
        ensures { HasAt self.now.boxes at (λ b. result ≡ b.cells) }
    {
        self.boxes.at(at).cells()
    }

    /// Where a bound stands in the box at a place.
    pub(crate) fn place_at(&self, at: usize, bound: Bound) -> Option<usize>
        requires { at < length self.now.boxes }
        ensures { HasAt self.now.boxes at (λ b. result ≡ place_of bound b.pairs) }
    {
        self.boxes.at(at).find(bound)
    }

    /// How many pairs the box at a place has.
    pub(crate) fn pairs_at(&self, at: usize) -> usize
        requires { at < length self.now.boxes }
        ensures { HasAt self.now.boxes at (λ b. result ≡ pairs_in b) }
    {
        self.boxes.at(at).len()
    }

    /// Clears the box at a place.
    pub(crate) fn clear_at(&mut self, at: usize)
        requires { at < length self.old.boxes }
        ensures { self.new ≡ with_box at blank self.old }
    {
        self.boxes.clear_at(at);
    }

    /// Clears the map of a tail, if there is one. It is never refused.
    pub fn clear(&mut self, tail: Tail)
        ensures same { IsSameButBoxes self.old self.new }
        ensures cleared { IsCleared tail self.old.boxes self.new.boxes }
    {
        self.boxes.clear(tail);
    }

    /// Clears the least recently used map, and answers the cells of its lease; 0 just where no box has a map. It is never
    /// refused.
    pub fn clear_oldest(&mut self) -> u64
        ensures same { IsSameButBoxes self.old self.new }
        ensures cleared { IsOneCleared self.old.boxes self.new.boxes result }
        ensures none { result ≡ 0 → AreAllBlank self.old.boxes }
    {
        self.boxes.clear_oldest()
    }

    /// Drops up to so many boxes, blank ones first, then by least recent use, and answers how many: as many as that, or
    /// all. It is never refused, and the boxes that stay are as they were.
    pub fn shed(&mut self, most: usize) -> usize
        ensures shed { IsShed most self.old self.new result }
        ensures all { result < most → length self.new.boxes ≡ 0 }
    {
        self.boxes.shed(most)
    }

    /// The stamp of the least recently used map, if a box has one.
    pub fn oldest(&self) -> Option<u64>
        ensures { MatchOption result (AreAllBlank self.now.boxes) (λ _. HaveSomeMap self.now.boxes) }
    {
        self.boxes.oldest()
    }

    /// The cursor of the map of a tail, if there is one.
    pub fn cursor(&self, tail: Tail) -> Option<usize>
        ensures { TellsUnless (LacksMap tail) (HasCursor tail) self.now.boxes result }
    {
        self.boxes.cursor(tail)
    }

    /// What the map of a tail shows at a place, if there is such a map and such a place.
    pub fn peek(&self, tail: Tail, place: usize) -> Option<i64>
        ensures { TellsUnless (EndsBy tail place) (Shows tail place) self.now.boxes result }
    {
        self.boxes.peek(tail, place)
    }

    /// How many pairs of the key map stand before a bound, if there is a key map and it has cracked at that bound.
    pub fn place(&self, bound: Bound) -> Option<usize>
        ensures { TellsUnless (IsUncracked bound) (IsCrackedAt bound) self.now.boxes result }
    {
        self.boxes.place(bound)
    }

    /// The plain answer over the area's rows; no map is used, and none changes. Only a list of rows takes memory, and
    /// the one refusal is `NoMemory`.
    pub fn scan(&self, query: &Query) -> Result<Reply, Refusal>
        requires received { self.now.inbox ≡ [] }
        requires asks { AsksBelow 8 query.now }
        ensures answered { IfOk result (λ reply. reply ≡ answer (rows_in self.now) query.now) }
        ensures refused { IsOkUnless result NoMemory }
        ensures scalars { (TakesMemory query.now.want → ⊥) → IsOk result }
    {
        self.live.scan(self.alloc, load_of(&self.tape), query)
    }

    /// The answer of a query from the maps of an area that `prepare` left ready for it. Only a list of rows and a second
    /// condition take memory, and the one refusal is `NoMemory`.
    pub fn collect(&self, ready: &Ready, query: &Query) -> Result<Reply, Refusal>
        requires received { self.now.inbox ≡ [] }
        requires asks { AsksBelow 8 query.now }
        requires head { head_in query.now.conds ≡ self.now.attribute }
        requires ready { IsPreparedFor query.now self.now ready.now.from ready.now.upto }
        ensures answered { IfOk result (λ reply. reply ≡ answer (rows_in self.now) query.now) }
        ensures refused { IsOkUnless result NoMemory }
        ensures scalars { (TakesMemory query.now.want → ⊥) → length query.now.conds ≤ 1 → IsOk result }
    {
        self.known();
        // of an area that the query does not touch no map need stand at the tape's end, and there is no range to show
        if ready.from == ready.upto {
            return Ok(nothing(self.alloc, &query.want));
        }
        let range = ShownRange::new(
            self.boxes.as_slice(),
            self.attribute,
            &self.tape,
            ready.from,
            ready.upto,
        );
        range.collect(self.alloc, query)
    }

    /// Aligns by a function every box that has a map of the tails: it stands at the tape's end then.
    pub(crate) fn align_by<F: Fn(u8, &mut [M], &[Tail], &Tape) -> Result<(), Refusal>>(
        &mut self,
        align: &F,
        tails: &[Tail],
    ) -> Result<(), Refusal>
        requires aligns { AlignsBoxes F.Fn align.now M.held }
        requires room { All (HasRoomWhereNeeded tails.now self.old.tape) self.old.boxes }
        ensures same { IsSameArea self.old self.new }
        ensures tape { self.new.tape ≡ self.old.tape }
        ensures maps { AreSameMaps self.old.boxes self.new.boxes }
        ensures ends { MemoryAside result (λ _. All (IsAtEnd tails.now self.old.tape) self.new.boxes) }
    {
        self.boxes
            .align_by(align, self.attribute, tails, &self.tape)
    }

    /// Grows the lease of the map in the box at a place to so many cells, and answers whether it grew. Refused, the box
    /// is blank.
    pub(crate) fn grow_at(&mut self, at: usize, cells: u64) -> Result<bool, Refusal>
        requires within { at < length self.old.boxes }
        requires begun { HasAt self.old.boxes at (λ b. b.is_blank ≡ false) }
        requires more { HasAt self.old.boxes at (λ b. b.cells < cells) }
        ensures grown { HasGrownAt result at cells self.old self.new }
        ensures told { IfErr result (ComesFromMap M.tells) }
    {
        self.boxes.grow_at(at, cells)
    }

    /// Resets the box at a place and begins a map of some cells in it. Refused, it is blank.
    pub(crate) fn make(&mut self, at: usize, tail: Tail, cells: u64) -> Result<(), Refusal>
        requires within { at < length self.old.boxes }
        requires fresh { IsFreshBut at tail self.old.boxes }
        requires some { 0 < cells }
        ensures made { HasMadeAt result at tail cells self.old self.new }
        ensures told { IfErr result (ComesFromMap M.tells) }
    {
        self.boxes.begin_at(at, self.attribute, tail, cells)
    }
}

/// The rows of a tape's load.
fn load_of(tape: &Tape) -> &LoadRows
    ensures { result.now.items ≡ first_rows tape.now }
{
    let _many = tape.len();
    match tape.get(0) {
        Some(Entry::Load(rows)) => rows,
        _ => unreachable!(),
    }
}

/// Whether there is a row of a key after an update, from whether there was one before it.
fn holds_after(held: bool, update: &Update, key: u64) -> bool
    ensures { (rows : List Row) → held ≡ has_key key rows → result ≡ has_key key (rows_then rows update.now) }
{
    match update {
        Update::Insert(row) => held || row.key == key,
        Update::Remove(gone) => held && *gone != key,
    }
}
