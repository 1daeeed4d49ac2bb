//! A head: the areas of one attribute, by a rising list of cuts.

ghost use Rattle.std.specs.Prelude.{◌≡◌, ◌≤◌, ◌<◌, ◌^◌, length, All, IfOk, IfSome, IsOkUnless, MatchResult, None, OnErr, OnOk};
ghost use Rattle.sw_query.specs.Scan.{AsksBelow, answer};
ghost use Rattle.sw_table.specs.Updates.{rows_of};
ghost use Rattle.sw_query.specs.declared.refusal.Refusal.TheVariants.{NoMemory};
ghost use Rattle.sw_table.specs.declared.row.Row.{Row};
ghost use Rattle.sw_map.specs.Held.{blank};
ghost use Rattle.sw_set.specs.Aligning.{AlignsBoxes, HasAlignedOr, MayAlign};
ghost use Rattle.sw_set.specs.Merged.{StandsForSame};
ghost use Rattle.sw_set.specs.Needs.{head_in};
ghost use Rattle.sw_set.specs.Resting.{IsToldWhere};
ghost use Rattle.sw_set.specs.Shelf.{Rises, key_of};
ghost use Rattle.sw_chunks.specs.Asked.{AreAtRest};
ghost use Rattle.sw_chunks.specs.Cuts.{RiseAbove};
ghost use Rattle.sw_chunks.specs.Cleared.{AreClearedBut, AreEach};
ghost use Rattle.sw_chunks.specs.Shelved.{AreShed};
ghost use Rattle.sw_chunks.specs.Heads.{AreUntouchedKept, AreUntouchedSame, ComesBack, HasReceived, IsHeadLawful, IsRanged, IsSameButRoom, IsSameHead, IsSupplied, opened, touched_of};
ghost use Rattle.sw_chunks.specs.Figures.{HavePieces, areas_cells, areas_entries, areas_maps};
ghost use Rattle.sw_chunks.specs.Routing.{MayFollow};
ghost use Rattle.sw_chunks.specs.declared.places.TheConstants.{MOST_CUTS};
ghost use Rattle.sw_set.specs.Figures.{capped};

use crate::answering::{Asking, answer_areas};
use crate::clearing::clear_but;
use crate::dealing::{areas_of, owners_kept};
use crate::division::Division;
use crate::figures::{Figures, figures_of};
use crate::places::add_owners;
use crate::resting::{UNKNOWN, answer_resting, maps_used};
use crate::routing::route_all;
use crate::scanning::scan_areas;
use crate::shelving::{fewest, shed_all};
use crate::telling::{tell_all, tell_rows};
use std::alloc::Global;
use std::marker::Model;
use std::sync::atomic::{AtomicU64, Ordering};
use std::thread::Threads;
use sw_map::{CrackerMap, Tail};
use sw_query::{PackedRows, Query, Refusal, Reply, Row, Update};
use sw_set::{Area, align_at_once, align_in_turn};
use sw_tape::Tape;
use sw_tie::Book;

/// The areas of one attribute: below the first cut, from each cut up to below the next, and from the last upwards.
///
/// Contracts see its attribute, its cuts and the list of all updates that it was opened with and received: that list
/// stands in a book that takes no bytes. They also see its areas.
pub struct Head<M: CrackerMap> {
    alloc: Global,
    attribute: u8,
    cuts: Vec<i64>,
    areas: Vec<Area<M>>,
    /// The keys of all rows that ever came, which rise, and beside each the area to which its row went. Without cuts it
    /// is empty.
    owners: Vec<(u64, u8)>,
    told: Book<Update>,
    /// The number of the last query that counted, to stamp maps with it. Those who share the head count too.
    clock: AtomicU64,
    /// The maps that the query of that number used, where it was answered at rest and they bear it: one that uses just
    /// these need not stamp them again. In one thread that is so, but for stamps that no memory was found for; where
    /// several share the head, a slower one may stamp with its older number, or store what it used, after the next counted.
    used: AtomicU64,
}

// By hand: the drop of a derived one is written out at each way out of a function.
impl<M: CrackerMap> Drop for Head<M> {
    fn drop(self) {
        let Self {
            alloc: _,
            attribute: _,
            cuts: _cuts,
            areas: _areas,
            owners: _owners,
            told: _told,
            clock: _,
            used: _,
        } = self;
    }
}

impl<M: CrackerMap> Model for Head<M> {
    ghost use Rattle.sw_chunks.specs.Heads.{HeadState, IsKeptBy, head_of};
    ghost use Rattle.sw_chunks.specs.Codes.{head_code};

    ghost Value = { HeadState };

    ghost coded = { head_code };

    ghost view = { λ h. head_of h.attribute h.cuts.items h.told.rows h.areas.items };

    ghost invariant = { λ h. IsKeptBy h.owners.items (head_of h.attribute h.cuts.items h.told.rows h.areas.items) };
}

impl<M: CrackerMap> Head<M> {
    /// A head over these rows, which rise by key, with areas by these cuts, which rise. It stands for the rows as
    /// insertions. Each row goes once to the area in whose interval its cell lies, and no area has boxes. Refused
    /// `NoMemory` alone.
    pub fn new(alloc: Global, attribute: u8, cuts: &[i64], rows: &[Row]) -> Result<Head<M>, Refusal>
        requires attribute { attribute < 8 }
        requires rising { RiseAbove None cuts.now }
        requires few { length cuts.now ≤ MOST_CUTS }
        requires keys { All (λ (r : Row). r.key < 2 ^ 63) rows.now }
        requires rise { Rises key_of rows.now }
        ensures { MatchResult result (λ h. h ≡ opened attribute cuts.now rows.now) (λ e. e ≡ NoMemory) }
    {
        match PackedRows::of(alloc, rows) {
            Ok(copy) => Head::of(alloc, attribute, cuts, copy),
            Err(_) => Err(Refusal::NoMemory),
        }
    }

    /// The same of rows that are taken over: without cuts they are not copied, and an area has no wider rows than they.
    pub fn of(
        alloc: Global,
        attribute: u8,
        cuts: &[i64],
        rows: PackedRows,
    ) -> Result<Head<M>, Refusal>
        requires attribute { attribute < 8 }
        requires rising { RiseAbove None cuts.now }
        requires few { length cuts.now ≤ MOST_CUTS }
        requires keys { All (λ (r : Row). r.key < 2 ^ 63) rows.items }
        requires rise { Rises key_of rows.items }
        ensures { MatchResult result (λ h. h ≡ opened attribute cuts.now rows.items) (λ e. e ≡ NoMemory) }
    {
        let told = tell_rows(&rows);
        let by = Division { attribute, cuts };
        let owners = owners_kept(alloc, &by, &rows)?;
        let areas = areas_of(alloc, &by, rows)?;
        let Ok(cuts) = Vec::from_slice(alloc, cuts) else {
            return Err(Refusal::NoMemory);
        };
        Ok(Head {
            alloc,
            attribute,
            cuts,
            areas,
            owners,
            told,
            clock: AtomicU64::new(0),
            used: AtomicU64::new(UNKNOWN),
        })
    }

    /// Tells a caller when a head is lawful.
    pub fn known(&self)
        ensures { IsHeadLawful self.now }
    {
        let _many = self.areas.len();
    }

    /// The attribute that is the head of the maps.
    pub fn attribute(&self) -> u8
        ensures { result ≡ self.now.attribute }
    {
        self.attribute
    }

    /// The values that divide the areas.
    pub fn cuts(&self) -> &[i64]
        ensures { result.now ≡ self.now.cuts }
    {
        self.cuts.as_slice()
    }

    /// The areas, from the lowest.
    pub fn areas(&self) -> &[Area<M>]
        ensures { result.now ≡ self.now.areas }
    {
        self.areas.as_slice()
    }

    /// What the areas tell in numbers.
    pub fn figures(&self) -> Figures
        ensures areas { result.areas ≡ length self.now.areas }
        ensures pieces { HavePieces self.now.areas result.pieces }
        ensures entries { result.entries ≡ capped (areas_entries self.now.areas) }
        ensures maps { result.maps ≡ capped (areas_maps self.now.areas) }
        ensures cells { result.cells ≡ capped (areas_cells self.now.areas) }
    {
        figures_of(self.areas.as_slice())
    }

    /// Appends updates: an inserted key exceeds all that came before it, and a removed key is live then. Each goes to
    /// one area, an insertion to that in whose interval its cell lies, a removal to that of its row, and waits there. A
    /// refusal changes nothing but the room of areas.
    pub fn receive(&mut self, updates: &[Update]) -> Result<(), Refusal>
        requires { MayFollow self.old.attribute self.old.updates updates.now }
        ensures received { OnOk result (HasReceived updates.now self.old self.new) }
        ensures left { OnErr result (IsSameButRoom self.old self.new) }
        ensures refused { IsOkUnless result NoMemory }
    {
        let before = self.owners.len();
        let by = Division {
            attribute: self.attribute,
            cuts: self.cuts.as_slice(),
        };
        add_owners(&mut self.owners, &by, updates)?;
        let done = route_all(
            self.alloc,
            &by,
            self.owners.as_slice(),
            self.areas.as_mut_slice(),
            updates,
        );
        match done {
            Ok(()) => {
                tell_all(&mut self.told, updates);
                Ok(())
            }
            Err(e) => {
                self.owners.truncate(before);
                Err(e)
            }
        }
    }

    /// The answer of a query over all rows: the areas that it touches are merged and asked, from the lowest, and their
    /// replies put together. Beside it stands how many of these areas scanned. An area that tells `Short` is asked once
    /// more after maps of the other areas were cleared, by least recent use. The head stands for the same updates, each
    /// area for the same rows with as many boxes, and areas that the query does not touch are as they were, but for
    /// what their boxes hold.
    ///
    /// The one refusal is `NoMemory`.
    pub fn answer<R: Threads + Sync>(
        &mut self,
        rt: &R,
        query: &Query,
    ) -> Result<(Reply, usize), Refusal>
        requires asks { AsksBelow 8 query.now }
        requires head { head_in query.now.conds ≡ self.old.attribute }
        ensures same { IsSameHead self.old self.new }
        ensures areas { AreEach StandsForSame self.old.areas self.new.areas }
        ensures kept { AreUntouchedKept query.now self.old.areas self.new.areas }
        ensures answered { IfOk result (λ r. r.0 ≡ answer (rows_of self.old.updates) query.now) }
        ensures ranged { IfOk result (λ r. r.1 ≡ 0 → All (IsRanged query.now) self.new.areas) }
        ensures few { IfOk result (λ r. r.1 ≤ length (touched_of query.now self.old.areas)) }
        ensures refused { IsOkUnless result NoMemory }
    {
        let align = |attribute: u8, boxes: &mut [M], tails: &[Tail], tape: &Tape| -> Result<
            (),
            Refusal,
        >
            requires { MayAlign M.held attribute tails.now tape.now boxes.now }
            ensures { HasAlignedOr result M.held attribute tails.now tape.now boxes.entry.now boxes.exit.now }
        { align_at_once(rt, attribute, boxes, tails, tape) };
        self.answer_by(&align, query)
    }

    /// The same in the caller's thread alone: the maps are stepped one after the other, and no thread is started.
    pub fn answer_in_turn(&mut self, query: &Query) -> Result<(Reply, usize), Refusal>
        requires asks { AsksBelow 8 query.now }
        requires head { head_in query.now.conds ≡ self.old.attribute }
        ensures same { IsSameHead self.old self.new }
        ensures areas { AreEach StandsForSame self.old.areas self.new.areas }
        ensures kept { AreUntouchedKept query.now self.old.areas self.new.areas }
        ensures answered { IfOk result (λ r. r.0 ≡ answer (rows_of self.old.updates) query.now) }
        ensures ranged { IfOk result (λ r. r.1 ≡ 0 → All (IsRanged query.now) self.new.areas) }
        ensures few { IfOk result (λ r. r.1 ≤ length (touched_of query.now self.old.areas)) }
        ensures refused { IsOkUnless result NoMemory }
    {
        let align = |attribute: u8, boxes: &mut [M], tails: &[Tail], tape: &Tape| -> Result<
            (),
            Refusal,
        >
            requires { MayAlign M.held attribute tails.now tape.now boxes.now }
            ensures { HasAlignedOr result M.held attribute tails.now tape.now boxes.entry.now boxes.exit.now }
        { align_in_turn(attribute, boxes, tails, tape) };
        self.answer_by(&align, query)
    }

    /// The same, where the maps are aligned by a function that does so.
    fn answer_by<F: Fn(u8, &mut [M], &[Tail], &Tape) -> Result<(), Refusal>>(
        &mut self,
        align: &F,
        query: &Query,
    ) -> Result<(Reply, usize), Refusal>
        requires aligns { AlignsBoxes F.Fn align.now M.held }
        requires asks { AsksBelow 8 query.now }
        requires head { head_in query.now.conds ≡ self.old.attribute }
        ensures same { IsSameHead self.old self.new }
        ensures areas { AreEach StandsForSame self.old.areas self.new.areas }
        ensures kept { AreUntouchedKept query.now self.old.areas self.new.areas }
        ensures answered { IfOk result (λ r. r.0 ≡ answer (rows_of self.old.updates) query.now) }
        ensures ranged { IfOk result (λ r. r.1 ≡ 0 → All (IsRanged query.now) self.new.areas) }
        ensures few { IfOk result (λ r. r.1 ≤ length (touched_of query.now self.old.areas)) }
        ensures refused { IsOkUnless result NoMemory }
    {
        let asking = Asking {
            align,
            alloc: self.alloc,
            number: self.tick(),
            query,
        };
        answer_areas(&asking, self.areas.as_mut_slice())
    }

    /// The next query's number. Which maps bear it is not known before the query is answered at rest.
    fn tick(&self) -> u64 {
        let now = self.clock.fetch_add(1, Ordering::SeqCst).wrapping_add(1);
        self.used.store(UNKNOWN, Ordering::SeqCst);
        now
    }

    /// The next query's number, where it uses others than just those maps that are known to bear the last one.
    fn tick_for(&self, used: u64) -> Option<u64> {
        if self.used.load(Ordering::SeqCst) == used {
            return None;
        }
        Some(self.tick())
    }

    /// Keeps which maps a query used, after it stamped them with its number, if it has one, and unless another has counted
    /// since. Where several share the head, one may count between the look at the clock and the store: then a later use of
    /// these is not stamped.
    fn keep_used(&self, used: u64, number: Option<u64>) {
        let Some(number) = number else {
            return;
        };
        if self.clock.load(Ordering::SeqCst) == number {
            self.used.store(used, Ordering::SeqCst);
        }
    }

    /// The answer of a query where each area that it touches is ready for it as it stands, so that many may be answered
    /// at a time; none where one of them has updates to merge, a range to log, or a map to make or align. Nothing
    /// changes but the stamps of the maps that it used. The one refusal is `NoMemory`.
    pub fn answer_at_rest(&self, query: &Query) -> Result<Option<Reply>, Refusal>
        requires asks { AsksBelow 8 query.now }
        requires head { head_in query.now.conds ≡ self.now.attribute }
        ensures rests { IfOk result (IsToldWhere (AreAtRest query.now self.now.areas)) }
        ensures answered { IfOk result (λ it. IfSome it (λ reply. reply ≡ answer (rows_of self.now.updates) query.now)) }
        ensures refused { IsOkUnless result NoMemory }
    {
        let areas = self.areas.as_slice();
        let used = maps_used(areas, query);
        let number = self.tick_for(used);
        let told = answer_resting(self.alloc, areas, number, query)?;
        if told.is_some() {
            self.keep_used(used, number);
        }
        Ok(told)
    }

    /// The plain answer over all rows: the areas that the query touches are merged and scanned. No map is made for it,
    /// and areas that the query does not touch are what they were. The one refusal is `NoMemory`.
    pub fn scan(&mut self, query: &Query) -> Result<Reply, Refusal>
        requires asks { AsksBelow 8 query.now }
        requires head { head_in query.now.conds ≡ self.old.attribute }
        ensures same { IsSameHead self.old self.new }
        ensures areas { AreEach StandsForSame self.old.areas self.new.areas }
        ensures kept { AreUntouchedSame query.now self.old.areas self.new.areas }
        ensures answered { IfOk result (λ reply. reply ≡ answer (rows_of self.old.updates) query.now) }
        ensures refused { IsOkUnless result NoMemory }
    {
        scan_areas(self.alloc, self.areas.as_mut_slice(), query)
    }

    /// Gives a blank box to the area with the fewest, of several to the lowest. Refused `NoMemory`, nothing has
    /// changed, and the box comes back.
    pub fn supply(&mut self, it: M) -> Result<(), (M, Refusal)>
        requires { M.held it ≡ blank }
        ensures { MatchResult result (λ _. IsSupplied self.old self.new) (ComesBack self.old self.new it) }
    {
        let at = fewest(self.areas.as_slice());
        self.areas[at].supply(it)
    }

    /// Drops up to so many boxes, those of the lowest areas first, and answers how many: as many as that, or all. It is
    /// never refused.
    pub fn shed(&mut self, most: usize) -> usize
        ensures same { IsSameHead self.old self.new }
        ensures shed { AreShed most self.old.areas self.new.areas result }
    {
        shed_all(self.areas.as_mut_slice(), most)
    }

    /// Clears maps by least recent use, over all areas, until so many cells came back or none is left, and answers how
    /// many came back, up to the greatest number of the type. It is never refused.
    pub fn evict(&mut self, cells: u64) -> u64
        ensures same { IsSameHead self.old self.new }
        ensures evicted { AreClearedBut (length self.old.areas) cells self.old.areas self.new.areas result }
    {
        let none = self.areas.len();
        clear_but(self.areas.as_mut_slice(), none, cells)
    }
}
