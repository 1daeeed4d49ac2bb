//! Preparing an area for a query: the range is logged, the maps that are needed are made and aligned, and the places of the
//! range's bounds are found.

ghost use Rattle.std.specs.Prelude.{◌≡◌, ℕ, ◌<◌, ◌≤◌, ◌^◌, [], true, length, false, Contains, IfErr, IfOk, IfSome, IsOk, IsOkUnless};
ghost use Rattle.sw_query.specs.Scan.{AsksBelow, answer};
ghost use Rattle.sw_query.specs.declared.refusal.Refusal.TheVariants.{NoMemory};
ghost use Rattle.sw_map.specs.declared.tail.Tail.TheVariants.{Key};
ghost use Rattle.sw_query.specs.Outcomes.{MemoryAside};
ghost use Rattle.sw_set.specs.Needs.{head_in, needed};
ghost use Rattle.sw_set.specs.Prepared.{ComesFromMap, HasTooFew, IsHindered, IsOfBudget, IsPartlyNoted, IsPrepared, IsShort, IsTold, IsToldTooFew, StandReady, area_lower, area_upper, cells_asked, cells_for, is_touched, stand_both};
ghost use Rattle.sw_set.specs.Boxed.{HasAt, IsFoundAt, LacksOne};
ghost use Rattle.sw_set.specs.Preparing.{HasNotedOr, HasPreparedOr, HasRangedOr};
ghost use Rattle.sw_set.specs.Aligning.{AlignsBoxes, HasAlignedOr, MayAlign};
ghost use Rattle.sw_set.specs.Shelf.{IsSameArea, rows_in};
ghost use Rattle.sw_set.specs.Sought.{AreAllNeeded};

pub(crate) mod align;
pub(crate) mod at_once;
pub(crate) mod course;
pub(crate) mod in_turn;
pub(crate) mod lacking;
pub(crate) mod making;
pub(crate) mod needs;
pub(crate) mod twins;

use crate::area::Area;
use crate::area::ready::Ready;
use crate::prepare::at_once::align_at_once;
use crate::prepare::making::make_all;
use crate::prepare::needs::{
    Tails, edge, lower_from, lower_of, needed_maps, needed_tails, touches, upper_of, upper_upto,
};
use std::thread::Threads;
use sw_map::{CrackerMap, Tail};
use sw_query::{Bound, Query, Refusal, Reply};
use sw_tape::{MAX_ENTRIES, Tape};

/// Whether both bounds, where they are there, stand in ranges of the tape.
pub(crate) fn all_stand<M: CrackerMap>(
    area: &Area<M>,
    lower: Option<Bound>,
    upper: Option<Bound>,
) -> bool
    ensures { result ≡ stand_both lower upper area.now.tape }
{
    area.stands(lower) && area.stands(upper)
}

/// Logs the range exactly where one of its bounds stands in no range of the tape, after a restart where the tape is full.
/// Refused `NoMemory`, the tape is as it was, or, where it was full, one load of the rows.
fn log_range<M: CrackerMap>(
    area: &mut Area<M>,
    lower: Option<Bound>,
    upper: Option<Bound>,
) -> Result<(), Refusal>
    ensures same { IsSameArea area.old area.new }
    ensures ends { HasNotedOr result lower upper area.old area.new }
{
    area.known();
    if all_stand(area, lower, upper) {
        return Ok(());
    }
    if area.tape_len() == MAX_ENTRIES {
        area.restart()?;
        return area.log(lower, upper);
    }
    area.log(lower, upper)
}

/// How many cells a block has; a lease is of whole blocks.
const CELL_BLOCK: u64 = 64;

/// The cells for so many pairs: whole blocks, and one at least.
fn cells_for(pairs: usize) -> u64
    requires { pairs ≤ 2 ^ 63 }
    ensures { result ≡ cells_for pairs }
{
    let blocks = (pairs as u64 + (CELL_BLOCK - 1)) / CELL_BLOCK;
    (CELL_BLOCK * blocks).max(CELL_BLOCK)
}

/// Where a bound stands in the box at a place; an absent one stands where it is said.
fn place_in_box<M: CrackerMap>(
    area: &Area<M>,
    at: usize,
    bound: Option<Bound>,
    absent: usize,
) -> usize
    requires within { at < length area.now.boxes }
    requires marked { HasAt area.now.boxes at (λ b. (i : ℕ) × IsFoundAt bound absent b i) }
    ensures { HasAt area.now.boxes at (λ b. IsFoundAt bound absent b result) }
{
    let Some(b) = bound else {
        return absent;
    };
    match area.place_at(at, b) {
        Some(place) => place,
        None => unreachable!(),
    }
}

/// The range of the bounds, in an area whose needed maps stand at the tape's end.
pub(crate) fn range_of<M: CrackerMap>(
    area: &Area<M>,
    lower: Option<Bound>,
    upper: Option<Bound>,
    tails: &[Tail],
) -> Ready
    requires maps { StandReady tails.now area.now.tape area.now.boxes }
    requires key { Contains tails.now Key }
    requires stand { stand_both lower upper area.now.tape ≡ true }
    ensures { IsPrepared lower upper tails.now area.now result.from result.upto }
{
    area.known();
    let Some(at) = area.with_map(Tail::Key) else {
        unreachable!()
    };
    let from = place_in_box(area, at, lower, 0);
    let upto = place_in_box(area, at, upper, area.pairs_at(at));
    Ready { from, upto }
}

/// Logs the range, makes the maps, aligns them by a function and finds the places of the bounds, where there are boxes
/// enough.
fn prepare_range<M: CrackerMap, F: Fn(u8, &mut [M], &[Tail], &Tape) -> Result<(), Refusal>>(
    align: &F,
    area: &mut Area<M>,
    lower: Option<Bound>,
    upper: Option<Bound>,
    tails: &[Tail],
) -> Result<Ready, Refusal>
    requires aligns { AlignsBoxes F.Fn align.now M.held }
    requires key { Contains tails.now Key }
    requires enough { length tails.now ≤ length area.old.boxes }
    ensures lacking { IfErr result (λ e. IsOfBudget e → LacksOne tails.now (cells_asked area.new) area.new.boxes) }
    ensures spent { IfErr result (λ e. IsShort e → AreAllNeeded tails.now area.new.boxes) }
    ensures same { IsSameArea area.old area.new }
    ensures told { IfErr result (ComesFromMap M.tells) }
    ensures ends { HasRangedOr result lower upper tails.now area.old area.new }
{
    area.known();
    log_range(area, lower, upper)?;
    let cells = cells_for(area.peak());
    make_all(area, tails, cells)?;
    area.known();
    area.align_by(align, tails)?;
    Ok(range_of(area, lower, upper, tails))
}

impl<M: CrackerMap> Area<M> {
    /// Whether a query touches the area: its range over the head meets the area's interval.
    pub fn touches(&self, query: &Query) -> bool
        ensures { result ≡ is_touched self.now query.now }
    {
        let start = edge(self.from());
        let end = edge(self.below());
        touches(start, end, lower_of(&query.conds), upper_of(&query.conds))
    }

    /// A query's bounds on its head, of which one at the interval's end or beyond it counts as absent.
    pub(crate) fn bounds_of(&self, query: &Query) -> (Option<Bound>, Option<Bound>)
        ensures lower { result.0 ≡ area_lower self.now query.now }
        ensures upper { result.1 ≡ area_upper self.now query.now }
    {
        let lower = lower_from(edge(self.from()), lower_of(&query.conds));
        let upper = upper_upto(edge(self.below()), upper_of(&query.conds));
        (lower, upper)
    }

    /// The tails of the maps that a query needs. Refused `NoMemory` alone.
    pub(crate) fn tails_for(&self, query: &Query) -> Result<Tails, Refusal>
        ensures { MemoryAside result (λ tails. tails.items ≡ needed self.now.attribute query.now) }
    {
        needed_tails(self.alloc(), self.attribute(), query)
    }

    /// Prepares the area for a query over its head. The range is logged where one of its bounds stands in no range of the
    /// tape, after a restart where the tape is full; the maps that the query needs are made and stepped to the tape's end;
    /// and the answer is the range of places that qualify. A query that does not touch the area gets an empty range, and
    /// nothing has changed.
    ///
    /// Boxes are counted first: where there are fewer than the query needs maps it is refused `NoBlank`, and nothing has
    /// changed. It may be refused `NoMemory`, `Contended`, or `Short` where all maps that are left are needed; then the area
    /// stands for the same rows, and each box is blank or stands lawfully at some cursor.
    pub fn prepare<R: Threads + Sync>(&mut self, rt: &R, query: &Query) -> Result<Ready, Refusal>
        requires received { self.old.inbox ≡ [] }
        ensures untouched { is_touched self.old query.now ≡ false → IsOk result × (self.new ≡ self.old) }
        ensures few { HasTooFew self.old query.now → IsToldTooFew result query.now self.old self.new }
        ensures hindered { IfErr result (IsHindered query.now self.old self.new) }
        ensures told { IfErr result (ComesFromMap M.tells) }
        ensures same { IsSameArea self.old self.new }
        ensures ends { HasPreparedOr result query.now self.old self.new }
    {
        let align = |attribute: u8, boxes: &mut [M], tails: &[Tail], tape: &Tape| -> Result<
            (),
            Refusal,
        >
            requires { MayAlign M.held attribute tails.now tape.now boxes.now }
            ensures { HasAlignedOr result M.held attribute tails.now tape.now boxes.entry.now boxes.exit.now }
        { align_at_once(rt, attribute, boxes, tails, tape) };
        self.prepare_by(&align, query)
    }

    /// The same, where the maps are aligned by a function that does so: `align_at_once` with a runtime, or `align_in_turn`.
    pub fn prepare_by<F: Fn(u8, &mut [M], &[Tail], &Tape) -> Result<(), Refusal>>(
        &mut self,
        align: &F,
        query: &Query,
    ) -> Result<Ready, Refusal>
        requires aligns { AlignsBoxes F.Fn align.now M.held }
        requires received { self.old.inbox ≡ [] }
        ensures untouched { is_touched self.old query.now ≡ false → IsOk result × (self.new ≡ self.old) }
        ensures few { HasTooFew self.old query.now → IsToldTooFew result query.now self.old self.new }
        ensures hindered { IfErr result (IsHindered query.now self.old self.new) }
        ensures told { IfErr result (ComesFromMap M.tells) }
        ensures same { IsSameArea self.old self.new }
        ensures ends { HasPreparedOr result query.now self.old self.new }
    {
        self.tick();
        if !self.touches(query) {
            return Ok(Ready { from: 0, upto: 0 });
        }
        let done = self.prepare_touched(align, query);
        self.trim();
        done
    }

    /// The same for a query that touches the area; memory that stayed with blank boxes stays there.
    fn prepare_touched<F: Fn(u8, &mut [M], &[Tail], &Tape) -> Result<(), Refusal>>(
        &mut self,
        align: &F,
        query: &Query,
    ) -> Result<Ready, Refusal>
        requires aligns { AlignsBoxes F.Fn align.now M.held }
        requires touched { is_touched self.old query.now ≡ true }
        ensures few { HasTooFew self.old query.now → IsToldTooFew result query.now self.old self.new }
        ensures hindered { IfErr result (IsHindered query.now self.old self.new) }
        ensures told { IfErr result (ComesFromMap M.tells) }
        ensures same { IsSameArea self.old self.new }
        ensures ends { HasPreparedOr result query.now self.old self.new }
    {
        let boxes = self.boxes() as u64;
        let needed = needed_maps(self.attribute(), query) as u64;
        if boxes < needed {
            return Err(Refusal::NoBlank { boxes, needed });
        }
        let tails = self.tails_for(query)?;
        let (lower, upper) = self.bounds_of(query);
        let done = prepare_range(align, self, lower, upper, tails.as_slice());
        self.stamp(tails.as_slice());
        done
    }

    /// The answer of a query: the area is prepared and the reply put together from its maps; where `prepare` is refused, the
    /// area's rows are scanned, and that refusal is told beside the reply. The reply is the same.
    ///
    /// The one refusal is `NoMemory`. The area stands for the same rows then and otherwise, and where no refusal was told it
    /// stands as `prepare` leaves it.
    pub fn answer<R: Threads + Sync>(
        &mut self,
        rt: &R,
        query: &Query,
    ) -> Result<(Reply, Option<Refusal>), Refusal>
        requires received { self.old.inbox ≡ [] }
        requires asks { AsksBelow 8 query.now }
        requires head { head_in query.now.conds ≡ self.old.attribute }
        ensures same { IsSameArea self.old self.new }
        ensures answered { IfOk result (λ r. r.0 ≡ answer (rows_in self.old) query.now) }
        ensures told { IfOk result (λ r. IsTold query.now self.old self.new r.1) }
        ensures by_map { IfOk result (λ r. IfSome r.1 (ComesFromMap M.tells)) }
        ensures refused { IsOkUnless result NoMemory }
        ensures left { IfErr result (λ _. IsPartlyNoted query.now self.old self.new.tape) }
    {
        match self.prepare(rt, query) {
            Ok(ready) => match self.collect(&ready, query) {
                Ok(reply) => Ok((reply, None)),
                Err(e) => Err(e),
            },
            Err(e) => match self.scan(query) {
                Ok(reply) => Ok((reply, Some(e))),
                Err(refusal) => Err(refusal),
            },
        }
    }
}
