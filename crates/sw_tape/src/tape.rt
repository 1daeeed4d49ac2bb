//! The tape.

ghost use Rattle.std.specs.Prelude.{◌≡◌, ◌<◌, ◌≤◌, ◌+◌, ◌++◌, ◌∷◌, [], List, length, map, vec_len, vec_capacity, MatchOption, MatchResult, OnErr, OnOk, IfErr, IfOk, slice_get, slice_set, Some};
ghost use Rattle.sw_query.specs.Outcomes.{IsRefused};
ghost use Rattle.sw_table.specs.declared.row.Row.{Row};
ghost use Rattle.sw_query.specs.declared.refusal.Refusal.TheVariants.{NoMemory, TooMany};
ghost use Rattle.sw_kernel.specs.Replay.{Step, loaded};
ghost use Rattle.sw_kernel.specs.Tapes.{IsRising, IsTape, MayFollow, count_from, is_marked, peak_from};
ghost use Rattle.sw_tape.specs.Bounds.{AreJoinedBy, HasPieces, IsNearestAbove, IsNearestBelow};
ghost use Rattle.sw_tape.specs.declared.entry.Entry.TheVariants.{Remove};
ghost use Rattle.sw_tape.specs.Entries.{IsKept, step_of};
ghost use Rattle.sw_tape.specs.Restart.{AreOneLoad, IsCountOf, first_rows, live_load};

use crate::bounds::{add_both, around, is_among};
use crate::entry::{Entry, pairs_after};
use std::alloc::Global;
use std::marker::Model;
use std::mem;
use sw_load::LoadRows;
use sw_query::{Bound, Refusal, Row};
use sw_table::PackedRows;

/// How many entries a tape has at most.
pub const MAX_ENTRIES: usize = 4096;

/// One load of rows, and what came after it. Contracts see the list of steps on rows.
#[derive(Drop)]
pub struct Tape {
    entries: Vec<Entry>,
    bounds: Vec<Bound>,
    pairs: usize,
    peak: usize,
}

impl Model for Tape {
    ghost Value = { List (Step Row) };

    ghost view = { λ t. map step_of t.entries.items };

    ghost invariant = { λ t. IsKept (map step_of t.entries.items) t.bounds.items t.pairs t.peak };
}

/// A load of a copy of the rows.
fn load_of(alloc: Global, rows: &[Row]) -> Result<Entry, Refusal>
    ensures { MatchResult result (λ e. step_of e ≡ loaded rows.now) (λ e. e ≡ NoMemory) }
{
    match PackedRows::of(alloc, rows) {
        Ok(copy) => Ok(Entry::Load(LoadRows::of(alloc, copy))),
        Err(_) => Err(Refusal::NoMemory),
    }
}

/// Takes the rows of the load out that entries begin with; another entry stands in its place.
fn take_load(entries: &mut Vec<Entry>) -> LoadRows
    requires { IsTape (map step_of entries.old.items) }
    ensures rows { result.items ≡ first_rows (map step_of entries.old.items) }
    ensures rest { entries.new.items ≡ slice_set entries.old.items 0 (Remove 0) }
{
    match mem::replace(&mut entries[0], Entry::Remove(0)) {
        Entry::Load(rows) => rows,
        _ => unreachable!(),
    }
}

/// Makes entries that begin with a load one load of those rows that are live, and answers how many these are. Refused
/// `NoMemory`, the entries say what they said.
fn keep_in(entries: &mut Vec<Entry>, later: &PackedRows, live: &[bool]) -> Result<usize, Refusal>
    requires tape { IsTape (map step_of entries.old.items) }
    requires many { length live.now ≡ length (first_rows (map step_of entries.old.items) ++ later.now.items) }
    ensures kept { OnOk result (AreOneLoad live.now later.now.items entries.old.items entries.new.items) }
    ensures many { IfOk result (IsCountOf (live_load live.now (map step_of entries.old.items) later.now.items)) }
    ensures err { IfErr result (IsRefused (map step_of entries.old.items) (map step_of entries.new.items)) }
{
    let mut rows = take_load(entries);
    if let Err(_) = rows.keep(later, live) {
        entries[0] = Entry::Load(rows);
        return Err(Refusal::NoMemory);
    }
    let many = rows.len();
    entries.clear();
    entries.push_reserved(Entry::Load(rows));
    Ok(many)
}

/// Adds the bounds of an entry to those that stand in ranges.
fn add_bounds(bounds: &mut Vec<Bound>, entry: &Entry)
    requires room { vec_len bounds.old + 2 ≤ vec_capacity bounds.old }
    requires rising { IsRising bounds.old.items }
    ensures rising { IsRising bounds.new.items }
    ensures among { AreJoinedBy (step_of entry.now) bounds.old.items bounds.new.items }
{
    if let Entry::Range(lower, upper) = entry {
        add_both(bounds, *lower, *upper);
    }
}

impl Tape {
    /// A tape of one load. It is refused `NoMemory` alone.
    pub fn new(alloc: Global, rows: &[Row]) -> Result<Tape, Refusal>
        ensures { MatchResult result (λ tape. tape ≡ loaded rows.now ∷ []) (λ e. e ≡ NoMemory) }
    {
        match PackedRows::of(alloc, rows) {
            Ok(copy) => Tape::of(alloc, copy),
            Err(_) => Err(Refusal::NoMemory),
        }
    }

    /// A tape of one load of these rows, which are taken over and not copied. It is refused `NoMemory` alone.
    pub fn of(alloc: Global, rows: PackedRows) -> Result<Tape, Refusal>
        ensures { MatchResult result (λ tape. tape ≡ loaded rows.items ∷ []) (λ e. e ≡ NoMemory) }
    {
        let many = rows.len();
        let mut entries = Vec::new(alloc);
        let load = Entry::Load(LoadRows::of(alloc, rows));
        if entries.push(load).is_err() {
            return Err(Refusal::NoMemory);
        }
        Ok(Tape {
            entries,
            bounds: Vec::new(alloc),
            pairs: many,
            peak: many,
        })
    }

    /// Makes the tape one load of these rows. It is refused `NoMemory` alone, and then the tape is as it was.
    pub fn restart(&mut self, rows: &[Row]) -> Result<(), Refusal>
        ensures ok { OnOk result (self.new ≡ loaded rows.now ∷ []) }
        ensures err { IfErr result (IsRefused self.old self.new) }
    {
        let load = load_of(*self.entries.allocator(), rows)?;
        self.entries.clear();
        self.entries.push_reserved(load);
        self.bounds.clear();
        self.pairs = rows.len();
        self.peak = rows.len();
        Ok(())
    }

    /// Makes the tape one load of those rows that are live: of the rows of its load, and then of the later ones, each
    /// has a flag. They are kept in place. It is refused `NoMemory` alone, and then the tape is as it was.
    pub fn restart_live(&mut self, later: &PackedRows, live: &[bool]) -> Result<(), Refusal>
        requires many { length live.now ≡ length (first_rows self.old ++ later.now.items) }
        ensures ok { OnOk result (self.new ≡ loaded (live_load live.now self.old later.now.items) ∷ []) }
        ensures err { IfErr result (IsRefused self.old self.new) }
    {
        let many = keep_in(&mut self.entries, later, live)?;
        // the memory of the bounds goes back, as that of the entries' rows did
        self.bounds = Vec::new(*self.entries.allocator());
        self.pairs = many;
        self.peak = many;
        Ok(())
    }

    /// Appends an entry that is no load, and whose removed place is one of the pairs'. It is refused `TooMany` where the
    /// tape has 4,096 entries, and otherwise `NoMemory` alone; refused, the tape is as it was.
    pub fn push(&mut self, entry: Entry) -> Result<(), Refusal>
        requires follows { MayFollow (count_from 0 self.old) (step_of entry) }
        ensures ok { OnOk result (self.new ≡ self.old ++ step_of entry ∷ []) }
        ensures err { OnErr result (self.new ≡ self.old) }
        ensures full { length self.old ≡ MAX_ENTRIES → result ≡ Err (TooMany MAX_ENTRIES) }
        ensures room { length self.old < MAX_ENTRIES → IfErr result (λ e. e ≡ NoMemory) }
    {
        if self.len() == MAX_ENTRIES {
            return Err(Refusal::TooMany {
                limit: MAX_ENTRIES as u64,
            });
        }
        if self.entries.reserve(1).is_err() || self.bounds.reserve(2).is_err() {
            return Err(Refusal::NoMemory);
        }
        let pairs = pairs_after(self.pairs, &entry);
        add_bounds(&mut self.bounds, &entry);
        self.entries.push_reserved(entry);
        self.pairs = pairs;
        self.peak = self.peak.max(pairs);
        Ok(())
    }

    /// The number of entries, which begin with the one load. A tape is never empty.
    pub fn len(&self) -> usize
        ensures count { result ≡ length self.now }
        ensures most { result ≤ MAX_ENTRIES }
        ensures tape { IsTape self.now }
    {
        self.entries.len()
    }

    /// The entry at an index, from 0.
    pub fn get(&self, index: usize) -> Option<&Entry>
        ensures { MatchOption result (length self.now ≤ index) (λ e. slice_get self.now index ≡ Some (step_of e.now)) }
    {
        self.entries.get(index)
    }

    /// The greatest number of pairs after any entry.
    pub fn peak(&self) -> usize
        ensures { result ≡ peak_from 0 self.now }
    {
        self.peak
    }

    /// How many pieces a map has that replayed the tape: one more than bounds stand in its ranges.
    pub fn pieces(&self) -> usize
        ensures { HasPieces result self.now }
    {
        self.bounds.len() + 1
    }

    /// Whether the bound stands in a range of the tape, by binary search.
    pub fn marked(&self, bound: Bound) -> bool
        ensures { result ≡ is_marked bound self.now }
    {
        is_among(&self.bounds, bound)
    }

    /// The nearest bounds of the tape's ranges around a value: the greatest that does not have it on its left, and the least
    /// that has. They are found by binary search.
    pub fn around(&self, value: i64) -> (Option<Bound>, Option<Bound>)
        ensures lower { IsNearestBelow (λ b. is_marked b self.now) value result.0 }
        ensures upper { IsNearestAbove (λ b. is_marked b self.now) value result.1 }
    {
        around(&self.bounds, value)
    }
}
