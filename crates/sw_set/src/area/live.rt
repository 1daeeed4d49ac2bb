//! Which rows of a tape are live.

ghost use Rattle.std.specs.Prelude.{◌≡◌, ◌<◌, ◌≤◌, ◌++◌, ◌+◌, true, false, not, length, filter, fold, slice_index_or, slice_set, All, Bool, Decides, IfOk, IsOk, IsOkUnless, MatchResult};
ghost use Rattle.sw_table.specs.declared.row.Row.{Row};
ghost use Rattle.sw_query.specs.declared.refusal.Refusal.TheVariants.{NoMemory};
ghost use Rattle.sw_query.specs.Outcomes.{IsRefused, MemoryAside};
ghost use Rattle.sw_query.specs.Scan.{AsksBelow, TakesMemory, answer, cell_of};
ghost use Rattle.sw_table.specs.Updates.{has_key};
ghost use Rattle.sw_set.specs.Live.{FindsKey, IsNextStanding, IsStandingOf, Standing, IsStandingAfter, all_standing, came_later, came_to, live_among, without_last};
ghost use Rattle.sw_set.specs.Shelf.{Rises, came_then, key_of};

use std::alloc::Global;
use std::marker::Model;
use sw_query::{PackedRows, Places, Query, Refusal, Reply, Row, Update, scan};
use sw_tape::LoadRows;

/// Which of the rows that a tape brought are live: of those in its load, and of those that came later. Each has a
/// place: those of the load first, then the later ones, in the order in which they came.
pub(crate) struct LiveRows {
    later: PackedRows,
    flags: Vec<bool>,
    /// How many flags are false.
    gone: usize,
}

// By hand: the drop of a derived one is written out at each way out of a function.
impl Drop for LiveRows {
    fn drop(self) {
        let Self {
            later: _later,
            flags: _flags,
            gone: _,
        } = self;
    }
}

impl Model for LiveRows {
    ghost use Rattle.std.specs.Prelude.{◌≡◌, filter, length, not};
    ghost use Rattle.sw_set.specs.Live.{Standing};

    ghost Value = { Standing };

    ghost view = { λ s. record { later = s.later.items; flags = s.flags.items } };

    ghost invariant = { λ s. s.gone ≡ length (filter not s.flags.items) };
}

impl LiveRows {
    /// As many rows as that, all of them of a load that keeps so many cells of a row, and all live. Refused `NoMemory`
    /// alone.
    pub(crate) fn all(alloc: Global, width: usize, many: usize) -> Result<LiveRows, Refusal>
        requires some { 1 ≤ width }
        requires most { width ≤ 8 }
        ensures { MemoryAside result (λ live. live ≡ all_standing many) }
    {
        match vec![in alloc; true; many] {
            Ok(flags) => Ok(LiveRows {
                later: PackedRows::new(alloc, width),
                flags,
                gone: 0,
            }),
            Err(_) => Err(Refusal::NoMemory),
        }
    }

    /// How many places there are.
    pub(crate) fn places(&self) -> usize
        ensures { result ≡ length self.now.flags }
    {
        self.flags.len()
    }

    /// Whether the row at a place is live.
    #[inline]
    pub(crate) fn is_live(&self, place: usize) -> bool
        requires { place < length self.now.flags }
        ensures { (d : Bool) → result ≡ slice_index_or self.now.flags place d }
    {
        self.flags[place]
    }

    /// The key of the row at a place.
    fn key(&self, load: &LoadRows, place: usize) -> u64
        requires { place < length (came_to load.now.items self.now) }
        ensures { (d : Row) → result ≡ (slice_index_or (came_to load.now.items self.now) place d).key }
    {
        if place < load.len() {
            load.key(place)
        } else {
            self.later.key(place - load.len())
        }
    }

    /// A cell of the row at a place.
    #[inline]
    pub(crate) fn cell(&self, load: &LoadRows, place: usize, attr: usize) -> i64
        requires { place < length (came_to load.now.items self.now) }
        ensures { (d : Row) → result ≡ cell_of attr (slice_index_or (came_to load.now.items self.now) place d) }
    {
        if place < load.len() {
            load.cell(place, attr)
        } else {
            self.later.cell(place - load.len(), attr)
        }
    }

    /// The place of a key, whether or not its row is live.
    pub(crate) fn find(&self, load: &LoadRows, key: u64) -> Option<usize>
        requires { IsStandingOf load.now.items self.now }
        ensures { FindsKey key (came_to load.now.items self.now) result }
    {
        if let Some(place) = load.find(key) {
            return Some(place);
        }
        match self.later.find(key) {
            Some(place) => Some(load.len() + place),
            None => None,
        }
    }

    /// Whether a live row has the key.
    pub(crate) fn holds(&self, load: &LoadRows, key: u64) -> bool
        requires { IsStandingOf load.now.items self.now }
        ensures { result ≡ has_key key (live_among load.now.items self.now) }
    {
        match self.find(load, key) {
            Some(place) => self.is_live(place),
            None => false,
        }
    }

    /// A row comes, and it is live. Refused `NoMemory` alone, and then nothing has changed.
    pub(crate) fn push(&mut self, row: Row) -> Result<(), Refusal>
        ensures { MatchResult result (λ _. self.new ≡ came_later row self.old) (IsRefused self.old self.new) }
    {
        if self.flags.reserve(1).is_err() || self.later.add(&row).is_err() {
            return Err(Refusal::NoMemory);
        }
        self.flags.push_reserved(true);
        Ok(())
    }

    /// Takes the row away that came last, and its flag.
    pub(crate) fn undo_push(&mut self)
        requires rows { 0 < length self.old.later }
        requires flags { 0 < length self.old.flags }
        ensures { self.new ≡ without_last self.old }
    {
        self.later.truncate(self.later.len() - 1);
        if self.flags.pop() == Some(false) {
            self.gone -= 1;
        }
    }

    /// The row at a place is live no longer.
    pub(crate) fn remove(&mut self, place: usize)
        requires { place < length self.old.flags }
        ensures { self.new ≡ record self.old { flags = slice_set self.old.flags place false } }
    {
        if self.is_live(place) {
            self.flags[place] = false;
            self.gone += 1;
        }
    }

    /// Whether each row is of the load, and live.
    fn is_load(&self) -> bool
        ensures { Decides result ((length self.now.later ≡ 0) × All (λ (b : Bool). b ≡ true) self.now.flags) }
    {
        self.gone == 0 && self.later.len() == 0
    }

    /// How many rows are live.
    pub(crate) fn count(&self) -> usize
        ensures { result + length (filter not self.now.flags) ≡ length self.now.flags }
    {
        self.flags.len() - self.gone
    }

    /// The rows that came after the load.
    pub(crate) fn later(&self) -> &PackedRows
        ensures { result.now.items ≡ self.now.later }
    {
        &self.later
    }

    /// The flags of the rows.
    pub(crate) fn flags(&self) -> &[bool]
        ensures { result.now ≡ self.now.flags }
    {
        self.flags.as_slice()
    }

    /// A copy. Refused `NoMemory` alone.
    fn copied(&self, alloc: Global) -> Result<LiveRows, Refusal>
        ensures { MemoryAside result (λ live. live ≡ self.now) }
    {
        let Ok(later) = self.later.part(alloc, 0, self.later.len()) else {
            return Err(Refusal::NoMemory);
        };
        let Ok(flags) = Vec::from_slice(alloc, self.flags.as_slice()) else {
            return Err(Refusal::NoMemory);
        };
        Ok(LiveRows {
            later,
            flags,
            gone: self.gone,
        })
    }

    /// A row comes, or that of a key goes, if it is there. Refused `NoMemory` alone, and then nothing is said of these rows.
    fn follow(&mut self, load: &LoadRows, update: &Update) -> Result<(), Refusal>
        requires standing { IsStandingOf load.now.items self.old }
        requires rise { Rises key_of (came_then (came_to load.now.items self.old) update.now) }
        ensures { MemoryAside result (λ _. IsNextStanding load.now.items update.now self.old self.new) }
    {
        match update {
            Update::Insert(row) => self.push(*row),
            Update::Remove(key) => {
                if let Some(place) = self.find(load, *key) {
                    self.remove(place);
                }
                Ok(())
            }
        }
    }

    /// Which rows are live after these updates. Refused `NoMemory` alone.
    pub(crate) fn after(
        &self,
        alloc: Global,
        load: &LoadRows,
        updates: &[Update],
    ) -> Result<LiveRows, Refusal>
        requires many { length self.now.flags ≡ length (came_to load.now.items self.now) }
        requires rise { Rises key_of (fold came_then (came_to load.now.items self.now) updates.now) }
        ensures { MemoryAside result (IsStandingAfter load.now.items updates.now self.now) }
    {
        let mut live = self.copied(alloc)?;
        for update in updates {
            live.follow(load, update)?;
        }
        Ok(live)
    }

    /// What a query is answered over the rows that are live. It takes memory only where rows are asked for, and then it
    /// may be refused, `NoMemory` alone. The caller's condition: attributes are below 8.
    pub(crate) fn scan(
        &self,
        alloc: Global,
        load: &LoadRows,
        query: &Query,
    ) -> Result<Reply, Refusal>
        requires asks { AsksBelow 8 query.now }
        requires many { length self.now.flags ≡ length (came_to load.now.items self.now) }
        ensures answered { IfOk result (λ reply. reply ≡ answer (live_among load.now.items self.now) query.now) }
        ensures refused { IsOkUnless result NoMemory }
        ensures scalars { (TakesMemory query.now.want → ⊥) → IsOk result }
    {
        if self.is_load() {
            return scan(alloc, load, query);
        }
        scan(alloc, &Spread { load, live: self }, query)
    }
}

/// The rows of a load and those that came later by place, with their flags.
#[derive(Clone, Copy)]
struct Spread<'a> {
    load: &'a LoadRows,
    live: &'a LiveRows,
}

impl Places for Spread<'_> {
    ghost rows = { λ s. s.load.now.items ++ s.live.now.later };

    ghost flags = { λ s. s.live.now.flags };

    #[inline]
    fn places(&self) -> usize {
        self.load.len() + self.live.later().len()
    }

    #[inline]
    fn is_live(&self, place: usize) -> bool {
        place < self.live.places() && self.live.is_live(place)
    }

    #[inline]
    fn cell(&self, place: usize, attr: usize) -> i64 {
        self.live.cell(self.load, place, attr)
    }

    #[inline]
    fn key(&self, place: usize) -> u64 {
        self.live.key(self.load, place)
    }
}
