//! Heads under updates: keys are given out in order, and nothing is received or asked that a head may not receive or be
//! asked.

ghost use Rattle.std.specs.Prelude.{◌≡◌, ◌∷◌, length, replicate, true, false, IfErr, IfOk, IfSome, MatchResult, None};
ghost use Rattle.sw_query.specs.declared.refusal.Refusal.TheVariants.{NoMemory};
ghost use Rattle.sw_query.specs.Scan.{AsksBelow, answer};
ghost use Rattle.sw_table.specs.Updates.{has_key, rows_of};
ghost use Rattle.sw_chunks.specs.Cleared.{AreClearedBut};
ghost use Rattle.sw_chunks.specs.Cuts.{RiseAbove};
ghost use Rattle.sw_chunks.specs.Heads.{IsSameHead, IsSupplied};
ghost use Rattle.sw_chunks.specs.Shelved.{AreShed};
ghost use Rattle.test_heads.specs.Growing.{HasCome, HasGone, IsMemoryOrInput, opened_over};

use std::alloc::Global;
use std::marker::Model;
use std::thread::Threads;
use sw_chunks::Head;
use sw_map::CrackerMap;
use sw_rows::{Query, Refusal, Reply, Row, Update};
use test_areas::{may_ask, numbered};

/// Where the keys of rows end.
const KEYS_END: usize = 1 << 63;

/// Whether values rise.
fn do_rise(cuts: &[i64]) -> bool
    ensures { result ≡ true → RiseAbove None cuts.now }
{
    let mut last = None;
    for cut in cuts {
        if let Some(before) = last {
            if before >= *cut {
                return false;
            }
        }
        last = Some(*cut);
    }
    true
}

/// No row of the key 0, and so many live ones.
fn all_live(alloc: Global, many: usize) -> Result<Vec<bool>, Refusal>
    ensures { MatchResult result (λ live. live.items ≡ false ∷ replicate many true) (λ e. e ≡ NoMemory) }
{
    let mut live = Vec::new(alloc);
    if live.push(false).is_err() {
        return Err(Refusal::NoMemory);
    }
    for _turn in 0..many {
        if live.push(true).is_err() {
            return Err(Refusal::NoMemory);
        }
    }
    Ok(live)
}

/// A head under updates: rows come by the keys 1, 2, 3 and so on.
#[derive(Drop)]
pub struct GrowingHead<M: CrackerMap> {
    head: Head<M>,
    /// By each key whether its row is live; as many stand here as the key of the row that comes next.
    live: Vec<bool>,
}

impl<M: CrackerMap> Model for GrowingHead<M> {
    ghost use Rattle.sw_chunks.specs.Codes.{head_code};
    ghost use Rattle.sw_chunks.specs.Heads.{HeadState};
    ghost use Rattle.test_heads.specs.Growing.{AreLive};

    ghost Value = { HeadState };

    ghost coded = { head_code };

    ghost view = { λ g. g.head };

    ghost invariant = { λ g. AreLive g.head.updates g.live.items };
}

impl<M: CrackerMap> GrowingHead<M> {
    /// A head over the rows of these cells, by the keys 1, 2, 3 and so on, of the first 1,048,576 alone; no area has
    /// boxes. `Input` where the attribute is not below 8 or the cuts are more than 15 or do not rise, and otherwise
    /// refused `NoMemory` alone.
    pub fn open(
        alloc: Global,
        attribute: u8,
        cuts: &[i64],
        cells: &[[i64; 8]],
    ) -> Result<GrowingHead<M>, Refusal>
        ensures { MatchResult result (λ h. h ≡ opened_over attribute cuts.now cells.now) IsMemoryOrInput }
    {
        if attribute >= 8 || cuts.len() > 15 || !do_rise(cuts) {
            return Err(Refusal::Input);
        }
        let rows = numbered(alloc, cells)?;
        let live = all_live(alloc, rows.len())?;
        let head = Head::new(alloc, attribute, cuts, rows.as_slice())?;
        Ok(GrowingHead { head, live })
    }

    /// The head.
    pub fn head(&self) -> &Head<M>
        ensures { result.now ≡ self.now }
    {
        &self.head
    }

    /// Whether there is a row of a key.
    pub fn holds(&self, key: u64) -> bool
        ensures { result ≡ has_key key (rows_of self.now.updates) }
    {
        if key < self.live.len() as u64 {
            self.live[key as usize]
        } else {
            false
        }
    }

    /// Receives the row of these cells by the next key, and answers the key. `Input` where keys have come to their end,
    /// otherwise refused `NoMemory` alone; after a refusal the head stands for the same updates.
    pub fn insert(&mut self, cells: [i64; 8]) -> Result<u64, Refusal>
        ensures came { IfOk result (λ key. HasCome key cells self.old self.new) }
        ensures refused { IfErr result (λ e. IsSameHead self.old self.new × IsMemoryOrInput e) }
    {
        let next = self.live.len();
        if next >= KEYS_END {
            return Err(Refusal::Input);
        }
        if self.live.reserve(1).is_err() {
            return Err(Refusal::NoMemory);
        }
        let key = next as u64;
        match self.head.receive(&[Update::Insert(Row { key, cells })]) {
            Ok(()) => {
                self.live.push_reserved(true);
                Ok(key)
            }
            Err(e) => Err(e),
        }
    }

    /// Receives that the row of a key goes, and answers `true`; where there is no such row, `false`, and nothing has
    /// changed. Refused `NoMemory` alone, and then the head stands for the same updates.
    pub fn remove(&mut self, key: u64) -> Result<bool, Refusal>
        ensures gone { IfOk result (λ gone. HasGone key gone self.old self.new) }
        ensures refused { IfErr result (λ e. IsSameHead self.old self.new × (e ≡ NoMemory)) }
    {
        if !self.holds(key) {
            return Ok(false);
        }
        match self.head.receive(&[Update::Remove(key)]) {
            Ok(()) => {
                self.live[key as usize] = false;
                Ok(true)
            }
            Err(e) => Err(e),
        }
    }

    /// What the head answers a query, and how many areas it scanned. `Input` where it may not be asked it, otherwise refused
    /// `NoMemory` alone.
    pub fn ask<R: Threads + Sync>(
        &mut self,
        rt: &R,
        query: &Query,
    ) -> Result<(Reply, usize), Refusal>
        ensures same { IsSameHead self.old self.new }
        ensures below { IfOk result (λ _. AsksBelow 8 query.now) }
        ensures answered { IfOk result (λ r. r.0 ≡ answer (rows_of self.old.updates) query.now) }
        ensures refused { IfErr result IsMemoryOrInput }
    {
        if !may_ask(self.head.attribute(), query) {
            return Err(Refusal::Input);
        }
        self.head.answer(rt, query)
    }

    /// The answer of a query where each area that it touches is ready for it as it stands. Refused as `ask`.
    pub fn ask_at_rest(&self, query: &Query) -> Result<Option<Reply>, Refusal>
        ensures answered { IfOk result (λ it. IfSome it (λ r. r ≡ answer (rows_of self.now.updates) query.now)) }
        ensures refused { IfErr result IsMemoryOrInput }
    {
        if !may_ask(self.head.attribute(), query) {
            return Err(Refusal::Input);
        }
        self.head.answer_at_rest(query)
    }

    /// The plain answer over all rows: the areas that the query touches are merged. Refused as `ask`.
    pub fn scan(&mut self, query: &Query) -> Result<Reply, Refusal>
        ensures same { IsSameHead self.old self.new }
        ensures answered { IfOk result (λ reply. reply ≡ answer (rows_of self.old.updates) query.now) }
        ensures refused { IfErr result IsMemoryOrInput }
    {
        if !may_ask(self.head.attribute(), query) {
            return Err(Refusal::Input);
        }
        self.head.scan(query)
    }

    /// Clears a box, and gives it to the area with the fewest, of several to the lowest. Refused `NoMemory` alone; then
    /// nothing has changed, and the box is dropped.
    pub fn supply(&mut self, it: M) -> Result<(), Refusal>
        ensures { MatchResult result (λ _. IsSupplied self.old self.new) (λ e. (self.new ≡ self.old) × (e ≡ NoMemory)) }
    {
        let mut it = it;
        it.clear();
        match self.head.supply(it) {
            Ok(()) => Ok(()),
            Err(_) => Err(Refusal::NoMemory),
        }
    }

    /// Drops up to so many boxes, those of the lowest areas first, and answers how many.
    pub fn shed(&mut self, most: usize) -> usize
        ensures same { IsSameHead self.old self.new }
        ensures shed { AreShed most self.old.areas self.new.areas result }
    {
        self.head.shed(most)
    }

    /// Clears maps by least recent use until so many cells came back or none is left, and answers how many came back.
    pub fn evict(&mut self, cells: u64) -> u64
        ensures same { IsSameHead self.old self.new }
        ensures evicted { AreClearedBut (length self.old.areas) cells self.old.areas self.new.areas result }
    {
        self.head.evict(cells)
    }
}
