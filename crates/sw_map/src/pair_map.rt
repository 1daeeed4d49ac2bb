//! The map of the program.

ghost use Rattle.std.specs.Prelude.{◌≡◌, ◌<◌};
ghost use Rattle.sw_kernel.specs.Replay.{ranged};
ghost use Rattle.sw_tape.specs.declared.tape.TheConstants.{MAX_ENTRIES};
ghost use Rattle.sw_map.specs.Held.{blank};
ghost use Rattle.sw_map.specs.Refusals.{HasReplayedOr};
ghost use Rattle.sw_map.specs.States.{held_in, seat_of};
ghost use Rattle.sw_map.specs.Twins.{HaveSameHeads};

use crate::active::Active;
use crate::cracker::CrackerMap;
use crate::home::{Home, Idle, Plan};
use crate::tail::Tail;
use core::mem::replace_with;
use std::alloc::Global;
use sw_budget::Purse;
use sw_query::{Bound, Refusal};
use sw_tape::Entry;

/// A map of two flat lists and marks. It has a purse while it is blank and a lease while it is in use; its drop gives the
/// lease back. It takes memory in `begin`, in `grow` and in a step of a range alone.
pub struct PairMap {
    alloc: Global,
    home: Home,
}

// By hand: the drop of a derived one is written out at each way out of a function.
impl Drop for PairMap {
    fn drop(self) {
        let Self {
            alloc: _,
            home: _home,
        } = self;
    }
}

/// Replays a range in two maps whose pairs have the same heads in the same pieces. It is refused `NoMemory` alone, and then
/// nothing has changed.
fn range_both(
    active: &mut Active,
    twin: &mut Active,
    lower: Option<Bound>,
    upper: Option<Bound>,
) -> Result<(), Refusal>
    requires same { HaveSameHeads active.old.pairs.pieces twin.old.pairs.pieces }
    requires early { (active.old.cursor < MAX_ENTRIES) × (twin.old.cursor < MAX_ENTRIES) }
    ensures replayed { HasReplayedOr result (ranged lower upper) (held_in active.old) (held_in active.new) }
    ensures twin_replayed { HasReplayedOr result (ranged lower upper) (held_in twin.old) (held_in twin.new) }
    ensures seats { (active.new.lease ≡ active.old.lease) × (twin.new.lease ≡ twin.old.lease) }
{
    active.pairs.range_both(&mut twin.pairs, lower, upper)?;
    active.cursor += 1;
    twin.cursor += 1;
    Ok(())
}

impl PairMap {
    /// A blank map, which owns the purse. It takes no memory.
    pub fn blank(alloc: Global, purse: Purse) -> PairMap
        ensures blank { ⟦<PairMap as CrackerMap>⟧.held result ≡ blank }
        ensures seat { seat_of result.home ≡ purse }
    {
        PairMap {
            alloc,
            home: Home::Blank(Idle::new(purse)),
        }
    }
}

impl CrackerMap for PairMap {
    ghost use Rattle.std.specs.Prelude.{◌≡◌, ◌<◌, ◌≤◌, IfErr, IfOk, IsOk, OnErr, false, true};
    ghost use Rattle.sw_tape.specs.Entries.{step_of};
    ghost use Rattle.sw_tape.specs.declared.tape.TheConstants.{MAX_ENTRIES};
    ghost use Rattle.sw_map.specs.Held.{KeysFit, MayReplay, after, blank, pairs_in};
    ghost use Rattle.sw_map.specs.Pieces.{TakesNoMemory};
    ghost use Rattle.sw_map.specs.Refusals.{HasBegunOr, HasGrownOr, HasReplayedOr};
    ghost use Rattle.sw_map.specs.Twins.{HaveSameHeads, MayStep};
    ghost use Rattle.sw_map.specs.States.{HasLeasedAnew, HasLeasedOr, IsBare, IsLookOf, cleared, held_by, seat_of};

    ghost held = { λ m. held_by m.home };

    ghost tells = { λ m. IsLookOf (seat_of m.home) };

    ghost stalls = { λ _ e. TakesNoMemory e → ⊥ };

    fn is_blank(&self) -> bool {
        match &self.home {
            Home::Blank(_) => true,
            Home::Active(_) => false,
        }
    }

    fn head(&self) -> u8 {
        match &self.home {
            Home::Blank(_) => 0,
            Home::Active(active) => active.head,
        }
    }

    fn tail(&self) -> Tail {
        match &self.home {
            Home::Blank(_) => Tail::Key,
            Home::Active(active) => active.tail,
        }
    }

    fn cells(&self) -> u64 {
        match &self.home {
            Home::Blank(_) => 0,
            Home::Active(active) => active.pairs.room() as u64,
        }
    }

    fn cursor(&self) -> usize {
        match &self.home {
            Home::Blank(_) => 0,
            Home::Active(active) => active.cursor,
        }
    }

    fn len(&self) -> usize {
        match &self.home {
            Home::Blank(_) => 0,
            Home::Active(active) => active.pairs.len(),
        }
    }

    fn find(&self, bound: Bound) -> Option<usize> {
        match &self.home {
            Home::Blank(_) => None,
            Home::Active(active) => active.pairs.find(bound),
        }
    }

    fn head_at(&self, place: usize) -> i64 {
        match &self.home {
            Home::Blank(_) => unreachable!(),
            Home::Active(active) => active.pairs.head_at(place),
        }
    }

    fn tail_at(&self, place: usize) -> i64 {
        match &self.home {
            Home::Blank(_) => unreachable!(),
            Home::Active(active) => active.pairs.tail_at(place),
        }
    }

    /// It copies them.
    fn read_tails(&self, place: usize, tails: &mut [i64]) {
        match &self.home {
            Home::Blank(_) => {}
            Home::Active(active) => active.pairs.read_tails(place, tails),
        }
    }

    /// New lists have room for just as many pairs as the lease has cells; those that a reset left it, for a 64th more at most.
    /// Where it is refused it has its purse again, and no memory.
    #[tactic(auto, using(crate::proofs::Looks::look_shown))]
    fn begin(&mut self, head: u8, tail: Tail, cells: u64) -> Result<(), Refusal>
        requires { held_by self.old.home ≡ blank }
        ensures held { HasBegunOr result head tail cells (held_by self.new.home) }
        ensures told { IfErr result (IsLookOf (seat_of self.new.home)) }
        ensures seat { HasLeasedOr result (seat_of self.old.home) cells (seat_of self.new.home) }
        ensures bare { OnErr result (IsBare self.new.home) }
    {
        let plan = Plan {
            alloc: self.alloc,
            head,
            tail,
            cells,
        };
        replace_with(&mut self.home, plan, Home::begin)
    }

    /// Its lease is given back and one of so many cells taken; its lists get room for as many pairs, and where they have
    /// to grow for a 64th more, by the allocator's own reallocation, and pairs, marks and cursor stay. Where it is refused
    /// it has its purse again, and no memory.
    #[tactic(auto, using(crate::proofs::Looks::look_shown))]
    fn grow(&mut self, cells: u64) -> Result<bool, Refusal>
        requires begun { (held_by self.old.home).is_blank ≡ false }
        requires more { (held_by self.old.home).cells < cells }
        ensures held { HasGrownOr result cells (held_by self.old.home) (held_by self.new.home) }
        ensures told { IfErr result (IsLookOf (seat_of self.new.home)) }
        ensures grew { IfOk result (λ grew. grew ≡ true) }
        ensures seat { HasLeasedAnew result (seat_of self.old.home) cells (seat_of self.new.home) }
        ensures bare { OnErr result (IsBare self.new.home) }
    {
        replace_with(&mut self.home, cells, Home::grow)
    }

    /// It is never refused but at a range, and its lease stays as it was.
    fn step(&mut self, entry: &Entry) -> Result<(), Refusal>
        requires begun { (held_by self.old.home).is_blank ≡ false }
        requires early { (held_by self.old.home).cursor < MAX_ENTRIES }
        requires next { MayReplay (held_by self.old.home) (step_of entry.now) }
        requires keys { KeysFit (step_of entry.now) }
        requires room { pairs_in (after (step_of entry.now) (held_by self.old.home)) ≤ (held_by self.old.home).cells }
        ensures held { HasReplayedOr result (step_of entry.now) (held_by self.old.home) (held_by self.new.home) }
        ensures memory { TakesNoMemory (step_of entry.now) → IsOk result }
        ensures seat { seat_of self.new.home ≡ seat_of self.old.home }
    {
        match &mut self.home {
            Home::Blank(_) => unreachable!(),
            Home::Active(active) => {
                active.pairs.replay(active.head, active.tail, entry)?;
                active.cursor += 1;
                Ok(())
            }
        }
    }

    /// At a range both are cracked together, where there is memory for both.
    fn step_both(
        &mut self,
        twin: &mut PairMap,
        entry: &Entry,
    ) -> (Result<(), Refusal>, Result<(), Refusal>)
        requires may { MayStep (step_of entry.now) (held_by self.old.home) }
        requires twin_may { MayStep (step_of entry.now) (held_by twin.old.home) }
        requires keys { KeysFit (step_of entry.now) }
        requires same { HaveSameHeads (held_by self.old.home).pairs (held_by twin.old.home).pairs }
        ensures held { HasReplayedOr result.0 (step_of entry.now) (held_by self.old.home) (held_by self.new.home) }
        ensures memory { TakesNoMemory (step_of entry.now) → IsOk result.0 × IsOk result.1 }
        ensures twin_held { HasReplayedOr result.1 (step_of entry.now) (held_by twin.old.home) (held_by twin.new.home) }
        ensures seats { (seat_of self.new.home ≡ seat_of self.old.home) × (seat_of twin.new.home ≡ seat_of twin.old.home) }
    {
        if let Entry::Range(lower, upper) = entry
            && let Home::Active(active) = &mut self.home
            && let Home::Active(other) = &mut twin.home
        {
            if range_both(active, other, *lower, *upper).is_ok() {
                return (Ok(()), Ok(()));
            }
        }
        // also where memory was wanting: one of them may find it
        (self.step(entry), twin.step(entry))
    }

    /// Its lease, if it has one, is given back, once, and its lists.
    fn clear(&mut self)
        ensures held { held_by self.new.home ≡ blank }
        ensures seat { seat_of self.new.home ≡ cleared (seat_of self.old.home) (held_by self.old.home).is_blank }
        ensures bare { IsBare self.new.home }
    {
        replace_with(&mut self.home, (), |home: Home, _: ()| (home.clear(), ()));
    }

    /// Its lease, if it has one, is given back, once. It keeps its lists, with no pairs.
    fn reset(&mut self)
        ensures held { held_by self.new.home ≡ blank }
        ensures seat { seat_of self.new.home ≡ cleared (seat_of self.old.home) (held_by self.old.home).is_blank }
    {
        replace_with(&mut self.home, (), |home: Home, _: ()| (home.reset(), ()));
    }

    /// It keeps no list.
    fn trim(&mut self)
        ensures held { held_by self.new.home ≡ held_by self.old.home }
        ensures seat { seat_of self.new.home ≡ seat_of self.old.home }
        ensures bare { IsBare self.new.home }
    {
        if let Home::Blank(idle) = &mut self.home {
            idle.lists = None;
        }
    }
}
