//! The trait of maps, and a box of any map.

ghost use Rattle.std.specs.Prelude.{◌≡◌, ◌+◌, ◌<◌, ◌≤◌, IfErr, OnErr, pos, length, false, slice_index_or, slice_range};
ghost use Rattle.sw_query.specs.declared.refusal.Refusal.{Refusal};
ghost use Rattle.sw_table.specs.declared.row.Row.{Row};
ghost use Rattle.sw_kernel.specs.Replay.{Step};
ghost use Rattle.sw_kernel.specs.Arrangement.{joined};
ghost use Rattle.sw_tape.specs.Entries.{step_of};
ghost use Rattle.sw_tape.specs.declared.tape.TheConstants.{MAX_ENTRIES};
ghost use Rattle.sw_map.specs.Held.{Held, blank, after, pairs_in, place_of, tails_in, MayReplay, KeysFit};
ghost use Rattle.sw_map.specs.Refusals.{HasBegunOr, HasGrownOr, HasReplayedOr};
ghost use Rattle.sw_map.specs.Twins.{HaveSameHeads, MayStep};

use crate::tail::Tail;
use sw_query::{Bound, Refusal};
use sw_tape::Entry;

/// A two-column table that replays the tape of an area. Contracts see what it holds.
///
/// A blank map has no head, no pairs and no lease. `begin` gives it a lease and a head and tail, each `step` replays the
/// next entry of the tape, `grow` may give it more cells in place, and `clear` or `reset` makes it blank again.
///
/// Contracts see what a map tells of a begin or growth that was refused, and of a step. Each kind of map says what that is;
/// who calls maps of any kind knows it of none but those that refused such a call.
pub trait CrackerMap: Send + Drop {
    ghost held: { Self → Held };

    ghost tells: { Self → Refusal → Type 0 };

    ghost stalls: { Self → Step Row → Type 0 };

    /// Whether the map is blank.
    fn is_blank(&self) -> bool
        ensures { result ≡ (held self.now).is_blank };

    /// The attribute that its head has cells of; 0 where it is blank.
    fn head(&self) -> u8
        ensures { result ≡ (held self.now).head };

    /// What its tail holds; the key where it is blank.
    fn tail(&self) -> Tail
        ensures { result ≡ (held self.now).tail };

    /// The cells of its lease, each of them room for one pair; 0 where it is blank.
    fn cells(&self) -> u64
        ensures { result ≡ (held self.now).cells };

    /// How many entries of the tape it has replayed.
    fn cursor(&self) -> usize
        ensures { result ≡ (held self.now).cursor };

    /// How many pairs it has.
    fn len(&self) -> usize
        ensures { result ≡ pairs_in (held self.now) };

    /// How many pairs stand before the bound, if it has cracked at that bound.
    fn find(&self, bound: Bound) -> Option<usize>
        ensures { result ≡ place_of bound (held self.now).pairs };

    /// The head of the pair at a place, from 0.
    fn head_at(&self, place: usize) -> i64
        requires { place < pairs_in (held self.now) }
        ensures { result ≡ (slice_index_or (joined (held self.now).pairs) place (pos 0, pos 0)).0 };

    /// The tail of the pair at a place, from 0.
    fn tail_at(&self, place: usize) -> i64
        requires { place < pairs_in (held self.now) }
        ensures { result ≡ (slice_index_or (joined (held self.now).pairs) place (pos 0, pos 0)).1 };

    /// Reads the tails from a place on into a slice, as many as it has. A map that keeps its tails in a row copies them; by
    /// default it is asked for one after the other.
    fn read_tails(&self, place: usize, tails: &mut [i64])
        requires { place + length tails.old ≤ pairs_in (held self.now) }
        ensures { tails.new ≡ slice_range (tails_in (held self.now)) place (place + length tails.old) }
    {
        // that there are so few pairs is for the proof
        let _pairs = self.len();
        for at in 0..tails.len() {
            tails[at] = self.tail_at(place + at);
        }
    }

    /// Begins a blank map of this head and tail, with a lease of so many cells: cursor 0, and no pairs. It is refused
    /// `NoMemory`, `Short` or `Contended`, and is then blank.
    fn begin(&mut self, head: u8, tail: Tail, cells: u64) -> Result<(), Refusal>
        requires { held self.old ≡ blank }
        ensures begun { HasBegunOr result head tail cells (held self.new) }
        ensures told { IfErr result (tells self.new) };

    /// Grows the lease of a map in use to so many cells, more than it has, and answers `true`; all else is as it was. A
    /// map that does not grow in place answers `false`, and nothing has changed. It is refused what `begin` is, and is
    /// then blank.
    fn grow(&mut self, cells: u64) -> Result<bool, Refusal>
        requires begun { (held self.old).is_blank ≡ false }
        requires more { (held self.old).cells < cells }
        ensures grown { HasGrownOr result cells (held self.old) (held self.new) }
        ensures told { IfErr result (tells self.new) }
    {
        Ok(false)
    }

    /// Replays the next entry of the tape, and the cursor rises by one. It is refused `NoMemory` alone, and then nothing
    /// has changed.
    fn step(&mut self, entry: &Entry) -> Result<(), Refusal>
        requires begun { (held self.old).is_blank ≡ false }
        requires early { (held self.old).cursor < MAX_ENTRIES }
        requires next { MayReplay (held self.old) (step_of entry.now) }
        requires keys { KeysFit (step_of entry.now) }
        requires room { pairs_in (after (step_of entry.now) (held self.old)) ≤ (held self.old).cells }
        ensures replayed { HasReplayedOr result (step_of entry.now) (held self.old) (held self.new) }
        ensures stalled { OnErr result (stalls self.new (step_of entry.now)) };

    /// Replays the next entry of the tape in this map and in another one, whose pairs have the same heads in the same pieces, in each as
    /// `step` does; the first answer is of this map, the second of the other. A kind of map may compare the heads of one for both; by
    /// default one steps after the other.
    fn step_both(
        &mut self,
        twin: &mut Self,
        entry: &Entry,
    ) -> (Result<(), Refusal>, Result<(), Refusal>)
    where
        Self: Sized,
        requires may { MayStep (step_of entry.now) (held self.old) × MayStep (step_of entry.now) (held twin.old) }
        requires keys { KeysFit (step_of entry.now) }
        requires same { HaveSameHeads (held self.old).pairs (held twin.old).pairs }
        ensures replayed { HasReplayedOr result.0 (step_of entry.now) (held self.old) (held self.new) }
        ensures stalled { OnErr result.0 (stalls self.new (step_of entry.now)) }
        ensures twin_replayed { HasReplayedOr result.1 (step_of entry.now) (held twin.old) (held twin.new) }
        ensures twin_stalled { OnErr result.1 (stalls twin.new (step_of entry.now)) }
    {
        (self.step(entry), twin.step(entry))
    }

    /// Makes the map blank; its lease is given back, and all memory. It takes no memory.
    fn clear(&mut self)
        ensures { held self.new ≡ blank };

    /// Makes the map blank; its lease is given back. Memory may stay with it for the next `begin`, until `trim`; by default
    /// none does. It takes no memory.
    fn reset(&mut self)
        ensures { held self.new ≡ blank }
    {
        self.clear();
    }

    /// Gives back the memory that stayed with a blank map at its reset; what the map holds is as it was. By default nothing
    /// is done.
    fn trim(&mut self)
        ensures { held self.new ≡ held self.old }
    {}
}

impl CrackerMap for Box<dyn CrackerMap> {
    ghost held = { λ b. (CrackerMap-box b).held b.value };

    ghost tells = { λ b. (CrackerMap-box b).tells b.value };

    ghost stalls = { λ b. (CrackerMap-box b).stalls b.value };

    fn is_blank(&self) -> bool {
        (**self).is_blank()
    }

    fn head(&self) -> u8 {
        (**self).head()
    }

    fn tail(&self) -> Tail {
        (**self).tail()
    }

    fn cells(&self) -> u64 {
        (**self).cells()
    }

    fn cursor(&self) -> usize {
        (**self).cursor()
    }

    fn len(&self) -> usize {
        (**self).len()
    }

    fn find(&self, bound: Bound) -> Option<usize> {
        (**self).find(bound)
    }

    fn head_at(&self, place: usize) -> i64 {
        (**self).head_at(place)
    }

    fn tail_at(&self, place: usize) -> i64 {
        (**self).tail_at(place)
    }

    fn read_tails(&self, place: usize, tails: &mut [i64]) {
        (**self).read_tails(place, tails);
    }

    fn begin(&mut self, head: u8, tail: Tail, cells: u64) -> Result<(), Refusal> {
        (**self).begin(head, tail, cells)
    }

    fn grow(&mut self, cells: u64) -> Result<bool, Refusal> {
        (**self).grow(cells)
    }

    fn step(&mut self, entry: &Entry) -> Result<(), Refusal> {
        (**self).step(entry)
    }

    fn clear(&mut self) {
        (**self).clear();
    }

    fn reset(&mut self) {
        (**self).reset();
    }

    fn trim(&mut self) {
        (**self).trim();
    }
}
