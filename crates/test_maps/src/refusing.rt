//! A map that refuses some of its steps and growths.

ghost use Rattle.std.specs.Prelude.{◌≡◌};

use sw_map::{CrackerMap, Tail};
use sw_query::{Bound, Refusal};
use sw_tape::Entry;

/// Which of the calls that come are due: every n-th.
#[derive(Drop)]
struct Turns {
    every: u64,
    calls: u64,
}

impl Turns {
    /// Whether the call that comes now is due.
    fn is_due(&mut self) -> bool {
        self.calls = self.calls.wrapping_add(1);
        self.every != 0 && self.calls % self.every == 0
    }
}

/// A map that refuses every n-th call of `step` or `grow` with `NoMemory`: it does not change then, or is blank. With n 0 it refuses
/// none.
#[derive(Drop)]
pub struct RefusingMap<M: CrackerMap> {
    pub inner: M,
    turns: Turns,
}

impl<M: CrackerMap> RefusingMap<M> {
    /// Lets a map refuse every n-th step or growth.
    pub fn new(inner: M, every: u64) -> RefusingMap<M>
        ensures { result.inner ≡ inner }
    {
        RefusingMap {
            inner,
            turns: Turns { every, calls: 0 },
        }
    }
}

impl<M: CrackerMap> CrackerMap for RefusingMap<M> {
    ghost use Rattle.std.specs.Prelude.{◌≡◌, ◌⊎◌};
    ghost use Rattle.sw_query.specs.declared.refusal.Refusal.TheVariants.{NoMemory};

    ghost held = { λ r. M.held r.inner };

    ghost tells = { λ r e. (e ≡ NoMemory) ⊎ M.tells r.inner e };

    ghost stalls = { λ _ _. Unit {0} };

    fn is_blank(&self) -> bool {
        self.inner.is_blank()
    }

    fn head(&self) -> u8 {
        self.inner.head()
    }

    fn tail(&self) -> Tail {
        self.inner.tail()
    }

    fn cells(&self) -> u64 {
        self.inner.cells()
    }

    fn cursor(&self) -> usize {
        self.inner.cursor()
    }

    fn len(&self) -> usize {
        self.inner.len()
    }

    fn find(&self, bound: Bound) -> Option<usize> {
        self.inner.find(bound)
    }

    fn head_at(&self, place: usize) -> i64 {
        self.inner.head_at(place)
    }

    fn tail_at(&self, place: usize) -> i64 {
        self.inner.tail_at(place)
    }

    fn begin(&mut self, head: u8, tail: Tail, cells: u64) -> Result<(), Refusal> {
        self.inner.begin(head, tail, cells)
    }

    fn grow(&mut self, cells: u64) -> Result<bool, Refusal> {
        if self.turns.is_due() {
            self.inner.clear();
            return Err(Refusal::NoMemory);
        }
        self.inner.grow(cells)
    }

    fn step(&mut self, entry: &Entry) -> Result<(), Refusal> {
        if self.turns.is_due() {
            return Err(Refusal::NoMemory);
        }
        self.inner.step(entry)
    }

    fn clear(&mut self) {
        self.inner.clear();
    }
}
