//! A map whose step waits at a gate.

ghost use Rattle.std.specs.Prelude.{◌≡◌};

use std::sync::Arc;
use std::sync::atomic::{AtomicBool, Ordering};
use sw_map::{CrackerMap, Tail};
use sw_query::{Bound, Refusal};
use sw_tape::Entry;

/// Two flags and a note. A step that comes to the gate sets `reached`, then waits until `opened` is set; where it waited for
/// its limit of turns it sets `overran` and goes on.
#[derive(Drop)]
pub struct Gate {
    pub reached: Arc<AtomicBool>,
    pub opened: Arc<AtomicBool>,
    pub overran: Arc<AtomicBool>,
    pub limit: u64,
}

impl Gate {
    /// Looks at a flag until it is set, at most `limit` times. Answers whether it was set.
    pub fn wait_for(flag: &AtomicBool, limit: u64) -> bool {
        for _ in 0..limit {
            if flag.load(Ordering::SeqCst) {
                return true;
            }
        }
        false
    }

    /// Comes to the gate, and goes on once it is opened or the limit is reached.
    fn pass(&self) {
        self.reached.store(true, Ordering::SeqCst);
        if !Gate::wait_for(&self.opened, self.limit) {
            self.overran.store(true, Ordering::SeqCst);
        }
    }
}

/// A map that passes its gate before each step. It never grows in place.
#[derive(Drop)]
pub struct GatedMap<M: CrackerMap> {
    pub inner: M,
    pub gate: Gate,
}

impl<M: CrackerMap> GatedMap<M> {
    /// Puts a map behind a gate.
    pub fn new(inner: M, gate: Gate) -> GatedMap<M>
        ensures { result.inner ≡ inner }
    {
        GatedMap { inner, gate }
    }
}

impl<M: CrackerMap> CrackerMap for GatedMap<M> {
    ghost held = { λ g. M.held g.inner };

    ghost tells = { λ g. M.tells g.inner };

    ghost stalls = { λ g. M.stalls g.inner };

    fn is_blank(&self) -> bool {
        self.inner.is_blank()
    }

    fn head(&self) -> u8 {
        self.inner.head()
    }

    fn tail(&self) -> Tail {
        self.inner.tail()
    }

    fn cells(&self) -> u64 {
        self.inner.cells()
    }

    fn cursor(&self) -> usize {
        self.inner.cursor()
    }

    fn len(&self) -> usize {
        self.inner.len()
    }

    fn find(&self, bound: Bound) -> Option<usize> {
        self.inner.find(bound)
    }

    fn head_at(&self, place: usize) -> i64 {
        self.inner.head_at(place)
    }

    fn tail_at(&self, place: usize) -> i64 {
        self.inner.tail_at(place)
    }

    fn begin(&mut self, head: u8, tail: Tail, cells: u64) -> Result<(), Refusal> {
        self.inner.begin(head, tail, cells)
    }

    fn step(&mut self, entry: &Entry) -> Result<(), Refusal> {
        self.gate.pass();
        self.inner.step(entry)
    }

    fn clear(&mut self) {
        self.inner.clear();
    }
}
