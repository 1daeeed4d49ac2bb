//! A map that counts the calls made of it.

ghost use Rattle.std.specs.Prelude.{◌≡◌};

use crate::gated::Gate;
use std::sync::Arc;
use std::sync::atomic::{AtomicBool, AtomicU64, Ordering};
use sw_map::{CrackerMap, Tail};
use sw_query::{Bound, Refusal};
use sw_tape::Entry;

/// How often a map began, replayed an entry and was asked for a tail, how often it refused to begin or to replay, and whether two
/// threads ever looked for a bound at a time.
#[derive(Drop)]
pub struct Counts {
    pub begins: AtomicU64,
    pub steps: AtomicU64,
    pub tails: AtomicU64,
    pub refusals: AtomicU64,
    pub met: AtomicBool,
    looking: AtomicU64,
    patience: u64,
}

impl Counts {
    /// All of them 0.
    pub fn none() -> Counts {
        Counts::meeting(0)
    }

    /// All of them 0. Until two threads have met, each that looks for a bound waits for another one, so many turns at most.
    pub fn meeting(patience: u64) -> Counts {
        Counts {
            begins: AtomicU64::new(0),
            steps: AtomicU64::new(0),
            tails: AtomicU64::new(0),
            refusals: AtomicU64::new(0),
            met: AtomicBool::new(false),
            looking: AtomicU64::new(0),
            patience,
        }
    }

    /// A thread looks for a bound, and waits for another one where it is to.
    fn meet(&self) {
        if self.looking.fetch_add(1, Ordering::SeqCst) > 0 {
            self.met.store(true, Ordering::SeqCst);
        }
        let _ = Gate::wait_for(&self.met, self.patience);
        let _ = self.looking.fetch_sub(1, Ordering::SeqCst);
    }

    /// Counts a call that may have been refused.
    fn tell(&self, count: &AtomicU64, answer: &Result<(), Refusal>) {
        add_one(if answer.is_ok() {
            count
        } else {
            &self.refusals
        });
    }
}

/// One more.
fn add_one(count: &AtomicU64) {
    let _before = count.fetch_add(1, Ordering::SeqCst);
}

/// A map whose calls are counted. It never grows in place, so that it is begun wherever it gets more cells. The counts are shared, so that a test reads them while the map is in a box.
#[derive(Drop)]
pub struct CountingMap<M: CrackerMap> {
    pub inner: M,
    pub counts: Arc<Counts>,
}

impl<M: CrackerMap> CountingMap<M> {
    /// Counts the calls of a map.
    pub fn new(inner: M, counts: Arc<Counts>) -> CountingMap<M>
        ensures { result.inner ≡ inner }
    {
        CountingMap { inner, counts }
    }
}

impl<M: CrackerMap> CrackerMap for CountingMap<M> {
    ghost held = { λ c. M.held c.inner };

    ghost tells = { λ c. M.tells c.inner };

    ghost stalls = { λ c. M.stalls c.inner };

    fn is_blank(&self) -> bool {
        self.inner.is_blank()
    }

    fn head(&self) -> u8 {
        self.inner.head()
    }

    fn tail(&self) -> Tail {
        self.inner.tail()
    }

    fn cells(&self) -> u64 {
        self.inner.cells()
    }

    fn cursor(&self) -> usize {
        self.inner.cursor()
    }

    fn len(&self) -> usize {
        self.inner.len()
    }

    fn find(&self, bound: Bound) -> Option<usize> {
        self.counts.meet();
        self.inner.find(bound)
    }

    fn head_at(&self, place: usize) -> i64 {
        self.inner.head_at(place)
    }

    fn tail_at(&self, place: usize) -> i64 {
        add_one(&self.counts.tails);
        self.inner.tail_at(place)
    }

    fn begin(&mut self, head: u8, tail: Tail, cells: u64) -> Result<(), Refusal> {
        let answer = self.inner.begin(head, tail, cells);
        self.counts.tell(&self.counts.begins, &answer);
        answer
    }

    fn step(&mut self, entry: &Entry) -> Result<(), Refusal> {
        let answer = self.inner.step(entry);
        self.counts.tell(&self.counts.steps, &answer);
        answer
    }

    fn clear(&mut self) {
        self.inner.clear();
    }
}
