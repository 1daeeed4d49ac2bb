//! A map that grows in place and notes how it began and grew.

use std::sync::Arc;
use std::sync::atomic::{AtomicU64, Ordering};
use sw_map::{CrackerMap, Tail};
use sw_rows::{Bound, Refusal};
use sw_tape::Entry;

/// How often a map was begun, how often its lease was to grow, and how many of these growths found the budget contended.
#[derive(Drop)]
pub(crate) struct Notes {
    pub begins: AtomicU64,
    pub growths: AtomicU64,
    pub contended: AtomicU64,
}

impl Notes {
    /// All of them 0.
    pub(crate) fn none() -> Notes {
        Notes {
            begins: AtomicU64::new(0),
            growths: AtomicU64::new(0),
            contended: AtomicU64::new(0),
        }
    }
}

/// One more.
fn add_one(count: &AtomicU64) {
    let _before = count.fetch_add(1, Ordering::SeqCst);
}

/// Whether a growth found a word that was not the one that it had seen.
fn is_contended(answer: &Result<bool, Refusal>) -> bool {
    match answer {
        Err(Refusal::Contended { seen, found }) => seen != found,
        _ => false,
    }
}

/// A map whose begins and growths are noted. The notes are shared, so that a test reads them while the map is in a box.
#[derive(Drop)]
pub(crate) struct NotedMap<M: CrackerMap> {
    pub inner: M,
    pub notes: Arc<Notes>,
}

impl<M: CrackerMap> CrackerMap for NotedMap<M> {
    ghost held = { λ n. M.held n.inner };

    ghost tells = { λ n. M.tells n.inner };

    ghost stalls = { λ n. M.stalls n.inner };

    fn is_blank(&self) -> bool {
        self.inner.is_blank()
    }

    fn head(&self) -> u8 {
        self.inner.head()
    }

    fn tail(&self) -> Tail {
        self.inner.tail()
    }

    fn cells(&self) -> u64 {
        self.inner.cells()
    }

    fn cursor(&self) -> usize {
        self.inner.cursor()
    }

    fn len(&self) -> usize {
        self.inner.len()
    }

    fn find(&self, bound: Bound) -> Option<usize> {
        self.inner.find(bound)
    }

    fn head_at(&self, place: usize) -> i64 {
        self.inner.head_at(place)
    }

    fn tail_at(&self, place: usize) -> i64 {
        self.inner.tail_at(place)
    }

    fn begin(&mut self, head: u8, tail: Tail, cells: u64) -> Result<(), Refusal> {
        add_one(&self.notes.begins);
        self.inner.begin(head, tail, cells)
    }

    fn grow(&mut self, cells: u64) -> Result<bool, Refusal> {
        add_one(&self.notes.growths);
        let answer = self.inner.grow(cells);
        if is_contended(&answer) {
            add_one(&self.notes.contended);
        }
        answer
    }

    fn step(&mut self, entry: &Entry) -> Result<(), Refusal> {
        self.inner.step(entry)
    }

    fn clear(&mut self) {
        self.inner.clear();
    }
}
