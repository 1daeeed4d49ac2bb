//! What a head tells of itself in numbers.

ghost use Rattle.std.specs.Prelude.{◌≡◌};

use std::sync::atomic::{AtomicU64, Ordering};
use sw_chunks::Figures;

/// What a head was asked, and what its areas tell.
#[derive(Clone, Copy)]
pub struct HeadStats {
    /// How many queries it answered. No clause speaks of it.
    pub queries: u64,
    /// How many areas scanned for them. No clause speaks of it.
    pub scans: u64,
    /// What its areas tell; before its first query it has none.
    pub figures: Figures,
}

/// How many queries a head answered, and how many areas scanned for them. Those who share the head count too.
#[derive(Drop)]
pub(crate) struct Counters {
    queries: AtomicU64,
    scans: u64,
}

impl Counters {
    /// Nothing was asked.
    pub(crate) fn new() -> Counters {
        Counters {
            queries: AtomicU64::new(0),
            scans: 0,
        }
    }

    /// Counts one query more, for which so many areas scanned.
    pub(crate) fn count(&mut self, scans: usize) {
        self.count_at_rest(1);
        self.scans = self.scans.saturating_add(scans as u64);
    }

    /// Counts so many queries more, for which none scanned.
    pub(crate) fn count_at_rest(&self, many: usize) {
        let _before = self.queries.fetch_add(many as u64, Ordering::SeqCst);
    }

    /// These numbers beside what the areas tell.
    pub(crate) fn beside(&self, figures: Figures) -> HeadStats
        ensures { result.figures ≡ figures }
    {
        HeadStats {
            queries: self.queries.load(Ordering::SeqCst),
            scans: self.scans,
            figures,
        }
    }
}

/// What a head tells that is not made.
pub(crate) fn no_figures() -> Figures
    ensures { result.areas ≡ 0 }
{
    Figures {
        areas: 0,
        pieces: 0,
        entries: 0,
        restarts: 0,
        maps: 0,
        cells: 0,
    }
}
