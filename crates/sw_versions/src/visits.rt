//! Who reads a copy: one count for each viewer, by which the writer sees whether it would have to wait for one.
//!
//! No clause rests on these counts. They decide when something is published, and never what.

use crossbeam_utils::CachePadded;
use std::alloc::{AllocError, Global};
use std::sync::Arc;
use std::sync::atomic::{AtomicU64, Ordering};

/// How often a viewer came to the copies and went: an odd number while it reads. The viewer counts, and the writer looks.
/// Each count has a line of the processors' caches for itself, so that no viewer waits for another's.
#[derive(Drop)]
pub(crate) struct Visits {
    count: Arc<CachePadded<AtomicU64>>,
}

impl Visits {
    /// None yet. The one error is that there is no memory for the count.
    fn new(alloc: Global) -> Result<Visits, AllocError> {
        let count = Arc::new(alloc, CachePadded::new(AtomicU64::new(0)))?;
        Ok(Visits { count })
    }

    /// The same count for another holder, if it may have one more.
    fn again(&self) -> Option<Visits> {
        match Arc::try_clone(&self.count) {
            Ok(count) => Some(Visits { count }),
            Err(_) => None,
        }
    }

    fn count(&self) -> u64 {
        self.count.load(Ordering::SeqCst)
    }

    /// The viewer comes, or goes.
    pub(crate) fn step(&self) {
        self.count
            .store(self.count().wrapping_add(1), Ordering::SeqCst);
    }
}

/// A viewer's count, and what it was when something was published last.
#[derive(Drop)]
struct Watch {
    visits: Visits,
    then: u64,
}

impl Watch {
    /// Whether the viewer has read since before the last publishing.
    fn is_reading_on(&self) -> bool {
        self.then % 2 == 1 && self.visits.count() == self.then
    }

    /// Something was published.
    fn look(&mut self) {
        self.then = self.visits.count();
    }
}

/// The counts of all viewers that may be opened.
#[derive(Drop)]
pub(crate) struct Visitors {
    watches: Vec<Watch>,
}

impl Visitors {
    /// The counts of so many viewers. The one error is that there is no memory for them.
    pub(crate) fn new(alloc: Global, many: u64) -> Result<Visitors, AllocError> {
        let mut watches = Vec::new(alloc);
        for _ in 0..many {
            let visits = Visits::new(alloc)?;
            if watches.push(Watch { visits, then: 0 }).is_err() {
                return Err(AllocError);
            }
        }
        Ok(Visitors { watches })
    }

    /// A viewer's count for the viewer itself.
    pub(crate) fn visits(&self, viewer: u64) -> Option<Visits> {
        match self.watches.get(viewer as usize) {
            Some(watch) => watch.visits.again(),
            None => None,
        }
    }

    /// Whether one of the first `opened` viewers still reads the copy from before the last publishing.
    pub(crate) fn any_reads_on(&self, opened: u64) -> bool {
        self.watches
            .iter()
            .take(opened as usize)
            .any(|watch| watch.is_reading_on())
    }

    /// Something was published, or was to be, while there were so many viewers.
    pub(crate) fn look(&mut self, opened: u64) {
        for watch in self.watches.iter_mut().take(opened as usize) {
            watch.look();
        }
    }
}
