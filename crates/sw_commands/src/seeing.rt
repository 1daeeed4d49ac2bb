//! What is seen of a run while it goes: the time in the selects of each head, the time of each call, and how far the run is.

use crate::outflow::Reader;
use std::io;
use std::rt::Clock;
use std::sync::atomic::{AtomicU64, Ordering};
use std::time::{Duration, Instant};
use sw_rows::Source;

/// The nanoseconds of a second.
const SECOND: u64 = 1_000_000_000;

/// The nanoseconds of a millisecond.
const MILLISECOND: u64 = 1_000_000;

/// The nanoseconds of a time; the greatest number where they are more.
fn nanos_of(time: Duration) -> u64 {
    time.as_secs()
        .saturating_mul(SECOND)
        .saturating_add(u64::from(time.subsec_nanos()))
}

/// What is asked to be seen of a run.
#[derive(Clone, Copy)]
pub struct Sights {
    /// The time in the selects of each head.
    pub heads: bool,
    /// How far the run is: standard error is told of it, from a second after its beginning on, once a second.
    pub progress: bool,
    /// The time of each call: standard error is told of it when the call has ended.
    pub calls: bool,
    /// All faults of a table that is refused, in place of the first.
    pub faults: bool,
}

/// What was seen so far, shared by the threads of a run. Where nobody asks for it there is no beginning, and nothing is
/// seen; a clock that cannot be read later stands at 0.
#[derive(Drop)]
pub struct Seen<'r, R: Clock + Eprint> {
    rt: &'r R,
    began: Option<Instant>,
    sights: Sights,
    reader: Reader,
    due: AtomicU64,
    calls: AtomicU64,
    nanos: [AtomicU64; 8],
}

impl Sights {
    /// Nothing but how far it is, where that is asked.
    pub fn of_progress(progress: bool) -> Sights {
        Sights {
            heads: false,
            progress,
            calls: false,
            faults: false,
        }
    }
}

impl<'r, R: Clock + Eprint> Seen<'r, R> {
    /// A run begins, of whose calls a log is asked for or not.
    pub fn new(rt: &'r R, sights: Sights, is_logged: bool) -> Seen<'r, R> {
        let began = if sights.heads || sights.progress || sights.calls || is_logged {
            Instant::now(rt).ok()
        } else {
            None
        };
        Seen {
            rt,
            began,
            sights,
            reader: Reader::new(),
            due: AtomicU64::new(SECOND),
            calls: AtomicU64::new(0),
            nanos: [
                AtomicU64::new(0),
                AtomicU64::new(0),
                AtomicU64::new(0),
                AtomicU64::new(0),
                AtomicU64::new(0),
                AtomicU64::new(0),
                AtomicU64::new(0),
                AtomicU64::new(0),
            ],
        }
    }

    /// Whoever reads its replies.
    pub fn reader(&self) -> &Reader {
        &self.reader
    }

    /// What the run stands on.
    pub fn rt(&self) -> &'r R {
        self.rt
    }

    /// Whether it is asked how long each call takes.
    pub fn is_timing(&self) -> bool {
        self.sights.heads || self.sights.calls
    }

    /// The nanoseconds since the run began; none where nobody asks for them or the clock cannot be read.
    pub fn time(&self) -> Option<u64> {
        match self.began?.elapsed(self.rt) {
            Ok(time) => Some(nanos_of(time)),
            Err(_) => None,
        }
    }

    /// The nanoseconds since the run began, 0 where there are none.
    pub fn now(&self) -> u64 {
        self.time().unwrap_or(0)
    }

    /// Sees that a call which began at a time has ended now: a select of a head, or another one.
    pub fn sees(&self, head: Option<usize>, begun: u64, now: u64) {
        if self.began.is_none() {
            return;
        }
        let took = now.saturating_sub(begun);
        if let Some(head) = head {
            if let Some(nanos) = self.nanos.get(head) {
                let _before = nanos.fetch_add(took, Ordering::SeqCst);
            }
        }
        let number = self.calls.fetch_add(1, Ordering::SeqCst).saturating_add(1);
        self.list(number, took);
        self.tell(now, number, "calls made");
    }

    /// Tells how far the run is, where that is due. Of threads that come at once one tells.
    pub fn tell(&self, now: u64, number: u64, what: &str) {
        let due = self.due.load(Ordering::SeqCst);
        if !self.sights.progress || now < due {
            return;
        }
        let next = now.saturating_add(SECOND);
        let taken = self
            .due
            .compare_exchange(due, next, Ordering::SeqCst, Ordering::SeqCst);
        if taken.is_ok() {
            let _ = eprintln!(self.rt; "sideways: {number} {what}");
        }
    }

    /// Tells what a call took, where that is asked: its number among those that have ended, and its nanoseconds.
    fn list(&self, number: u64, nanos: u64) {
        if self.sights.calls {
            let _ = eprintln!(self.rt; "{number} {nanos}");
        }
    }

    /// The milliseconds that selects of a head took, those of all threads together.
    pub fn millis(&self, head: usize) -> u64 {
        match self.nanos.get(head) {
            Some(nanos) => nanos.load(Ordering::SeqCst) / MILLISECOND,
            None => 0,
        }
    }
}

/// How many lines end in some bytes.
fn ends_in(bytes: &[u8]) -> u64 {
    let mut ends = 0u64;
    for byte in bytes {
        if *byte == b'\n' {
            ends = ends.saturating_add(1);
        }
    }
    ends
}

/// What is read.
#[derive(Clone, Copy)]
pub enum What {
    /// A table.
    Table,
    /// Values from outside.
    Values,
}

/// The words behind the number of its lines that were read.
fn lines_read(what: What) -> &'static str {
    match what {
        What::Table => "lines of the table read",
        What::Values => "lines of the values read",
    }
}

/// A source before another, which tells how many lines of what went by. It counts them only where they are told.
#[derive(Drop)]
pub struct LinesSeen<'s, 'r, S: Source + Drop, R: Clock + Eprint> {
    source: S,
    read: u64,
    seen: &'s Seen<'r, R>,
    what: What,
}

impl<'s, 'r, S: Source + Drop, R: Clock + Eprint> LinesSeen<'s, 'r, S, R> {
    /// A source of which no line went by.
    pub fn new(source: S, seen: &'s Seen<'r, R>, what: What) -> LinesSeen<'s, 'r, S, R> {
        LinesSeen {
            source,
            read: 0,
            seen,
            what,
        }
    }
}

impl<S: Source + Drop, R: Clock + Eprint> Source for LinesSeen<'_, '_, S, R> {
    ghost left = { λ s. S.left s.source };

    ghost failed = { λ s. S.failed s.source };

    fn read_some(&mut self, buf: &mut [u8]) -> io::Result<usize> {
        let count = self.source.read_some(buf)?;
        if self.seen.sights.progress {
            let (given, _) = buf.split_at(count);
            self.read = self.read.saturating_add(ends_in(given));
            let words = lines_read(self.what);
            self.seen.tell(self.seen.now(), self.read, words);
        }
        Ok(count)
    }

    fn failures(&self) -> u64 {
        self.source.failures()
    }
}
