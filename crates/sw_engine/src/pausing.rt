//! How a thread waits between looks at a lock or a latch.

use std::hint::spin_loop;
use std::sync::Wait;
use std::sync::atomic::AtomicU64;
use std::time::Duration;

/// How long the first pause is, in turns of a loop.
const PAUSE: usize = 8;

/// How often a thread pauses between looks at a latch, before it sleeps. All of these pauses, each twice as long as the one before, take
/// as long as a select may, and no longer than waking up from a sleep.
pub(crate) const LATCH_PAUSES: u32 = 7;

/// How often a thread pauses between looks at the lock, before it sleeps: who sleeps, and is woken up, waits for many visits of others.
pub(crate) const LOCK_PAUSES: u32 = 64;

/// How often the pause between looks at the lock is doubled: then it takes as long as a few visits.
const PAUSE_DOUBLINGS: u32 = 3;

/// How often a thread sleeps between looks at the lock, before it waits for its turn: who is woken up for its turn, and finds no processor
/// free, keeps all behind it asleep. Not often, since others may take the lock again and again meanwhile.
pub(crate) const LOCK_NAPS: u32 = 3;

/// How often a thread sleeps between looks at a latch, before it waits for its turn. Who has the latch makes many selects in a row
/// meanwhile, and the head's data stay in one processor's cache.
pub(crate) const LATCH_NAPS: u32 = 9;

/// How long a sleep is at first, in microseconds.
const NAP: u64 = 100;

/// How often the sleep between looks at a latch is doubled.
const NAP_DOUBLINGS: u32 = 2;

/// Pauses for so long.
fn pause(long: usize) {
    for _ in 0..long {
        spin_loop();
    }
}

/// Sleeps for so many microseconds.
fn nap<R: Wait>(rt: &R, long: u64) {
    AtomicU64::new(0).park_timeout(rt, 0, Duration::from_micros(long));
}

/// Waits between two looks at the lock: first with the processor, longer at each, then asleep.
pub(crate) fn wait_at_lock<R: Wait>(rt: &R, look: u32) {
    if look < LOCK_PAUSES {
        pause(PAUSE << look.min(PAUSE_DOUBLINGS));
    } else {
        nap(rt, NAP);
    }
}

/// Waits between two looks at a latch, longer at each: first with the processor, then asleep.
pub(crate) fn wait_at_latch<R: Wait>(rt: &R, look: u32) {
    if look < LATCH_PAUSES {
        pause(PAUSE << look);
    } else {
        nap(rt, NAP << (look - LATCH_PAUSES).min(NAP_DOUBLINGS));
    }
}
