//! How heads lie under latches: each for one thread at a time, or shared by those that change nothing.

use crate::heads::latch::LatchedHead;
use crate::pausing::{LATCH_NAPS, LATCH_PAUSES, wait_at_latch};
use std::sync::{Mutex, MutexGuard, RwLock, RwLockReadGuard, RwLockWriteGuard, Wait};

/// What one thread has alone.
#[derive(Drop)]
pub enum Alone<'l, T> {
    /// Under a latch for one thread.
    Locked(MutexGuard<'l, T>),
    /// Under a latch that others share at other times.
    Written(RwLockWriteGuard<'l, T>),
}

impl<'l, T> Alone<'l, T> {
    /// What lies under the latch.
    pub fn inside(&mut self) -> &mut T {
        match self {
            Alone::Locked(guard) => &mut **guard,
            Alone::Written(guard) => &mut **guard,
        }
    }
}

/// A latch, over a head.
pub trait Latch<T>: Drop {
    /// One over this.
    fn over(it: T) -> Self;

    /// What lies under it, for one thread alone. It waits for others.
    fn take<R: Wait>(&self, rt: &R) -> Alone<'_, T>;

    /// What lies under it, shared. None where the latch never shares it, or another had it alone for long.
    fn share<R: Wait>(&self, rt: &R) -> Option<RwLockReadGuard<'_, T>>;
}

/// A latch under which a head is for one thread alone at any time.
pub type AloneLatch<J, M> = Mutex<LatchedHead<J, M>>;

/// A latch under which those share a head who change nothing. An engine of such latches goes to other threads only where maps may
/// be behind a `&` in many.
pub type SharedLatch<J, M> = RwLock<LatchedHead<J, M>>;

impl<T: Drop> Latch<T> for Mutex<T> {
    fn over(it: T) -> Self {
        Mutex::new(it)
    }

    fn take<R: Wait>(&self, rt: &R) -> Alone<'_, T> {
        for look in 0..LATCH_PAUSES + LATCH_NAPS {
            if let Some(guard) = self.try_lock() {
                return Alone::Locked(guard);
            }
            wait_at_latch(rt, look);
        }
        Alone::Locked(self.lock(rt))
    }

    fn share<R: Wait>(&self, _rt: &R) -> Option<RwLockReadGuard<'_, T>> {
        None
    }
}

impl<T: Drop> Latch<T> for RwLock<T> {
    fn over(it: T) -> Self {
        RwLock::new(it)
    }

    fn take<R: Wait>(&self, rt: &R) -> Alone<'_, T> {
        for look in 0..LATCH_PAUSES + LATCH_NAPS {
            if let Some(guard) = self.try_write() {
                return Alone::Written(guard);
            }
            wait_at_latch(rt, look);
        }
        Alone::Written(self.write(rt))
    }

    fn share<R: Wait>(&self, rt: &R) -> Option<RwLockReadGuard<'_, T>> {
        for look in 0..LATCH_PAUSES + LATCH_NAPS {
            if let Some(guard) = self.try_read() {
                return Some(guard);
            }
            wait_at_latch(rt, look);
        }
        None
    }
}
