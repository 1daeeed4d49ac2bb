//! Which box: looks over the boxes of an area.

ghost use Rattle.std.specs.Prelude.{◌≡◌, ◌⊎◌, false, true, Contains, Some};
ghost use Rattle.sw_set.specs.Sought.{FindsHeld, FindsUnless, HoldsMap, IsNeededIfMap, IsUnneeded, LacksMap};

use crate::prepare::align::is_needed;
use std::sync::atomic::{AtomicU64, Ordering};
use sw_map::{CrackerMap, Tail};

/// The box that has a map of the tail.
pub(crate) fn find_map<M: CrackerMap>(boxes: &[M], tail: Tail) -> Option<usize>
    ensures { FindsUnless (λ m. LacksMap tail (M.held m)) (λ m. HoldsMap tail (M.held m)) boxes.now result }
{
    for i in 0..boxes.len() {
        if !boxes[i].is_blank() && boxes[i].tail() == tail {
            return Some(i);
        }
    }
    None
}

/// The first blank box.
pub(crate) fn find_blank<M: CrackerMap>(boxes: &[M]) -> Option<usize>
    ensures { FindsUnless (λ m. (M.held m).is_blank ≡ false) (λ m. (M.held m).is_blank ≡ true) boxes.now result }
{
    for i in 0..boxes.len() {
        if boxes[i].is_blank() {
            return Some(i);
        }
    }
    None
}

/// Of a place found before and a later one, each with its stamp, that with the lesser stamp; of equal stamps the earlier
/// place.
pub fn older(best: Option<(usize, u64)>, at: usize, stamp: u64) -> (usize, u64)
    ensures { (best ≡ Some result) ⊎ (result ≡ (at, stamp)) }
{
    if let Some(found) = best {
        if found.1 <= stamp {
            return found;
        }
    }
    (at, stamp)
}

/// The stamp at a place; 0 behind the last.
fn stamp_at(stamps: &[AtomicU64], at: usize) -> u64 {
    if at < stamps.len() {
        stamps[at].load(Ordering::SeqCst)
    } else {
        0
    }
}

/// The least recently used box whose map the tails lack.
pub(crate) fn find_unneeded<M: CrackerMap>(
    boxes: &[M],
    stamps: &[AtomicU64],
    tails: &[Tail],
) -> Option<usize>
    ensures { FindsHeld M.held (λ m. Contains tails.now m.tail) (λ m. ¬ Contains tails.now m.tail) boxes.now result }
{
    let mut best = None;
    for at in 0..boxes.len() {
        if !is_needed(tails, boxes[at].tail()) {
            best = Some(older(best, at, stamp_at(stamps, at)));
        }
    }
    match best {
        Some((at, _)) => Some(at),
        None => None,
    }
}

/// Whether a box has a lease for a map that the tails lack.
fn is_leased<M: CrackerMap>(it: &M, tails: &[Tail]) -> bool
    ensures free { result ≡ true → IsUnneeded tails.now (M.held it.now) }
    ensures other { result ≡ false → IsNeededIfMap tails.now (M.held it.now) }
{
    !it.is_blank() && !is_needed(tails, it.tail())
}

/// The least recently used box with a lease for a map that the tails lack.
pub(crate) fn find_leased<M: CrackerMap>(
    boxes: &[M],
    stamps: &[AtomicU64],
    tails: &[Tail],
) -> Option<usize>
    ensures { FindsHeld M.held (IsNeededIfMap tails.now) (IsUnneeded tails.now) boxes.now result }
{
    let mut best = None;
    for at in 0..boxes.len() {
        if is_leased(&boxes[at], tails) {
            best = Some(older(best, at, stamp_at(stamps, at)));
        }
    }
    match best {
        Some((at, _)) => Some(at),
        None => None,
    }
}
