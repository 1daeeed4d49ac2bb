//! Places of rows that are gone, in rising order.

ghost use Rattle.std.specs.Prelude.{◌≡◌, ◌≤◌, ◌<◌, ◌+◌, ◌^◌, ℕ, length, IfOk};
ghost use Rattle.sw_load.specs.Gone.{AreBefore, AreGoneAfter, ArePlaces};

use crate::flags::next_gone;
use std::alloc::{AllocError, Global};

/// How many of the places come before the item that would be at a place if none of them were there, by binary search.
fn count_before(gone: &[usize], place: usize) -> usize
    requires places { (m : ℕ) × ArePlaces 0 m gone.now }
    requires small { place + length gone.now < 2 ^ 64 }
    ensures within { result ≤ length gone.now }
    ensures before { AreBefore place gone.now result }
{
    let mut low = 0;
    let mut high = gone.len();
    while low < high {
        let mid = low + (high - low) / 2;
        if gone[mid] <= place + mid {
            low = mid + 1;
        } else {
            high = mid;
        }
    }
    low
}

/// Where the item stands that is at a place without those at the places that are gone.
pub(crate) fn place_of(gone: &[usize], place: usize) -> usize
    requires places { (m : ℕ) × ArePlaces 0 m gone.now }
    requires small { place + length gone.now < 2 ^ 64 }
    ensures { (i : ℕ) × AreBefore place gone.now i × (result ≡ place + i) }
{
    place + count_before(gone, place)
}

/// The places that are gone where some were, and now of the items that were left those whose flags are false. The one
/// error is that there is no memory for them.
pub(crate) fn gone_after(
    alloc: Global,
    old: &[usize],
    live: &[bool],
) -> Result<Vec<usize>, AllocError>
    requires places { ArePlaces 0 (length live.now + length old.now) old.now }
    requires small { length live.now + length old.now < 2 ^ 63 }
    ensures { IfOk result (λ gone. AreGoneAfter live.now old.now gone.items) }
{
    let mut gone = Vec::new(alloc);
    let mut done = 0;
    let mut from = 0;
    while let Some(place) = next_gone(live, from) {
        let rest = &old[done..];
        let more = count_before(rest, place + done);
        gone.extend_from_slice(&rest[..more])?;
        done += more;
        gone.push(place + done)?;
        from = place + 1;
    }
    gone.extend_from_slice(&old[done..])?;
    Ok(gone)
}
