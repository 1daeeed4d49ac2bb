//! Maps of a head's areas, cleared by least recent use.

ghost use Rattle.std.specs.Prelude.{◌≡◌, ◌+◌, min, MatchOption};
ghost use Rattle.sw_chunks.specs.Cleared.{AreBlankBut, AreClearedBut, IsMappedBut};

use sw_map::CrackerMap;
use sw_set::{Area, older};

/// The area, but for one, that has the least recently used map; of several the lowest.
fn oldest_but<M: CrackerMap>(areas: &[Area<M>], but: usize) -> Option<usize>
    ensures { MatchOption result (AreBlankBut but areas.now) (IsMappedBut but areas.now) }
{
    let mut best = None;
    for k in 0..areas.len() {
        if k == but {
            continue;
        }
        if let Some(stamp) = areas[k].oldest() {
            best = Some(older(best, k, stamp));
        }
    }
    match best {
        Some((k, _)) => Some(k),
        None => None,
    }
}

/// A sum that stops at the greatest number of the type.
fn added(came: u64, cells: u64) -> u64
    ensures { result ≡ min (came + cells) 18446744073709551615 }
{
    came.saturating_add(cells)
}

/// Clears maps by least recent use, in all areas but one, until so many cells came back or none is left; it answers how many
/// came back.
pub(crate) fn clear_but<M: CrackerMap>(areas: &mut [Area<M>], but: usize, cells: u64) -> u64
    ensures { AreClearedBut but cells areas.old areas.new result }
{
    let mut came: u64 = 0;
    while came < cells {
        let Some(k) = oldest_but(areas, but) else {
            return came;
        };
        came = added(came, areas[k].clear_oldest());
    }
    came
}
