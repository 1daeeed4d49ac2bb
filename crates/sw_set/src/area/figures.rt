//! What an area tells of its boxes in numbers.

ghost use Rattle.std.specs.Prelude.{◌≡◌, ◌+◌, map};
ghost use Rattle.sw_set.specs.Figures.{capped, cells_among, map_count, maps_among};

use sw_map::CrackerMap;

/// A sum that stops at the greatest number of the type.
fn added(sum: u64, more: u64) -> u64
    ensures { result ≡ capped (sum + more) }
{
    sum.saturating_add(more)
}

/// One where a box has a map, and otherwise none.
fn map_count<M: CrackerMap>(it: &M) -> u64
    ensures { result ≡ map_count (M.held it.now) }
{
    if it.is_blank() { 0 } else { 1 }
}

/// How many of the boxes have maps.
pub(crate) fn maps_among<M: CrackerMap>(boxes: &[M]) -> u64
    ensures { result ≡ capped (maps_among (map M.held boxes.now)) }
{
    let mut maps = 0;
    for it in boxes {
        maps = added(maps, map_count(it));
    }
    maps
}

/// How many cells the leases of the boxes have.
pub(crate) fn cells_among<M: CrackerMap>(boxes: &[M]) -> u64
    ensures { result ≡ capped (cells_among (map M.held boxes.now)) }
{
    let mut cells = 0;
    for it in boxes {
        cells = added(cells, it.cells());
    }
    cells
}
