//! Boxes that come to a head's areas, and boxes that go.

ghost use Rattle.std.specs.Prelude.{◌<◌, length};
ghost use Rattle.sw_chunks.specs.Shelved.{AreShed, IsFewest};

use sw_map::CrackerMap;
use sw_set::Area;

/// The area with the fewest boxes, of several the lowest.
pub(crate) fn fewest<M: CrackerMap>(areas: &[Area<M>]) -> usize
    requires { 0 < length areas.now }
    ensures { IsFewest result areas.now }
{
    let mut best = 0;
    for k in 0..areas.len() {
        if areas[k].boxes() < areas[best].boxes() {
            best = k;
        }
    }
    best
}

/// Drops up to so many boxes, those of the lowest areas first, and answers how many.
pub(crate) fn shed_all<M: CrackerMap>(areas: &mut [Area<M>], most: usize) -> usize
    ensures { AreShed most areas.old areas.new result }
{
    let mut gone = 0;
    for k in 0..areas.len() {
        if gone == most {
            return gone;
        }
        gone += areas[k].shed(most - gone);
    }
    gone
}
