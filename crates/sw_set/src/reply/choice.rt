//! Which rows of a range are chosen.

ghost use Rattle.std.specs.Prelude.{◌≡◌, length};
ghost use Rattle.sw_set.specs.Choice.{AreRefined, count_chosen, is_chosen};

use crate::reply::window::Window;
use sw_bits::Bits;
use sw_map::CrackerMap;
use sw_query::{Cond, is_within};

/// Which rows of a range are chosen: all, or those at the true places of a bit vector.
#[derive(Drop)]
pub(crate) struct Choice {
    pub bits: Option<Bits>,
}

impl Choice {
    /// Whether the row at a place of the range is chosen.
    #[inline]
    pub fn has(&self, place: usize) -> bool
        ensures { result ≡ is_chosen self.now.bits place }
    {
        match &self.bits {
            None => true,
            Some(bits) => place < bits.len() && bits.get(place),
        }
    }

    /// How many rows are chosen of a range of so many.
    pub fn count(&self, many: usize) -> usize
        ensures { result ≡ count_chosen self.now.bits many }
    {
        match &self.bits {
            None => many,
            Some(bits) => bits.count(),
        }
    }
}

/// Keeps of the places of a range those whose value in a column meets a condition.
pub(crate) fn refine_by<M: CrackerMap>(bits: &mut Bits, window: &mut Window<'_, M>, cond: &Cond)
    requires { length window.old ≡ length bits.old }
    ensures long { length bits.new ≡ length bits.old }
    ensures places { AreRefined cond.now window.old bits.old bits.new }
{
    for place in 0..bits.len() {
        let value = window.at(place);
        bits.refine(place, is_within(cond.lower, cond.upper, value));
    }
}
