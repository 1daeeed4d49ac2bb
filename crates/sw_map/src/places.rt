//! Where a bound's mark stands among rising marks.

ghost use Rattle.std.specs.Prelude.{◌≡◌, ◌≤◌, length, Decides};
ghost use Rattle.sw_kernel.specs.Flat.{marks_below};
ghost use Rattle.sw_kernel.specs.Tapes.{IsRising};
ghost use Rattle.sw_map.specs.Pieces.{IsBefore, bounds_of, mark_of};

use sw_kernel::Mark;
use sw_query::Bound;

/// How many marks do not stand above the bound.
pub(crate) fn marks_below(marks: &[Mark], bound: Bound) -> usize
    requires { IsRising (bounds_of marks.now) }
    ensures below { result ≡ marks_below marks.now bound }
    ensures within { result ≤ length marks.now }
{
    marks.partition_point(|mark| !bound.is_below(mark.bound))
}

/// Whether the mark before the k-th piece has the bound.
pub(crate) fn is_marked(marks: &[Mark], k: usize, bound: Bound) -> bool
    requires { k ≤ length marks.now }
    ensures { Decides result (IsBefore k bound marks.now) }
{
    0 < k && bound.is_same(marks[k - 1].bound)
}

/// The place of the bound's mark, if it has one.
pub(crate) fn find_mark(marks: &[Mark], bound: Bound) -> Option<usize>
    requires { IsRising (bounds_of marks.now) }
    ensures { result ≡ mark_of bound marks.now }
{
    let k = marks_below(marks, bound);
    if is_marked(marks, k, bound) {
        Some(marks[k - 1].at)
    } else {
        None
    }
}
