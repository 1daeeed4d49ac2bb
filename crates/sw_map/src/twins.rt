//! Cracks of two maps that have the same heads and the same marks: what goes left is looked for once.

ghost use Rattle.std.specs.Prelude.{◌≡◌, ◌≤◌, vec_len};
ghost use Rattle.sw_kernel.specs.Partition.{head_of};
ghost use Rattle.sw_kernel.specs.Arrangement.{crack};
ghost use Rattle.sw_kernel.specs.Replay.{crack_at};
ghost use Rattle.sw_kernel.specs.Flat.{IsNew};
ghost use Rattle.sw_map.specs.Twins.{AreCuttable, AreTwins, HasCut, HasParted, HasRoomForMark, IsSameSize};

use crate::crack::{put_mark, start_of};
use crate::lists::Lists;
use crate::places::{is_marked, marks_below};
use sw_kernel::{Mark, end_before, split_twins};
use sw_query::Bound;

/// Partitions the pairs from `start` up to `end` of both, and answers where those begin that do not go left.
fn part_twins(lists: &mut Lists, twin: &mut Lists, start: usize, end: usize, bound: Bound) -> usize
    requires lengths { vec_len lists.old.head ≡ vec_len lists.old.tail }
    requires twin_lengths { vec_len twin.old.head ≡ vec_len twin.old.tail }
    requires same { twin.old.head.items ≡ lists.old.head.items }
    requires range { (start ≤ end) × (end ≤ vec_len lists.old.head) }
    ensures parted { HasParted bound start end lists.old lists.new result }
    ensures twin_parted { HasParted bound start end twin.old twin.new result }
    ensures same { twin.new.head.items ≡ lists.new.head.items }
    ensures within { (start ≤ result) × (result ≤ end) }
    ensures sizes { IsSameSize lists.old lists.new × IsSameSize twin.old twin.new }
{
    start
        + split_twins(
            &mut lists.head[start..end],
            &mut lists.tail[start..end],
            &mut twin.head[start..end],
            &mut twin.tail[start..end],
            bound,
        )
}

/// Partitions the piece that a new bound falls into, the k-th, in both, and marks the bound.
fn crack_new_twins(
    lists: &mut Lists,
    twin: &mut Lists,
    marks: &mut Vec<Mark>,
    twin_marks: &mut Vec<Mark>,
    bound: Bound,
)
    requires both { AreCuttable lists.old marks.old × AreCuttable twin.old twin_marks.old }
    requires same { AreTwins lists.old marks.old twin.old twin_marks.old }
    requires room { HasRoomForMark marks.old × HasRoomForMark twin_marks.old }
    requires new { IsNew bound marks.old.items }
    ensures cut { HasCut (crack head_of bound) lists.old marks.old lists.new marks.new }
    ensures twin_cut { HasCut (crack head_of bound) twin.old twin_marks.old twin.new twin_marks.new }
    ensures same { AreTwins lists.new marks.new twin.new twin_marks.new }
{
    let k = marks_below(marks, bound);
    let start = start_of(marks, k);
    let end = end_before(marks, k, lists.head.len());
    let at = part_twins(lists, twin, start, end, bound);
    put_mark(marks, k, Mark { bound, at });
    put_mark(twin_marks, k, Mark { bound, at });
}

/// Cracks both at a bound, if there is one, and if it is not marked.
pub(crate) fn crack_twins(
    lists: &mut Lists,
    twin: &mut Lists,
    marks: &mut Vec<Mark>,
    twin_marks: &mut Vec<Mark>,
    bound: Option<Bound>,
)
    requires both { AreCuttable lists.old marks.old × AreCuttable twin.old twin_marks.old }
    requires same { AreTwins lists.old marks.old twin.old twin_marks.old }
    requires room { HasRoomForMark marks.old × HasRoomForMark twin_marks.old }
    ensures cut { HasCut (crack_at head_of bound) lists.old marks.old lists.new marks.new }
    ensures twin_cut { HasCut (crack_at head_of bound) twin.old twin_marks.old twin.new twin_marks.new }
    ensures same { AreTwins lists.new marks.new twin.new twin_marks.new }
{
    let Some(bound) = bound else {
        return;
    };
    if !is_marked(marks, marks_below(marks, bound), bound) {
        crack_new_twins(lists, twin, marks, twin_marks, bound);
    }
}
