//! The ripple of a removal.

ghost use Rattle.std.specs.Prelude.{◌≡◌, ◌+◌, ◌<◌, ◌≤◌, ℕ, length, zip, slice_index_or, All, vec_len};
ghost use Rattle.sw_kernel.specs.declared.mark.Mark.{Mark};
ghost use Rattle.sw_kernel.specs.Arrangement.{ripple_remove};
ghost use Rattle.sw_kernel.specs.Ripple.{closed_up_from, earlier_from, holder_of, moved, origin};
ghost use Rattle.sw_kernel.specs.Flat.{InOrder, KeepsRoom, TurnInto};

use crate::mark::Mark;

/// The index of the piece that has the place.
fn holder_of(marks: &[Mark], place: usize) -> usize
    ensures piece { result ≡ holder_of marks.now place }
    ensures within { result ≤ length marks.now }
{
    for k in 0..marks.len() {
        if place < marks[k].at {
            return k;
        }
    }
    marks.len()
}

/// Moves an item of head and tail alike into another place.
#[inline]
fn move_item(head: &mut [i64], tail: &mut [i64], to: usize, from: usize)
    requires lengths { length head.old ≡ length tail.old }
    requires within { (to < length head.old) × (from < length head.old) }
    ensures { zip head.new tail.new ≡ moved origin to from (zip head.old tail.old) }
{
    head[to] = head[from];
    tail[to] = tail[from];
}

/// Closes up a hole: the last item of each piece fills it, from the piece that has it to the last.
fn close_up(head: &mut [i64], tail: &mut [i64], marks: &[Mark], from: usize, place: usize)
    requires lengths { length head.old ≡ length tail.old }
    requires range { All (λ (m : Mark). m.at ≤ length head.old) marks.now }
    requires reach { (k : ℕ) (d : Mark) → from ≤ k → k < length marks.now → 0 < (slice_index_or marks.now k d).at }
    requires from { from ≤ length marks.now }
    requires place { place < length head.old }
    ensures { zip head.new tail.new ≡ closed_up_from from marks.now (length head.old) place (zip head.old tail.old) }
{
    let n = head.len();
    let mut hole = place;
    for k in from..marks.len() {
        let end = marks[k].at - 1;
        move_item(head, tail, hole, end);
        hole = end;
    }
    move_item(head, tail, hole, n - 1);
}

/// Moves the marks from the `from`-th on one place earlier.
fn pull(marks: &mut [Mark], from: usize)
    requires reach { (k : ℕ) (d : Mark) → from ≤ k → k < length marks.old → 0 < (slice_index_or marks.old k d).at }
    requires from { from ≤ length marks.old }
    ensures { marks.new ≡ earlier_from from marks.old }
{
    for k in from..marks.len() {
        marks[k].at -= 1;
    }
}

/// Takes out the pair at a place: the last pair of its piece takes the place, in each later piece that is not empty the last
/// pair comes to the front, and the marks move with the pieces.
///
/// Head and tail are of one length, the place is below it, and the marks' places never fall and never pass it. It takes no
/// memory and cannot be refused.
pub fn ripple_out(head: &mut Vec<i64>, tail: &mut Vec<i64>, marks: &mut [Mark], place: usize)
    requires lengths { vec_len head.old ≡ vec_len tail.old }
    requires place { place < vec_len head.old }
    requires order { InOrder 0 (vec_len head.old) marks.old }
    ensures rippled { TurnInto (ripple_remove place) head.old tail.old marks.old head.new tail.new marks.new }
    ensures lengths { (vec_len head.new + 1 ≡ vec_len head.old) × (vec_len tail.new + 1 ≡ vec_len tail.old) }
    ensures capacity { KeepsRoom head.old head.new × KeepsRoom tail.old tail.new }
{
    let n = head.len();
    let from = holder_of(marks, place);
    close_up(head, tail, marks, from, place);
    pull(marks, from);
    head.truncate(n - 1);
    tail.truncate(n - 1);
}
