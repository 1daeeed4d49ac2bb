//! The ripple of an insertion.

ghost use Rattle.std.specs.Prelude.{◌≡◌, ◌+◌, ◌<◌, ◌≤◌, length, zip, drop, All, ◌++◌, ◌∷◌, [], ◌^◌, vec_len, vec_capacity};
ghost use Rattle.sw_kernel.specs.declared.mark.Mark.{Mark};
ghost use Rattle.sw_kernel.specs.Partition.{head_of};
ghost use Rattle.sw_kernel.specs.Arrangement.{ripple_insert};
ghost use Rattle.sw_kernel.specs.Ripple.{AreCarried, first_or, later_from, piece_of, put_first};
ghost use Rattle.sw_kernel.specs.Flat.{InOrder, KeepsRoom, TurnInto, end_before};

use crate::mark::Mark;

/// How many marks stand before the first whose bound the value lies left of.
fn piece_of(marks: &[Mark], value: i64) -> usize
    ensures piece { result ≡ piece_of marks.now value }
    ensures within { result ≤ length marks.now }
{
    for k in 0..marks.len() {
        if marks[k].bound.is_left(value) {
            return k;
        }
    }
    marks.len()
}

/// Where the piece before the k-th mark ends, of n items.
pub fn end_before(marks: &[Mark], k: usize, n: usize) -> usize
    ensures { result ≡ end_before (drop k marks.now) n }
{
    if k < marks.len() { marks[k].at } else { n }
}

/// If the piece from `at` up to `end` has an item, its first makes room for the one in hand and is taken in hand.
#[inline]
fn hand_over(
    head: &mut [i64],
    tail: &mut [i64],
    at: usize,
    end: usize,
    hand: (i64, i64),
) -> (i64, i64)
    requires lengths { length head.old ≡ length tail.old }
    requires room { end ≤ length head.old }
    ensures pairs { zip head.new tail.new ≡ put_first at end hand (zip head.old tail.old) }
    ensures carried { result ≡ first_or at end hand (zip head.old tail.old) }
{
    if at < end {
        let next = (head[at], tail[at]);
        head[at] = hand.0;
        tail[at] = hand.1;
        next
    } else {
        hand
    }
}

/// Carries the item in hand on from the `from`-th mark, and answers the one that is left in hand.
fn carry_on(
    head: &mut [i64],
    tail: &mut [i64],
    marks: &[Mark],
    from: usize,
    mut hand: (i64, i64),
) -> (i64, i64)
    requires lengths { length head.old ≡ length tail.old }
    requires range { All (λ (m : Mark). m.at ≤ length head.old) marks.now }
    requires from { from ≤ length marks.now }
    ensures { AreCarried from marks.now hand head.old tail.old head.new tail.new result }
{
    let n = head.len();
    for k in from..marks.len() {
        let at = marks[k].at;
        let end = end_before(marks, k + 1, n);
        hand = hand_over(head, tail, at, end, hand);
    }
    hand
}

/// Moves the marks from the `from`-th on one place later.
fn bump(marks: &mut [Mark], from: usize)
    requires range { All (λ (m : Mark). m.at < 2 ^ 63) marks.old }
    requires from { from ≤ length marks.old }
    ensures { marks.new ≡ later_from from marks.old }
{
    for k in from..marks.len() {
        marks[k].at += 1;
    }
}

/// Pushes a value for which there is room.
fn append(values: &mut Vec<i64>, value: i64)
    requires { vec_len values.old < vec_capacity values.old }
    ensures items { values.new.items ≡ values.old.items ++ value ∷ [] }
    ensures len { vec_len values.new ≡ vec_len values.old + 1 }
    ensures capacity { vec_capacity values.new ≡ vec_capacity values.old }
{
    values.push_reserved(value);
}

/// Puts the pair of `h` and `t` at the end of its piece; in each later piece that is not empty the first pair goes to that
/// piece's end, and the marks move with the pieces.
///
/// Head and tail are of one length and have room for one more, and the marks' places never fall and never pass that
/// length. It takes no memory and cannot be refused.
pub fn ripple_in(head: &mut Vec<i64>, tail: &mut Vec<i64>, marks: &mut [Mark], h: i64, t: i64)
    requires lengths { vec_len head.old ≡ vec_len tail.old }
    requires room { (vec_len head.old < vec_capacity head.old) × (vec_len tail.old < vec_capacity tail.old) }
    requires order { InOrder 0 (vec_len head.old) marks.old }
    ensures rippled { TurnInto (ripple_insert head_of (h, t)) head.old tail.old marks.old head.new tail.new marks.new }
    ensures lengths { (vec_len head.new ≡ vec_len head.old + 1) × (vec_len tail.new ≡ vec_len tail.old + 1) }
    ensures capacity { KeepsRoom head.old head.new × KeepsRoom tail.old tail.new }
{
    let from = piece_of(marks, h);
    let (x, y) = carry_on(head, tail, marks, from, (h, t));
    bump(marks, from);
    append(head, x);
    append(tail, y);
}
