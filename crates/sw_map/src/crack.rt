//! Cracks of head and tail, in place.

ghost use Rattle.std.specs.Prelude.{◌≡◌, ◌+◌, ◌-◌, ◌<◌, ◌≤◌, ◌++◌, ◌∷◌, Some, length, zip, take, drop, insert, true, vec_len, vec_capacity};
ghost use Rattle.sw_query.specs.Bounds.{bound_below};
ghost use Rattle.sw_kernel.specs.Partition.{goes_left, head_of};
ghost use Rattle.sw_kernel.specs.Arrangement.{crack};
ghost use Rattle.sw_kernel.specs.Replay.{crack_at, ranged, step};
ghost use Rattle.sw_kernel.specs.Flat.{InOrder, IsNew, KeepsRoom, marks_below, start_at};
ghost use Rattle.sw_kernel.specs.Tapes.{IsRising};
ghost use Rattle.sw_map.specs.Pieces.{AreCut, bounds_of, count_between, cut_twice, parted, zipped};

use crate::places::{is_marked, marks_below};
use sw_kernel::{Mark, end_before, split};
use sw_query::Bound;

/// Where the k-th piece begins.
pub(crate) fn start_of(marks: &[Mark], k: usize) -> usize
    requires { k ≤ length marks.now }
    ensures { result ≡ start_at 0 marks.now k }
{
    if k == 0 { 0 } else { marks[k - 1].at }
}

/// Partitions the pairs from `start` up to `end`, and answers how many go left.
fn part(head: &mut [i64], tail: &mut [i64], start: usize, end: usize, bound: Bound) -> usize
    requires lengths { length head.old ≡ length tail.old }
    requires range { (start ≤ end) × (end ≤ length head.old) }
    ensures pairs { zip head.new tail.new ≡ parted (goes_left head_of bound) start end (zip head.old tail.old) }
    ensures left { result ≡ count_between (goes_left head_of bound) start end (zip head.old tail.old) }
    ensures few { result ≤ end - start }
{
    split(&mut head[start..end], &mut tail[start..end], bound)
}

/// Partitions the pairs from `start` up to `end`, and answers where those begin that do not go left.
fn part_lists(
    head: &mut Vec<i64>,
    tail: &mut Vec<i64>,
    start: usize,
    end: usize,
    bound: Bound,
) -> usize
    requires lengths { vec_len head.old ≡ vec_len tail.old }
    requires range { (start ≤ end) × (end ≤ vec_len head.old) }
    ensures pairs { zipped head.new tail.new ≡ parted (goes_left head_of bound) start end (zipped head.old tail.old) }
    ensures left { result ≡ start + count_between (goes_left head_of bound) start end (zipped head.old tail.old) }
    ensures within { (start ≤ result) × (result ≤ end) }
    ensures lengths { (vec_len head.new ≡ vec_len head.old) × (vec_len tail.new ≡ vec_len tail.old) }
    ensures capacity { KeepsRoom head.old head.new × KeepsRoom tail.old tail.new }
{
    start + part(head, tail, start, end, bound)
}

/// Puts a mark in, for which there is room.
pub(crate) fn put_mark(marks: &mut Vec<Mark>, k: usize, mark: Mark)
    requires room { vec_len marks.old < vec_capacity marks.old }
    requires place { k ≤ vec_len marks.old }
    ensures items { marks.new.items ≡ take k marks.old.items ++ mark ∷ drop k marks.old.items }
    ensures len { vec_len marks.new ≡ vec_len marks.old + 1 }
    ensures capacity { vec_capacity marks.new ≡ vec_capacity marks.old }
{
    if marks.insert(k, mark).is_err() {
        unreachable!()
    }
}

/// Puts two marks in, for which there is room. What stands behind them moves once.
fn put_both(marks: &mut Vec<Mark>, k: usize, lower: Mark, upper: Mark)
    requires room { vec_len marks.old + 2 ≤ vec_capacity marks.old }
    requires place { k ≤ vec_len marks.old }
    ensures items { marks.new.items ≡ take k marks.old.items ++ lower ∷ upper ∷ drop k marks.old.items }
    ensures len { vec_len marks.new ≡ vec_len marks.old + 2 }
    ensures capacity { vec_capacity marks.new ≡ vec_capacity marks.old }
{
    marks.push_reserved(lower);
    marks.push_reserved(upper);
    marks[k..].rotate_right(2);
}

/// Puts two marks in, each at its place, for which there is room. What stands behind both moves once.
fn put_two(marks: &mut Vec<Mark>, places: (usize, usize), lower: Mark, upper: Mark)
    requires room { vec_len marks.old + 2 ≤ vec_capacity marks.old }
    requires places { (places.0 ≤ places.1) × (places.1 ≤ vec_len marks.old) }
    ensures items { marks.new.items ≡ insert (insert marks.old.items places.1 upper) places.0 lower }
    ensures len { vec_len marks.new ≡ vec_len marks.old + 2 }
    ensures capacity { vec_capacity marks.new ≡ vec_capacity marks.old }
{
    put_both(marks, places.1, lower, upper);
    marks[places.0..places.1 + 1].rotate_right(1);
}

/// Partitions the piece that a new bound falls into, and marks the bound.
fn crack_new(
    head: &mut Vec<i64>,
    tail: &mut Vec<i64>,
    marks: &mut Vec<Mark>,
    k: usize,
    bound: Bound,
)
    requires lengths { vec_len head.old ≡ vec_len tail.old }
    requires room { vec_len marks.old < vec_capacity marks.old }
    requires order { InOrder 0 (vec_len head.old) marks.old.items }
    requires rising { IsRising (bounds_of marks.old.items) }
    requires new { IsNew bound marks.old.items }
    requires place { k ≡ marks_below marks.old.items bound }
    requires within { k ≤ vec_len marks.old }
    ensures cracked { AreCut (crack head_of bound) head.old tail.old marks.old head.new tail.new marks.new }
    ensures order { InOrder 0 (vec_len head.new) marks.new.items }
    ensures lengths { (vec_len head.new ≡ vec_len head.old) × (vec_len tail.new ≡ vec_len tail.old) }
    ensures capacity { KeepsRoom head.old head.new × KeepsRoom tail.old tail.new }
    ensures marks { (vec_len marks.new ≡ vec_len marks.old + 1) × (vec_capacity marks.new ≡ vec_capacity marks.old) }
{
    let start = start_of(marks, k);
    let end = end_before(marks, k, head.len());
    let at = part_lists(head, tail, start, end, bound);
    put_mark(marks, k, Mark { bound, at });
}

/// Where the piece of the upper of two new bounds begins, if the lower one's mark is to stand at `first`.
fn upper_start(marks: &[Mark], places: (usize, usize), first: usize) -> usize
    requires { places.1 ≤ length marks.now }
    ensures same { places.0 ≡ places.1 → result ≡ first }
    ensures apart { places.0 < places.1 → result ≡ start_at 0 marks.now places.1 }
{
    if places.0 == places.1 {
        first
    } else {
        start_of(marks, places.1)
    }
}

/// Partitions the pieces that two new bounds fall into, at the lower and then at the upper one, and marks both.
fn crack_two(
    head: &mut Vec<i64>,
    tail: &mut Vec<i64>,
    marks: &mut Vec<Mark>,
    places: (usize, usize),
    bounds: (Bound, Bound),
)
    requires lengths { vec_len head.old ≡ vec_len tail.old }
    requires room { vec_len marks.old + 2 ≤ vec_capacity marks.old }
    requires order { InOrder 0 (vec_len head.old) marks.old.items }
    requires rising { IsRising (bounds_of marks.old.items) }
    requires new { IsNew bounds.0 marks.old.items × IsNew bounds.1 marks.old.items }
    requires lower { places.0 ≡ marks_below marks.old.items bounds.0 }
    requires upper { places.1 ≡ marks_below marks.old.items bounds.1 }
    requires places { (places.0 ≤ places.1) × (places.1 ≤ vec_len marks.old) }
    requires above { bound_below bounds.0 bounds.1 ≡ true }
    ensures cracked { AreCut (cut_twice bounds.0 (Some bounds.1)) head.old tail.old marks.old head.new tail.new marks.new }
    ensures order { InOrder 0 (vec_len head.new) marks.new.items }
    ensures lengths { (vec_len head.new ≡ vec_len head.old) × (vec_len tail.new ≡ vec_len tail.old) }
    ensures capacity { KeepsRoom head.old head.new × KeepsRoom tail.old tail.new }
{
    let start = start_of(marks, places.0);
    let end = end_before(marks, places.0, head.len());
    let first = part_lists(head, tail, start, end, bounds.0);
    let from = upper_start(marks, places, first);
    let to = end_before(marks, places.1, head.len());
    let second = part_lists(head, tail, from, to, bounds.1);
    let lower = Mark {
        bound: bounds.0,
        at: first,
    };
    let upper = Mark {
        bound: bounds.1,
        at: second,
    };
    put_two(marks, places, lower, upper);
}

/// Partitions the piece that a bound falls into, the k-th, unless the bound is marked.
fn crack(head: &mut Vec<i64>, tail: &mut Vec<i64>, marks: &mut Vec<Mark>, k: usize, bound: Bound)
    requires lengths { vec_len head.old ≡ vec_len tail.old }
    requires room { vec_len marks.old < vec_capacity marks.old }
    requires order { InOrder 0 (vec_len head.old) marks.old.items }
    requires rising { IsRising (bounds_of marks.old.items) }
    requires place { k ≡ marks_below marks.old.items bound }
    requires within { k ≤ vec_len marks.old }
    ensures cracked { AreCut (crack head_of bound) head.old tail.old marks.old head.new tail.new marks.new }
    ensures order { InOrder 0 (vec_len head.new) marks.new.items }
    ensures lengths { (vec_len head.new ≡ vec_len head.old) × (vec_len tail.new ≡ vec_len tail.old) }
    ensures capacity { KeepsRoom head.old head.new × KeepsRoom tail.old tail.new }
    ensures marks { (vec_len marks.new ≤ vec_len marks.old + 1) × (vec_capacity marks.new ≡ vec_capacity marks.old) }
{
    if !is_marked(marks, k, bound) {
        crack_new(head, tail, marks, k, bound);
    }
}

/// Cracks at a bound, if there is one.
fn crack_some(head: &mut Vec<i64>, tail: &mut Vec<i64>, marks: &mut Vec<Mark>, bound: Option<Bound>)
    requires lengths { vec_len head.old ≡ vec_len tail.old }
    requires room { vec_len marks.old < vec_capacity marks.old }
    requires order { InOrder 0 (vec_len head.old) marks.old.items }
    requires rising { IsRising (bounds_of marks.old.items) }
    ensures cracked { AreCut (crack_at head_of bound) head.old tail.old marks.old head.new tail.new marks.new }
    ensures order { InOrder 0 (vec_len head.new) marks.new.items }
    ensures lengths { (vec_len head.new ≡ vec_len head.old) × (vec_len tail.new ≡ vec_len tail.old) }
    ensures capacity { KeepsRoom head.old head.new × KeepsRoom tail.old tail.new }
    ensures marks { (vec_len marks.new ≤ vec_len marks.old + 1) × (vec_capacity marks.new ≡ vec_capacity marks.old) }
{
    if let Some(bound) = bound {
        let k = marks_below(marks, bound);
        crack(head, tail, marks, k, bound);
    }
}

/// Cracks at a bound, and then at another, if there is one. Two that are new are marked together.
fn crack_from(
    head: &mut Vec<i64>,
    tail: &mut Vec<i64>,
    marks: &mut Vec<Mark>,
    lower: Bound,
    upper: Option<Bound>,
)
    requires lengths { vec_len head.old ≡ vec_len tail.old }
    requires room { vec_len marks.old + 2 ≤ vec_capacity marks.old }
    requires order { InOrder 0 (vec_len head.old) marks.old.items }
    requires rising { IsRising (bounds_of marks.old.items) }
    ensures cracked { AreCut (cut_twice lower upper) head.old tail.old marks.old head.new tail.new marks.new }
    ensures order { InOrder 0 (vec_len head.new) marks.new.items }
    ensures lengths { (vec_len head.new ≡ vec_len head.old) × (vec_len tail.new ≡ vec_len tail.old) }
    ensures capacity { KeepsRoom head.old head.new × KeepsRoom tail.old tail.new }
{
    let k = marks_below(marks, lower);
    if let Some(upper) = upper
        && lower.is_below(upper)
        && !is_marked(marks, k, lower)
    {
        let j = marks_below(marks, upper);
        if !is_marked(marks, j, upper) {
            crack_two(head, tail, marks, (k, j), (lower, upper));
            return;
        }
    }
    crack(head, tail, marks, k, lower);
    crack_some(head, tail, marks, upper);
}

/// Cracks at two bounds, where they are there.
pub(crate) fn crack_range(
    head: &mut Vec<i64>,
    tail: &mut Vec<i64>,
    marks: &mut Vec<Mark>,
    lower: Option<Bound>,
    upper: Option<Bound>,
)
    requires lengths { vec_len head.old ≡ vec_len tail.old }
    requires room { vec_len marks.old + 2 ≤ vec_capacity marks.old }
    requires order { InOrder 0 (vec_len head.old) marks.old.items }
    requires rising { IsRising (bounds_of marks.old.items) }
    ensures cracked { AreCut (step head_of (ranged lower upper)) head.old tail.old marks.old head.new tail.new marks.new }
    ensures order { InOrder 0 (vec_len head.new) marks.new.items }
    ensures lengths { (vec_len head.new ≡ vec_len head.old) × (vec_len tail.new ≡ vec_len tail.old) }
    ensures capacity { KeepsRoom head.old head.new × KeepsRoom tail.old tail.new }
{
    match lower {
        Some(lower) => crack_from(head, tail, marks, lower, upper),
        None => crack_some(head, tail, marks, upper),
    }
}
