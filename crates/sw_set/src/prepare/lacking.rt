//! Which boxes lack entries of the tape, and how much work a map lacks. Of how much no contract speaks: it decides alone
//! whether a thread is started.

ghost use Rattle.std.specs.Prelude.{◌≡◌, false, map, true, All};
ghost use Rattle.sw_query.specs.Outcomes.{MemoryAside};
ghost use Rattle.sw_set.specs.Aligned.{IsAtEnd};
ghost use Rattle.sw_set.specs.Sought.{FindsLacking, IsAtCursor, LacksEntries};

use crate::prepare::align::is_needed;
use crate::prepare::course::Course;
use sw_map::{CrackerMap, Tail};
use sw_query::{Bound, Refusal};
use sw_tape::{Entry, Tape};

/// A thread is worth its start where more pairs than this are to be parted: that takes some 0.5 ms. A processor that idles
/// comes within 0.15 ms, one that has other work within 1 to 3 (measured by bench/area/wake.sh).
const WORTH: usize = 250_000;

/// How many of the tape's bounds in a row are looked for in a map that may lack them.
const NEAR: usize = 2;

/// Whether a box has a needed map that lacks entries of a tape of this length.
pub(crate) fn lacks<M: CrackerMap>(it: &M, tails: &[Tail], end: usize) -> bool
    ensures lacking { result ≡ true → LacksEntries tails.now end (M.held it.now) }
    ensures reached { result ≡ false → IsAtCursor tails.now end (M.held it.now) }
{
    !it.is_blank() && is_needed(tails, it.tail()) && it.cursor() != end
}

/// The first box, from a place on, whose needed map lacks entries.
pub(crate) fn find_lacking<M: CrackerMap>(
    boxes: &[M],
    from: usize,
    tails: &[Tail],
    end: usize,
) -> Option<usize>
    ensures { FindsLacking M.held from tails.now end boxes.now result }
{
    for at in from..boxes.len() {
        if lacks(&boxes[at], tails, end) {
            return Some(at);
        }
    }
    None
}

/// Tells after steps whether all needed maps came to the tape's end: refused `NoMemory` where one lacks entries, since a
/// step of it was refused.
pub(crate) fn all_came<M: CrackerMap>(boxes: &[M], course: &Course<'_>) -> Result<(), Refusal>
    ensures { MemoryAside result (λ _. All (IsAtEnd course.now.tails.now course.now.tape.now) (map M.held boxes.now)) }
{
    match find_lacking(boxes, 0, course.tails, course.tape.len()) {
        None => Ok(()),
        Some(_) => Err(Refusal::NoMemory),
    }
}

/// The nearest bound of the tape below a bound.
fn below(tape: &Tape, bound: Bound) -> Option<Bound> {
    match bound {
        Bound::Before(value) => tape.around(value.saturating_sub(1)).0,
        Bound::After(value) => tape.around(value).0,
    }
}

/// The nearest bound of the tape above a bound.
fn above(tape: &Tape, bound: Bound) -> Option<Bound> {
    match bound {
        Bound::Before(value) => tape.around(value).1,
        Bound::After(value) => tape.around(value.saturating_add(1)).1,
    }
}

/// Where the piece begins that a bound falls into: at one of the nearest bounds below that the map has cracked at, or at 0.
fn piece_start<M: CrackerMap>(it: &M, tape: &Tape, bound: Bound) -> usize {
    let mut last = bound;
    for _turn in 0..NEAR {
        let Some(next) = below(tape, last) else {
            return 0;
        };
        if let Some(place) = it.find(next) {
            return place;
        }
        last = next;
    }
    0
}

/// Where it ends: at one of the nearest bounds above that the map has cracked at, or at its last pair.
fn piece_end<M: CrackerMap>(it: &M, tape: &Tape, bound: Bound) -> usize {
    let mut last = bound;
    for _turn in 0..NEAR {
        let Some(next) = above(tape, last) else {
            return it.len();
        };
        if let Some(place) = it.find(next) {
            return place;
        }
        last = next;
    }
    it.len()
}

/// How many pairs a crack parts: those of the piece that the bound falls into.
fn parted_at<M: CrackerMap>(it: &M, tape: &Tape, bound: Option<Bound>) -> usize {
    let Some(bound) = bound else {
        return 0;
    };
    if it.find(bound).is_some() {
        return 0;
    }
    piece_end(it, tape, bound).saturating_sub(piece_start(it, tape, bound))
}

/// How many pairs an entry parts; a load is more than any number.
fn parted_by<M: CrackerMap>(it: &M, tape: &Tape, entry: &Entry) -> usize {
    match entry {
        Entry::Load(_) => usize::MAX,
        Entry::Range(lower, upper) => {
            parted_at(it, tape, *lower).saturating_add(parted_at(it, tape, *upper))
        }
        _ => 0,
    }
}

/// Whether a map lacks so much of the tape that a thread is worth its start: it has yet to load, or its cracks part
/// many pairs. An entry counts besides as many pairs as the tape has entries, since it may move one for each mark; so
/// few entries are looked at.
pub(crate) fn lacks_much<M: CrackerMap>(it: &M, tape: &Tape) -> bool {
    let each = tape.len();
    let mut work: usize = 0;
    for i in it.cursor()..tape.len() {
        if let Some(entry) = tape.get(i) {
            work = work.saturating_add(each);
            work = work.saturating_add(parted_by(it, tape, entry));
        }
        if work > WORTH {
            return true;
        }
    }
    false
}
