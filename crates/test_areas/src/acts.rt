//! Calls of a map, and what is seen of it.

use crate::moves::push_place;
use crate::scenes::Stage;
use std::alloc::{AllocError, Global};
use std::sync::atomic::{AtomicU64, Ordering};
use sw_map::{CrackerMap, Tail};
use sw_rows::{Bound, PackedRows, Refusal, Row};
use sw_tape::{Entry, LoadRows};
use test_maps::{Counts, replay};

/// What is done to a map, or looked at. What is refused shows the refusal.
#[derive(Clone, Copy)]
pub(crate) enum Act<'t> {
    /// Begins the map anew, of a head and a tail, with so many cells.
    Begin(u8, Tail, u64),
    /// Grows the lease to so many cells, if the map is in use and has fewer, and tells whether it grew.
    Grow(u64),
    /// Replays the load of rows, if the map may.
    Load(&'t [Row]),
    /// Replays an insertion, if the map may.
    Insert(Row),
    /// Replays a removal at a place, if the map may.
    Remove(usize),
    /// Replays a range, if the map may.
    Range(Option<Bound>, Option<Bound>),
    /// Clears the map.
    Clear,
    /// The pairs, each as its head and its tail.
    Shown,
    /// How many pairs stand before a bound.
    Place(Bound),
    /// The cursor.
    Cursor,
    /// Whether it is in use, with this head, tail and number of cells.
    Is(u8, Tail, u64),
    /// Whether it is blank, without cells.
    Blank,
    /// Begins, steps and tails asked for, and refusals of the first two, since the last look.
    Counts,
    /// The cells of the budget that are in use.
    Used,
}

/// Tells a refusal, if there is one.
fn push_answer(text: &mut String, answer: Result<(), Refusal>) -> Result<(), AllocError> {
    match answer {
        Ok(()) => Ok(()),
        Err(e) => write!(text, "{e}"),
    }
}

/// Grows the lease of a map, if it may.
fn grow<M: CrackerMap>(map: &mut M, cells: u64, text: &mut String) -> Result<(), AllocError> {
    if map.is_blank() || map.cells() >= cells {
        return text.push_str("may not grow");
    }
    match map.grow(cells) {
        Ok(grew) => write!(text, "{grew}"),
        Err(e) => write!(text, "{e}"),
    }
}

/// Replays the load of rows, if the map may.
fn load<M: CrackerMap>(
    alloc: Global,
    map: &mut M,
    rows: &[Row],
    text: &mut String,
) -> Result<(), AllocError> {
    let entry = Entry::Load(LoadRows::of(alloc, PackedRows::of(alloc, rows)?));
    push_answer(text, replay(map, &entry))
}

/// Tells the pairs of a map.
pub(crate) fn push_pairs<M: CrackerMap>(map: &M, text: &mut String) -> Result<(), AllocError> {
    for place in 0..map.len() {
        if place > 0 {
            text.push_str(" ")?;
        }
        write!(text, "{}:{}", map.head_at(place), map.tail_at(place))?;
    }
    Ok(())
}

/// What a counter tells, which is 0 again.
pub(crate) fn taken(count: &AtomicU64) -> u64 {
    count.swap(0, Ordering::SeqCst)
}

/// Tells counts, which are 0 again.
fn push_counts(counts: &Counts, text: &mut String) -> Result<(), AllocError> {
    write!(
        text,
        "{} begins, {} steps, {} tails, {} refusals",
        taken(&counts.begins),
        taken(&counts.steps),
        taken(&counts.tails),
        taken(&counts.refusals)
    )
}

/// Looks at a map.
fn see<M: CrackerMap>(
    map: &M,
    stage: Stage<'_>,
    act: Act<'_>,
    text: &mut String,
) -> Result<(), AllocError> {
    match act {
        Act::Shown => push_pairs(map, text),
        Act::Place(bound) => push_place(text, map.find(bound)),
        Act::Cursor => write!(text, "{}", map.cursor()),
        Act::Is(head, tail, cells) => {
            let is_so = map.head() == head && map.tail() == tail && map.cells() == cells;
            write!(text, "{}", is_so && !map.is_blank())
        }
        Act::Blank => write!(text, "{}", map.is_blank() && map.cells() == 0),
        Act::Counts => push_counts(stage.counts, text),
        Act::Used => write!(text, "{}", stage.budget.used()),
        _ => Ok(()),
    }
}

/// Does something to a map, and tells what is seen.
fn act_on<M: CrackerMap>(
    stage: Stage<'_>,
    map: &mut M,
    act: Act<'_>,
    text: &mut String,
) -> Result<(), AllocError> {
    match act {
        Act::Begin(head, tail, cells) => {
            map.clear();
            push_answer(text, map.begin(head, tail, cells))
        }
        Act::Grow(cells) => grow(map, cells, text),
        Act::Load(rows) => load(stage.alloc, map, rows, text),
        Act::Insert(row) => push_answer(text, replay(map, &Entry::Insert(row))),
        Act::Remove(place) => push_answer(text, replay(map, &Entry::Remove(place))),
        Act::Range(lower, upper) => push_answer(text, replay(map, &Entry::Range(lower, upper))),
        Act::Clear => {
            map.clear();
            Ok(())
        }
        _ => see(map, stage, act, text),
    }
}

/// Does something to the map of a number, and tells what is seen.
fn act_at<M: CrackerMap>(
    stage: Stage<'_>,
    maps: &mut Vec<M>,
    number: usize,
    act: Act<'_>,
    text: &mut String,
) -> Result<(), AllocError> {
    match maps.get_mut(number) {
        Some(map) => act_on(stage, map, act, text),
        None => text.push_str("no such map"),
    }
}

/// Does things to maps in order. Of the first that does not show what is expected it tells what it shows; else nothing.
pub(crate) fn act_out<M: CrackerMap>(
    stage: Stage<'_>,
    maps: &mut Vec<M>,
    acts: &[(usize, Act<'_>, &str)],
    text: &mut String,
) -> Result<(), AllocError> {
    for place in 0..acts.len() {
        let (number, act, expected) = acts[place];
        text.clear();
        act_at(stage, maps, number, act, text)?;
        if text.as_str() != expected {
            return write!(text, " at {place}");
        }
    }
    text.clear();
    Ok(())
}
