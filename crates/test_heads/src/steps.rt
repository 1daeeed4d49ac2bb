//! Steps of a head, and what is seen of them.

use crate::scenes::Watch;
use crate::trials::{Trial, supply, tell, tell_at_rest};
use std::alloc::AllocError;
use std::sync::atomic::{AtomicU64, Ordering};
use std::test::Fail;
use std::thread::Threads;
use sw_lang::parse_known;
use sw_map::{CrackerMap, Tail};
use sw_rows::{Bound, Call, Refusal};
use sw_set::Area;

/// What is done to a head, or looked at.
#[derive(Clone, Copy)]
pub(crate) enum Step<'t> {
    /// Makes the call of a line: the reply, and how many areas were scanned for it, if any.
    Call(&'t str),
    /// Makes it so often: the last reply.
    Calls(u32, &'t str),
    /// Deletes the rows of the keys 1, 2, 3 and so on, up to a number: the last reply.
    DeletesUpTo(u64),
    /// Merges what waits in the areas that a query touches.
    Merge(&'t str),
    /// Asks a query of the head as it stands: the reply, or that it is not at rest.
    AtRest(&'t str),
    /// Clears maps until so many cells came back: how many did.
    Evict(u64),
    /// Drops up to so many boxes: how many.
    Shed(usize),
    /// Gives one more box to the head.
    Supply,
    /// Begins, steps and tails asked for since the last look.
    Counts,
    /// How many begins and steps were refused since the last look.
    Refusals,
    /// The cells of the budget that are in use.
    Used,
    /// Looks at the area at a place.
    At(usize, View),
}

/// What is looked at of an area.
#[derive(Clone, Copy)]
pub(crate) enum View {
    /// How many boxes there are, and how many entries the tape has.
    Sizes,
    /// What the map of a tail shows, place by place, to its end.
    Shown(Tail),
    /// Where a bound stands in the key map.
    Place(Bound),
    /// The cursor of the map of a tail.
    Cursor(Tail),
    /// Whether it has a row of a key.
    Holds(u64),
    /// How often it was begun anew.
    Restarts,
}

/// What a counter tells, which is 0 again.
fn taken(count: &AtomicU64) -> u64 {
    count.swap(0, Ordering::SeqCst)
}

/// Tells a place or a cursor, or none.
fn push_place(text: &mut String, place: Option<usize>) -> Result<(), AllocError> {
    match place {
        Some(n) => write!(text, "{n}"),
        None => text.push_str("none"),
    }
}

/// Tells what the map of a tail shows.
fn push_tail<M: CrackerMap>(
    text: &mut String,
    area: &Area<M>,
    tail: Tail,
) -> Result<(), AllocError> {
    for place in 0..64 {
        let Some(value) = area.peek(tail, place) else {
            return Ok(());
        };
        if place > 0 {
            text.push_str(" ")?;
        }
        write!(text, "{value}")?;
    }
    Ok(())
}

/// Looks at an area.
fn view_of<M: CrackerMap>(area: &Area<M>, view: View, text: &mut String) -> Result<(), AllocError> {
    match view {
        View::Sizes => write!(text, "{} boxes, {} entries", area.boxes(), area.tape_len()),
        View::Shown(tail) => push_tail(text, area, tail),
        View::Place(bound) => push_place(text, area.place(bound)),
        View::Cursor(tail) => push_place(text, area.cursor(tail)),
        View::Holds(key) => write!(text, "{}", area.holds(key)),
        View::Restarts => write!(text, "{}", area.restarts()),
    }
}

/// Takes a step that makes no call, and tells what is seen.
fn tend<M: CrackerMap>(
    trial: &mut Trial<M>,
    watch: Watch<'_>,
    step: Step<'_>,
    text: &mut String,
) -> Result<(), AllocError> {
    match step {
        Step::Evict(cells) => write!(text, "{}", trial.head.evict(cells)),
        Step::Shed(most) => write!(text, "{}", trial.head.shed(most)),
        Step::Counts => write!(
            text,
            "{} begins, {} steps, {} tails",
            taken(&watch.counts.begins),
            taken(&watch.counts.steps),
            taken(&watch.counts.tails)
        ),
        Step::Refusals => write!(text, "{}", taken(&watch.counts.refusals)),
        Step::Used => write!(text, "{}", watch.budget.used()),
        Step::At(place, view) => match trial.head.head().areas().get(place) {
            Some(area) => view_of(area, view, text),
            None => text.push_str("no such area"),
        },
        _ => Ok(()),
    }
}

/// Makes a call, and tells how many areas were scanned for it.
pub(crate) fn called<R: Threads + Sync, M: CrackerMap>(
    rt: &R,
    trial: &mut Trial<M>,
    line: &str,
    text: &mut String,
) -> Result<(), Fail> {
    text.clear();
    let before = trial.scans;
    let _same = tell(rt, trial, line, text)?;
    let scans = trial.scans.wrapping_sub(before);
    if scans > 0 {
        write!(text, "{scans} scanned")?;
    }
    Ok(())
}

/// Makes a call so often.
fn called_often<R: Threads + Sync, M: CrackerMap>(
    rt: &R,
    trial: &mut Trial<M>,
    many: u32,
    line: &str,
    text: &mut String,
) -> Result<(), Fail> {
    for _turn in 0..many {
        called(rt, trial, line, text)?;
    }
    Ok(())
}

/// Deletes the rows of the keys up to a number.
fn deleted_up_to<R: Threads + Sync, M: CrackerMap>(
    rt: &R,
    trial: &mut Trial<M>,
    last: u64,
    text: &mut String,
) -> Result<(), Fail> {
    for before in 0..last {
        let line = format!(in trial.alloc; "delete {}", before.wrapping_add(1))?;
        called(rt, trial, line.as_str(), text)?;
    }
    Ok(())
}

/// Merges what waits in the areas that a call touches, where it is a query.
fn merge_for<M: CrackerMap>(trial: &mut Trial<M>, call: &Call) -> Result<(), Refusal> {
    match call {
        Call::Select(query) => match trial.head.scan(query) {
            Ok(_) => Ok(()),
            Err(e) => Err(e),
        },
        _ => Ok(()),
    }
}

/// Merges what waits in the areas that a query touches: no map is made for it.
pub(crate) fn merge<M: CrackerMap>(trial: &mut Trial<M>, line: &str) -> Result<(), Fail> {
    match parse_known(trial.alloc, &trial.schema, 1, line)? {
        Some(call) => Ok(merge_for(trial, &call)?),
        None => Ok(()),
    }
}

/// Takes a step, and tells what is seen.
fn take<R: Threads + Sync, M: CrackerMap>(
    rt: &R,
    trial: &mut Trial<M>,
    watch: Watch<'_>,
    step: Step<'_>,
    text: &mut String,
) -> Result<(), Fail> {
    match step {
        Step::Call(line) => called(rt, trial, line, text),
        Step::Calls(many, line) => called_often(rt, trial, many, line, text),
        Step::DeletesUpTo(last) => deleted_up_to(rt, trial, last, text),
        Step::Merge(line) => merge(trial, line),
        Step::AtRest(line) => tell_at_rest(trial, line, text),
        Step::Supply => Ok(supply(trial)?),
        _ => Ok(tend(trial, watch, step, text)?),
    }
}

/// Takes steps in order. Of the first that does not show what is expected it tells what it shows and its number, from
/// 0; else nothing.
pub(crate) fn take_all<R: Threads + Sync, M: CrackerMap>(
    rt: &R,
    trial: &mut Trial<M>,
    watch: Watch<'_>,
    steps: &[(Step<'_>, &str)],
    text: &mut String,
) -> Result<(), Fail> {
    for place in 0..steps.len() {
        let (step, expected) = steps[place];
        text.clear();
        take(rt, trial, watch, step, text)?;
        if text.as_str() != expected {
            return Ok(write!(text, " at {place}")?);
        }
    }
    text.clear();
    Ok(())
}
