//! Boxes over a budget, and the sides that have them.

use crate::areas::{Alone, open_area};
use crate::making::make_all;
use crate::maps::open_budget;
use crate::sides::{Side, see_area, see_head};
use crate::telling::{CELLS, TURNS, told};
use std::alloc::Global;
use std::io;
use std::sync::Arc;
use std::sync::atomic::Ordering;
use std::thread::Threads;
use sw_budget::Purse;
use sw_map::{CrackerMap, PairMap};
use sw_rows::Refusal;
use test_heads::GrowingHead;
use test_maps::{ContendedMap, CountingMap, Counts, RefusingMap};

/// What is made of what.
#[derive(Clone, Copy)]
pub(crate) struct Task<'a> {
    pub side: &'a str,
    pub boxes: u64,
    pub cells: u64,
    pub lines: &'a [String],
}

/// Gives an area a box, again where it is refused.
fn supply_again<R: Print, M: CrackerMap>(rt: &R, area: &mut Alone<M>, it: M) -> io::Result<()> {
    let mut it = it;
    for _turn in 0..TURNS {
        println!(rt; "> supply")?;
        match area.supply(it) {
            Ok(()) => {
                println!(rt; "done")?;
                return see_area(rt, area);
            }
            Err((back, e)) => {
                println!(rt; "refused {e}")?;
                see_area(rt, area)?;
                it = back;
            }
        }
    }
    Ok(())
}

/// The calls of an area that was opened.
fn area_calls<R: Print + Threads + Sync, M: CrackerMap>(
    rt: &R,
    alloc: Global,
    task: Task<'_>,
    area: Alone<M>,
    maps: Vec<M>,
) -> io::Result<()> {
    let mut area = area;
    see_area(rt, &area)?;
    for it in maps {
        supply_again(rt, &mut area, it)?;
    }
    make_all(rt, alloc, &mut Side::Alone(area), task.lines)
}

/// The calls of an area over these boxes.
fn area_side<R: Print + Threads + Sync, M: CrackerMap>(
    rt: &R,
    alloc: Global,
    task: Task<'_>,
    maps: Vec<M>,
) -> io::Result<()> {
    for _turn in 0..TURNS {
        println!(rt; "> new area")?;
        match open_area(alloc) {
            Ok(area) => {
                println!(rt; "done")?;
                return area_calls(rt, alloc, task, area, maps);
            }
            Err(e) => println!(rt; "refused {e}\n= none")?,
        }
    }
    Ok(())
}

/// Gives a head a box; where it is refused, the box is dropped.
fn supply_head<R: Print, M: CrackerMap>(
    rt: &R,
    head: &mut GrowingHead<M>,
    it: M,
) -> io::Result<()> {
    println!(rt; "> supply")?;
    told(rt, head.supply(it))?;
    see_head(rt, head)
}

/// The calls of a head that was opened.
fn head_calls<R: Print + Threads + Sync, M: CrackerMap>(
    rt: &R,
    alloc: Global,
    task: Task<'_>,
    head: GrowingHead<M>,
    maps: Vec<M>,
) -> io::Result<()> {
    let mut head = head;
    see_head(rt, &head)?;
    for it in maps {
        supply_head(rt, &mut head, it)?;
    }
    make_all(rt, alloc, &mut Side::Head(head), task.lines)
}

/// The calls of a head over these boxes.
fn head_side<R: Print + Threads + Sync, M: CrackerMap>(
    rt: &R,
    alloc: Global,
    task: Task<'_>,
    maps: Vec<M>,
) -> io::Result<()> {
    let cuts: &[i64] = if task.side == "cuts" { &[12] } else { &[] };
    for _turn in 0..TURNS {
        println!(rt; "> new head")?;
        match GrowingHead::open(alloc, 0, cuts, &CELLS) {
            Ok(head) => {
                println!(rt; "done")?;
                return head_calls(rt, alloc, task, head, maps);
            }
            Err(e) => println!(rt; "refused {e}\n= none")?,
        }
    }
    Ok(())
}

/// The calls of an area or a head.
fn either_side<R: Print + Threads + Sync, M: CrackerMap>(
    rt: &R,
    alloc: Global,
    task: Task<'_>,
    maps: Vec<M>,
) -> io::Result<()> {
    if task.side == "area" {
        area_side(rt, alloc, task, maps)
    } else {
        head_side(rt, alloc, task, maps)
    }
}

/// Maps that refuse each step and growth of this number, over purses of one budget.
fn refusing(
    alloc: Global,
    purse: &mut Purse,
    boxes: u64,
    every: u64,
) -> Result<Vec<RefusingMap<PairMap>>, Refusal> {
    let mut maps = Vec::new(alloc);
    for _turn in 0..boxes {
        let mine = purse.split()?;
        if maps
            .push(RefusingMap::new(PairMap::blank(alloc, mine), every))
            .is_err()
        {
            return Err(Refusal::NoMemory);
        }
    }
    Ok(maps)
}

/// Maps that find the budget contended at each second begin and growth.
fn contended(
    alloc: Global,
    purse: &mut Purse,
    boxes: u64,
) -> Result<Vec<ContendedMap<PairMap>>, Refusal> {
    let mut maps = Vec::new(alloc);
    for _turn in 0..boxes {
        let mine = purse.split()?;
        if maps
            .push(ContendedMap::new(PairMap::blank(alloc, mine)))
            .is_err()
        {
            return Err(Refusal::NoMemory);
        }
    }
    Ok(maps)
}

/// Maps whose calls are counted together.
fn counting<M: CrackerMap>(
    alloc: Global,
    maps: Vec<M>,
    counts: &Arc<Counts>,
) -> Result<Vec<CountingMap<M>>, Refusal> {
    let mut counted = Vec::new(alloc);
    for it in maps {
        let Ok(mine) = Arc::try_clone(counts) else {
            return Err(Refusal::NoMemory);
        };
        if counted.push(CountingMap::new(it, mine)).is_err() {
            return Err(Refusal::NoMemory);
        }
    }
    Ok(counted)
}

/// The calls of an area or a head over maps whose own calls are counted, and the counts.
fn counted_side<R: Print + Threads + Sync, M: CrackerMap>(
    rt: &R,
    alloc: Global,
    task: Task<'_>,
    maps: Vec<M>,
) -> io::Result<()> {
    let Ok(counts) = Arc::new(alloc, Counts::none()) else {
        return println!(rt; "> boxes\nrefused 1\n= none");
    };
    match counting(alloc, maps, &counts) {
        Ok(maps) => either_side(rt, alloc, task, maps)?,
        Err(e) => println!(rt; "> boxes\nrefused {e}\n= none")?,
    }
    let begins = counts.begins.load(Ordering::SeqCst);
    let steps = counts.steps.load(Ordering::SeqCst);
    let denied = counts.refusals.load(Ordering::SeqCst);
    println!(rt; "> maps\n{begins} began, {steps} stepped, {denied} denied\n= none")
}

/// The same over maps that find the budget contended, made again where one is refused.
fn over_contended<R: Print + Threads + Sync>(
    rt: &R,
    alloc: Global,
    task: Task<'_>,
    purse: &mut Purse,
) -> io::Result<()> {
    for _turn in 0..TURNS {
        match contended(alloc, purse, task.boxes) {
            Ok(maps) => return counted_side(rt, alloc, task, maps),
            Err(e) => println!(rt; "> boxes\nrefused {e}\n= none")?,
        }
    }
    Ok(())
}

/// The same over maps that refuse steps; the calls of those that refuse none are not counted, since counting takes memory.
fn over_refusing<R: Print + Threads + Sync>(
    rt: &R,
    alloc: Global,
    task: Task<'_>,
    purse: &mut Purse,
    every: &str,
) -> io::Result<()> {
    for _turn in 0..TURNS {
        match refusing(alloc, purse, task.boxes, number_of(every)) {
            Ok(maps) => {
                if every == "0" {
                    return either_side(rt, alloc, task, maps);
                }
                return counted_side(rt, alloc, task, maps);
            }
            Err(e) => println!(rt; "> boxes\nrefused {e}\n= none")?,
        }
    }
    Ok(())
}

/// The calls of an area or a head over boxes of a budget of their own, all of whose cells have to be there again in the end.
pub(crate) fn boxed_side<R: Print + Threads + Sync>(
    rt: &R,
    alloc: Global,
    task: Task<'_>,
    every: &str,
) -> io::Result<()> {
    let Some((budget, mut purse)) = open_budget(rt, alloc, task.cells)? else {
        return Ok(());
    };
    if every == "contended" {
        over_contended(rt, alloc, task, &mut purse)?;
    } else {
        over_refusing(rt, alloc, task, &mut purse, every)?;
    }
    println!(rt; "> end\n{} used\n= none", budget.used())
}

/// The number of a word, or 0.
pub(crate) fn number_of(word: &str) -> u64 {
    word.parse::<u64>().unwrap_or(0)
}
