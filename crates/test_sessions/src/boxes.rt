//! Boxes over a budget, and the engine that has them.

ghost use Rattle.std.specs.Prelude.{◌≡◌, ◌<◌, ℕ, true, length, IfOk};
ghost use Rattle.sw_lang.specs.Cuts.{AreCuts, cuts_on};
ghost use Rattle.sw_spine.specs.Table.{is_numbered};

use crate::engines::{Stage, Table, play, refused_before, rows_of};
use crate::telling::HEADER;
use std::alloc::Global;
use std::io;
use std::marker::Brand;
use std::sync::atomic::Ordering;
use std::sync::{Arc, Wait};
use std::thread::Threads;
use sw_budget::{Budget, Purse};
use sw_engine::Blank;
use sw_lang::parse_cuts;
use sw_map::{CrackerMap, PairMap};
use sw_rows::{Refusal, Schema, TextKey};
use test_maps::{ContendedMap, CountingMap, Counts, RefusingMap};

/// What is made of what.
#[derive(Clone, Copy)]
pub(crate) struct Task<'a> {
    pub every: &'a str,
    pub boxes: u64,
    pub cells: u64,
    pub cuts: &'a str,
    pub lines: &'a [String],
}

/// The table of the rows and the cuts.
fn table_of(alloc: Global, cuts: &str) -> Result<Table, Refusal>
    ensures numbered { IfOk result (λ t. is_numbered 1 t.rows.items ≡ true) }
    ensures lists { IfOk result (λ t. length t.cuts ≡ length t.schema) }
    ensures cuts { IfOk result (λ t. (a : ℕ) → a < length t.schema → AreCuts (cuts_on t.cuts a)) }
{
    let schema = Schema::of(alloc, TextKey::fixed(), &HEADER)?;
    let cuts = parse_cuts(alloc, &schema, cuts)?;
    let rows = rows_of(alloc)?;
    Ok(Table { schema, rows, cuts })
}

/// Makes the calls on an engine over these boxes; `false` where it was not opened.
fn tried<M: CrackerMap, R: Print + Threads + Wait + Sync>(
    rt: &R,
    alloc: Global,
    task: Task<'_>,
    maps: Vec<M>,
) -> io::Result<bool> {
    let cuts = if task.cuts == "whole" { "" } else { task.cuts };
    let schema = match Schema::of(alloc, TextKey::fixed(), &HEADER) {
        Ok(schema) => schema,
        Err(e) => return refused_before(rt, "table", e),
    };
    let stage = Stage {
        maps,
        schema: &schema,
        lines: task.lines,
    };
    match table_of(alloc, cuts) {
        Ok(table) => play::<Brand, M, R>(rt, alloc, Blank::new(), table, stage),
        Err(e) => refused_before(rt, "table", e),
    }
}

/// Maps that refuse each step and growth of this number, over purses of one budget.
fn refusing(
    alloc: Global,
    purse: &mut Purse,
    boxes: u64,
    every: u64,
) -> Result<Vec<RefusingMap<PairMap>>, Refusal> {
    let mut maps = Vec::new(alloc);
    for _turn in 0..boxes {
        let mine = purse.split()?;
        if maps
            .push(RefusingMap::new(PairMap::blank(alloc, mine), every))
            .is_err()
        {
            return Err(Refusal::NoMemory);
        }
    }
    Ok(maps)
}

/// Maps that find the budget contended at each second begin and growth.
fn contended(
    alloc: Global,
    purse: &mut Purse,
    boxes: u64,
) -> Result<Vec<ContendedMap<PairMap>>, Refusal> {
    let mut maps = Vec::new(alloc);
    for _turn in 0..boxes {
        let mine = purse.split()?;
        if maps
            .push(ContendedMap::new(PairMap::blank(alloc, mine)))
            .is_err()
        {
            return Err(Refusal::NoMemory);
        }
    }
    Ok(maps)
}

/// Maps whose calls are counted together.
fn counting<M: CrackerMap>(
    alloc: Global,
    maps: Vec<M>,
    counts: &Arc<Counts>,
) -> Result<Vec<CountingMap<M>>, Refusal> {
    let mut counted = Vec::new(alloc);
    for it in maps {
        let Ok(mine) = Arc::try_clone(counts) else {
            return Err(Refusal::NoMemory);
        };
        if counted.push(CountingMap::new(it, mine)).is_err() {
            return Err(Refusal::NoMemory);
        }
    }
    Ok(counted)
}

/// Makes the calls over maps whose own calls are counted, and tells the counts; `false` where something before the calls was refused.
fn counted_over<M: CrackerMap, R: Print + Threads + Wait + Sync>(
    rt: &R,
    alloc: Global,
    task: Task<'_>,
    maps: Vec<M>,
) -> io::Result<bool> {
    let Ok(counts) = Arc::new(alloc, Counts::none()) else {
        return refused_before(rt, "boxes", Refusal::NoMemory);
    };
    let is_opened = match counting(alloc, maps, &counts) {
        Ok(maps) => tried(rt, alloc, task, maps)?,
        Err(e) => refused_before(rt, "boxes", e)?,
    };
    let begins = counts.begins.load(Ordering::SeqCst);
    let steps = counts.steps.load(Ordering::SeqCst);
    let denied = counts.refusals.load(Ordering::SeqCst);
    println!(rt; "> maps\n{begins} began, {steps} stepped, {denied} denied")?;
    Ok(is_opened)
}

/// Makes boxes over purses of this one, and the calls over them, counting those of maps that refuse; `false` where something before
/// the calls was refused.
fn over<R: Print + Threads + Wait + Sync>(
    rt: &R,
    alloc: Global,
    task: Task<'_>,
    purse: &mut Purse,
) -> io::Result<bool> {
    if task.every == "contended" {
        return match contended(alloc, purse, task.boxes) {
            Ok(maps) => counted_over(rt, alloc, task, maps),
            Err(e) => refused_before(rt, "boxes", e),
        };
    }
    match refusing(alloc, purse, task.boxes, number_of(task.every)) {
        Ok(maps) => {
            if task.every == "0" {
                return tried(rt, alloc, task, maps);
            }
            counted_over(rt, alloc, task, maps)
        }
        Err(e) => refused_before(rt, "boxes", e),
    }
}

/// The same over a budget of its own.
pub(crate) fn over_budget<R: Print + Threads + Wait + Sync>(
    rt: &R,
    alloc: Global,
    task: Task<'_>,
) -> io::Result<bool> {
    match Budget::open(alloc, task.cells) {
        Ok((_budget, mut purse)) => over(rt, alloc, task, &mut purse),
        Err(e) => refused_before(rt, "boxes", e),
    }
}

/// The number of a word, or 0.
pub(crate) fn number_of(word: &str) -> u64 {
    word.parse::<u64>().unwrap_or(0)
}
