//! What sessions are told, and what the record keeps; what sessions make of the maps of heads; and what viewers see beside them.

ghost use Rattle.std.specs.Prelude.{◌<◌, ◌≤◌, All, IfOk, length};
ghost use Rattle.sw_query.specs.Scan.{AsksBelow};
ghost use Rattle.sw_rows.specs.declared.table.TheConstants.{MOST_ROWS};
ghost use Rattle.sw_spine.specs.History.{CallsBelow, IsLegal};

use crate::asking::count_all;
use crate::beginnings::{Beginnings, show_seen, tell_looks};
use crate::boxes::{Refusing, Sights, Signals, refusing, watching};
use crate::opening::Boxes;
use crate::playing::{Plan, Played, Stage, play};
use crate::random::random_blocks;
use crate::running::{HEADER, ROWS, TABLE, Trial, blocks};
use crate::told::{Telling, held, tell_counts, tell_file, tell_replies, tell_right};
use std::alloc::Global;
use std::sync::Wait;
use std::sync::atomic::Ordering;
use std::thread::Threads;
use sw_map::CrackerMap;
use sw_rows::{Conds, Query, Refusal, Schema, TextKey, Want};

/// How often a script is begun where something else than a call is refused, and how often a call is made that is refused.
const TURNS: usize = 3;

const EIGHT: [&str; 8] = [
    "a:int", "b:int", "c:int", "d:int", "e:int", "f:int", "g:int", "h:int",
];

/// Asks for the sum of b, or counts.
fn asked(alloc: Global, sums: bool) -> Query
    ensures { AsksBelow 8 result }
{
    if sums {
        sum_of_b(alloc)
    } else {
        count_all(alloc)
    }
}

/// Asks for the sum of b.
fn sum_of_b(alloc: Global) -> Query
    ensures { AsksBelow 8 result }
{
    Query {
        conds: Conds::new(alloc),
        want: Want::Sum(1),
    }
}

/// So many viewers, of which each asks for the sum of b twenty times, or counts once; each call is made once.
fn planned(alloc: Global, viewers: usize, sums: bool, signals: Signals) -> Plan
    ensures { AsksBelow 8 result.query }
{
    let query = asked(alloc, sums);
    Plan {
        viewers,
        looks: if sums { 20 } else { 1 },
        query,
        turns: 1,
        signals,
    }
}

/// Plays what is on a stage. Tells whether all was answered, the record is legal, no more entries are void than calls were refused, and
/// the other entries of each session are its calls.
fn play_told<M: CrackerMap, R: Threads + Wait + Sync>(
    telling: &mut Telling<'_, R>,
    trial: Trial<'_>,
    schema: Schema,
    stage: Stage<'_, M>,
) -> Result<Played, Refusal>
    requires few { length trial.rows.now ≤ MOST_ROWS }
    requires some { 0 < trial.limit }
    requires most { trial.limit ≤ MOST_ROWS }
    requires below { All (λ b. All (λ c. CallsBelow (length schema) c) b.items) stage.blocks.now }
    requires asks { AsksBelow 8 stage.plan.query }
    ensures { IfOk result (λ p. IsLegal p.record) }
{
    let alloc = telling.alloc;
    let blocks = stage.blocks;
    let played = play(telling.rt, alloc, trial, schema, stage)?;
    held(tell_right(alloc, telling.text, &played, blocks))?;
    Ok(played)
}

/// Plays the lines of sessions over the four rows, and tells the replies to the first two as well.
fn play_lines<M: CrackerMap, R: Threads + Wait + Sync>(
    telling: &mut Telling<'_, R>,
    cuts: &str,
    boxes: Boxes<M>,
    lines: &str,
    plan: Plan,
) -> Result<Played, Refusal>
    requires { AsksBelow 8 plan.query }
    ensures { IfOk result (λ p. IsLegal p.record) }
{
    let alloc = telling.alloc;
    let trial = Trial { cuts, ..TABLE };
    let schema = Schema::of(alloc, TextKey::fixed(), &HEADER)?;
    let blocks = blocks(alloc, &schema, lines)?;
    let stage = Stage {
        boxes,
        blocks: blocks.as_slice(),
        plan,
    };
    let played = play_told(telling, trial, schema, stage)?;
    held(tell_replies(telling.text, &played.record))?;
    Ok(played)
}

/// Sessions make the calls of lines over so many boxes, each call at most so often. Tells what they are told.
pub(crate) fn told_of<R: Threads + Wait + Sync>(
    telling: &mut Telling<'_, R>,
    many: usize,
    turns: usize,
    cuts: &str,
    lines: &str,
) -> Result<(), Refusal> {
    let alloc = telling.alloc;
    let boxes = Boxes::dealt(alloc, refusing(alloc, many, 1 << 20, 0)?);
    let mut plan = planned(alloc, 0, false, held(Signals::new(alloc, true))?);
    plan.turns = turns;
    let _ = play_lines(telling, cuts, boxes, lines, plan)?;
    Ok(())
}

/// Sessions make the calls of lines at once over so many boxes. Their replies hang on the order of their calls, so what is told
/// besides is how many entries there are.
pub(crate) fn raced<R: Threads + Wait + Sync>(
    telling: &mut Telling<'_, R>,
    many: usize,
    cuts: &str,
    lines: &str,
) -> Result<(), Refusal> {
    let alloc = telling.alloc;
    let trial = Trial { cuts, ..TABLE };
    let schema = Schema::of(alloc, TextKey::fixed(), &HEADER)?;
    let blocks = blocks(alloc, &schema, lines)?;
    let boxes = Boxes::dealt(alloc, refusing(alloc, many, 1 << 20, 0)?);
    let plan = planned(alloc, 0, false, held(Signals::new(alloc, true))?);
    let stage = Stage {
        boxes,
        blocks: blocks.as_slice(),
        plan,
    };
    let played = play_told(telling, trial, schema, stage)?;
    held(write!(
        telling.text,
        "; {} entries",
        played.record.entries.as_slice().len()
    ))
}

/// What `told_of` does where each call is made until it is answered, and all is begun again where something else is refused.
pub(crate) fn insisted<R: Threads + Wait + Sync>(
    telling: &mut Telling<'_, R>,
    many: usize,
    lines: &str,
) -> Result<(), Refusal> {
    for _ in 1..TURNS {
        telling.text.clear();
        if told_of(telling, many, TURNS, "", lines).is_ok() {
            return Ok(());
        }
    }
    telling.text.clear();
    told_of(telling, many, TURNS, "", lines)
}

/// One session makes the calls of lines over so many boxes. Tells what it is told, and how often the maps were begun, stepped and
/// asked.
pub(crate) fn counted<R: Threads + Wait + Sync>(
    telling: &mut Telling<'_, R>,
    many: usize,
    lines: &str,
) -> Result<(), Refusal> {
    let alloc = telling.alloc;
    let sights = held(Sights::new(alloc, 0))?;
    let signals = held(Signals::new(alloc, true))?;
    let boxes = Boxes::dealt(alloc, watching(alloc, many, &signals, &sights)?);
    let plan = planned(alloc, 0, false, signals);
    let _ = play_lines(telling, "", boxes, lines, plan)?;
    held(tell_counts(telling.text, &sights.counts))
}

/// Two boxes of the first head, which wait in their first step until a call is answered. Tells the check of the record's file too.
pub(crate) fn waited<R: Threads + Wait + Sync>(
    telling: &mut Telling<'_, R>,
    viewers: usize,
    lines: &str,
) -> Result<(), Refusal> {
    let alloc = telling.alloc;
    let sights = held(Sights::new(alloc, 0))?;
    let signals = held(Signals::new(alloc, false))?;
    let gated = watching(alloc, 2, &signals, &sights)?;
    let free = watching(alloc, 2, &held(Signals::new(alloc, true))?, &sights)?;
    let boxes = Boxes::at(alloc, gated, free);
    let plan = planned(alloc, viewers, false, signals);
    let played = play_lines(telling, "", boxes, lines, plan)?;
    held(show_seen(telling.text, played.seen.as_slice()))?;
    tell_file(alloc, telling.text, &played.record)?;
    if sights.overran.load(Ordering::SeqCst) {
        return held(telling.text.push_str("; late"));
    }
    Ok(())
}

/// So many attributes; so many sessions, of which each of the first four makes random calls, two if there are three; and a first number
/// for these calls.
#[derive(Clone, Copy)]
struct Chance {
    attributes: u64,
    sessions: usize,
    state: u64,
}

/// Sessions make random calls at once.
fn play_random<R: Threads + Wait + Sync>(
    telling: &mut Telling<'_, R>,
    trial: Trial<'_>,
    chance: Chance,
    boxes: Boxes<Refusing>,
    plan: Plan,
) -> Result<Played, Refusal>
    requires few { length trial.rows.now ≤ MOST_ROWS }
    requires some { 0 < trial.limit }
    requires most { trial.limit ≤ MOST_ROWS }
    requires asks { AsksBelow 8 plan.query }
    ensures { IfOk result (λ p. IsLegal p.record) }
{
    let Chance {
        attributes,
        sessions,
        state,
    } = chance;
    let alloc = telling.alloc;
    let schema = Schema::of(
        alloc,
        TextKey::fixed(),
        &EIGHT[..attributes.min(8) as usize],
    )?;
    let blocks = random_blocks(alloc, &schema, state, attributes, sessions)?;
    let stage = Stage {
        boxes,
        blocks: blocks.as_slice(),
        plan,
    };
    play_told(telling, trial, schema, stage)
}

/// How many attributes, the limit of rows, the boxes, the cells of the budget, and which step of a map is refused. Four sessions
/// make random calls at once.
pub(crate) fn mixed<R: Threads + Wait + Sync>(
    telling: &mut Telling<'_, R>,
    mix: [u64; 5],
    cuts: &str,
) -> Result<(), Refusal> {
    let alloc = telling.alloc;
    let [attributes, limit, many, cells, every] = mix;
    let trial = Trial {
        rows: &ROWS,
        cuts,
        limit: limit.clamp(4, 1000),
    };
    let chance = Chance {
        attributes,
        sessions: 4,
        state: limit ^ (cells << 8) ^ (every << 40) | 1,
    };
    let boxes = Boxes::dealt(alloc, refusing(alloc, many as usize, cells, every)?);
    let plan = planned(alloc, 0, false, held(Signals::new(alloc, true))?);
    let _ = play_random(telling, trial, chance, boxes, plan)?;
    Ok(())
}

/// Two sessions make random calls at once, while boxes come and go on a third thread.
pub(crate) fn among<R: Threads + Wait + Sync>(
    telling: &mut Telling<'_, R>,
    cells: u64,
    every: u64,
    cuts: &str,
) -> Result<(), Refusal> {
    let alloc = telling.alloc;
    let trial = Trial {
        rows: &ROWS,
        cuts,
        limit: 200,
    };
    let chance = Chance {
        attributes: 2,
        sessions: 3,
        state: cells | 1,
    };
    let first = refusing(alloc, 4, cells, every)?;
    let mut boxes = Boxes::at(alloc, first, refusing(alloc, 4, cells, every)?);
    boxes.later = refusing(alloc, 200, cells, every)?;
    let plan = planned(alloc, 0, false, held(Signals::new(alloc, true))?);
    let _ = play_random(telling, trial, chance, boxes, plan)?;
    Ok(())
}

/// Sixteen viewers look twenty times each while four sessions make random calls, each on a thread of its own. Tells what they saw.
pub(crate) fn crowded<R: Threads + Wait + Sync>(
    telling: &mut Telling<'_, R>,
) -> Result<(), Refusal> {
    let alloc = telling.alloc;
    let trial = Trial {
        limit: 200,
        ..TABLE
    };
    let chance = Chance {
        attributes: 4,
        sessions: 4,
        state: 77,
    };
    let boxes = Boxes::dealt(alloc, Vec::new(alloc));
    let plan = planned(alloc, 16, true, held(Signals::new(alloc, true))?);
    let played = play_random(telling, trial, chance, boxes, plan)?;
    let beginnings = held(Beginnings::of(alloc, &ROWS, &played.record))?;
    held(tell_looks(telling.text, played.seen.as_slice(), &beginnings))
}
