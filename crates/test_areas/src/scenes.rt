//! Cases as tables: maps in boxes over a budget, what is done to them or to an area over them, and what has to be seen.

ghost use Rattle.std.specs.Prelude.{◌≡◌, All, IfOk};
ghost use Rattle.sw_map.specs.Held.{blank};

use crate::acts::{Act, act_out};
use crate::moves::{Move, play};
use crate::numbered;
use crate::shapes::{Shape, add, open};
use std::alloc::{AllocError, Global};
use std::sync::Arc;
use std::test::Fail;
use std::thread::Threads;
use sw_budget::{Budget, Purse};
use sw_map::{CrackerMap, PairMap};
use sw_rows::Refusal;
use test_maps::{ContendedMap, CountingMap, Counts, RefusingMap};

/// An area of all values of the attribute a, with no box.
pub(crate) const NO_BOX: Shape = Shape {
    attribute: 0,
    from: None,
    below: None,
    boxes: 0,
};

/// The same with one box.
pub(crate) const ONE_BOX: Shape = Shape {
    attribute: 0,
    from: None,
    below: None,
    boxes: 1,
};

/// The same with three boxes.
pub(crate) const THREE_BOXES: Shape = Shape {
    attribute: 0,
    from: None,
    below: None,
    boxes: 3,
};

/// The same with four boxes.
pub(crate) const FOUR_BOXES: Shape = Shape {
    attribute: 0,
    from: None,
    below: None,
    boxes: 4,
};

/// Four rows of the attributes a, b and c; d and e are 0.
pub(crate) const FOUR_ROWS: [[i64; 8]; 4] = [
    [12, 7, 1, 0, 0, 0, 0, 0],
    [3, 8, 0, 0, 0, 0, 0, 0],
    [12, 5, 1, 0, 0, 0, 0, 0],
    [20, 2, 0, 0, 0, 0, 0, 0],
];

/// What a script is played on: where its memory comes from, and what is looked at beside the area.
#[derive(Clone, Copy)]
pub(crate) struct Stage<'t> {
    pub alloc: Global,
    pub budget: &'t Budget,
    pub counts: &'t Arc<Counts>,
}

/// What the maps of a case do besides: they refuse every n-th step, none where n is 0, and count their calls, or answer
/// `Contended` at every second begin.
#[derive(Clone, Copy)]
pub(crate) struct Trouble {
    pub every: u64,
    pub contends: bool,
}

/// Maps that do as they should.
pub(crate) const NO_TROUBLE: Trouble = Trouble {
    every: 0,
    contends: false,
};

/// What is done, and what has to be seen of it.
#[derive(Clone, Copy)]
pub(crate) enum Script<'t> {
    /// Queries of an area of rows.
    Moves(&'t [[i64; 8]], &'t [(Move<'t>, &'t str)]),
    /// Calls of the maps themselves, by their numbers from 0.
    Acts(&'t [(usize, Act<'t>, &'t str)]),
}

/// A case: its name, the shape of the area, the cells of the budget, the maps, and the script.
#[derive(Clone, Copy)]
pub(crate) struct Case<'t> {
    pub name: &'t str,
    pub shape: Shape,
    pub capacity: u64,
    pub trouble: Trouble,
    pub script: Script<'t>,
}

/// A script, over an area of a shape.
#[derive(Clone, Copy)]
pub(crate) struct Play<'t> {
    pub shape: Shape,
    pub script: Script<'t>,
}

/// Plays a script over boxes. Of the first step that does not show what is expected it tells what it shows; else nothing.
pub(crate) fn play_script<R: Threads + Sync, M: CrackerMap>(
    rt: &R,
    stage: Stage<'_>,
    scene: Play<'_>,
    maps: Vec<M>,
    text: &mut String,
) -> Result<(), Fail>
    requires { All (λ m. M.held m ≡ blank) maps.items }
{
    let (alloc, shape) = (stage.alloc, scene.shape);
    match scene.script {
        Script::Moves(cells, moves) => {
            let rows = numbered(alloc, cells)?;
            let mut area = open(alloc, shape, rows.as_slice(), maps)?;
            play(rt, stage, &mut area, moves, text)
        }
        Script::Acts(acts) => {
            let mut maps = maps;
            Ok(act_out(stage, &mut maps, acts, text)?)
        }
    }
}

/// A box of a map, which refuses every n-th step and counts its calls, over a purse of its own.
pub(crate) fn counting(
    alloc: Global,
    purse: &mut Purse,
    every: u64,
    counts: &Arc<Counts>,
) -> Result<Box<CountingMap<RefusingMap<PairMap>>>, Refusal>
    ensures { IfOk result (λ m. ⟦<CountingMap<RefusingMap<PairMap>> as CrackerMap>⟧.held m.value ≡ blank) }
{
    let mine = purse.split()?;
    let Ok(counts) = Arc::try_clone(counts) else {
        return Err(Refusal::NoMemory);
    };
    let map = RefusingMap::new(PairMap::blank(alloc, mine), every);
    match Box::new(alloc, CountingMap::new(map, counts)) {
        Ok(one) => Ok(one),
        Err(_) => Err(Refusal::NoMemory),
    }
}

/// A box of a map, which refuses every n-th step and finds the budget contended at every second begin, over a purse of its own.
fn contended(
    alloc: Global,
    purse: &mut Purse,
    every: u64,
) -> Result<Box<ContendedMap<RefusingMap<PairMap>>>, Refusal> {
    let mine = purse.split()?;
    let map = RefusingMap::new(PairMap::blank(alloc, mine), every);
    match Box::new(alloc, ContendedMap::new(map)) {
        Ok(one) => Ok(one),
        Err(_) => Err(Refusal::NoMemory),
    }
}

/// These maps, blank and in the opposite order.
fn cleared<M: CrackerMap>(alloc: Global, maps: Vec<M>) -> Result<Vec<M>, Refusal>
    ensures { IfOk result (λ maps. All (λ m. M.held m ≡ blank) maps.items) }
{
    let mut from = maps;
    let mut into: Vec<M> = Vec::new(alloc);
    for _turn in 0..from.len() {
        let Some(map) = from.pop() else {
            return Ok(into);
        };
        let mut map = map;
        map.clear();
        add(&mut into, map)?;
    }
    Ok(into)
}

/// The boxes of a case are made, and its script is played over them.
fn play_boxed<R: Threads + Sync>(
    rt: &R,
    stage: Stage<'_>,
    purse: &mut Purse,
    case: &Case<'_>,
    text: &mut String,
) -> Result<(), Fail> {
    let trouble = case.trouble;
    let mut maps: Vec<Box<dyn CrackerMap>> = Vec::new(stage.alloc);
    for _turn in 0..boxes_of(case) {
        let one: Box<dyn CrackerMap> = if trouble.contends {
            contended(stage.alloc, purse, trouble.every)?
        } else {
            counting(stage.alloc, purse, trouble.every, stage.counts)?
        };
        maps.push(one)?;
    }
    let maps = cleared(stage.alloc, maps)?;
    let scene = Play {
        shape: case.shape,
        script: case.script,
    };
    play_script(rt, stage, scene, maps, text)
}

/// Plays a case over boxes of a budget of its own, all of whose cells have to be there again in the end.
fn play_case<R: Threads + Sync>(
    rt: &R,
    alloc: Global,
    case: &Case<'_>,
    text: &mut String,
) -> Result<(), Fail> {
    let counts = Arc::new(alloc, Counts::none())?;
    let (budget, mut purse) = Budget::open(alloc, case.capacity)?;
    let stage = Stage {
        alloc,
        budget: &budget,
        counts: &counts,
    };
    play_boxed(rt, stage, &mut purse, case, text)?;
    Ok(tell_used(&budget, text)?)
}

/// Tells that cells are in use, where they are.
pub(crate) fn tell_used(budget: &Budget, text: &mut String) -> Result<(), AllocError> {
    if budget.used() == 0 {
        return Ok(());
    }
    text.push_str("; cells are in use after the drop")
}

/// How many boxes a case has: those of the area, or two.
fn boxes_of(case: &Case<'_>) -> usize {
    match case.script {
        Script::Acts(_) => 2,
        _ => case.shape.boxes,
    }
}

/// Plays cases in order, up to the first that does not show what is expected, and tells its name and what it shows.
pub(crate) fn play_cases<R: Threads + Sync>(
    rt: &R,
    alloc: Global,
    cases: &[Case<'_>],
    text: &mut String,
) -> Result<(), Fail> {
    for case in cases {
        play_case(rt, alloc, case, text)?;
        if !text.is_empty() {
            return Ok(write!(text, " in {}", case.name)?);
        }
    }
    Ok(())
}
