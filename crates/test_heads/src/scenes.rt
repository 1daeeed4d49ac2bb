//! Scenes: boxes over a budget, a head that is played with them, and what has to be seen.

use crate::mixes::{Mix, mixed};
use crate::steps::{Step, take_all};
use crate::trials::{Shape, Stock, open};
use crate::worked::{Worked, make_calls};
use std::alloc::Global;
use std::sync::Arc;
use std::test::Fail;
use std::thread::Threads;
use sw_budget::{Budget, Purse};
use sw_map::{CrackerMap, PairMap};
use test_maps::{ContendedMap, CountingMap, Counts, RefusingMap};

/// Four rows of the attributes a, b and c.
pub(crate) const FOUR_ROWS: [[i64; 8]; 4] = [
    [12, 7, 1, 0, 0, 0, 0, 0],
    [3, 8, 0, 0, 0, 0, 0, 0],
    [12, 5, 1, 0, 0, 0, 0, 0],
    [20, 2, 0, 0, 0, 0, 0, 0],
];

/// Those rows by a, in one area.
pub(crate) const ONE_AREA: Shape<'static> = Shape {
    header: &["a", "b", "c"],
    attribute: 0,
    cuts: &[],
    cells: &FOUR_ROWS,
};

/// And below 12, and from 12 on.
pub(crate) const TWO_AREAS: Shape<'static> = Shape {
    header: &["a", "b", "c"],
    attribute: 0,
    cuts: &[12],
    cells: &FOUR_ROWS,
};

/// What is looked at beside the head.
#[derive(Clone, Copy)]
pub(crate) struct Watch<'t> {
    pub budget: &'t Budget,
    pub counts: &'t Counts,
}

/// What boxes do besides: they refuse every n-th step, none where n is 0, and count their calls, and never grow in
/// place; or they grow, and refuse every n-th step or growth; or they grow, and find the budget contended at every
/// second begin and growth, or at every second growth alone.
#[derive(Clone, Copy)]
pub(crate) enum Trouble {
    Every(u64),
    Grows(u64),
    Contends,
    GrowthContends,
}

/// Boxes: those that the head has at first, those that may come later, the cells of their budget, and what they do besides.
#[derive(Clone, Copy)]
pub(crate) struct Boxes {
    pub first: usize,
    pub later: usize,
    pub capacity: u64,
    pub trouble: Trouble,
}

impl Boxes {
    /// How many there are.
    fn len(self) -> usize {
        self.first.wrapping_add(self.later)
    }
}

/// A case: its name, what the head is opened with, its boxes, and the steps.
#[derive(Clone, Copy)]
pub(crate) struct Case<'t> {
    pub name: &'t str,
    pub shape: Shape<'t>,
    pub boxes: Boxes,
    pub steps: &'t [(Step<'t>, &'t str)],
}

/// What is played over boxes.
#[derive(Drop)]
pub(crate) enum Scene<'t> {
    /// Steps.
    Case(Case<'t>),
    /// Calls whose replies are known.
    Worked(Worked<'t>),
    /// A mix of calls beside the plain rows.
    Mix(&'t mut Mix),
}

/// Plays a scene over a stock, and tells what is wrong.
fn play_over<R: Threads + Sync, M: CrackerMap>(
    rt: &R,
    stock: Stock<M>,
    watch: Watch<'_>,
    scene: &mut Scene<'_>,
    text: &mut String,
) -> Result<(), Fail> {
    match scene {
        Scene::Case(case) => {
            let mut trial = open(stock, case.shape)?;
            take_all(rt, &mut trial, watch, case.steps, text)
        }
        Scene::Worked(lines) => make_calls(rt, stock, *lines, text),
        Scene::Mix(mix) => mixed(rt, stock, mix, text),
    }
}

/// Maps that refuse every n-th step and count their calls, over purses of one budget.
fn counting(
    alloc: Global,
    purse: &mut Purse,
    boxes: Boxes,
    every: u64,
    counts: &Arc<Counts>,
) -> Result<Stock<CountingMap<RefusingMap<PairMap>>>, Fail> {
    let mut maps = Vec::new(alloc);
    for _turn in 0..boxes.len() {
        let mine = purse.split()?;
        let counts = Arc::try_clone(counts)?;
        let map = RefusingMap::new(PairMap::blank(alloc, mine), every);
        maps.push(CountingMap::new(map, counts))?;
    }
    let first = boxes.first;
    Ok(Stock { alloc, maps, first })
}

/// Maps that refuse every n-th step or growth, over purses of one budget.
fn growing(
    alloc: Global,
    purse: &mut Purse,
    boxes: Boxes,
    every: u64,
) -> Result<Stock<RefusingMap<PairMap>>, Fail> {
    let mut maps = Vec::new(alloc);
    for _turn in 0..boxes.len() {
        let mine = purse.split()?;
        maps.push(RefusingMap::new(PairMap::blank(alloc, mine), every))?;
    }
    let first = boxes.first;
    Ok(Stock { alloc, maps, first })
}

/// Maps that find the budget contended at every second growth, and at every second begin where these contend, over purses of
/// one budget.
fn contended(
    alloc: Global,
    purse: &mut Purse,
    boxes: Boxes,
    begins_contend: bool,
) -> Result<Stock<ContendedMap<PairMap>>, Fail> {
    let mut maps = Vec::new(alloc);
    for _turn in 0..boxes.len() {
        let map = PairMap::blank(alloc, purse.split()?);
        maps.push(if begins_contend {
            ContendedMap::new(map)
        } else {
            ContendedMap::of_growths(map)
        })?;
    }
    let first = boxes.first;
    Ok(Stock { alloc, maps, first })
}

/// Plays a scene over boxes of a budget of its own, all of whose cells have to be there again in the end, and tells
/// what is wrong.
pub(crate) fn play<R: Threads + Sync>(
    rt: &R,
    alloc: Global,
    boxes: Boxes,
    scene: &mut Scene<'_>,
    text: &mut String,
) -> Result<(), Fail> {
    let counts = Arc::new(alloc, Counts::none())?;
    let (budget, mut purse) = Budget::open(alloc, boxes.capacity)?;
    let watch = Watch {
        budget: &budget,
        counts: &counts,
    };
    match boxes.trouble {
        Trouble::Contends | Trouble::GrowthContends => {
            let begins_contend = matches!(boxes.trouble, Trouble::Contends);
            let stock = contended(alloc, &mut purse, boxes, begins_contend)?;
            play_over(rt, stock, watch, scene, text)?;
        }
        Trouble::Grows(every) => {
            let stock = growing(alloc, &mut purse, boxes, every)?;
            play_over(rt, stock, watch, scene, text)?;
        }
        Trouble::Every(every) => {
            let stock = counting(alloc, &mut purse, boxes, every, &counts)?;
            play_over(rt, stock, watch, scene, text)?;
        }
    }
    if budget.used() > 0 {
        text.push_str("; cells are in use after the drop")?;
    }
    Ok(())
}

/// Plays cases in order, up to the first that does not show what is expected, and tells its name and what it shows.
pub(crate) fn play_cases<R: Threads + Sync>(
    rt: &R,
    alloc: Global,
    cases: &[Case<'_>],
    text: &mut String,
) -> Result<(), Fail> {
    for case in cases {
        let mut scene = Scene::Case(*case);
        play(rt, alloc, case.boxes, &mut scene, text)?;
        if !text.is_empty() {
            return Ok(write!(text, " in {}", case.name)?);
        }
    }
    Ok(())
}
