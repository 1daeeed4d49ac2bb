//! Mixes of updates and queries on many heads, beside the plain answer.

use crate::lines::{Lines, NAMES};
use crate::scenes::{Boxes, Scene, Trouble, play};
use crate::steps::merge;
use crate::trials::{Shape, Stock, Trial, open, supply, tell};
use std::alloc::{AllocError, Global};
use std::test::Fail;
use std::thread::Threads;
use sw_map::CrackerMap;

/// How many areas have to be scanned in a mix.
#[derive(Clone, Copy)]
enum Scanned {
    /// Some, or none.
    Any,
    /// Some.
    Some,
    /// Some where there are no boxes or no cells.
    WhereAllLack,
    /// Some where there are no boxes or no cells, and none with five boxes and 4,096 cells.
    JustWhereSomeLack,
}

/// What a mix is made of: how many rows come and how many go among ten calls, in how many of them all rows go that meet
/// conditions, how many rows there may be at first, whether boxes come and go, and how many calls there are.
#[derive(Clone, Copy)]
struct Recipe {
    come: u32,
    go: u32,
    many_go: u32,
    rows: u32,
    boxes_go: bool,
    calls: u64,
    scanned: Scanned,
}

/// Queries alone.
const QUERIES: Recipe = Recipe {
    come: 0,
    go: 0,
    many_go: 0,
    rows: 120,
    boxes_go: false,
    calls: 80,
    scanned: Scanned::Some,
};

/// Three rows come and two go, beside five queries.
const MORE_COME: Recipe = Recipe {
    come: 3,
    go: 2,
    many_go: 0,
    rows: 80,
    boxes_go: true,
    calls: 120,
    scanned: Scanned::Some,
};

/// Rows come and none goes, so that leases grow again and again.
const ROWS_COME: Recipe = Recipe {
    come: 5,
    go: 0,
    many_go: 0,
    rows: 60,
    boxes_go: false,
    calls: 150,
    scanned: Scanned::Any,
};

/// All rows go that meet conditions, in one of ten calls, of many rows at first.
const MANY_GO: Recipe = Recipe {
    come: 3,
    go: 1,
    many_go: 1,
    rows: 600,
    boxes_go: true,
    calls: 60,
    scanned: Scanned::Any,
};

/// Budgets of no cells, of some maps' cells, and of enough for all maps of one area.
const CAPACITIES: &[u64] = &[0, 128, 320, 448, 4096];

/// Boxes that refuse no step.
const NO_TROUBLE: &[Trouble] = &[Trouble::Every(0)];

/// Boxes that refuse every step, every second, and so on up to every fifth.
const REFUSING: &[Trouble] = &[
    Trouble::Every(1),
    Trouble::Every(2),
    Trouble::Every(3),
    Trouble::Every(4),
    Trouble::Every(5),
];

/// Boxes that grow: never refused but for cells, refused memory at every third step or growth and at every seventh, and
/// contended.
const GROWING: &[Trouble] = &[
    Trouble::Grows(0),
    Trouble::Grows(3),
    Trouble::Grows(7),
    Trouble::Contends,
];

/// Mixes of a recipe: one for each of these troubles, capacities and numbers of boxes, with up to so many cuts, by
/// lines of a seed.
#[derive(Clone, Copy)]
struct Group<'t> {
    seed: u64,
    recipe: Recipe,
    cuts: u32,
    troubles: &'t [Trouble],
    capacities: &'t [u64],
    boxes: &'t [usize],
}

/// Heads without cuts under queries, then with cuts; the same under updates.
const OF_CALLS: &[Group<'static>] = &[
    Group {
        seed: 1,
        recipe: Recipe {
            scanned: Scanned::JustWhereSomeLack,
            ..QUERIES
        },
        cuts: 0,
        troubles: NO_TROUBLE,
        capacities: CAPACITIES,
        boxes: &[0, 1, 2, 3, 4, 5],
    },
    Group {
        seed: 2,
        recipe: Recipe {
            scanned: Scanned::WhereAllLack,
            ..QUERIES
        },
        cuts: 15,
        troubles: NO_TROUBLE,
        capacities: CAPACITIES,
        boxes: &[0, 5, 20, 80],
    },
    Group {
        seed: 11,
        recipe: Recipe {
            scanned: Scanned::WhereAllLack,
            ..MORE_COME
        },
        cuts: 0,
        troubles: NO_TROUBLE,
        capacities: CAPACITIES,
        boxes: &[0, 1, 2, 3, 4, 5, 6],
    },
    Group {
        seed: 12,
        recipe: Recipe {
            scanned: Scanned::WhereAllLack,
            ..MORE_COME
        },
        cuts: 15,
        troubles: NO_TROUBLE,
        capacities: CAPACITIES,
        boxes: &[0, 5, 20, 80],
    },
];

/// Heads of which steps are refused, of which begins find the budget contended, and of which leases grow.
const OF_REFUSED_CALLS: &[Group<'static>] = &[
    Group {
        seed: 21,
        recipe: QUERIES,
        cuts: 15,
        troubles: REFUSING,
        capacities: CAPACITIES,
        boxes: &[5],
    },
    Group {
        seed: 22,
        recipe: MORE_COME,
        cuts: 0,
        troubles: REFUSING,
        capacities: CAPACITIES,
        boxes: &[6],
    },
    Group {
        seed: 23,
        recipe: MORE_COME,
        cuts: 15,
        troubles: REFUSING,
        capacities: CAPACITIES,
        boxes: &[40],
    },
    Group {
        seed: 24,
        recipe: MORE_COME,
        cuts: 15,
        troubles: &[Trouble::Contends],
        capacities: CAPACITIES,
        boxes: &[1, 4, 40],
    },
    Group {
        seed: 25,
        recipe: ROWS_COME,
        cuts: 1,
        troubles: GROWING,
        capacities: &[448, 1024, 4096],
        boxes: &[4, 12],
    },
];

/// Heads whose tapes fill again and again: as many rows go as come.
const OF_FULL_TAPES: &[Group<'static>] = &[Group {
    seed: 31,
    recipe: Recipe {
        come: 4,
        go: 4,
        many_go: 0,
        rows: 80,
        boxes_go: false,
        calls: 12_000,
        scanned: Scanned::Any,
    },
    cuts: 1,
    troubles: NO_TROUBLE,
    capacities: &[1 << 20],
    boxes: &[6],
}];

/// Heads of which many rows go at once: more than are merged one by one, and fewer.
const OF_MANY_THAT_GO: &[Group<'static>] = &[
    Group {
        seed: 41,
        recipe: MANY_GO,
        cuts: 0,
        troubles: NO_TROUBLE,
        capacities: CAPACITIES,
        boxes: &[0, 1, 3, 6],
    },
    Group {
        seed: 42,
        recipe: MANY_GO,
        cuts: 3,
        troubles: REFUSING,
        capacities: CAPACITIES,
        boxes: &[12],
    },
    Group {
        seed: 43,
        recipe: MANY_GO,
        cuts: 15,
        troubles: GROWING,
        capacities: &[448, 4096],
        boxes: &[5, 40],
    },
];

/// A mix that is made: where its memory comes from, its recipe, its lines, up to how many cuts there are, and how many areas were
/// scanned.
#[derive(Drop)]
pub(crate) struct Mix {
    alloc: Global,
    recipe: Recipe,
    lines: Lines,
    cuts: u32,
    scans: usize,
}

/// The attribute of a head.
fn head_of<M: CrackerMap>(trial: &Trial<M>) -> usize {
    usize::from(trial.head.head().attribute())
}

/// The key of one of the rows that there are, or rarely another.
fn some_key<M: CrackerMap>(trial: &Trial<M>, lines: &mut Lines) -> u64 {
    let many = trial.rows.len();
    let key = u64::from(lines.roll(64));
    if many == 0 || lines.is_one_in(8) {
        return key;
    }
    trial.rows[lines.roll(1 << 30) as usize % many].key
}

/// A call of a mix.
fn push_call<M: CrackerMap>(
    trial: &Trial<M>,
    mix: &mut Mix,
    line: &mut String,
) -> Result<(), AllocError> {
    let kind = mix.lines.roll(10);
    if kind < mix.recipe.come {
        mix.lines.push_row(line)
    } else if kind - mix.recipe.come < mix.recipe.go {
        write!(line, "delete {}", some_key(trial, &mut mix.lines))
    } else if kind - mix.recipe.come - mix.recipe.go < mix.recipe.many_go {
        mix.lines.push_deletion(line)
    } else {
        mix.lines.push_query(head_of(trial), line)
    }
}

/// Rarely clears maps, merges, or lets boxes come and go.
fn tend<M: CrackerMap>(trial: &mut Trial<M>, mix: &mut Mix) -> Result<(), Fail> {
    match mix.lines.roll(24) {
        0 => {
            let _cells = trial.head.evict(u64::from(mix.lines.roll(400)));
        }
        1 => {
            let mut line = String::new(trial.alloc);
            mix.lines.push_query(head_of(trial), &mut line)?;
            merge(trial, line.as_str())?;
        }
        2 if mix.recipe.boxes_go => {
            let _gone = trial.head.shed(mix.lines.roll(3) as usize);
        }
        3 if mix.recipe.boxes_go => supply(trial)?,
        _ => {}
    }
    Ok(())
}

/// Makes the call of a line, and rarely does something besides. Tells what is wrong.
fn call<R: Threads + Sync, M: CrackerMap>(
    rt: &R,
    trial: &mut Trial<M>,
    mix: &mut Mix,
    line: &str,
    text: &mut String,
) -> Result<(), Fail> {
    if !tell(rt, trial, line, text)? {
        return Ok(write!(text, " to {line}")?);
    }
    text.clear();
    tend(trial, mix)
}

/// Makes the calls of a mix, up to the first with which something is wrong.
fn call_all<R: Threads + Sync, M: CrackerMap>(
    rt: &R,
    trial: &mut Trial<M>,
    mix: &mut Mix,
    text: &mut String,
) -> Result<(), Fail> {
    let mut line = String::new(trial.alloc);
    for number in 0..mix.recipe.calls {
        line.clear();
        push_call(trial, mix, &mut line)?;
        call(rt, trial, mix, line.as_str(), text)?;
        if !text.is_empty() {
            return Ok(write!(text, " at call {number}")?);
        }
    }
    Ok(())
}

/// The cells of the rows that there are at first.
fn cells_for(mix: &mut Mix) -> Result<Vec<[i64; 8]>, AllocError> {
    let mut cells = Vec::new(mix.alloc);
    for _turn in 0..mix.lines.roll(mix.recipe.rows) {
        cells.push(mix.lines.cells())?;
    }
    Ok(cells)
}

/// Makes a mix over this stock, and tells what is wrong.
pub(crate) fn mixed<R: Threads + Sync, M: CrackerMap>(
    rt: &R,
    stock: Stock<M>,
    mix: &mut Mix,
    text: &mut String,
) -> Result<(), Fail> {
    let cells = cells_for(mix)?;
    let cuts = mix.lines.cuts(mix.alloc, mix.cuts)?;
    let shape = Shape {
        header: &NAMES,
        attribute: u8::try_from(mix.lines.roll(5)).unwrap_or(0),
        cuts: cuts.as_slice(),
        cells: cells.as_slice(),
    };
    let mut trial = open(stock, shape)?;
    let made = call_all(rt, &mut trial, mix, text);
    mix.scans = trial.scans;
    made
}

/// Whether so many areas may have been scanned in a mix.
fn may_scan(mix: &Mix, boxes: usize, capacity: u64) -> bool {
    let some = mix.scans > 0;
    match mix.recipe.scanned {
        Scanned::Any => true,
        Scanned::Some => some,
        Scanned::WhereAllLack => some || (boxes > 0 && capacity > 0),
        Scanned::JustWhereSomeLack if some => boxes < 5 || capacity < 4096,
        Scanned::JustWhereSomeLack => boxes > 0 && capacity > 0,
    }
}

/// Makes a mix over boxes of its own, and tells what is wrong.
fn mix_over<R: Threads + Sync>(
    rt: &R,
    mix: &mut Mix,
    boxes: Boxes,
    text: &mut String,
) -> Result<(), Fail> {
    let alloc = mix.alloc;
    let mut scene = Scene::Mix(&mut *mix);
    play(rt, alloc, boxes, &mut scene, text)?;
    if !may_scan(mix, boxes.first, boxes.capacity) {
        write!(text, "{} areas were scanned", mix.scans)?;
    }
    if !text.is_empty() {
        write!(text, " of {} boxes, {} cells", boxes.first, boxes.capacity)?;
    }
    Ok(())
}

/// Makes mixes over boxes of one kind, of which each of these numbers is there at first, up to the first mix with which
/// something is wrong.
fn mixes_by_number<R: Threads + Sync>(
    rt: &R,
    mix: &mut Mix,
    numbers: &[usize],
    kind: Boxes,
    text: &mut String,
) -> Result<(), Fail> {
    for first in numbers {
        if text.is_empty() {
            let boxes = Boxes {
                first: *first,
                ..kind
            };
            mix_over(rt, mix, boxes, text)?;
        }
    }
    Ok(())
}

/// Makes the mixes of a group over boxes with one trouble, up to the first with which something is wrong.
fn mixes_over<R: Threads + Sync>(
    rt: &R,
    mix: &mut Mix,
    group: &Group<'_>,
    trouble: Trouble,
    text: &mut String,
) -> Result<(), Fail> {
    for capacity in group.capacities {
        let kind = Boxes {
            first: 0,
            later: 8,
            capacity: *capacity,
            trouble,
        };
        mixes_by_number(rt, mix, group.boxes, kind, text)?;
    }
    Ok(())
}

/// Makes the mixes of a group, up to the first with which something is wrong.
fn mix_group<R: Threads + Sync>(
    rt: &R,
    alloc: Global,
    group: &Group<'_>,
    text: &mut String,
) -> Result<(), Fail> {
    let mut mix = Mix {
        alloc,
        recipe: group.recipe,
        lines: Lines::new(group.seed),
        cuts: group.cuts,
        scans: 0,
    };
    for trouble in group.troubles {
        mixes_over(rt, &mut mix, group, *trouble, text)?;
    }
    Ok(())
}

/// Makes the mixes of groups, up to the first with which something is wrong.
fn mix_all<R: Threads + Sync>(
    rt: &R,
    alloc: Global,
    groups: &[Group<'_>],
    text: &mut String,
) -> Result<(), Fail> {
    for group in groups {
        mix_group(rt, alloc, group, text)?;
    }
    Ok(())
}

#[test]
fn calls_are_answered_as_the_rows_do(rt: HostRuntime) -> Result<(), Fail> {
    let mut text = String::new(rt.alloc());
    mix_all(&rt, rt.alloc(), OF_CALLS, &mut text)?;
    assert_eq!(rt; text.as_str(), "");
    Ok(())
}

#[test]
fn refused_steps_and_begins_leave_the_replies(rt: HostRuntime) -> Result<(), Fail> {
    let mut text = String::new(rt.alloc());
    mix_all(&rt, rt.alloc(), OF_REFUSED_CALLS, &mut text)?;
    assert_eq!(rt; text.as_str(), "");
    Ok(())
}

#[test]
fn tapes_that_fill_again_and_again_leave_the_replies(rt: HostRuntime) -> Result<(), Fail> {
    let mut text = String::new(rt.alloc());
    mix_all(&rt, rt.alloc(), OF_FULL_TAPES, &mut text)?;
    assert_eq!(rt; text.as_str(), "");
    Ok(())
}

#[test]
fn many_rows_that_go_leave_the_replies(rt: HostRuntime) -> Result<(), Fail> {
    let mut text = String::new(rt.alloc());
    mix_all(&rt, rt.alloc(), OF_MANY_THAT_GO, &mut text)?;
    assert_eq!(rt; text.as_str(), "");
    Ok(())
}
