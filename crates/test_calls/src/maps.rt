//! The calls of a map.

use crate::areas::removal;
use crate::tapes::packed;
use crate::telling::{TURNS, row, told};
use std::alloc::Global;
use std::io;
use sw_budget::{Budget, Purse};
use sw_map::{CrackerMap, PairMap, Tail};
use sw_rows::{Bound, Refusal};
use sw_tape::{Entry, LoadRows};
use test_maps::replay;

/// What is done to a map.
#[derive(Clone, Copy)]
enum Act {
    Begin(Tail, u64),
    Load,
    Insert(u64),
    Remove(usize),
    Range(i64, i64),
    Grow(u64),
    Clear,
}

/// Tells what is done.
fn tell_act<R: Print>(rt: &R, act: Act) -> io::Result<()> {
    match act {
        Act::Begin(Tail::Key, cells) => println!(rt; "> begin keys {cells}"),
        Act::Begin(Tail::Cell(attr), cells) => println!(rt; "> begin cells {cells} of {attr}"),
        Act::Load => println!(rt; "> step load"),
        Act::Insert(key) => println!(rt; "> step row {key}"),
        Act::Remove(place) => println!(rt; "> step removal {place}"),
        Act::Range(low, high) => println!(rt; "> step range {low} {high}"),
        Act::Grow(cells) => println!(rt; "> grow {cells}"),
        Act::Clear => println!(rt; "> clear"),
    }
}

/// Grows the lease of a map, if it may be grown.
pub(crate) fn grow<M: CrackerMap>(map: &mut M, cells: u64) -> Result<(), Refusal> {
    if map.is_blank() || map.cells() >= cells {
        return Err(Refusal::Input);
    }
    match map.grow(cells) {
        Ok(_) => Ok(()),
        Err(e) => Err(e),
    }
}

/// Does something to a map, if it may be done.
fn act_on<M: CrackerMap>(alloc: Global, map: &mut M, act: Act) -> Result<(), Refusal> {
    match act {
        Act::Begin(tail, cells) => {
            map.clear();
            map.begin(0, tail, cells)
        }
        Act::Load => {
            let rows = packed(alloc)?;
            replay(map, &Entry::Load(LoadRows::of(alloc, rows)))
        }
        Act::Insert(key) => replay(map, &Entry::Insert(row(key, 13, 9))),
        Act::Remove(place) => replay(map, &Entry::Remove(place)),
        Act::Range(low, high) => replay(
            map,
            &Entry::Range(Some(Bound::Before(low)), Some(Bound::After(high))),
        ),
        Act::Grow(cells) => grow(map, cells),
        Act::Clear => {
            map.clear();
            Ok(())
        }
    }
}

/// Tells what is seen of a map.
fn see_map<R: Print, M: CrackerMap>(rt: &R, map: &M, budget: &Budget) -> io::Result<()> {
    print!(rt;
        "= {} used, {} cells, cursor {}:",
        budget.used(),
        map.cells(),
        map.cursor()
    )?;
    for place in 0..map.len() {
        print!(rt; " {}:{}", map.head_at(place), map.tail_at(place))?;
    }
    println!(rt; "")
}

/// Does something to a map, again where it is refused. A growth that is refused leaves the map blank, and is not made again: it
/// answers `false`.
fn act_again<R: Print, M: CrackerMap>(
    rt: &R,
    alloc: Global,
    map: &mut M,
    budget: &Budget,
    act: Act,
) -> io::Result<bool> {
    for _turn in 0..TURNS {
        tell_act(rt, act)?;
        let is_refused = told(rt, act_on(alloc, map, act))?;
        see_map(rt, map, budget)?;
        if !is_refused {
            return Ok(true);
        }
        if let Act::Grow(_) = act {
            return Ok(false);
        }
    }
    Ok(true)
}

/// Steps with every kind of entry, of two tails, so many that marks grow several times, and a growth between them.
const ACTS: [Act; 24] = [
    Act::Begin(Tail::Key, 64),
    Act::Load,
    Act::Range(10, 15),
    Act::Insert(5),
    Act::Remove(1),
    Act::Range(11, 13),
    Act::Range(1, 2),
    Act::Range(12, 20),
    Act::Insert(6),
    Act::Range(3, 4),
    Act::Range(5, 6),
    Act::Grow(128),
    Act::Range(7, 8),
    Act::Remove(0),
    Act::Begin(Tail::Cell(1), 128),
    Act::Load,
    Act::Insert(5),
    Act::Range(10, 15),
    Act::Grow(192),
    Act::Remove(2),
    Act::Range(13, 13),
    Act::Clear,
    Act::Begin(Tail::Key, 64),
    Act::Clear,
];

/// Does all of it; `false` where a growth was refused.
fn act_all<R: Print, M: CrackerMap>(
    rt: &R,
    alloc: Global,
    map: &mut M,
    budget: &Budget,
) -> io::Result<bool> {
    for act in ACTS {
        if !act_again(rt, alloc, map, budget, act)? {
            return Ok(false);
        }
    }
    Ok(true)
}

/// The calls of a map. Where a growth is refused, which leaves it blank, all are made again.
pub(crate) fn map_side<R: Print>(rt: &R, alloc: Global) -> io::Result<()> {
    let Some((budget, purse)) = open_budget(rt, alloc, 1 << 20)? else {
        return Ok(());
    };
    let mut map = PairMap::blank(alloc, purse);
    for _turn in 0..TURNS {
        if act_all(rt, alloc, &mut map, &budget)? {
            return Ok(());
        }
        println!(rt; "> from the first\n= none")?;
    }
    Ok(())
}

/// A budget, and its first purse.
pub(crate) fn open_budget<R: Print>(
    rt: &R,
    alloc: Global,
    cells: u64,
) -> io::Result<Option<(Budget, Purse)>> {
    for _turn in 0..TURNS {
        println!(rt; "> open a budget")?;
        match Budget::open(alloc, cells) {
            Ok(opened) => {
                println!(rt; "done\n= none")?;
                return Ok(Some(opened));
            }
            Err(e) => println!(rt; "refused {e}\n= none")?,
        }
    }
    Ok(None)
}
