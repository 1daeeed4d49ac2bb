//! Leases that grow while another thread takes cells of the same budget and gives them back.

use crate::cases::rising;
use crate::noted::{NotedMap, Notes};
use crate::steps::called;
use crate::trials::{Shape, Stock, Trial, open};
use std::alloc::Global;
use std::sync::Arc;
use std::sync::atomic::{AtomicBool, AtomicU64, Ordering};
use std::test::Fail;
use std::thread;
use std::thread::Threads;
use sw_budget::{Budget, Purse};
use sw_map::{CrackerMap, PairMap, Tail};
use sw_rows::Refusal;

/// More cells than both threads ever want.
const CAPACITY: u64 = 1 << 20;

/// How often a map grows at most until the budget is contended: with two processors a few times are enough.
const MOST_MAPS: usize = 20_000_000;

/// How often a head grows at most, and after how many growths that found the budget contended it is enough.
const MOST_HEADS: usize = 2_000;

const ENOUGH: u64 = 20;

/// Takes cells and gives them back.
fn pressed(purse: Purse) -> Purse {
    match purse.lease(64) {
        Ok(lease) => lease.give_back(),
        Err((back, _refusal)) => back,
    }
}

/// Takes cells and gives them back again and again, until it is told to end.
fn press(purse: Purse, is_over: Arc<AtomicBool>) {
    let mut purse = purse;
    for _turn in 0..u64::MAX {
        if is_over.load(Ordering::SeqCst) {
            return;
        }
        purse = pressed(purse);
    }
}

/// What came of a growth.
#[derive(Clone, Copy, Debug, PartialEq, Eq)]
enum Growth {
    /// The map has the cells; or it was not begun.
    Grew,
    /// The budget was contended, and the map is blank.
    Contended,
    /// Anything else.
    Wrong,
}

/// Lets a map grow.
fn grown(alloc: Global, purse: Purse) -> Growth {
    let mut map = PairMap::blank(alloc, purse);
    if map.begin(0, Tail::Key, 64).is_err() {
        return Growth::Grew;
    }
    match map.grow(128) {
        Ok(true) if map.cells() == 128 => Growth::Grew,
        Err(Refusal::Contended { seen, found }) if seen != found && map.is_blank() => {
            Growth::Contended
        }
        _ => Growth::Wrong,
    }
}

/// Lets maps grow until one does not.
fn grown_until(alloc: Global, purse: &mut Purse) -> Growth {
    for _turn in 0..MOST_MAPS {
        let Ok(mine) = purse.split() else {
            return Growth::Wrong;
        };
        let growth = grown(alloc, mine);
        if growth != Growth::Grew {
            return growth;
        }
    }
    Growth::Grew
}

/// What notes have, which are 0 again: begins, growths, and growths that found the budget contended.
fn taken(notes: &Notes) -> (u64, u64, u64) {
    let take = |count: &AtomicU64| count.swap(0, Ordering::SeqCst);
    (
        take(&notes.begins),
        take(&notes.growths),
        take(&notes.contended),
    )
}

/// Lets a head of 60 rows make a map, and five rows come, for which it has to grow. Where that finds the budget contended
/// the area is scanned, and its map is not begun again. Tells whether it did, if all was so.
fn trial_grown<R: Threads + Sync>(
    rt: &R,
    trial: &mut Trial<NotedMap<PairMap>>,
    notes: &Notes,
    text: &mut String,
) -> Result<Option<bool>, Fail> {
    called(rt, trial, "count", text)?;
    let is_begun = text.as_str() == "60\n";
    for _turn in 0..5 {
        called(rt, trial, "insert 1", text)?;
    }
    let _before = taken(notes);
    called(rt, trial, "count", text)?;
    let told = taken(notes);
    Ok(match told {
        _ if !is_begun => Some(false),
        (0, 1, 0) if text.as_str() == "65\n" => Some(false),
        (0, 1, 1) if text.as_str() == "65\n1 scanned" => Some(true),
        _ => None,
    })
}

/// The same of a head of these cells over this stock.
fn head_grown<R: Threads + Sync>(
    rt: &R,
    stock: Stock<NotedMap<PairMap>>,
    cells: &[[i64; 8]],
    notes: &Notes,
    text: &mut String,
) -> Result<Option<bool>, Fail> {
    let shape = Shape {
        header: &["a"],
        attribute: 0,
        cuts: &[],
        cells,
    };
    let mut trial = open(stock, shape)?;
    trial_grown(rt, &mut trial, notes, text)
}

/// A stock of one map that notes its calls, over a purse of its own.
fn noted(
    alloc: Global,
    purse: &mut Purse,
    notes: &Arc<Notes>,
) -> Result<Stock<NotedMap<PairMap>>, Fail> {
    let mut maps = Vec::new(alloc);
    maps.push(NotedMap {
        inner: PairMap::blank(alloc, purse.split()?),
        notes: Arc::try_clone(notes)?,
    })?;
    Ok(Stock {
        alloc,
        maps,
        first: 1,
    })
}

/// Lets heads grow until the budget was contended often enough, and tells whether all was as it should be.
fn heads_grown<R: Threads + Sync>(
    rt: &R,
    alloc: Global,
    purse: &mut Purse,
    text: &mut String,
) -> Result<bool, Fail> {
    let cells = rising(alloc, 60)?;
    let notes = Arc::new(alloc, Notes::none())?;
    let mut contended = 0u64;
    for _turn in 0..MOST_HEADS {
        let stock = noted(alloc, purse, &notes)?;
        match head_grown(rt, stock, cells.as_slice(), &notes, text)? {
            Some(is_contended) => contended = contended.wrapping_add(u64::from(is_contended)),
            None => return Ok(false),
        }
        if contended == ENOUGH {
            return Ok(true);
        }
    }
    Ok(true)
}

#[test]
fn a_growing_map_and_growing_heads_meet_another_thread(rt: HostRuntime) -> Result<(), Fail> {
    let mut text = String::new(rt.alloc());
    let (budget, mut purse) = Budget::open(rt.alloc(), CAPACITY)?;
    let is_over = Arc::new(rt.alloc(), AtomicBool::new(false))?;
    let told = Arc::try_clone(&is_over)?;
    let other = purse.split()?;
    let thread = thread::spawn(&rt, move || press(other, told))?;
    let growth = grown_until(rt.alloc(), &mut purse);
    let right = heads_grown(&rt, rt.alloc(), &mut purse, &mut text);
    is_over.store(true, Ordering::SeqCst);
    thread.join(&rt);
    assert_eq!(rt; growth, Growth::Contended);
    assert!(rt; right?, "{}", text);
    assert!(rt; budget.used() == 0);
    Ok(())
}
