//! Maps for trials, over purses of one budget, and what those that wait are told.

use crate::told::held;
use std::alloc::{AllocError, Global};
use std::sync::Arc;
use std::sync::atomic::AtomicBool;
use sw_budget::{Budget, Purse};
use sw_map::PairMap;
use sw_rows::Refusal;
use test_maps::{CountingMap, Counts, Gate, GatedMap, RefusingMap};

/// How often a flag is looked at before the wait for it is given up.
pub(crate) const TURNS: u64 = 1_000_000_000;

/// What those that wait are told: that a call is under way, and that one was answered meanwhile.
#[derive(Drop)]
pub(crate) struct Signals {
    pub begun: Arc<AtomicBool>,
    pub answered: Arc<AtomicBool>,
}

impl Signals {
    /// Signals of which neither or both are given.
    pub(crate) fn new(alloc: Global, given: bool) -> Result<Signals, AllocError> {
        Ok(Signals {
            begun: Arc::new(alloc, AtomicBool::new(given))?,
            answered: Arc::new(alloc, AtomicBool::new(given))?,
        })
    }
}

/// How often maps were called, and whether a wait came to its limit.
#[derive(Drop)]
pub(crate) struct Sights {
    pub counts: Arc<Counts>,
    pub overran: Arc<AtomicBool>,
}

impl Sights {
    /// Nothing so far. Until two threads have met in a look for a bound, each one there waits for another so many turns.
    pub(crate) fn new(alloc: Global, patience: u64) -> Result<Sights, AllocError> {
        Ok(Sights {
            counts: Arc::new(alloc, Counts::meeting(patience))?,
            overran: Arc::new(alloc, AtomicBool::new(false))?,
        })
    }
}

/// A map that refuses every n-th step.
pub(crate) type Refusing = RefusingMap<PairMap>;

/// A map that counts its calls, and whose steps wait.
pub(crate) type Watching = GatedMap<CountingMap<PairMap>>;

/// Adds maps of which each refuses every n-th step.
fn add_refusing(
    alloc: Global,
    purse: &mut Purse,
    maps: &mut Vec<Refusing>,
    many: usize,
    every: u64,
) -> Result<(), Refusal> {
    for _ in 0..many {
        let mine = purse.split()?;
        let map = RefusingMap::new(PairMap::blank(alloc, mine), every);
        held(maps.push(map))?;
    }
    Ok(())
}

/// So many maps over purses of one budget of so many cells, of which each refuses every n-th step, none where n is 0.
pub(crate) fn refusing(
    alloc: Global,
    many: usize,
    cells: u64,
    every: u64,
) -> Result<Vec<Refusing>, Refusal> {
    let (_budget, mut purse) = Budget::open(alloc, cells)?;
    let mut maps = Vec::new(alloc);
    add_refusing(alloc, &mut purse, &mut maps, many, every)?;
    Ok(maps)
}

/// A gate at which `begun` is set, and `answered` is waited for.
fn gate(signals: &Signals, sights: &Sights) -> Result<Gate, AllocError> {
    Ok(Gate {
        reached: Arc::try_clone(&signals.begun)?,
        opened: Arc::try_clone(&signals.answered)?,
        overran: Arc::try_clone(&sights.overran)?,
        limit: TURNS,
    })
}

/// A map that counts its calls with others, and is behind a gate.
fn watched(
    alloc: Global,
    purse: &mut Purse,
    signals: &Signals,
    sights: &Sights,
) -> Result<Watching, Refusal> {
    let mine = purse.split()?;
    let gate = held(gate(signals, sights))?;
    let counts = held(Arc::try_clone(&sights.counts))?;
    let map = CountingMap::new(PairMap::blank(alloc, mine), counts);
    Ok(GatedMap::new(map, gate))
}

/// So many maps that count their calls together, behind one gate.
pub(crate) fn watching(
    alloc: Global,
    many: usize,
    signals: &Signals,
    sights: &Sights,
) -> Result<Vec<Watching>, Refusal> {
    let (_budget, mut purse) = Budget::open(alloc, 1 << 20)?;
    let mut maps = Vec::new(alloc);
    for _ in 0..many {
        let map = watched(alloc, &mut purse, signals, sights)?;
        held(maps.push(map))?;
    }
    Ok(maps)
}

/// Signals that the steps of two maps give one another.
fn crossed_signals(signals: &Signals) -> Result<Signals, AllocError> {
    Ok(Signals {
        begun: Arc::try_clone(&signals.answered)?,
        answered: Arc::try_clone(&signals.begun)?,
    })
}

/// Two maps that count their calls, of which each waits in its first step for that of the other. The first comes last.
pub(crate) fn crossed(
    alloc: Global,
    signals: &Signals,
    sights: &Sights,
) -> Result<Vec<Watching>, Refusal> {
    let (_budget, mut purse) = Budget::open(alloc, 1 << 20)?;
    let other = held(crossed_signals(signals))?;
    let mut maps = Vec::new(alloc);
    let second = watched(alloc, &mut purse, &other, sights)?;
    held(maps.push(second))?;
    let first = watched(alloc, &mut purse, signals, sights)?;
    held(maps.push(first))?;
    Ok(maps)
}
