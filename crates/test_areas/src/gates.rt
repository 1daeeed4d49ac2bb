//! Maps that wait for one another while they are stepped: those of one area, and two in two threads.

ghost use Rattle.std.specs.Prelude.{◌≡◌, IfOk};
ghost use Rattle.sw_map.specs.Held.{blank};

use crate::acts::push_pairs;
use crate::moves::{Move, push_place};
use crate::scenes::{
    FOUR_ROWS, Play, Script, Stage, THREE_BOXES, counting, play_script, tell_used,
};
use crate::shapes::add;
use std::alloc::{AllocError, Global};
use std::sync::Arc;
use std::sync::atomic::{AtomicBool, Ordering};
use std::test::Fail;
use std::thread;
use std::thread::Threads;
use sw_budget::{Budget, Purse};
use sw_map::{CrackerMap, PairMap, Tail};
use sw_rows::{Bound, PackedRows, Refusal, Row};
use sw_tape::{Entry, LoadRows};
use test_maps::{CountingMap, Counts, Gate, GatedMap, replay_all};

/// How often a step looks at the other's flag before it gives up.
const TURNS: u64 = 1_000_000_000;

/// The flags of two maps, and the note that a step gave up.
#[derive(Drop)]
struct Flags {
    mine: Arc<AtomicBool>,
    other: Arc<AtomicBool>,
    overran: Arc<AtomicBool>,
}

impl Flags {
    /// All of them unset.
    fn none(alloc: Global) -> Result<Flags, AllocError> {
        Ok(Flags {
            mine: Arc::new(alloc, AtomicBool::new(false))?,
            other: Arc::new(alloc, AtomicBool::new(false))?,
            overran: Arc::new(alloc, AtomicBool::new(false))?,
        })
    }

    /// A gate that sets a map's flag and waits for the other's.
    fn gate(&self, is_other: bool) -> Result<Gate, AllocError> {
        let (reached, opened) = if is_other {
            (&self.other, &self.mine)
        } else {
            (&self.mine, &self.other)
        };
        Ok(Gate {
            reached: Arc::try_clone(reached)?,
            opened: Arc::try_clone(opened)?,
            overran: Arc::try_clone(&self.overran)?,
            limit: TURNS,
        })
    }

    /// Whether each of the maps came to its gate, and none gave up.
    fn have_met(&self) -> bool {
        self.mine.load(Ordering::SeqCst)
            && self.other.load(Ordering::SeqCst)
            && !self.overran.load(Ordering::SeqCst)
    }
}

/// A box of a map behind a gate that counts its calls, over a purse of its own.
fn gated(
    alloc: Global,
    purse: &mut Purse,
    gate: Gate,
    counts: &Arc<Counts>,
) -> Result<Box<CountingMap<GatedMap<PairMap>>>, Refusal>
    ensures { IfOk result (λ m. ⟦<CountingMap<GatedMap<PairMap>> as CrackerMap>⟧.held m.value ≡ blank) }
{
    let mine = purse.split()?;
    let Ok(counts) = Arc::try_clone(counts) else {
        return Err(Refusal::NoMemory);
    };
    let map = GatedMap::new(PairMap::blank(alloc, mine), gate);
    match Box::new(alloc, CountingMap::new(map, counts)) {
        Ok(one) => Ok(one),
        Err(_) => Err(Refusal::NoMemory),
    }
}

/// The counts of the key map, of the map of b and of that of c.
#[derive(Drop)]
struct Three {
    key: Arc<Counts>,
    b: Arc<Counts>,
    c: Arc<Counts>,
}

impl Three {
    /// All of them 0.
    fn none(alloc: Global) -> Result<Three, AllocError> {
        Ok(Three {
            key: Arc::new(alloc, Counts::none())?,
            b: Arc::new(alloc, Counts::none())?,
            c: Arc::new(alloc, Counts::none())?,
        })
    }

    /// Whether each made so many steps.
    fn are_steps(&self, many: u64) -> bool {
        self.key.steps.load(Ordering::SeqCst) == many
            && self.b.steps.load(Ordering::SeqCst) == many
            && self.c.steps.load(Ordering::SeqCst) == many
    }
}

/// A range whose maps are begun at once.
const AT_ONCE: &[(Move<'static>, &str)] = &[
    (
        Move::Answer("select b, c where a >= 10"),
        "1: 7 1, 3: 5 1, 4: 2 0, 3 rows",
    ),
    (Move::Cursor(Tail::Key), "2"),
    (Move::Cursor(Tail::Cell(1)), "2"),
    (Move::Cursor(Tail::Cell(2)), "2"),
];

/// Plays that over a map of the key, and maps of b and c that wait for one another.
fn play_gated<R: Threads + Sync>(
    rt: &R,
    alloc: Global,
    flags: &Flags,
    counts: &Three,
    text: &mut String,
) -> Result<(), Fail> {
    let (budget, mut purse) = Budget::open(alloc, 1 << 20)?;
    let mut maps: Vec<Box<dyn CrackerMap>> = Vec::new(alloc);
    // the area takes the last first, and begins the key map in its first box, then that of b, then that of c
    let c: Box<dyn CrackerMap> = gated(alloc, &mut purse, flags.gate(true)?, &counts.c)?;
    add(&mut maps, c)?;
    let b: Box<dyn CrackerMap> = gated(alloc, &mut purse, flags.gate(false)?, &counts.b)?;
    add(&mut maps, b)?;
    let key: Box<dyn CrackerMap> = counting(alloc, &mut purse, 0, &counts.key)?;
    add(&mut maps, key)?;
    let stage = Stage {
        alloc,
        budget: &budget,
        counts: &counts.key,
    };
    let play = Play {
        shape: THREE_BOXES,
        script: Script::Moves(&FOUR_ROWS, AT_ONCE),
    };
    play_script(rt, stage, play, maps, text)
}

#[test]
fn maps_are_aligned_at_once(rt: HostRuntime) -> Result<(), Fail> {
    let alloc = rt.alloc();
    let mut text = String::new(alloc);
    let flags = Flags::none(alloc)?;
    let counts = Three::none(alloc)?;
    play_gated(&rt, alloc, &flags, &counts, &mut text)?;
    assert_eq!(rt; text.as_str(), "");
    assert!(rt; flags.have_met() && counts.are_steps(2));
    Ok(())
}

/// The load of the four rows.
fn four_rows(alloc: Global) -> Result<Entry, AllocError> {
    let mut rows = PackedRows::new(alloc, 3);
    for place in 0..FOUR_ROWS.len() {
        let cells = FOUR_ROWS[place];
        let key = place as u64 + 1;
        rows.add(&Row { key, cells })?;
    }
    Ok(Entry::Load(LoadRows::of(alloc, rows)))
}

/// A boxed map of some rows, cracked once, and how many pairs stand before 10.
fn replayed(map: Box<dyn CrackerMap>, load: Entry) -> (Box<dyn CrackerMap>, Option<usize>) {
    let mut map = map;
    let range = Entry::Range(Some(Bound::Before(10)), Some(Bound::After(15)));
    if replay_all(&mut map, &[load, range]).is_err() {
        return (map, None);
    }
    let place = map.find(Bound::Before(10));
    (map, place)
}

/// A gated map that is begun.
fn begun(
    alloc: Global,
    purse: &mut Purse,
    gate: Gate,
    tail: Tail,
    counts: &Arc<Counts>,
) -> Result<Box<CountingMap<GatedMap<PairMap>>>, Refusal> {
    let mut map = gated(alloc, purse, gate, counts)?;
    match map.begin(0, tail, 64) {
        Ok(()) => Ok(map),
        Err(e) => Err(e),
    }
}

/// Tells a place and what a map shows.
fn push_map<M: CrackerMap>(
    map: &M,
    place: Option<usize>,
    text: &mut String,
) -> Result<(), AllocError> {
    push_place(text, place)?;
    text.push_str("; ")?;
    push_pairs(map, text)?;
    text.push_str("; ")
}

/// Steps two maps that wait for one another in two threads, and tells what they show. All cells of their budget have to be there
/// again in the end.
fn meet<R: Threads + Sync>(
    rt: &R,
    alloc: Global,
    flags: &Flags,
    counts: &Three,
    text: &mut String,
) -> Result<(), Fail> {
    let (budget, mut purse) = Budget::open(alloc, 128)?;
    let here = four_rows(alloc)?;
    let there = four_rows(alloc)?;
    let (mine, other) = (flags.gate(false)?, flags.gate(true)?);
    let one: Box<dyn CrackerMap> = begun(alloc, &mut purse, mine, Tail::Key, &counts.key)?;
    let two: Box<dyn CrackerMap> = begun(alloc, &mut purse, other, Tail::Cell(1), &counts.b)?;
    let thread = thread::spawn(rt, move || replayed(one, there))?;
    let (two, second) = replayed(two, here);
    let (one, first) = thread.join(rt);
    push_map(&one, first, text)?;
    push_map(&two, second, text)?;
    write!(text, "{} in use", budget.used())?;
    drop((one, two));
    Ok(tell_used(&budget, text)?)
}

#[test]
fn gated_boxes_meet_in_two_threads(rt: HostRuntime) -> Result<(), Fail> {
    let alloc = rt.alloc();
    let mut text = String::new(alloc);
    let flags = Flags::none(alloc)?;
    let counts = Three::none(alloc)?;
    meet(&rt, alloc, &flags, &counts, &mut text)?;
    assert_eq!(rt;
        text.as_str(),
        "1; 3:2 12:1 12:3 20:4; 1; 3:8 12:7 12:5 20:2; 128 in use"
    );
    assert!(rt; flags.have_met());
    Ok(())
}
