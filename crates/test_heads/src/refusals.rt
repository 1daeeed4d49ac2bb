//! Calls that find no memory and are made again: run it with each allocation refused in turn.

use crate::scenes::TWO_AREAS;
use crate::trials::{Stock, Trial, open, replies};
use std::alloc::Global;
use std::thread::Threads;
use sw_budget::Budget;
use sw_lang::parse_known;
use sw_map::{CrackerMap, PairMap};
use sw_rows::Reply;
use sw_set::Area;

/// How often a call is made again.
const TURNS: usize = 3;

/// Calls, and what each counts, the key that it gives, or 1 for a row that goes.
const CALLS: &[(&str, u64)] = &[
    ("count where a >= 10 and a <= 15", 2),
    ("insert 1, 9, 0", 5),
    ("count where a < 10", 2),
    ("delete 2", 1),
    ("count where a >= 10", 3),
    ("delete 3", 1),
    ("insert 20, 9, 0", 6),
    ("delete 1", 1),
    ("insert 1, 9, 0", 7),
    ("count where a >= 10", 2),
    ("count where a < 10", 2),
];

/// Adds the keys below 16 that an area has.
fn add_keys<M: CrackerMap>(area: &Area<M>, held: &mut [bool; 16]) {
    for key in 0..16usize {
        held[key] = held[key] || area.holds(key as u64);
    }
}

/// Which of the keys below 16 a head has, as its areas tell.
fn keys<M: CrackerMap>(trial: &Trial<M>) -> [bool; 16] {
    let mut held = [false; 16];
    for area in trial.head.head().areas() {
        add_keys(area, &mut held);
    }
    held
}

/// What a reply counts, the key that it gives, or 1 for a row that goes.
fn number_of(reply: &Reply) -> u64 {
    match reply {
        Reply::Count(n) => *n,
        Reply::Inserted(key) => *key,
        Reply::Removed => 1,
        _ => 0,
    }
}

/// Whether a call is answered so, and each refusal before left the rows as they were.
fn is_answered<R: Threads + Sync, M: CrackerMap>(
    rt: &R,
    trial: &mut Trial<M>,
    line: &str,
    number: u64,
) -> bool {
    for _turn in 0..TURNS {
        let before = keys(trial);
        if let Ok(Some(call)) = parse_known(trial.alloc, &trial.schema, 1, line) {
            if let Ok((reply, plain)) = replies(rt, trial, &call) {
                return number_of(&reply) == number && number_of(&plain) == number;
            }
        }
        if keys(trial) != before {
            return false;
        }
    }
    false
}

/// The first call that is not answered as it should be; else nothing.
fn first_fault<R: Threads + Sync, M: CrackerMap>(rt: &R, trial: &mut Trial<M>) -> &'static str {
    for (line, number) in CALLS {
        if !is_answered(rt, trial, *line, *number) {
            return *line;
        }
        // some removals find a key map, and some do not
        let _cells = trial.head.evict(*number);
    }
    ""
}

/// The calls over a head of its own; none where what it needs was refused.
fn tried<R: Threads + Sync>(rt: &R, alloc: Global) -> Option<&'static str> {
    let Ok((_budget, mut purse)) = Budget::open(alloc, 1 << 20) else {
        return None;
    };
    let mut maps: Vec<PairMap> = Vec::new(alloc);
    for _turn in 0..2 {
        let Ok(mine) = purse.split() else {
            return None;
        };
        if maps.push(PairMap::blank(alloc, mine)).is_err() {
            return None;
        }
    }
    let stock = Stock {
        alloc,
        maps,
        first: 2,
    };
    match open(stock, TWO_AREAS) {
        Ok(mut trial) => Some(first_fault(rt, &mut trial)),
        Err(_) => None,
    }
}

#[test]
fn refused_calls_are_made_again(rt: HostRuntime) {
    for _turn in 0..TURNS {
        if let Some(line) = tried(&rt, rt.alloc()) {
            assert_eq!(rt; line, "");
            return;
        }
    }
    assert!(rt; false);
}
