//! Maps in boxes, stepped through tapes whose outcome is known.

use crate::acts::Act;
use crate::scenes::{Case, NO_BOX, NO_TROUBLE, Script, Trouble, play_cases};
use std::test::Fail;
use sw_map::Tail;
use sw_rows::{Bound, Row};

const B: Tail = Tail::Cell(1);

const C: Tail = Tail::Cell(2);

const TEN: Bound = Bound::Before(10);

const FIFTEEN: Bound = Bound::After(15);

/// From 10 up to 15, both included.
const RANGE: Act<'static> = Act::Range(Some(TEN), Some(FIFTEEN));

/// Four rows of three attributes.
const FOUR: Act<'static> = Act::Load(&[
    Row {
        key: 1,
        cells: [12, 7, 1, 0, 0, 0, 0, 0],
    },
    Row {
        key: 2,
        cells: [3, 8, 0, 0, 0, 0, 0, 0],
    },
    Row {
        key: 3,
        cells: [12, 5, 1, 0, 0, 0, 0, 0],
    },
    Row {
        key: 4,
        cells: [20, 2, 0, 0, 0, 0, 0, 0],
    },
]);

/// Three rows of one cell.
const FIVES: Act<'static> = Act::Load(&[
    Row {
        key: 1,
        cells: [5, 0, 0, 0, 0, 0, 0, 0],
    },
    Row {
        key: 2,
        cells: [5, 0, 0, 0, 0, 0, 0, 0],
    },
    Row {
        key: 3,
        cells: [5, 0, 0, 0, 0, 0, 0, 0],
    },
]);

/// The insertion of a row of two cells.
const ONE_AND_NINE: Act<'static> = Act::Insert(Row {
    key: 5,
    cells: [1, 9, 0, 0, 0, 0, 0, 0],
});

const THIRTEEN_AND_NINE: Act<'static> = Act::Insert(Row {
    key: 5,
    cells: [13, 9, 0, 0, 0, 0, 0, 0],
});

const SEVEN: Act<'static> = Act::Insert(Row {
    key: 4,
    cells: [7, 0, 0, 0, 0, 0, 0, 0],
});

const FOUR_ALONE: Act<'static> = Act::Insert(Row {
    key: 5,
    cells: [4, 0, 0, 0, 0, 0, 0, 0],
});

/// The insertion of a row whose key fits no cell.
const NO_KEY: Act<'static> = Act::Insert(Row {
    key: u64::MAX,
    cells: [0, 0, 0, 0, 0, 0, 0, 0],
});

/// A range parts the rows of two maps alike, and of one that is made later.
const A_RANGE_PARTS_THE_ROWS: &[(usize, Act<'static>, &str)] = &[
    (0, Act::Begin(0, Tail::Key, 64), ""),
    (1, Act::Begin(0, B, 64), ""),
    (0, FOUR, ""),
    (0, RANGE, ""),
    (1, FOUR, ""),
    (1, RANGE, ""),
    (0, Act::Shown, "3:2 12:1 12:3 20:4"),
    (1, Act::Shown, "3:8 12:7 12:5 20:2"),
    (0, Act::Place(TEN), "1"),
    (0, Act::Place(FIFTEEN), "3"),
    (1, Act::Place(TEN), "1"),
    (1, Act::Place(FIFTEEN), "3"),
    (0, Act::Place(Bound::After(10)), "none"),
    (0, Act::Place(Bound::Before(15)), "none"),
    (0, Act::Cursor, "2"),
    (0, Act::Is(0, Tail::Key, 64), "true"),
    (1, Act::Is(0, B, 64), "true"),
    // a tail made later replays the same tape
    (0, Act::Clear, ""),
    (0, Act::Begin(0, C, 64), ""),
    (0, FOUR, ""),
    (0, RANGE, ""),
    (0, Act::Shown, "3:0 12:1 12:1 20:0"),
];

/// Rows come before and after the range, and go from before it and from within.
const ROWS_COME_AND_GO: &[(usize, Act<'static>, &str)] = &[
    (0, Act::Begin(0, Tail::Key, 64), ""),
    (0, FOUR, ""),
    (0, RANGE, ""),
    (0, ONE_AND_NINE, ""),
    (0, Act::Cursor, "3"),
    (0, Act::Shown, "3:2 1:5 12:3 12:1 20:4"),
    (0, Act::Place(TEN), "2"),
    (0, Act::Place(FIFTEEN), "4"),
    (0, Act::Begin(0, Tail::Key, 64), ""),
    (0, FOUR, ""),
    (0, RANGE, ""),
    (0, THIRTEEN_AND_NINE, ""),
    (0, Act::Cursor, "3"),
    (0, Act::Shown, "3:2 12:1 12:3 13:5 20:4"),
    (0, Act::Place(TEN), "1"),
    (0, Act::Place(FIFTEEN), "4"),
    (0, Act::Begin(0, Tail::Key, 64), ""),
    (0, FOUR, ""),
    (0, RANGE, ""),
    (0, Act::Remove(0), ""),
    (0, Act::Cursor, "3"),
    (0, Act::Shown, "12:3 12:1 20:4"),
    (0, Act::Place(TEN), "0"),
    (0, Act::Place(FIFTEEN), "2"),
    (0, Act::Begin(0, Tail::Key, 64), ""),
    (0, FOUR, ""),
    (0, RANGE, ""),
    (0, Act::Remove(1), ""),
    (0, Act::Cursor, "3"),
    (0, Act::Shown, "3:2 12:3 20:4"),
    (0, Act::Place(TEN), "1"),
    (0, Act::Place(FIFTEEN), "2"),
];

/// Equal cells, and the least and the greatest bound.
const EQUAL_CELLS_AND_THE_ENDS: &[(usize, Act<'static>, &str)] = &[
    (0, Act::Begin(0, Tail::Key, 64), ""),
    (0, FIVES, ""),
    (
        0,
        Act::Range(Some(Bound::Before(5)), Some(Bound::After(5))),
        "",
    ),
    (0, Act::Shown, "5:1 5:2 5:3"),
    (0, Act::Place(Bound::Before(5)), "0"),
    (0, Act::Place(Bound::After(5)), "3"),
    (0, SEVEN, ""),
    (0, FOUR_ALONE, ""),
    (0, Act::Shown, "4:5 5:2 5:3 5:1 7:4"),
    (0, Act::Place(Bound::Before(5)), "1"),
    (0, Act::Place(Bound::After(5)), "4"),
    (0, Act::Clear, ""),
    (0, Act::Begin(0, Tail::Key, 64), ""),
    (0, FOUR, ""),
    (
        0,
        Act::Range(Some(Bound::Before(i64::MIN)), Some(Bound::After(i64::MAX))),
        "",
    ),
    (0, Act::Shown, "12:1 3:2 12:3 20:4"),
    (0, Act::Place(Bound::Before(i64::MIN)), "0"),
    (0, Act::Place(Bound::After(i64::MAX)), "4"),
];

/// Leases come back, by `clear` and by the drop of a map in use, and a refused `begin` takes none.
const LEASES_COME_BACK: &[(usize, Act<'static>, &str)] = &[
    (0, Act::Used, "0"),
    (0, Act::Begin(0, Tail::Key, 100), ""),
    (0, Act::Used, "100"),
    (
        1,
        Act::Begin(0, Tail::Key, 29),
        "7 used 100 want 29 capacity 128",
    ),
    (1, Act::Blank, "true"),
    (1, Act::Used, "100"),
    (1, Act::Begin(1, Tail::Cell(0), 28), ""),
    (1, Act::Used, "128"),
    (0, Act::Clear, ""),
    (0, Act::Used, "28"),
    (0, Act::Blank, "true"),
    (0, Act::Clear, ""),
    (0, Act::Used, "28"),
];

/// A map that takes the whole budget, and is dropped in use.
const A_LEASE_OF_ALL_COMES_BACK: &[(usize, Act<'static>, &str)] = &[
    (0, Act::Begin(0, Tail::Key, 128), ""),
    (0, Act::Used, "128"),
];

/// A `begin` that finds no memory gives its lease back.
const REFUSED_MEMORY_GIVES_THE_LEASE_BACK: &[(usize, Act<'static>, &str)] = &[
    (0, Act::Begin(0, Tail::Key, u64::MAX), "1"),
    (0, Act::Blank, "true"),
    (0, Act::Used, "0"),
    (0, Act::Begin(0, Tail::Key, 64), ""),
    (0, Act::Is(0, Tail::Key, 64), "true"),
    (0, Act::Used, "64"),
];

/// Calls are counted, refused ones apart.
const CALLS_ARE_COUNTED: &[(usize, Act<'static>, &str)] = &[
    (
        0,
        Act::Begin(0, Tail::Key, 65),
        "7 used 0 want 65 capacity 64",
    ),
    (0, Act::Begin(0, Tail::Key, 64), ""),
    (0, FOUR, ""),
    (0, RANGE, ""),
    (0, Act::Shown, "3:2 12:1 12:3 20:4"),
    (0, Act::Counts, "1 begins, 2 steps, 4 tails, 1 refusals"),
];

/// Refused calls change nothing; what a map may not replay it is not asked to.
const REFUSED_CALLS_CHANGE_NOTHING: &[(usize, Act<'static>, &str)] = &[
    (0, Act::Begin(0, Tail::Key, 64), ""),
    (0, Act::Clear, ""),
    (0, Act::Begin(0, Tail::Key, 64), "8 seen 64 found 128"),
    (0, Act::Blank, "true"),
    (0, Act::Used, "0"),
    (0, Act::Begin(0, Tail::Key, 64), ""),
    (0, FOUR, ""),
    (0, RANGE, "1"),
    (0, Act::Cursor, "1"),
    (0, Act::Shown, "12:1 3:2 12:3 20:4"),
    (0, RANGE, ""),
    (0, Act::Cursor, "2"),
    (0, Act::Shown, "3:2 12:1 12:3 20:4"),
    (0, FOUR, "12"),
    (0, Act::Remove(4), "12"),
    (0, NO_KEY, "12"),
    (0, Act::Cursor, "2"),
    (0, Act::Clear, ""),
    (0, RANGE, "12"),
];

/// A lease grows, with all that the map has; a growth that is refused leaves the map blank and its cells at the budget.
const LEASES_GROW: &[(usize, Act<'static>, &str)] = &[
    (0, Act::Begin(0, B, 64), ""),
    (0, FOUR, ""),
    (0, RANGE, ""),
    (0, Act::Grow(100), "true"),
    (0, Act::Used, "100"),
    (0, Act::Is(0, B, 100), "true"),
    (0, Act::Cursor, "2"),
    (0, Act::Shown, "3:8 12:7 12:5 20:2"),
    (0, Act::Place(TEN), "1"),
    (0, Act::Place(FIFTEEN), "3"),
    (0, THIRTEEN_AND_NINE, ""),
    (0, Act::Shown, "3:8 12:7 12:5 13:9 20:2"),
    (0, Act::Grow(100), "may not grow"),
    // contended
    (0, Act::Grow(128), "8 seen 64 found 128"),
    (0, Act::Blank, "true"),
    (0, Act::Used, "0"),
    (0, Act::Grow(128), "may not grow"),
    // without cells enough beside those of another map
    (1, Act::Begin(0, Tail::Key, 64), ""),
    (0, Act::Begin(0, B, 64), "8 seen 64 found 128"),
    (0, Act::Begin(0, B, 64), ""),
    (0, FOUR, ""),
    (
        0,
        Act::Grow(u64::MAX),
        "7 used 64 want 18446744073709551615 capacity 18446744073709551614",
    ),
    (0, Act::Blank, "true"),
    (0, Act::Used, "64"),
    // without memory
    (1, Act::Grow(1 << 62), "1"),
    (1, Act::Blank, "true"),
    (1, Act::Used, "0"),
];

/// A map that counts its calls does not grow.
const A_COUNTING_MAP_DOES_NOT_GROW: &[(usize, Act<'static>, &str)] = &[
    (0, Act::Begin(0, B, 64), ""),
    (0, FOUR, ""),
    (0, Act::Grow(128), "false"),
    (0, Act::Is(0, B, 64), "true"),
    (0, Act::Cursor, "1"),
    (0, Act::Used, "64"),
];

/// Maps that find the budget contended at every second begin and growth.
const CONTENDED: Trouble = Trouble {
    every: 0,
    contends: true,
};

/// Maps that refuse every second step and every second begin.
const EVERY_SECOND: Trouble = Trouble {
    every: 2,
    contends: true,
};

const CASES: &[Case<'static>] = &[
    Case {
        name: "a_range_parts_the_rows",
        shape: NO_BOX,
        capacity: 128,
        trouble: NO_TROUBLE,
        script: Script::Acts(A_RANGE_PARTS_THE_ROWS),
    },
    Case {
        name: "rows_come_and_go",
        shape: NO_BOX,
        capacity: 64,
        trouble: NO_TROUBLE,
        script: Script::Acts(ROWS_COME_AND_GO),
    },
    Case {
        name: "equal_cells_and_the_ends",
        shape: NO_BOX,
        capacity: 64,
        trouble: NO_TROUBLE,
        script: Script::Acts(EQUAL_CELLS_AND_THE_ENDS),
    },
    Case {
        name: "leases_come_back",
        shape: NO_BOX,
        capacity: 128,
        trouble: NO_TROUBLE,
        script: Script::Acts(LEASES_COME_BACK),
    },
    Case {
        name: "a_lease_of_all_comes_back",
        shape: NO_BOX,
        capacity: 128,
        trouble: NO_TROUBLE,
        script: Script::Acts(A_LEASE_OF_ALL_COMES_BACK),
    },
    Case {
        name: "refused_memory_gives_the_lease_back",
        shape: NO_BOX,
        capacity: u64::MAX,
        trouble: NO_TROUBLE,
        script: Script::Acts(REFUSED_MEMORY_GIVES_THE_LEASE_BACK),
    },
    Case {
        name: "leases_grow",
        shape: NO_BOX,
        capacity: u64::MAX - 1,
        trouble: CONTENDED,
        script: Script::Acts(LEASES_GROW),
    },
    Case {
        name: "a_counting_map_does_not_grow",
        shape: NO_BOX,
        capacity: 128,
        trouble: NO_TROUBLE,
        script: Script::Acts(A_COUNTING_MAP_DOES_NOT_GROW),
    },
    Case {
        name: "calls_are_counted",
        shape: NO_BOX,
        capacity: 64,
        trouble: NO_TROUBLE,
        script: Script::Acts(CALLS_ARE_COUNTED),
    },
    Case {
        name: "refused_calls_change_nothing",
        shape: NO_BOX,
        capacity: 64,
        trouble: EVERY_SECOND,
        script: Script::Acts(REFUSED_CALLS_CHANGE_NOTHING),
    },
];

#[test]
fn maps_do_as_they_are_asked(rt: HostRuntime) -> Result<(), Fail> {
    let mut text = String::new(rt.alloc());
    play_cases(&rt, rt.alloc(), CASES, &mut text)?;
    assert_eq!(rt; text.as_str(), "");
    Ok(())
}
