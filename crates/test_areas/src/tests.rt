//! What an area does with a query, over boxes of maps that count.

use crate::moves::Move;
use crate::scenes::{
    Case, FOUR_BOXES, FOUR_ROWS, NO_BOX, NO_TROUBLE, ONE_BOX, Script, THREE_BOXES, Trouble,
    play_cases,
};
use crate::shapes::Shape;
use std::test::Fail;
use sw_map::Tail;
use sw_rows::Bound;

/// Those of the four rows whose a is 12 or more.
const THREE_ROWS: [[i64; 8]; 3] = [
    [12, 7, 1, 0, 0, 0, 0, 0],
    [12, 5, 1, 0, 0, 0, 0, 0],
    [20, 2, 0, 0, 0, 0, 0, 0],
];

/// An area of the values from 12 up to below 21 of a, with two boxes.
const BOUNDED: Shape = Shape {
    attribute: 0,
    from: Some(12),
    below: Some(21),
    boxes: 2,
};

const B: Tail = Tail::Cell(1);

const C: Tail = Tail::Cell(2);

const D: Tail = Tail::Cell(3);

const E: Tail = Tail::Cell(4);

/// A range is cracked once in each map that is asked for, and again in one that is cleared.
const A_RANGE_IS_CRACKED_ONCE: &[(Move<'static>, &str)] = &[
    (
        Move::Answer("select b where a >= 10 and a <= 15"),
        "1: 7, 3: 5, 2 rows",
    ),
    // a load and a range in each of the two maps; each is asked for two tails
    (Move::Counts, "2 begins, 4 steps, 4 tails"),
    (Move::Sizes, "4 boxes, 2 entries"),
    (Move::Place(Bound::Before(10)), "1"),
    (Move::Place(Bound::After(15)), "3"),
    (Move::Place(Bound::After(10)), "none"),
    (Move::Shown(Tail::Key), "2 1 3 4"),
    (Move::Shown(B), "8 7 5 2"),
    (Move::Cursor(Tail::Key), "2"),
    (Move::Cursor(B), "2"),
    (Move::Cursor(C), "none"),
    (Move::Counts, "0 begins, 0 steps, 8 tails"),
    // the same again: no step
    (
        Move::Answer("select b where a >= 10 and a <= 15"),
        "1: 7, 3: 5, 2 rows",
    ),
    (Move::Counts, "0 begins, 0 steps, 4 tails"),
    (Move::Sizes, "4 boxes, 2 entries"),
    // one tail more: its map alone is made
    (
        Move::Answer("select b, c where a >= 10 and a <= 15"),
        "1: 7 1, 3: 5 1, 2 rows",
    ),
    (Move::Counts, "1 begins, 2 steps, 6 tails"),
    (Move::Sizes, "4 boxes, 2 entries"),
    (
        Move::Prepare("select b, c where a >= 10 and a <= 15"),
        "1..3",
    ),
    (Move::Used, "192"),
    // a cleared map is made again
    (Move::Clear(B), ""),
    (Move::Cursor(B), "none"),
    (Move::Used, "128"),
    (
        Move::Answer("select b where a >= 10 and a <= 15"),
        "1: 7, 3: 5, 2 rows",
    ),
    (Move::Counts, "1 begins, 2 steps, 4 tails"),
    (
        Move::Scan("select b where a >= 10 and a <= 15"),
        "1: 7, 3: 5, 2 rows",
    ),
    (Move::Counts, "0 begins, 0 steps, 0 tails"),
];

/// A range whose ends are turned, and a query without a bound.
const WHAT_TOUCHES_NOTHING_LOGS_NOTHING: &[(Move<'static>, &str)] = &[
    (Move::Answer("select b where a >= 15 and a <= 10"), "0 rows"),
    (Move::Prepare("select b where a >= 15 and a <= 10"), "0..0"),
    (Move::Counts, "0 begins, 0 steps, 0 tails"),
    (Move::Sizes, "3 boxes, 1 entries"),
    // no bound: the key map is made, and nothing is logged
    (Move::Answer("count"), "4"),
    (Move::Counts, "1 begins, 1 steps, 0 tails"),
    (Move::Sizes, "3 boxes, 1 entries"),
];

/// The least and the greatest bound.
const THE_ENDS_OF_ALL_VALUES: &[(Move<'static>, &str)] = &[
    (
        Move::Answer("count where a >= -9223372036854775808 and a <= 9223372036854775807"),
        "4",
    ),
    (Move::Place(Bound::Before(i64::MIN)), "0"),
    (Move::Place(Bound::After(i64::MAX)), "4"),
    (Move::Shown(Tail::Key), "1 2 3 4"),
    (Move::Sizes, "3 boxes, 2 entries"),
];

/// An area without rows.
const AN_AREA_OF_NO_ROWS: &[(Move<'static>, &str)] = &[
    (Move::Answer("count"), "0"),
    (Move::Answer("min b"), "none"),
    (Move::Answer("sum b"), "0"),
    (Move::Answer("select a"), "0 rows"),
    (Move::Answer("max c where a < 5 and b > 1"), "none"),
    (Move::Sizes, "3 boxes, 2 entries"),
];

/// Further conditions, and sums and the like.
const FURTHER_CONDITIONS_AND_AGGREGATES: &[(Move<'static>, &str)] = &[
    (
        Move::Answer("select a where a >= 10 and b < 6"),
        "3: 12, 4: 20, 2 rows",
    ),
    (Move::Cursor(B), "2"),
    (Move::Answer("sum b where a >= 10"), "14"),
    (Move::Answer("min b where a >= 10"), "2"),
    (Move::Answer("max b where a >= 10 and c = 1"), "7"),
    (Move::Answer("sum a where a >= 10"), "44"),
    (Move::Answer("count where a >= 10 and b > 4 and c = 1"), "2"),
    (Move::Answer("min c where a >= 10 and b > 90"), "none"),
    (Move::Sizes, "3 boxes, 2 entries"),
];

/// The greatest and the least value, of which a few already exceed 64 bits, beside a head that all rows share.
const EXTREMES: [i64; 8] = [7, i64::MAX, i64::MIN, -1, 0, 0, 0, 0];

/// 255 rows of extremes, where values are read 256 at a time.
const A_PLACE_LESS_THAN_A_BLOCK: &[(Move<'static>, &str)] = &[
    (Move::Answer("sum b where a = 7"), "2351959869397967830785"),
    (Move::Answer("sum c"), "-2351959869397967831040"),
    (Move::Answer("sum d where a > 6"), "-255"),
    (Move::Answer("sum a"), "1785"),
    (Move::Answer("min c"), "-9223372036854775808"),
    (Move::Answer("max b"), "9223372036854775807"),
    (
        Move::Answer("sum b where a = 7 and d < 0"),
        "2351959869397967830785",
    ),
    (Move::Answer("sum b where a > 7"), "0"),
    (Move::Answer("min b where a > 7"), "none"),
];

/// 256 rows of extremes, where values are read 256 at a time.
const A_BLOCK_OF_EXTREMES: &[(Move<'static>, &str)] = &[
    (Move::Answer("sum b where a = 7"), "2361183241434822606592"),
    (Move::Answer("sum c"), "-2361183241434822606848"),
    (Move::Answer("sum d where a > 6"), "-256"),
    (Move::Answer("sum a"), "1792"),
    (Move::Answer("min c"), "-9223372036854775808"),
    (Move::Answer("max b"), "9223372036854775807"),
    (
        Move::Answer("sum b where a = 7 and d < 0"),
        "2361183241434822606592",
    ),
    (Move::Answer("sum b where a > 7"), "0"),
    (Move::Answer("min b where a > 7"), "none"),
];

/// 257 rows of extremes, where values are read 256 at a time.
const A_PLACE_MORE_THAN_A_BLOCK: &[(Move<'static>, &str)] = &[
    (Move::Answer("sum b where a = 7"), "2370406613471677382399"),
    (Move::Answer("sum c"), "-2370406613471677382656"),
    (Move::Answer("sum d where a > 6"), "-257"),
    (Move::Answer("sum a"), "1799"),
    (Move::Answer("min c"), "-9223372036854775808"),
    (Move::Answer("max b"), "9223372036854775807"),
    (
        Move::Answer("sum b where a = 7 and d < 0"),
        "2370406613471677382399",
    ),
    (Move::Answer("sum b where a > 7"), "0"),
    (Move::Answer("min b where a > 7"), "none"),
];

/// 513 rows of extremes, where values are read 256 at a time.
const TWO_BLOCKS_AND_A_PLACE: &[(Move<'static>, &str)] = &[
    (Move::Answer("sum b where a = 7"), "4731589854906499988991"),
    (Move::Answer("sum c"), "-4731589854906499989504"),
    (Move::Answer("sum d where a > 6"), "-513"),
    (Move::Answer("sum a"), "3591"),
    (Move::Answer("min c"), "-9223372036854775808"),
    (Move::Answer("max b"), "9223372036854775807"),
    (
        Move::Answer("sum b where a = 7 and d < 0"),
        "4731589854906499988991",
    ),
    (Move::Answer("sum b where a > 7"), "0"),
    (Move::Answer("min b where a > 7"), "none"),
];

/// An area of the values from 12 up to below 21.
const AN_INTERVAL_OF_THE_VALUES: &[(Move<'static>, &str)] = &[
    (Move::Answer("select b where a < 12"), "0 rows"),
    (Move::Answer("select b where a >= 21"), "0 rows"),
    (Move::Sizes, "2 boxes, 1 entries"),
    // a bound at the interval's start or end, or outside of it, counts as absent
    (Move::Answer("count where a >= 12 and a < 21"), "3"),
    (Move::Answer("count where a > 2 and a <= 30"), "3"),
    (Move::Sizes, "2 boxes, 1 entries"),
    (Move::Answer("select b where a <= 12"), "1: 7, 2: 5, 2 rows"),
    (Move::Sizes, "2 boxes, 2 entries"),
    (Move::Place(Bound::After(12)), "2"),
    (Move::Place(Bound::Before(12)), "none"),
    // the interval is met by bounds, and not by values
    (Move::Answer("count where a > 20"), "0"),
    (Move::Sizes, "2 boxes, 3 entries"),
];

/// Cells for two maps where three are needed.
const A_BUDGET_FOR_TWO_MAPS: &[(Move<'static>, &str)] = &[
    (
        Move::Answer("select b where a >= 10"),
        "1: 7, 3: 5, 4: 2, 3 rows",
    ),
    (Move::Used, "128"),
    (
        Move::Answer("select c where a >= 10"),
        "1: 1, 3: 1, 4: 0, 3 rows",
    ),
    (Move::Cursor(B), "none"),
    (Move::Cursor(C), "2"),
    (Move::Used, "128"),
    (
        Move::Prepare("select b, c where a >= 10"),
        "7 used 128 want 64 capacity 128",
    ),
    (
        Move::Answer("select b, c where a >= 10"),
        "1: 7 1, 3: 5 1, 4: 2 0, 3 rows, told 7 used 128 want 64 capacity 128",
    ),
];

/// One box where two maps are needed.
const A_BOX_TOO_FEW: &[(Move<'static>, &str)] = &[
    (
        Move::Prepare("select b where a >= 10"),
        "6 boxes 1 needed 2",
    ),
    (
        Move::Answer("select b where a >= 10"),
        "1: 7, 3: 5, 4: 2, 3 rows, told 6 boxes 1 needed 2",
    ),
    (Move::Counts, "0 begins, 0 steps, 0 tails"),
    (Move::Sizes, "1 boxes, 1 entries"),
    // one box serves what needs the key map alone
    (
        Move::Answer("select a where a >= 10"),
        "1: 12, 3: 12, 4: 20, 3 rows",
    ),
    (Move::Sizes, "1 boxes, 2 entries"),
];

/// No box at all.
const NO_BOX_AT_ALL: &[(Move<'static>, &str)] = &[(
    Move::Answer("count"),
    "4, told 6 boxes 0 needed 1",
)];

/// No cells.
const A_BUDGET_OF_NO_CELLS: &[(Move<'static>, &str)] = &[
    (
        Move::Prepare("select b where a >= 10 and a <= 15"),
        "7 used 0 want 64 capacity 0",
    ),
    (
        Move::Answer("select b where a >= 10 and a <= 15"),
        "1: 7, 3: 5, 2 rows, told 7 used 0 want 64 capacity 0",
    ),
    (Move::Counts, "0 begins, 0 steps, 0 tails"),
    (Move::Used, "0"),
];

/// Maps are made in the order of the key, then of the attributes by number: that of b has the last cells, whatever is named first.
const MAPS_ARE_MADE_IN_ORDER: &[(Move<'static>, &str)] = &[
    (
        Move::Prepare("select d, c, b where a >= 10"),
        "7 used 128 want 64 capacity 128",
    ),
    (Move::Cursor(Tail::Key), "0"),
    (Move::Cursor(B), "0"),
    (Move::Cursor(C), "none"),
    (Move::Cursor(D), "none"),
    // without b that of c has them, which is tested, before that of d, which is shown
    (Move::ClearOldest, "64"),
    (Move::ClearOldest, "64"),
    (
        Move::Prepare("select d where a >= 10 and c = 1"),
        "7 used 128 want 64 capacity 128",
    ),
    (Move::Cursor(Tail::Key), "0"),
    (Move::Cursor(C), "0"),
    (Move::Cursor(D), "none"),
];

/// A begin that finds the budget contended is told with the words that it saw, and is not tried again.
const A_CONTENDED_BEGIN_IS_TOLD: &[(Move<'static>, &str)] = &[
    (Move::Answer("count where a >= 10"), "3"),
    (Move::Clear(Tail::Key), ""),
    (Move::Prepare("count where a >= 10"), "8 seen 64 found 128"),
    (Move::Cursor(Tail::Key), "none"),
    (Move::Used, "0"),
    (Move::Answer("count where a >= 10"), "3"),
    (Move::Clear(Tail::Key), ""),
    (
        Move::Answer("count where a >= 10"),
        "3, told 8 seen 64 found 128",
    ),
    // the map of b takes the second box, and is begun for the first time
    (Move::Answer("sum b where a >= 10"), "14"),
    (Move::Used, "128"),
];

/// Where a step of one map is refused the others go on: those that lack a range one after the other, those that have yet to load
/// at once.
const A_REFUSED_STEP_STOPS_ONE_MAP: &[(Move<'static>, &str)] = &[
    (Move::Answer("count where a >= 10"), "3"),
    (Move::Clear(Tail::Key), ""),
    (Move::Answer("sum b where a >= 10"), "14"),
    // the key map made four steps, that of b two: the fifth of a map is refused
    (Move::Counts, "3 begins, 6 steps, 3 tails"),
    (Move::Answer("sum b where a >= 15"), "2, told 1"),
    (Move::Cursor(Tail::Key), "2"),
    (Move::Cursor(B), "3"),
    (Move::Answer("sum b where a >= 15"), "2"),
    (Move::Cursor(Tail::Key), "3"),
    (Move::Clear(Tail::Key), ""),
    (Move::Clear(B), ""),
    // the key map made six steps, that of b three: its second is refused, and the other goes on
    (Move::Answer("sum b where a >= 15"), "2, told 1"),
    (Move::Cursor(Tail::Key), "3"),
    (Move::Cursor(B), "1"),
];

/// The box that was used longest ago is cleared.
const THE_LEAST_RECENTLY_USED_BOX_IS_CLEARED: &[(Move<'static>, &str)] = &[
    (Move::Oldest, "none"),
    (Move::Answer("sum b where a >= 10"), "14"),
    (Move::Answer("sum c where a >= 10"), "2"),
    (Move::Answer("sum d where a >= 10"), "0"),
    (Move::Answer("sum b where a >= 10"), "14"),
    (Move::Counts, "4 begins, 8 steps, 12 tails"),
    (Move::Oldest, "2"),
    // all boxes have maps: that of c was used longest ago
    (Move::Answer("sum e where a >= 10"), "0"),
    (Move::Counts, "1 begins, 2 steps, 3 tails"),
    (Move::Cursor(C), "none"),
    (Move::Cursor(B), "2"),
    (Move::Cursor(D), "2"),
    (Move::Cursor(E), "2"),
    (Move::Oldest, "3"),
    (Move::ClearOldest, "64"),
    (Move::Cursor(D), "none"),
    (Move::Oldest, "4"),
    (Move::Used, "192"),
    (Move::ClearOldest, "64"),
    (Move::ClearOldest, "64"),
    (Move::ClearOldest, "64"),
    (Move::ClearOldest, "0"),
    (Move::Oldest, "none"),
];

/// Of boxes that were used at once the first is cleared.
const OF_BOXES_WITH_ONE_STAMP_THE_LOWEST_IS_CLEARED: &[(Move<'static>, &str)] = &[
    (Move::SetNow(7), ""),
    (Move::Answer("sum b where a >= 10"), "14"),
    (Move::Answer("sum c where a >= 10"), "2"),
    (Move::Oldest, "7"),
    (Move::Answer("sum d where a >= 10"), "0"),
    (Move::Cursor(B), "none"),
    (Move::Cursor(C), "2"),
    (Move::Cursor(D), "2"),
];

/// Of maps that were used at once the first is the oldest.
const OF_MAPS_WITH_ONE_STAMP_THE_LOWEST_IS_OLDEST: &[(Move<'static>, &str)] = &[
    (Move::Answer("sum b where a >= 10"), "14"),
    (Move::SetNow(3), ""),
    (Move::Answer("sum c where a >= 10"), "2"),
    (Move::Answer("sum d where a >= 10"), "0"),
    // b was used as number 1; then the key map, c and d all as number 3
    (Move::Oldest, "1"),
    (Move::ClearOldest, "64"),
    (Move::Cursor(B), "none"),
    (Move::Oldest, "3"),
    (Move::ClearOldest, "64"),
    (Move::Cursor(Tail::Key), "none"),
    (Move::Cursor(C), "2"),
    // the number may fall: the key map, made in the first box, and c are now the oldest
    (Move::SetNow(2), ""),
    (Move::Answer("sum c where a >= 10"), "2"),
    (Move::Oldest, "2"),
    (Move::ClearOldest, "64"),
    (Move::Cursor(Tail::Key), "none"),
    (Move::ClearOldest, "64"),
    (Move::Cursor(C), "none"),
    (Move::Cursor(D), "2"),
    (Move::Oldest, "3"),
];

/// Boxes are shed, blank ones first.
const BOXES_ARE_SHED_BLANK_ONES_FIRST: &[(Move<'static>, &str)] = &[
    (Move::Answer("sum b where a >= 10"), "14"),
    (Move::Answer("sum c where a >= 10"), "2"),
    (Move::Used, "192"),
    (Move::Shed(0), "0"),
    (Move::Sizes, "4 boxes, 2 entries"),
    // the fourth box is blank, then b's is the least recently used
    (Move::Shed(1), "1"),
    (Move::Sizes, "3 boxes, 2 entries"),
    (Move::Used, "192"),
    (Move::Shed(1), "1"),
    (Move::Cursor(B), "none"),
    (Move::Used, "128"),
    (Move::Oldest, "2"),
    // two boxes are left: c gives its own to b
    (Move::Answer("sum b where a >= 10"), "14"),
    (Move::Cursor(C), "none"),
    (Move::Counts, "4 begins, 8 steps, 9 tails"),
    (Move::Shed(5), "2"),
    (Move::Sizes, "0 boxes, 2 entries"),
    (Move::Used, "0"),
    (Move::Oldest, "none"),
    (Move::Answer("count"), "4, told 6 boxes 0 needed 1"),
    (Move::Shed(3), "0"),
];

/// Of boxes that were used at once the first is shed.
const OF_BOXES_WITH_ONE_STAMP_THE_LOWEST_IS_SHED: &[(Move<'static>, &str)] = &[
    (Move::SetNow(7), ""),
    (Move::Answer("sum b where a >= 10"), "14"),
    (Move::Answer("sum c where a >= 10"), "2"),
    (Move::Shed(1), "1"),
    (Move::Cursor(Tail::Key), "none"),
    (Move::Cursor(B), "2"),
    (Move::Shed(1), "1"),
    (Move::Cursor(B), "none"),
    (Move::Cursor(C), "2"),
    (Move::Used, "64"),
];

/// A map that finds no cells takes those of the one that was used longest ago.
const A_SHORT_BUDGET_CLEARS_THE_LEAST_RECENTLY_USED: &[(Move<'static>, &str)] = &[
    (Move::Answer("sum c where a >= 10"), "2"),
    (Move::Answer("sum b where a >= 10"), "14"),
    (Move::Used, "192"),
    (Move::Counts, "3 begins, 6 steps, 6 tails"),
    // the fourth box is blank, but its map finds no cells until c's gives its own back
    (Move::Answer("sum d where a >= 10"), "0"),
    (Move::Counts, "1 begins, 2 steps, 3 tails"),
    (Move::Cursor(C), "none"),
    (Move::Cursor(B), "2"),
    (Move::Used, "192"),
];

/// 4,096 ranges fill the tape, and the last begins it anew: 4,096 entries in the first map, two in the second.
const A_FULL_TAPE_BEGINS_ANEW: &[(Move<'static>, &str)] = &[
    (Move::Ranges(4096), ""),
    (Move::Sizes, "1 boxes, 4096 entries"),
    (Move::Answer("count where a < 4096"), "4"),
    (Move::Sizes, "1 boxes, 2 entries"),
    (Move::Counts, "2 begins, 4098 steps, 0 tails"),
];

/// Replies, and what is logged for them.
const REPLIES: &[Case<'static>] = &[
    Case {
        name: "a_range_is_cracked_once",
        shape: FOUR_BOXES,
        capacity: 1 << 20,
        trouble: NO_TROUBLE,
        script: Script::Moves(&FOUR_ROWS, A_RANGE_IS_CRACKED_ONCE),
    },
    Case {
        name: "what_touches_nothing_logs_nothing",
        shape: THREE_BOXES,
        capacity: 1 << 20,
        trouble: NO_TROUBLE,
        script: Script::Moves(&FOUR_ROWS, WHAT_TOUCHES_NOTHING_LOGS_NOTHING),
    },
    Case {
        name: "the_ends_of_all_values",
        shape: THREE_BOXES,
        capacity: 1 << 20,
        trouble: NO_TROUBLE,
        script: Script::Moves(&FOUR_ROWS, THE_ENDS_OF_ALL_VALUES),
    },
    Case {
        name: "an_area_of_no_rows",
        shape: THREE_BOXES,
        capacity: 1 << 20,
        trouble: NO_TROUBLE,
        script: Script::Moves(&[], AN_AREA_OF_NO_ROWS),
    },
    Case {
        name: "further_conditions_and_aggregates",
        shape: THREE_BOXES,
        capacity: 1 << 20,
        trouble: NO_TROUBLE,
        script: Script::Moves(&FOUR_ROWS, FURTHER_CONDITIONS_AND_AGGREGATES),
    },
    Case {
        name: "a_place_less_than_a_block",
        shape: FOUR_BOXES,
        capacity: 1 << 20,
        trouble: NO_TROUBLE,
        script: Script::Moves(&[EXTREMES; 255], A_PLACE_LESS_THAN_A_BLOCK),
    },
    Case {
        name: "a_block_of_extremes",
        shape: FOUR_BOXES,
        capacity: 1 << 20,
        trouble: NO_TROUBLE,
        script: Script::Moves(&[EXTREMES; 256], A_BLOCK_OF_EXTREMES),
    },
    Case {
        name: "a_place_more_than_a_block",
        shape: FOUR_BOXES,
        capacity: 1 << 20,
        trouble: NO_TROUBLE,
        script: Script::Moves(&[EXTREMES; 257], A_PLACE_MORE_THAN_A_BLOCK),
    },
    Case {
        name: "two_blocks_and_a_place",
        shape: FOUR_BOXES,
        capacity: 1 << 20,
        trouble: NO_TROUBLE,
        script: Script::Moves(&[EXTREMES; 513], TWO_BLOCKS_AND_A_PLACE),
    },
];

/// Areas whose values, boxes or cells are bounded.
const BOUNDS: &[Case<'static>] = &[
    Case {
        name: "an_interval_of_the_values",
        shape: BOUNDED,
        capacity: 1 << 20,
        trouble: NO_TROUBLE,
        script: Script::Moves(&THREE_ROWS, AN_INTERVAL_OF_THE_VALUES),
    },
    Case {
        name: "a_budget_for_two_maps",
        shape: THREE_BOXES,
        capacity: 128,
        trouble: NO_TROUBLE,
        script: Script::Moves(&FOUR_ROWS, A_BUDGET_FOR_TWO_MAPS),
    },
    Case {
        name: "a_box_too_few",
        shape: ONE_BOX,
        capacity: 1 << 20,
        trouble: NO_TROUBLE,
        script: Script::Moves(&FOUR_ROWS, A_BOX_TOO_FEW),
    },
    Case {
        name: "no_box_at_all",
        shape: NO_BOX,
        capacity: 1 << 20,
        trouble: NO_TROUBLE,
        script: Script::Moves(&FOUR_ROWS, NO_BOX_AT_ALL),
    },
    Case {
        name: "a_budget_of_no_cells",
        shape: THREE_BOXES,
        capacity: 0,
        trouble: NO_TROUBLE,
        script: Script::Moves(&FOUR_ROWS, A_BUDGET_OF_NO_CELLS),
    },
];

/// Maps that find the budget contended at every second begin.
const CONTENDED: Trouble = Trouble {
    every: 0,
    contends: true,
};

/// Maps that refuse every fifth step.
const EVERY_FIFTH: Trouble = Trouble {
    every: 5,
    contends: false,
};

/// In which order maps are made and stepped, and which refusals are told.
const REFUSALS: &[Case<'static>] = &[
    Case {
        name: "maps_are_made_in_order",
        shape: FOUR_BOXES,
        capacity: 128,
        trouble: NO_TROUBLE,
        script: Script::Moves(&FOUR_ROWS, MAPS_ARE_MADE_IN_ORDER),
    },
    Case {
        name: "a_contended_begin_is_told",
        shape: THREE_BOXES,
        capacity: 1 << 20,
        trouble: CONTENDED,
        script: Script::Moves(&FOUR_ROWS, A_CONTENDED_BEGIN_IS_TOLD),
    },
    Case {
        name: "a_refused_step_stops_one_map",
        shape: THREE_BOXES,
        capacity: 1 << 20,
        trouble: EVERY_FIFTH,
        script: Script::Moves(&FOUR_ROWS, A_REFUSED_STEP_STOPS_ONE_MAP),
    },
];

/// Which box is cleared.
const CLEARING: &[Case<'static>] = &[
    Case {
        name: "the_least_recently_used_box_is_cleared",
        shape: FOUR_BOXES,
        capacity: 1 << 20,
        trouble: NO_TROUBLE,
        script: Script::Moves(&FOUR_ROWS, THE_LEAST_RECENTLY_USED_BOX_IS_CLEARED),
    },
    Case {
        name: "of_boxes_with_one_stamp_the_lowest_is_cleared",
        shape: THREE_BOXES,
        capacity: 1 << 20,
        trouble: NO_TROUBLE,
        script: Script::Moves(&FOUR_ROWS, OF_BOXES_WITH_ONE_STAMP_THE_LOWEST_IS_CLEARED),
    },
    Case {
        name: "of_maps_with_one_stamp_the_lowest_is_oldest",
        shape: FOUR_BOXES,
        capacity: 1 << 20,
        trouble: NO_TROUBLE,
        script: Script::Moves(&FOUR_ROWS, OF_MAPS_WITH_ONE_STAMP_THE_LOWEST_IS_OLDEST),
    },
];

/// Which box is shed, and what makes room.
const SHEDDING: &[Case<'static>] = &[
    Case {
        name: "boxes_are_shed_blank_ones_first",
        shape: FOUR_BOXES,
        capacity: 1 << 20,
        trouble: NO_TROUBLE,
        script: Script::Moves(&FOUR_ROWS, BOXES_ARE_SHED_BLANK_ONES_FIRST),
    },
    Case {
        name: "of_boxes_with_one_stamp_the_lowest_is_shed",
        shape: THREE_BOXES,
        capacity: 1 << 20,
        trouble: NO_TROUBLE,
        script: Script::Moves(&FOUR_ROWS, OF_BOXES_WITH_ONE_STAMP_THE_LOWEST_IS_SHED),
    },
    Case {
        name: "a_short_budget_clears_the_least_recently_used",
        shape: FOUR_BOXES,
        capacity: 192,
        trouble: NO_TROUBLE,
        script: Script::Moves(&FOUR_ROWS, A_SHORT_BUDGET_CLEARS_THE_LEAST_RECENTLY_USED),
    },
    Case {
        name: "a_full_tape_begins_anew",
        shape: ONE_BOX,
        capacity: 64,
        trouble: NO_TROUBLE,
        script: Script::Moves(&FOUR_ROWS, A_FULL_TAPE_BEGINS_ANEW),
    },
];

#[test]
fn queries_are_answered(rt: HostRuntime) -> Result<(), Fail> {
    let mut text = String::new(rt.alloc());
    play_cases(&rt, rt.alloc(), REPLIES, &mut text)?;
    assert_eq!(rt; text.as_str(), "");
    Ok(())
}

#[test]
fn bounded_areas_answer_queries(rt: HostRuntime) -> Result<(), Fail> {
    let mut text = String::new(rt.alloc());
    play_cases(&rt, rt.alloc(), BOUNDS, &mut text)?;
    assert_eq!(rt; text.as_str(), "");
    Ok(())
}

#[test]
fn refusals_are_told_and_stop_no_more(rt: HostRuntime) -> Result<(), Fail> {
    let mut text = String::new(rt.alloc());
    play_cases(&rt, rt.alloc(), REFUSALS, &mut text)?;
    assert_eq!(rt; text.as_str(), "");
    Ok(())
}

#[test]
fn boxes_are_cleared_by_their_stamps(rt: HostRuntime) -> Result<(), Fail> {
    let mut text = String::new(rt.alloc());
    play_cases(&rt, rt.alloc(), CLEARING, &mut text)?;
    assert_eq!(rt; text.as_str(), "");
    Ok(())
}

#[test]
fn boxes_are_shed_by_their_stamps(rt: HostRuntime) -> Result<(), Fail> {
    let mut text = String::new(rt.alloc());
    play_cases(&rt, rt.alloc(), SHEDDING, &mut text)?;
    assert_eq!(rt; text.as_str(), "");
    Ok(())
}
