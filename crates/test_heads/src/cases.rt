//! What a head does with calls, over boxes of maps that count: which areas it touches, which maps it clears, and what
//! merging does.

use crate::scenes::{Boxes, Case, ONE_AREA, TWO_AREAS, Trouble, play_cases};
use crate::steps::{Step, View};
use crate::trials::Shape;
use std::alloc::Global;
use std::test::Fail;
use sw_map::Tail;
use sw_rows::Bound;

const KEY: View = View::Cursor(Tail::Key);

const B: View = View::Cursor(Tail::Cell(1));

const C: View = View::Cursor(Tail::Cell(2));

const KEYS: View = View::Shown(Tail::Key);

const FROM_TEN: View = View::Place(Bound::Before(10));

const UPTO_FIFTEEN: View = View::Place(Bound::After(15));

/// Three boxes, and cells for all that they may hold.
const AMPLE: Boxes = Boxes {
    first: 3,
    later: 0,
    capacity: 1 << 20,
    trouble: Trouble::Every(0),
};

/// One box, and cells for four leases.
const ONE_BOX: Boxes = Boxes {
    first: 1,
    capacity: 256,
    ..AMPLE
};

/// The four rows below 10, up to below 15, and from 15 on.
const THREE_AREAS: Shape<'static> = Shape {
    cuts: &[10, 15],
    ..ONE_AREA
};

/// No rows.
const NO_ROWS: Shape<'static> = Shape {
    cells: &[],
    ..ONE_AREA
};

/// Three rows of one value.
const FIVES: Shape<'static> = Shape {
    header: &["a"],
    cells: &[[5, 0, 0, 0, 0, 0, 0, 0]; 3],
    ..ONE_AREA
};

/// A range of a, and two rows of it.
const RANGE: (Step<'static>, &str) = (
    Step::Call("select b where a >= 10 and a <= 15"),
    "1: 7\n3: 5\n(2 rows)\n",
);

/// One area's maps give their cells to those of another, which is then asked again, and not scanned.
const CELLS_GO_FROM_AREA_TO_AREA: &[(Step<'static>, &str)] = &[
    (Step::Call("select b where a < 12"), "2: 8\n(1 rows)\n"),
    (Step::Counts, "2 begins, 2 steps, 2 tails"),
    (
        Step::Call("select b where a >= 12"),
        "1: 7\n3: 5\n4: 2\n(3 rows)\n",
    ),
    (Step::Counts, "2 begins, 2 steps, 6 tails"),
    (Step::At(0, KEY), "none"),
    (Step::At(1, KEY), "1"),
    (Step::Call("select b where a < 12"), "2: 8\n(1 rows)\n"),
    (Step::Counts, "2 begins, 2 steps, 2 tails"),
    (Step::Used, "128"),
    (Step::Evict(100), "128"),
    (Step::Used, "0"),
    (Step::Evict(1), "0"),
];

/// An area that finds too few cells again is scanned.
const AN_AREA_THAT_IS_SHORT_AGAIN: &[(Step<'static>, &str)] = &[
    (Step::Call("count where a < 12"), "1\n"),
    (Step::Used, "64"),
    (
        Step::Call("select b, c where a >= 12"),
        "1: 7, 1\n3: 5, 1\n4: 2, 0\n(3 rows)\n1 scanned",
    ),
    // beside the count's map the key map and that of b: what the first try began is kept for the second
    (Step::Counts, "3 begins, 1 steps, 0 tails"),
    // the area was asked twice, and its last begin refused each time
    (Step::Refusals, "2"),
    (Step::At(0, KEY), "none"),
    (Step::Used, "128"),
    (
        Step::Call("select b, c where a <= 12"),
        "1: 7, 1\n2: 8, 0\n3: 5, 1\n(3 rows)\n2 scanned",
    ),
];

/// Where the budget is contended an area is scanned, and nothing is tried again: the area is not asked a second time,
/// which would find the budget free, and no map of the other is cleared.
const AN_AREA_WHOSE_BUDGET_IS_CONTENDED: &[(Step<'static>, &str)] = &[
    (Step::Call("count where a < 12"), "1\n"),
    (Step::Call("count where a >= 12"), "3\n"),
    (Step::Evict(1), "64"),
    (Step::Call("count where a < 12"), "1\n1 scanned"),
    (Step::At(0, KEY), "none"),
    (Step::At(1, KEY), "1"),
    (Step::Call("count where a < 12"), "1\n"),
    (Step::At(0, KEY), "1"),
];

/// An area that is not touched keeps what waits there.
const AN_AREA_THAT_IS_NOT_TOUCHED: &[(Step<'static>, &str)] = &[
    (Step::Call("select b where a < 12"), "2: 8\n(1 rows)\n"),
    (Step::Call("insert 1, 9, 0"), "key 5\n"),
    (Step::Call("delete 4"), "removed\n"),
    (Step::Call("insert 20, 1, 1"), "key 6\n"),
    (Step::At(0, View::Sizes), "2 boxes, 1 entries"),
    (Step::At(1, View::Sizes), "2 boxes, 1 entries"),
    (Step::At(1, View::Holds(4)), "false"),
    (Step::At(1, View::Holds(6)), "true"),
    (Step::At(0, View::Holds(6)), "false"),
    (Step::Call("count where a < 12"), "2\n"),
    (Step::At(0, View::Sizes), "2 boxes, 2 entries"),
    (Step::At(1, View::Sizes), "2 boxes, 1 entries"),
    (Step::At(1, KEY), "none"),
    (Step::Call("delete 6"), "removed\n"),
    (Step::Call("count"), "4\n"),
    (Step::At(0, KEYS), "2 5"),
    (Step::At(1, KEYS), "1 3"),
];

/// The map that was used longest ago is cleared, in whatever area it is.
const THE_LEAST_RECENTLY_USED_OF_ALL_AREAS: &[(Step<'static>, &str)] = &[
    (Step::Call("count where a < 10"), "1\n"),
    (Step::Call("count where a >= 10 and a < 15"), "2\n"),
    (Step::Used, "128"),
    // the third area takes the cells of the first, which was used before the second
    (Step::Call("count where a >= 15"), "1\n"),
    (Step::At(0, KEY), "none"),
    (Step::At(1, KEY), "1"),
    (Step::At(2, KEY), "1"),
    // then the first those of the third, since the second was used again
    (Step::Call("count where a >= 10 and a < 15"), "2\n"),
    (Step::Call("count where a < 10"), "1\n"),
    (Step::At(0, KEY), "1"),
    (Step::At(1, KEY), "1"),
    (Step::At(2, KEY), "none"),
    (Step::Counts, "4 begins, 4 steps, 0 tails"),
    (Step::Evict(1), "64"),
    (Step::At(0, KEY), "1"),
    (Step::At(1, KEY), "none"),
    // of maps that were used at once those of the lowest area are cleared
    (Step::Call("count"), "4\n"),
    (Step::At(0, KEY), "none"),
    (Step::At(1, KEY), "1"),
    (Step::Evict(1), "64"),
    (Step::At(1, KEY), "none"),
    (Step::At(2, KEY), "1"),
];

/// Boxes go to the area with the fewest, and come from the lowest.
const BOXES_COME_AND_GO: &[(Step<'static>, &str)] = &[
    (Step::At(0, View::Sizes), "2 boxes, 1 entries"),
    (Step::At(1, View::Sizes), "1 boxes, 1 entries"),
    (Step::Supply, ""),
    (Step::At(1, View::Sizes), "2 boxes, 1 entries"),
    (Step::Call("sum b where a >= 12"), "14\n"),
    (Step::Shed(3), "3"),
    (Step::At(0, View::Sizes), "0 boxes, 1 entries"),
    (Step::At(1, View::Sizes), "1 boxes, 1 entries"),
    (Step::At(1, KEY), "none"),
    (Step::At(1, B), "1"),
    (Step::Supply, ""),
    (Step::At(0, View::Sizes), "1 boxes, 1 entries"),
    (Step::Call("count where a < 12"), "1\n"),
    (Step::Shed(9), "2"),
    (Step::Used, "0"),
    (Step::Call("count"), "4\n2 scanned"),
];

/// A query at rest is answered where all that it needs stands, and elsewhere not at all.
const A_QUERY_AT_REST_CHANGES_NOTHING: &[(Step<'static>, &str)] = &[
    (Step::AtRest("count where a >= 10"), "not at rest"),
    (Step::Call("count where a >= 10"), "3\n"),
    (Step::Counts, "1 begins, 2 steps, 0 tails"),
    (Step::AtRest("count where a >= 10"), "3\n"),
    // the bound stands, and no map of b does
    (Step::AtRest("sum b where a < 10"), "not at rest"),
    (Step::AtRest("count where a < 11"), "not at rest"),
    (Step::Counts, "0 begins, 0 steps, 0 tails"),
    (Step::Call("insert 1, 9, 0"), "key 5\n"),
    (Step::AtRest("count where a >= 10"), "not at rest"),
    (Step::Call("count where a < 10"), "2\n"),
    (Step::AtRest("count where a >= 10"), "3\n"),
];

/// A query at rest uses its maps, so that others are cleared first, whether or not the query before used just the same.
const A_QUERY_AT_REST_USES_ITS_MAPS: &[(Step<'static>, &str)] = &[
    (Step::Call("sum b where a >= 10"), "14\n"),
    (Step::Call("sum c where a >= 10"), "2\n"),
    (Step::AtRest("sum b where a >= 10"), "14\n"),
    (Step::AtRest("sum b where a >= 10"), "14\n"),
    (Step::Evict(1), "64"),
    (Step::At(0, C), "none"),
    (Step::At(0, B), "2"),
    (Step::AtRest("sum b where a >= 10"), "14\n"),
    // of two maps that were used at once the key map alone is used again
    (Step::AtRest("count where a >= 10"), "3\n"),
    (Step::Evict(1), "64"),
    (Step::At(0, B), "none"),
    (Step::At(0, KEY), "2"),
];

/// The same of areas: of two that were used at once the lower alone is used again.
const A_QUERY_AT_REST_USES_ITS_AREAS: &[(Step<'static>, &str)] = &[
    (Step::Call("sum a"), "47\n"),
    (Step::AtRest("sum a"), "47\n"),
    (Step::AtRest("sum a"), "47\n"),
    (Step::AtRest("sum a where a < 12"), "3\n"),
    (Step::Evict(1), "64"),
    (Step::At(0, KEY), "1"),
    (Step::At(1, KEY), "none"),
];

/// A row that comes is rippled in.
const A_ROW_THAT_COMES_IS_RIPPLED_IN: &[(Step<'static>, &str)] = &[
    RANGE,
    (Step::Counts, "2 begins, 4 steps, 4 tails"),
    (Step::At(0, KEYS), "2 1 3 4"),
    (Step::Call("insert 1, 9, 0"), "key 5\n"),
    // it waits, and is there
    (Step::At(0, View::Sizes), "3 boxes, 2 entries"),
    (Step::At(0, View::Holds(5)), "true"),
    (Step::At(0, View::Holds(6)), "false"),
    (Step::Counts, "0 begins, 0 steps, 4 tails"),
    (Step::Call("count where a < 10"), "2\n"),
    (Step::At(0, View::Sizes), "3 boxes, 3 entries"),
    // one step of the key map alone
    (Step::Counts, "0 begins, 1 steps, 0 tails"),
    (Step::At(0, B), "2"),
    (Step::At(0, KEYS), "2 5 3 1 4"),
    (Step::At(0, FROM_TEN), "2"),
    (Step::At(0, UPTO_FIFTEEN), "4"),
    (
        Step::Call("select b where a < 15"),
        "1: 7\n2: 8\n3: 5\n5: 9\n(4 rows)\n",
    ),
    (Step::At(0, B), "4"),
];

/// A row that goes is rippled out.
const A_ROW_THAT_GOES_IS_RIPPLED_OUT: &[(Step<'static>, &str)] = &[
    RANGE,
    (Step::Counts, "2 begins, 4 steps, 4 tails"),
    (Step::Call("delete 2"), "removed\n"),
    (Step::At(0, View::Sizes), "3 boxes, 2 entries"),
    (Step::At(0, View::Holds(2)), "false"),
    (
        Step::Call("select a where a >= 10"),
        "1: 12\n3: 12\n4: 20\n(3 rows)\n",
    ),
    // the key map alone replays the removal; its place was searched in its piece of one row
    (Step::Counts, "0 begins, 1 steps, 4 tails"),
    (Step::At(0, View::Sizes), "3 boxes, 3 entries"),
    (Step::At(0, KEYS), "3 1 4"),
    (Step::At(0, FROM_TEN), "0"),
    (Step::At(0, UPTO_FIFTEEN), "2"),
    (Step::At(0, B), "2"),
    (Step::Call("sum b where a >= 10 and a <= 15"), "12\n"),
    (Step::At(0, View::Shown(Tail::Cell(1))), "5 7 2"),
];

/// A removal without a key map makes the tape begin anew.
const A_REMOVAL_WITHOUT_A_KEY_MAP_BEGINS_ANEW: &[(Step<'static>, &str)] = &[
    RANGE,
    (Step::Evict(1), "64"),
    (Step::At(0, KEY), "none"),
    (Step::At(0, B), "2"),
    (Step::Call("delete 2"), "removed\n"),
    (Step::Merge("count"), ""),
    (Step::At(0, View::Sizes), "3 boxes, 1 entries"),
    (Step::At(0, B), "none"),
    (Step::Used, "0"),
    (
        Step::Call("select a where a >= 10"),
        "1: 12\n3: 12\n4: 20\n(3 rows)\n",
    ),
    (Step::At(0, View::Sizes), "3 boxes, 2 entries"),
    (Step::At(0, KEYS), "1 3 4"),
    (Step::At(0, FROM_TEN), "0"),
    (Step::At(0, UPTO_FIFTEEN), "none"),
];

/// What comes after the last such removal is logged.
const WHAT_COMES_AFTER_THE_LAST_REMOVAL_IS_LOGGED: &[(Step<'static>, &str)] = &[
    RANGE,
    (Step::Evict(1), "64"),
    (Step::Call("delete 2"), "removed\n"),
    (Step::Call("insert 1, 9, 0"), "key 5\n"),
    (Step::Call("delete 3"), "removed\n"),
    (Step::Call("delete 5"), "removed\n"),
    (Step::Call("insert 14, 6, 0"), "key 6\n"),
    (Step::Merge("count"), ""),
    // the load of keys 1 and 4, and the row of key 6
    (Step::At(0, View::Sizes), "3 boxes, 2 entries"),
    (Step::Used, "0"),
    (Step::At(0, View::Holds(5)), "false"),
    (
        Step::Call("select b where a >= 10"),
        "1: 7\n4: 2\n6: 6\n(3 rows)\n",
    ),
    (Step::At(0, View::Sizes), "3 boxes, 3 entries"),
    (Step::At(0, KEYS), "1 4 6"),
];

/// Rows of one value.
const ROWS_OF_ONE_VALUE: &[(Step<'static>, &str)] = &[
    (Step::Call("count where a = 5"), "3\n"),
    (Step::At(0, KEYS), "1 2 3"),
    (Step::At(0, View::Place(Bound::Before(5))), "0"),
    (Step::At(0, View::Place(Bound::After(5))), "3"),
    (Step::Call("count where a < 5"), "0\n"),
    (Step::At(0, View::Sizes), "3 boxes, 2 entries"),
    (Step::Call("insert 7"), "key 4\n"),
    (Step::Call("insert 4"), "key 5\n"),
    (
        Step::Call("select a where a <= 5"),
        "1: 5\n2: 5\n3: 5\n5: 4\n(4 rows)\n",
    ),
    (Step::At(0, View::Sizes), "3 boxes, 4 entries"),
    (Step::At(0, KEYS), "5 2 3 1 4"),
    (Step::At(0, View::Place(Bound::Before(5))), "1"),
    (Step::At(0, View::Place(Bound::After(5))), "4"),
];

/// A growth that finds the budget contended leaves the area to be scanned: its map is not begun again, which would find cells.
const A_CONTENDED_GROWTH_IS_NOT_TRIED_AGAIN: &[(Step<'static>, &str)] = &[
    (Step::Call("count"), "4\n"),
    (Step::Calls(61, "insert 1, 9, 0"), "key 65\n"),
    (Step::Call("count"), "65\n"),
    (Step::Used, "128"),
    (Step::Calls(64, "insert 1, 9, 0"), "key 129\n"),
    (Step::Call("count"), "129\n1 scanned"),
    (Step::At(0, KEY), "none"),
    (Step::Used, "0"),
    (Step::Call("count"), "129\n"),
    (Step::Used, "192"),
];

/// A lease that is too small grows; of a map that counts its calls it is asked for again, and the tape replayed from
/// its load.
const A_LEASE_TOO_SMALL_IS_ASKED_FOR_AGAIN: &[(Step<'static>, &str)] = &[
    (Step::Call("count where a >= 10"), "3\n"),
    (Step::Used, "64"),
    (Step::Calls(61, "insert 1, 0, 0"), "key 65\n"),
    (Step::Merge("count"), ""),
    (Step::At(0, View::Sizes), "1 boxes, 63 entries"),
    (Step::Used, "64"),
    (Step::Call("count where a < 10"), "62\n"),
    (Step::Used, "128"),
    (Step::At(0, View::Sizes), "1 boxes, 63 entries"),
];

/// That asking, counted: a begin, a load and a range; then a begin and all 63 entries.
const A_LEASE_ASKED_FOR_AGAIN_IS_COUNTED: &[(Step<'static>, &str)] = &[
    (Step::Call("count where a >= 10"), "3\n"),
    (Step::Counts, "1 begins, 2 steps, 0 tails"),
    (Step::Calls(61, "insert 1, 0, 0"), "key 65\n"),
    (Step::Call("count where a < 10"), "62\n"),
    (Step::Counts, "1 begins, 63 steps, 0 tails"),
];

/// A removal finds the key map without room for the 65th pair.
const A_REMOVAL_WITHOUT_ROOM_BEGINS_ANEW: &[(Step<'static>, &str)] = &[
    (Step::Call("count where a >= 10"), "3\n"),
    (Step::Calls(61, "insert 1, 0, 0"), "key 65\n"),
    (Step::Call("delete 2"), "removed\n"),
    (Step::At(0, View::Sizes), "1 boxes, 2 entries"),
    (Step::Merge("count"), ""),
    (Step::At(0, View::Sizes), "1 boxes, 1 entries"),
    (Step::Used, "0"),
    (Step::Call("count where a < 10"), "61\n"),
    (Step::At(0, View::Sizes), "1 boxes, 2 entries"),
    (Step::Used, "64"),
];

/// Rows that find the tape full make it begin anew.
const AN_INSERTION_THAT_MEETS_A_FULL_TAPE: &[(Step<'static>, &str)] = &[
    (Step::Calls(4096, "insert 1, 0, 0"), "key 4096\n"),
    (Step::At(0, View::Sizes), "1 boxes, 1 entries"),
    (Step::Call("count"), "4096\n"),
    (Step::At(0, View::Sizes), "1 boxes, 1 entries"),
    (Step::At(0, View::Holds(4096)), "true"),
];

/// A removal that finds the tape full makes it begin anew.
const A_REMOVAL_THAT_MEETS_A_FULL_TAPE: &[(Step<'static>, &str)] = &[
    (Step::Call("count where a >= 0 and a < 9"), "0\n"),
    (Step::Calls(4094, "insert 1, 0, 0"), "key 4094\n"),
    (Step::Merge("count"), ""),
    (Step::At(0, View::Sizes), "1 boxes, 4096 entries"),
    (Step::Call("count where a >= 0"), "4094\n"),
    (Step::Call("delete 17"), "removed\n"),
    (Step::Call("insert 20, 0, 0"), "key 4095\n"),
    (Step::Call("count where a < 9"), "4093\n"),
    // the load without the row of key 17, the row of key 4095, and the range
    (Step::At(0, View::Sizes), "1 boxes, 3 entries"),
    (Step::At(0, View::Holds(17)), "false"),
    (Step::Call("delete 17"), "no such key\n"),
];

/// Where the third step of the key map is refused, a removal makes the tape begin anew.
const A_KEY_MAP_THAT_CANNOT_BE_ALIGNED_BEGINS_ANEW: &[(Step<'static>, &str)] = &[
    (Step::Call("count where a >= 10"), "3\n"),
    (Step::At(0, View::Sizes), "1 boxes, 2 entries"),
    (Step::Call("insert 1, 9, 0"), "key 5\n"),
    (Step::Call("delete 2"), "removed\n"),
    (Step::Merge("count"), ""),
    (Step::At(0, View::Sizes), "1 boxes, 1 entries"),
    (Step::Call("count where a < 10"), "1\n"),
];

/// Of 100 rows that rise by a, 65 removals, which have the tape begun anew once with all that waits; no key is looked for.
const REMOVALS_BEYOND_THE_LIMIT_ARE_ONE_LOAD: &[(Step<'static>, &str)] = &[
    (Step::Call("count where a <= 50"), "50\n"),
    (Step::At(0, View::Sizes), "3 boxes, 2 entries"),
    (Step::Call("insert 101"), "key 101\n"),
    (Step::DeletesUpTo(65), "removed\n"),
    (Step::Call("insert 102"), "key 102\n"),
    (Step::Counts, "1 begins, 2 steps, 0 tails"),
    (Step::Merge("count"), ""),
    // the rows that came before the removals and after them are in the load
    (Step::At(0, View::Sizes), "3 boxes, 1 entries"),
    (Step::At(0, View::Restarts), "1"),
    (Step::At(0, KEY), "none"),
    (Step::Used, "0"),
    (Step::Counts, "0 begins, 0 steps, 0 tails"),
    (Step::At(0, View::Holds(65)), "false"),
    (Step::At(0, View::Holds(66)), "true"),
    (Step::Call("count where a > 98"), "4\n"),
];

/// 70 removals, and a count that logs nothing.
const SEVENTY_REMOVALS: &[(Step<'static>, &str)] = &[
    (Step::Call("count where a <= 50"), "50\n"),
    (Step::DeletesUpTo(70), "removed\n"),
    (Step::At(0, View::Sizes), "3 boxes, 2 entries"),
    (Step::Call("count"), "30\n"),
    (Step::At(0, View::Sizes), "3 boxes, 1 entries"),
    (Step::At(0, View::Restarts), "1"),
    (Step::Used, "64"),
];

/// 64 removals, each of which is logged.
const REMOVALS_UP_TO_THE_LIMIT_ARE_LOGGED: &[(Step<'static>, &str)] = &[
    (Step::Call("count where a <= 50"), "50\n"),
    (Step::DeletesUpTo(64), "removed\n"),
    (Step::Call("count"), "36\n"),
    (Step::At(0, View::Sizes), "3 boxes, 66 entries"),
    (Step::At(0, View::Restarts), "0"),
    (Step::Used, "128"),
];

/// 70 removals, of which 35 are in each of two areas.
const REMOVALS_ARE_COUNTED_BY_AREA: &[(Step<'static>, &str)] = &[
    (Step::Call("count where a <= 50"), "50\n"),
    (Step::DeletesUpTo(70), "removed\n"),
    (Step::Call("count"), "30\n"),
    // the range stands in the tape of the second area alone
    (Step::At(0, View::Sizes), "3 boxes, 36 entries"),
    (Step::At(1, View::Sizes), "3 boxes, 37 entries"),
    (Step::At(0, View::Restarts), "0"),
    (Step::At(1, View::Restarts), "0"),
];

/// 70 rows that go by one call.
const SEVENTY_ROWS_OF_ONE_CALL: &[(Step<'static>, &str)] = &[
    (Step::Call("count where a <= 50"), "50\n"),
    (Step::Call("delete where a <= 70"), "(70 removed)\n"),
    (Step::At(0, View::Sizes), "3 boxes, 2 entries"),
    (Step::Counts, "1 begins, 2 steps, 0 tails"),
    (Step::Call("count"), "30\n"),
    (Step::At(0, View::Sizes), "3 boxes, 1 entries"),
    (Step::At(0, View::Restarts), "1"),
    // the key map of the load alone
    (Step::Counts, "1 begins, 1 steps, 0 tails"),
    (Step::Used, "64"),
    (Step::Call("delete where a <= 70"), "(0 removed)\n"),
    (
        Step::Call("select a where a < 73"),
        "71: 71\n72: 72\n(2 rows)\n",
    ),
];

/// 66 rows that go by two calls, of which one came between them.
const SIXTY_SIX_ROWS_OF_TWO_CALLS: &[(Step<'static>, &str)] = &[
    (Step::Call("count where a <= 50"), "50\n"),
    (Step::Call("delete where a <= 64"), "(64 removed)\n"),
    (Step::Call("insert 1"), "key 101\n"),
    (Step::Call("delete where a <= 65"), "(2 removed)\n"),
    (Step::Call("insert 2"), "key 102\n"),
    (Step::Merge("count"), ""),
    (Step::At(0, View::Sizes), "3 boxes, 1 entries"),
    (Step::At(0, View::Restarts), "1"),
    (
        Step::Call("select a where a < 67"),
        "66: 66\n102: 2\n(2 rows)\n",
    ),
];

/// 64 rows that go by one call, each of which is logged.
const SIXTY_FOUR_ROWS_OF_ONE_CALL: &[(Step<'static>, &str)] = &[
    (Step::Call("count where a <= 50"), "50\n"),
    (Step::Call("delete where a > 36"), "(64 removed)\n"),
    (Step::Call("count"), "36\n"),
    (Step::At(0, View::Sizes), "3 boxes, 66 entries"),
    (Step::At(0, View::Restarts), "0"),
];

/// 70 rows that go by one call, of which 35 are in each of two areas.
const ROWS_OF_ONE_CALL_IN_TWO_AREAS: &[(Step<'static>, &str)] = &[
    (Step::Call("count where a <= 50"), "50\n"),
    (Step::Call("delete where a <= 70"), "(70 removed)\n"),
    (Step::Call("count"), "30\n"),
    (Step::At(0, View::Sizes), "3 boxes, 36 entries"),
    (Step::At(1, View::Sizes), "3 boxes, 37 entries"),
    (Step::At(0, View::Restarts), "0"),
    (Step::At(1, View::Restarts), "0"),
    // then 70 that came to one of them, which begins anew
    (Step::Calls(70, "insert 36"), "key 170\n"),
    (
        Step::Call("delete where a >= 36 and a <= 36"),
        "(70 removed)\n",
    ),
    (Step::Call("count where a >= 36"), "30\n"),
    (Step::At(0, View::Restarts), "0"),
    (Step::At(1, View::Restarts), "1"),
    (Step::At(1, View::Sizes), "3 boxes, 1 entries"),
];

/// Removals of many of 100 rows whose a is the key: names, cuts, how many boxes there are, and steps.
const MANY_REMOVALS: &[(&str, &[i64], usize, &[(Step<'static>, &str)])] = &[
    (
        "removals_beyond_the_limit_are_one_load",
        &[],
        3,
        REMOVALS_BEYOND_THE_LIMIT_ARE_ONE_LOAD,
    ),
    ("seventy_removals", &[], 3, SEVENTY_REMOVALS),
    (
        "removals_up_to_the_limit_are_logged",
        &[],
        3,
        REMOVALS_UP_TO_THE_LIMIT_ARE_LOGGED,
    ),
    (
        "removals_are_counted_by_area",
        &[36],
        6,
        REMOVALS_ARE_COUNTED_BY_AREA,
    ),
    ("seventy_rows_of_one_call", &[], 3, SEVENTY_ROWS_OF_ONE_CALL),
    (
        "sixty_six_rows_of_two_calls",
        &[],
        3,
        SIXTY_SIX_ROWS_OF_TWO_CALLS,
    ),
    (
        "sixty_four_rows_of_one_call",
        &[],
        3,
        SIXTY_FOUR_ROWS_OF_ONE_CALL,
    ),
    (
        "rows_of_one_call_in_two_areas",
        &[36],
        6,
        ROWS_OF_ONE_CALL_IN_TWO_AREAS,
    ),
];

/// Rows whose a is 1, 2, 3 and so on, up to a number.
pub(crate) fn rising(alloc: Global, last: i64) -> Result<Vec<[i64; 8]>, Fail> {
    let mut cells = Vec::new(alloc);
    for before in 0..last {
        cells.push([before.wrapping_add(1), 0, 0, 0, 0, 0, 0, 0])?;
    }
    Ok(cells)
}

/// Several areas.
const AREAS: &[Case<'static>] = &[
    Case {
        name: "cells_go_from_area_to_area",
        shape: TWO_AREAS,
        boxes: Boxes {
            first: 4,
            capacity: 128,
            ..AMPLE
        },
        steps: CELLS_GO_FROM_AREA_TO_AREA,
    },
    Case {
        name: "an_area_that_is_short_again",
        shape: TWO_AREAS,
        boxes: Boxes {
            first: 6,
            capacity: 128,
            ..AMPLE
        },
        steps: AN_AREA_THAT_IS_SHORT_AGAIN,
    },
    Case {
        name: "an_area_whose_budget_is_contended",
        shape: TWO_AREAS,
        boxes: Boxes {
            first: 2,
            trouble: Trouble::Contends,
            ..AMPLE
        },
        steps: AN_AREA_WHOSE_BUDGET_IS_CONTENDED,
    },
    Case {
        name: "an_area_that_is_not_touched",
        shape: TWO_AREAS,
        boxes: Boxes { first: 4, ..AMPLE },
        steps: AN_AREA_THAT_IS_NOT_TOUCHED,
    },
    Case {
        name: "the_least_recently_used_of_all_areas",
        shape: THREE_AREAS,
        boxes: Boxes {
            capacity: 128,
            ..AMPLE
        },
        steps: THE_LEAST_RECENTLY_USED_OF_ALL_AREAS,
    },
    Case {
        name: "a_query_at_rest_uses_its_areas",
        shape: TWO_AREAS,
        boxes: Boxes { first: 2, ..AMPLE },
        steps: A_QUERY_AT_REST_USES_ITS_AREAS,
    },
    Case {
        name: "boxes_come_and_go",
        shape: TWO_AREAS,
        boxes: Boxes { later: 2, ..AMPLE },
        steps: BOXES_COME_AND_GO,
    },
];

/// One area: rows that come and go, what makes a tape begin anew, and what waits for room.
const MERGES: &[Case<'static>] = &[
    Case {
        name: "a_query_at_rest_changes_nothing",
        shape: ONE_AREA,
        boxes: AMPLE,
        steps: A_QUERY_AT_REST_CHANGES_NOTHING,
    },
    Case {
        name: "a_query_at_rest_uses_its_maps",
        shape: ONE_AREA,
        boxes: AMPLE,
        steps: A_QUERY_AT_REST_USES_ITS_MAPS,
    },
    Case {
        name: "a_row_that_comes_is_rippled_in",
        shape: ONE_AREA,
        boxes: AMPLE,
        steps: A_ROW_THAT_COMES_IS_RIPPLED_IN,
    },
    Case {
        name: "a_row_that_goes_is_rippled_out",
        shape: ONE_AREA,
        boxes: AMPLE,
        steps: A_ROW_THAT_GOES_IS_RIPPLED_OUT,
    },
    Case {
        name: "a_removal_without_a_key_map_begins_anew",
        shape: ONE_AREA,
        boxes: AMPLE,
        steps: A_REMOVAL_WITHOUT_A_KEY_MAP_BEGINS_ANEW,
    },
    Case {
        name: "what_comes_after_the_last_removal_is_logged",
        shape: ONE_AREA,
        boxes: AMPLE,
        steps: WHAT_COMES_AFTER_THE_LAST_REMOVAL_IS_LOGGED,
    },
    Case {
        name: "rows_of_one_value",
        shape: FIVES,
        boxes: AMPLE,
        steps: ROWS_OF_ONE_VALUE,
    },
    Case {
        name: "a_lease_too_small_is_asked_for_again",
        shape: ONE_AREA,
        boxes: ONE_BOX,
        steps: A_LEASE_TOO_SMALL_IS_ASKED_FOR_AGAIN,
    },
    Case {
        name: "a_lease_asked_for_again_is_counted",
        shape: ONE_AREA,
        boxes: ONE_BOX,
        steps: A_LEASE_ASKED_FOR_AGAIN_IS_COUNTED,
    },
    Case {
        name: "a_lease_too_small_grows",
        shape: ONE_AREA,
        boxes: Boxes {
            trouble: Trouble::Grows(0),
            ..ONE_BOX
        },
        steps: A_LEASE_TOO_SMALL_IS_ASKED_FOR_AGAIN,
    },
    Case {
        name: "a_contended_growth_is_not_tried_again",
        shape: ONE_AREA,
        boxes: Boxes {
            trouble: Trouble::GrowthContends,
            ..ONE_BOX
        },
        steps: A_CONTENDED_GROWTH_IS_NOT_TRIED_AGAIN,
    },
    Case {
        name: "a_removal_without_room_begins_anew",
        shape: ONE_AREA,
        boxes: ONE_BOX,
        steps: A_REMOVAL_WITHOUT_ROOM_BEGINS_ANEW,
    },
    Case {
        name: "an_insertion_that_meets_a_full_tape",
        shape: NO_ROWS,
        boxes: Boxes { first: 1, ..AMPLE },
        steps: AN_INSERTION_THAT_MEETS_A_FULL_TAPE,
    },
    Case {
        name: "a_removal_that_meets_a_full_tape",
        shape: NO_ROWS,
        boxes: Boxes { first: 1, ..AMPLE },
        steps: A_REMOVAL_THAT_MEETS_A_FULL_TAPE,
    },
    Case {
        name: "a_key_map_that_cannot_be_aligned_begins_anew",
        shape: ONE_AREA,
        boxes: Boxes {
            trouble: Trouble::Every(3),
            ..ONE_BOX
        },
        steps: A_KEY_MAP_THAT_CANNOT_BE_ALIGNED_BEGINS_ANEW,
    },
];

#[test]
fn heads_share_boxes_and_cells_among_areas(rt: HostRuntime) -> Result<(), Fail> {
    let mut text = String::new(rt.alloc());
    play_cases(&rt, rt.alloc(), AREAS, &mut text)?;
    assert_eq!(rt; text.as_str(), "");
    Ok(())
}

#[test]
fn heads_merge_what_waits(rt: HostRuntime) -> Result<(), Fail> {
    let mut text = String::new(rt.alloc());
    play_cases(&rt, rt.alloc(), MERGES, &mut text)?;
    assert_eq!(rt; text.as_str(), "");
    Ok(())
}

#[test]
fn heads_merge_many_removals(rt: HostRuntime) -> Result<(), Fail> {
    let cells = rising(rt.alloc(), 100)?;
    let mut text = String::new(rt.alloc());
    for (name, cuts, first, steps) in MANY_REMOVALS {
        if text.is_empty() {
            let case = Case {
                name: *name,
                shape: Shape {
                    header: &["a"],
                    attribute: 0,
                    cuts: *cuts,
                    cells: cells.as_slice(),
                },
                boxes: Boxes {
                    first: *first,
                    ..AMPLE
                },
                steps: *steps,
            };
            play_cases(&rt, rt.alloc(), &[case], &mut text)?;
        }
    }
    assert_eq!(rt; text.as_str(), "");
    Ok(())
}
