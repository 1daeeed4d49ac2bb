//! Worked examples: calls whose replies are known, over heads with a cut and with none, with maps and without.

use crate::scenes::{Boxes, FOUR_ROWS, Scene, Trouble, play};
use crate::trials::{Shape, Stock, Trial, open, tell};
use std::alloc::Global;
use std::test::Fail;
use std::thread::Threads;
use sw_map::CrackerMap;

/// Calls over a head of a shape with their replies, and whether areas have to be scanned for them, where that is known.
#[derive(Clone, Copy)]
pub(crate) struct Worked<'t> {
    pub shape: Shape<'t>,
    pub lines: &'t [(&'t str, &'t str)],
    pub is_scanned: Option<bool>,
}

/// Makes the calls, and tells the first reply that is not as it is known. At an empty line the map that was used longest ago is
/// cleared.
fn lines_made<R: Threads + Sync, M: CrackerMap>(
    rt: &R,
    trial: &mut Trial<M>,
    calls: Worked<'_>,
    text: &mut String,
) -> Result<(), Fail> {
    for place in 0..calls.lines.len() {
        let (line, expected) = calls.lines[place];
        text.clear();
        if line.is_empty() {
            let _cells = trial.head.evict(1);
        }
        let _same = tell(rt, trial, line, text)?;
        if text.as_str() != expected {
            return Ok(write!(text, " to {line}")?);
        }
    }
    text.clear();
    match calls.is_scanned {
        Some(is_scanned) if is_scanned != (trial.scans > 0) => {
            Ok(write!(text, "{} areas were scanned", trial.scans)?)
        }
        _ => Ok(()),
    }
}

/// Makes the calls over this stock, and tells what is wrong.
pub(crate) fn make_calls<R: Threads + Sync, M: CrackerMap>(
    rt: &R,
    stock: Stock<M>,
    calls: Worked<'_>,
    text: &mut String,
) -> Result<(), Fail> {
    let mut trial = open(stock, calls.shape)?;
    lines_made(rt, &mut trial, calls, text)
}

/// A header, the cells of rows, the attribute of a head, and calls of a table of them with their replies.
type Told<'t> = (&'t [&'t str], &'t [[i64; 8]], u8, &'t [(&'t str, &'t str)]);

const ABC: &[&str] = &["a", "b", "c"];

const PRICES: &[&str] = &["price:fix2", "ok:flag"];

/// Three rows of a price in hundredths and a flag.
const PRICED: [[i64; 8]; 3] = [
    [750, 1, 0, 0, 0, 0, 0, 0],
    [-25, 0, 0, 0, 0, 0, 0, 0],
    [300, 1, 0, 0, 0, 0, 0, 0],
];

/// Two rows of b from a range of a.
const RANGE: (&str, &str) = (
    "select b where a >= 10 and a <= 15",
    "1: 7\n3: 5\n(2 rows)\n",
);

/// Each list of calls is made of a head of its own.
const TOLD: &[Told<'static>] = &[
    (
        ABC,
        &FOUR_ROWS,
        0,
        &[
            RANGE,
            RANGE,
            (
                "select b, c where a >= 10 and a <= 15",
                "1: 7, 1\n3: 5, 1\n(2 rows)\n",
            ),
        ],
    ),
    (
        ABC,
        &FOUR_ROWS,
        0,
        &[
            RANGE,
            ("insert 1, 9, 0", "key 5\n"),
            ("count where a < 10", "2\n"),
            (
                "select b where a < 15",
                "1: 7\n2: 8\n3: 5\n5: 9\n(4 rows)\n",
            ),
        ],
    ),
    (
        ABC,
        &FOUR_ROWS,
        0,
        &[
            RANGE,
            ("delete 2", "removed\n"),
            ("select a where a >= 10", "1: 12\n3: 12\n4: 20\n(3 rows)\n"),
            ("sum b where a >= 10 and a <= 15", "12\n"),
        ],
    ),
    (
        ABC,
        &FOUR_ROWS,
        0,
        &[
            RANGE,
            ("", ""),
            ("delete 2", "removed\n"),
            ("select a where a >= 10", "1: 12\n3: 12\n4: 20\n(3 rows)\n"),
        ],
    ),
    (
        ABC,
        &FOUR_ROWS,
        0,
        &[
            ("delete 2", "removed\n"),
            ("delete 2", "no such key\n"),
            ("delete 0", "no such key\n"),
            ("insert 30, 1, 1", "key 5\n"),
            ("delete 5", "removed\n"),
            ("delete 5", "no such key\n"),
            ("select a", "1: 12\n3: 12\n4: 20\n(3 rows)\n"),
            ("insert 30, 1, 1", "key 6\n"),
            ("count", "4\n"),
        ],
    ),
    (
        ABC,
        &FOUR_ROWS,
        0,
        &[
            RANGE,
            ("delete where a = 12", "(2 removed)\n"),
            ("select a", "2: 3\n4: 20\n(2 rows)\n"),
            ("delete where a = 12", "(0 removed)\n"),
            ("insert 1, 1, 1", "key 5\n"),
            ("delete where b > 2 and c = 0", "(1 removed)\n"),
            ("select c where a < 20", "5: 1\n(1 rows)\n"),
            ("count", "2\n"),
        ],
    ),
    (
        ABC,
        &FOUR_ROWS,
        0,
        &[
            ("select b where a >= 15 and a <= 10", "(0 rows)\n"),
            (
                "count where a >= -9223372036854775808 and a <= 9223372036854775807",
                "4\n",
            ),
        ],
    ),
    (
        &["a"],
        &[[5, 0, 0, 0, 0, 0, 0, 0]; 3],
        0,
        &[
            ("count where a = 5", "3\n"),
            ("count where a < 5", "0\n"),
            ("insert 7", "key 4\n"),
            ("insert 4", "key 5\n"),
            (
                "select a where a <= 5",
                "1: 5\n2: 5\n3: 5\n5: 4\n(4 rows)\n",
            ),
        ],
    ),
    (
        ABC,
        &[],
        0,
        &[
            ("count", "0\n"),
            ("min b", "none\n"),
            ("sum b", "0\n"),
            ("select a", "(0 rows)\n"),
            ("max c where a < 5 and b > 1", "none\n"),
        ],
    ),
    (
        &["x"],
        &[[i64::MAX, 0, 0, 0, 0, 0, 0, 0]; 4],
        0,
        &[("sum x", "36893488147419103228\n")],
    ),
    (
        ABC,
        &FOUR_ROWS,
        0,
        &[
            ("select b where a < 12", "2: 8\n(1 rows)\n"),
            ("select b where a <= 12", "1: 7\n2: 8\n3: 5\n(3 rows)\n"),
        ],
    ),
    (
        ABC,
        &FOUR_ROWS,
        0,
        &[
            (
                "select a where a >= 10 and b < 6",
                "3: 12\n4: 20\n(2 rows)\n",
            ),
            ("sum b where a >= 10", "14\n"),
            ("min b where a >= 10", "2\n"),
            ("max b where a >= 10 and c = 1", "7\n"),
            ("sum a", "47\n"),
            ("count where a >= 10 and b > 4 and c = 1", "2\n"),
            ("min c where a >= 10 and b > 90", "none\n"),
        ],
    ),
    (
        ABC,
        &FOUR_ROWS,
        0,
        &[
            ("select b where a >= 10", "1: 7\n3: 5\n4: 2\n(3 rows)\n"),
            ("select c where a >= 10", "1: 1\n3: 1\n4: 0\n(3 rows)\n"),
            (
                "select b, c where a >= 10",
                "1: 7, 1\n3: 5, 1\n4: 2, 0\n(3 rows)\n",
            ),
        ],
    ),
    (
        PRICES,
        &PRICED,
        1,
        &[(
            "select price where ok = true",
            "1: 7.50\n3: 3.00\n(2 rows)\n",
        )],
    ),
    (
        PRICES,
        &PRICED,
        0,
        &[
            ("sum price", "10.25\n"),
            ("min price", "-0.25\n"),
            ("max ok", "true\n"),
            ("sum ok", "2\n"),
            ("select price where price < 0.2", "2: -0.25\n(1 rows)\n"),
        ],
    ),
];

/// A kind of head: its cuts, its boxes, the cells of their budget and what they do besides, and whether areas have to be scanned,
/// where that is known.
#[derive(Clone, Copy)]
struct Kind<'t> {
    cuts: &'t [i64],
    first: usize,
    capacity: u64,
    trouble: Trouble,
    is_scanned: Option<bool>,
}

/// Without cuts, with boxes and cells for all maps.
const WHOLE: Kind<'static> = Kind {
    cuts: &[],
    first: 3,
    capacity: 1 << 20,
    trouble: Trouble::Every(0),
    is_scanned: Some(false),
};

/// The same with a cut.
const CUT: Kind<'static> = Kind {
    cuts: &[12],
    first: 6,
    ..WHOLE
};

/// Heads whose maps are made and stepped, and heads that are scanned for want of cells or boxes.
const HEADS: &[Kind<'static>] = &[
    WHOLE,
    CUT,
    Kind {
        capacity: 0,
        is_scanned: Some(true),
        ..WHOLE
    },
    Kind {
        capacity: 0,
        is_scanned: Some(true),
        ..CUT
    },
    Kind {
        first: 0,
        is_scanned: Some(true),
        ..CUT
    },
];

/// What maps do besides, and whether areas have to be scanned then: each step is refused, every second, and so on up to every
/// fifth; or every second begin finds the budget contended.
const TROUBLES: &[(Trouble, Option<bool>)] = &[
    (Trouble::Every(1), Some(true)),
    (Trouble::Every(2), None),
    (Trouble::Every(3), None),
    (Trouble::Every(4), None),
    (Trouble::Every(5), None),
    (Trouble::Contends, None),
];

/// Makes all lists of calls over heads of one kind.
fn worked_over<R: Threads + Sync>(
    rt: &R,
    alloc: Global,
    kind: Kind<'_>,
    text: &mut String,
) -> Result<(), Fail> {
    let boxes = Boxes {
        first: kind.first,
        later: 0,
        capacity: kind.capacity,
        trouble: kind.trouble,
    };
    for (header, cells, attribute, lines) in TOLD {
        let shape = Shape {
            header: *header,
            attribute: *attribute,
            cuts: kind.cuts,
            cells: *cells,
        };
        let mut scene = Scene::Worked(Worked {
            shape,
            lines: *lines,
            is_scanned: kind.is_scanned,
        });
        play(rt, alloc, boxes, &mut scene, text)?;
        if !text.is_empty() {
            return Ok(write!(text, ", {} boxes, {} cells", kind.first, kind.capacity)?);
        }
    }
    Ok(())
}

/// Makes them over heads without cuts and with a cut, over maps with this trouble.
fn worked_in_trouble<R: Threads + Sync>(
    rt: &R,
    alloc: Global,
    trouble: Trouble,
    is_scanned: Option<bool>,
    text: &mut String,
) -> Result<(), Fail> {
    for kind in [WHOLE, CUT] {
        if text.is_empty() {
            let kind = Kind {
                trouble,
                is_scanned,
                ..kind
            };
            worked_over(rt, alloc, kind, text)?;
        }
    }
    Ok(())
}

#[test]
fn worked_examples_are_told(rt: HostRuntime) -> Result<(), Fail> {
    let mut text = String::new(rt.alloc());
    for kind in HEADS {
        if text.is_empty() {
            worked_over(&rt, rt.alloc(), *kind, &mut text)?;
        }
    }
    assert_eq!(rt; text.as_str(), "");
    Ok(())
}

#[test]
fn worked_examples_are_told_whatever_maps_refuse(rt: HostRuntime) -> Result<(), Fail> {
    let mut text = String::new(rt.alloc());
    for (trouble, is_scanned) in TROUBLES {
        if text.is_empty() {
            worked_in_trouble(&rt, rt.alloc(), *trouble, *is_scanned, &mut text)?;
        }
    }
    assert_eq!(rt; text.as_str(), "");
    Ok(())
}
