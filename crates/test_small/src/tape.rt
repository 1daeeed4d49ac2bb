//! A tape from its load to its last entry.

ghost use Rattle.std.specs.Prelude.{◌≡◌, IfOk};
ghost use Rattle.sw_kernel.specs.Tapes.{MayFollow, count_from};
ghost use Rattle.sw_tape.specs.Entries.{step_of};

use std::alloc::Global;
use sw_rows::{Bound, PackedRows, Refusal, Row};
use sw_tape::{Entry, LoadRows, MAX_ENTRIES, Tape};

/// A row of a key and one cell.
fn row(key: u64, cell: i64) -> Row {
    Row {
        key,
        cells: [cell, 0, 0, 0, 0, 0, 0, 0],
    }
}

/// A tape of one load of four rows.
fn worked_tape(alloc: Global) -> Result<Tape, Refusal>
    ensures { IfOk result (λ tape. count_from 0 tape ≡ 4) }
{
    Tape::new(alloc, &[row(1, 12), row(2, 3), row(3, 12), row(4, 20)])
}

/// The bounds of a range.
type Range = (Option<Bound>, Option<Bound>);

/// Adds ranges.
fn add_ranges(tape: &mut Tape, ranges: &[Range]) -> Result<(), Refusal> {
    for (lower, upper) in ranges {
        tape.push(Entry::Range(*lower, *upper))?;
    }
    Ok(())
}

/// Adds the insertions of rows.
fn insert_all(tape: &mut Tape, rows: &[Row]) -> Result<(), Refusal> {
    for row in rows {
        tape.push(Entry::Insert(*row))?;
    }
    Ok(())
}

/// Whether bounds stand in ranges of the tape, as it is said of each.
fn are_marked(tape: &Tape, bounds: &[(Bound, bool)]) -> bool {
    for (bound, wanted) in bounds {
        if tape.marked(*bound) != *wanted {
            return false;
        }
    }
    true
}

const RANGES: &[Range] = &[
    (Some(Bound::Before(10)), None),
    (None, Some(Bound::After(15))),
    (Some(Bound::Before(-3)), Some(Bound::Before(10))),
];

const MARKED: &[(Bound, bool)] = &[
    (Bound::Before(10), true),
    (Bound::After(15), true),
    (Bound::Before(-3), true),
    (Bound::After(10), false),
    (Bound::Before(15), false),
    (Bound::Before(0), false),
];

/// Whether the bounds of ranges are marked, and a range adds no pair.
fn ranges_are_marked(alloc: Global) -> Result<bool, Refusal> {
    let mut tape = worked_tape(alloc)?;
    add_ranges(&mut tape, RANGES)?;
    Ok(tape.len() == 4 && tape.peak() == 4 && are_marked(&tape, MARKED))
}

/// Whether the peak is the most there was, of the restarted tape alone.
fn peak_is_kept(tape: &mut Tape) -> Result<bool, Refusal> {
    insert_all(tape, &[row(5, 7), row(6, 8)])?;
    let six = tape.peak() == 6;
    tape.restart(&[row(6, 8)])?;
    let one = tape.len() == 1 && tape.peak() == 1 && !tape.marked(Bound::Before(10));
    tape.restart(&[])?;
    Ok(six && one && tape.len() == 1 && tape.peak() == 0)
}

/// Whether entries come back as they went in.
fn entries_come_back(tape: &mut Tape) -> Result<bool, Refusal>
    requires { count_from 0 tape.old ≡ 4 }
{
    tape.push(Entry::Remove(3))?;
    let load = matches!(tape.get(0), Some(Entry::Load(rows)) if rows.len() == 4);
    let removal = matches!(tape.get(1), Some(Entry::Remove(3)));
    Ok(load && removal && tape.get(2).is_none() && tape.peak() == 4)
}

/// Adds ranges up to the last entry that there may be.
fn fill(tape: &mut Tape) -> Result<(), Refusal> {
    for value in 1..4096i64 {
        tape.push(Entry::Range(Some(Bound::Before(value)), None))?;
    }
    Ok(())
}

/// Whether an entry is refused since the tape is full.
fn is_full(tape: &mut Tape, entry: Entry) -> bool
    requires { MayFollow (count_from 0 tape.old) (step_of entry) }
{
    matches!(tape.push(entry), Err(Refusal::TooMany { limit: 4096 }))
}

const FILLED: &[(Bound, bool)] = &[
    (Bound::Before(1), true),
    (Bound::Before(4095), true),
    (Bound::Before(4096), false),
];

/// Whether the entry after the last is refused, and nothing changes then.
fn one_more_is_refused(alloc: Global) -> Result<bool, Refusal> {
    let mut tape = worked_tape(alloc)?;
    fill(&mut tape)?;
    let filled = tape.len() == MAX_ENTRIES && are_marked(&tape, FILLED);
    let range = is_full(&mut tape, Entry::Range(Some(Bound::Before(4096)), None));
    let insert = is_full(&mut tape, Entry::Insert(row(5, 7)));
    let same = tape.len() == MAX_ENTRIES && are_marked(&tape, FILLED) && tape.peak() == 4;
    Ok(filled && range && insert && same)
}

const CROSSED: &[Range] = &[
    (Some(Bound::Before(10)), Some(Bound::After(15))),
    (Some(Bound::After(12)), Some(Bound::Before(20))),
];

/// A value, and the nearest bounds around it.
const AROUND: &[(i64, Range)] = &[
    (12, (Some(Bound::Before(10)), Some(Bound::After(12)))),
    (13, (Some(Bound::After(12)), Some(Bound::After(15)))),
    (10, (Some(Bound::Before(10)), Some(Bound::After(12)))),
    (3, (None, Some(Bound::Before(10)))),
    (20, (Some(Bound::Before(20)), None)),
];

/// Whether the nearest bounds around values are those that are said.
fn are_around(tape: &Tape, around: &[(i64, Range)]) -> bool {
    for (value, bounds) in around {
        if tape.around(*value) != *bounds {
            return false;
        }
    }
    true
}

/// Whether the nearest bounds are around each value.
fn nearest_are_around(alloc: Global) -> Result<bool, Refusal> {
    let mut tape = worked_tape(alloc)?;
    let none = tape.around(12) == (None, None);
    add_ranges(&mut tape, CROSSED)?;
    Ok(none && are_around(&tape, AROUND))
}

/// Whether rows have these keys, in their order.
fn have_keys(rows: &LoadRows, keys: &[u64]) -> bool {
    if rows.len() != keys.len() {
        return false;
    }
    for place in 0..keys.len() {
        if rows.key(place) != keys[place] {
            return false;
        }
    }
    true
}

/// Whether the tape is one load of rows with these keys.
fn loads(tape: &Tape, keys: &[u64]) -> bool {
    let Some(Entry::Load(rows)) = tape.get(0) else {
        return false;
    };
    tape.len() == 1 && have_keys(rows, keys)
}

/// These rows, packed.
fn packed(alloc: Global, rows: &[Row]) -> Result<PackedRows, Refusal> {
    match PackedRows::of(alloc, rows) {
        Ok(packed) => Ok(packed),
        Err(_) => Err(Refusal::NoMemory),
    }
}

/// Begins the tape anew with the live rows, where there is a flag for each.
fn restart(tape: &mut Tape, later: &PackedRows, live: &[bool]) -> Result<(), Refusal> {
    let Some(Entry::Load(rows)) = tape.get(0) else {
        return Err(Refusal::TooMany { limit: 0 });
    };
    if rows.len().checked_add(later.len()) != Some(live.len()) {
        return Err(Refusal::TooMany { limit: 1 });
    }
    tape.restart_live(later, live)
}

/// Whether the live rows of the load and of later ones are kept, and nothing else.
fn live_are_kept(alloc: Global, tape: &mut Tape) -> Result<bool, Refusal> {
    add_ranges(tape, RANGES)?;
    let later = [row(5, 7), row(6, 8)];
    insert_all(tape, &later)?;
    restart(
        tape,
        &packed(alloc, &later)?,
        &[true, false, true, true, false, true],
    )?;
    let four = loads(tape, &[1, 3, 4, 6]) && tape.peak() == 4 && !tape.marked(Bound::Before(10));
    Ok(four)
}

/// Whether rows are kept beside one more, and then none are.
fn kept_again(alloc: Global, tape: &mut Tape) -> Result<bool, Refusal> {
    insert_all(tape, &[row(7, 9)])?;
    let grown = tape.peak() == 5 && tape.len() == 2;
    restart(tape, &packed(alloc, &[row(7, 9)])?, &[true; 5])?;
    let five = loads(tape, &[1, 3, 4, 6, 7]);
    restart(tape, &packed(alloc, &[])?, &[false; 5])?;
    Ok(grown && five && loads(tape, &[]) && tape.peak() == 0)
}

/// Whether entries of a tape come back.
fn all_come_back(alloc: Global) -> Result<bool, Refusal> {
    let mut tape = worked_tape(alloc)?;
    entries_come_back(&mut tape)
}

/// Whether a tape keeps its peak.
fn keeps_peak(alloc: Global) -> Result<bool, Refusal> {
    let mut tape = worked_tape(alloc)?;
    peak_is_kept(&mut tape)
}

/// Whether a tape keeps live rows, and again beside one more.
fn keeps_rows(alloc: Global) -> Result<bool, Refusal> {
    let mut tape = worked_tape(alloc)?;
    Ok(live_are_kept(alloc, &mut tape)? && kept_again(alloc, &mut tape)?)
}

#[test]
fn ranges_are_marked_and_limited(rt: HostRuntime) -> Result<(), Refusal> {
    assert!(rt; ranges_are_marked(rt.alloc())?);
    assert!(rt; one_more_is_refused(rt.alloc())?);
    assert!(rt; nearest_are_around(rt.alloc())?);
    Ok(())
}

#[test]
fn entries_come_back_and_rows_are_kept(rt: HostRuntime) -> Result<(), Refusal> {
    assert!(rt; all_come_back(rt.alloc())?);
    assert!(rt; keeps_peak(rt.alloc())?);
    assert!(rt; keeps_rows(rt.alloc())?);
    Ok(())
}
