//! Visits of two sessions, and the limits of a spine.

ghost use Rattle.sw_query.specs.declared.query.Call.TheVariants.{Select};
ghost use Rattle.sw_spine.specs.History.{CallsBelow};
ghost use Rattle.test_spine.specs.Benches.{IsAtRest};

use crate::bench::{
    Step, Text, call_of, committed, four_rows, give_up, make_all, opened, schema, tell,
};
use std::alloc::{AllocError, Global};
use sw_rows::{
    Call, Conds, Counted, MOST_ROWS, PackedRows, Query, Refusal, Reply, Row, Update, Want, scan,
};
use sw_spine::{
    Lines, Spine, keys_are_given_once, rows_in_order_are_numbered, updates_may_come,
    visits_keep_books,
};

/// A table of so many rows at most, what is done, and what is told of it.
type Case = (u64, &'static [Step<'static>], &'static str);

const CASES: &[Case] = &[
    // An inserted row is seen; a key that is not there changes nothing.
    (
        1048576,
        &[
            Step::Change("insert 1,9,0"),
            Step::Around("count where a < 10", "delete 0"),
        ],
        "key 5\n5 updates, at most 1048576; key 5\n2\nno such key\n4 rows of 1048576 with 3 attributes\n",
    ),
    // A deleted row is not.
    (
        1048576,
        &[
            Step::Change("delete 2"),
            Step::Around("select a where a >= 10", "delete 1"),
        ],
        "removed\n6 updates, at most 1048576; removed\n1: 12\n3: 12\n4: 20\n(3 rows)\nremoved\n4 rows of 1048576 with 3 attributes\n",
    ),
    // A key goes once.
    (
        1048576,
        &[
            Step::Change("delete 2"),
            Step::Change("delete 2"),
            Step::Change("delete 0"),
        ],
        "removed\nno such key\nno such key\n5 updates, at most 1048576; removed\nno such key\nno such key\n4 rows of 1048576 with 3 attributes\n",
    ),
    // The limit counts the opening rows.
    (
        4,
        &[
            Step::Change("insert 1,1,1"),
            Step::Around("count", "delete 0"),
        ],
        "full\n4 updates, at most 4; full\n4\nno such key\n4 rows of 4 with 3 attributes\n",
    ),
    // A select's place is where it began: the insert comes after it.
    (
        1048576,
        &[
            Step::Around("count", "insert 1,9,0"),
            Step::Around("count", "delete 1"),
        ],
        "6 updates, at most 1048576; 4\nkey 5\n5\nremoved\n4 rows of 1048576 with 3 attributes\n",
    ),
    // All rows that meet conditions go in one entry, as many updates as rows; then there are none.
    (
        1048576,
        &[
            Step::Change("delete where a = 12"),
            Step::Around("select a", "delete where a = 12"),
            Step::Change("insert 1,1,1"),
        ],
        "(2 removed)\nkey 5\n7 updates, at most 1048576; (2 removed)\n2: 3\n4: 20\n(2 rows)\n(0 removed)\nkey 5\n4 rows of 1048576 with 3 attributes\n",
    ),
    // Such a delete comes after a select that began before it, takes rows that were inserted, and passes over those that are gone.
    (
        1048576,
        &[
            Step::Around("count where a >= 12", "insert 12,9,0"),
            Step::Change("delete 3"),
            Step::Around("count where a >= 12", "delete where a <= 12 and b > 5"),
            Step::Around("select b", "delete where b <= 2"),
            Step::Change("delete 5"),
            Step::Around("count", "delete where a > 12"),
        ],
        "removed\nno such key\n10 updates, at most 1048576; 3\nkey 5\nremoved\n3\n(3 removed)\n4: 2\n(1 rows)\n(1 removed)\nno such key\n0\n(0 removed)\n4 rows of 1048576 with 3 attributes\n",
    ),
    // Rows that are gone count for the limit, and their keys are not given again.
    (
        5,
        &[
            Step::Change("delete where a >= 0"),
            Step::Change("insert 1,1,1"),
            Step::Change("insert 2,2,2"),
            Step::Around("select a", "delete where c = 1"),
        ],
        "(4 removed)\nkey 5\nfull\n10 updates, at most 5; (4 removed)\nkey 5\nfull\n5: 1\n(1 rows)\n(1 removed)\n4 rows of 5 with 3 attributes\n",
    ),
];

/// Tells a case.
fn tell_case(
    alloc: Global,
    limit: u64,
    steps: &[Step<'_>],
    text: &mut Text,
) -> Result<(), Refusal> {
    if limit < 4 || limit > MOST_ROWS {
        return Err(Refusal::Input);
    }
    let mut rows = four_rows(alloc)?;
    let mut spine = opened(alloc, rows.as_slice(), limit)?;
    make_all(alloc, &mut spine, &mut rows, steps, text)?;
    tell(spine, text)
}

#[test]
fn cases_are_told_as_wanted(rt: HostRuntime) -> Result<(), Refusal> {
    for (limit, steps, wanted) in CASES {
        let mut text = Counted::new(Vec::new(rt.alloc()));
        tell_case(rt.alloc(), *limit, steps, &mut text)?;
        assert!(rt; text.inner.as_slice() == wanted.as_bytes(), "{wanted}");
    }
    Ok(())
}

/// `count`.
fn all_counted(alloc: Global) -> Query
    ensures { CallsBelow 3 (Select result) }
{
    Query {
        conds: Conds::new(alloc),
        want: Want::Count,
    }
}

/// A row is deleted, and then session 2 gives up two selects for head 7. It is said whether the head was handed the one
/// update, once.
fn give_up_twice(alloc: Global, spine: &mut Spine, rows: &[Row]) -> Result<bool, Refusal>
    requires rest { IsAtRest spine.old rows.now }
{
    let _ = spine.commit(1, Call::Delete(2))?;
    let mut inbox = Vec::new(alloc);
    let first = give_up(spine, rows, all_counted(alloc), &mut inbox)?;
    let second = give_up(spine, rows, all_counted(alloc), &mut inbox)?;
    Ok(first && second && matches!(inbox.as_slice(), [Update::Remove(2)]))
}

/// The rows whose a is 12 are deleted at once, and then session 2 gives up a select for head 7. It is said whether the head
/// was handed their removals, in the order of their keys.
fn take_removals(alloc: Global, spine: &mut Spine, rows: &[Row]) -> Result<bool, Refusal>
    requires rest { IsAtRest spine.old rows.now }
{
    let call = call_of(alloc, spine.schema(), "delete where a = 12")?;
    let _ = committed(spine, rows, call)?;
    let mut inbox = Vec::new(alloc);
    let is_given_up = give_up(spine, rows, all_counted(alloc), &mut inbox)?;
    Ok(is_given_up && matches!(inbox.as_slice(), [Update::Remove(1), Update::Remove(3)]))
}

/// Whether head 7 takes removals that were made at once in the order of their keys.
fn takes_in_order(alloc: Global) -> Result<bool, Refusal> {
    let rows = four_rows(alloc)?;
    let mut spine = opened(alloc, rows.as_slice(), 1048576)?;
    take_removals(alloc, &mut spine, rows.as_slice())
}

/// Says that all updates are published. It is said whether four were before, and five are then.
fn publish(spine: &mut Spine) -> bool {
    let before = spine.published();
    let count = spine.update_count();
    if before > count {
        return false;
    }
    spine.set_published(count);
    let after = spine.published();
    before == 4 && after == 5 && count == 5 && spine.updates_from(after).is_empty()
}

/// Whether head 7 takes the one update that it has not taken, once, and a select that is given up changes nothing.
fn takes_once(alloc: Global) -> Result<bool, Refusal> {
    let rows = four_rows(alloc)?;
    let mut spine = opened(alloc, rows.as_slice(), 1048576)?;
    let is_taken = give_up_twice(alloc, &mut spine, rows.as_slice())?;
    Ok(is_taken && publish(&mut spine))
}

/// Whether a record that is read where it stands has one entry of session 1, and the opening rows.
fn has_one_entry(spine: &Spine) -> bool {
    let record = spine.record();
    record.entries.len() == 1
        && record
            .entries
            .first()
            .is_some_and(|entry| entry.session() == 1)
        && record.rows.len() == 4
        && record.limit == 1048576
}

/// Row 2 is deleted. It is said whether the history then shows that entry, and a pass meets the other three rows.
fn delete_and_look(alloc: Global, spine: &mut Spine, rows: &[Row]) -> Result<bool, Refusal>
    requires rest { IsAtRest spine.old rows.now }
{
    let _ = spine.commit(1, Call::Delete(2))?;
    let left = scan(alloc, &spine.given(), &all_counted(alloc))?;
    Ok(has_one_entry(spine) && matches!(left, Reply::Count(3)))
}

/// Whether a history shows its entries and rows while it goes on.
fn shows_what_stands(alloc: Global) -> Result<bool, Refusal> {
    let rows = four_rows(alloc)?;
    let mut spine = opened(alloc, rows.as_slice(), 1048576)?;
    let is_shown = delete_and_look(alloc, &mut spine, rows.as_slice())?;
    Ok(is_shown && spine.open_session()? == 3)
}

/// Whether so many sessions that are opened have the numbers from 1 on.
fn are_numbered(spine: &mut Spine, count: u64) -> Result<bool, Refusal> {
    for before in 0..count {
        if spine.open_session()? != before + 1 {
            return Ok(false);
        }
    }
    Ok(true)
}

/// Whether 1,024 sessions are opened, and no further one.
fn are_limited(alloc: Global) -> Result<bool, Refusal> {
    let mut spine = Spine::new(alloc, schema(alloc)?, PackedRows::new(alloc, 3), 1)?;
    let are_numbered = are_numbered(&mut spine, 1024)?;
    let refused = spine.open_session();
    let is_refused = matches!(refused, Err(Refusal::TooMany { limit: 1024 }));
    Ok(are_numbered && is_refused && spine.schema().len() == 3)
}

/// Whether four rows are refused under a limit of three.
fn are_refused(alloc: Global) -> Result<bool, Refusal> {
    let rows = four_rows(alloc)?;
    let Ok(rows) = PackedRows::of(alloc, rows.as_slice()) else {
        return Err(Refusal::NoMemory);
    };
    let made = Spine::new(alloc, schema(alloc)?, rows, 3);
    Ok(matches!(made, Err(Refusal::TooMany { limit: 3 })))
}

/// How many lines are kept of one.
fn lines_kept(alloc: Global) -> Result<usize, AllocError> {
    let lines = Lines::of(vec![in alloc; String::from_str(alloc, "full")?]?);
    Ok(lines.as_slice().len())
}

#[test]
fn limits_hold_and_heads_take_once(rt: HostRuntime) -> Result<(), Refusal> {
    let alloc = rt.alloc();
    assert!(rt; takes_once(alloc)?);
    assert!(rt; takes_in_order(alloc)?);
    assert!(rt; shows_what_stands(alloc)?);
    assert!(rt; are_limited(alloc)?);
    assert!(rt; are_refused(alloc)?);
    assert!(rt; matches!(lines_kept(alloc), Ok(1)));
    visits_keep_books();
    keys_are_given_once();
    rows_in_order_are_numbered();
    updates_may_come();
    Ok(())
}
