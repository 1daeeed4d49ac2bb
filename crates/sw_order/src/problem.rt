//! What the search is given: calls, rows and sessions.

use crate::building::Rules;
use crate::index::Index;
use crate::small::{Part, at, items_of};
use crate::tasks::{MANY, NO_TASK, Range, Task, Weigh};
use std::alloc::Global;
use sw_logs::By;

/// Rows among which those stand that meet some conditions.
#[derive(Clone, Copy)]
pub(crate) enum Near<'a> {
    /// These.
    These(&'a [usize]),
    /// All rows: how many there are.
    All(usize),
}

impl Near<'_> {
    /// How many there are.
    #[inline]
    pub(crate) fn len(&self) -> usize {
        match self {
            Near::These(rows) => rows.len(),
            Near::All(count) => *count,
        }
    }

    /// The row at a place; the number of none where there are no more.
    #[inline]
    pub(crate) fn row(&self, place: usize) -> usize {
        match self {
            Near::These(rows) => at(rows, place, usize::MAX),
            Near::All(_) => place,
        }
    }
}

/// The calls with the rows that may ever live.
pub(crate) struct Problem {
    pub(crate) tasks: Vec<Task>,
    pub(crate) ranges: Vec<Range>,
    /// Rows of replies with their keys, those of a reply in ascending order.
    pub(crate) given: Vec<(usize, u64)>,
    /// The opening rows, and those of all inserts.
    pub(crate) cells: Vec<[i64; 8]>,
    /// The rows' keys, 0 of those whose insert is of unknown outcome.
    pub(crate) keys: Vec<u64>,
    /// The calls that insert rows; of opening rows none.
    pub(crate) makers: Vec<Option<usize>>,
    pub(crate) indexes: Vec<Index>,
    /// The calls of known outcome of each session, in their order.
    pub(crate) sessions: Vec<Vec<usize>>,
    /// Of each call the least start, and the least `last`, of it and the later ones of its session.
    pub(crate) earliest: Vec<u64>,
    pub(crate) soonest: Vec<u64>,
    /// The calls of unknown outcome that may change anything, each with how many of known outcome its session made before.
    pub(crate) loose: Vec<(usize, usize)>,
    pub(crate) known: usize,
    pub(crate) opening: usize,
    pub(crate) limit: u64,
    pub(crate) has_times: bool,
    /// Whether keys are whatever the store gave.
    pub(crate) any_keys: bool,
}

// By hand: the drop of a derived one is written out at each way out of a function.
impl Drop for Problem {
    fn drop(self) {
        let Self {
            tasks: _tasks,
            ranges: _ranges,
            given: _given,
            cells: _cells,
            keys: _keys,
            makers: _makers,
            indexes: _indexes,
            sessions: _sessions,
            earliest: _earliest,
            soonest: _soonest,
            loose: _loose,
            known: _,
            opening: _,
            limit: _,
            has_times: _,
            any_keys: _,
        } = self;
    }
}

impl Problem {
    /// No calls and no rows.
    pub(crate) fn new(alloc: Global, limit: u64, rules: Rules) -> Problem {
        Problem {
            tasks: Vec::new(alloc),
            ranges: Vec::new(alloc),
            given: Vec::new(alloc),
            cells: Vec::new(alloc),
            keys: Vec::new(alloc),
            makers: Vec::new(alloc),
            indexes: Vec::new(alloc),
            sessions: Vec::new(alloc),
            earliest: Vec::new(alloc),
            soonest: Vec::new(alloc),
            loose: Vec::new(alloc),
            known: 0,
            opening: 0,
            limit,
            has_times: matches!(rules.by, By::Times { .. }),
            any_keys: rules.any_keys,
        }
    }

    #[inline]
    pub(crate) fn task(&self, number: usize) -> Task {
        at(&self.tasks, number, NO_TASK)
    }

    #[inline]
    pub(crate) fn ranges_of(&self, task: &Task) -> &[Range] {
        items_of(&self.ranges, task.ranges)
    }

    /// The cell of a row.
    #[inline]
    pub(crate) fn cell(&self, row: usize, attr: usize) -> i64 {
        match self.cells.get(row) {
            Some(cells) => at(cells, attr, 0),
            None => 0,
        }
    }

    /// Whether a row meets all conditions of a call.
    #[inline]
    pub(crate) fn meets(&self, task: &Task, row: usize) -> bool {
        for range in self.ranges_of(task) {
            let cell = self.cell(row, range.attr);
            if cell < range.low || cell > range.high {
                return false;
            }
        }
        true
    }

    /// Whether one of a call's conditions takes no cell that a range takes.
    fn is_apart(&self, range: &Range, task: &Task) -> bool {
        for second in self.ranges_of(task) {
            if range.attr == second.attr && (range.high < second.low || second.high < range.low) {
                return true;
            }
        }
        false
    }

    /// Whether no row can meet the conditions of both calls.
    pub(crate) fn are_apart(&self, one: &Task, other: &Task) -> bool {
        for range in self.ranges_of(one) {
            if self.is_apart(range, other) {
                return true;
            }
        }
        false
    }

    /// The fewest rows in some order among which those of a call's conditions are: the attribute, and where they stand.
    /// None where it has no conditions.
    fn fewest(&self, task: &Task) -> Option<(usize, Part)> {
        let mut best: Option<(usize, Part)> = None;
        for range in self.ranges_of(task) {
            if let Some(index) = self.indexes.get(range.attr) {
                let span = index.span(*range);
                let many = span.to.saturating_sub(span.from);
                best = match best {
                    Some((attr, old)) if old.to.saturating_sub(old.from) <= many => {
                        Some((attr, old))
                    }
                    _ => Some((range.attr, span)),
                };
            }
        }
        best
    }

    /// Rows among which those of a call's conditions are.
    pub(crate) fn near(&self, task: &Task) -> Near<'_> {
        let Some((attr, span)) = self.fewest(task) else {
            return Near::All(self.cells.len());
        };
        match self.indexes.get(attr) {
            Some(index) => Near::These(items_of(&index.rows, span)),
            None => Near::All(self.cells.len()),
        }
    }

    /// Whether a row of a key is one of a call's reply.
    pub(crate) fn is_given(&self, task: &Task, row: usize, key: u64) -> bool {
        items_of(&self.given, task.given)
            .binary_search(&(row, key))
            .is_ok()
    }

    /// What a row of a key adds to the number by which a call's reply is told.
    #[inline]
    pub(crate) fn weight(&self, task: &Task, row: usize, key: u64) -> i128 {
        match task.weigh() {
            Weigh::One => 1,
            Weigh::Cell(attr) => i128::from(self.cell(row, attr)),
            Weigh::Least(attr, value) => extreme_weight(value, self.cell(row, attr)),
            Weigh::Greatest(attr, value) => extreme_weight(self.cell(row, attr), value),
            Weigh::Given if self.is_given(task, row, key) => 1,
            Weigh::Given => MANY,
        }
    }
}

/// `MANY` where the first is above the second, one where it is the same, else nothing.
fn extreme_weight(first: i64, second: i64) -> i128 {
    if first > second {
        MANY
    } else if first == second {
        1
    } else {
        0
    }
}
