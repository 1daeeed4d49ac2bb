//! Calls as the search sees them.

use crate::small::{NOTHING, Part};

/// The cells of an attribute that a condition takes, both ends included; none where `low` is above `high`.
#[derive(Clone, Copy)]
pub(crate) struct Range {
    pub(crate) attr: usize,
    pub(crate) low: i64,
    pub(crate) high: i64,
}

/// What a row of a call's conditions adds to the number by which its reply is told.
#[derive(Clone, Copy)]
pub(crate) enum Weigh {
    /// One.
    One,
    /// Its cell.
    Cell(usize),
    /// `MANY` where its cell is below a value, one where it is the value.
    Least(usize, i64),
    /// `MANY` where its cell is above a value, one where it is the value.
    Greatest(usize, i64),
    /// One where it is a row of the reply, else `MANY`.
    Given,
}

/// More than there are rows.
pub(crate) const MANY: i128 = 1_099_511_627_776;

/// What a call does, with the reply that it was given.
#[derive(Clone, Copy)]
pub(crate) enum Act {
    /// Asks, and changes nothing.
    Read(Weigh),
    /// Inserts a row under a key; under any where the outcome is unknown, and the key is 0 then.
    Insert(usize, u64),
    /// Inserts nothing, since the table is full.
    Full,
    /// Deletes the row of a key, which is this one where it is known which has the key.
    Remove(Option<usize>, u64),
    /// Finds no row of a key.
    Miss(Option<usize>, u64),
    /// Deletes rows under conditions, one at least.
    Sweep,
    /// Was given a reply that no list gives.
    Never,
}

/// A call.
#[derive(Clone, Copy)]
pub(crate) struct Task {
    /// Its number among the logs' calls.
    pub(crate) number: usize,
    /// Its session's number among the sessions that made calls.
    pub(crate) session: usize,
    /// When it began; 0 where times say nothing.
    pub(crate) start: u64,
    /// What began after this stands behind it.
    pub(crate) last: u64,
    /// When it ended.
    pub(crate) end: u64,
    pub(crate) is_known: bool,
    pub(crate) act: Act,
    /// Its conditions, among all ranges.
    pub(crate) ranges: Part,
    /// The rows of its reply with their keys, among all that are given.
    pub(crate) given: Part,
    /// The least and the greatest number by which its reply is the one that it was given.
    pub(crate) least: i128,
    pub(crate) most: i128,
}

/// No call.
pub(crate) const NO_TASK: Task = Task {
    number: 0,
    session: 0,
    start: 0,
    last: 0,
    end: 0,
    is_known: false,
    act: Act::Never,
    ranges: NOTHING,
    given: NOTHING,
    least: 0,
    most: 0,
};

impl Task {
    /// Whether its reply is told by a number that rows of its conditions add to.
    #[inline]
    pub(crate) fn is_weighed(&self) -> bool {
        matches!(self.act, Act::Read(_) | Act::Sweep)
    }

    /// Whether it leaves the table as it was.
    #[inline]
    pub(crate) fn changes_nothing(&self) -> bool {
        matches!(self.act, Act::Read(_) | Act::Full | Act::Miss(_, _))
    }

    /// How its rows count.
    #[inline]
    pub(crate) fn weigh(&self) -> Weigh {
        match self.act {
            Act::Read(weigh) => weigh,
            _ => Weigh::One,
        }
    }
}
