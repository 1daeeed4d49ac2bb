//! What is told where no order was found.

use crate::problem::Problem;
use crate::state::State;
use crate::tasks::{Act, Task};
use crate::window::{due, next_calls};
use std::alloc::{AllocError, Global};
use sw_lang::write_call;
use sw_logs::Logged;
use sw_rows::{Call, Counted, Query, Reply, ReplyRows, Schema, Want};
use sw_spine::Lines;

/// A call, with what it would be answered.
#[derive(Drop)]
pub struct Tried {
    /// Its number among the logs' calls, from 0.
    pub number: usize,
    /// The call as it is printed.
    pub call: String,
    /// The lines that the list gives it there.
    pub expected: Lines,
}

/// How far a search came at best.
#[derive(Drop)]
pub struct Reached {
    /// How many calls were placed.
    pub placed: usize,
    /// How many states were met.
    pub states: u64,
    /// The call that had to come next.
    pub due: Option<Tried>,
    /// The others that might have come before it.
    pub others: Vec<Tried>,
    /// The last calls that changed rows of its conditions, the latest first: their numbers and the calls as they are
    /// printed.
    pub changes: Vec<(usize, String)>,
}

/// How many other calls are told, and how many changes.
const MOST_OTHERS: usize = 12;

const MOST_CHANGES: usize = 5;

/// A call as it is printed.
fn call_text(alloc: Global, schema: &Schema, call: &Call) -> Result<String, AllocError> {
    let mut out = Counted::new(Vec::new(alloc));
    match write_call(schema, call, &mut out) {
        Ok(()) => String::from_utf8_lossy(alloc, out.inner.as_slice()),
        Err(_) => Err(AllocError),
    }
}

/// The least or the greatest cell of rows.
fn extreme_of(problem: &Problem, rows: &[usize], attr: usize, greatest: bool) -> Option<i64> {
    let mut found: Option<i64> = None;
    for row in rows {
        let cell = problem.cell(*row, attr);
        found = match found {
            Some(old) if greatest => Some(old.max(cell)),
            Some(old) => Some(old.min(cell)),
            None => Some(cell),
        };
    }
    found
}

fn sum_of(problem: &Problem, rows: &[usize], attr: usize) -> i128 {
    let mut sum: i128 = 0;
    for row in rows {
        sum = sum.wrapping_add(i128::from(problem.cell(*row, attr)));
    }
    sum
}

/// The greatest of some keys.
fn greatest(keys: &[u64]) -> u64 {
    let mut greatest = 0u64;
    for key in keys {
        greatest = greatest.max(*key);
    }
    greatest
}

/// The place where a search came furthest.
#[derive(Clone, Copy)]
pub(crate) struct Place<'a> {
    pub(crate) alloc: Global,
    pub(crate) schema: &'a Schema,
    pub(crate) calls: &'a [Logged],
    pub(crate) problem: &'a Problem,
    pub(crate) state: &'a State,
}

impl Place<'_> {
    /// Rows with their keys before them, by their keys.
    fn by_key(&self, rows: &[usize]) -> Result<Vec<(u64, usize)>, AllocError> {
        let mut keyed = Vec::with_capacity(self.alloc, rows.len())?;
        for row in rows {
            keyed.push((self.state.key(*row), *row))?;
        }
        keyed.sort_unstable();
        Ok(keyed)
    }

    /// The cells of a row that are asked for.
    fn cells_of(&self, row: usize, attrs: &[usize]) -> Result<Vec<i64>, AllocError> {
        let mut cells = Vec::with_capacity(self.alloc, attrs.len())?;
        for attr in attrs {
            cells.push(self.problem.cell(row, *attr))?;
        }
        Ok(cells)
    }

    /// The rows of a reply, by their keys.
    fn reply_rows(&self, rows: &[usize], attrs: &[usize]) -> Result<Reply, AllocError> {
        let keyed = self.by_key(rows)?;
        let mut shown = ReplyRows::new(self.alloc);
        for (key, row) in &keyed {
            let cells = self.cells_of(*row, attrs)?;
            shown.push(*key, cells.as_slice())?;
        }
        Ok(Reply::Rows(shown))
    }

    /// What a query is answered over some rows.
    fn answer(&self, query: &Query, rows: &[usize]) -> Result<Reply, AllocError> {
        match &query.want {
            Want::Rows(attrs) => self.reply_rows(rows, attrs.as_slice()),
            Want::Count => Ok(Reply::Count(rows.len() as u64)),
            Want::Sum(attr) => Ok(Reply::Sum(sum_of(self.problem, rows, *attr))),
            Want::Min(attr) => Ok(Reply::Least(extreme_of(self.problem, rows, *attr, false))),
            Want::Max(attr) => Ok(Reply::Least(extreme_of(self.problem, rows, *attr, true))),
        }
    }

    /// The key that the list gives next; where keys are whatever the store gave, the one that it gave, if no row had it, else
    /// one more than all.
    fn next_key(&self, task: &Task) -> u64 {
        if !self.problem.any_keys {
            return self.state.top.saturating_add(1);
        }
        match task.act {
            Act::Insert(_, key) if key > 0 => key,
            _ => greatest(&self.problem.keys).saturating_add(1),
        }
    }

    /// What a call on one row is answered.
    fn short_answer(&self, call: &Call, task: &Task) -> Reply {
        match call {
            Call::Insert(_) if self.state.came >= self.problem.limit => Reply::Full,
            Call::Insert(_) => Reply::Inserted(self.next_key(task)),
            Call::Delete(key) if self.state.has_key(*key) => Reply::Removed,
            _ => Reply::NoSuchKey,
        }
    }

    /// What the list gives a call.
    fn expected(&self, call: &Call, task: &Task) -> Result<Reply, AllocError> {
        let mut rows = Vec::new(self.alloc);
        match call {
            Call::Select(query) => {
                self.state.rows_of(self.problem, task, &mut rows)?;
                self.answer(query, rows.as_slice())
            }
            Call::DeleteWhere(_) => {
                self.state.rows_of(self.problem, task, &mut rows)?;
                Ok(Reply::RemovedMany(rows.len() as u64))
            }
            _ => Ok(self.short_answer(call, task)),
        }
    }

    /// A call with what it would be answered.
    fn tried(&self, number: usize) -> Result<Option<Tried>, AllocError> {
        let Some(logged) = self.calls.get(number) else {
            return Ok(None);
        };
        let call = &logged.call;
        let reply = self.expected(call, &self.problem.task(number))?;
        Ok(Some(Tried {
            number,
            call: call_text(self.alloc, self.schema, call)?,
            expected: Lines::of_reply(self.alloc, self.schema, call, &reply)?,
        }))
    }

    /// The other calls that might come next.
    fn others(&self, due: Option<usize>) -> Result<Vec<Tried>, AllocError> {
        let mut next = Vec::new(self.alloc);
        next_calls(self.problem, self.state, &mut next)?;
        let mut others = Vec::new(self.alloc);
        for number in &next {
            if Some(*number) != due && others.len() < MOST_OTHERS {
                if let Some(tried) = self.tried(*number)? {
                    others.push(tried)?;
                }
            }
        }
        Ok(others)
    }

    /// Whether a row bears on a call.
    fn bears(&self, task: &Task, row: usize) -> bool {
        match task.act {
            Act::Read(_) | Act::Sweep => self.problem.meets(task, row),
            Act::Remove(other, key) | Act::Miss(other, key) => {
                self.state.row_of(self.problem, other, key) == Some(row)
            }
            Act::Insert(_, _) | Act::Full => true,
            Act::Never => self.problem.meets(task, row) && task.ranges.from < task.ranges.to,
        }
    }

    /// Whether the call that was placed at a place changed a row that bears on a call.
    fn changed(&self, place: usize, task: &Task) -> bool {
        for number in self.state.changes_before(place)..self
            .state
            .changes_before(place.saturating_add(1))
        {
            if self.bears(task, self.state.change_at(number)) {
                return true;
            }
        }
        false
    }

    /// The last calls that changed rows that bear on a call.
    fn changes(&self, task: &Task) -> Result<Vec<(usize, String)>, AllocError> {
        let mut changes = Vec::new(self.alloc);
        let placed = self.state.placed();
        for back in 0..placed {
            let place = placed - 1 - back;
            if changes.len() < MOST_CHANGES && self.changed(place, task) {
                let number = self.state.placed_at(place);
                if let Some(logged) = self.calls.get(number) {
                    changes.push((number, call_text(self.alloc, self.schema, &logged.call)?))?;
                }
            }
        }
        Ok(changes)
    }

    /// What is told of it, with how many states were met.
    pub(crate) fn reached(&self, states: u64) -> Result<Reached, AllocError> {
        let first = due(self.problem, self.state);
        let changes = match first {
            Some(number) => self.changes(&self.problem.task(number))?,
            None => Vec::new(self.alloc),
        };
        let due = match first {
            Some(number) => self.tried(number)?,
            None => None,
        };
        Ok(Reached {
            placed: self.state.placed(),
            states,
            due,
            others: self.others(first)?,
            changes,
        })
    }
}

/// The state in which some calls are placed one after another.
pub(crate) fn state_after(
    alloc: Global,
    problem: &Problem,
    places: &[usize],
) -> Result<State, AllocError> {
    let mut state = State::new(alloc, problem)?;
    for number in places {
        state.place(problem, *number)?;
    }
    Ok(state)
}
