//! Which of the calls that may come next have to be tried.
//!
//! A set of calls is enough where nothing outside it that may come before one of its members bears on that member: calls
//! that do not bear on one another need one order alone. The set grows from the call that is due: of a call that may be
//! placed here, by those that bear on it and may come before it; of another, by some without which it never may.
//!
//! That such a set is enough is a law, `enough_calls_are_enough` of sw_order_laws, of sets that are closed (`AreClosed`). That
//! the sets made here are closed is not proved.

use crate::problem::Problem;
use crate::small::{at, put};
use crate::state::State;
use crate::tasks::{Act, MANY, Task, Weigh};
use crate::window::{due, head, may_precede, next_calls, soonest};
use std::alloc::{AllocError, Global};

/// The set as it grows.
pub(crate) struct Choices {
    alloc: Global,
    members: Vec<usize>,
    /// The number of the set in which each call was last.
    sets: Vec<u64>,
    set: u64,
    /// The latest time by which a call may have begun that may come before a member of known outcome.
    latest: u64,
    others: Vec<usize>,
    rows: Vec<usize>,
    pub(crate) next: Vec<usize>,
}

// By hand, as with `Problem`.
impl Drop for Choices {
    fn drop(self) {
        let Self {
            alloc: _,
            members: _members,
            sets: _sets,
            set: _,
            latest: _,
            others: _others,
            rows: _rows,
            next: _next,
        } = self;
    }
}

/// What of a sum's rows could bring it to what it has to be.
#[derive(Clone, Copy)]
struct Wanted {
    more: bool,
    fewer: bool,
}

/// What could bring a call's sum to what it has to be.
fn lack_of(task: &Task, sum: i128) -> Wanted {
    match task.weigh() {
        Weigh::Cell(_) => Wanted {
            more: true,
            fewer: true,
        },
        Weigh::Given => Wanted {
            more: sum % MANY < task.least,
            fewer: sum % MANY >= task.least,
        },
        _ => Wanted {
            more: sum < task.least,
            fewer: sum > task.most,
        },
    }
}

impl Choices {
    pub(crate) fn new(alloc: Global, problem: &Problem) -> Result<Choices, AllocError> {
        Ok(Choices {
            alloc,
            members: Vec::new(alloc),
            sets: vec![in alloc; 0; problem.tasks.len()]?,
            set: 0,
            latest: 0,
            others: Vec::new(alloc),
            rows: Vec::new(alloc),
            next: Vec::new(alloc),
        })
    }

    /// Adds a call to the set.
    fn add(&mut self, problem: &Problem, number: usize) -> Result<(), AllocError> {
        if at(&self.sets, number, self.set) == self.set {
            return Ok(());
        }
        put(&mut self.sets, number, self.set);
        let task = problem.task(number);
        if task.is_known {
            self.latest = self.latest.max(task.last);
        }
        self.members.push(number)?;
        Ok(())
    }

    /// Takes the calls that may come before a member.
    fn look_before(
        &mut self,
        problem: &Problem,
        state: &State,
        number: usize,
    ) -> Result<(), AllocError> {
        let task = problem.task(number);
        let by = if task.is_known {
            task.last
        } else {
            self.latest
        };
        self.others.clear();
        may_precede(problem, state, number, by, &mut self.others)
    }

    /// Whether a call asks for a live row that another takes out.
    fn share_row(
        &self,
        problem: &Problem,
        state: &State,
        sweep: &Task,
        task: &Task,
    ) -> Result<bool, AllocError> {
        if problem.are_apart(sweep, task) {
            return Ok(false);
        }
        let mut rows = Vec::new(self.alloc);
        state.rows_of(problem, sweep, &mut rows)?;
        for row in &rows {
            if problem.meets(task, *row) {
                return Ok(true);
            }
        }
        Ok(false)
    }

    /// Whether a call that may come before an insert bears on it.
    fn bears_on_insert(
        problem: &Problem,
        state: &State,
        other: &Task,
        row: usize,
        key: u64,
    ) -> bool {
        let named = if key == 0 {
            state.top.wrapping_add(1)
        } else {
            key
        };
        match other.act {
            Act::Read(_) | Act::Sweep => problem.meets(other, row),
            Act::Insert(_, second) => {
                !problem.any_keys && (key == 0 || second == 0 || second == key)
            }
            Act::Miss(_, second) => second == named,
            Act::Full | Act::Remove(_, _) | Act::Never => false,
        }
    }

    /// Whether a call that may come before the removal of a row bears on it.
    fn bears_on_removal(problem: &Problem, state: &State, other: &Task, row: usize) -> bool {
        match other.act {
            Act::Read(_) | Act::Sweep => problem.meets(other, row),
            Act::Remove(second, key) => state.row_of(problem, second, key) == Some(row),
            _ => false,
        }
    }

    /// Whether a call meets one of the rows that a member takes out.
    fn meets_some(&self, problem: &Problem, other: &Task) -> bool {
        for row in &self.rows {
            if problem.meets(other, *row) {
                return true;
            }
        }
        false
    }

    /// Whether a call that may come before one that takes out rows bears on it.
    fn bears_on_sweep(&self, problem: &Problem, state: &State, other: &Task, task: &Task) -> bool {
        match other.act {
            Act::Read(_) | Act::Sweep => {
                !problem.are_apart(other, task) && self.meets_some(problem, other)
            }
            Act::Insert(row, _) => problem.meets(task, row),
            Act::Remove(second, key) => match state.row_of(problem, second, key) {
                Some(row) => state.is_live(row) && problem.meets(task, row),
                None => false,
            },
            _ => false,
        }
    }

    /// Whether a call that may come before a member that may be placed here bears on it.
    ///
    /// Where it does not, it leaves the member alone (`LeavesAlone` of sw_order_laws), or cannot have its reply before it.
    fn bears_on(&self, problem: &Problem, state: &State, other: &Task, task: &Task) -> bool {
        match task.act {
            Act::Insert(row, key) => Choices::bears_on_insert(problem, state, other, row, key),
            Act::Remove(row, key) => match state.row_of(problem, row, key) {
                Some(row) => Choices::bears_on_removal(problem, state, other, row),
                None => false,
            },
            Act::Sweep => self.bears_on_sweep(problem, state, other, task),
            _ => false,
        }
    }

    /// Adds the calls that may come before a member that may be placed here and bear on it.
    fn add_bearing(
        &mut self,
        problem: &Problem,
        state: &State,
        number: usize,
    ) -> Result<(), AllocError> {
        let task = problem.task(number);
        self.look_before(problem, state, number)?;
        self.rows.clear();
        if let Act::Sweep = task.act {
            state.rows_of(problem, &task, &mut self.rows)?;
        }
        for place in 0..self.others.len() {
            let other = at(&self.others, place, 0);
            if self.bears_on(problem, state, &problem.task(other), &task) {
                self.add(problem, other)?;
            }
        }
        Ok(())
    }

    /// Whether a call could bring a row that a sum lacks.
    fn brings(problem: &Problem, task: &Task, other: &Task) -> bool {
        match other.act {
            Act::Insert(row, _) => problem.meets(task, row),
            _ => false,
        }
    }

    /// Whether a call could take out a row that a sum has too much.
    fn takes(
        &self,
        problem: &Problem,
        state: &State,
        task: &Task,
        other: &Task,
    ) -> Result<bool, AllocError> {
        match other.act {
            Act::Remove(row, key) => match state.row_of(problem, row, key) {
                Some(row) => Ok(state.is_live(row) && problem.meets(task, row)),
                None => Ok(false),
            },
            Act::Sweep => self.share_row(problem, state, other, task),
            _ => Ok(false),
        }
    }

    /// Adds calls of which one has to come before a member whose sum is not what it has to be.
    fn add_weighing(
        &mut self,
        problem: &Problem,
        state: &State,
        number: usize,
    ) -> Result<(), AllocError> {
        let task = problem.task(number);
        let want = lack_of(&task, state.sum(number));
        self.look_before(problem, state, number)?;
        for place in 0..self.others.len() {
            let number = at(&self.others, place, 0);
            let other = problem.task(number);
            let adds = (want.more && Choices::brings(problem, &task, &other))
                || (want.fewer && self.takes(problem, state, &task, &other)?);
            if adds {
                self.add(problem, number)?;
            }
        }
        Ok(())
    }

    /// Adds the inserts of which one comes next, that may come before a member.
    fn add_inserts(
        &mut self,
        problem: &Problem,
        state: &State,
        number: usize,
    ) -> Result<(), AllocError> {
        self.look_before(problem, state, number)?;
        let next = state.top.wrapping_add(1);
        for place in 0..self.others.len() {
            let other = at(&self.others, place, 0);
            if let Act::Insert(_, key) = problem.task(other).act {
                if key == 0 || key == next || problem.any_keys {
                    self.add(problem, other)?;
                }
            }
        }
        Ok(())
    }

    /// Adds the calls of which one has to come before a removal of a row that does not live.
    fn add_makers(
        &mut self,
        problem: &Problem,
        state: &State,
        number: usize,
        row: Option<usize>,
    ) -> Result<(), AllocError> {
        let Some(row) = row else {
            return self.add_inserts(problem, state, number);
        };
        if let Some(maker) = at(&problem.makers, row, None) {
            if !state.is_placed(maker) {
                self.add(problem, maker)?;
            }
        }
        Ok(())
    }

    /// Adds the calls of which one has to come before one that finds no row of a key that lives.
    fn add_takers(
        &mut self,
        problem: &Problem,
        state: &State,
        number: usize,
        row: usize,
    ) -> Result<(), AllocError> {
        self.look_before(problem, state, number)?;
        for place in 0..self.others.len() {
            let number = at(&self.others, place, 0);
            let other = problem.task(number);
            let takes = match other.act {
                Act::Remove(second, key) => state.row_of(problem, second, key) == Some(row),
                Act::Sweep => problem.meets(&other, row),
                _ => false,
            };
            if takes {
                self.add(problem, number)?;
            }
        }
        Ok(())
    }

    /// Adds calls of which one has to come before a member that may not be placed here for its reply.
    fn add_enabling(
        &mut self,
        problem: &Problem,
        state: &State,
        number: usize,
    ) -> Result<(), AllocError> {
        let task = problem.task(number);
        match task.act {
            Act::Read(_) | Act::Sweep => self.add_weighing(problem, state, number),
            Act::Insert(_, key) if key <= state.top && !problem.any_keys => Ok(()),
            Act::Insert(_, _) | Act::Full => self.add_inserts(problem, state, number),
            Act::Remove(row, _) => self.add_makers(problem, state, number, row),
            Act::Miss(row, key) => match state.row_of(problem, row, key) {
                Some(row) => self.add_takers(problem, state, number, row),
                None => Ok(()),
            },
            Act::Never => Ok(()),
        }
    }

    /// Whether a call may come next, as far as sessions and times tell.
    fn is_next(&self, number: usize) -> bool {
        self.next.contains(&number)
    }

    /// Adds a call that has to come before a member that sessions or times do not let come next.
    fn add_earlier(
        &mut self,
        problem: &Problem,
        state: &State,
        number: usize,
    ) -> Result<(), AllocError> {
        let task = problem.task(number);
        let first = head(problem, state, task.session);
        if task.start <= soonest(problem, state) {
            if let Some(first) = first {
                return self.add(problem, first);
            }
        }
        match due(problem, state) {
            Some(first) => self.add(problem, first),
            None => Ok(()),
        }
    }

    /// Adds what a member asks for.
    fn extend(
        &mut self,
        problem: &Problem,
        state: &State,
        number: usize,
    ) -> Result<(), AllocError> {
        if !self.is_next(number) {
            self.add_earlier(problem, state, number)
        } else if state.agrees(problem, number, &problem.task(number)) {
            self.add_bearing(problem, state, number)
        } else {
            self.add_enabling(problem, state, number)
        }
    }

    /// Adds what members ask for until they ask for nothing more.
    fn close(&mut self, problem: &Problem, state: &State) -> Result<(), AllocError> {
        for place in 0..usize::MAX {
            let Some(number) = self.members.get(place).copied() else {
                return Ok(());
            };
            self.extend(problem, state, number)?;
        }
        Ok(())
    }

    /// Adds what those of unknown outcome among the first so many members ask for.
    fn extend_unknown(
        &mut self,
        problem: &Problem,
        state: &State,
        count: usize,
    ) -> Result<(), AllocError> {
        for place in 0..count {
            let number = at(&self.members, place, 0);
            if !problem.task(number).is_known {
                self.extend(problem, state, number)?;
            }
        }
        Ok(())
    }

    /// Adds what members of unknown outcome ask for until the time by which others may have begun stays.
    fn close_all(&mut self, problem: &Problem, state: &State) -> Result<(), AllocError> {
        self.close(problem, state)?;
        for _ in 0..u64::MAX {
            let before = self.latest;
            let count = self.members.len();
            self.extend_unknown(problem, state, count)?;
            self.close(problem, state)?;
            if self.latest == before && self.members.len() == count {
                return Ok(());
            }
        }
        Ok(())
    }

    /// Makes the set from the call that is due; all calls where times say nothing.
    fn gather(&mut self, problem: &Problem, state: &State) -> Result<(), AllocError> {
        self.set = self.set.wrapping_add(1);
        self.latest = 0;
        self.members.clear();
        if !problem.has_times {
            self.members.extend_from_slice(self.next.as_slice())?;
            return Ok(());
        }
        if let Some(first) = due(problem, state) {
            self.add(problem, first)?;
        }
        self.close_all(problem, state)
    }

    /// The calls that have to be tried, each with its end, by the end first; those of unknown outcome come last.
    pub(crate) fn tried(
        &mut self,
        problem: &Problem,
        state: &State,
        out: &mut Vec<(bool, u64, usize)>,
    ) -> Result<(), AllocError> {
        self.gather(problem, state)?;
        out.clear();
        for number in &self.members {
            let task = problem.task(*number);
            if self.is_next(*number) && state.agrees(problem, *number, &task) {
                out.push((!task.is_known, task.end, *number))?;
            }
        }
        out.sort_unstable();
        Ok(())
    }

    /// The calls that may come next, watched.
    pub(crate) fn look(&mut self, problem: &Problem, state: &mut State) -> Result<(), AllocError> {
        self.next.clear();
        next_calls(problem, state, &mut self.next)?;
        for number in &self.next {
            state.watch(problem, *number)?;
        }
        Ok(())
    }

    /// Places those of the calls that may come next that change nothing and have the list's reply; answers how many. No order
    /// is missed by it (`idle_calls_come_at_once` of sw_order_laws).
    pub(crate) fn place_idle(
        &self,
        problem: &Problem,
        state: &mut State,
    ) -> Result<usize, AllocError> {
        let mut count = 0usize;
        for number in &self.next {
            let task = problem.task(*number);
            if task.is_known && task.changes_nothing() && state.agrees(problem, *number, &task) {
                state.place(problem, *number)?;
                count = count.saturating_add(1);
            }
        }
        Ok(count)
    }
}
