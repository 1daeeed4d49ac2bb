//! Where the search stands: which calls are placed, and which rows live.

use crate::problem::Problem;
use crate::small::{Mark, UNMARKED, at, put};
use crate::tasks::{Act, Task};
use std::alloc::{AllocError, Global};

/// The kinds of things that a state's mark has.
const PLACED: u64 = 1;

const LIVES: u64 = 2;

const NAMED: u64 = 3;

/// What was when a call was placed, so that it can be taken back.
#[derive(Clone, Copy)]
struct Step {
    task: usize,
    /// How many rows had come and gone.
    changes: usize,
    top: u64,
}

/// The calls placed and the rows that live after them.
pub(crate) struct State {
    alloc: Global,
    live: Vec<bool>,
    /// The rows' keys; 0 of those that have none yet.
    keys: Vec<u64>,
    /// How many rows came, those of the table included: the greatest key of the plain list.
    pub(crate) top: u64,
    /// How many rows came.
    pub(crate) came: u64,
    mark: Mark,
    /// The rows that came and went, in order.
    changes: Vec<usize>,
    steps: Vec<Step>,
    pub(crate) is_placed: Vec<bool>,
    /// How many calls of known outcome of each session are placed.
    pub(crate) heads: Vec<usize>,
    /// How many calls of known outcome are not placed.
    pub(crate) left: usize,
    /// The numbers by which calls' replies are told, for those that are watched or were when they were placed.
    sums: Vec<i128>,
    is_watched: Vec<bool>,
    /// The calls that are watched and not placed, and where each stands among these.
    watched: Vec<usize>,
    watched_at: Vec<usize>,
}

// By hand, as with `Problem`.
impl Drop for State {
    fn drop(self) {
        let Self {
            alloc: _,
            live: _live,
            keys: _keys,
            top: _,
            came: _,
            mark: _,
            changes: _changes,
            steps: _steps,
            is_placed: _is_placed,
            heads: _heads,
            left: _,
            sums: _sums,
            is_watched: _is_watched,
            watched: _watched,
            watched_at: _watched_at,
        } = self;
    }
}

impl State {
    /// Nothing is placed, and the opening rows live.
    pub(crate) fn new(alloc: Global, problem: &Problem) -> Result<State, AllocError> {
        let mut state = State {
            alloc,
            live: Vec::new(alloc),
            keys: Vec::new(alloc),
            top: problem.opening as u64,
            came: problem.opening as u64,
            mark: UNMARKED,
            changes: Vec::new(alloc),
            steps: Vec::new(alloc),
            is_placed: Vec::new(alloc),
            heads: Vec::new(alloc),
            left: problem.known,
            sums: Vec::new(alloc),
            is_watched: Vec::new(alloc),
            watched: Vec::new(alloc),
            watched_at: Vec::new(alloc),
        };
        state.begin(problem)?;
        Ok(state)
    }

    /// Makes room for the rows and the calls.
    fn begin(&mut self, problem: &Problem) -> Result<(), AllocError> {
        let alloc = self.alloc;
        let count = problem.tasks.len();
        self.live = vec![in alloc; false; problem.cells.len()]?;
        for row in 0..problem.opening {
            put(&mut self.live, row, true);
        }
        self.keys = problem.keys.clone()?;
        self.is_placed = vec![in alloc; false; count]?;
        self.heads = vec![in alloc; 0; problem.sessions.len()]?;
        self.sums = vec![in alloc; 0; count]?;
        self.is_watched = vec![in alloc; false; count]?;
        self.watched_at = vec![in alloc; 0; count]?;
        Ok(())
    }

    /// The state's mark.
    pub(crate) fn mark(&self) -> Mark {
        self.mark
    }

    #[inline]
    pub(crate) fn is_live(&self, row: usize) -> bool {
        at(&self.live, row, false)
    }

    #[inline]
    pub(crate) fn key(&self, row: usize) -> u64 {
        at(&self.keys, row, 0)
    }

    #[inline]
    pub(crate) fn is_placed(&self, task: usize) -> bool {
        at(&self.is_placed, task, true)
    }

    /// How many calls are placed.
    pub(crate) fn placed(&self) -> usize {
        self.steps.len()
    }

    /// The call that was placed so far behind the first.
    pub(crate) fn placed_at(&self, place: usize) -> usize {
        match self.steps.get(place) {
            Some(step) => step.task,
            None => 0,
        }
    }

    /// How many rows had come, those of the table included, when a call was placed.
    pub(crate) fn top_before(&self, place: usize) -> u64 {
        match self.steps.get(place) {
            Some(step) => step.top,
            None => self.top,
        }
    }

    /// How many rows had come and gone when a call was placed.
    pub(crate) fn changes_before(&self, place: usize) -> usize {
        match self.steps.get(place) {
            Some(step) => step.changes,
            None => self.changes.len(),
        }
    }

    /// The row that came or went as one of a number.
    pub(crate) fn change_at(&self, number: usize) -> usize {
        at(&self.changes, number, 0)
    }

    /// The row of a key that an insert of unknown outcome brought.
    fn unnamed_row(&self, problem: &Problem, key: u64) -> Option<usize> {
        for (row, own) in self.keys.iter().enumerate() {
            if *own == key && at(&problem.keys, row, 0) == 0 {
                return Some(row);
            }
        }
        None
    }

    /// Whether a row of a key lives, whatever inserted it.
    pub(crate) fn has_key(&self, key: u64) -> bool {
        for (row, own) in self.keys.iter().enumerate() {
            if key > 0 && *own == key && self.is_live(row) {
                return true;
            }
        }
        false
    }

    /// The row of a key, if it is known.
    pub(crate) fn row_of(&self, problem: &Problem, row: Option<usize>, key: u64) -> Option<usize> {
        match row {
            Some(row) => Some(row),
            None if key == 0 || key > self.top || problem.any_keys => None,
            None => self.unnamed_row(problem, key),
        }
    }

    /// Whether the row of a key lives.
    pub(crate) fn lives(&self, problem: &Problem, row: Option<usize>, key: u64) -> bool {
        match self.row_of(problem, row, key) {
            Some(row) => self.is_live(row),
            None => false,
        }
    }

    /// Adds what a row weighs to the sums of calls that are watched, or takes it off.
    fn weigh_row(&mut self, problem: &Problem, row: usize, comes: bool) {
        let key = self.key(row);
        for number in &self.watched {
            let task = problem.task(*number);
            if problem.meets(&task, row) {
                let weight = problem.weight(&task, row, key);
                let sum = at(&self.sums, *number, 0);
                let next = if comes {
                    sum.wrapping_add(weight)
                } else {
                    sum.wrapping_sub(weight)
                };
                put(&mut self.sums, *number, next);
            }
        }
    }

    /// A row comes or goes.
    fn turn(&mut self, problem: &Problem, row: usize) {
        let comes = !self.is_live(row);
        put(&mut self.live, row, comes);
        self.mark = self.mark.with(LIVES, row as u64);
        self.weigh_row(problem, row, comes);
    }

    /// A row comes or goes, and it is noted.
    fn change(&mut self, problem: &Problem, row: usize) -> Result<(), AllocError> {
        self.changes.push(row)?;
        self.turn(problem, row);
        Ok(())
    }

    /// Whether a row lives and meets a call's conditions.
    #[inline]
    fn is_met(&self, problem: &Problem, task: &Task, row: usize) -> bool {
        self.is_live(row) && problem.meets(task, row)
    }

    /// The live rows that meet a call's conditions.
    pub(crate) fn rows_of(
        &self,
        problem: &Problem,
        task: &Task,
        out: &mut Vec<usize>,
    ) -> Result<(), AllocError> {
        let near = problem.near(task);
        for place in 0..near.len() {
            let row = near.row(place);
            if self.is_met(problem, task, row) {
                out.push(row)?;
            }
        }
        Ok(())
    }

    /// The sum of a call over the live rows that meet its conditions.
    fn sum_of(&self, problem: &Problem, task: &Task) -> i128 {
        let near = problem.near(task);
        let mut sum: i128 = 0;
        for place in 0..near.len() {
            let row = near.row(place);
            if self.is_met(problem, task, row) {
                sum = sum.wrapping_add(problem.weight(task, row, self.key(row)));
            }
        }
        sum
    }

    /// Puts a call among those that are watched.
    fn list(&mut self, number: usize) -> Result<(), AllocError> {
        put(&mut self.watched_at, number, self.watched.len());
        self.watched.push(number)?;
        Ok(())
    }

    /// Takes a call from among those that are watched.
    fn unlist(&mut self, number: usize) {
        let place = at(&self.watched_at, number, 0);
        if let Some(last) = self.watched.pop() {
            if last != number {
                put(&mut self.watched, place, last);
                put(&mut self.watched_at, last, place);
            }
        }
    }

    /// Watches a call that may come next: its sum is kept from here on.
    pub(crate) fn watch(&mut self, problem: &Problem, number: usize) -> Result<(), AllocError> {
        let task = problem.task(number);
        if task.is_weighed() && !at(&self.is_watched, number, true) {
            let sum = self.sum_of(problem, &task);
            put(&mut self.sums, number, sum);
            put(&mut self.is_watched, number, true);
            self.list(number)?;
        }
        Ok(())
    }

    /// The sum of a call that is watched.
    #[inline]
    pub(crate) fn sum(&self, number: usize) -> i128 {
        at(&self.sums, number, 0)
    }

    /// Whether an insert may come next.
    fn takes_insert(&self, problem: &Problem, key: u64) -> bool {
        if self.came >= problem.limit {
            return false;
        }
        key == 0 || problem.any_keys || key == self.top.wrapping_add(1)
    }

    /// Whether a call that may come next by its session and its times has the list's reply here. It is watched.
    pub(crate) fn agrees(&self, problem: &Problem, number: usize, task: &Task) -> bool {
        match task.act {
            Act::Read(_) | Act::Sweep => {
                let sum = self.sum(number);
                task.least <= sum && sum <= task.most
            }
            Act::Insert(_, key) => self.takes_insert(problem, key),
            Act::Full => self.came >= problem.limit,
            Act::Remove(row, key) => self.lives(problem, row, key),
            Act::Miss(row, key) => !self.lives(problem, row, key),
            Act::Never => false,
        }
    }

    /// A row is inserted.
    fn insert(&mut self, problem: &Problem, row: usize, key: u64) -> Result<(), AllocError> {
        self.top = self.top.wrapping_add(1);
        self.came = self.came.wrapping_add(1);
        if key == 0 && !problem.any_keys {
            put(&mut self.keys, row, self.top);
            self.mark = self.mark.with(
                NAMED,
                (row as u64).wrapping_mul(1_048_583).wrapping_add(self.top),
            );
        }
        self.change(problem, row)
    }

    /// The rows of a call's conditions go.
    fn sweep(&mut self, problem: &Problem, task: &Task) -> Result<(), AllocError> {
        let mut rows = Vec::new(self.alloc);
        self.rows_of(problem, task, &mut rows)?;
        for row in &rows {
            self.change(problem, *row)?;
        }
        Ok(())
    }

    /// What a call changes.
    fn act(&mut self, problem: &Problem, task: &Task) -> Result<(), AllocError> {
        match task.act {
            Act::Insert(row, key) => self.insert(problem, row, key),
            Act::Remove(row, key) => match self.row_of(problem, row, key) {
                Some(row) => self.change(problem, row),
                None => Ok(()),
            },
            Act::Sweep => self.sweep(problem, task),
            _ => Ok(()),
        }
    }

    /// Counts a call among those that are placed, or no longer.
    fn count(&mut self, number: usize, task: &Task, placed: bool) {
        put(&mut self.is_placed, number, placed);
        self.mark = self.mark.with(PLACED, number as u64);
        if !task.is_known {
            return;
        }
        let head = at(&self.heads, task.session, 0);
        if placed {
            self.left = self.left.saturating_sub(1);
            put(&mut self.heads, task.session, head.saturating_add(1));
        } else {
            self.left = self.left.saturating_add(1);
            put(&mut self.heads, task.session, head.saturating_sub(1));
        }
    }

    /// Places a call.
    pub(crate) fn place(&mut self, problem: &Problem, number: usize) -> Result<(), AllocError> {
        let task = problem.task(number);
        self.steps.push(Step {
            task: number,
            changes: self.changes.len(),
            top: self.top,
        })?;
        if at(&self.is_watched, number, false) {
            self.unlist(number);
        }
        self.count(number, &task, true);
        self.act(problem, &task)
    }

    /// The rows that came and went since some had go and come back.
    fn take_back_changes(&mut self, problem: &Problem, to: usize) {
        let count = self.changes.len().saturating_sub(to);
        for _ in 0..count {
            if let Some(row) = self.changes.pop() {
                self.turn(problem, row);
            }
        }
    }

    /// Takes back the key of a row whose insert is of unknown outcome.
    fn take_back_insert(&mut self, problem: &Problem, task: &Task) {
        if let Act::Insert(row, key) = task.act {
            if key == 0 && !problem.any_keys {
                self.mark = self.mark.with(
                    NAMED,
                    (row as u64).wrapping_mul(1_048_583).wrapping_add(self.top),
                );
                put(&mut self.keys, row, 0);
            }
            self.came = self.came.wrapping_sub(1);
        }
    }

    /// Takes back the call that was placed last.
    pub(crate) fn take_back(&mut self, problem: &Problem) -> Result<(), AllocError> {
        let Some(step) = self.steps.pop() else {
            return Ok(());
        };
        let task = problem.task(step.task);
        self.take_back_changes(problem, step.changes);
        self.take_back_insert(problem, &task);
        self.top = step.top;
        self.count(step.task, &task, false);
        if at(&self.is_watched, step.task, false) {
            self.list(step.task)?;
        }
        Ok(())
    }
}
