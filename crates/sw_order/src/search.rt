//! The search: depth first, with the states remembered that were met.
//!
//! A state that was met has the same future again (`equal_states_have_equal_futures` of sw_order_laws), and a search that has
//! tried all so leaves no order out (`exhausted_searches_have_no_order`). That this one has is not proved.

use crate::choices::Choices;
use crate::problem::Problem;
use crate::small::Mark;
use crate::state::State;
use crate::tasks::Act;
use crate::window::soonest;
use std::alloc::{AllocError, Global};
use std::collections::HashSet;

/// Who is told how far a search is. No clause speaks of what it sees.
pub trait Onlooker {
    /// So many calls are placed, and so many states were met.
    fn sees(&self, placed: usize, states: u64);
}

/// Nobody looks on.
#[derive(Clone, Copy)]
pub struct Nobody;

impl Onlooker for Nobody {
    fn sees(&self, _placed: usize, _states: u64) {}
}

/// How a search ended.
#[derive(Clone, Copy, PartialEq, Eq)]
pub(crate) enum Ending {
    /// All calls of known outcome are placed.
    Found,
    /// No state was left to try.
    Exhausted,
    /// More states were met than may be remembered.
    GivenUp,
}

/// What came of placing calls one after another.
#[derive(Clone, Copy, PartialEq, Eq)]
enum Descent {
    /// All calls of known outcome are placed.
    Found,
    /// None may come next, or the state was met before.
    Stuck,
    /// One of several has to be tried.
    Branched,
}

/// A state with several calls to try: how many are placed, and from where on the stack they stand that are still to be
/// tried.
#[derive(Clone, Copy)]
struct Frame {
    placed: usize,
    from: usize,
}

/// A search.
pub(crate) struct Search {
    pub(crate) state: State,
    choices: Choices,
    frames: Vec<Frame>,
    options: Vec<usize>,
    tried: Vec<(bool, u64, usize)>,
    met: HashSet<Mark>,
    pub(crate) states: u64,
    steps: u64,
    /// The calls that were placed where the search came furthest, and how many of them are those placed now.
    pub(crate) best: Vec<usize>,
    kept: usize,
    best_time: u64,
    best_is_set: bool,
}

// By hand, as with `Problem`.
impl Drop for Search {
    fn drop(self) {
        let Self {
            state: _state,
            choices: _choices,
            frames: _frames,
            options: _options,
            tried: _tried,
            met: _met,
            states: _,
            steps: _,
            best: _best,
            kept: _,
            best_time: _,
            best_is_set: _,
        } = self;
    }
}

impl Search {
    pub(crate) fn new(alloc: Global, problem: &Problem) -> Result<Search, AllocError> {
        Ok(Search {
            state: State::new(alloc, problem)?,
            choices: Choices::new(alloc, problem)?,
            frames: Vec::new(alloc),
            options: Vec::new(alloc),
            tried: Vec::new(alloc),
            met: HashSet::new(alloc),
            states: 0,
            steps: 0,
            best: Vec::new(alloc),
            kept: 0,
            best_time: 0,
            best_is_set: false,
        })
    }

    /// Places the calls that change nothing and have the list's reply, as long as there are such.
    fn settle(&mut self, problem: &Problem) -> Result<(), AllocError> {
        for _ in 0..u64::MAX {
            self.choices.look(problem, &mut self.state)?;
            if self.choices.place_idle(problem, &mut self.state)? == 0 {
                return Ok(());
            }
        }
        Ok(())
    }

    /// Takes back calls until so many are placed.
    fn back_to(&mut self, problem: &Problem, placed: usize) -> Result<(), AllocError> {
        let count = self.state.placed().saturating_sub(placed);
        for _ in 0..count {
            self.state.take_back(problem)?;
        }
        self.kept = self.kept.min(placed);
        Ok(())
    }

    /// Keeps the calls that are placed, where the search never came further.
    fn keep_best(&mut self, problem: &Problem) -> Result<(), AllocError> {
        let time = if problem.has_times {
            soonest(problem, &self.state)
        } else {
            0
        };
        let placed = self.state.placed();
        let is_better = time > self.best_time
            || (time == self.best_time && placed > self.best.len());
        if self.best_is_set && !is_better {
            return Ok(());
        }
        self.best_is_set = true;
        self.best_time = time;
        self.best.truncate(self.kept);
        for place in self.best.len()..placed {
            self.best.push(self.state.placed_at(place))?;
        }
        self.kept = placed;
        Ok(())
    }

    /// Remembers the state; false where it was met before.
    fn meet(&mut self) -> Result<bool, AllocError> {
        self.states = self.states.saturating_add(1);
        Ok(self.met.insert(self.state.mark())?)
    }

    /// Puts the calls that have to be tried on the stack.
    fn branch(&mut self) -> Result<(), AllocError> {
        self.frames.push(Frame {
            placed: self.state.placed(),
            from: self.options.len(),
        })?;
        let count = self.tried.len();
        for back in 0..count {
            if let Some((_, _, number)) = self.tried.get(count - 1 - back) {
                self.options.push(*number)?;
            }
        }
        Ok(())
    }

    /// Places the one call that has to be tried.
    fn place_only(&mut self, problem: &Problem) -> Result<(), AllocError> {
        if let Some((_, _, number)) = self.tried.first() {
            self.state.place(problem, *number)?;
        }
        Ok(())
    }

    /// Tells who looks on how far the search is, now and then.
    fn tell<L: Onlooker>(&mut self, onlooker: &L) {
        self.steps = self.steps.wrapping_add(1);
        if self.steps % 1024 == 0 {
            onlooker.sees(self.state.placed(), self.states);
        }
    }

    /// Places calls as long as one alone has to be tried.
    fn descend<L: Onlooker>(
        &mut self,
        problem: &Problem,
        onlooker: &L,
    ) -> Result<Descent, AllocError> {
        let mut is_first = true;
        for _ in 0..u64::MAX {
            self.tell(onlooker);
            self.settle(problem)?;
            if self.state.left == 0 {
                return Ok(Descent::Found);
            }
            self.choices.tried(problem, &self.state, &mut self.tried)?;
            let count = self.tried.len();
            if count == 0 {
                self.keep_best(problem)?;
                return Ok(Descent::Stuck);
            }
            if (is_first || count > 1) && !self.meet()? {
                return Ok(Descent::Stuck);
            }
            if count > 1 {
                self.branch()?;
                return Ok(Descent::Branched);
            }
            is_first = false;
            self.place_only(problem)?;
        }
        Ok(Descent::Stuck)
    }

    /// Places the next call that has to be tried; false where none is left.
    fn next(&mut self, problem: &Problem) -> Result<bool, AllocError> {
        for _ in 0..u64::MAX {
            let Some(frame) = self.frames.last().copied() else {
                return Ok(false);
            };
            if self.options.len() > frame.from {
                self.back_to(problem, frame.placed)?;
                if let Some(number) = self.options.pop() {
                    self.state.place(problem, number)?;
                }
                return Ok(true);
            }
            self.frames.pop();
        }
        Ok(false)
    }

    /// Looks for an order, over so many states at most.
    pub(crate) fn run<L: Onlooker>(
        &mut self,
        problem: &Problem,
        most: u64,
        onlooker: &L,
    ) -> Result<Ending, AllocError> {
        for _ in 0..u64::MAX {
            if self.descend(problem, onlooker)? == Descent::Found {
                return Ok(Ending::Found);
            }
            if self.states > most {
                self.keep_best(problem)?;
                return Ok(Ending::GivenUp);
            }
            if !self.next(problem)? {
                return Ok(Ending::Exhausted);
            }
        }
        Ok(Ending::GivenUp)
    }

    /// For each call that is placed the key that it gave or how many rows it took out, where it changed any.
    pub(crate) fn told(
        &self,
        alloc: Global,
        problem: &Problem,
    ) -> Result<Vec<Option<u64>>, AllocError> {
        let mut told = Vec::with_capacity(alloc, self.state.placed())?;
        for place in 0..self.state.placed() {
            let before = self.state.changes_before(place);
            let after = self.state.changes_before(place.saturating_add(1));
            told.push(match problem.task(self.state.placed_at(place)).act {
                Act::Insert(_, _) => Some(self.state.top_before(place).wrapping_add(1)),
                Act::Sweep => Some(after.saturating_sub(before) as u64),
                _ => None,
            })?;
        }
        Ok(told)
    }

    /// The calls that are placed, in their order.
    pub(crate) fn places(&self, alloc: Global) -> Result<Vec<usize>, AllocError> {
        let mut places = Vec::with_capacity(alloc, self.state.placed())?;
        for place in 0..self.state.placed() {
            places.push(self.state.placed_at(place))?;
        }
        Ok(places)
    }
}
