//! Which calls may come next, and which may come before a call.

use crate::problem::Problem;
use crate::small::at;
use crate::state::State;
use crate::tasks::Task;
use std::alloc::AllocError;

/// The call of known outcome that a session has to place next.
pub(crate) fn head(problem: &Problem, state: &State, session: usize) -> Option<usize> {
    let place = at(&state.heads, session, 0);
    match problem.sessions.get(session) {
        Some(tasks) => tasks.get(place).copied(),
        None => None,
    }
}

/// The least time after which nothing may come before all calls that have to.
pub(crate) fn soonest(problem: &Problem, state: &State) -> u64 {
    let mut least = u64::MAX;
    for session in 0..problem.sessions.len() {
        if let Some(number) = head(problem, state, session) {
            least = least.min(at(&problem.soonest, number, u64::MAX));
        }
    }
    least
}

/// Whether a call of unknown outcome is one that its session may have placed by now.
fn is_reached(state: &State, task: &Task, before: usize) -> bool {
    at(&state.heads, task.session, 0) >= before
}

/// Adds the calls of known outcome that their sessions have to place next, where they began by a time.
fn add_heads(
    problem: &Problem,
    state: &State,
    by: u64,
    out: &mut Vec<usize>,
) -> Result<(), AllocError> {
    for session in 0..problem.sessions.len() {
        if let Some(number) = head(problem, state, session) {
            if problem.task(number).start <= by {
                out.push(number)?;
            }
        }
    }
    Ok(())
}

/// The calls that may come next, as far as sessions and times tell. Those of unknown outcome stand behind.
pub(crate) fn next_calls(
    problem: &Problem,
    state: &State,
    out: &mut Vec<usize>,
) -> Result<(), AllocError> {
    let least = soonest(problem, state);
    add_heads(problem, state, least, out)?;
    for (number, before) in &problem.loose {
        let task = problem.task(*number);
        if !state.is_placed(*number) && task.start <= least && is_reached(state, &task, *before) {
            out.push(*number)?;
        }
    }
    Ok(())
}

/// Adds the calls of a session that began by a time and are not placed.
fn add_begun(
    problem: &Problem,
    state: &State,
    session: usize,
    by: u64,
    out: &mut Vec<usize>,
) -> Result<(), AllocError> {
    let Some(tasks) = problem.sessions.get(session) else {
        return Ok(());
    };
    for place in at(&state.heads, session, 0)..tasks.len() {
        let number = at(tasks, place, 0);
        if at(&problem.earliest, number, u64::MAX) > by {
            return Ok(());
        }
        if problem.task(number).start <= by {
            out.push(number)?;
        }
    }
    Ok(())
}

/// Adds the calls of known outcome that began by a time and are not placed; where a call is of known outcome, none of its
/// own session.
fn add_begun_beside(
    problem: &Problem,
    state: &State,
    task: &Task,
    by: u64,
    out: &mut Vec<usize>,
) -> Result<(), AllocError> {
    for session in 0..problem.sessions.len() {
        if !(task.is_known && session == task.session) {
            add_begun(problem, state, session, by, out)?;
        }
    }
    Ok(())
}

/// The calls that are not placed and may come before one, which is not among them.
pub(crate) fn may_precede(
    problem: &Problem,
    state: &State,
    number: usize,
    by: u64,
    out: &mut Vec<usize>,
) -> Result<(), AllocError> {
    add_begun_beside(problem, state, &problem.task(number), by, out)?;
    for (other, _) in &problem.loose {
        if *other != number && !state.is_placed(*other) && problem.task(*other).start <= by {
            out.push(*other)?;
        }
    }
    Ok(())
}

/// The call that has to stand before all that began later than any may: the one that ended first.
pub(crate) fn due(problem: &Problem, state: &State) -> Option<usize> {
    let least = soonest(problem, state);
    let mut found: Option<(u64, usize)> = None;
    for session in 0..problem.sessions.len() {
        if let Some(number) = head(problem, state, session) {
            if at(&problem.soonest, number, u64::MAX) == least {
                let end = problem.task(number).end;
                found = match found {
                    Some((first, other)) if first <= end => Some((first, other)),
                    _ => Some((end, number)),
                };
            }
        }
    }
    match found {
        Some((_, number)) => Some(number),
        None => None,
    }
}
