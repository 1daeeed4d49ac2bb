//! Orders are looked for, and proved where they are found.

ghost use Rattle.std.specs.Prelude.{◌≡◌, false, length, true, IfOk, IsOkUnless};
ghost use Rattle.sw_logs.specs.Openings.{IsOpening};
ghost use Rattle.sw_logs.specs.Orders.{AllFit};
ghost use Rattle.sw_order.specs.Outcomes.{IsOutcome};

use crate::building::{Rules, problem_of};
use crate::naming::names_of;
use crate::problem::Problem;
use crate::search::{Ending, Onlooker, Search};
use crate::telling::{Place, Reached, state_after};
use std::alloc::{AllocError, Global};
use sw_keys::{Named, check_renamed_order};
use sw_logs::{By, Logged, Opening, Order, Placed, check_order};
use sw_rows::Refusal;

/// What came of looking for an order.
#[derive(Drop)]
pub enum Outcome {
    /// An order of the calls.
    Found(Order),
    /// Nothing was left to try.
    NoOrder(Reached),
    /// More states were met than may be remembered, or what was found is no order.
    GivenUp(Reached),
}

/// What a search came to: a list of calls that may be an order, or why there is none.
#[derive(Drop)]
enum Sought {
    Placed(Named),
    Exhausted(Reached),
    GivenUp(Reached),
}

/// A search that has ended, and how.
#[derive(Drop)]
struct Ended {
    problem: Problem,
    search: Search,
    ending: Ending,
}

/// Searches under some rules.
fn searched<L: Onlooker>(
    alloc: Global,
    opening: &Opening,
    calls: &[Logged],
    rules: Rules,
    onlooker: &L,
) -> Result<Ended, AllocError> {
    let problem = problem_of(alloc, opening, calls, rules)?;
    let mut search = Search::new(alloc, &problem)?;
    let ending = search.run(&problem, rules.states, onlooker)?;
    Ok(Ended {
        problem,
        search,
        ending,
    })
}

impl Ended {
    /// The calls that are placed, with the keys that the store gave.
    fn placed(&self, alloc: Global) -> Result<Named, AllocError> {
        Ok(Named {
            placed: Placed {
                places: self.search.places(alloc)?,
                told: self.search.told(alloc, &self.problem)?,
            },
            names: names_of(alloc, &self.problem, &self.search.state)?,
        })
    }

    /// What is told where the search came furthest.
    fn reached(
        &self,
        alloc: Global,
        opening: &Opening,
        calls: &[Logged],
    ) -> Result<Reached, AllocError> {
        let state = state_after(alloc, &self.problem, self.search.best.as_slice())?;
        let place = Place {
            alloc,
            schema: &opening.schema,
            calls,
            problem: &self.problem,
            state: &state,
        };
        place.reached(self.search.states)
    }

    /// What the search came to.
    fn sought(
        &self,
        alloc: Global,
        opening: &Opening,
        calls: &[Logged],
    ) -> Result<Sought, AllocError> {
        match self.ending {
            Ending::Found => Ok(Sought::Placed(self.placed(alloc)?)),
            Ending::Exhausted => Ok(Sought::Exhausted(self.reached(alloc, opening, calls)?)),
            Ending::GivenUp => Ok(Sought::GivenUp(self.reached(alloc, opening, calls)?)),
        }
    }
}

/// Looks for an order. Where times say nothing one is looked for first that keeps them, for which fewer states are to be
/// met: it is one by sessions too.
fn seek<L: Onlooker>(
    alloc: Global,
    opening: &Opening,
    calls: &[Logged],
    rules: Rules,
    onlooker: &L,
) -> Result<Sought, AllocError> {
    if let By::Sessions = rules.by {
        let timed = Rules {
            by: By::Times { slack: 0 },
            any_keys: rules.any_keys,
            states: rules.states,
        };
        let first = searched(alloc, opening, calls, timed, onlooker)?;
        if first.ending == Ending::Found {
            return first.sought(alloc, opening, calls);
        }
    }
    let last = searched(alloc, opening, calls, rules, onlooker)?;
    last.sought(alloc, opening, calls)
}

/// What is told of an order that the check refused.
fn refused(alloc: Global, placed: usize) -> Reached {
    Reached {
        placed,
        states: 0,
        due: None,
        others: Vec::new(alloc),
        changes: Vec::new(alloc),
    }
}

/// Proves a list of calls to be an order, in which keys are the plain list's.
fn proved(
    alloc: Global,
    opening: Opening,
    calls: &[Logged],
    rules: Rules,
    placed: Placed,
) -> Result<Outcome, Refusal>
    requires table { IsOpening opening }
    requires fit { AllFit (length opening.schema) calls.now }
    requires keys { rules.any_keys ≡ false }
    ensures found { IfOk result (IsOutcome rules opening calls.now) }
    ensures refused { IsOkUnless result Refusal.NoMemory }
{
    let count = placed.places.len();
    match check_order(alloc, opening, calls, rules.by, placed) {
        Ok(Some(order)) => Ok(Outcome::Found(order)),
        Ok(None) => Ok(Outcome::GivenUp(refused(alloc, count))),
        Err(e) => Err(e),
    }
}

/// Proves a list of calls to be an order, in which keys are whatever the store gave.
fn proved_renamed(
    alloc: Global,
    opening: Opening,
    calls: &[Logged],
    rules: Rules,
    named: Named,
) -> Result<Outcome, Refusal>
    requires table { IsOpening opening }
    requires fit { AllFit (length opening.schema) calls.now }
    requires keys { rules.any_keys ≡ true }
    ensures found { IfOk result (IsOutcome rules opening calls.now) }
    ensures refused { IsOkUnless result Refusal.NoMemory }
{
    let count = named.placed.places.len();
    match check_renamed_order(alloc, opening, calls, rules.by, named) {
        Ok(Some(order)) => Ok(Outcome::Found(order)),
        Ok(None) => Ok(Outcome::GivenUp(refused(alloc, count))),
        Err(e) => Err(e),
    }
}

/// Looks for an order of the calls of logs in which a plain list of rows gives each its reply, over so many states at most.
///
/// An order that is found is proved to be one. That none was found, with nothing left to try, is no proof that there is
/// none: states are told apart by their marks. The one refusal is `NoMemory`. The caller's condition: calls name
/// attributes of the table.
pub fn find_order<L: Onlooker>(
    alloc: Global,
    opening: Opening,
    calls: &[Logged],
    rules: Rules,
    onlooker: &L,
) -> Result<Outcome, Refusal>
    requires table { IsOpening opening }
    requires fit { AllFit (length opening.schema) calls.now }
    ensures found { IfOk result (IsOutcome rules opening calls.now) }
    ensures refused { IsOkUnless result Refusal.NoMemory }
{
    match seek(alloc, &opening, calls, rules, onlooker) {
        Ok(Sought::Placed(named)) if rules.any_keys => {
            proved_renamed(alloc, opening, calls, rules, named)
        }
        Ok(Sought::Placed(named)) => proved(alloc, opening, calls, rules, named.placed),
        Ok(Sought::Exhausted(reached)) => Ok(Outcome::NoOrder(reached)),
        Ok(Sought::GivenUp(reached)) => Ok(Outcome::GivenUp(reached)),
        Err(_) => Err(Refusal::NoMemory),
    }
}
