//! The keys that a store gave, in the order of those that they become.

use crate::problem::Problem;
use crate::small::at;
use crate::state::State;
use crate::tasks::Act;
use std::alloc::{AllocError, Global};
use std::collections::BTreeSet;

/// The names as they grow.
#[derive(Drop)]
struct Naming {
    names: Vec<u64>,
    seen: BTreeSet<u64>,
    /// A key that no store gives: that of the next row of which no key is known.
    unused: u64,
}

impl Naming {
    /// Adds a key, if it is none of those before.
    fn add(&mut self, name: u64) -> Result<(), AllocError> {
        if self.seen.insert(name)? {
            self.names.push(name)?;
        }
        Ok(())
    }

    /// Adds the key of a row.
    fn add_row(&mut self, key: u64) -> Result<(), AllocError> {
        if key > 0 {
            return self.add(key);
        }
        self.unused = self.unused.wrapping_sub(1);
        self.add(self.unused)
    }

    /// Adds the keys of the opening rows.
    fn add_opening(&mut self, problem: &Problem) -> Result<(), AllocError> {
        for row in 0..problem.opening {
            self.add_row(at(&problem.keys, row, 0))?;
        }
        Ok(())
    }

    /// Adds the keys of the inserts that are placed.
    fn add_placed(&mut self, problem: &Problem, state: &State) -> Result<(), AllocError> {
        for place in 0..state.placed() {
            if let Act::Insert(_, key) = problem.task(state.placed_at(place)).act {
                self.add_row(key)?;
            }
        }
        Ok(())
    }

    /// Adds the keys of deletes.
    fn add_deleted(&mut self, problem: &Problem) -> Result<(), AllocError> {
        for task in &problem.tasks {
            if let Act::Miss(_, key) | Act::Remove(_, key) = task.act {
                self.add(key)?;
            }
        }
        Ok(())
    }
}

/// The keys of the opening rows, of the inserts in their order, and then others that calls name.
pub(crate) fn names_of(
    alloc: Global,
    problem: &Problem,
    state: &State,
) -> Result<Vec<u64>, AllocError> {
    let mut naming = Naming {
        names: Vec::with_capacity(alloc, problem.keys.len())?,
        seen: BTreeSet::new(alloc),
        unused: 0,
    };
    naming.add_opening(problem)?;
    naming.add_placed(problem, state)?;
    naming.add_deleted(problem)?;
    Ok(naming.names)
}
