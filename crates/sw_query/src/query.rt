//! Queries and calls.

ghost use Rattle.std.specs.Prelude.{◌≡◌, ◌<◌, ◌++◌, ◌∷◌, ◌==◌, [], List, ℕ, IfOk, OnOk, OnErr, length, position, slice_set};

use crate::bound::Bound;
use smallvec::SmallVec;
use std::alloc::{AllocError, Global};
use std::marker::Model;

/// A condition on the cells of one attribute: not left of `lower` and left of `upper`, where they are there.
#[derive(Clone, Copy, Debug, Default, PartialEq, Eq)]
pub struct Cond {
    /// The attribute's number, from 0.
    pub attr: usize,
    pub lower: Option<Bound>,
    pub upper: Option<Bound>,
}

/// A query's conditions, in order.
#[derive(Debug)]
pub struct Conds {
    items: SmallVec<Cond, 1>,
}

// By hand: the drop of a derived one is written out at each way out of a function.
impl Drop for Conds {
    fn drop(self) {
        let Self { items: _items } = self;
    }
}

impl Model for Conds {
    ghost use Rattle.std.specs.Prelude.{List};
    ghost use Rattle.sw_query.specs.declared.query.Cond.{Cond};

    ghost Value = { List Cond };

    ghost view = { λ s. s.items.items };
}

impl Conds {
    /// No conditions.
    pub fn new(alloc: Global) -> Conds
        ensures { result ≡ [] }
    {
        Conds {
            items: SmallVec::new(alloc),
        }
    }

    /// A copy. The one error is that there is no memory for it.
    pub fn copied(&self, alloc: Global) -> Result<Conds, AllocError>
        ensures { IfOk result (λ copy. copy ≡ self.now) }
    {
        let items = SmallVec::from_slice(alloc, self.items.as_slice())?;
        Ok(Conds { items })
    }

    /// Adds a condition at the end; after an error nothing has changed.
    pub fn push(&mut self, cond: Cond) -> Result<(), AllocError>
        ensures ok { OnOk result (self.new ≡ self.old ++ cond ∷ []) }
        ensures err { OnErr result (self.new ≡ self.old) }
    {
        self.items.push(cond)?;
        Ok(())
    }

    /// The conditions as a slice.
    pub fn as_slice(&self) -> &[Cond]
        ensures { result.now ≡ self.now }
    {
        self.items.as_slice()
    }

    /// The place of the first condition on an attribute.
    pub fn place_of(&self, attr: usize) -> Option<usize>
        ensures { result ≡ position (λ c. c.attr == attr) self.now }
    {
        self.items.as_slice().iter().position(|c| c.attr == attr)
    }

    /// Puts a condition in the place of another.
    pub fn set(&mut self, place: usize, cond: Cond)
        requires { place < length self.old }
        ensures { self.new ≡ slice_set self.old place cond }
    {
        self.items.as_mut_slice()[place] = cond;
    }
}

/// The numbers of the attributes that a query shows, in order.
#[derive(Debug)]
pub struct Names {
    items: SmallVec<usize, 2>,
}

// By hand: the drop of a derived one is written out at each way out of a function.
impl Drop for Names {
    fn drop(self) {
        let Self { items: _items } = self;
    }
}

impl Model for Names {
    ghost use Rattle.std.specs.Prelude.{List, ℕ};

    ghost Value = { List ℕ };

    ghost view = { λ s. s.items.items };
}

impl Names {
    /// No names.
    pub fn new(alloc: Global) -> Names
        ensures { result ≡ [] }
    {
        Names {
            items: SmallVec::new(alloc),
        }
    }

    /// A copy. The one error is that there is no memory for it.
    pub fn copied(&self, alloc: Global) -> Result<Names, AllocError>
        ensures { IfOk result (λ copy. copy ≡ self.now) }
    {
        let items = SmallVec::from_slice(alloc, self.items.as_slice())?;
        Ok(Names { items })
    }

    /// Adds an attribute at the end; after an error nothing has changed.
    pub fn push(&mut self, attr: usize) -> Result<(), AllocError>
        ensures ok { OnOk result (self.new ≡ self.old ++ attr ∷ []) }
        ensures err { OnErr result (self.new ≡ self.old) }
    {
        self.items.push(attr)?;
        Ok(())
    }

    /// How many there are.
    pub fn len(&self) -> usize
        ensures { result ≡ length self.now }
    {
        self.items.len()
    }

    /// The attributes as a slice.
    pub fn as_slice(&self) -> &[usize]
        ensures { result.now ≡ self.now }
    {
        self.items.as_slice()
    }
}

/// What a query asks of the rows that meet its conditions. Attributes go by their numbers, from 0.
#[derive(Debug, Drop)]
pub enum Want {
    /// Each row's key and its cells of these attributes.
    Rows(Names),
    /// How many rows there are.
    Count,
    /// The sum of an attribute's cells, 0 for no rows.
    Sum(usize),
    /// The least of an attribute's cells, if there are rows.
    Min(usize),
    /// The greatest of an attribute's cells, if there are rows.
    Max(usize),
}

impl Want {
    /// A copy. The one error is that there is no memory for it.
    pub fn copied(&self, alloc: Global) -> Result<Want, AllocError>
        ensures { IfOk result (λ copy. copy ≡ self.now) }
    {
        match self {
            Want::Rows(names) => {
                let names = names.copied(alloc)?;
                Ok(Want::Rows(names))
            }
            Want::Count => Ok(Want::Count),
            Want::Sum(attr) => Ok(Want::Sum(*attr)),
            Want::Min(attr) => Ok(Want::Min(*attr)),
            Want::Max(attr) => Ok(Want::Max(*attr)),
        }
    }
}

/// A question to a list of rows. Each attribute stands in one condition at most.
#[derive(Debug, Drop)]
pub struct Query {
    pub conds: Conds,
    pub want: Want,
}

impl Query {
    /// A copy. The one error is that there is no memory for it.
    pub fn copied(&self, alloc: Global) -> Result<Query, AllocError>
        ensures { IfOk result (λ copy. copy ≡ self.now) }
    {
        let conds = self.conds.copied(alloc)?;
        let want = self.want.copied(alloc)?;
        Ok(Query { conds, want })
    }
}

/// A call of a session.
#[derive(Debug, Drop)]
pub enum Call {
    /// Asks.
    Select(Query),
    /// Inserts a row of these cells; those past the last attribute are 0.
    Insert([i64; 8]),
    /// Deletes the row of this key.
    Delete(u64),
    /// Deletes each row that meets all these conditions. A line gives one at least, each with a bound.
    DeleteWhere(Conds),
}
