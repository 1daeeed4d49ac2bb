//! A list of cells, of its own or one that several share.

ghost use Rattle.std.specs.Prelude.{◌≡◌, ◌<◌, ◌*◌, ◌^◌, ◌++◌, [], length, take, Some, IfOk, OnOk, OnErr};
ghost use Rattle.std.specs.Arc.{arc_value};
ghost use Rattle.sw_table.specs.CellLists.{KeepsRoom, cells_in};
ghost use Rattle.sw_table.specs.Exchanged.{AreExchanged};
ghost use Rattle.sw_table.specs.Kept.{kept_parts};

use crate::exchanging::exchange_cells;
use crate::keeping::keep_cells;
use std::alloc::{AllocError, Global};
use std::marker::Model;
use std::mem;
use std::sync::Arc;

/// A list of cells. Where several share it, each keeps room for a copy, which takes no page of memory before it is
/// filled: so a list that is written to becomes its own, and that cannot fail.
#[derive(Debug)]
pub(crate) struct CellList {
    own: Vec<i64>,
    shared: Option<Arc<Vec<i64>>>,
}

// By hand: the drop of a derived one is written out at each way out of a function.
impl Drop for CellList {
    fn drop(self) {
        let Self {
            own: _own,
            shared: _shared,
        } = self;
    }
}

impl Model for CellList {
    ghost use Rattle.std.specs.Prelude.{List, ℤ};
    ghost use Rattle.sw_table.specs.CellLists.{KeepsRoom, cells_in};

    ghost Value = { List ℤ };

    ghost view = { λ c. cells_in c.own c.shared };

    ghost invariant = { λ c. KeepsRoom c.own c.shared };
}

/// Fills an empty list that has room for them with shared cells. Where no other shares them now, they are not copied.
fn copy_out(own: &mut Vec<i64>, cells: Arc<Vec<i64>>)
    requires { KeepsRoom own.old (Some cells) }
    ensures { own.new.items ≡ (arc_value cells).items }
{
    match Arc::try_unwrap(cells) {
        Ok(cells) => *own = cells,
        Err(cells) => {
            if own.extend_from_slice(cells.as_slice()).is_err() {
                unreachable!();
            }
        }
    }
}

/// Makes shared cells, if any are, those of a list of its own.
#[inline]
fn fill(own: &mut Vec<i64>, shared: Option<Arc<Vec<i64>>>)
    requires { KeepsRoom own.old shared }
    ensures { own.new.items ≡ cells_in own.old shared }
{
    if let Some(cells) = shared {
        copy_out(own, cells);
    }
}

impl CellList {
    /// No cells yet.
    pub(crate) fn new(alloc: Global) -> CellList
        ensures { result ≡ [] }
    {
        CellList::of(Vec::new(alloc))
    }

    /// These cells. Nothing is copied.
    pub(crate) fn of(cells: Vec<i64>) -> CellList
        ensures { result ≡ cells.items }
    {
        CellList {
            own: cells,
            shared: None,
        }
    }

    /// The allocator.
    pub(crate) fn alloc(&self) -> Global {
        *self.own.allocator()
    }

    /// How many cells there are.
    #[inline]
    pub(crate) fn len(&self) -> usize
        ensures many { result ≡ length self.now }
        ensures few { result < 2 ^ 63 }
    {
        match &self.shared {
            Some(cells) => cells.len(),
            None => self.own.len(),
        }
    }

    /// The cells.
    #[inline]
    pub(crate) fn as_slice(&self) -> &[i64]
        ensures { result.now ≡ self.now }
    {
        match &self.shared {
            Some(cells) => cells.as_slice(),
            None => self.own.as_slice(),
        }
    }

    /// Makes room for so many more cells; the cells stay. No clause tells of the room.
    pub(crate) fn reserve(&mut self, more: usize) -> Result<(), AllocError>
        ensures { self.new ≡ self.old }
    {
        fill(&mut self.own, self.shared.take());
        self.own.reserve_exact(more)
    }

    /// Adds cells at the end; after an error nothing has changed.
    pub(crate) fn extend_from_slice(&mut self, cells: &[i64]) -> Result<(), AllocError>
        ensures ok { OnOk result (self.new ≡ self.old ++ cells.now) }
        ensures err { OnErr result (self.new ≡ self.old) }
    {
        fill(&mut self.own, self.shared.take());
        self.own.extend_from_slice(cells)
    }

    /// Keeps so many cells at most, the first ones.
    pub(crate) fn truncate(&mut self, many: usize)
        ensures { self.new ≡ take many self.old }
    {
        fill(&mut self.own, self.shared.take());
        self.own.truncate(many);
    }

    /// Takes the cells of the rows out whose flags are false, where each row has as many cells as the width.
    pub(crate) fn keep(&mut self, width: usize, live: &[bool])
        requires { length self.old ≡ length live.now * width }
        ensures { self.new ≡ kept_parts width live.now self.old }
    {
        fill(&mut self.own, self.shared.take());
        keep_cells(&mut self.own, width, live);
    }

    /// Exchanges the cells of an attribute of so many rows.
    pub(crate) fn exchange(&mut self, width: usize, many: usize, attr: usize, codes: &[i64])
        requires within { attr < width }
        requires whole { length self.old ≡ many * width }
        ensures rows { AreExchanged width many attr codes.now self.old self.new }
        ensures whole { length self.new ≡ length self.old }
    {
        fill(&mut self.own, self.shared.take());
        exchange_cells(&mut self.own, width, many, attr, codes);
    }

    /// Lets the lists that `share` makes have these very cells; after an error nothing has changed.
    pub(crate) fn make_shared(&mut self) -> Result<(), AllocError>
        ensures { self.new ≡ self.old }
    {
        if self.shared.is_some() {
            return Ok(());
        }
        let alloc = self.alloc();
        let room = Vec::with_capacity(alloc, self.own.len())?;
        let cells = mem::replace(&mut self.own, room);
        match Arc::new(alloc, cells) {
            Ok(cells) => {
                self.shared = Some(cells);
                Ok(())
            }
            Err(back) => {
                self.own = back.value;
                Err(AllocError)
            }
        }
    }

    /// The same cells: those that are shared, else a copy. The one error is that there is no memory for a copy.
    pub(crate) fn share(&self, alloc: Global) -> Result<CellList, AllocError>
        ensures { IfOk result (λ c. c ≡ self.now) }
    {
        let Some(cells) = &self.shared else {
            return Ok(CellList::of(Vec::from_slice(alloc, &self.own)?));
        };
        let own = Vec::with_capacity(alloc, cells.len())?;
        let shared = Arc::try_clone(cells)?;
        Ok(CellList {
            own,
            shared: Some(shared),
        })
    }
}
