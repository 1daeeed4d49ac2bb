//! Replies.

ghost use Rattle.std.specs.Prelude.{◌≡◌, ◌++◌, ◌∷◌, [], List, ℤ, IfOk, OnOk, OnErr, length};
ghost use Rattle.sw_query.specs.declared.reply.ReplyRow.{ReplyRow};
ghost use Rattle.sw_query.specs.Replies.{IsNextRow, first_key, reply_row};

pub(crate) mod labels;

use crate::reply::labels::{Labels, LabelsLeft};
use smallvec::SmallVec;
use std::alloc::{AllocError, Global};
use std::marker::Model;

/// The cells that a reply shows of a row, in the order asked for.
#[derive(Debug)]
pub struct Cells {
    items: SmallVec<i64, 8>,
}

// By hand: the drop of a derived one is written out at each way out of a function.
impl Drop for Cells {
    fn drop(self) {
        let Self { items: _items } = self;
    }
}

impl Model for Cells {
    ghost use Rattle.std.specs.Prelude.{List, ℤ};

    ghost Value = { List ℤ };

    ghost view = { λ s. s.items.items };
}

impl Cells {
    /// No cells.
    pub fn new(alloc: Global) -> Cells
        ensures { result ≡ [] }
    {
        Cells {
            items: SmallVec::new(alloc),
        }
    }

    /// Adds a cell at the end; after an error nothing has changed.
    pub fn push(&mut self, cell: i64) -> Result<(), AllocError>
        ensures ok { OnOk result (self.new ≡ self.old ++ cell ∷ []) }
        ensures err { OnErr result (self.new ≡ self.old) }
    {
        self.items.push(cell)?;
        Ok(())
    }

    /// The cells as a slice.
    pub fn as_slice(&self) -> &[i64]
        ensures { result.now ≡ self.now }
    {
        self.items.as_slice()
    }
}

/// A row of a reply.
#[derive(Debug, Drop)]
pub struct ReplyRow {
    pub key: u64,
    pub cells: Cells,
}

/// Rows of a reply: the cells of all, one row after another, with a label for each row.
#[derive(Debug, Drop)]
struct Flat {
    labels: Labels,
    cells: Vec<i64>,
}

impl Model for Flat {
    ghost use Rattle.std.specs.Prelude.{◌≡◌, List, length};
    ghost use Rattle.sw_query.specs.Replies.{rows_in, shown_by};
    ghost use Rattle.sw_query.specs.declared.reply.ReplyRow.{ReplyRow};

    ghost Value = { List ReplyRow };

    ghost view = { λ f. rows_in f.labels f.cells.items };

    ghost invariant = { λ f. shown_by f.labels ≡ length f.cells.items };
}

impl Flat {
    /// No rows.
    fn new(alloc: Global) -> Flat
        ensures { result ≡ [] }
    {
        Flat {
            labels: Labels::new(alloc),
            cells: Vec::new(alloc),
        }
    }

    /// How many rows there are.
    fn len(&self) -> usize
        ensures { result ≡ length self.now }
    {
        self.labels.len()
    }

    /// A copy. The one error is that there is no memory for it.
    fn copied(&self, alloc: Global) -> Result<Flat, AllocError>
        ensures { IfOk result (λ copy. copy ≡ self.now) }
    {
        Ok(Flat {
            labels: self.labels.copied(alloc)?,
            cells: Vec::from_slice(alloc, &self.cells)?,
        })
    }

    /// Adds a row at the end; after an error nothing has changed.
    fn push(&mut self, alloc: Global, key: u64, cells: &[i64]) -> Result<(), AllocError>
        ensures ok { OnOk result (self.new ≡ self.old ++ reply_row key cells.now ∷ []) }
        ensures err { OnErr result (self.new ≡ self.old) }
    {
        let before = self.cells.len();
        self.cells.extend_from_slice(cells)?;
        match self.labels.push(alloc, key, cells.len()) {
            Ok(()) => Ok(()),
            Err(e) => {
                self.cells.truncate(before);
                Err(e)
            }
        }
    }

    /// The rows, to be taken one after another.
    fn left(&self) -> RowsLeft<'_>
        ensures { result ≡ self.now }
    {
        RowsLeft {
            labels: self.labels.left(),
            cells: &self.cells,
        }
    }
}

/// The rows of a reply, in ascending order of their keys. Their cells stand in one list, as many of each row as it
/// shows.
#[derive(Debug)]
pub struct ReplyRows {
    alloc: Global,
    /// None while there are no rows.
    flat: Option<Box<Flat>>,
}

// By hand: the drop of a derived one is written out at each way out of a function.
impl Drop for ReplyRows {
    fn drop(self) {
        let Self {
            alloc: _,
            flat: _flat,
        } = self;
    }
}

impl Model for ReplyRows {
    ghost use Rattle.std.specs.Prelude.{List};
    ghost use Rattle.sw_query.specs.Replies.{rows_of};
    ghost use Rattle.sw_query.specs.declared.reply.ReplyRow.{ReplyRow};

    ghost Value = { List ReplyRow };

    ghost view = { λ s. rows_of s.flat };
}

impl ReplyRows {
    /// No rows.
    pub fn new(alloc: Global) -> ReplyRows
        ensures { result ≡ [] }
    {
        ReplyRows { alloc, flat: None }
    }

    /// How many rows there are.
    pub fn len(&self) -> usize
        ensures { result ≡ length self.now }
    {
        match &self.flat {
            None => 0,
            Some(flat) => flat.len(),
        }
    }

    /// A copy. The one error is that there is no memory for it.
    pub fn copied(&self, alloc: Global) -> Result<ReplyRows, AllocError>
        ensures { IfOk result (λ copy. copy ≡ self.now) }
    {
        match &self.flat {
            None => Ok(ReplyRows::new(alloc)),
            Some(flat) => {
                let copy = Box::new(alloc, flat.copied(alloc)?)?;
                Ok(ReplyRows {
                    alloc,
                    flat: Some(copy),
                })
            }
        }
    }

    /// Adds a row at the end, as its key and the cells that it shows; after an error nothing has changed.
    pub fn push(&mut self, key: u64, cells: &[i64]) -> Result<(), AllocError>
        ensures ok { OnOk result (self.new ≡ self.old ++ reply_row key cells.now ∷ []) }
        ensures err { OnErr result (self.new ≡ self.old) }
    {
        match &mut self.flat {
            None => {
                let mut flat = Flat::new(self.alloc);
                flat.push(self.alloc, key, cells)?;
                self.flat = Some(Box::new(self.alloc, flat)?);
                Ok(())
            }
            Some(flat) => flat.push(self.alloc, key, cells),
        }
    }

    /// The rows, to be taken one after another.
    pub fn left(&self) -> RowsLeft<'_>
        ensures { result ≡ self.now }
    {
        match &self.flat {
            None => RowsLeft {
                labels: LabelsLeft::none(),
                cells: &[],
            },
            Some(flat) => flat.left(),
        }
    }
}

/// Rows of a reply that are taken one after another.
#[derive(Drop)]
pub struct RowsLeft<'a> {
    labels: LabelsLeft<'a>,
    cells: &'a [i64],
}

impl<'a> Model for RowsLeft<'a> {
    ghost use Rattle.std.specs.Prelude.{List};
    ghost use Rattle.sw_query.specs.Replies.{rows_in};
    ghost use Rattle.sw_query.specs.declared.reply.ReplyRow.{ReplyRow};

    ghost Value = { List ReplyRow };

    ghost view = { λ r. rows_in r.labels r.cells.now };
}

impl<'a> RowsLeft<'a> {
    /// The key of the row that comes next.
    #[inline]
    pub fn first_key(&self) -> Option<u64>
        ensures { result ≡ first_key self.now }
    {
        self.labels.first_key()
    }

    /// Takes the row that comes next: its key, and the cells that it shows.
    #[inline]
    pub fn next(&mut self) -> Option<(u64, &'a [i64])>
        ensures { IsNextRow self.old self.new result }
    {
        let (key, many) = self.labels.next()?;
        let (cells, later) = self.cells.split_at(many.min(self.cells.len()));
        self.cells = later;
        Some((key, cells))
    }
}

/// What a call is answered.
#[derive(Debug, Drop)]
pub enum Reply {
    /// Each row that meets the conditions, as its key and the cells asked for.
    Rows(ReplyRows),
    /// How many rows meet the conditions.
    Count(u64),
    /// The sum of an attribute over them, 0 for none.
    Sum(i128),
    /// The least of an attribute over them, or the greatest where that was asked for; None for no rows.
    Least(Option<i64>),
    /// The row is in, under this key.
    Inserted(u64),
    /// No row is in, since as many rows as the limit allows have ever been inserted.
    Full,
    /// The row is gone.
    Removed,
    /// There is no row of this key.
    NoSuchKey,
    /// So many rows met the conditions, and are gone.
    RemovedMany(u64),
}

impl Reply {
    /// A copy. The one error is that there is no memory for it.
    pub fn copied(&self, alloc: Global) -> Result<Reply, AllocError>
        ensures { IfOk result (λ copy. copy ≡ self.now) }
    {
        match self {
            Reply::Rows(rows) => {
                let rows = rows.copied(alloc)?;
                Ok(Reply::Rows(rows))
            }
            Reply::Count(found) => Ok(Reply::Count(*found)),
            Reply::Sum(sum) => Ok(Reply::Sum(*sum)),
            Reply::Least(least) => Ok(Reply::Least(*least)),
            Reply::Inserted(key) => Ok(Reply::Inserted(*key)),
            Reply::Full => Ok(Reply::Full),
            Reply::Removed => Ok(Reply::Removed),
            Reply::NoSuchKey => Ok(Reply::NoSuchKey),
            Reply::RemovedMany(many) => Ok(Reply::RemovedMany(*many)),
        }
    }
}
