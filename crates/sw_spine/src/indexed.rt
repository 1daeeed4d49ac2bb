//! A table that keeps the places of rows by their cells, where they are asked for often.

ghost use Rattle.std.specs.Prelude.{◌≡◌, ◌<◌, length, map, replicate, true, Contains, IfOk, IfSome, IsOkUnless, OnOk, OnErr};
ghost use Rattle.sw_query.specs.Scan.{AsksBelow, CondsBelow, answer, matching};
ghost use Rattle.sw_table.specs.Live.{RisesFrom, all_live, came_with, key_of, live_rows};
ghost use Rattle.sw_table.specs.Updates.{has_key, without};
ghost use Rattle.sw_spine.specs.Indexes.{IsIndexOfFirst, MeetsMatching};

use crate::given::Listing;
use crate::index::Index;
use crate::picked::Picked;
use std::alloc::{AllocError, Global};
use std::marker::Model;
use sw_rows::{Cond, LiveTable, PackedRows, Query, Refusal, Reply, Row, matching_keys, scan};

/// How many times as many rows as the table has are passed over before an index is made, which takes as long as so many
/// passes.
const PASSES: usize = 16;

/// Up to one row in so many an index is used. Above it a pass over all rows is quicker.
const SHARE: usize = 4;

/// A table with an index of the first rows for each attribute that is asked for often. A row that goes stays in it as a
/// dead one, and those that came since are passed over. Contracts see the table alone.
pub struct Indexed {
    table: LiveTable,
    indexes: [Option<Index>; 8],
    /// How many rows were passed over for each attribute that its index has not, since it was made.
    passed: [usize; 8],
}

// By hand: the drop of a derived one is written out at each way out of a function.
impl Drop for Indexed {
    fn drop(self) {
        let Self {
            table: _table,
            indexes: _indexes,
            passed: _,
        } = self;
    }
}

impl Model for Indexed {
    ghost use Rattle.sw_table.specs.Live.{Living};
    ghost use Rattle.sw_spine.specs.Indexes.{AreIndexes};

    ghost Value = { Living };

    ghost view = { λ s. s.table };

    ghost invariant = { λ s. AreIndexes s.table.came s.indexes };
}

/// The first condition with two bounds, or else the first of all.
fn narrow(conds: &[Cond]) -> Option<Cond>
    ensures { IfSome result (Contains conds.now) }
{
    for cond in conds {
        if cond.lower.is_some() && cond.upper.is_some() {
            return Some(*cond);
        }
    }
    conds.first().copied()
}

/// No indexes.
fn no_indexes() -> [Option<Index>; 8]
    ensures { result ≡ replicate 8 None }
{
    [None, None, None, None, None, None, None, None]
}

impl Indexed {
    /// These rows, whose keys rise from above 0, all of them live. The one error is that there is no memory for them.
    pub fn from_rows(alloc: Global, rows: &PackedRows) -> Result<Indexed, AllocError>
        requires { RisesFrom 0 rows.now.items }
        ensures { IfOk result (λ t. t ≡ all_live rows.now.items) }
    {
        let table = LiveTable::from_rows(alloc, rows)?;
        Ok(Indexed {
            table,
            indexes: no_indexes(),
            passed: [0; 8],
        })
    }

    /// The greatest key that ever came, 0 for none.
    pub fn top(&self) -> u64
        ensures { result ≡ self.now.top }
    {
        self.table.top()
    }

    /// Whether each of the rows held is live.
    pub fn live(&self) -> &[bool]
        ensures value { result.now ≡ self.now.live }
        ensures many { length self.now.live ≡ length self.now.came }
    {
        self.table.live()
    }

    /// The table.
    pub fn table(&self) -> &LiveTable
        ensures { result.now ≡ self.now }
    {
        &self.table
    }

    /// A row comes, with a greater key than any before it; after an error nothing has changed.
    pub fn insert(&mut self, row: &Row) -> Result<(), AllocError>
        requires { self.old.top < row.now.key }
        ensures ok { OnOk result (self.new ≡ came_with row.now self.old) }
        ensures err { OnErr result (self.new ≡ self.old) }
    {
        self.table.insert(row)
    }

    /// The row of a key goes, if there is one: whether there was.
    pub fn remove(&mut self, key: u64) -> bool
        ensures found { result ≡ has_key key (live_rows self.old) }
        ensures rows { live_rows self.new ≡ without key (live_rows self.old) }
        ensures came { self.new ≡ record self.old { live = self.new.live } }
    {
        self.table.remove(key)
    }

    /// Drops the dead rows, in place, and the indexes, whose places are others then; the rows stay. The one error is that
    /// there is no memory for it, and then nothing has changed.
    pub fn compact(&mut self) -> Result<(), AllocError>
        ensures top { self.new.top ≡ self.old.top }
        ensures ok { OnOk result (self.new.came ≡ live_rows self.old) }
        ensures live { OnOk result (self.new.live ≡ replicate (length self.new.came) true) }
        ensures err { OnErr result (self.new ≡ self.old) }
    {
        self.table.compact()?;
        self.indexes = no_indexes();
        Ok(())
    }

    /// Counts a pass for an attribute: whether so many rows were passed over that an index is to be made.
    fn count_pass(&mut self, attr: usize) -> bool
        requires { attr < 8 }
        ensures { self.new ≡ self.old }
    {
        let rows = self.table.came().len();
        let known = match &self.indexes[attr] {
            Some(index) => index.len(),
            None => 0,
        };
        let passed = self.passed[attr].saturating_add(rows.saturating_sub(known));
        self.passed[attr] = passed;
        passed / PASSES > rows
    }

    /// Makes the index of an attribute, where there is memory for it.
    fn make_index(&mut self, alloc: Global, attr: usize)
        requires { attr < 8 }
        ensures { self.new ≡ self.old }
    {
        self.passed[attr] = 0;
        if let Ok(index) = Index::new(alloc, self.table.came(), attr) {
            self.indexes[attr] = Some(index);
        }
    }

    /// Counts a pass under conditions, and makes an index for it where there were many; the table stays.
    pub fn prepare(&mut self, alloc: Global, conds: &[Cond])
        requires { CondsBelow 8 conds.now }
        ensures { self.new ≡ self.old }
    {
        if let Some(cond) = narrow(conds) {
            if self.count_pass(cond.attr) {
                self.make_index(alloc, cond.attr);
            }
        }
    }

    /// The index of an attribute, if there is one.
    fn index_of(&self, attr: usize) -> Option<&Index>
        requires { attr < 8 }
        ensures { IfSome result (λ index. IsIndexOfFirst attr self.now.came index.now) }
    {
        self.indexes[attr].as_ref()
    }

    /// The places to go over under conditions, by an index. None where there is no index, where it finds too many rows,
    /// and where there is no memory for the places.
    fn listing(&self, alloc: Global, conds: &[Cond]) -> Option<Listing>
        requires { CondsBelow 8 conds.now }
        ensures { IfSome result (λ l. MeetsMatching conds.now self.now l.some.items l.from) }
    {
        let cond = narrow(conds)?;
        let index = self.index_of(cond.attr)?;
        let flags = self.table.live();
        let some = index.places(alloc, cond, flags.len() / SHARE)?;
        Some(Listing {
            some,
            from: index.len(),
        })
    }

    /// Whether a pass under conditions would go by an index now. No clause tells of it.
    pub fn is_indexed(&self, alloc: Global, conds: &[Cond]) -> bool
        requires { CondsBelow 8 conds.now }
    {
        self.listing(alloc, conds).is_some()
    }

    /// What a query is answered over the rows, by an index where there is one that helps.
    ///
    /// The one refusal is `NoMemory`, and only where rows are asked for. The caller's condition: attributes are below 8.
    pub fn scan(&self, alloc: Global, query: &Query) -> Result<Reply, Refusal>
        requires { AsksBelow 8 query.now }
        ensures answered { IfOk result (λ reply. reply ≡ answer (live_rows self.now) query.now) }
        ensures refused { IsOkUnless result Refusal.NoMemory }
    {
        match self.listing(alloc, query.conds.as_slice()) {
            Some(listing) => {
                let picked = Picked {
                    table: &self.table,
                    listing: &listing,
                };
                scan(alloc, &picked, query)
            }
            None => scan(alloc, &self.table, query),
        }
    }

    /// The keys of the rows that meet each condition, in the order of their places, by an index where there is one that
    /// helps.
    ///
    /// The one error is that there is no memory for the keys. The caller's condition: attributes are below 8.
    pub fn matching_keys(&self, alloc: Global, conds: &[Cond]) -> Result<Vec<u64>, AllocError>
        requires { CondsBelow 8 conds.now }
        ensures { IfOk result (λ found. found.items ≡ map key_of (matching conds.now (live_rows self.now))) }
    {
        match self.listing(alloc, conds) {
            Some(listing) => {
                let picked = Picked {
                    table: &self.table,
                    listing: &listing,
                };
                matching_keys(alloc, &picked, conds)
            }
            None => matching_keys(alloc, &self.table, conds),
        }
    }
}
