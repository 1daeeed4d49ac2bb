//! A table of rows that come at its end and go by their keys.

ghost use Rattle.std.specs.Prelude.{◌≡◌, ◌≤◌, ◌<◌, [], true, length, replicate, IfOk, OnOk, OnErr};
ghost use Rattle.sw_table.specs.Live.{Living, Rises, RisesFrom, all_live, came_with, key_of, live_rows};
ghost use Rattle.sw_table.specs.Updates.{has_key, without};

use crate::packed::PackedRows;
use crate::row::Row;
use std::alloc::{AllocError, Global};
use std::marker::Model;

/// The rows of a table, in the order in which they came, by rising keys. A row that goes stays as a dead one until the
/// table is made compact.
#[derive(Drop)]
pub struct LiveTable {
    came: PackedRows,
    /// Whether each row that came is live.
    live: Vec<bool>,
    /// How many are not.
    dead: usize,
    /// No row that came has a greater key.
    top: u64,
}

impl Model for LiveTable {
    ghost use Rattle.sw_table.specs.Live.{IsStanding, Living};

    ghost Value = { Living };

    ghost view = { λ t. record { top = t.top; came = t.came.items; live = t.live.items } };

    ghost invariant = { λ t. IsStanding t.top t.came.items t.live.items t.dead };
}

impl LiveTable {
    /// No rows yet, where so many cells of a row are thought to be used.
    pub fn new(alloc: Global, width: usize) -> LiveTable
        requires some { 1 ≤ width }
        requires most { width ≤ 8 }
        ensures { result ≡ record { top = 0; came = []; live = [] } }
    {
        LiveTable {
            came: PackedRows::new(alloc, width),
            live: Vec::new(alloc),
            dead: 0,
            top: 0,
        }
    }

    /// These rows, whose keys rise from above 0, all of them live. The one error is that there is no memory for them.
    pub fn from_rows(alloc: Global, rows: &PackedRows) -> Result<LiveTable, AllocError>
        requires { RisesFrom 0 rows.now.items }
        ensures { IfOk result (λ t. t ≡ all_live rows.now.items) }
    {
        let mut table = LiveTable::new(alloc, rows.width());
        table.reserve(rows.len())?;
        for place in 0..rows.len() {
            table.insert(&rows.get(place))?;
        }
        Ok(table)
    }

    /// The greatest key that ever came, 0 for none.
    pub fn top(&self) -> u64
        ensures { result ≡ self.now.top }
    {
        self.top
    }

    /// How many rows there are.
    pub fn len(&self) -> usize
        ensures { result ≡ length (live_rows self.now) }
    {
        self.live.len() - self.dead
    }

    /// The rows that came and are still held, dead ones among them, by rising keys.
    #[inline]
    pub fn came(&self) -> &PackedRows
        ensures value { result.now.items ≡ self.now.came }
        ensures rise { Rises key_of self.now.came }
    {
        &self.came
    }

    /// Whether each of the rows held is live.
    #[inline]
    pub fn live(&self) -> &[bool]
        ensures value { result.now ≡ self.now.live }
        ensures many { length self.now.live ≡ length self.now.came }
    {
        &self.live
    }

    /// Makes room for so many more rows; the rows stay. No clause tells of the room.
    pub fn reserve(&mut self, more: usize) -> Result<(), AllocError>
        ensures { self.new ≡ self.old }
    {
        self.came.reserve(more)?;
        self.live.reserve_exact(more)
    }

    /// A row comes, with a greater key than any before it; after an error nothing has changed.
    pub fn insert(&mut self, row: &Row) -> Result<(), AllocError>
        requires { self.old.top < row.now.key }
        ensures ok { OnOk result (self.new ≡ came_with row.now self.old) }
        ensures err { OnErr result (self.new ≡ self.old) }
    {
        self.live.reserve(1)?;
        self.came.widen(row)?;
        self.came.push(row)?;
        self.live.push_reserved(true);
        self.top = row.key;
        Ok(())
    }

    /// The row of a key goes, if there is one: whether there was.
    pub fn remove(&mut self, key: u64) -> bool
        ensures found { result ≡ has_key key (live_rows self.old) }
        ensures rows { live_rows self.new ≡ without key (live_rows self.old) }
        ensures came { self.new ≡ record self.old { live = self.new.live } }
    {
        match self.came.find(key) {
            Some(place) => {
                if !self.live[place] {
                    return false;
                }
                self.live[place] = false;
                self.dead += 1;
                true
            }
            None => false,
        }
    }

    /// Drops the dead rows, in place; the rows stay. The one error is that there is no memory for their keys, and then
    /// nothing has changed.
    pub fn compact(&mut self) -> Result<(), AllocError>
        ensures top { self.new.top ≡ self.old.top }
        ensures ok { OnOk result (self.new.came ≡ live_rows self.old) }
        ensures live { OnOk result (self.new.live ≡ replicate (length self.new.came) true) }
        ensures err { OnErr result (self.new ≡ self.old) }
    {
        if self.dead == 0 {
            return Ok(());
        }
        self.came.keep(&self.live)?;
        self.live.truncate(self.came.len());
        self.live.fill(true);
        self.dead = 0;
        Ok(())
    }
}
