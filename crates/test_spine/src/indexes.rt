//! A table with indexes beside a plain list of its rows, through random calls.

ghost use Rattle.std.specs.Prelude.{◌≡◌, length};
ghost use Rattle.sw_query.specs.Scan.{AsksBelow, CondsBelow};
ghost use Rattle.sw_spine.specs.History.{CallsBelow};

use crate::bench::{call_of, four_rows, schema};
use crate::random::{Lines, call_line};
use std::alloc::Global;
use sw_rows::{
    Call, Cond, LiveTable, PackedRows, Query, Refusal, Reply, Row, Schema, Update, answer, has_key,
    matching_keys, update,
};
use sw_spine::Indexed;

/// How many calls are made.
const TURNS: usize = 3000;

/// The seeds of the calls.
const SEEDS: &[u64] = &[7_000_007, 7_000_009];

/// A table with indexes, the list of its rows, and what was seen of it.
#[derive(Drop)]
struct Stand {
    table: Indexed,
    rows: Vec<Row>,
    /// How many passes were made by an index.
    indexed: usize,
    /// How often the table was made compact.
    compact: usize,
    /// Whether the table has answered as the list at each call.
    agrees: bool,
}

/// The table of four rows.
fn opened_stand(alloc: Global) -> Result<Stand, Refusal> {
    let rows = four_rows(alloc)?;
    let Ok(packed) = PackedRows::of(alloc, rows.as_slice()) else {
        return Err(Refusal::NoMemory);
    };
    let Ok(table) = Indexed::from_rows(alloc, &packed) else {
        return Err(Refusal::NoMemory);
    };
    Ok(Stand {
        table,
        rows,
        indexed: 0,
        compact: 0,
        agrees: true,
    })
}

/// The list takes an update.
fn take(rows: &mut Vec<Row>, one: Update) -> Result<(), Refusal> {
    match update(rows, one) {
        Ok(()) => Ok(()),
        Err(_) => Err(Refusal::NoMemory),
    }
}

/// Whether two replies are of one number.
fn is_same(one: &Reply, other: &Reply) -> bool {
    match (one, other) {
        (Reply::Count(found), Reply::Count(wanted)) => found == wanted,
        (Reply::Sum(found), Reply::Sum(wanted)) => found == wanted,
        (Reply::Least(found), Reply::Least(wanted)) => found == wanted,
        _ => false,
    }
}

/// The keys of the list's rows that meet conditions, by a pass over all of them.
fn plain_keys(alloc: Global, rows: &[Row], conds: &[Cond]) -> Result<Vec<u64>, Refusal>
    requires { CondsBelow 8 conds.now }
{
    let Ok(packed) = PackedRows::of(alloc, rows) else {
        return Err(Refusal::NoMemory);
    };
    match matching_keys(alloc, &packed, conds) {
        Ok(keys) => Ok(keys),
        Err(_) => Err(Refusal::NoMemory),
    }
}

impl Stand {
    /// A row comes.
    fn come(&mut self, cells: [i64; 8]) -> Result<(), Refusal> {
        let Some(key) = self.table.table().top().checked_add(1) else {
            return Err(Refusal::Input);
        };
        let row = Row { key, cells };
        if self.table.insert(&row).is_err() {
            return Err(Refusal::NoMemory);
        }
        take(&mut self.rows, Update::Insert(row))
    }

    /// The row of a key goes, if there is one.
    fn go(&mut self, key: u64) -> Result<(), Refusal> {
        let there = has_key(self.rows.as_slice(), key);
        self.agrees = self.agrees && self.table.remove(key) == there;
        take(&mut self.rows, Update::Remove(key))
    }

    /// Counts a pass under conditions.
    fn prepare(&mut self, alloc: Global, conds: &[Cond])
        requires { CondsBelow 8 conds.now }
    {
        self.table.prepare(alloc, conds);
        if self.table.is_indexed(alloc, conds) {
            self.indexed = self.indexed.saturating_add(1);
        }
    }

    /// All rows go that meet conditions.
    fn sweep(&mut self, alloc: Global, conds: &[Cond]) -> Result<(), Refusal>
        requires { CondsBelow 8 conds.now }
    {
        self.prepare(alloc, conds);
        let Ok(keys) = self.table.matching_keys(alloc, conds) else {
            return Err(Refusal::NoMemory);
        };
        let wanted = plain_keys(alloc, self.rows.as_slice(), conds)?;
        self.agrees = self.agrees && keys.as_slice() == wanted.as_slice();
        for key in keys {
            self.go(key)?;
        }
        Ok(())
    }

    /// A query for a number is answered.
    fn ask(&mut self, alloc: Global, query: &Query) -> Result<(), Refusal>
        requires { AsksBelow 8 query.now }
    {
        self.prepare(alloc, query.conds.as_slice());
        let found = self.table.scan(alloc, query)?;
        let wanted = answer(alloc, self.rows.as_slice(), query)?;
        self.agrees = self.agrees && is_same(&found, &wanted);
        Ok(())
    }

    /// The dead rows are dropped, where they are more than the others.
    fn tidy(&mut self) -> Result<(), Refusal> {
        let table: &LiveTable = self.table.table();
        if table.came().len() / 2 <= table.len() {
            return Ok(());
        }
        self.compact = self.compact.saturating_add(1);
        match self.table.compact() {
            Ok(()) => Ok(()),
            Err(_) => Err(Refusal::NoMemory),
        }
    }

    /// Makes a call.
    fn make(&mut self, alloc: Global, call: &Call) -> Result<(), Refusal>
        requires { CallsBelow 3 call.now }
    {
        match call {
            Call::Select(query) => self.ask(alloc, query),
            Call::Insert(cells) => self.come(*cells),
            Call::Delete(key) => self.go(*key),
            Call::DeleteWhere(conds) => self.sweep(alloc, conds.as_slice()),
        }
    }

    /// Makes the call of a line.
    fn make_line(&mut self, alloc: Global, schema: &Schema, line: &str) -> Result<(), Refusal>
        requires { length schema.now ≡ 3 }
    {
        let call = call_of(alloc, schema, line)?;
        self.make(alloc, &call)?;
        self.tidy()
    }
}

/// The stand after random calls.
fn played(alloc: Global, seed: u64) -> Result<Stand, Refusal> {
    let schema = schema(alloc)?;
    let mut stand = opened_stand(alloc)?;
    let mut lines = Lines::of(seed);
    for _turn in 0..TURNS {
        let line = call_line(alloc, &mut lines)?;
        stand.make_line(alloc, &schema, line.as_str())?;
    }
    Ok(stand)
}

#[test]
fn indexes_answer_as_a_pass_over_all_rows(rt: HostRuntime) -> Result<(), Refusal> {
    for seed in SEEDS {
        let stand = played(rt.alloc(), *seed)?;
        assert!(rt; stand.agrees);
        assert!(rt; stand.indexed > 100);
        assert!(rt; stand.compact > 3);
    }
    Ok(())
}
