//! What viewers see beside sessions: beginnings of the history alone.

use std::alloc::{AllocError, Global};
use sw_rows::{Call, Cond, Reply, is_within};
use sw_spine::{KeptEntry, Record, StateRef};

/// What a viewer was answered, a count or a sum, and how many updates the receipt has that it had learnt last, 0 for none.
#[derive(Clone, Copy)]
pub(crate) struct Seen {
    pub updates: u64,
    pub reply: i128,
}

/// A row that was ever in: its cells, and whether it is in.
#[derive(Clone, Copy)]
struct Came {
    cells: [i64; 8],
    is_in: bool,
}

impl Came {
    /// Whether it is in and meets conditions.
    fn meets(&self, conds: &[Cond]) -> bool {
        for cond in conds {
            match self.cells.get(cond.attr) {
                Some(cell) if is_within(cond.lower, cond.upper, *cell) => {}
                _ => return false,
            }
        }
        self.is_in
    }
}

/// A beginning of a history's entries: how many updates it has, and the sum of b after it.
#[derive(Clone, Copy)]
struct Beginning {
    updates: u64,
    sum: i128,
}

/// The rows that were ever in, by key, and each beginning of a history's entries that change rows: a deletion of many rows is one
/// entry. The last one is that of the entries so far.
#[derive(Drop)]
pub(crate) struct Beginnings {
    rows: Vec<Came>,
    all: Vec<Beginning>,
    last: Beginning,
}

impl Beginnings {
    /// A row of these cells is in.
    fn insert(&mut self, cells: [i64; 8]) -> Result<(), AllocError> {
        self.last.sum = self.last.sum.wrapping_add(cells[1] as i128);
        self.rows.push(Came { cells, is_in: true })?;
        Ok(())
    }

    /// The row of a key is gone, by an update.
    fn remove(&mut self, key: u64) {
        if let Some(row) = self.rows.get_mut((key as usize).wrapping_sub(1)) {
            row.is_in = false;
            self.last.sum = self.last.sum.wrapping_sub(row.cells[1] as i128);
            self.last.updates = self.last.updates.wrapping_add(1);
        }
    }

    /// The row of a key is gone, if it meets conditions.
    fn remove_met(&mut self, key: u64, conds: &[Cond]) {
        let is_met = match self.rows.as_slice().get((key as usize).wrapping_sub(1)) {
            Some(row) => row.meets(conds),
            None => false,
        };
        if is_met {
            self.remove(key);
        }
    }

    /// The rows that meet conditions are gone.
    fn remove_where(&mut self, conds: &[Cond]) {
        for before in 0..self.rows.len() as u64 {
            self.remove_met(before.wrapping_add(1), conds);
        }
    }

    /// An entry of the history, which changes rows where it inserted one, removed one, or removed those that met conditions.
    fn add(&mut self, entry: &KeptEntry) -> Result<(), AllocError> {
        match (entry.call(), entry.state()) {
            (Call::Insert(cells), StateRef::Answered(Reply::Inserted(_))) => {
                self.insert(*cells)?;
                self.last.updates = self.last.updates.wrapping_add(1);
            }
            (Call::Delete(key), StateRef::Answered(Reply::Removed)) => self.remove(*key),
            (Call::DeleteWhere(conds), StateRef::Answered(Reply::RemovedMany(_))) => {
                self.remove_where(conds.as_slice());
            }
            _ => return Ok(()),
        }
        self.all.push(self.last)?;
        Ok(())
    }

    /// Those of the opening rows: of no entry.
    fn opening(alloc: Global, rows: &[[i64; 8]]) -> Result<Beginnings, AllocError> {
        let mut beginnings = Beginnings {
            rows: Vec::new(alloc),
            all: Vec::new(alloc),
            last: Beginning { updates: 0, sum: 0 },
        };
        for row in rows {
            beginnings.insert(*row)?;
        }
        beginnings.all.push(beginnings.last)?;
        Ok(beginnings)
    }

    /// Those of a record.
    pub(crate) fn of(
        alloc: Global,
        rows: &[[i64; 8]],
        record: &Record,
    ) -> Result<Beginnings, AllocError> {
        let mut beginnings = Beginnings::opening(alloc, rows)?;
        for entry in record.entries.as_slice() {
            beginnings.add(entry)?;
        }
        Ok(beginnings)
    }

    /// The first beginning from a place on in which a viewer may have seen what it saw: it has the sum that was answered, and at
    /// least as many updates as the receipt that was learnt.
    fn next(&self, from: usize, seen: Seen) -> Option<usize> {
        let all = self.all.as_slice();
        for place in from..all.len() {
            let it = all[place];
            if it.sum == seen.reply && seen.updates <= it.updates {
                return Some(place);
            }
        }
        None
    }

    /// Whether each sum is that of a beginning which has the updates that were learnt of, and none is of an earlier one than that
    /// before.
    fn show(&self, seen: &[Seen]) -> bool {
        let mut from = 0usize;
        for one in seen {
            match self.next(from, *one) {
                Some(place) => from = place,
                None => return false,
            }
        }
        true
    }
}

/// Tells what one viewer saw.
fn show_looks(text: &mut String, looks: &[Seen]) -> Result<(), AllocError> {
    for look in looks {
        write!(text, "; {} seen", look.reply)?;
    }
    Ok(())
}

/// Tells what viewers saw.
pub(crate) fn show_seen(text: &mut String, seen: &[Vec<Seen>]) -> Result<(), AllocError> {
    for one in seen {
        show_looks(text, one.as_slice())?;
    }
    Ok(())
}

/// Tells what came of the viewers' looks: how many viewers saw beginnings of the history alone, and how many looks there were.
pub(crate) fn tell_looks(
    text: &mut String,
    seen: &[Vec<Seen>],
    beginnings: &Beginnings,
) -> Result<(), AllocError> {
    let mut right = 0usize;
    let mut looks = 0usize;
    for seen in seen {
        looks = looks.wrapping_add(seen.len());
        if beginnings.show(seen.as_slice()) {
            right = right.wrapping_add(1);
        }
    }
    write!(text, "; {right} viewers, {looks} looks")
}
