//! An area whose rows come by the keys 1, 2, 3 and so on.

ghost use Rattle.std.specs.Prelude.{◌≡◌, ◌<◌, All, None, true};
ghost use Rattle.sw_set.specs.Shelf.{came_in};
ghost use Rattle.sw_table.specs.declared.row.Row.{Row};

use crate::telling::{CELLS, ROOM};
use std::alloc::Global;
use std::io;
use std::thread::Threads;
use sw_map::CrackerMap;
use sw_rows::{Query, Refusal, Reply, Row, Update};
use sw_set::Area;
use test_areas::{may_ask, numbered};

/// An area of all values of the first attribute, whose rows come by the keys 1, 2, 3 and so on.
#[derive(Drop)]
pub(crate) struct Alone<M: CrackerMap> {
    pub area: Area<M>,
    pub next: u64,
    ghost attribute: { area.attribute ≡ 0 },
    ghost from: { area.from ≡ None },
    ghost below: { area.below ≡ None },
    ghost came: { All (λ (r : Row). r.key < next) (came_in area) },
}

/// Whether the keys of all these rows are below a number.
fn are_below(rows: &[Row], next: u64) -> bool
    ensures { result ≡ true → All (λ (r : Row). r.key < next) rows.now }
{
    for row in rows {
        if row.key >= next {
            return false;
        }
    }
    true
}

/// An area of the four rows.
#[tactic(auto, using(crate::proofs::Lemmas::with_none))]
pub(crate) fn open_area<M: CrackerMap>(alloc: Global) -> Result<Alone<M>, Refusal> {
    let rows = numbered(alloc, &CELLS)?;
    if !are_below(rows.as_slice(), 5) {
        return Err(Refusal::Input);
    }
    let area = Area::new(alloc, 0, None, None, rows.as_slice())?;
    Ok(Alone { area, next: 5 })
}

impl<M: CrackerMap> Alone<M> {
    /// Takes a box, which is made blank.
    pub(crate) fn supply(&mut self, it: M) -> Result<(), (M, Refusal)> {
        let mut it = it;
        it.clear();
        self.area.supply(it)
    }

    /// Appends a row to what waits.
    #[tactic(auto, using(crate::proofs::Lemmas::may_come, crate::proofs::Lemmas::came_more))]
    pub(crate) fn push(&mut self, cells: [i64; 8]) -> Result<u64, Refusal> {
        let key = self.next;
        if key >= 1 << 62 {
            return Err(Refusal::Input);
        }
        self.area.receive(&[Update::Insert(Row { key, cells })])?;
        self.next = key + 1;
        Ok(key)
    }

    /// Appends a removal to what waits.
    #[tactic(auto, using(crate::proofs::Lemmas::may_go, crate::proofs::Lemmas::came_same))]
    pub(crate) fn remove(&mut self, key: u64) -> Result<bool, Refusal> {
        if !self.area.holds(key) {
            return Ok(false);
        }
        self.area.receive(&[Update::Remove(key)])?;
        Ok(true)
    }

    /// Prepares for a query.
    pub(crate) fn prepare_for<R: Threads + Sync>(
        &mut self,
        rt: &R,
        query: &Query,
    ) -> Result<(), Refusal> {
        self.area.merge()?;
        match self.area.prepare(rt, query) {
            Ok(_) => Ok(()),
            Err(e) => Err(e),
        }
    }

    /// Makes room for updates.
    pub(crate) fn room(&mut self) -> Result<(), Refusal> {
        self.area.room(ROOM)
    }

    /// Answers a query from the rows.
    pub(crate) fn scan_for(&mut self, query: &Query) -> Result<Reply, Refusal> {
        if !may_ask(0, query) {
            return Err(Refusal::Input);
        }
        self.area.merge()?;
        self.area.scan(query)
    }

    /// Answers a query.
    pub(crate) fn answer_to<R: Threads + Sync>(
        &mut self,
        rt: &R,
        query: &Query,
    ) -> Result<Reply, Refusal> {
        if !may_ask(0, query) {
            return Err(Refusal::Input);
        }
        self.area.merge()?;
        let (reply, _told) = self.area.answer(rt, query)?;
        Ok(reply)
    }
}

/// Tells a key, once for each of some areas that has it.
fn see_key<R: Print, M: CrackerMap>(rt: &R, areas: &[Area<M>], key: u64) -> io::Result<()> {
    for area in areas {
        if area.holds(key) {
            print!(rt; " {key}")?;
        }
    }
    Ok(())
}

/// Tells the keys below 16 that areas have.
pub(crate) fn see_keys<R: Print, M: CrackerMap>(rt: &R, areas: &[Area<M>]) -> io::Result<()> {
    print!(rt; "= keys")?;
    for key in 0..16u64 {
        see_key(rt, areas, key)?;
    }
    Ok(())
}

/// The reply to a removal.
pub(crate) fn removal(gone: bool) -> Reply {
    if gone {
        Reply::Removed
    } else {
        Reply::NoSuchKey
    }
}
