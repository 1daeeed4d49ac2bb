//! An area, or a head: what lines are called of.

use crate::areas::{Alone, removal, see_keys};
use std::io;
use std::thread::Threads;
use sw_map::{CrackerMap, Tail};
use sw_rows::{Query, Refusal, Reply};
use test_heads::GrowingHead;

/// An area, or a head.
#[derive(Drop)]
pub(crate) enum Side<M: CrackerMap> {
    Alone(Alone<M>),
    Head(GrowingHead<M>),
}

impl<M: CrackerMap> Side<M> {
    /// Tells what is seen of it.
    pub(crate) fn see<R: Print>(&self, rt: &R) -> io::Result<()> {
        match self {
            Side::Alone(alone) => see_area(rt, alone),
            Side::Head(head) => see_head(rt, head),
        }
    }

    /// Receives a row, and answers its key.
    pub(crate) fn insert(&mut self, cells: [i64; 8]) -> Result<Reply, Refusal> {
        let key = match self {
            Side::Alone(alone) => alone.push(cells)?,
            Side::Head(head) => head.insert(cells)?,
        };
        Ok(Reply::Inserted(key))
    }

    /// Receives that the row of a key goes, if there is one.
    pub(crate) fn delete(&mut self, key: u64) -> Result<Reply, Refusal> {
        let gone = match self {
            Side::Alone(alone) => alone.remove(key)?,
            Side::Head(head) => head.remove(key)?,
        };
        Ok(removal(gone))
    }

    /// Merges what waits, where that is a call of its own.
    pub(crate) fn merge(&mut self) -> Option<Result<(), Refusal>> {
        match self {
            Side::Alone(alone) => Some(alone.area.merge()),
            Side::Head(_) => None,
        }
    }

    /// Makes room for updates, where that is a call of its own.
    pub(crate) fn room(&mut self) -> Result<(), Refusal> {
        match self {
            Side::Alone(alone) => alone.room(),
            Side::Head(_) => Ok(()),
        }
    }

    /// Answers a query from the rows.
    pub(crate) fn scan(&mut self, query: &Query) -> Result<Reply, Refusal> {
        match self {
            Side::Alone(alone) => alone.scan_for(query),
            Side::Head(head) => head.scan(query),
        }
    }

    /// Prepares for a query, where that is a call of its own.
    pub(crate) fn prepare<R: Threads + Sync>(
        &mut self,
        rt: &R,
        query: &Query,
    ) -> Result<(), Refusal> {
        match self {
            Side::Alone(alone) => alone.prepare_for(rt, query),
            Side::Head(_) => Ok(()),
        }
    }

    /// Answers a query.
    pub(crate) fn answer<R: Threads + Sync>(
        &mut self,
        rt: &R,
        query: &Query,
    ) -> Result<Reply, Refusal> {
        match self {
            Side::Alone(alone) => alone.answer_to(rt, query),
            Side::Head(head) => {
                let (reply, _scans) = head.ask(rt, query)?;
                Ok(reply)
            }
        }
    }

    /// Clears the key map of an area, or the map of a head that was used longest ago.
    pub(crate) fn clear(&mut self) {
        match self {
            Side::Alone(alone) => alone.area.clear(Tail::Key),
            Side::Head(head) => {
                let _cells = head.evict(1);
            }
        }
    }
}

/// Tells what is seen of an area.
pub(crate) fn see_area<R: Print, M: CrackerMap>(rt: &R, alone: &Alone<M>) -> io::Result<()> {
    see_keys(rt, std::slice::from_ref(&alone.area))?;
    println!(rt;
        "; {} entries, {} maps",
        alone.area.tape_len(),
        alone.area.maps()
    )
}

/// Tells what is seen of a head.
pub(crate) fn see_head<R: Print, M: CrackerMap>(rt: &R, head: &GrowingHead<M>) -> io::Result<()> {
    see_keys(rt, head.head().areas())?;
    let figures = head.head().figures();
    println!(rt; "; {} entries, {} maps", figures.entries, figures.maps)
}
