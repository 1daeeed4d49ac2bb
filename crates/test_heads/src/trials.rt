//! A head beside the plain list of its rows, and the boxes that may come to it.

use crate::GrowingHead;
use std::alloc::Global;
use std::test::Fail;
use std::thread::Threads;
use sw_lang::{parse_known, write_reply};
use sw_map::CrackerMap;
use sw_rows::{
    Call, Cond, Counted, Query, Refusal, Reply, Row, Schema, TextKey, answer, has_key, is_within,
};
use test_areas::numbered;

/// What a head is opened with.
#[derive(Clone, Copy)]
pub(crate) struct Shape<'t> {
    pub header: &'t [&'t str],
    pub attribute: u8,
    pub cuts: &'t [i64],
    pub cells: &'t [[i64; 8]],
}

/// What a head is opened over: where memory comes from, boxes, and how many of them it has at first.
#[derive(Drop)]
pub(crate) struct Stock<M: CrackerMap> {
    pub alloc: Global,
    pub maps: Vec<M>,
    pub first: usize,
}

/// A head, where its memory comes from, the plain list of its rows, the key that comes next, boxes that may come to the head, and
/// how many areas were scanned.
pub(crate) struct Trial<M: CrackerMap> {
    pub alloc: Global,
    pub schema: Schema,
    pub head: GrowingHead<M>,
    pub rows: Vec<Row>,
    pub next: u64,
    pub maps: Vec<M>,
    pub scans: usize,
}

impl<M: CrackerMap> Drop for Trial<M> {
    fn drop(self) {
        let Self {
            alloc: _,
            schema: _schema,
            head: _head,
            rows: _rows,
            next: _,
            maps: _maps,
            scans: _,
        } = self;
    }
}

/// A head of a shape over a stock.
pub(crate) fn open<M: CrackerMap>(stock: Stock<M>, shape: Shape<'_>) -> Result<Trial<M>, Refusal> {
    let Stock { alloc, maps, first } = stock;
    let mut trial = Trial {
        alloc,
        schema: Schema::of(alloc, TextKey::fixed(), shape.header)?,
        head: GrowingHead::open(alloc, shape.attribute, shape.cuts, shape.cells)?,
        rows: numbered(alloc, shape.cells)?,
        next: 1,
        maps,
        scans: 0,
    };
    trial.next = trial.rows.len() as u64 + 1;
    for _turn in 0..first {
        supply(&mut trial)?;
    }
    Ok(trial)
}

/// Gives one of the boxes to the head, if there is one.
pub(crate) fn supply<M: CrackerMap>(trial: &mut Trial<M>) -> Result<(), Refusal> {
    match trial.maps.pop() {
        Some(map) => trial.head.supply(map),
        None => Ok(()),
    }
}

/// Inserts a row: the replies of the head and of the plain list.
fn insert<M: CrackerMap>(trial: &mut Trial<M>, cells: [i64; 8]) -> Result<(Reply, Reply), Refusal> {
    let plain = trial.next;
    if trial.rows.reserve(1).is_err() {
        return Err(Refusal::NoMemory);
    }
    let key = trial.head.insert(cells)?;
    trial.rows.push_reserved(Row { key: plain, cells });
    trial.next = plain.wrapping_add(1);
    Ok((Reply::Inserted(key), Reply::Inserted(plain)))
}

/// Removes the row of a key, and tells whether the head and the plain list had it.
fn remove<M: CrackerMap>(trial: &mut Trial<M>, key: u64) -> Result<(bool, bool), Refusal> {
    let plain = has_key(trial.rows.as_slice(), key);
    let gone = trial.head.remove(key)?;
    trial.rows.retain(|row| row.key != key);
    Ok((gone, plain))
}

/// Whether a row meets conditions.
fn meets(row: &Row, conds: &[Cond]) -> bool {
    for cond in conds {
        match row.cells.get(cond.attr) {
            Some(cell) if is_within(cond.lower, cond.upper, *cell) => {}
            _ => return false,
        }
    }
    true
}

/// The keys of the rows of the plain list that meet conditions.
fn met<M: CrackerMap>(trial: &Trial<M>, conds: &[Cond]) -> Result<Vec<u64>, Refusal> {
    let mut keys = Vec::new(trial.alloc);
    for row in &trial.rows {
        if meets(row, conds) && keys.push(row.key).is_err() {
            return Err(Refusal::NoMemory);
        }
    }
    Ok(keys)
}

/// Removes the rows of keys one after another, and tells how many the head had.
fn remove_each<M: CrackerMap>(trial: &mut Trial<M>, keys: &[u64]) -> Result<u64, Refusal> {
    let mut had: u64 = 0;
    for key in keys {
        let (gone, _) = remove(trial, *key)?;
        had = had.wrapping_add(u64::from(gone));
    }
    Ok(had)
}

/// Removes all rows that meet conditions: the replies of the head and of the plain list.
fn remove_where<M: CrackerMap>(
    trial: &mut Trial<M>,
    conds: &[Cond],
) -> Result<(Reply, Reply), Refusal> {
    let keys = met(trial, conds)?;
    let had = remove_each(trial, keys.as_slice())?;
    Ok((
        Reply::RemovedMany(had),
        Reply::RemovedMany(keys.len() as u64),
    ))
}

/// The reply to a removal.
fn gone(is_gone: bool) -> Reply {
    if is_gone {
        Reply::Removed
    } else {
        Reply::NoSuchKey
    }
}

/// Removes the row of a key: the replies of the head and of the plain list.
fn delete<M: CrackerMap>(trial: &mut Trial<M>, key: u64) -> Result<(Reply, Reply), Refusal> {
    let (has, had) = remove(trial, key)?;
    Ok((gone(has), gone(had)))
}

/// Asks a query: the replies of the head and of the plain list.
fn select<R: Threads + Sync, M: CrackerMap>(
    rt: &R,
    trial: &mut Trial<M>,
    query: &Query,
) -> Result<(Reply, Reply), Refusal> {
    let (reply, scans) = trial.head.ask(rt, query)?;
    trial.scans = trial.scans.wrapping_add(scans);
    match answer(trial.alloc, trial.rows.as_slice(), query) {
        Ok(plain) => Ok((reply, plain)),
        Err(e) => Err(e),
    }
}

/// What the head replies to a call, and what the plain list does.
pub(crate) fn replies<R: Threads + Sync, M: CrackerMap>(
    rt: &R,
    trial: &mut Trial<M>,
    call: &Call,
) -> Result<(Reply, Reply), Refusal> {
    match call {
        Call::Select(query) => select(rt, trial, query),
        Call::Insert(cells) => insert(trial, *cells),
        Call::Delete(key) => delete(trial, *key),
        Call::DeleteWhere(conds) => remove_where(trial, conds.as_slice()),
    }
}

/// Tells the reply of the head as it is written, and after it that of the plain list where it is another one. Answers whether it is
/// the same.
fn push_unlike(text: &mut String, reply: &[u8], plain: &[u8]) -> Result<bool, Fail> {
    push_bytes(text, reply)?;
    if reply == plain {
        return Ok(true);
    }
    text.push_str("for ")?;
    push_bytes(text, plain)?;
    Ok(false)
}

/// Writes the replies of the head and of the plain list, and tells them so.
fn push_both(
    alloc: Global,
    schema: &Schema,
    call: &Call,
    both: &(Reply, Reply),
    text: &mut String,
) -> Result<bool, Fail> {
    let (reply, other) = both;
    let mut out = Counted::new(Vec::new(alloc));
    let mut plain = Counted::new(Vec::new(alloc));
    write_reply(schema, call, reply, &mut out)?;
    write_reply(schema, call, other, &mut plain)?;
    push_unlike(text, out.inner.as_slice(), plain.inner.as_slice())
}

/// Makes a call, and tells the replies so.
fn told<R: Threads + Sync, M: CrackerMap>(
    rt: &R,
    trial: &mut Trial<M>,
    call: &Call,
    text: &mut String,
) -> Result<bool, Fail> {
    let both = replies(rt, trial, call)?;
    push_both(trial.alloc, &trial.schema, call, &both, text)
}

/// Makes the call of a line, and answers whether the head replies as the plain list does. Tells what the head replies,
/// and after it what the plain list does where that is another reply.
pub(crate) fn tell<R: Threads + Sync, M: CrackerMap>(
    rt: &R,
    trial: &mut Trial<M>,
    line: &str,
    text: &mut String,
) -> Result<bool, Fail> {
    match parse_known(trial.alloc, &trial.schema, 1, line)? {
        Some(call) => told(rt, trial, &call, text),
        None => Ok(false),
    }
}

/// Writes a reply, and tells it.
fn push_reply(
    alloc: Global,
    schema: &Schema,
    call: &Call,
    reply: &Reply,
    text: &mut String,
) -> Result<(), Fail> {
    let mut out = Counted::new(Vec::new(alloc));
    write_reply(schema, call, reply, &mut out)?;
    push_bytes(text, out.inner.as_slice())
}

/// Asks a query where the head is at rest for it, and tells the reply, or that it is not.
fn told_at_rest<M: CrackerMap>(
    trial: &Trial<M>,
    call: &Call,
    text: &mut String,
) -> Result<(), Fail> {
    let Call::Select(query) = call else {
        return Ok(());
    };
    match trial.head.ask_at_rest(query)? {
        Some(reply) => push_reply(trial.alloc, &trial.schema, call, &reply, text),
        None => Ok(text.push_str("not at rest")?),
    }
}

/// Asks the query of a line where the head is at rest for it, and tells the reply, or that it is not.
pub(crate) fn tell_at_rest<M: CrackerMap>(
    trial: &Trial<M>,
    line: &str,
    text: &mut String,
) -> Result<(), Fail> {
    match parse_known(trial.alloc, &trial.schema, 1, line)? {
        Some(call) => told_at_rest(trial, &call, text),
        None => Ok(()),
    }
}

/// Adds bytes to a text.
fn push_bytes(text: &mut String, bytes: &[u8]) -> Result<(), Fail> {
    match std::str::from_utf8(bytes) {
        Ok(more) => Ok(text.push_str(more)?),
        Err(_) => Ok(text.push_str("no text")?),
    }
}
