//! An engine over the four rows, and what came of it.

ghost use Rattle.std.specs.Prelude.{◌≡◌, ◌<◌, ℕ, true, length, IfOk};
ghost use Rattle.sw_lang.specs.Cuts.{AreCuts, cuts_on};
ghost use Rattle.sw_spine.specs.Table.{is_numbered};
ghost use Rattle.test_sessions.specs.declared.telling.TheConstants.{LIMIT};

use crate::halls::{Hall, make_all};
use crate::telling::{CELLS, LIMIT, TURNS};
use std::alloc::Global;
use std::io;
use std::sync::Wait;
use std::thread::Threads;
use sw_engine::{Blank, Engine, Naming, Ticket};
use sw_lang::Cuts;
use sw_map::CrackerMap;
use sw_rows::{PackedRows, Refusal, Row, Schema};
use sw_spine::{Record, StateRef};

/// What an engine is opened over.
#[derive(Drop)]
pub(crate) struct Table {
    pub schema: Schema,
    pub rows: PackedRows,
    pub cuts: Cuts,
}

/// What comes onto an engine: boxes of its first head, and lines, which are read by a schema.
#[derive(Drop)]
pub(crate) struct Stage<'a, M: CrackerMap> {
    pub maps: Vec<M>,
    pub schema: &'a Schema,
    pub lines: &'a [String],
}

/// The row of a key and its cells.
fn row(key: u64, cells: [i64; 8]) -> Row
    ensures { result.key ≡ key }
{
    Row { key, cells }
}

/// The four rows, packed.
pub(crate) fn rows_of(alloc: Global) -> Result<PackedRows, Refusal>
    ensures { IfOk result (λ rows. is_numbered 1 rows.items ≡ true) }
{
    let rows = [
        row(1, CELLS[0]),
        row(2, CELLS[1]),
        row(3, CELLS[2]),
        row(4, CELLS[3]),
    ];
    match PackedRows::of(alloc, &rows) {
        Ok(packed) => Ok(packed),
        Err(_) => Err(Refusal::NoMemory),
    }
}

/// Gives the first head a box, again where it is refused.
fn supply_again<J: Naming, M: CrackerMap, R: Print + Wait>(
    rt: &R,
    engine: &Engine<J, M>,
    it: M,
) -> io::Result<()> {
    let mut it = it;
    for _turn in 0..TURNS {
        it.clear();
        println!(rt; "> supply")?;
        if engine.heads() == 0 {
            return Ok(());
        }
        match engine.supply(rt, 0, it) {
            Ok(()) => return println!(rt; "done"),
            Err((back, e)) => {
                println!(rt; "refused {e}")?;
                it = back;
            }
        }
    }
    Ok(())
}

/// How many entries of a record are void.
fn voided(record: &Record) -> usize {
    let mut many = 0usize;
    for entry in record.entries.as_slice() {
        if let StateRef::Void = entry.state() {
            many = many.wrapping_add(1);
        }
    }
    many
}

/// Tells a record, and whether it is legal.
fn tell_record<R: Print>(rt: &R, record: &Record) -> io::Result<()> {
    println!(rt;
        "> close\n{} entries\n> void\n{}",
        record.entries.as_slice().len(),
        voided(record)
    )?;
    for _turn in 0..TURNS {
        println!(rt; "> check")?;
        match record.check() {
            Ok(()) => return println!(rt; "legal"),
            Err(e) => println!(rt; "refused {e}")?,
        }
    }
    Ok(())
}

/// Gives the first head boxes.
fn supply_all<J: Naming, M: CrackerMap, R: Print + Wait>(
    rt: &R,
    engine: &Engine<J, M>,
    maps: Vec<M>,
) -> io::Result<()> {
    for it in maps {
        supply_again(rt, engine, it)?;
    }
    Ok(())
}

/// Ends an engine.
fn close_all<J: Naming, M: CrackerMap, R: Print + Wait>(
    rt: &R,
    engine: Engine<J, M>,
    tickets: Vec<Ticket<J>>,
) -> io::Result<()> {
    match engine.close(rt, tickets) {
        Ok(record) => tell_record(rt, &record),
        Err((_, _, e)) => println!(rt; "> close\nrefused {e}"),
    }
}

/// The calls of an engine that was opened, and its end.
fn calls_on<J: Naming, M: CrackerMap, R: Print + Threads + Wait + Sync>(
    rt: &R,
    alloc: Global,
    engine: Engine<J, M>,
    tickets: Vec<Ticket<J>>,
    stage: Stage<'_, M>,
) -> io::Result<()> {
    let Stage {
        maps,
        schema,
        lines,
    } = stage;
    let mut tickets = tickets;
    supply_all(rt, &engine, maps)?;
    let Some(ticket) = tickets.pop() else {
        return Ok(());
    };
    let ticket = make_all(rt, alloc, Hall::new(&engine, schema, ticket), lines)?;
    tickets.push_reserved(ticket);
    close_all(rt, engine, tickets)
}

/// The same, and that it was opened is told.
fn calls_opened<J: Naming, M: CrackerMap, R: Print + Threads + Wait + Sync>(
    rt: &R,
    alloc: Global,
    engine: Engine<J, M>,
    tickets: Vec<Ticket<J>>,
    stage: Stage<'_, M>,
) -> io::Result<bool> {
    println!(rt; "> open\ndone")?;
    calls_on(rt, alloc, engine, tickets, stage)?;
    Ok(true)
}

/// Tells a refusal of something that stands before the calls.
pub(crate) fn refused_before<R: Print>(rt: &R, what: &str, e: Refusal) -> io::Result<bool> {
    println!(rt; "> {what}\nrefused {e}")?;
    Ok(false)
}

/// Opens an engine, and makes the calls on it.
fn play_on<J: Naming, M: CrackerMap, R: Print + Threads + Wait + Sync>(
    rt: &R,
    alloc: Global,
    books: Blank,
    table: Table,
    stage: Stage<'_, M>,
) -> io::Result<bool>
    requires books { (books.sessions.name ≡ J.sessions) × (books.heads.name ≡ J.heads) × (books.most ≡ J.most) }
    requires list { books.list.seen.book ≡ J.book }
    requires table { (table.schema ≡ J.columns) × (table.rows.items ≡ J.opening) × (LIMIT ≡ J.limit) }
    requires numbered { is_numbered 1 table.rows.items ≡ true }
    requires lists { length table.cuts ≡ length table.schema }
    requires cuts { (a : ℕ) → a < length table.schema → AreCuts (cuts_on table.cuts a) }
{
    let Table { schema, rows, cuts } = table;
    match Engine::<J, M>::open_for(alloc, books, schema, rows, cuts, LIMIT, 1) {
        Ok((engine, tickets)) => calls_opened(rt, alloc, engine, tickets, stage),
        Err(e) => refused_before(rt, "open", e),
    }
}

/// The same where the names are picked: what a copy of the rows makes of an update is known here, as it is not under a bound.
pub(crate) fn play<J: Naming, M: CrackerMap, R: Print + Threads + Wait + Sync>(
    rt: &R,
    alloc: Global,
    books: Blank,
    table: Table,
    stage: Stage<'_, M>,
) -> io::Result<bool>
    requires books { (books.sessions.name ≡ J.sessions) × (books.heads.name ≡ J.heads) × (books.most ≡ J.most) }
    requires list { books.list.seen.book ≡ J.book }
    requires table { (table.schema ≡ J.columns) × (table.rows.items ≡ J.opening) × (LIMIT ≡ J.limit) }
    requires numbered { is_numbered 1 table.rows.items ≡ true }
    requires lists { length table.cuts ≡ length table.schema }
    requires cuts { (a : ℕ) → a < length table.schema → AreCuts (cuts_on table.cuts a) }
{
    play_on::<J, M, R>(rt, alloc, books, table, stage)
}
