//! Sessions that are asked for one by one, viewers beside them, boxes that are dropped, and tickets that are missing.

ghost use Rattle.std.specs.Prelude.{◌≡◌, ◌<◌, length, IfOk};
ghost use Rattle.sw_query.specs.Scan.{AsksBelow};

use crate::boxes::{Refusing, refusing};
use crate::opening::{Boxes, Table, supply};
use crate::running::{HEADER, TABLE};
use crate::told::{Telling, held, show};
use std::alloc::{AllocError, Global};
use std::marker::Brand;
use std::sync::Wait;
use sw_engine::{Blank, Engine, Naming, Session, Ticket, Viewer};
use sw_map::CrackerMap;
use sw_rows::{Bound, Cond, Conds, Names, Query, Refusal, Schema, TextKey, Want};

/// How many viewers there are at most.
const VIEWERS: usize = 16;

/// Asks how many rows there are.
pub(crate) fn count_all(alloc: Global) -> Query
    ensures { AsksBelow 8 result }
{
    Query {
        conds: Conds::new(alloc),
        want: Want::Count,
    }
}

/// Asks how many rows have an a below a cell.
fn count_below(alloc: Global, cell: i64) -> Result<Query, Refusal>
    ensures { IfOk result (λ q. AsksBelow 8 q) }
{
    let mut conds = Conds::new(alloc);
    let below = Cond {
        attr: 0,
        lower: None,
        upper: Some(Bound::Before(cell)),
    };
    if conds.push(below).is_err() {
        return Err(Refusal::NoMemory);
    }
    Ok(Query {
        conds,
        want: Want::Count,
    })
}

/// Asks for all rows, with their cells of b.
fn rows_all(alloc: Global) -> Result<Query, Refusal>
    ensures { IfOk result (λ q. AsksBelow 8 q) }
{
    let mut names = Names::new(alloc);
    if names.push(1).is_err() {
        return Err(Refusal::NoMemory);
    }
    Ok(Query {
        conds: Conds::new(alloc),
        want: Want::Rows(names),
    })
}

/// Tells what a viewer answers.
fn tell_answer<J: Naming>(
    text: &mut String,
    viewer: &mut Viewer<'_, J>,
    query: &Query,
) -> Result<(), Refusal>
    requires { AsksBelow 8 query.now }
{
    let reply = viewer.answer(query)?;
    held(show(text, &reply))
}

/// Tells what a viewer answers: how many rows there are, and how many have an a below 10.
fn look<J: Naming, R: Wait>(
    telling: &mut Telling<'_, R>,
    viewer: &mut Viewer<'_, J>,
) -> Result<(), Refusal> {
    let alloc = telling.alloc;
    tell_answer(telling.text, viewer, &count_all(alloc))?;
    held(telling.text.push_str(" "))?;
    tell_answer(telling.text, viewer, &count_below(alloc, 10)?)?;
    held(telling.text.push_str("; "))
}

/// Opens viewers until one is refused, and tells how many there were, and the refusal.
fn open_all<J: Naming, M: CrackerMap, R: Wait>(
    telling: &mut Telling<'_, R>,
    engine: &Engine<J, M>,
) -> Result<(), AllocError> {
    for many in 0..2 * VIEWERS {
        if let Err(refusal) = engine.viewer(telling.rt) {
            return write!(telling.text, "{many} more, then {refusal}");
        }
    }
    telling.text.push_str("no end")
}

/// A viewer looks before an insertion and, when it has learnt the receipt, after it.
fn look_around<J: Naming, M: CrackerMap, R: Wait>(
    telling: &mut Telling<'_, R>,
    one: &mut Session<'_, J, M>,
    viewer: &mut Viewer<'_, J>,
) -> Result<(), Refusal> {
    look(telling, viewer)?;
    one.insert(telling.rt, [1, 9, 0, 0, 0, 0, 0, 0])?;
    viewer.learn(one.receipt());
    look(telling, viewer)
}

/// A later viewer looks, is met and learns the receipt of before a deletion; the first is met after it and looks; then the later one
/// learns the receipt of the deletion and looks.
fn look_in_turn<J: Naming, M: CrackerMap, R: Wait>(
    telling: &mut Telling<'_, R>,
    two: &mut Session<'_, J, M>,
    viewer: &mut Viewer<'_, J>,
    later: &mut Viewer<'_, J>,
) -> Result<(), Refusal> {
    let rt = telling.rt;
    look(telling, later)?;
    let receipt = two.meet(rt, later)?;
    two.delete(rt, 2)?;
    later.learn(receipt);
    two.meet(rt, viewer)?;
    look(telling, viewer)?;
    later.learn(two.receipt());
    look(telling, later)
}

/// A later viewer is opened, and both look; then viewers are opened until one is refused.
fn look_later<J: Naming, M: CrackerMap, R: Wait>(
    telling: &mut Telling<'_, R>,
    engine: &Engine<J, M>,
    two: &mut Session<'_, J, M>,
    viewer: &mut Viewer<'_, J>,
) -> Result<(), Refusal> {
    let mut later = engine.viewer(telling.rt)?;
    look_in_turn(telling, two, viewer, &mut later)?;
    held(open_all(telling, engine))
}

/// A viewer is opened and looks while two sessions write in turn, the first one and then the second.
fn look_beside<J: Naming, M: CrackerMap, R: Wait>(
    telling: &mut Telling<'_, R>,
    engine: &Engine<J, M>,
    one: &mut Session<'_, J, M>,
    two: &mut Session<'_, J, M>,
) -> Result<(), Refusal> {
    let mut viewer = engine.viewer(telling.rt)?;
    look_around(telling, one, &mut viewer)?;
    look_later(telling, engine, two, &mut viewer)
}

/// Two sessions write in turn, and viewers look between: the first viewer learns a receipt and is met, the second is opened later.
/// Tells what they see and how many further viewers there were, and adds the sessions' tickets.
fn look_on<J: Naming, M: CrackerMap, R: Wait>(
    telling: &mut Telling<'_, R>,
    engine: &Engine<J, M>,
    tickets: &mut Vec<Ticket<J>>,
) -> Result<(), Refusal> {
    let rt = telling.rt;
    let mut one = engine.session(rt)?;
    let mut two = engine.session(rt)?;
    look_beside(telling, engine, &mut one, &mut two)?;
    held(tickets.push(one.end()))?;
    held(tickets.push(two.end()))
}

/// Tells what a viewer answers: how many rows there are, how many have an a below 10, and all rows.
fn look_at_all<J: Naming, R: Wait>(
    telling: &mut Telling<'_, R>,
    viewer: &mut Viewer<'_, J>,
) -> Result<(), Refusal> {
    look(telling, viewer)?;
    tell_answer(telling.text, viewer, &rows_all(telling.alloc)?)
}

/// A session inserts so many rows, 4,000 at most, whose b is the key, and deletes as many from the key 2 on, of which each
/// four-hundredth stays.
fn write_many<J: Naming, M: CrackerMap, R: Wait>(
    rt: &R,
    one: &mut Session<'_, J, M>,
    many: u64,
) -> Result<(), Refusal> {
    let many = many.min(4000);
    for turn in 0..2 * many {
        if turn < many {
            let key = (turn + 5) as i64;
            one.insert(rt, [key % 15, key, 0, 0, 0, 0, 0, 0])?;
        } else {
            let key = turn - many + 2;
            if key % 400 != 5 {
                one.delete(rt, key)?;
            }
        }
    }
    Ok(())
}

/// A viewer looks at all when it has learnt a session's receipt, before the session deletes the rows whose a is 12 by one call, and
/// after it. Tells also how many went.
fn look_around_deletion<J: Naming, M: CrackerMap, R: Wait>(
    telling: &mut Telling<'_, R>,
    one: &mut Session<'_, J, M>,
    viewer: &mut Viewer<'_, J>,
) -> Result<(), Refusal>
    requires { 1 < length J.columns }
{
    let twelve = Cond {
        attr: 0,
        lower: Some(Bound::Before(12)),
        upper: Some(Bound::After(12)),
    };
    viewer.learn(one.receipt());
    look_at_all(telling, viewer)?;
    held(telling.text.push_str("; "))?;
    let reply = one.delete_where(telling.rt, &[twelve])?;
    held(show(telling.text, &reply))?;
    held(telling.text.push_str("; "))?;
    viewer.learn(one.receipt());
    look_at_all(telling, viewer)
}

/// The first viewer is opened behind a session's calls, and looks around such a deletion; behind it a second one is opened, which
/// looks at all.
fn look_behind<J: Naming, M: CrackerMap, R: Wait>(
    telling: &mut Telling<'_, R>,
    engine: &Engine<J, M>,
    one: &mut Session<'_, J, M>,
) -> Result<(), Refusal>
    requires { 1 < length J.columns }
{
    let rt = telling.rt;
    let mut viewer = engine.viewer(rt)?;
    look_around_deletion(telling, one, &mut viewer)?;
    let mut later = engine.viewer(rt)?;
    held(telling.text.push_str("; "))?;
    look_at_all(telling, &mut later)
}

/// A session inserts so many rows before there is a viewer, and viewers look behind it. Tells what they see, and answers the
/// session's ticket.
fn look_late<J: Naming, M: CrackerMap, R: Wait>(
    telling: &mut Telling<'_, R>,
    engine: &Engine<J, M>,
    many: u64,
) -> Result<Ticket<J>, Refusal>
    requires { 1 < length J.columns }
{
    let rt = telling.rt;
    let mut one = engine.session(rt)?;
    write_many(rt, &mut one, many)?;
    look_behind(telling, engine, &mut one)?;
    Ok(one.end())
}

/// Tells whether a session's receipt has all updates.
fn tell_whole<J: Naming, M: CrackerMap, R: Wait>(
    telling: &mut Telling<'_, R>,
    session: &mut Session<'_, J, M>,
) -> Result<(), Refusal> {
    let all = session.is_whole(telling.rt);
    held(telling.text.push_str(if all { "all" } else { "not all" }))
}

/// A session inserts, so that the receipt of another one lacks a row; that one publishes, and a viewer that learns its receipt looks.
fn publish_beside<J: Naming, M: CrackerMap, R: Wait>(
    telling: &mut Telling<'_, R>,
    one: &mut Session<'_, J, M>,
    two: &mut Session<'_, J, M>,
    viewer: &mut Viewer<'_, J>,
) -> Result<(), Refusal> {
    let rt = telling.rt;
    one.insert(rt, [1, 9, 0, 0, 0, 0, 0, 0])?;
    tell_whole(telling, one)?;
    held(telling.text.push_str("; "))?;
    tell_whole(telling, two)?;
    held(telling.text.push_str("; "))?;
    viewer.learn(two.publish(rt)?);
    look(telling, viewer)?;
    tell_whole(telling, two)
}

/// Tells whose receipts have all updates before and after a publishing, and adds the sessions' tickets.
fn publish_on<J: Naming, M: CrackerMap, R: Wait>(
    telling: &mut Telling<'_, R>,
    engine: &Engine<J, M>,
    tickets: &mut Vec<Ticket<J>>,
) -> Result<(), Refusal> {
    let rt = telling.rt;
    let mut one = engine.session(rt)?;
    let mut two = engine.session(rt)?;
    let mut viewer = engine.viewer(rt)?;
    publish_beside(telling, &mut one, &mut two, &mut viewer)?;
    held(tickets.push(one.end()))?;
    held(tickets.push(two.end()))
}

/// Tells where a session's last entry stands.
fn tell_place<J: Naming, M: CrackerMap, R: Wait>(
    telling: &mut Telling<'_, R>,
    session: &mut Session<'_, J, M>,
) -> Result<(), Refusal> {
    match session.place(telling.rt) {
        Some(place) => held(write!(telling.text, ", place {place}")),
        None => held(telling.text.push_str(", no place")),
    }
}

/// Takes up to five boxes back from the first head, and tells how many went. Adds the tickets of a session that inserts a row of
/// zeros and deletes the row of key 1, and tells where its entries stand, and of one that makes no call.
fn shed<J: Naming, M: CrackerMap, R: Wait>(
    telling: &mut Telling<'_, R>,
    engine: &Engine<J, M>,
    tickets: &mut Vec<Ticket<J>>,
) -> Result<(), Refusal>
    requires { 1 < length J.columns }
{
    let rt = telling.rt;
    held(write!(telling.text, "{} boxes", engine.shed(rt, 0, 5)))?;
    let mut session = engine.session(rt)?;
    tell_place(telling, &mut session)?;
    session.insert(rt, [0; 8])?;
    tell_place(telling, &mut session)?;
    session.delete(rt, 1)?;
    tell_place(telling, &mut session)?;
    held(tickets.push(session.end()))?;
    let other = engine.session(rt)?.end();
    held(tickets.push(other))
}

/// Tells how many entries the record has where the engine is closed with these tickets.
fn close_with<J: Naming, M: CrackerMap, R: Wait>(
    telling: &mut Telling<'_, R>,
    engine: Engine<J, M>,
    tickets: Vec<Ticket<J>>,
) -> Result<(), Refusal> {
    match engine.close(telling.rt, tickets) {
        Ok(record) => held(write!(
            telling.text,
            "; {} entries",
            record.entries.as_slice().len()
        )),
        Err(_) => held(telling.text.push_str("; refused with both tickets")),
    }
}

/// Tells what `close` says without the last of the tickets, and then with it.
fn close_twice<J: Naming, M: CrackerMap, R: Wait>(
    telling: &mut Telling<'_, R>,
    engine: Engine<J, M>,
    tickets: Vec<Ticket<J>>,
) -> Result<(), Refusal> {
    let mut tickets = tickets;
    let Some(other) = tickets.pop() else {
        return Err(Refusal::Input);
    };
    match engine.close(telling.rt, tickets) {
        Ok(_) => held(telling.text.push_str("; a record with a ticket missing")),
        Err((engine, tickets, refusal)) => {
            let mut tickets = tickets;
            held(write!(telling.text, "; {refusal}"))?;
            held(tickets.push(other))?;
            close_with(telling, engine, tickets)
        }
    }
}

/// What is asked of an engine.
#[derive(Clone, Copy)]
pub(crate) enum Asked {
    /// How many boxes go.
    Boxes,
    /// What viewers see between the calls of two sessions.
    Views,
    /// What viewers see that are opened behind the calls of a session, which inserts so many rows, and around a call that deletes
    /// several.
    LateViews(u64),
    /// Whose receipts have all updates around a publishing.
    Publishing,
}

/// Asks it, and closes the engine, first without the last ticket.
fn ask_at<J: Naming, M: CrackerMap, R: Wait>(
    telling: &mut Telling<'_, R>,
    engine: Engine<J, M>,
    asked: Asked,
) -> Result<(), Refusal>
    requires { 1 < length J.columns }
{
    let mut tickets = Vec::new(telling.alloc);
    match asked {
        Asked::Boxes => shed(telling, &engine, &mut tickets)?,
        Asked::Views => look_on(telling, &engine, &mut tickets)?,
        Asked::LateViews(many) => {
            let ticket = look_late(telling, &engine, many)?;
            held(tickets.push(ticket))?;
        }
        Asked::Publishing => publish_on(telling, &engine, &mut tickets)?,
    }
    close_twice(telling, engine, tickets)
}

/// Asks it of an engine that is opened and given its boxes.
fn ask_on<J: Naming, M: CrackerMap, R: Wait>(
    telling: &mut Telling<'_, R>,
    books: Blank,
    table: Table,
    boxes: Boxes<M>,
    asked: Asked,
) -> Result<(), Refusal>
    requires books { (books.sessions.name ≡ J.sessions) × (books.heads.name ≡ J.heads) × (books.most ≡ J.most) }
    requires list { books.list.seen.book ≡ J.book }
    requires table { (table.schema ≡ J.columns) × (table.rows.items ≡ J.opening) × (table.limit ≡ J.limit) }
{
    let alloc = telling.alloc;
    let Table {
        schema,
        rows,
        cuts,
        limit,
        ..
    } = table;
    let engine = Engine::<J, M>::open(alloc, books, schema, rows, cuts, limit)?;
    let _ = supply(telling.rt, alloc, &engine, boxes)?;
    ask_at(telling, engine, asked)
}

/// The same where the names are picked: what a copy of the rows makes of an update is known here, as it is not under a bound.
fn ask_picked<J: Naming, M: CrackerMap, R: Wait>(
    telling: &mut Telling<'_, R>,
    books: Blank,
    table: Table,
    boxes: Boxes<M>,
    asked: Asked,
) -> Result<(), Refusal>
    requires books { (books.sessions.name ≡ J.sessions) × (books.heads.name ≡ J.heads) × (books.most ≡ J.most) }
    requires list { books.list.seen.book ≡ J.book }
    requires table { (table.schema ≡ J.columns) × (table.rows.items ≡ J.opening) × (table.limit ≡ J.limit) }
{
    ask_on::<J, M, R>(telling, books, table, boxes, asked)
}

/// The same over the four rows, with two boxes at the first head.
pub(crate) fn ask<R: Wait>(telling: &mut Telling<'_, R>, asked: Asked) -> Result<(), Refusal> {
    let alloc = telling.alloc;
    let boxes = Boxes::at(alloc, refusing(alloc, 2, 1 << 20, 0)?, Vec::new(alloc));
    let schema = Schema::of(alloc, TextKey::fixed(), &HEADER)?;
    let table = Table::of(alloc, TABLE, schema)?;
    ask_picked::<Brand, Refusing, R>(telling, Blank::new(), table, boxes, asked)
}
