//! Sessions and viewers on threads of their own: a session for each block of calls, of which the second may wait until a call of the
//! first is under way; boxes that come and go meanwhile; and viewers that look.

ghost use Rattle.std.specs.Prelude.{◌≡◌, ◌<◌, ◌≤◌, length, All, IfOk};
ghost use Rattle.sw_rows.specs.declared.table.TheConstants.{MOST_ROWS};
ghost use Rattle.sw_query.specs.Scan.{AsksBelow};
ghost use Rattle.sw_spine.specs.History.{CallsBelow, IsLegal};

use crate::beginnings::Seen;
use crate::boxes::{Signals, TURNS};
use crate::opening::{Boxes, Table, supply};
use crate::running::Trial;
use crate::told::held;
use std::alloc::{AllocError, Global};
use std::marker::Brand;
use std::sync::atomic::{AtomicBool, Ordering};
use std::sync::{Mutex, Wait};
use std::thread::Threads;
use std::{mem, thread};
use sw_engine::{Blank, Engine, Naming, Receipt, Session, Ticket, Viewer};
use sw_map::CrackerMap;
use sw_rows::{Call, Query, Refusal, Reply, Schema};
use sw_spine::Record;
use test_maps::Gate;

/// How often at most a session looks whether a viewer has looked since its last insertion, before its next call; and a viewer
/// whether a session has posted, before its next look.
const PAUSE: u64 = 20_000;

/// How many viewers there are, how often each looks and what it asks; how often a session makes a call that is refused; and what
/// those that wait are told.
#[derive(Drop)]
pub(crate) struct Plan {
    pub viewers: usize,
    pub looks: usize,
    pub query: Query,
    pub turns: usize,
    pub signals: Signals,
}

/// What is played on an engine: the boxes that it is given, the calls of each session, and the plan.
#[derive(Drop)]
pub(crate) struct Stage<'a, M: CrackerMap> {
    pub boxes: Boxes<M>,
    pub blocks: &'a [Vec<Call>],
    pub plan: Plan,
}

/// How many calls were refused, and whether all was answered in the end, and in time.
#[derive(Clone, Copy)]
pub(crate) struct Tally {
    pub refused: usize,
    pub answered: bool,
}

/// Where sessions post receipts for viewers: the last one stands; whether one was posted since a viewer was about to look, and
/// whether a viewer has looked since one was posted.
#[derive(Drop)]
struct Board<J: Naming> {
    last: Mutex<Option<Receipt<J>>>,
    posted: AtomicBool,
    looked: AtomicBool,
    plan: Plan,
}

impl<J: Naming> Board<J> {
    /// Posts a receipt where there are viewers, and waits a while until one has looked, so that viewers look between the calls.
    fn post<R: Wait>(&self, rt: &R, receipt: Receipt<J>) {
        if self.plan.viewers == 0 {
            return;
        }
        *self.last.lock(rt) = Some(receipt);
        self.looked.store(false, Ordering::SeqCst);
        self.posted.store(true, Ordering::SeqCst);
        let _ = Gate::wait_for(&self.looked, PAUSE);
    }

    /// A viewer learns what was posted last. Tells how many updates that has, 0 where nothing was posted.
    fn teach<R: Wait>(&self, rt: &R, viewer: &mut Viewer<'_, J>) -> u64 {
        match &*self.last.lock(rt) {
            Some(receipt) => {
                viewer.learn(receipt.again());
                receipt.len()
            }
            None => 0,
        }
    }
}

/// A session, its calls, whether it waits until the first one's call is under way, and boxes that come and go; or a viewer and what it
/// has seen. Two options and no enum: a closure over that is dearer to prove.
#[derive(Drop)]
struct Side<'e, J: Naming, M: CrackerMap> {
    session: Option<Session<'e, J, M>>,
    calls: &'e [Call],
    waits: bool,
    later: Vec<M>,
    viewer: Option<Viewer<'e, J>>,
    seen: Vec<Seen>,
}

/// The session's ticket, or what the viewer has seen; and how it went.
#[derive(Drop)]
struct Came<J: Naming> {
    ticket: Option<Ticket<J>>,
    seen: Vec<Seen>,
    tally: Tally,
}

/// Gives boxes, made blank, to the second head, and takes one back from the first or the second after each.
fn keep<J: Naming, M: CrackerMap, R: Wait>(rt: &R, engine: &Engine<J, M>, maps: Vec<M>)
    requires { 1 < length J.columns }
{
    let mut place = 0usize;
    for it in maps {
        let mut it = it;
        it.clear();
        let _ = engine.supply(rt, 1, it);
        let _ = engine.shed(rt, place % 2, 1);
        place = place.wrapping_add(1);
    }
}

/// The receipt that is posted behind an insertion: where there are viewers all is published for it, whoever reads meanwhile.
fn published<J: Naming, M: CrackerMap, R: Wait>(
    rt: &R,
    board: &Board<J>,
    session: &mut Session<'_, J, M>,
    tally: &mut Tally,
) -> Receipt<J> {
    if board.plan.viewers > 0 {
        match session.publish(rt) {
            Ok(receipt) => return receipt,
            Err(_) => tally.answered = false,
        }
    }
    session.receipt()
}

/// Makes a call until it is answered, as often as is planned. Posts the receipt of an insertion.
fn insist<J: Naming, M: CrackerMap, R: Threads + Wait + Sync>(
    rt: &R,
    board: &Board<J>,
    session: &mut Session<'_, J, M>,
    call: &Call,
    tally: &mut Tally,
)
    requires { CallsBelow (length J.columns) call.now }
{
    for _ in 0..board.plan.turns {
        match session.call(rt, call) {
            Ok(Reply::Inserted(_)) => return board.post(rt, published(rt, board, session, tally)),
            Ok(_) => return,
            Err(_) => tally.refused = tally.refused.wrapping_add(1),
        }
    }
    tally.answered = false;
}

/// Makes a session's calls, behind the wait where there is one, and then tells that it has ended. Answers how it went.
fn call_all<J: Naming, M: CrackerMap, R: Threads + Wait + Sync>(
    rt: &R,
    board: &Board<J>,
    session: &mut Session<'_, J, M>,
    calls: &[Call],
    waits: bool,
) -> Tally
    requires { All (λ c. CallsBelow (length J.columns) c) calls.now }
{
    let mut tally = Tally {
        refused: 0,
        answered: !waits || Gate::wait_for(&board.plan.signals.begun, TURNS),
    };
    for call in calls {
        insist(rt, board, session, call, &mut tally);
    }
    if waits {
        board.plan.signals.answered.store(true, Ordering::SeqCst);
    }
    tally
}

/// A viewer looks once. Whether it was answered a count or a sum, and there was memory to keep it.
fn look<J: Naming>(
    viewer: &mut Viewer<'_, J>,
    query: &Query,
    updates: u64,
    seen: &mut Vec<Seen>,
) -> bool
    requires { AsksBelow 8 query.now }
{
    let reply = match viewer.answer(query) {
        Ok(Reply::Count(many)) => many as i128,
        Ok(Reply::Sum(sum)) => sum,
        _ => return false,
    };
    seen.push(Seen { updates, reply }).is_ok()
}

/// A viewer waits until a call is under way, and looks as often as it is asked to, each time after it has waited a while for what is
/// posted, and learnt what was posted last. Then it tells that it has ended.
fn look_on<J: Naming, R: Wait>(
    rt: &R,
    board: &Board<J>,
    viewer: &mut Viewer<'_, J>,
    seen: &mut Vec<Seen>,
) -> bool
    requires { AsksBelow 8 board.now.plan.query }
{
    let mut answered = Gate::wait_for(&board.plan.signals.begun, TURNS);
    for _ in 0..board.plan.looks {
        let _ = Gate::wait_for(&board.posted, PAUSE);
        board.posted.store(false, Ordering::SeqCst);
        let updates = board.teach(rt, viewer);
        answered = look(viewer, &board.plan.query, updates, seen) && answered;
        board.looked.store(true, Ordering::SeqCst);
    }
    board.plan.signals.answered.store(true, Ordering::SeqCst);
    answered
}

/// Boxes come and go; a session calls; a viewer looks.
fn take_side<J: Naming, M: CrackerMap, R: Threads + Wait + Sync>(
    rt: &R,
    engine: &Engine<J, M>,
    board: &Board<J>,
    side: Side<'_, J, M>,
) -> Came<J>
    requires place { 1 < length J.columns }
    requires asks { AsksBelow 8 board.now.plan.query }
    requires calls { All (λ c. CallsBelow (length J.columns) c) side.calls.now }
{
    let Side {
        session,
        calls,
        waits,
        later,
        viewer,
        mut seen,
    } = side;
    let mut tally = Tally {
        refused: 0,
        answered: true,
    };
    keep(rt, engine, later);
    if let Some(viewer) = viewer {
        let mut viewer = viewer;
        tally.answered = look_on(rt, board, &mut viewer, &mut seen);
    }
    let mut ticket = None;
    if let Some(session) = session {
        let mut session = session;
        tally = call_all(rt, board, &mut session, calls, waits);
        ticket = Some(session.end());
    }
    Came {
        ticket,
        seen,
        tally,
    }
}

/// Takes the sides in threads of their own. What the closure ensures serves the prover alone: what is found in its place, where none
/// is written, is too large for it.
fn take_sides<'e, J: Naming + Send + Sync, M: CrackerMap, R: Threads + Wait + Sync>(
    rt: &R,
    engine: &Engine<J, M>,
    board: &Board<J>,
    sides: Vec<Side<'e, J, M>>,
) -> Result<Vec<Came<J>>, AllocError>
    requires place { 1 < length J.columns }
    requires asks { AsksBelow 8 board.now.plan.query }
    requires calls { All (λ s. All (λ c. CallsBelow (length J.columns) c) s.calls.now) sides.items }
{
    thread::map_vec(
        rt,
        sides,
        &|side: Side<'_, J, M>| -> Came<J>
            requires place { 1 < length J.columns }
            requires asks { AsksBelow 8 board.now.plan.query }
            requires calls { All (λ c. CallsBelow (length J.columns) c) side.calls.now }
            ensures { result.tally ≡ result.tally }
        { take_side(rt, engine, board, side) },
    )
}

/// All boxes of a list, or none.
fn taken<M: CrackerMap>(alloc: Global, maps: &mut Vec<M>, all: bool) -> Vec<M> {
    let none = Vec::new(alloc);
    if all { mem::replace(maps, none) } else { none }
}

/// A side for each block, by the session at its place. The second waits, and the third has the boxes that come and go. `Input`
/// where there are fewer blocks than tickets.
fn session_sides<'e, J: Naming, M: CrackerMap>(
    alloc: Global,
    engine: &'e Engine<J, M>,
    tickets: Vec<Ticket<J>>,
    blocks: &'e [Vec<Call>],
    later: &mut Vec<M>,
) -> Result<Vec<Side<'e, J, M>>, Refusal>
    requires { All (λ b. All (λ c. CallsBelow (length J.columns) c) b.items) blocks.now }
    ensures { IfOk result (λ v. All (λ s. All (λ c. CallsBelow (length J.columns) c) s.calls.now) v.items) }
{
    let mut sides = Vec::new(alloc);
    for ticket in tickets {
        let place = sides.len();
        if place >= blocks.len() {
            return Err(Refusal::Input);
        }
        if sides.reserve(1).is_err() {
            return Err(Refusal::NoMemory);
        }
        sides.push_reserved(Side {
            session: Some(engine.attach(ticket)),
            calls: blocks[place].as_slice(),
            waits: place == 1,
            later: taken(alloc, later, place == 2),
            viewer: None,
            seen: Vec::new(alloc),
        });
    }
    Ok(sides)
}

/// A viewer's side more, as many times as there are viewers.
fn add_viewers<'e, J: Naming, M: CrackerMap, R: Wait>(
    rt: &R,
    alloc: Global,
    engine: &'e Engine<J, M>,
    sides: &mut Vec<Side<'e, J, M>>,
    many: usize,
) -> Result<(), Refusal>
    requires { All (λ s. All (λ c. CallsBelow (length J.columns) c) s.calls.now) sides.old.items }
    ensures { All (λ s. All (λ c. CallsBelow (length J.columns) c) s.calls.now) sides.new.items }
{
    for _ in 0..many {
        let viewer = engine.viewer(rt)?;
        if sides.reserve(1).is_err() {
            return Err(Refusal::NoMemory);
        }
        sides.push_reserved(Side {
            session: None,
            calls: &[],
            waits: false,
            later: Vec::new(alloc),
            viewer: Some(viewer),
            seen: Vec::new(alloc),
        });
    }
    Ok(())
}

/// What came of an engine: its record, what each viewer has seen, and how it went.
#[derive(Drop)]
pub(crate) struct Played {
    pub record: Record,
    pub seen: Vec<Vec<Seen>>,
    pub tally: Tally,
}

/// The tickets of what came, what the viewers have seen, and how it went.
#[derive(Drop)]
struct Sorted<J: Naming> {
    tickets: Vec<Ticket<J>>,
    seen: Vec<Vec<Seen>>,
    tally: Tally,
}

/// Sorts what came.
fn sort_all<J: Naming>(alloc: Global, came: Vec<Came<J>>) -> Result<Sorted<J>, AllocError> {
    let mut sorted = Sorted {
        tickets: Vec::new(alloc),
        seen: Vec::new(alloc),
        tally: Tally {
            refused: 0,
            answered: true,
        },
    };
    for one in came {
        let Came {
            ticket,
            seen,
            tally,
        } = one;
        sorted.tally.answered = sorted.tally.answered && tally.answered;
        sorted.tally.refused = sorted.tally.refused.wrapping_add(tally.refused);
        match ticket {
            Some(ticket) => sorted.tickets.push(ticket)?,
            None => sorted.seen.push(seen)?,
        }
    }
    Ok(sorted)
}

/// Ends the engine.
fn end<J: Naming, M: CrackerMap, R: Wait>(
    rt: &R,
    engine: Engine<J, M>,
    sorted: Sorted<J>,
) -> Result<Played, Refusal>
    ensures { IfOk result (λ p. IsLegal p.record) }
{
    let Sorted {
        tickets,
        seen,
        tally,
    } = sorted;
    match engine.close(rt, tickets) {
        Ok(record) => Ok(Played {
            record,
            seen,
            tally,
        }),
        Err(_) => Err(Refusal::NoMemory),
    }
}

/// Gives an engine its boxes, takes the sides of the sessions of tickets and of viewers, and sorts what came.
fn take_all<J: Naming + Send + Sync, M: CrackerMap, R: Threads + Wait + Sync>(
    rt: &R,
    alloc: Global,
    engine: &Engine<J, M>,
    tickets: Vec<Ticket<J>>,
    stage: Stage<'_, M>,
) -> Result<Sorted<J>, Refusal>
    requires asks { AsksBelow 8 stage.plan.query }
    requires below { All (λ b. All (λ c. CallsBelow (length J.columns) c) b.items) stage.blocks.now }
{
    let Stage {
        boxes,
        blocks,
        plan,
    } = stage;
    let mut later = supply(rt, alloc, engine, boxes)?;
    let board = Board {
        last: Mutex::new(None),
        posted: AtomicBool::new(false),
        looked: AtomicBool::new(false),
        plan,
    };
    let mut sides = session_sides(alloc, engine, tickets, blocks, &mut later)?;
    add_viewers(rt, alloc, engine, &mut sides, board.plan.viewers)?;
    match take_sides(rt, engine, &board, sides) {
        Ok(came) => held(sort_all(alloc, came)),
        Err(_) => Err(Refusal::NoMemory),
    }
}

/// Opens an engine for a session of each block, plays what is on the stage, and ends the engine.
fn play_on<J: Naming + Send + Sync, M: CrackerMap, R: Threads + Wait + Sync>(
    rt: &R,
    alloc: Global,
    books: Blank,
    table: Table,
    stage: Stage<'_, M>,
) -> Result<Played, Refusal>
    requires books { (books.sessions.name ≡ J.sessions) × (books.heads.name ≡ J.heads) × (books.most ≡ J.most) }
    requires list { books.list.seen.book ≡ J.book }
    requires table { (table.schema ≡ J.columns) × (table.rows.items ≡ J.opening) × (table.limit ≡ J.limit) }
    requires below { All (λ b. All (λ c. CallsBelow (length J.columns) c) b.items) stage.blocks.now }
    requires asks { AsksBelow 8 stage.plan.query }
    ensures { IfOk result (λ p. IsLegal p.record) }
{
    let Table {
        schema,
        rows,
        cuts,
        limit,
        ..
    } = table;
    let sessions = stage.blocks.len();
    let (engine, tickets) = Engine::<J, M>::open_for(
        alloc, books, schema, rows, cuts, limit, sessions,
    )?;
    let sorted = take_all(rt, alloc, &engine, tickets, stage)?;
    end(rt, engine, sorted)
}

/// The same where the names are picked: what a copy of the rows makes of an update is known here, as it is not under a bound.
fn play_picked<J: Naming + Send + Sync, M: CrackerMap, R: Threads + Wait + Sync>(
    rt: &R,
    alloc: Global,
    books: Blank,
    table: Table,
    stage: Stage<'_, M>,
) -> Result<Played, Refusal>
    requires books { (books.sessions.name ≡ J.sessions) × (books.heads.name ≡ J.heads) × (books.most ≡ J.most) }
    requires list { books.list.seen.book ≡ J.book }
    requires table { (table.schema ≡ J.columns) × (table.rows.items ≡ J.opening) × (table.limit ≡ J.limit) }
    requires below { All (λ b. All (λ c. CallsBelow (length J.columns) c) b.items) stage.blocks.now }
    requires asks { AsksBelow 8 stage.plan.query }
    ensures { IfOk result (λ p. IsLegal p.record) }
{
    play_on::<J, M, R>(rt, alloc, books, table, stage)
}

/// Opens an engine over the table and gives it its boxes. Each block's calls are made by a session on a thread of its own, and viewers
/// look from theirs. The second session and the viewers wait until `begun` is set, and who of them ends sets `answered`; the third
/// session's thread gives the later boxes, made blank, to the second head, and takes boxes back.
pub(crate) fn play<M: CrackerMap, R: Threads + Wait + Sync>(
    rt: &R,
    alloc: Global,
    trial: Trial<'_>,
    schema: Schema,
    stage: Stage<'_, M>,
) -> Result<Played, Refusal>
    requires few { length trial.rows.now ≤ MOST_ROWS }
    requires some { 0 < trial.limit }
    requires most { trial.limit ≤ MOST_ROWS }
    requires below { All (λ b. All (λ c. CallsBelow (length schema) c) b.items) stage.blocks.now }
    requires asks { AsksBelow 8 stage.plan.query }
    ensures { IfOk result (λ p. IsLegal p.record) }
{
    let table = Table::of(alloc, trial, schema)?;
    play_picked::<Brand, M, R>(rt, alloc, Blank::new(), table, stage)
}
