//! A shell over a table that was read, from its first line to its record.

ghost use Rattle.std.specs.Prelude.{◌≡◌, ◌<◌, ◌≤◌, ◌∷◌, [], ℕ, true, length, All, IfOk, IsOkUnless, OnErr, vec_capacity};
ghost use Rattle.sw_map.specs.Held.{blank};
ghost use Rattle.sw_lang.specs.Cuts.{AreCuts, cuts_on};
ghost use Rattle.sw_query.specs.declared.refusal.Refusal.TheVariants.{NoMemory};
ghost use Rattle.sw_rows.specs.declared.table.TheConstants.{MOST_ROWS};
ghost use Rattle.sw_spine.specs.History.{IsLegal};
ghost use Rattle.sw_spine.specs.Table.{is_numbered};
ghost use Rattle.sw_engine.specs.Headline.{IsHistoryOfOneThread};
ghost use Rattle.sw_cli.specs.Sides.{source_by};
ghost use Rattle.sw_cli.specs.Starts.{IsStart, start_seen};
ghost use Rattle.sw_shell.specs.Shelled.{IsLeftBy, ReadsTable, Shells};

use crate::console::Console;
use crate::host::Host;
use crate::seat::Seat;
use crate::turns::talk;
use std::alloc::Global;
use std::io::BufRead;
use std::marker::Brand;
use std::sync::Wait;
use std::thread::Threads;
use sw_cli::{Inputs, Options, read_start, stand_ins, with_columns};
use sw_engine::{Blank, Engine, Naming, Ticket, deal};
use sw_lang::Cuts;
use sw_map::CrackerMap;
use sw_rows::{Counted, PackedRows, Refusal, Schema, Sink, Source};
use sw_spine::Record;

/// What a shell leaves: the record, and why it ended, if that was a failure of its reader, its sink or its host.
#[derive(Drop)]
pub struct Ended {
    /// The history.
    pub history: Record,
    /// Why it ended, if not by the end of the lines or `.quit`.
    pub failure: Option<Refusal>,
}

/// How much an engine may have: so many rows, and these boxes for its maps.
#[derive(Drop)]
struct Room<M: CrackerMap> {
    limit: u64,
    maps: Vec<M>,
    ghost some: { 0 < limit },
    ghost most: { limit ≤ MOST_ROWS },
}

/// A table that was loaded: what an engine is opened over, and the attributes with the texts of the table.
#[derive(Drop)]
struct Loaded<M: CrackerMap> {
    columns: Schema,
    schema: Schema,
    rows: PackedRows,
    cuts: Cuts,
    room: Room<M>,
    ghost few: { length rows.items ≤ room.limit },
    ghost numbered: { is_numbered 1 rows.items ≡ true },
    ghost lists: { length cuts ≡ length columns },
    ghost lawful: { (a : ℕ) → a < length columns → AreCuts (cuts_on cuts a) },
    ghost wide: { length schema ≡ length columns },
    ghost one: { 0 < length columns },
}

/// A table that was read is loaded. The one refusal is `NoMemory`.
fn load<M: CrackerMap>(alloc: Global, opened: Inputs, room: Room<M>) -> Result<Loaded<M>, Refusal>
    requires sound { IsStart room.limit (start_seen opened) }
    ensures table { IfOk result (λ g. (g.schema ≡ opened.schema) × (g.rows.items ≡ opened.rows.items)) }
    ensures limit { IfOk result (λ g. g.room.limit ≡ room.limit) }
    ensures maps { IfOk result (λ g. g.room.maps.items ≡ room.maps.items) }
    ensures refused { IsOkUnless result NoMemory }
{
    let Inputs {
        schema,
        rows,
        cuts,
        ..
    } = opened;
    let Ok(columns) = stand_ins(alloc, schema.len()) else {
        return Err(Refusal::NoMemory);
    };
    Ok(Loaded {
        columns,
        schema,
        rows,
        cuts,
        room,
    })
}

/// An engine with its boxes, and the ticket of its one session. The one refusal is `NoMemory`.
fn opened_engine<J: Naming, M: CrackerMap, R: Wait>(
    rt: &R,
    alloc: Global,
    books: Blank,
    loaded: Loaded<M>,
) -> Result<(Engine<J, M>, Ticket<J>, Schema), Refusal>
    requires books { (books.sessions.name ≡ J.sessions) × (books.heads.name ≡ J.heads) × (books.most ≡ J.most) }
    requires list { books.list.seen.book ≡ J.book }
    requires table { (loaded.columns ≡ J.columns) × (loaded.rows.items ≡ J.opening) × (loaded.room.limit ≡ J.limit) }
    requires blank { All (λ m. M.held m ≡ blank) loaded.room.maps.items }
    ensures ticket { IfOk result (λ r. (r.1.0 ≡ 1) × (r.1.1 ≡ [])) }
    ensures schema { IfOk result (λ r. r.2 ≡ loaded.schema) }
    ensures wide { IfOk result (λ r. length r.2 ≡ length J.columns) }
    ensures refused { IsOkUnless result NoMemory }
{
    let Loaded {
        columns,
        schema,
        rows,
        cuts,
        room,
        ..
    } = loaded;
    let Room { limit, maps, .. } = room;
    let many = columns.len();
    let Ok((engine, mut tickets)) = Engine::<J, M>::open_for(
        alloc, books, columns, rows, cuts, limit, 1,
    ) else {
        return Err(Refusal::NoMemory);
    };
    deal(rt, &engine, many, maps)?;
    match tickets.pop() {
        Some(ticket) => Ok((engine, ticket, schema)),
        None => Err(Refusal::NoMemory),
    }
}

/// Closes the engine of a shell: its record, over the attributes that know the texts. Its ticket is all that there may be, so it
/// is not refused.
fn closed<J: Naming, M: CrackerMap, R: Wait>(
    rt: &R,
    engine: Engine<J, M>,
    mut tickets: Vec<Ticket<J>>,
    ticket: Ticket<J>,
    schema: Schema,
) -> Record
    requires none { tickets.items ≡ [] }
    requires room { 1 ≤ vec_capacity tickets }
    requires all { (J.most ≡ 1) × (ticket.0 ≡ 1) }
    requires wide { length schema ≡ length J.columns }
    ensures { IsHistoryOfOneThread schema J.opening J.limit ((ticket.0, ticket.1) ∷ []) result }
{
    tickets.push_reserved(ticket);
    let record = engine.close(rt, tickets).unwrap();
    with_columns(record, schema)
}

/// Talks over an engine of these names. The one refusal is `NoMemory`, before the first line.
fn talk_by<J, M, R, B, W, H>(
    rt: &R,
    alloc: Global,
    books: Blank,
    loaded: Loaded<M>,
    console: &mut Console<B, W, H>,
) -> Result<Ended, Refusal>
where
    J: Naming,
    M: CrackerMap,
    R: Threads + Wait + Sync,
    B: BufRead + Drop,
    W: Sink + Drop,
    H: Host + Drop,
    requires books { (books.sessions.name ≡ J.sessions) × (books.heads.name ≡ J.heads) × (books.most ≡ J.most) }
    requires list { books.list.seen.book ≡ J.book }
    requires table { (loaded.columns ≡ J.columns) × (loaded.rows.items ≡ J.opening) × (loaded.room.limit ≡ J.limit) }
    requires blank { All (λ m. M.held m ≡ blank) loaded.room.maps.items }
    requires all { J.most ≡ 1 }
    ensures left { IfOk result (IsLeftBy loaded.schema J.opening J.limit console.old console.new) }
    ensures quiet { OnErr result (console.new ≡ console.old) }
    ensures refused { IsOkUnless result NoMemory }
{
    let Ok(back) = Vec::with_capacity(alloc, 1) else {
        return Err(Refusal::NoMemory);
    };
    let (engine, ticket, schema) = opened_engine::<J, M, R>(rt, alloc, books, loaded)?;
    let mut seat = Seat::new(alloc, &engine, ticket, schema);
    let failure = talk(rt, alloc, &mut seat, console);
    let (ticket, schema) = seat.end();
    let history = closed(rt, engine, back, ticket, schema);
    Ok(Ended { history, failure })
}

/// A shell over a table that was read.
fn talk_over<M, R, B, W, H>(
    rt: &R,
    alloc: Global,
    loaded: Loaded<M>,
    console: &mut Console<B, W, H>,
) -> Result<Ended, Refusal>
where
    M: CrackerMap,
    R: Threads + Wait + Sync,
    B: BufRead + Drop,
    W: Sink + Drop,
    H: Host + Drop,
    requires blank { All (λ m. M.held m ≡ blank) loaded.room.maps.items }
    ensures left { IfOk result (IsLeftBy loaded.schema loaded.rows.items loaded.room.limit console.old console.new) }
    ensures quiet { OnErr result (console.new ≡ console.old) }
    ensures refused { IsOkUnless result NoMemory }
{
    talk_by::<Brand, M, R, B, W, H>(rt, alloc, Blank::for_sessions(1), loaded, console)
}

/// A table and cuts, read as a run without a script reads them.
#[tactic(auto, using(crate::proofs::Shelling::read_without, crate::proofs::Shelling::read_alone))]
fn read_table<R: Threads + Sync, T: Source>(
    rt: &R,
    alloc: Global,
    table: &mut T,
    options: &Options<'_>,
) -> Result<Inputs, Refusal>
    ensures spelled { ReadsTable options.now (source_by T.Source table.old table.new) result }
    ensures sound { IfOk result (λ o. IsStart options.now.limit (start_seen o)) }
{
    let nothing: &[u8] = &[];
    let mut script = Counted::new(nothing);
    let read = read_start(rt, alloc, table, &mut script, options);
    // for the prover: what has no bytes does not fail
    if script.failures > 0 {
        return Err(Refusal::NoMemory);
    }
    read
}

/// A shell over a table that was read, within this room.
fn talk_on<M, R, B, W, H>(
    rt: &R,
    alloc: Global,
    opened: Inputs,
    room: Room<M>,
    console: &mut Console<B, W, H>,
) -> Result<Ended, Refusal>
where
    M: CrackerMap,
    R: Threads + Wait + Sync,
    B: BufRead + Drop,
    W: Sink + Drop,
    H: Host + Drop,
    requires sound { IsStart room.limit (start_seen opened) }
    requires blank { All (λ m. M.held m ≡ blank) room.maps.items }
    ensures left { IfOk result (IsLeftBy opened.schema opened.rows.items room.limit console.old console.new) }
    ensures quiet { OnErr result (console.new ≡ console.old) }
    ensures refused { IsOkUnless result NoMemory }
{
    match load(alloc, opened, room) {
        Ok(loaded) => talk_over(rt, alloc, loaded, console),
        Err(refusal) => Err(refusal),
    }
}

/// Reads a table and cuts as a run without a script does, and then takes lines, each of which is answered before the next one is
/// read, until there are no more, one is `.quit`, or something fails. The maps are boxes, dealt out as in a run.
///
/// A line is a call, whose reply is written as in a run; or nothing, or a comment; or it begins with a dot, and is a command of the
/// shell (`Command`). What cannot be read as either is told to the host, and changes nothing; the texts of a line that is a
/// call become known, and keep their codes. A call that is refused writes `refused` and the refusal's number, as in a run.
///
/// Refused as a run is before its first call; and `NoMemory` for want of memory then. Where it is refused, no line was read and
/// nothing was written. A failure of the reader (`Input`), of the sink (`Output`) or of the host ends the shell, and is told beside
/// the record. The caller's conditions are those of `run_with`.
#[tactic(auto, using(crate::proofs::Shelling::legal_by))]
pub fn converse<M, R, T, B, W, H>(
    rt: &R,
    alloc: Global,
    table: &mut T,
    options: &Options<'_>,
    maps: Vec<M>,
    console: &mut Console<B, W, H>,
) -> Result<Ended, Refusal>
where
    M: CrackerMap,
    R: Threads + Wait + Sync,
    T: Source,
    B: BufRead + Drop,
    W: Sink + Drop,
    H: Host + Drop,
    requires some { 0 < options.now.limit }
    requires most { options.now.limit ≤ MOST_ROWS }
    requires blank { All (λ m. M.held m ≡ blank) maps.items }
    ensures shelled { Shells options.now (source_by T.Source table.old table.new)
        console.old console.new result }
    ensures quiet { OnErr result (console.new ≡ console.old) }
    ensures legal { IfOk result (λ e. IsLegal e.history) }
{
    let limit = options.limit;
    match read_table(rt, alloc, table, options) {
        Ok(opened) => talk_on(rt, alloc, opened, Room { limit, maps }, console),
        Err(refusal) => Err(refusal),
    }
}
