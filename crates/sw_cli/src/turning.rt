//! A run whose blocks are made one after another: its lines go out as its calls are answered.

ghost use Rattle.std.specs.Prelude.{◌≡◌, ◌≤◌, [], length, IfOk, IsOkUnless, vec_capacity};
ghost use Rattle.sw_query.specs.declared.refusal.Refusal.TheVariants.{NoMemory};
ghost use Rattle.sw_engine.specs.Desk.{InOrder};
ghost use Rattle.sw_cli.specs.declared.buffered.TheConstants.{BLOCK};
ghost use Rattle.sw_cli.specs.Flowing.{Turns};
ghost use Rattle.sw_cli.specs.Script.{AreBlocks};
ghost use Rattle.sw_cli.specs.Sides.{sink_by};
ghost use Rattle.sw_cli.specs.Starts.{Goes};

use crate::buffered::block;
use crate::flowing::{Flow, Pages, Seats, flow_out};
use crate::growing::with_columns;
use crate::looking_on::Onlooker;
use crate::script::Block;
use crate::serving::tell_heads;
use crate::start::Inputs;
use crate::workload::Workload;
use std::marker::Brand;
use std::sync::Wait;
use std::thread::Threads;
use sw_engine::{Blank, Engine, HeadStats, Naming, Ticket, deal};
use sw_map::CrackerMap;
use sw_rows::{Refusal, Schema, Sink};
use sw_spine::Record;

/// A workload, and attributes that stand for those that were read.
#[derive(Drop)]
struct Stage<'o, M: CrackerMap, O: Onlooker> {
    columns: Schema,
    workload: Workload<'o, M, O>,
    ghost wide: { length columns ≡ length workload.1.columns },
}

/// An engine with its boxes and a ticket for each block, what is printed of it, who looks on, and all other memory that the calls
/// take.
#[derive(Drop)]
struct Ready<'o, J: Naming, M: CrackerMap, O: Onlooker> {
    engine: Engine<J, M>,
    schema: Schema,
    blocks: Vec<Block>,
    onlooker: &'o O,
    tickets: Vec<Ticket<J>>,
    done: Vec<Ticket<J>>,
    memory: Vec<u8>,
    ghost none: { done.items ≡ [] },
    ghost room: { length tickets.items ≤ vec_capacity done },
    ghost empty: { memory.items ≡ [] },
    ghost block: { BLOCK ≤ vec_capacity memory },
    ghost many: { length tickets.items ≡ length blocks.items },
}

/// An engine on a stage, made ready for its calls. The one refusal is `NoMemory`.
fn make_ready<'o, J: Naming, M: CrackerMap, O: Onlooker, R: Wait>(
    rt: &R,
    books: Blank,
    stage: Stage<'o, M, O>,
) -> Result<Ready<'o, J, M, O>, Refusal>
    requires books { (books.sessions.name ≡ J.sessions) × (books.heads.name ≡ J.heads) × (books.most ≡ J.most) }
    requires list { books.list.seen.book ≡ J.book }
    requires columns { stage.columns ≡ J.columns }
    requires table { (stage.workload.1.rows ≡ J.opening) × (stage.workload.0 ≡ J.limit) }
    ensures order { IfOk result (λ r. InOrder 1 r.tickets.items) }
    ensures schema { IfOk result (λ r. r.schema ≡ stage.entry.workload.1.columns) }
    ensures wide { IfOk result (λ r. length r.schema ≡ length J.columns) }
    ensures blocks { IfOk result (λ r. r.blocks.items ≡ stage.entry.workload.1.blocks) }
    ensures below { IfOk result (λ r. AreBlocks (length J.columns) r.blocks.items) }
    ensures refused { IsOkUnless result NoMemory }
{
    let Stage { columns, workload } = stage;
    let Workload {
        alloc,
        inputs,
        limit,
        maps,
        onlooker,
        ..
    } = workload;
    let Inputs {
        schema,
        rows,
        blocks,
        cuts,
    } = inputs;
    let many = columns.len();
    let sessions = blocks.len();
    let Ok(memory) = block(alloc) else {
        return Err(Refusal::NoMemory);
    };
    let Ok(done) = Vec::with_capacity(alloc, sessions) else {
        return Err(Refusal::NoMemory);
    };
    let Ok((engine, tickets)) = Engine::<J, M>::open_for(
        alloc, books, columns, rows, cuts, limit, sessions,
    ) else {
        return Err(Refusal::NoMemory);
    };
    deal(rt, &engine, many, maps)?;
    Ok(Ready {
        engine,
        schema,
        blocks,
        onlooker,
        tickets,
        done,
        memory,
    })
}

/// Makes the calls of the blocks, one block after another, and writes the lines of each call when it is answered. Refused
/// `NoMemory` before the first call alone, and `Output` where the sink fails.
fn make_calls<J: Naming, M: CrackerMap, O: Onlooker, R: Threads + Wait + Sync, W: Sink>(
    rt: &R,
    ready: Ready<'_, J, M, O>,
    out: &mut W,
    stats: &mut Vec<HeadStats>,
) -> Result<Record, Refusal>
    requires wide { length ready.schema ≡ length J.columns }
    requires order { InOrder 1 ready.tickets.items }
    requires most { J.most ≡ length ready.blocks.items }
    requires blocks { AreBlocks (length J.columns) ready.blocks.items }
    ensures { Turns ready.entry.schema J.opening ready.entry.blocks.items J.limit
        (sink_by W.Sink out.old out.new) result }
{
    let Ready {
        engine,
        schema,
        blocks,
        onlooker,
        tickets,
        done,
        memory,
        ..
    } = ready;
    if stats.reserve(engine.heads()).is_err() {
        return Err(Refusal::NoMemory);
    }
    let pages = Pages {
        schema: &schema,
        blocks,
    };
    let seats = Seats {
        engine: &engine,
        tickets,
        done,
    };
    let flow = Flow {
        onlooker,
        pages,
        seats,
        memory,
    };
    let (back, flown) = flow_out(rt, flow, out);
    tell_heads(rt, &engine, stats);
    // all tickets that there may be came back, so it is not refused
    let Ok(history) = engine.close(rt, back) else {
        return Err(Refusal::NoMemory);
    };
    let history = with_columns(history, schema);
    match flown {
        Ok(()) => Ok(history),
        Err(refusal) => Err(refusal),
    }
}

/// Makes the calls of a stage by an engine of these names, as `make_calls` does.
fn turn_by<J: Naming, M: CrackerMap, O: Onlooker, R: Threads + Wait + Sync, W: Sink>(
    rt: &R,
    books: Blank,
    stage: Stage<'_, M, O>,
    out: &mut W,
    stats: &mut Vec<HeadStats>,
) -> Result<Record, Refusal>
    requires books { (books.sessions.name ≡ J.sessions) × (books.heads.name ≡ J.heads) × (books.most ≡ J.most) }
    requires list { books.list.seen.book ≡ J.book }
    requires columns { stage.columns ≡ J.columns }
    requires table { (stage.workload.1.rows ≡ J.opening) × (stage.workload.0 ≡ J.limit) }
    requires all { J.most ≡ length stage.workload.1.blocks }
    ensures { Goes J.limit stage.entry.workload.1 (sink_by W.Sink out.old out.new) result }
{
    match make_ready::<J, M, O, R>(rt, books, stage) {
        Ok(ready) => make_calls(rt, ready, out, stats),
        Err(refusal) => Err(refusal),
    }
}

/// Makes the calls of a workload, one block after another, and writes the lines of each call when it is answered. Refused
/// `NoMemory` before the first call alone, and `Output` where the sink fails; then the calls behind that are not made.
pub(crate) fn make_in_turn<M: CrackerMap, O: Onlooker, R: Threads + Wait + Sync, W: Sink>(
    rt: &R,
    workload: Workload<'_, M, O>,
    out: &mut W,
    stats: &mut Vec<HeadStats>,
) -> Result<Record, Refusal>
    ensures { Goes workload.entry.0 workload.entry.1 (sink_by W.Sink out.old out.new) result }
{
    let columns = match workload.stand_ins() {
        Ok(columns) => columns,
        Err(refusal) => return Err(refusal),
    };
    let books = Blank::for_sessions(workload.sessions());
    let stage = Stage { columns, workload };
    turn_by::<Brand, M, O, R, W>(rt, books, stage, out, stats)
}
