//! A run, from two sources to a sink.

ghost use Rattle.std.specs.Prelude.{◌≡◌, ◌<◌, ◌≤◌, [], All, IfOk, IsOkUnless, vec_capacity};
ghost use Rattle.sw_map.specs.Held.{blank};
ghost use Rattle.sw_lang.specs.Sinks.{Wrote};
ghost use Rattle.sw_query.specs.declared.refusal.Refusal.TheVariants.{NoMemory};
ghost use Rattle.sw_rows.specs.declared.table.TheConstants.{MOST_ROWS};
ghost use Rattle.sw_cli.specs.declared.buffered.TheConstants.{BLOCK};
ghost use Rattle.sw_cli.specs.Answers.{RunsBy};
ghost use Rattle.sw_cli.specs.Outcomes.{AllSayWhy, text_of};
ghost use Rattle.sw_cli.specs.Run.{IsRecordOf};
ghost use Rattle.sw_cli.specs.Served.{SendsLines, told_in};
ghost use Rattle.sw_cli.specs.Sides.{sink_by};
ghost use Rattle.sw_cli.specs.Starts.{Goes, IsStart, start_seen};

use crate::buffered::{Base, Buffered, block};
use crate::ended::Ended;
use crate::looking_on::{Nobody, Onlooker};
use crate::means::{AfterRun, Means};
use crate::serving::{Opened, serve};
use crate::start::{Inputs, read_start};
use crate::telling::write_blocks;
use crate::turning::make_in_turn;
use crate::workload::Workload;
use core::mem::replace_with;
use std::alloc::Global;
use std::marker::Brand;
use std::sync::Wait;
use std::thread::Threads;
use sw_engine::{
    AloneLatch, Blank, Engine, HeadStats, Latch, LatchedHead, Naming, SharedLatch, deal,
};
use sw_map::CrackerMap;
use sw_rows::{Refusal, Sink, Source, TextKey};
use sw_spine::Record;

/// What a run is told besides its files.
#[derive(Clone, Copy)]
pub struct Options<'a> {
    /// How many rows are ever inserted at most, those of the table included: 1 to 1,048,576.
    pub limit: u64,
    /// Where heads are cut into areas: nothing, or a list of `name=value` divided by `;`.
    pub cuts: &'a str,
    /// Whether each block of the script has a thread of its own.
    pub threads: bool,
    /// The key under which texts are hashed.
    pub key: TextKey,
}

/// What is to be written, and the memory of a block of bytes.
#[derive(Drop)]
struct Outgoing {
    memory: Vec<u8>,
    ended: Ended,
    ghost empty: { memory.items ≡ [] },
    ghost room: { BLOCK ≤ vec_capacity memory },
}

/// Writes the lines of what came of blocks.
fn write_ended<W: Sink>(ended: &Ended, out: &mut W) -> Result<(), Refusal>
    ensures { Wrote W.taken W.failed out.old out.new result
        (text_of ended.now.history.columns (told_in ended.now)) }
{
    write_blocks(
        &ended.history.schema,
        ended.blocks.as_slice(),
        ended.told.as_slice(),
        out,
    )
}

/// Writes the lines of what came of blocks through a block of bytes before a sink, and hands the sink back.
fn write_since<B: Base, W: Sink>(sink: W, outgoing: Outgoing) -> (W, Result<Record, Refusal>)
    requires { B.base ≡ W.taken sink }
    ensures { SendsLines (sink_by W.Sink sink result.0)
        outgoing.ended result.1 }
{
    let Outgoing { memory, ended } = outgoing;
    let mut buffered: Buffered<B, W> = Buffered::new(memory, sink);
    let written = write_ended(&ended, &mut buffered);
    let (sink, sent) = buffered.end(written);
    match sent {
        Ok(()) => (sink, Ok(ended.into_history())),
        Err(e) => (sink, Err(e)),
    }
}

/// The same from what the sink has taken now.
fn write_outgoing<W: Sink>(sink: W, outgoing: Outgoing) -> (W, Result<Record, Refusal>)
    ensures { SendsLines (sink_by W.Sink sink result.0)
        outgoing.ended result.1 }
{
    write_since::<Brand, W>(sink, outgoing)
}

/// Makes the blocks of a workload by an engine of these names and latches, and adds what its heads tell. The one refusal is
/// `NoMemory`.
fn make_by<
    J: Naming + Send + Sync,
    M: CrackerMap,
    L: Latch<LatchedHead<J, M>> + Sync,
    O: Onlooker,
    R: Threads + Wait + Sync,
>(
    rt: &R,
    books: Blank,
    workload: Workload<'_, M, O>,
    stats: &mut Vec<HeadStats>,
) -> Result<Outgoing, Refusal>
    requires books { (books.sessions.name ≡ J.sessions) × (books.heads.name ≡ J.heads) × (books.most ≡ J.most) }
    requires list { books.list.seen.book ≡ J.book }
    requires columns { workload.1.columns ≡ J.columns }
    requires table { (workload.1.rows ≡ J.opening) × (workload.0 ≡ J.limit) }
    ensures blocks { IfOk result (λ j. j.ended.blocks.items ≡ workload.entry.1.blocks) }
    ensures why { IfOk result (λ j. AllSayWhy (told_in j.ended)) }
    ensures record_is { IfOk result (λ j. IsRecordOf J.columns J.opening J.limit (told_in j.ended) j.ended.history) }
    ensures refused { IsOkUnless result NoMemory }
{
    let Workload {
        alloc,
        inputs,
        limit,
        maps,
        onlooker,
        ..
    } = workload;
    let Inputs {
        schema,
        rows,
        blocks,
        cuts,
    } = inputs;
    let Ok(memory) = block(alloc) else {
        return Err(Refusal::NoMemory);
    };
    let columns = schema.len();
    let sessions = blocks.len();
    let Ok((engine, tickets)) = Engine::<J, M, L>::open_for(
        alloc, books, schema, rows, cuts, limit, sessions,
    ) else {
        return Err(Refusal::NoMemory);
    };
    deal(rt, &engine, columns, maps)?;
    let opened = Opened {
        alloc,
        engine,
        tickets,
    };
    let (history, told) = serve(rt, opened, blocks.as_slice(), onlooker, stats)?;
    let ended = Ended {
        blocks,
        told,
        history,
    };
    Ok(Outgoing { memory, ended })
}

/// The same by an engine whose heads are each for one session at a time.
fn make<J: Naming + Send + Sync, M: CrackerMap, O: Onlooker, R: Threads + Wait + Sync>(
    rt: &R,
    books: Blank,
    workload: Workload<'_, M, O>,
    stats: &mut Vec<HeadStats>,
) -> Result<Outgoing, Refusal>
    requires books { (books.sessions.name ≡ J.sessions) × (books.heads.name ≡ J.heads) × (books.most ≡ J.most) }
    requires list { books.list.seen.book ≡ J.book }
    requires columns { workload.1.columns ≡ J.columns }
    requires table { (workload.1.rows ≡ J.opening) × (workload.0 ≡ J.limit) }
    ensures blocks { IfOk result (λ j. j.ended.blocks.items ≡ workload.entry.1.blocks) }
    ensures why { IfOk result (λ j. AllSayWhy (told_in j.ended)) }
    ensures record_is { IfOk result (λ j. IsRecordOf J.columns J.opening J.limit (told_in j.ended) j.ended.history) }
    ensures refused { IsOkUnless result NoMemory }
{
    make_by::<J, M, AloneLatch<J, M>, O, R>(rt, books, workload, stats)
}

/// The same by an engine whose heads sessions share.
fn make_sharing<
    J: Naming + Send + Sync,
    M: CrackerMap + Sync,
    O: Onlooker,
    R: Threads + Wait + Sync,
>(
    rt: &R,
    books: Blank,
    workload: Workload<'_, M, O>,
    stats: &mut Vec<HeadStats>,
) -> Result<Outgoing, Refusal>
    requires books { (books.sessions.name ≡ J.sessions) × (books.heads.name ≡ J.heads) × (books.most ≡ J.most) }
    requires list { books.list.seen.book ≡ J.book }
    requires columns { workload.1.columns ≡ J.columns }
    requires table { (workload.1.rows ≡ J.opening) × (workload.0 ≡ J.limit) }
    ensures blocks { IfOk result (λ j. j.ended.blocks.items ≡ workload.entry.1.blocks) }
    ensures why { IfOk result (λ j. AllSayWhy (told_in j.ended)) }
    ensures record_is { IfOk result (λ j. IsRecordOf J.columns J.opening J.limit (told_in j.ended) j.ended.history) }
    ensures refused { IsOkUnless result NoMemory }
{
    make_by::<J, M, SharedLatch<J, M>, O, R>(rt, books, workload, stats)
}

/// Makes the blocks of a workload, each in a thread of its own, and then writes what came of them.
fn make_at_once<M: CrackerMap, O: Onlooker, R: Threads + Wait + Sync, W: Sink>(
    rt: &R,
    workload: Workload<'_, M, O>,
    out: &mut W,
    stats: &mut Vec<HeadStats>,
) -> Result<Record, Refusal>
    ensures { Goes workload.entry.0 workload.entry.1 (sink_by W.Sink out.old out.new) result }
{
    match make::<Brand, M, O, R>(rt, Blank::new(), workload, stats) {
        Ok(outgoing) => replace_with(out, outgoing, write_outgoing),
        Err(e) => Err(e),
    }
}

/// The same, where sessions share heads.
fn share_at_once<M: CrackerMap + Sync, O: Onlooker, R: Threads + Wait + Sync, W: Sink>(
    rt: &R,
    workload: Workload<'_, M, O>,
    out: &mut W,
    stats: &mut Vec<HeadStats>,
) -> Result<Record, Refusal>
    ensures { Goes workload.entry.0 workload.entry.1 (sink_by W.Sink out.old out.new) result }
{
    match make_sharing::<Brand, M, O, R>(rt, Blank::new(), workload, stats) {
        Ok(outgoing) => replace_with(out, outgoing, write_outgoing),
        Err(e) => Err(e),
    }
}

/// Makes the blocks of a workload, and writes what came of them.
fn make_and_write<M: CrackerMap, O: Onlooker, R: Threads + Wait + Sync, W: Sink>(
    rt: &R,
    workload: Workload<'_, M, O>,
    out: &mut W,
    stats: &mut Vec<HeadStats>,
) -> Result<Record, Refusal>
    ensures { Goes workload.entry.0 workload.entry.1 (sink_by W.Sink out.old out.new) result }
{
    if workload.threads {
        return make_at_once(rt, workload, out, stats);
    }
    make_in_turn(rt, workload, out, stats)
}

/// The same, where sessions in threads share heads.
fn share_and_write<M: CrackerMap + Sync, O: Onlooker, R: Threads + Wait + Sync, W: Sink>(
    rt: &R,
    workload: Workload<'_, M, O>,
    out: &mut W,
    stats: &mut Vec<HeadStats>,
) -> Result<Record, Refusal>
    ensures { Goes workload.entry.0 workload.entry.1 (sink_by W.Sink out.old out.new) result }
{
    if workload.threads {
        return share_at_once(rt, workload, out, stats);
    }
    make_in_turn(rt, workload, out, stats)
}

/// Makes a run of what was read, and writes what came of it.
fn run_read<M: CrackerMap, O: Onlooker, R: Threads + Wait + Sync, W: Sink>(
    rt: &R,
    means: Means<'_, M, O>,
    inputs: Inputs,
    out: &mut W,
) -> Result<AfterRun, Refusal>
    requires { IsStart means.limit (start_seen inputs) }
    ensures { Goes means.entry.limit (start_seen inputs) (sink_by W.Sink out.old out.new) result }
{
    let mut stats = Vec::new(means.alloc);
    let workload = Workload::of(means, inputs);
    match make_and_write(rt, workload, out, &mut stats) {
        Ok(history) => Ok(AfterRun { history, stats }),
        Err(e) => Err(e),
    }
}

/// The same, where sessions in threads share heads.
fn share_read<M: CrackerMap + Sync, O: Onlooker, R: Threads + Wait + Sync, W: Sink>(
    rt: &R,
    means: Means<'_, M, O>,
    inputs: Inputs,
    out: &mut W,
) -> Result<AfterRun, Refusal>
    requires { IsStart means.limit (start_seen inputs) }
    ensures { Goes means.entry.limit (start_seen inputs) (sink_by W.Sink out.old out.new) result }
{
    let mut stats = Vec::new(means.alloc);
    let workload = Workload::of(means, inputs);
    match share_and_write(rt, workload, out, &mut stats) {
        Ok(history) => Ok(AfterRun { history, stats }),
        Err(e) => Err(e),
    }
}

/// Reads a table, a script and cuts, makes the calls of the script's blocks, block i as session i, and writes the lines
/// of what came of them, with a line `---` between two blocks. The maps are boxes: box i, from 0, is dealt to the head
/// of attribute i mod n, where there are n attributes.
///
/// The table is read first, then the script, then the cuts; then the rows are held against the limit. The first fault
/// in that order refuses the run before any call: `BadTable`, `BadLine`, `UnknownAttribute`, `TooMany`, `Input` where a
/// source failed, or `NoMemory`; nothing was written then. Blocks run one after another, and the lines of each call go out in
/// blocks of 64 KiB as it is answered; or each in a thread of its own, and their lines go out in the order of the script when
/// all have ended. A call that is refused writes `refused` and the refusal's number, changes no row, and the calls after it
/// are made. `Output` comes only where the sink failed; of blocks that run one after another the calls behind that are not
/// made.
/// The caller's conditions: the limit is 1 to 1,048,576, and the boxes are blank.
pub fn run_with<M: CrackerMap, R: Threads + Wait + Sync, T: Source, S: Source, W: Sink>(
    rt: &R,
    alloc: Global,
    table: &mut T,
    script: &mut S,
    out: &mut W,
    options: &Options<'_>,
    maps: Vec<M>,
) -> Result<Record, Refusal>
    requires some { 0 < options.now.limit }
    requires most { options.now.limit ≤ MOST_ROWS }
    requires blank { All (λ m. M.held m ≡ blank) maps.items }
    ensures { RunsBy options.now T.Source table.old table.new
        S.Source script.old script.new W.Sink out.old out.new result }
{
    let means = Means {
        alloc,
        options,
        maps,
        onlooker: &Nobody,
    };
    match run_told(rt, means, table, script, out) {
        Ok(after) => Ok(after.into_history()),
        Err(e) => Err(e),
    }
}

/// `run_with` by means that are one value, which also lets somebody look on, and tells of each head when all calls were
/// made. No clause speaks of that, nor of what the onlooker sees.
pub fn run_told<
    M: CrackerMap,
    O: Onlooker,
    R: Threads + Wait + Sync,
    T: Source,
    S: Source,
    W: Sink,
>(
    rt: &R,
    means: Means<'_, M, O>,
    table: &mut T,
    script: &mut S,
    out: &mut W,
) -> Result<AfterRun, Refusal>
    ensures { RunsBy means.entry T.Source table.old table.new
        S.Source script.old script.new W.Sink out.old out.new result }
{
    match read_start(rt, means.alloc, table, script, means.options) {
        Ok(inputs) => run_read(rt, means, inputs, out),
        Err(e) => Err(e),
    }
}

/// `run_told` where blocks that are made in threads share heads: a query that changes nothing of its head reads it beside others
/// that do so, and waits for them at the history's lock alone.
pub fn run_shared<
    M: CrackerMap + Sync,
    O: Onlooker,
    R: Threads + Wait + Sync,
    T: Source,
    S: Source,
    W: Sink,
>(
    rt: &R,
    means: Means<'_, M, O>,
    table: &mut T,
    script: &mut S,
    out: &mut W,
) -> Result<AfterRun, Refusal>
    ensures { RunsBy means.entry T.Source table.old table.new
        S.Source script.old script.new W.Sink out.old out.new result }
{
    let inputs = read_start(rt, means.alloc, table, script, means.options);
    match inputs {
        Ok(inputs) => share_read(rt, means, inputs, out),
        Err(e) => Err(e),
    }
}

/// `run_with` over boxes of any kinds.
pub fn run<R: Threads + Wait + Sync, T: Source, S: Source, W: Sink>(
    rt: &R,
    alloc: Global,
    table: &mut T,
    script: &mut S,
    out: &mut W,
    options: &Options<'_>,
    maps: Vec<Box<dyn CrackerMap>>,
) -> Result<Record, Refusal>
    requires some { 0 < options.now.limit }
    requires most { options.now.limit ≤ MOST_ROWS }
    requires blank { All (λ m. (CrackerMap-box m).held m.value ≡ blank) maps.items }
    ensures { RunsBy options.now T.Source table.old table.new
        S.Source script.old script.new W.Sink out.old out.new result }
{
    run_with(rt, alloc, table, script, out, options, maps)
}
