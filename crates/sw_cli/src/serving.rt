//! Blocks of calls, each made in a thread of its own.

ghost use Rattle.std.specs.Prelude.{◌≡◌, ◌≤◌, ◌<◌, ◌+◌, ◌++◌, drop, length, map, take, IfOk, IsOkUnless, MatchBool, Ok, vec_capacity, vec_len};
ghost use Rattle.sw_query.specs.declared.refusal.Refusal.TheVariants.{NoMemory};
ghost use Rattle.sw_engine.specs.Desk.{AreCounted, InOrder};
ghost use Rattle.sw_engine.specs.declared.heads.latch.TheConstants.{TOGETHER};
ghost use Rattle.sw_cli.specs.Outcomes.{AllSayWhy, AreTold, blocks_told};
ghost use Rattle.sw_cli.specs.Run.{IsRecordOf};
ghost use Rattle.sw_cli.specs.Script.{AreBlocks};
ghost use Rattle.sw_cli.specs.Served.{Each, GoesOn, IsDone, IsSameJob};

use crate::looking_on::Onlooker;
use crate::script::Block;
use crate::telling::BlockTold;
use std::alloc::{AllocError, Global};
use std::marker::Model;
use std::sync::Wait;
use std::thread;
use std::thread::Threads;
use sw_engine::{Engine, HeadStats, Latch, LatchedHead, Naming, Session, TOGETHER, Ticket};
use sw_map::CrackerMap;
use sw_rows::{Call, Refusal, Reply};
use sw_spine::Record;

/// An engine that was opened, a ticket for each block, and where memory comes from.
#[derive(Drop)]
pub(crate) struct Opened<J: Naming, M: CrackerMap, L: Latch<LatchedHead<J, M>>> {
    pub(crate) alloc: Global,
    pub(crate) engine: Engine<J, M, L>,
    pub(crate) tickets: Vec<Ticket<J>>,
}

/// How many calls are asked together at first, and behind calls that were not all answered so. `TOGETHER` is a multiple of it: only where
/// such a multiple of a block's calls is made are the next ones asked together.
const FIRST: usize = 16;

/// A session, its block's number from 1 for who looks on, the calls that it is to make, what came of the first of them, with room for
/// the others, and how many of the next ones are asked together. Contracts see the session, the calls, and what came of them.
#[derive(Drop)]
pub(crate) struct Job<'e, J: Naming, M: CrackerMap, L: Latch<LatchedHead<J, M>>> {
    session: Session<'e, J, M, L>,
    block: u64,
    calls: &'e [Call],
    told: Vec<Result<Reply, Refusal>>,
    together: usize,
}

impl<'e, J: Naming, M: CrackerMap, L: Latch<LatchedHead<J, M>>> Model for Job<'e, J, M, L> {
    ghost use Rattle.std.specs.Prelude.{◌≤◌, length, vec_capacity};
    ghost use Rattle.sw_cli.specs.Script.{AllCallsBelow};
    ghost use Rattle.sw_cli.specs.Served.{HasMade, Making};

    ghost Value = { Making };

    ghost view = { λ j. record { session = j.session; calls = j.calls.now; told = j.told.items } };

    ghost invariant = { λ j. HasMade j.session j.calls.now j.told.items × (length j.calls.now ≤ vec_capacity j.told)
        × AllCallsBelow (length J.columns) j.calls.now };
}

/// The session's ticket, and what came of each of its calls.
#[derive(Drop)]
pub(crate) struct Done<J: Naming> {
    ticket: Ticket<J>,
    told: BlockTold,
}

/// Of which block calls are, and when they began, as who looks on told it.
#[derive(Clone, Copy)]
struct Since {
    block: u64,
    begun: u64,
}

/// The next of these calls behind those that were made, at most so many.
fn next_calls(calls: &[Call], made: usize, most: usize) -> &[Call]
    requires { made ≤ length calls.now }
    ensures { result.now ≡ take most (drop made calls.now) }
{
    let left = &calls[made..];
    if left.len() <= most {
        return left;
    }
    let (next, _) = left.split_at(most);
    next
}

/// How many calls are asked together next, where so many of `asked` were answered so: twice as many where all were, up to `TOGETHER`.
/// Else few: updates come, or the head is not ready as it stands, and more would be asked in vain.
fn next_together(asked: usize, answered: usize) -> usize
    ensures most { result ≤ TOGETHER }
    ensures some { 0 < asked → 0 < result }
{
    if answered < asked {
        return FIRST;
    }
    TOGETHER.min(asked.saturating_mul(2))
}

/// The next of these calls were answered these replies together. Who looks on is told.
fn add_replies<O: Onlooker>(
    onlooker: &O,
    since: Since,
    calls: &[Call],
    told: &mut Vec<Result<Reply, Refusal>>,
    replies: Vec<Reply>,
)
    requires few { length told.old.items + length replies.items ≤ length calls.now }
    requires room { length calls.now ≤ vec_capacity told.old }
    ensures added { told.new.items ≡ told.old.items ++ map (λ r. Ok r) replies.items }
    ensures room { vec_capacity told.new ≡ vec_capacity told.old }
{
    for reply in replies {
        let call = &calls[told.len()];
        let answer = Ok(reply);
        onlooker.ended(since.block, call, since.begun, &answer);
        told.push_reserved(answer);
    }
}

impl<'e, J: Naming, M: CrackerMap, L: Latch<LatchedHead<J, M>>> Job<'e, J, M, L> {
    /// Makes the next call, and tells who looks on.
    fn make_one<O: Onlooker, R: Threads + Wait + Sync>(&mut self, rt: &R, onlooker: &O)
        requires left { length self.old.told < length self.old.calls }
        ensures same { IsSameJob self.old self.new }
        ensures more { length self.old.told < length self.new.told }
    {
        let Job {
            session,
            block,
            calls,
            told,
            ..
        } = self;
        let call = &calls[told.len()];
        let begun = onlooker.begins(call);
        let answer = session.call(rt, call);
        onlooker.ended(*block, call, begun, &answer);
        told.push_reserved(answer);
    }

    /// Makes the next calls as far as they are answered together, and tells whether any is. Who looks on is told that the first of them
    /// begins, and that each has ended.
    fn make_together<O: Onlooker, R: Wait>(&mut self, rt: &R, onlooker: &O) -> bool
        requires left { length self.old.told < length self.old.calls }
        ensures same { IsSameJob self.old self.new }
        ensures more { MatchBool result
            (length self.old.told < length self.new.told) (self.new.told ≡ self.old.told) }
    {
        let Job {
            session,
            block,
            calls,
            told,
            together,
        } = self;
        let since = Since {
            block: *block,
            begun: onlooker.begins(&calls[told.len()]),
        };
        let asked = next_calls(calls, told.len(), *together);
        let replies = session.select_together(rt, asked);
        *together = next_together(*together, replies.len());
        let some = !replies.is_empty();
        add_replies(onlooker, since, calls, told, replies);
        some
    }

    /// Makes the next calls, where any are left: those that are answered together, or else one. Of each `FIRST` calls of a block
    /// the first is tried so, and those behind one that is made by itself are made by themselves: a head that is not ready as it stands
    /// is mostly not ready for the next one either, and to ask it in vain costs time.
    fn make_next<O: Onlooker, R: Threads + Wait + Sync>(&mut self, rt: &R, onlooker: &O)
        ensures same { IsSameJob self.old self.new }
        ensures more { GoesOn self.old self.new }
    {
        let made = self.told.len();
        if made == self.calls.len() {
            return;
        }
        if made % FIRST == 0 && !onlooker.is_timing() {
            if self.make_together(rt, onlooker) {
                return;
            }
        }
        self.make_one(rt, onlooker);
    }
}

/// Makes the calls of a job.
fn make_block<
    J: Naming,
    M: CrackerMap,
    L: Latch<LatchedHead<J, M>>,
    O: Onlooker,
    R: Threads + Wait + Sync,
>(rt: &R, job: Job<'_, J, M, L>, onlooker: &O) -> Done<J>
    ensures { IsDone job.entry.session.0 job.entry.calls result.ticket result.told }
{
    let mut job = job;
    for _turn in 0..job.calls.len() {
        job.make_next(rt, onlooker);
    }
    let Job { session, told, .. } = job;
    Done {
        ticket: session.end(),
        told: BlockTold { told },
    }
}

/// The session of each ticket gets the calls of the block at its place.
fn jobs<'e, J: Naming, M: CrackerMap, L: Latch<LatchedHead<J, M>>>(
    alloc: Global,
    engine: &'e Engine<J, M, L>,
    tickets: Vec<Ticket<J>>,
    blocks: &'e [Block],
) -> Result<Vec<Job<'e, J, M, L>>, AllocError>
    requires order { InOrder 1 tickets.items }
    requires many { length tickets.items ≡ length blocks.now }
    requires blocks { AreBlocks (length J.columns) blocks.now }
    ensures numbers { IfOk result (λ v. AreCounted 1 (map (λ j. j.session.0) v.items)) }
    ensures calls { IfOk result (λ v. map (λ j. j.calls) v.items ≡ blocks.now) }
{
    let mut jobs = Vec::new(alloc);
    for ticket in tickets {
        let calls = blocks[jobs.len()].calls();
        let told = Vec::with_capacity(alloc, calls.len())?;
        let block = (jobs.len() as u64).saturating_add(1);
        jobs.push(Job {
            session: engine.attach(ticket),
            block,
            calls,
            told,
            together: FIRST,
        })?;
    }
    Ok(jobs)
}

/// Makes the calls of each job in a thread of its own; where no thread starts, on the calling one.
fn make_at_once<
    'e,
    J: Naming + Send + Sync,
    M: CrackerMap,
    L: Latch<LatchedHead<J, M>> + Sync,
    O: Onlooker,
    R: Threads + Wait + Sync,
>(rt: &R, jobs: Vec<Job<'e, J, M, L>>, onlooker: &O) -> Result<Vec<Done<J>>, AllocError>
    ensures { IfOk result (λ v. Each (λ j d. IsDone j.session.0 j.calls d.ticket d.told) jobs.entry.items v.items) }
{
    thread::map_vec(
        rt,
        jobs,
        &|job: Job<'_, J, M, L>| -> Done<J>
            ensures { IsDone job.entry.session.0 job.entry.calls result.ticket result.told }
        { make_block(rt, job, onlooker) },
    )
}

/// The tickets of what was done, and what came of the calls.
fn parted<J: Naming>(
    alloc: Global,
    done: Vec<Done<J>>,
) -> Result<(Vec<Ticket<J>>, Vec<BlockTold>), AllocError>
    ensures tickets { IfOk result (λ r. r.0.items ≡ map (λ d. d.ticket) done.items) }
    ensures told { IfOk result (λ r. r.1.items ≡ map (λ d. d.told) done.items) }
{
    let mut tickets = Vec::new(alloc);
    let mut all_told = Vec::new(alloc);
    for one in done {
        let Done { ticket, told } = one;
        tickets.push(ticket)?;
        all_told.push(told)?;
    }
    Ok((tickets, all_told))
}

/// Adds what each head of an engine tells of itself, for which there is room.
pub(crate) fn tell_heads<J: Naming, M: CrackerMap, L: Latch<LatchedHead<J, M>>, R: Wait>(
    rt: &R,
    engine: &Engine<J, M, L>,
    stats: &mut Vec<HeadStats>,
)
    requires { vec_len stats.old + length J.columns ≤ vec_capacity stats.old }
{
    for head in 0..engine.heads() {
        stats.push_reserved(engine.stats(rt, head));
    }
}

/// Makes the calls of each block by the session of the ticket at its place, in a thread of its own, and tells the record and what came of the
/// calls, and adds what each head tells of itself. The one refusal is `NoMemory`.
pub(crate) fn serve<
    J: Naming + Send + Sync,
    M: CrackerMap,
    L: Latch<LatchedHead<J, M>> + Sync,
    O: Onlooker,
    R: Threads + Wait + Sync,
>(
    rt: &R,
    opened: Opened<J, M, L>,
    blocks: &[Block],
    onlooker: &O,
    stats: &mut Vec<HeadStats>,
) -> Result<(Record, Vec<BlockTold>), Refusal>
    requires order { InOrder 1 opened.tickets.items }
    requires many { length opened.tickets.items ≡ length blocks.now }
    requires blocks { AreBlocks (length J.columns) blocks.now }
    ensures told { IfOk result (λ r. AreTold blocks.now r.1.items) }
    ensures why { IfOk result (λ r. AllSayWhy (blocks_told blocks.now r.1.items)) }
    ensures record_is { IfOk result
        (λ r. IsRecordOf J.columns J.opening J.limit (blocks_told blocks.now r.1.items) r.0) }
    ensures refused { IsOkUnless result NoMemory }
{
    let Opened {
        alloc,
        engine,
        tickets,
    } = opened;
    let Ok(work) = jobs(alloc, &engine, tickets, blocks) else {
        return Err(Refusal::NoMemory);
    };
    let Ok(done) = make_at_once(rt, work, onlooker) else {
        return Err(Refusal::NoMemory);
    };
    let Ok((ended, told)) = parted(alloc, done) else {
        return Err(Refusal::NoMemory);
    };
    if stats.reserve(engine.heads()).is_err() {
        return Err(Refusal::NoMemory);
    }
    tell_heads(rt, &engine, stats);
    match engine.close(rt, ended) {
        Ok(record) => Ok((record, told)),
        Err(_) => Err(Refusal::NoMemory),
    }
}
