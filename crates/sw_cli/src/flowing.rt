//! Lines that go out as each call is answered.

ghost use Rattle.std.specs.Prelude.{◌≡◌, ◌≤◌, [], length, All, vec_capacity};
ghost use Rattle.sw_engine.specs.Desk.{InOrder};
ghost use Rattle.sw_engine.specs.Own.{own_of};
ghost use Rattle.sw_cli.specs.declared.buffered.TheConstants.{BLOCK};
ghost use Rattle.sw_cli.specs.Flowing.{FlowsPage, FlowsPages};
ghost use Rattle.sw_cli.specs.Script.{AllCallsBelow};
ghost use Rattle.sw_cli.specs.Sides.{sink_by};

use crate::buffered::{Base, Buffered};
use crate::calls_left::CallsLeft;
use crate::looking_on::Onlooker;
use crate::script::Block;
use crate::telling::{write_divider, write_told};
use core::mem::replace_with;
use std::marker::Brand;
use std::sync::Wait;
use std::thread::Threads;
use sw_engine::{Engine, Naming, Session, Ticket};
use sw_map::CrackerMap;
use sw_rows::{Refusal, Schema, Sink};

/// A block's calls, which are all to be made, its place from 0, and the attributes over which their lines are printed.
#[derive(Drop)]
pub(crate) struct Page<'a> {
    pub(crate) schema: &'a Schema,
    pub(crate) calls: CallsLeft,
    pub(crate) place: usize,
}

/// The blocks of a script, and the attributes over which their lines are printed.
#[derive(Drop)]
pub(crate) struct Pages<'a> {
    pub(crate) schema: &'a Schema,
    pub(crate) blocks: Vec<Block>,
}

/// The tickets of an engine that wait for their calls, and room for those that had theirs.
#[derive(Drop)]
pub(crate) struct Seats<'a, J: Naming, M: CrackerMap> {
    pub(crate) engine: &'a Engine<J, M>,
    pub(crate) tickets: Vec<Ticket<J>>,
    pub(crate) done: Vec<Ticket<J>>,
    pub(crate) ghost none: { done.items ≡ [] },
    pub(crate) ghost room: { length tickets.items ≤ vec_capacity done },
}

/// The calls of a run, who looks on while they are made, and the memory of a block of bytes.
#[derive(Drop)]
pub(crate) struct Flow<'o, 'p, 'e, J: Naming, M: CrackerMap, O: Onlooker> {
    pub(crate) onlooker: &'o O,
    pub(crate) pages: Pages<'p>,
    pub(crate) seats: Seats<'e, J, M>,
    pub(crate) memory: Vec<u8>,
    pub(crate) ghost empty: { memory.items ≡ [] },
    pub(crate) ghost block: { BLOCK ≤ vec_capacity memory },
}

/// Makes the calls of a page by a session that has made none, and writes the lines of each when it is answered, after the
/// line before the page. Refused `Output` where the sink fails; then the calls behind that are not made.
fn flow_page<J: Naming, M: CrackerMap, O: Onlooker, R: Threads + Wait + Sync, W: Sink>(
    rt: &R,
    onlooker: &O,
    page: Page<'_>,
    session: &mut Session<'_, J, M>,
    out: &mut W,
) -> Result<(), Refusal>
    requires none { session.old.1 ≡ [] }
    requires own { own_of session.old ≡ [] }
    requires below { AllCallsBelow (length J.columns) page.calls }
    ensures { FlowsPage page.entry session.old session.new result (sink_by W.Sink out.old out.new) }
{
    let Page {
        schema,
        mut calls,
        place,
    } = page;
    write_divider(place, out)?;
    let block = (place as u64).saturating_add(1);
    while let Some(call) = calls.next() {
        let begun = onlooker.begins(&call);
        let told = session.call(rt, &call);
        onlooker.ended(block, &call, begun, &told);
        let written = write_told(schema, &call, &told, out);
        // for the prover: a way out asks for no case of what was let go before
        drop((call, told));
        written?;
    }
    Ok(())
}

/// Makes the calls of the pages one page after another, each by the session of the ticket at its place, and hands the tickets
/// back. Refused `Output` where the sink fails; then the calls behind that are not made.
fn flow_pages<J: Naming, M: CrackerMap, O: Onlooker, R: Threads + Wait + Sync, W: Sink>(
    rt: &R,
    onlooker: &O,
    pages: Pages<'_>,
    seats: Seats<'_, J, M>,
    out: &mut W,
) -> (Vec<Ticket<J>>, Result<(), Refusal>)
    requires order { InOrder 1 seats.tickets.items }
    requires many { length seats.tickets.items ≡ length pages.blocks.items }
    requires below { All (AllCallsBelow (length J.columns)) pages.blocks.items }
    ensures { FlowsPages pages.entry result.0.items result.1 (sink_by W.Sink out.old out.new) }
{
    let Pages { schema, mut blocks } = pages;
    let Seats {
        engine,
        tickets,
        mut done,
    } = seats;
    let mut flown = Ok(());
    for ticket in tickets {
        if flown.is_err() {
            done.push_reserved(ticket);
            continue;
        }
        let place = done.len();
        let calls = blocks[place].take();
        let page = Page {
            schema,
            calls,
            place,
        };
        let mut session = engine.attach(ticket);
        flown = flow_page(rt, onlooker, page, &mut session, out);
        done.push_reserved(session.end());
    }
    (done, flown)
}

/// The same through a block of bytes before the sink, which is handed back.
fn flow_since<B, J, M, O, R, W>(
    rt: &R,
    sink: W,
    flow: Flow<'_, '_, '_, J, M, O>,
) -> (W, (Vec<Ticket<J>>, Result<(), Refusal>))
where
    B: Base,
    J: Naming,
    M: CrackerMap,
    O: Onlooker,
    R: Threads + Wait + Sync,
    W: Sink,
    requires base { B.base ≡ W.taken sink }
    requires order { InOrder 1 flow.seats.tickets.items }
    requires many { length flow.seats.tickets.items ≡ length flow.pages.blocks.items }
    requires below { All (AllCallsBelow (length J.columns)) flow.pages.blocks.items }
    ensures { FlowsPages flow.entry.pages result.1.0.items result.1.1 (sink_by W.Sink sink result.0) }
{
    let Flow {
        onlooker,
        pages,
        seats,
        memory,
    } = flow;
    let mut buffered: Buffered<B, W> = Buffered::new(memory, sink);
    let (tickets, flown) = flow_pages(rt, onlooker, pages, seats, &mut buffered);
    let (sink, sent) = buffered.end(flown);
    (sink, (tickets, sent))
}

/// The same from what the sink has taken now.
fn flow_from<J, M, O, R, W>(
    rt: &R,
    sink: W,
    flow: Flow<'_, '_, '_, J, M, O>,
) -> (W, (Vec<Ticket<J>>, Result<(), Refusal>))
where
    J: Naming,
    M: CrackerMap,
    O: Onlooker,
    R: Threads + Wait + Sync,
    W: Sink,
    requires order { InOrder 1 flow.seats.tickets.items }
    requires many { length flow.seats.tickets.items ≡ length flow.pages.blocks.items }
    requires below { All (AllCallsBelow (length J.columns)) flow.pages.blocks.items }
    ensures { FlowsPages flow.entry.pages result.1.0.items result.1.1 (sink_by W.Sink sink result.0) }
{
    flow_since::<Brand, J, M, O, R, W>(rt, sink, flow)
}

/// Makes the calls of the pages as `flow_pages` does, and writes their lines through a block of bytes.
pub(crate) fn flow_out<J, M, O, R, W>(
    rt: &R,
    flow: Flow<'_, '_, '_, J, M, O>,
    out: &mut W,
) -> (Vec<Ticket<J>>, Result<(), Refusal>)
where
    J: Naming,
    M: CrackerMap,
    O: Onlooker,
    R: Threads + Wait + Sync,
    W: Sink,
    requires order { InOrder 1 flow.seats.tickets.items }
    requires many { length flow.seats.tickets.items ≡ length flow.pages.blocks.items }
    requires below { All (AllCallsBelow (length J.columns)) flow.pages.blocks.items }
    ensures { FlowsPages flow.entry.pages result.0.items result.1 (sink_by W.Sink out.old out.new) }
{
    replace_with(
        out,
        flow,
        |sink: W, flow: Flow<'_, '_, '_, J, M, O>| -> (W, (Vec<Ticket<J>>, Result<(), Refusal>))
            requires order { InOrder 1 flow.seats.tickets.items }
            requires many { length flow.seats.tickets.items ≡ length flow.pages.blocks.items }
            requires below { All (AllCallsBelow (length J.columns)) flow.pages.blocks.items }
            ensures { FlowsPages flow.entry.pages result.1.0.items result.1.1 (sink_by W.Sink sink result.0) }
        { flow_from(rt, sink, flow) },
    )
}
