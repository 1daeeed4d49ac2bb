//! A session and its viewers, and the calls of lines.

ghost use Rattle.std.specs.Prelude.{length};
ghost use Rattle.sw_spine.specs.History.{CallsBelow};

use crate::below::{asks_below, calls_below};
use crate::telling::TURNS;
use std::alloc::Global;
use std::io;
use std::sync::Wait;
use std::thread::Threads;
use sw_engine::{Engine, Naming, Session, Ticket, Viewer};
use sw_lang::{parse_known, write_reply};
use sw_map::CrackerMap;
use sw_rows::{Call, Counted, Reply, Schema};

/// A session of an engine, up to two viewers of it, and the schema by which lines are read.
#[derive(Drop)]
pub(crate) struct Hall<'e, J: Naming, M: CrackerMap> {
    engine: &'e Engine<J, M>,
    schema: &'e Schema,
    session: Session<'e, J, M>,
    first: Option<Viewer<'e, J>>,
    second: Option<Viewer<'e, J>>,
}

impl<'e, J: Naming, M: CrackerMap> Hall<'e, J, M> {
    /// The session of a ticket, and no viewers.
    pub(crate) fn new(
        engine: &'e Engine<J, M>,
        schema: &'e Schema,
        ticket: Ticket<J>,
    ) -> Hall<'e, J, M> {
        Hall {
            engine,
            schema,
            session: engine.attach(ticket),
            first: None,
            second: None,
        }
    }
}

/// Writes a reply.
fn tell_reply<R: Print>(rt: &R, schema: &Schema, call: &Call, reply: &Reply) -> io::Result<()> {
    match write_reply(schema, call, reply, &mut Counted::new(io::writer(rt))) {
        Ok(()) => Ok(()),
        Err(_) => println!(rt; "no reply was written"),
    }
}

/// The call of a line; none where it has none, or is refused again and again.
fn call_of<R: Print>(
    rt: &R,
    alloc: Global,
    schema: &Schema,
    line: &str,
) -> io::Result<Option<Call>> {
    for _turn in 0..TURNS {
        match parse_known(alloc, schema, 1, line) {
            Ok(call) => return Ok(call),
            Err(e) => println!(rt; "> read {line}\nrefused {e}")?,
        }
    }
    Ok(None)
}

/// Makes a call, again where it is refused.
fn call_again<J: Naming, M: CrackerMap, R: Print + Threads + Wait + Sync>(
    rt: &R,
    schema: &Schema,
    session: &mut Session<'_, J, M>,
    call: &Call,
    line: &str,
) -> io::Result<()>
    requires { CallsBelow (length J.columns) call.now }
{
    for _turn in 0..TURNS {
        println!(rt; "> {line}")?;
        match session.call(rt, call) {
            Ok(reply) => return tell_reply(rt, schema, call, &reply),
            Err(e) => println!(rt; "refused {e}")?,
        }
    }
    Ok(())
}

/// Opens a viewer, again where it is refused.
fn viewer_again<'e, J: Naming, M: CrackerMap, R: Print + Wait>(
    rt: &R,
    engine: &'e Engine<J, M>,
) -> io::Result<Option<Viewer<'e, J>>> {
    for _turn in 0..TURNS {
        println!(rt; "> viewer")?;
        match engine.viewer(rt) {
            Ok(viewer) => {
                println!(rt; "done")?;
                return Ok(Some(viewer));
            }
            Err(e) => println!(rt; "refused {e}")?,
        }
    }
    Ok(None)
}

/// A viewer answers, again where it is refused.
fn view_again<J: Naming, R: Print>(
    rt: &R,
    schema: &Schema,
    viewer: &mut Viewer<'_, J>,
    call: &Call,
    line: &str,
) -> io::Result<()> {
    let Call::Select(query) = call else {
        return Ok(());
    };
    if !asks_below(query, 8) {
        return Ok(());
    }
    for _turn in 0..TURNS {
        println!(rt; "> view {line}")?;
        match viewer.answer(query) {
            Ok(reply) => return tell_reply(rt, schema, call, &reply),
            Err(e) => println!(rt; "refused {e}")?,
        }
    }
    Ok(())
}

/// Each viewer answers.
fn view_all<J: Naming, M: CrackerMap, R: Print>(
    rt: &R,
    hall: &mut Hall<'_, J, M>,
    call: &Call,
    line: &str,
) -> io::Result<()> {
    if let Some(viewer) = &mut hall.first {
        view_again(rt, hall.schema, viewer, call, line)?;
    }
    if let Some(viewer) = &mut hall.second {
        view_again(rt, hall.schema, viewer, call, line)?;
    }
    Ok(())
}

/// Each viewer learns the session's receipt.
fn learn_all<J: Naming, M: CrackerMap, R: Print>(
    rt: &R,
    hall: &mut Hall<'_, J, M>,
) -> io::Result<()> {
    if let Some(viewer) = &mut hall.first {
        viewer.learn(hall.session.receipt());
    }
    if let Some(viewer) = &mut hall.second {
        viewer.learn(hall.session.receipt());
    }
    println!(rt; "> learn\ndone")
}

/// A call of a script, or of each viewer.
fn make_call<J: Naming, M: CrackerMap, R: Print + Threads + Wait + Sync>(
    rt: &R,
    alloc: Global,
    hall: &mut Hall<'_, J, M>,
    line: &str,
) -> io::Result<()> {
    let (text, is_view) = match line.strip_prefix("view ") {
        Some(text) => (text, true),
        None => (line, false),
    };
    let Some(call) = call_of(rt, alloc, hall.schema, text)? else {
        return Ok(());
    };
    if is_view {
        return view_all(rt, hall, &call, text);
    }
    if calls_below(&call, hall.engine.heads()) {
        return call_again(rt, hall.schema, &mut hall.session, &call, text);
    }
    Ok(())
}

/// What a line says is made.
fn make<J: Naming, M: CrackerMap, R: Print + Threads + Wait + Sync>(
    rt: &R,
    alloc: Global,
    hall: &mut Hall<'_, J, M>,
    line: &str,
) -> io::Result<()> {
    match line.as_bytes() {
        b"viewer" => {
            let viewer = viewer_again(rt, hall.engine)?;
            if hall.first.is_none() {
                hall.first = viewer;
            } else {
                hall.second = viewer;
            }
            Ok(())
        }
        b"learn" => learn_all(rt, hall),
        b"clear" => {
            if hall.engine.heads() > 0 {
                let _gone = hall.engine.shed(rt, 0, 1);
            }
            println!(rt; "> clear\ndone")
        }
        _ => make_call(rt, alloc, hall, line),
    }
}

/// What the lines say is made in order, by the session, whose ticket comes back, and its viewers.
pub(crate) fn make_all<J: Naming, M: CrackerMap, R: Print + Threads + Wait + Sync>(
    rt: &R,
    alloc: Global,
    hall: Hall<'_, J, M>,
    lines: &[String],
) -> io::Result<Ticket<J>> {
    let mut hall = hall;
    for line in lines {
        make(rt, alloc, &mut hall, line.as_str())?;
    }
    let Hall { session, .. } = hall;
    Ok(session.end())
}
