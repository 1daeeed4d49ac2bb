//! Makes the calls of lines, again where they are refused.

use crate::lines::{call_of, schema_again, tell_reply};
use crate::sides::Side;
use crate::telling::{TURNS, told};
use std::alloc::Global;
use std::io;
use std::thread::Threads;
use sw_map::CrackerMap;
use sw_rows::{Call, Query, Refusal, Reply, Schema};

/// What is done with a select.
#[derive(Clone, Copy)]
enum Way {
    Answer,
    Scan,
    Prepare,
}

/// A line, and what is done with its call.
#[derive(Clone, Copy)]
struct Asked<'l> {
    line: &'l str,
    way: Way,
}

/// What is done with the call of a line, and the call's text.
fn way_of(line: &str) -> (Way, &str) {
    if let Some(text) = line.strip_prefix("prepare ") {
        return (Way::Prepare, text);
    }
    match line.strip_prefix("scan ") {
        Some(text) => (Way::Scan, text),
        None => (Way::Answer, line),
    }
}

/// Answers a query.
fn answer_of<R: Threads + Sync, M: CrackerMap>(
    rt: &R,
    side: &mut Side<M>,
    query: &Query,
    way: Way,
) -> Result<Reply, Refusal> {
    match way {
        Way::Scan => side.scan(query),
        _ => side.answer(rt, query),
    }
}

/// Makes a call once.
fn reply_of<R: Threads + Sync, M: CrackerMap>(
    rt: &R,
    side: &mut Side<M>,
    call: &Call,
    way: Way,
) -> Result<Reply, Refusal> {
    match call {
        Call::Select(query) => answer_of(rt, side, query, way),
        Call::Insert(cells) => side.insert(*cells),
        Call::Delete(key) => side.delete(*key),
        Call::DeleteWhere(_) => Err(Refusal::Input),
    }
}

/// Makes a call, again where it is refused.
fn call_again<R: Print + Threads + Sync, M: CrackerMap>(
    rt: &R,
    schema: &Schema,
    side: &mut Side<M>,
    call: &Call,
    asked: Asked<'_>,
) -> io::Result<()> {
    for _turn in 0..TURNS {
        println!(rt; "> {}", asked.line)?;
        match reply_of(rt, side, call, asked.way) {
            Ok(reply) => {
                tell_reply(rt, schema, call, &reply)?;
                return side.see(rt);
            }
            Err(e) => println!(rt; "refused {e}")?,
        }
        side.see(rt)?;
    }
    Ok(())
}

/// Merges what waits, again where that is refused.
fn merge_again<R: Print, M: CrackerMap>(rt: &R, side: &mut Side<M>) -> io::Result<()> {
    for _turn in 0..TURNS {
        let Some(done) = side.merge() else {
            return Ok(());
        };
        println!(rt; "> merge")?;
        let is_refused = told(rt, done)?;
        side.see(rt)?;
        if !is_refused {
            return Ok(());
        }
    }
    Ok(())
}

/// Prepares for a query, again where that is refused.
fn prepare_again<R: Print + Threads + Sync, M: CrackerMap>(
    rt: &R,
    side: &mut Side<M>,
    query: &Query,
    line: &str,
) -> io::Result<()> {
    for _turn in 0..TURNS {
        println!(rt; "> prepare {line}")?;
        let done = side.prepare(rt, query);
        let is_refused = told(rt, done)?;
        side.see(rt)?;
        if !is_refused {
            return Ok(());
        }
    }
    Ok(())
}

/// Makes room for updates, again where that is refused.
fn room_again<R: Print, M: CrackerMap>(rt: &R, side: &mut Side<M>) -> io::Result<()> {
    for _turn in 0..TURNS {
        println!(rt; "> room")?;
        let is_refused = told(rt, side.room())?;
        side.see(rt)?;
        if !is_refused {
            return Ok(());
        }
    }
    Ok(())
}

/// The call of a line is made.
fn make_call<R: Print + Threads + Sync, M: CrackerMap>(
    rt: &R,
    alloc: Global,
    schema: &Schema,
    side: &mut Side<M>,
    line: &str,
) -> io::Result<()> {
    let (way, text) = way_of(line);
    let Some(call) = call_of(rt, alloc, schema, text)? else {
        return Ok(());
    };
    if let Call::Select(query) = &call {
        merge_again(rt, side)?;
        if let Way::Prepare = way {
            return prepare_again(rt, side, query, text);
        }
    }
    call_again(rt, schema, side, &call, Asked { line, way })
}

/// What a line says is made.
fn make<R: Print + Threads + Sync, M: CrackerMap>(
    rt: &R,
    alloc: Global,
    schema: &Schema,
    side: &mut Side<M>,
    line: &str,
) -> io::Result<()> {
    match line.as_bytes() {
        b"clear" => {
            side.clear();
            println!(rt; "> clear\ndone")?;
            side.see(rt)
        }
        b"room" => room_again(rt, side),
        _ => make_call(rt, alloc, schema, side, line),
    }
}

/// What the lines say is made in order.
pub(crate) fn make_all<R: Print + Threads + Sync, M: CrackerMap>(
    rt: &R,
    alloc: Global,
    side: &mut Side<M>,
    lines: &[String],
) -> io::Result<()> {
    let Some(schema) = schema_again(rt, alloc)? else {
        return Ok(());
    };
    for line in lines {
        make(rt, alloc, &schema, side, line.as_str())?;
    }
    Ok(())
}
