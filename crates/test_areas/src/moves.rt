//! Moves on an area, and what is seen of them.

ghost use Rattle.std.specs.Prelude.{◌≡◌, []};

use crate::acts::taken;
use crate::may_ask;
use crate::scenes::Stage;
use std::alloc::{AllocError, Global};
use std::test::Fail;
use std::thread::Threads;
use sw_lang::parse_known;
use sw_map::{CrackerMap, Tail};
use sw_rows::{Bound, Call, Query, Refusal, Reply, ReplyRows, Schema, TextKey};
use sw_set::Area;

/// What is done to an area, or looked at.
#[derive(Clone, Copy)]
pub(crate) enum Move<'t> {
    /// Answers a query: its reply, and the refusal that is told beside it.
    Answer(&'t str),
    /// Answers counts of a below 1, 2, 3 and so on, up to a number.
    Ranges(u32),
    /// Scans for a query.
    Scan(&'t str),
    /// Prepares for a query: the range of places, or the refusal.
    Prepare(&'t str),
    /// Clears the map of a tail.
    Clear(Tail),
    /// Clears the least recently used map: the cells that came back.
    ClearOldest,
    /// Drops up to so many boxes: how many.
    Shed(usize),
    /// Sets the number that stamps uses.
    SetNow(u64),
    /// The stamp of the least recently used map.
    Oldest,
    /// How many boxes there are, and how many entries the tape has.
    Sizes,
    /// What the map of a tail shows, place by place, to its end.
    Shown(Tail),
    /// Where a bound stands in the key map.
    Place(Bound),
    /// The cursor of the map of a tail.
    Cursor(Tail),
    /// Begins, steps and tails asked for since the last look.
    Counts,
    /// The cells of the budget that are in use.
    Used,
}

/// A query as a line of a script, over the attributes a to e.
fn query(alloc: Global, line: &str) -> Result<Query, Refusal> {
    let schema = Schema::of(alloc, TextKey::fixed(), &["a", "b", "c", "d", "e"])?;
    match parse_known(alloc, &schema, 1, line) {
        Ok(Some(Call::Select(query))) => Ok(query),
        Err(e) => Err(e),
        _ => Err(Refusal::Input),
    }
}

/// The query of a move that has one.
fn line_of<'t>(step: Move<'t>) -> &'t str {
    match step {
        Move::Answer(line) | Move::Prepare(line) | Move::Scan(line) => line,
        _ => "",
    }
}

/// Tells a row of a reply.
fn push_row(text: &mut String, key: u64, cells: &[i64]) -> Result<(), AllocError> {
    write!(text, "{key}:")?;
    for cell in cells {
        write!(text, " {cell}")?;
    }
    text.push_str(", ")
}

/// Tells the rows of a reply, and how many there are.
fn push_rows(text: &mut String, rows: &ReplyRows) -> Result<(), AllocError> {
    let mut left = rows.left();
    while let Some((key, cells)) = left.next() {
        push_row(text, key, cells)?;
    }
    write!(text, "{} rows", rows.len())
}

/// Tells a reply.
fn push_reply(text: &mut String, reply: &Reply) -> Result<(), AllocError> {
    match reply {
        Reply::Rows(rows) => push_rows(text, rows),
        Reply::Count(n) => write!(text, "{n}"),
        Reply::Sum(sum) => write!(text, "{sum}"),
        Reply::Least(Some(cell)) => write!(text, "{cell}"),
        Reply::Least(None) => text.push_str("none"),
        _ => text.push_str("another"),
    }
}

/// Tells the refusal beside a reply, if there is one.
fn push_told(text: &mut String, told: &Option<Refusal>) -> Result<(), AllocError> {
    match told {
        Some(e) => write!(text, ", told {e}"),
        None => Ok(()),
    }
}

/// Tells a number, or none.
fn push_number(text: &mut String, number: Option<u64>) -> Result<(), AllocError> {
    match number {
        Some(n) => write!(text, "{n}"),
        None => text.push_str("none"),
    }
}

/// Tells a place or a cursor, or none.
pub(crate) fn push_place(text: &mut String, place: Option<usize>) -> Result<(), AllocError> {
    match place {
        Some(n) => write!(text, "{n}"),
        None => text.push_str("none"),
    }
}

/// Tells what the map of a tail shows.
fn push_tail<M: CrackerMap>(
    text: &mut String,
    area: &Area<M>,
    tail: Tail,
) -> Result<(), AllocError> {
    for place in 0..64 {
        let Some(value) = area.peek(tail, place) else {
            return Ok(());
        };
        if place > 0 {
            text.push_str(" ")?;
        }
        write!(text, "{value}")?;
    }
    Ok(())
}

/// Tells the reply of an area, with the refusal that is told beside it.
fn answer_to<R: Threads + Sync, M: CrackerMap>(
    rt: &R,
    area: &mut Area<M>,
    query: &Query,
    text: &mut String,
) -> Result<(), Fail>
    requires { area.old.inbox ≡ [] }
    ensures { area.new.inbox ≡ [] }
{
    if !may_ask(area.attribute(), query) {
        return Ok(text.push_str("not of this area")?);
    }
    let (reply, told) = area.answer(rt, query)?;
    push_reply(text, &reply)?;
    Ok(push_told(text, &told)?)
}

/// Tells the range of places of a query, or the refusal.
fn prepare_for<R: Threads + Sync, M: CrackerMap>(
    rt: &R,
    area: &mut Area<M>,
    query: &Query,
    text: &mut String,
) -> Result<(), AllocError>
    requires { area.old.inbox ≡ [] }
    ensures { area.new.inbox ≡ [] }
{
    if !may_ask(area.attribute(), query) {
        return text.push_str("not of this area");
    }
    match area.prepare(rt, query) {
        Ok(range) => write!(text, "{}..{}", range.from, range.upto),
        Err(e) => write!(text, "{e}"),
    }
}

/// Tells the plain answer over an area's rows.
fn scan_for<M: CrackerMap>(area: &Area<M>, query: &Query, text: &mut String) -> Result<(), Fail>
    requires { area.now.inbox ≡ [] }
{
    if !may_ask(area.attribute(), query) {
        return Ok(text.push_str("not of this area")?);
    }
    let reply = area.scan(query)?;
    Ok(push_reply(text, &reply)?)
}

/// Answers a query as a line, or prepares or scans for it, and tells what is seen.
fn asked<R: Threads + Sync, M: CrackerMap>(
    rt: &R,
    alloc: Global,
    area: &mut Area<M>,
    step: Move<'_>,
    text: &mut String,
) -> Result<(), Fail>
    requires { area.old.inbox ≡ [] }
    ensures { area.new.inbox ≡ [] }
{
    let query = query(alloc, line_of(step))?;
    match step {
        Move::Prepare(_) => Ok(prepare_for(rt, area, &query, text)?),
        Move::Scan(_) => scan_for(area, &query, text),
        _ => answer_to(rt, area, &query, text),
    }
}

/// Answers counts of a below 1, 2, 3 and so on, up to a number.
fn ranged<R: Threads + Sync, M: CrackerMap>(
    rt: &R,
    alloc: Global,
    area: &mut Area<M>,
    upto: u32,
    text: &mut String,
) -> Result<(), Fail>
    requires { area.old.inbox ≡ [] }
    ensures { area.new.inbox ≡ [] }
{
    for value in 1..upto {
        let line = format!(in alloc; "count where a < {value}")?;
        asked(rt, alloc, area, Move::Answer(line.as_str()), text)?;
    }
    text.clear();
    Ok(())
}

/// Tells counts, which are 0 again.
fn push_counts(text: &mut String, stage: Stage<'_>) -> Result<(), AllocError> {
    write!(
        text,
        "{} begins, {} steps, {} tails",
        taken(&stage.counts.begins),
        taken(&stage.counts.steps),
        taken(&stage.counts.tails)
    )
}

/// Looks at an area.
fn look<M: CrackerMap>(
    area: &Area<M>,
    stage: Stage<'_>,
    step: Move<'_>,
    text: &mut String,
) -> Result<(), AllocError> {
    match step {
        Move::Oldest => push_number(text, area.oldest()),
        Move::Sizes => write!(text, "{} boxes, {} entries", area.boxes(), area.tape_len()),
        Move::Shown(tail) => push_tail(text, area, tail),
        Move::Place(bound) => push_place(text, area.place(bound)),
        Move::Cursor(tail) => push_place(text, area.cursor(tail)),
        Move::Counts => push_counts(text, stage),
        Move::Used => write!(text, "{}", stage.budget.used()),
        _ => Ok(()),
    }
}

/// Clears maps, drops boxes or sets the number of the next use, or looks at an area.
fn tend<M: CrackerMap>(
    area: &mut Area<M>,
    stage: Stage<'_>,
    step: Move<'_>,
    text: &mut String,
) -> Result<(), AllocError>
    requires { area.old.inbox ≡ [] }
    ensures { area.new.inbox ≡ [] }
{
    match step {
        Move::Clear(tail) => {
            area.clear(tail);
            Ok(())
        }
        Move::ClearOldest => write!(text, "{}", area.clear_oldest()),
        Move::Shed(most) => write!(text, "{}", area.shed(most)),
        Move::SetNow(now) => {
            area.set_now(now);
            Ok(())
        }
        _ => look(area, stage, step, text),
    }
}

/// Makes a move, and tells what is seen.
fn make<R: Threads + Sync, M: CrackerMap>(
    rt: &R,
    stage: Stage<'_>,
    area: &mut Area<M>,
    step: Move<'_>,
    text: &mut String,
) -> Result<(), Fail>
    requires { area.old.inbox ≡ [] }
    ensures { area.new.inbox ≡ [] }
{
    match step {
        Move::Answer(_) | Move::Prepare(_) | Move::Scan(_) => {
            asked(rt, stage.alloc, area, step, text)
        }
        Move::Ranges(upto) => ranged(rt, stage.alloc, area, upto, text),
        _ => Ok(tend(area, stage, step, text)?),
    }
}

/// Makes moves in order. Of the first that does not show what is expected it tells what it shows and its number, from 0; else
/// nothing.
pub(crate) fn play<R: Threads + Sync, M: CrackerMap>(
    rt: &R,
    stage: Stage<'_>,
    area: &mut Area<M>,
    moves: &[(Move<'_>, &str)],
    text: &mut String,
) -> Result<(), Fail>
    requires { area.old.inbox ≡ [] }
    ensures { area.new.inbox ≡ [] }
{
    for place in 0..moves.len() {
        let (step, expected) = moves[place];
        text.clear();
        make(rt, stage, area, step, text)?;
        if text.as_str() != expected {
            return Ok(write!(text, " at {place}")?);
        }
    }
    text.clear();
    Ok(())
}
