//! Selects whose rows are kept, and the caller's blocks.

ghost use Rattle.std.specs.Prelude.{◌≡◌, true};
ghost use Rattle.sideways_c.specs.Handles.{HasExchangedRows, seen};
ghost use Rattle.sideways_c.specs.Selects.{CopiesColumn, CopiesColumnOf, CopiesKeys, Sees, SeesIn, SeesOver, SelectsIn, SelectsOver, TellsSelect, TellsView};
ghost use Rattle.sideways_c.specs.Asks.{IsRows};

use crate::asking::{Request, make};
use crate::codes::{MISUSE, NO_ATTRIBUTE, NO_ROWS, OK, code_of, fault_code};
use crate::handle::{kept, taken};
use crate::holder::Sideways;
use crate::kept::Kept;
use crate::state::State;
use core::mem::{replace, replace_with};
use std::alloc::Global;
use sw_arrays::{Asked, Range, Wanted, cells_into, keys_into, query_of};
use sw_map::PairMap;
use sw_rows::{Reply, ReplyRows};
use sw_solo::Solo;

/// A select of a session.
#[derive(Clone, Copy)]
struct Select<'a> {
    session: u64,
    attributes: &'a [u64],
    ranges: &'a [Range],
}

/// The rows of a reply.
fn rows_in(reply: Reply) -> ReplyRows
    requires { IsRows reply }
    ensures { reply ≡ Reply.Rows result }
{
    match reply {
        Reply::Rows(rows) => rows,
        _ => unreachable!(),
    }
}

/// Selects, and keeps the rows: how many there are, or a code.
#[tactic(auto, using(crate::proofs::Selected::replies_rows, crate::proofs::Selected::rows_kept, crate::proofs::Selected::select_refused))]
fn keep_select(state: &mut State, select: Select<'_>) -> Result<usize, u32>
    ensures { SelectsIn select.entry.session select.entry.attributes select.entry.ranges state.old state.new result }
{
    let asked = Asked::Select(Wanted::Rows(select.attributes), select.ranges);
    let request = Request {
        session: select.session,
        asked,
    };
    match make(state, request) {
        Ok(reply) => {
            let rows = rows_in(reply);
            let many = rows.len();
            let columns = select.attributes.len();
            state.kept = Some(Kept { rows, columns });
            Ok(many)
        }
        Err(code) => Err(code),
    }
}

fn selected<'a>(h: Sideways, asked: Select<'a>) -> (Sideways, Result<usize, u32>)
    requires { h.is_open ≡ true }
    ensures { SelectsOver asked.entry.session asked.entry.attributes asked.entry.ranges (seen h) (seen result.0) result.1 }
{
    let mut inner = taken(h);
    let told = keep_select(&mut inner.state, asked);
    (kept(inner), told)
}

/// Selects attributes of the rows that meet the conditions, keeps them, and tells how many there are.
#[unsafe(no_mangle)]
pub extern "C" fn sideways_select(
    h: &mut Sideways,
    session: u64,
    attributes: &[u64],
    ranges: &[Range],
    rows: &mut u64,
) -> u32
    ensures { TellsSelect session attributes.entry ranges.entry (seen h.old) (seen h.new) result rows.old rows.new }
{
    if !h.is_open {
        return MISUSE;
    }
    let asked = Select {
        session,
        attributes,
        ranges,
    };
    match replace_with(h, asked, selected) {
        Ok(many) => {
            *rows = many as u64;
            OK
        }
        Err(code) => code,
    }
}

/// A query for rows of the plain table.
#[derive(Clone, Copy)]
struct View<'a> {
    attributes: &'a [u64],
    ranges: &'a [Range],
}

/// The rows that the plain table has and that meet the conditions, or a code.
#[tactic(auto, using(crate::proofs::Selected::sees_rows, crate::proofs::Selected::not_seen))]
fn rows_seen(alloc: Global, solo: &Solo<PairMap>, view: View<'_>) -> Result<ReplyRows, u32>
    ensures { Sees view.entry.attributes view.entry.ranges solo.now result }
{
    let wanted = Wanted::Rows(view.attributes);
    let query = match query_of(alloc, solo.schema(), wanted, view.ranges) {
        Ok(query) => query,
        Err(fault) => return Err(fault_code(fault)),
    };
    match solo.look(&query) {
        Ok(reply) => Ok(rows_in(reply)),
        Err(e) => Err(code_of(&e)),
    }
}

/// Keeps these rows: how many there are, or a code.
#[tactic(auto, using(crate::proofs::Selected::view_kept, crate::proofs::Selected::view_refused))]
fn keep_view(state: &mut State, view: View<'_>) -> Result<usize, u32>
    ensures { SeesIn view.entry.attributes view.entry.ranges state.old state.new result }
{
    let alloc = *state.text.allocator();
    let Some(solo) = &state.solo else {
        return Err(MISUSE);
    };
    match rows_seen(alloc, solo, view) {
        Ok(rows) => {
            let many = rows.len();
            let columns = view.attributes.len();
            state.kept = Some(Kept { rows, columns });
            Ok(many)
        }
        Err(code) => Err(code),
    }
}

fn viewed<'a>(h: Sideways, view: View<'a>) -> (Sideways, Result<usize, u32>)
    requires { h.is_open ≡ true }
    ensures { SeesOver view.entry.attributes view.entry.ranges (seen h) (seen result.0) result.1 }
{
    let mut inner = taken(h);
    let told = keep_view(&mut inner.state, view);
    (kept(inner), told)
}

/// Keeps attributes of the rows that the plain table has and that meet the conditions, and tells how many there are. It is
/// no call: the history stays as it is, and no head is asked.
#[unsafe(no_mangle)]
pub extern "C" fn sideways_view(
    h: &mut Sideways,
    attributes: &[u64],
    ranges: &[Range],
    rows: &mut u64,
) -> u32
    ensures { TellsView attributes.entry ranges.entry (seen h.old) (seen h.new) result rows.old rows.new }
{
    if !h.is_open {
        return MISUSE;
    }
    match replace_with(h, View { attributes, ranges }, viewed) {
        Ok(many) => {
            *rows = many as u64;
            OK
        }
        Err(code) => code,
    }
}

/// Takes the rows out, and leaves others in their place.
fn exchanged(h: Sideways, rows: Option<Kept>) -> (Sideways, Option<Kept>)
    requires { h.is_open ≡ true }
    ensures { HasExchangedRows rows result.1 (seen h) (seen result.0) }
{
    let mut inner = taken(h);
    let was = replace(&mut inner.state.kept, rows);
    (kept(inner), was)
}

/// Copies the keys of the kept rows from one on, as many as there is room for, and tells how many.
#[unsafe(no_mangle)]
pub extern "C" fn sideways_keys(
    h: &mut Sideways,
    from: usize,
    out: &mut [u64],
    copied: &mut usize,
) -> u32
    ensures same { seen h.new ≡ seen h.old }
    ensures told { CopiesKeys from (seen h.old) result out.old out.new copied.new }
{
    *copied = 0;
    if !h.is_open {
        return MISUSE;
    }
    let rows = replace_with(h, None, exchanged);
    let code = match &rows {
        Some(it) => {
            *copied = keys_into(&it.rows, from, out);
            OK
        }
        None => NO_ROWS,
    };
    let _none = replace_with(h, rows, exchanged);
    code
}

/// Copies a column of the kept rows from one on, as much as there is room for: a code, and how many cells.
fn copy_column(rows: &Option<Kept>, column: usize, from: usize, out: &mut [i64]) -> (u32, usize)
    ensures { CopiesColumnOf column from rows.now result.0 out.old out.new result.1 }
{
    let Some(it) = rows else {
        return (NO_ROWS, 0);
    };
    if column >= it.columns {
        return (NO_ATTRIBUTE, 0);
    }
    (OK, cells_into(&it.rows, column, from, out))
}

/// Copies a column of the kept rows from one on, as many cells as there is room for, and tells how many.
#[unsafe(no_mangle)]
pub extern "C" fn sideways_column(
    h: &mut Sideways,
    column: usize,
    from: usize,
    out: &mut [i64],
    copied: &mut usize,
) -> u32
    ensures same { seen h.new ≡ seen h.old }
    ensures told { CopiesColumn column from (seen h.old) result out.old out.new copied.new }
{
    if !h.is_open {
        *copied = 0;
        return MISUSE;
    }
    let rows = replace_with(h, None, exchanged);
    let (code, many) = copy_column(&rows, column, from, out);
    let _none = replace_with(h, rows, exchanged);
    *copied = many;
    code
}
