//! Engines that are opened and ended, and their sessions.

ghost use Rattle.std.specs.Prelude.{◌≡◌, true, Ok, IfOk, IsOkUnless};
ghost use Rattle.sw_rows.specs.Tables.{shown_packed, table_of};
ghost use Rattle.sw_query.specs.declared.refusal.Refusal.TheVariants.{NoMemory};
ghost use Rattle.sw_lang.specs.Cuts.{FitCuts};
ghost use Rattle.sw_lang.specs.Reading.{Answers};
ghost use Rattle.sw_spine.specs.Table.{is_numbered};
ghost use Rattle.sw_histories.specs.RecordText.{record_text};
ghost use Rattle.sw_arrays.specs.Columns.{table_in};
ghost use Rattle.sideways_c.specs.Handles.{engine_in, seen};
ghost use Rattle.sideways_c.specs.Opened.{AreSound, ClosesHandle, ClosesIn, EnrolsHandle, EnrolsIn, IsHandleOr, IsOpening, KeepsHistory, KeepsHistoryIn, OpensHandle, SpellsHistory, are_sound, cuts_in, number_told};

use crate::boxes::supply;
use crate::codes::{BAD_OPTIONS, MISUSE, OK, code_of};
use crate::handle::{handle_of, kept, taken};
use crate::holder::Sideways;
use crate::state::State;
use core::mem::replace_with;
use std::alloc::Global;
use sw_arrays::{Given, table_in};
use sw_histories::write_record_ref;
use sw_lang::{Cuts, parse_cuts};
use sw_map::PairMap;
use sw_rows::{Counted, MOST_ROWS, PackedRows, Refusal, Schema, TextKey, Why, load_bytes};
use sw_solo::Solo;
use sw_spine::RecordRef;

/// How many cells the maps of an engine have together at most.
const MOST_CELLS: u64 = 1_099_511_627_776;

/// How many maps an engine has at most.
const MOST_MAPS: u64 = 4096;

/// How an engine is opened: the limit of rows ever inserted, how many cells its maps may have together, and how many maps
/// there are.
#[repr(C)]
#[derive(Clone, Copy)]
pub struct Options {
    pub limit: u64,
    pub budget: u64,
    pub maps: u64,
}

fn are_sound(options: &Options) -> bool
    ensures value { result ≡ are_sound options.now }
    ensures sound { result ≡ true → AreSound options.now }
{
    0 < options.limit
        && options.limit <= MOST_ROWS
        && options.budget <= MOST_CELLS
        && options.maps <= MOST_MAPS
}

/// The cuts of a text.
fn cuts_of(alloc: Global, schema: &Schema, text: &[u8]) -> Result<Cuts, Refusal>
    ensures answers { Answers result (cuts_in schema.now text.now) }
    ensures fits { IfOk result (FitCuts schema.now) }
{
    match std::str::from_utf8(text) {
        Ok(text) => parse_cuts(alloc, schema, text),
        Err(_) => {
            let why = Why::Cuts;
            Err(Refusal::BadLine { line: 0, why })
        }
    }
}

/// How an engine is opened over rows that were read.
#[derive(Clone, Copy)]
struct Over<'a> {
    cuts: &'a [u8],
    options: Options,
}

/// An engine over a table that was read, with these cuts and no session.
fn opened(
    alloc: Global,
    schema: Schema,
    rows: PackedRows,
    over: Over<'_>,
) -> Result<Solo<PairMap>, Refusal>
    requires sound { AreSound over.options }
    requires numbered { is_numbered 1 rows.items ≡ true }
    ensures { IsOpening (Ok (shown_packed (schema, rows))) over.entry.cuts.now over.entry.options.limit result }
{
    let cuts = match cuts_of(alloc, &schema, over.cuts) {
        Ok(cuts) => cuts,
        Err(e) => return Err(e),
    };
    let mut solo = match Solo::open(alloc, schema, rows, cuts, over.options.limit) {
        Ok(solo) => solo,
        Err(e) => return Err(e),
    };
    match supply(alloc, &mut solo, over.options.budget, over.options.maps) {
        Ok(()) => Ok(solo),
        Err(e) => Err(e),
    }
}

/// A handle of such an engine.
fn opened_handle(
    alloc: Global,
    schema: Schema,
    rows: PackedRows,
    over: Over<'_>,
) -> Result<Sideways, Refusal>
    requires sound { AreSound over.options }
    requires numbered { is_numbered 1 rows.items ≡ true }
    ensures { IsHandleOr (Ok (shown_packed (schema, rows))) over.entry.cuts.now over.entry.options.limit result }
{
    let solo = match opened(alloc, schema, rows, over) {
        Ok(solo) => solo,
        Err(e) => return Err(e),
    };
    match handle_of(alloc, State::over(alloc, solo)) {
        Ok(h) => Ok(h),
        Err(e) => Err(e),
    }
}

/// A handle of the engine over the table of these bytes.
fn from_bytes(alloc: Global, table: &[u8], over: Over<'_>) -> Result<Sideways, Refusal>
    requires { AreSound over.options }
    ensures { IsHandleOr (table_of table.now) over.entry.cuts.now over.entry.options.limit result }
{
    match load_bytes(alloc, TextKey::fixed(), table) {
        Ok((schema, rows)) => opened_handle(alloc, schema, rows, over),
        Err(e) => Err(e),
    }
}

/// A handle of the engine over the table of these columns.
fn from_columns(alloc: Global, table: Given<'_>, over: Over<'_>) -> Result<Sideways, Refusal>
    requires { AreSound over.options }
    ensures { IsHandleOr (table_in table.entry) over.entry.cuts.now over.entry.options.limit result }
{
    match table_in(alloc, TextKey::fixed(), table) {
        Ok((schema, rows)) => opened_handle(alloc, schema, rows, over),
        Err(e) => Err(e),
    }
}

/// Opens an engine over the table of these bytes, with these cuts, in a handle that is closed.
#[unsafe(no_mangle)]
pub extern "C" fn sideways_open(
    alloc: Global,
    table: &[u8],
    cuts: &[u8],
    options: &Options,
    out: &mut Sideways,
) -> u32
    ensures { OpensHandle (table_of table.now) cuts.now options.now (seen out.old) (seen out.new) result }
{
    if out.is_open {
        return MISUSE;
    }
    if !are_sound(options) {
        return BAD_OPTIONS;
    }
    let options = *options;
    match from_bytes(alloc, table, Over { cuts, options }) {
        Ok(made) => {
            *out = made;
            OK
        }
        Err(e) => code_of(&e),
    }
}

/// The same over the table of columns.
#[unsafe(no_mangle)]
pub extern "C" fn sideways_open_columns(
    alloc: Global,
    table: &Given<'_>,
    cuts: &[u8],
    options: &Options,
    out: &mut Sideways,
) -> u32
    ensures { OpensHandle (table_in table.now) cuts.now options.now (seen out.old) (seen out.new) result }
{
    if out.is_open {
        return MISUSE;
    }
    if !are_sound(options) {
        return BAD_OPTIONS;
    }
    let options = *options;
    match from_columns(alloc, *table, Over { cuts, options }) {
        Ok(made) => {
            *out = made;
            OK
        }
        Err(e) => code_of(&e),
    }
}

/// Opens a session of the engine: a code, and the number, 0 where it is refused.
fn enrol(state: &mut State) -> (u32, u64)
    ensures made { EnrolsIn state.old state.new result.0 }
    ensures number { result.1 ≡ number_told state.old.engine result.0 }
{
    match &mut state.solo {
        Some(solo) => match solo.session() {
            Ok(number) => (OK, number),
            Err(e) => (code_of(&e), 0),
        },
        None => (MISUSE, 0),
    }
}

fn enrolled(h: Sideways, _none: ()) -> (Sideways, (u32, u64))
    requires { h.is_open ≡ true }
    ensures made { EnrolsHandle (seen h) (seen result.0) result.1.0 }
    ensures number { result.1.1 ≡ number_told (engine_in (seen h)) result.1.0 }
{
    let mut inner = taken(h);
    let told = enrol(&mut inner.state);
    (kept(inner), told)
}

/// Opens a session, and tells its number; 0 where it is refused.
#[unsafe(no_mangle)]
pub extern "C" fn sideways_session(h: &mut Sideways, number: &mut u64) -> u32
    ensures made { EnrolsHandle (seen h.old) (seen h.new) result }
    ensures number { number.new ≡ number_told (engine_in (seen h.old)) result }
{
    if !h.is_open {
        *number = 0;
        return MISUSE;
    }
    let (code, given) = replace_with(h, (), enrolled);
    *number = given;
    code
}

/// The bytes of a history file. The one refusal is `NoMemory`.
fn spelled(alloc: Global, history: &RecordRef<'_>) -> Result<Vec<u8>, Refusal>
    ensures text { IfOk result (λ text. text.items ≡ record_text history.now) }
    ensures refused { IsOkUnless result NoMemory }
{
    let mut out = Counted::new(Vec::new(alloc));
    match write_record_ref(alloc, history, &mut out) {
        Ok(()) => Ok(out.inner),
        Err(_) => Err(Refusal::NoMemory),
    }
}

/// The bytes of the history so far, or a code.
fn history_of(alloc: Global, solo: &Solo<PairMap>) -> Result<Vec<u8>, u32>
    ensures { SpellsHistory solo.now result }
{
    match spelled(alloc, &solo.history()) {
        Ok(text) => Ok(text),
        Err(e) => Err(code_of(&e)),
    }
}

/// Keeps these bytes.
#[tactic(auto, using(crate::proofs::Opens::history_told, crate::proofs::Opens::history_untold))]
fn keep_history(state: &mut State) -> u32
    ensures { KeepsHistoryIn state.old state.new result }
{
    let alloc = *state.text.allocator();
    let Some(solo) = &state.solo else {
        return MISUSE;
    };
    match history_of(alloc, solo) {
        Ok(bytes) => {
            state.text = bytes;
            OK
        }
        Err(code) => code,
    }
}

fn history_kept(h: Sideways, _none: ()) -> (Sideways, u32)
    requires { h.is_open ≡ true }
    ensures { KeepsHistory (seen h) (seen result.0) result.1 }
{
    let mut inner = taken(h);
    let code = keep_history(&mut inner.state);
    (kept(inner), code)
}

/// Keeps the bytes of the history so far as the text. The engine goes on.
#[unsafe(no_mangle)]
pub extern "C" fn sideways_history(h: &mut Sideways) -> u32
    ensures { KeepsHistory (seen h.old) (seen h.new) result }
{
    if !h.is_open {
        return MISUSE;
    }
    replace_with(h, (), history_kept)
}

/// Ends the engine, and keeps the bytes of its history.
fn end(state: &mut State) -> u32
    ensures { ClosesIn state.old state.new result }
{
    let Some(solo) = state.solo.take() else {
        return MISUSE;
    };
    let alloc = *state.text.allocator();
    state.kept = None;
    match spelled(alloc, &solo.close().by_ref()) {
        Ok(text) => {
            state.text = text;
            OK
        }
        Err(e) => code_of(&e),
    }
}

fn ended(h: Sideways, _none: ()) -> (Sideways, u32)
    requires { h.is_open ≡ true }
    ensures { ClosesHandle (seen h) (seen result.0) result.1 }
{
    let mut inner = taken(h);
    let code = end(&mut inner.state);
    (kept(inner), code)
}

/// Ends the engine. The bytes of its history are kept as the text; refused for want of memory, it has ended too.
#[unsafe(no_mangle)]
pub extern "C" fn sideways_close(h: &mut Sideways) -> u32
    ensures { ClosesHandle (seen h.old) (seen h.new) result }
{
    if !h.is_open {
        return MISUSE;
    }
    replace_with(h, (), ended)
}

/// Gives back what an open handle stands for.
fn freed(h: Sideways)
    requires { h.is_open ≡ true }
{
    drop(taken(h));
}

/// Gives back all that a handle stands for.
#[unsafe(no_mangle)]
pub extern "C" fn sideways_free(h: Sideways) {
    if h.is_open {
        freed(h);
    }
}
