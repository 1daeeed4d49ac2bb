//! Lines that are executed, and the text that was kept last.

ghost use Rattle.std.specs.Prelude.{◌≡◌, ◌<◌, ◌≤◌, drop, length, true, IfOk, IfSome, OnErr, OnOk};
ghost use Rattle.sw_arrays.specs.Blocks.{filled, many_in};
ghost use Rattle.sw_lang.specs.Reading.{Answers};
ghost use Rattle.sw_lang.specs.Replies.{reply_bytes};
ghost use Rattle.sw_spine.specs.History.{CallsBelow};
ghost use Rattle.sideways_c.specs.Executed.{Executes, ExecutesIn, ExecutesLine, FaultsHandle, FaultsIn, IsLineRefusal, call_in, learning};
ghost use Rattle.sideways_c.specs.Handles.{HasExchangedText, seen, text_in};

use crate::codes::{MISUSE, NO_SESSION, NO_TEXT, OK, code_of};
use crate::handle::{kept, taken};
use crate::holder::Sideways;
use crate::state::{State, has_session};
use crate::words::words_of;
use core::mem::{replace, replace_with};
use std::alloc::Global;
use sw_lang::write_reply;
use sw_map::PairMap;
use sw_rows::{Call, Counted, Refusal, Reply, Schema, Why};
use sw_solo::Solo;

/// The call of a line, whose texts become known. Refused, nothing has changed.
pub(crate) fn read(solo: &mut Solo<PairMap>, line: &[u8]) -> Result<Option<Call>, Refusal>
    ensures spelled { Answers result (call_in solo.old.history.columns line.now) }
    ensures below { IfOk result (λ call. IfSome call (CallsBelow (length solo.old.history.columns))) }
    ensures learned { OnOk result (solo.new ≡ learning line.now solo.old) }
    ensures unchanged { OnErr result (solo.new ≡ solo.old) }
{
    match std::str::from_utf8(line) {
        Ok(text) => solo.read_line(1, text),
        Err(_) => {
            let why = Why::Encoding;
            Err(Refusal::BadLine { line: 1, why })
        }
    }
}

/// The lines of a reply, if there is memory for them.
fn told(alloc: Global, schema: &Schema, call: &Call, reply: &Reply) -> Option<Vec<u8>>
    ensures { IfSome result (λ text. text.items ≡ reply_bytes schema.now call.now reply.now) }
{
    let mut out = Counted::new(Vec::new(alloc));
    match write_reply(schema, call, reply, &mut out) {
        Ok(()) => Some(out.inner),
        Err(_) => None,
    }
}

/// Executes a line as a session's, and answers the text of its reply; None where the call was made and there was no memory
/// for its text. Refused, nothing has changed.
#[tactic(auto, using(crate::proofs::Executing::forgets, crate::proofs::Executing::refused_same))]
fn execute(
    alloc: Global,
    solo: &mut Solo<PairMap>,
    session: u64,
    line: &[u8],
) -> Result<Option<Vec<u8>>, Refusal>
    requires some { 0 < session }
    requires opened { session ≤ solo.old.sessions }
    ensures { Executes session line.now (call_in solo.old.history.columns line.now) solo.old solo.new result }
{
    // for the prover: the table has attributes
    let _columns = solo.schema().len();
    let texts = solo.schema().texts_known();
    let call = match read(solo, line) {
        Ok(Some(call)) => call,
        Ok(None) => {
            solo.forget_texts(texts);
            return Ok(Some(Vec::new(alloc)));
        }
        Err(e) => return Err(e),
    };
    match solo.call(session, &call) {
        Ok(reply) => Ok(told(alloc, solo.schema(), &call, &reply)),
        Err(e) => {
            solo.forget_texts(texts);
            Err(e)
        }
    }
}

/// Why a line is refused, if it is. Nothing changes.
#[tactic(auto, using(crate::proofs::Executing::forgets))]
fn refusal_of(solo: &mut Solo<PairMap>, line: &[u8]) -> Option<Refusal>
    ensures same { solo.new ≡ solo.old }
    ensures why { IsLineRefusal (call_in solo.old.history.columns line.now) result }
{
    // for the prover: the table has attributes
    let _columns = solo.schema().len();
    let known = solo.schema().texts_known();
    match read(solo, line) {
        Ok(_) => {
            solo.forget_texts(known);
            None
        }
        Err(e) => Some(e),
    }
}

/// A line of a session.
#[derive(Clone, Copy)]
struct Line<'a> {
    session: u64,
    bytes: &'a [u8],
}

/// Executes a line, and keeps the text of its reply.
#[tactic(auto, using(crate::proofs::Executing::line_told, crate::proofs::Executing::line_untold, crate::proofs::Executing::line_refused, crate::proofs::Executing::executes_in))]
fn run_line(state: &mut State, line: Line<'_>) -> u32
    ensures { ExecutesIn line.entry.session line.entry.bytes.now state.old state.new result }
{
    let State { solo, text, .. } = state;
    let Some(solo) = solo else {
        return MISUSE;
    };
    if !has_session(solo, line.session) {
        return NO_SESSION;
    }
    let alloc = *text.allocator();
    match execute(alloc, solo, line.session, line.bytes) {
        Ok(Some(told)) => {
            *text = told;
            OK
        }
        Ok(None) => NO_TEXT,
        Err(e) => code_of(&e),
    }
}

fn executed<'a>(h: Sideways, line: Line<'a>) -> (Sideways, u32)
    requires { h.is_open ≡ true }
    ensures { ExecutesLine line.entry.session line.entry.bytes.now (seen h) (seen result.0) result.1 }
{
    let mut inner = taken(h);
    let code = run_line(&mut inner.state, line);
    (kept(inner), code)
}

/// Executes a line as a session's. The text of its reply is kept.
#[unsafe(no_mangle)]
pub extern "C" fn sideways_exec(h: &mut Sideways, session: u64, line: &[u8]) -> u32
    ensures { ExecutesLine session line.now (seen h.old) (seen h.new) result }
{
    if !h.is_open {
        return MISUSE;
    }
    let asked = Line {
        session,
        bytes: line,
    };
    replace_with(h, asked, executed)
}

/// Tells whether a line is refused, and keeps words about that.
fn tell_fault(state: &mut State, line: &[u8]) -> u32
    ensures { FaultsIn line.now state.old state.new result }
{
    let State { solo, text, .. } = state;
    let Some(solo) = solo else {
        return MISUSE;
    };
    let alloc = *text.allocator();
    match refusal_of(solo, line) {
        None => {
            *text = Vec::new(alloc);
            OK
        }
        Some(e) => match words_of(alloc, solo.schema(), line) {
            Ok(words) => {
                *text = words;
                code_of(&e)
            }
            Err(e) => code_of(&e),
        },
    }
}

fn fault_told<'a>(h: Sideways, line: &'a [u8]) -> (Sideways, u32)
    requires { h.is_open ≡ true }
    ensures { FaultsHandle line.now (seen h) (seen result.0) result.1 }
{
    let mut inner = taken(h);
    let code = tell_fault(&mut inner.state, line);
    (kept(inner), code)
}

/// Tells why a line would be refused. The text is words about that: where in the line, and what could stand there.
#[unsafe(no_mangle)]
pub extern "C" fn sideways_line_fault(h: &mut Sideways, line: &[u8]) -> u32
    ensures { FaultsHandle line.now (seen h.old) (seen h.new) result }
{
    if !h.is_open {
        return MISUSE;
    }
    replace_with(h, line, fault_told)
}

fn measured(h: Sideways, _none: ()) -> (Sideways, usize)
    requires { h.is_open ≡ true }
    ensures same { seen result.0 ≡ seen h }
    ensures many { result.1 ≡ length (text_in (seen h)) }
{
    let inner = taken(h);
    let many = inner.state.text.len();
    (kept(inner), many)
}

/// How many bytes the text has that was kept last; 0 of a closed handle.
#[unsafe(no_mangle)]
pub extern "C" fn sideways_text_size(h: &mut Sideways) -> usize
    ensures same { seen h.new ≡ seen h.old }
    ensures many { result ≡ length (text_in (seen h.old)) }
{
    if !h.is_open {
        return 0;
    }
    replace_with(h, (), measured)
}

/// Copies a text from a place on, as much as there is room for, and answers how much.
fn copy(text: &[u8], from: usize, out: &mut [u8]) -> usize
    ensures copied { out.new ≡ filled (drop from text.now) out.old }
    ensures many { result ≡ many_in (drop from text.now) out.old }
{
    if from >= text.len() {
        return 0;
    }
    let many = (text.len() - from).min(out.len());
    let (front, _) = out.split_at_mut(many);
    front.copy_from_slice(&text[from..from + many]);
    many
}

/// Takes the text out, and leaves another in its place.
fn exchanged(h: Sideways, text: Vec<u8>) -> (Sideways, Vec<u8>)
    requires { h.is_open ≡ true }
    ensures { HasExchangedText text.items result.1.items (seen h) (seen result.0) }
{
    let mut inner = taken(h);
    let was = replace(&mut inner.state.text, text);
    (kept(inner), was)
}

/// Copies the text that was kept last from a place on, as much as there is room for, and answers how much.
#[unsafe(no_mangle)]
pub extern "C" fn sideways_text(
    alloc: Global,
    h: &mut Sideways,
    from: usize,
    out: &mut [u8],
) -> usize
    ensures same { seen h.new ≡ seen h.old }
    ensures copied { out.new ≡ filled (drop from (text_in (seen h.old))) out.old }
    ensures many { result ≡ many_in (drop from (text_in (seen h.old))) out.old }
{
    if !h.is_open {
        return 0;
    }
    let text = replace_with(h, Vec::new(alloc), exchanged);
    let many = copy(text.as_slice(), from, out);
    let _none = replace_with(h, text, exchanged);
    many
}
