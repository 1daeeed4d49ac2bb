//! Calls that numbers ask for, and the rows of a select.

ghost use Rattle.std.specs.Prelude.{◌≡◌, true};
ghost use Rattle.sideways_c.specs.Asks.{AskedOn, AskedOver, IsCount, IsLeast, IsLeastTold, IsSum, IsSumTold, TellsCount, TellsMax, TellsMin, TellsSum};
ghost use Rattle.sideways_c.specs.Handles.{seen};

use crate::codes::{MISUSE, NO_SESSION, OK, code_of, fault_code};
use crate::handle::{kept, taken};
use crate::holder::Sideways;
use crate::state::{State, has_session};
use core::mem::replace_with;
use sw_arrays::{Asked, Range, Wanted, call_of};
use sw_rows::Reply;

/// One more than the greatest word.
const WORD: i128 = 18_446_744_073_709_551_616;

/// A call of a session.
#[derive(Clone, Copy)]
pub(crate) struct Request<'a> {
    pub(crate) session: u64,
    pub(crate) asked: Asked<'a>,
}

/// Makes a call: its reply, or a code.
pub(crate) fn make(state: &mut State, request: Request<'_>) -> Result<Reply, u32>
    ensures { AskedOn request.entry.session request.entry.asked state.old state.new result }
{
    let State { solo, text, .. } = state;
    let Some(solo) = solo else {
        return Err(MISUSE);
    };
    if !has_session(solo, request.session) {
        return Err(NO_SESSION);
    }
    let call = match call_of(*text.allocator(), solo.schema(), request.asked) {
        Ok(call) => call,
        Err(fault) => return Err(fault_code(fault)),
    };
    match solo.make(request.session, call) {
        Ok(reply) => Ok(reply),
        Err(e) => Err(code_of(&e)),
    }
}

pub(crate) fn made<'a>(h: Sideways, request: Request<'a>) -> (Sideways, Result<Reply, u32>)
    requires { h.is_open ≡ true }
    ensures { AskedOver request.entry.session request.entry.asked (seen h) (seen result.0) result.1 }
{
    let mut inner = taken(h);
    let told = make(&mut inner.state, request);
    (kept(inner), told)
}

/// Makes a call of a handle: its reply, or a code.
pub(crate) fn ask(h: &mut Sideways, session: u64, asked: Asked<'_>) -> Result<Reply, u32>
    ensures { AskedOver session asked.entry (seen h.old) (seen h.new) result }
{
    if !h.is_open {
        return Err(MISUSE);
    }
    replace_with(h, Request { session, asked }, made)
}

/// The number of a count.
fn count_in(reply: &Reply) -> u64
    requires { IsCount reply.now }
    ensures { reply.now ≡ Reply.Count result }
{
    match reply {
        Reply::Count(found) => *found,
        _ => unreachable!(),
    }
}

/// Tells how many rows meet the conditions.
#[tactic(auto, using(crate::proofs::Replying::replies_count, crate::proofs::Replying::is_told, crate::proofs::Replying::is_kept))]
#[unsafe(no_mangle)]
pub extern "C" fn sideways_count(
    h: &mut Sideways,
    session: u64,
    ranges: &[Range],
    found: &mut u64,
) -> u32
    ensures { TellsCount session ranges.entry (seen h.old) (seen h.new) result found.old found.new }
{
    match ask(h, session, Asked::Select(Wanted::Count, ranges)) {
        Ok(reply) => {
            *found = count_in(&reply);
            OK
        }
        Err(code) => code,
    }
}

/// A sum as two words: the high one times 2^64 and the low one.
#[repr(C)]
#[derive(Clone, Copy)]
pub struct Words {
    pub low: u64,
    pub high: i64,
}

/// The words of a sum.
fn sum_in(reply: &Reply) -> Words
    requires { IsSum reply.now }
    ensures { IsSumTold result reply.now }
{
    match reply {
        Reply::Sum(sum) => Words {
            low: sum.rem_euclid(WORD) as u64,
            high: sum.div_euclid(WORD) as i64,
        },
        _ => unreachable!(),
    }
}

/// Tells the sum of an attribute over the rows that meet the conditions.
#[tactic(auto, using(crate::proofs::Replying::replies_sum, crate::proofs::Replying::is_told, crate::proofs::Replying::is_kept))]
#[unsafe(no_mangle)]
pub extern "C" fn sideways_sum(
    h: &mut Sideways,
    session: u64,
    attribute: u64,
    ranges: &[Range],
    sum: &mut Words,
) -> u32
    ensures { TellsSum session attribute ranges.entry (seen h.old) (seen h.new) result sum.old sum.new }
{
    match ask(h, session, Asked::Select(Wanted::Sum(attribute), ranges)) {
        Ok(reply) => {
            *sum = sum_in(&reply);
            OK
        }
        Err(code) => code,
    }
}

/// A least or a greatest: whether there is one, 1 or 0, and 0 where there is none.
#[repr(C)]
#[derive(Clone, Copy)]
pub struct Least {
    pub found: u64,
    pub value: i64,
}

fn least_in(reply: &Reply) -> Least
    requires { IsLeast reply.now }
    ensures { IsLeastTold result reply.now }
{
    match reply {
        Reply::Least(Some(value)) => Least {
            found: 1,
            value: *value,
        },
        Reply::Least(None) => Least { found: 0, value: 0 },
        _ => unreachable!(),
    }
}

/// Tells the least cell of an attribute over the rows that meet the conditions.
#[tactic(auto, using(crate::proofs::Replying::replies_min, crate::proofs::Replying::is_told, crate::proofs::Replying::is_kept))]
#[unsafe(no_mangle)]
pub extern "C" fn sideways_min(
    h: &mut Sideways,
    session: u64,
    attribute: u64,
    ranges: &[Range],
    least: &mut Least,
) -> u32
    ensures { TellsMin session attribute ranges.entry (seen h.old) (seen h.new) result least.old least.new }
{
    match ask(h, session, Asked::Select(Wanted::Min(attribute), ranges)) {
        Ok(reply) => {
            *least = least_in(&reply);
            OK
        }
        Err(code) => code,
    }
}

/// Tells the greatest.
#[tactic(auto, using(crate::proofs::Replying::replies_max, crate::proofs::Replying::is_told, crate::proofs::Replying::is_kept))]
#[unsafe(no_mangle)]
pub extern "C" fn sideways_max(
    h: &mut Sideways,
    session: u64,
    attribute: u64,
    ranges: &[Range],
    most: &mut Least,
) -> u32
    ensures { TellsMax session attribute ranges.entry (seen h.old) (seen h.new) result most.old most.new }
{
    match ask(h, session, Asked::Select(Wanted::Max(attribute), ranges)) {
        Ok(reply) => {
            *most = least_in(&reply);
            OK
        }
        Err(code) => code,
    }
}
