//! Histories that are checked.

ghost use Rattle.std.specs.Prelude.{◌≡◌, MatchResult};
ghost use Rattle.sideways_c.specs.Checked.{ChecksBytes, ChecksHistory, ExplainsAs, ExplainsHandle, ExplainsIn, IsUnread, entry_of};
ghost use Rattle.sideways_c.specs.Handles.{seen};

use crate::codes::{MISUSE, NOT_LEGAL, OK, code_of};
use crate::handle::handle_of;
use crate::holder::Sideways;
use crate::state::State;
use std::alloc::Global;
use sw_histories::{explain_file, read_record};
use sw_rows::{Counted, Refusal, TextKey};

/// Checks the bytes of a history.
fn check(alloc: Global, bytes: &[u8]) -> Result<(), Refusal>
    ensures { ChecksHistory bytes.now result }
{
    match read_record(alloc, TextKey::fixed(), bytes) {
        Ok(history) => history.check(),
        Err(e) => Err(e),
    }
}

/// Checks the bytes of a history: 0, or 11 with the first entry, from 1, that does not agree, or another refusal.
#[unsafe(no_mangle)]
pub extern "C" fn sideways_check(alloc: Global, bytes: &[u8], entry: &mut u64) -> u32
    ensures { ChecksBytes bytes.now result entry.new }
{
    match check(alloc, bytes) {
        Ok(()) => {
            *entry = 0;
            OK
        }
        Err(e) => {
            *entry = entry_of(&e);
            code_of(&e)
        }
    }
}

/// The entry that a refusal names, or 0.
fn entry_of(refusal: &Refusal) -> u64
    ensures { result ≡ entry_of refusal.now }
{
    match refusal {
        Refusal::NotLegal { index } => *index,
        _ => 0,
    }
}

/// The verdict on the bytes of a history, and why it is not legal: a status and a text.
fn explained(alloc: Global, bytes: &[u8]) -> Result<(u8, Vec<u8>), Refusal>
    ensures { MatchResult result (λ r. ExplainsAs bytes.now r.0 r.1.items) (IsUnread bytes.now) }
{
    let mut out = Counted::new(Vec::new(alloc));
    match explain_file(alloc, TextKey::fixed(), bytes, &mut out) {
        Ok(status) => Ok((status, out.inner)),
        Err(Refusal::Output) => Err(Refusal::NoMemory),
        Err(e) => Err(e),
    }
}

/// A handle of that text, and the verdict's code.
fn explained_handle(alloc: Global, bytes: &[u8]) -> Result<(u32, Sideways), Refusal>
    ensures { MatchResult result (λ r. ExplainsIn bytes.now r.0 (seen r.1)) (IsUnread bytes.now) }
{
    let (status, text) = match explained(alloc, bytes) {
        Ok(told) => told,
        Err(e) => return Err(e),
    };
    let code = if status == 0 { OK } else { NOT_LEGAL };
    match handle_of(alloc, State::telling(text)) {
        Ok(h) => Ok((code, h)),
        Err(e) => Err(e),
    }
}

/// Checks the bytes of a history, and opens a closed handle of the verdict and of why it is not legal.
#[unsafe(no_mangle)]
pub extern "C" fn sideways_explain(alloc: Global, bytes: &[u8], out: &mut Sideways) -> u32
    ensures { ExplainsHandle bytes.now (seen out.old) (seen out.new) result }
{
    if out.is_open {
        return MISUSE;
    }
    match explained_handle(alloc, bytes) {
        Ok((code, made)) => {
            *out = made;
            code
        }
        Err(e) => code_of(&e),
    }
}
