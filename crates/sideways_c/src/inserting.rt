//! Rows of columns that are inserted one after another.

ghost use Rattle.std.specs.Prelude.{◌≡◌, ◌<◌, ◌≤◌, length, IfErr, IfOk, OnErr, OnOk};
ghost use Rattle.sw_query.specs.declared.query.Call.TheVariants.{Insert};
ghost use Rattle.sw_solo.specs.Called.{RefusesCall, reply_in, with_call};
ghost use Rattle.sideways_c.specs.Handles.{seen};
ghost use Rattle.sideways_c.specs.Inserts.{InsertsHandle, InsertsOver, InsertsRows, key_told};

use crate::changing::key_in;
use crate::codes::{BAD_CELL, MISUSE, NO_SESSION, OK, code_of};
use crate::holder::Sideways;
use crate::state::has_session;
use crate::told::exchanged;
use core::mem::replace_with;
use sw_arrays::{Cells, are_rows, cells_at};
use sw_map::PairMap;
use sw_rows::{Call, Refusal};
use sw_solo::Solo;

/// Inserts a row: its key, or 0 where there is no room. Refused, nothing has changed.
#[tactic(auto, using(crate::proofs::Inserts::is_insert, crate::proofs::Inserts::key_is))]
fn insert_one(solo: &mut Solo<PairMap>, session: u64, cells: [i64; 8]) -> Result<u64, Refusal>
    requires some { 0 < session }
    requires opened { session ≤ solo.old.sessions }
    ensures made { OnOk result (solo.new ≡ with_call session (Insert cells) solo.old) }
    ensures key { IfOk result (λ key. key ≡ key_told (reply_in solo.old (Insert cells))) }
    ensures kept { OnErr result (solo.new ≡ solo.old) }
    ensures refused { IfErr result (RefusesCall solo.old) }
{
    match solo.make(session, Call::Insert(cells)) {
        Ok(reply) => Ok(key_in(&reply)),
        Err(e) => Err(e),
    }
}

/// Inserts rows, as many as there is room for keys, until one is refused: how many stand, and a code.
#[tactic(auto, using(crate::proofs::Inserts::row_more, crate::proofs::Inserts::key_more, crate::proofs::Inserts::sessions_more))]
fn insert_rows(
    solo: &mut Solo<PairMap>,
    session: u64,
    columns: &[Cells<'_>],
    keys: &mut [u64],
) -> (usize, u32)
    requires some { 0 < session }
    requires opened { session ≤ solo.old.sessions }
    requires few { length columns.now ≤ 8 }
    ensures { InsertsRows session columns.now solo.old solo.new keys.old keys.new result.0 result.1 }
{
    for row in 0..keys.len() {
        match insert_one(solo, session, cells_at(columns, row)) {
            Ok(key) => keys[row] = key,
            Err(e) => return (row, code_of(&e)),
        }
    }
    (keys.len(), OK)
}

/// The same of an engine that may have none, or no such session, or other attributes.
fn insert_in(
    solo: &mut Option<Solo<PairMap>>,
    session: u64,
    columns: &[Cells<'_>],
    keys: &mut [u64],
) -> (usize, u32)
    ensures { InsertsOver session columns.now solo.old solo.new keys.old keys.new result.0 result.1 }
{
    let Some(solo) = solo else {
        return (0, MISUSE);
    };
    if !has_session(solo, session) {
        return (0, NO_SESSION);
    }
    if !are_rows(solo.schema(), columns, keys.len()) {
        return (0, BAD_CELL);
    }
    insert_rows(solo, session, columns, keys)
}

/// Inserts the rows of columns, as many as there is room for keys, and tells the key of each, and how many stand.
#[unsafe(no_mangle)]
pub extern "C" fn sideways_insert_many(
    h: &mut Sideways,
    session: u64,
    columns: &[Cells<'_>],
    keys: &mut [u64],
    stand: &mut usize,
) -> u32
    ensures { InsertsHandle session columns.now (seen h.old) (seen h.new) keys.old keys.new stand.new result }
{
    if !h.is_open {
        *stand = 0;
        return MISUSE;
    }
    let mut solo = replace_with(h, None, exchanged);
    let (many, code) = insert_in(&mut solo, session, columns, keys);
    let _none = replace_with(h, solo, exchanged);
    *stand = many;
    code
}
