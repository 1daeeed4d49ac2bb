//! Rows that are inserted and deleted.

ghost use Rattle.std.specs.Prelude.{◌≡◌};
ghost use Rattle.sideways_c.specs.Asks.{IsDelete, IsDeleteWhere, IsInsert, IsKeyTold, IsRemovalTold, TellsDelete, TellsDeleteWhere, TellsInsert};
ghost use Rattle.sideways_c.specs.Handles.{seen};

use crate::asking::ask;
use crate::codes::OK;
use crate::holder::Sideways;
use sw_arrays::{Asked, Range};
use sw_rows::Reply;

/// The key of an inserted row, or 0 where there was no room.
pub(crate) fn key_in(reply: &Reply) -> u64
    requires { IsInsert reply.now }
    ensures { IsKeyTold result reply.now }
{
    match reply {
        Reply::Inserted(key) => *key,
        Reply::Full => 0,
        _ => unreachable!(),
    }
}

/// Inserts a row of as many cells as there are attributes, and tells its key, or 0 where there is no room.
#[tactic(auto, using(crate::proofs::Replying::replies_insert, crate::proofs::Replying::is_told, crate::proofs::Replying::is_kept))]
#[unsafe(no_mangle)]
pub extern "C" fn sideways_insert(
    h: &mut Sideways,
    session: u64,
    cells: &[i64],
    key: &mut u64,
) -> u32
    ensures { TellsInsert session cells.entry (seen h.old) (seen h.new) result key.old key.new }
{
    match ask(h, session, Asked::Insert(cells)) {
        Ok(reply) => {
            *key = key_in(&reply);
            OK
        }
        Err(code) => code,
    }
}

/// Whether a row is gone: 1, or 0 where there was none of its key.
fn removal_in(reply: &Reply) -> u64
    requires { IsDelete reply.now }
    ensures { IsRemovalTold result reply.now }
{
    match reply {
        Reply::Removed => 1,
        Reply::NoSuchKey => 0,
        _ => unreachable!(),
    }
}

/// Deletes the row of a key, and tells whether there was one.
#[tactic(auto, using(crate::proofs::Replying::replies_delete, crate::proofs::Replying::is_told, crate::proofs::Replying::is_kept))]
#[unsafe(no_mangle)]
pub extern "C" fn sideways_delete(
    h: &mut Sideways,
    session: u64,
    key: u64,
    removed: &mut u64,
) -> u32
    ensures { TellsDelete session key (seen h.old) (seen h.new) result removed.old removed.new }
{
    match ask(h, session, Asked::Delete(key)) {
        Ok(reply) => {
            *removed = removal_in(&reply);
            OK
        }
        Err(code) => code,
    }
}

/// How many rows are gone.
fn removals_in(reply: &Reply) -> u64
    requires { IsDeleteWhere reply.now }
    ensures { reply.now ≡ Reply.RemovedMany result }
{
    match reply {
        Reply::RemovedMany(removed) => *removed,
        _ => unreachable!(),
    }
}

/// Deletes each row that meets all the conditions, one at least, and tells how many those were.
#[tactic(auto, using(crate::proofs::Replying::replies_delete_where, crate::proofs::Replying::is_told, crate::proofs::Replying::is_kept))]
#[unsafe(no_mangle)]
pub extern "C" fn sideways_delete_where(
    h: &mut Sideways,
    session: u64,
    ranges: &[Range],
    removed: &mut u64,
) -> u32
    ensures { TellsDeleteWhere session ranges.entry (seen h.old) (seen h.new) result removed.old removed.new }
{
    match ask(h, session, Asked::DeleteWhere(ranges)) {
        Ok(reply) => {
            *removed = removals_in(&reply);
            OK
        }
        Err(code) => code,
    }
}
