//! A table from a source.

ghost use Rattle.std.specs.Prelude.{◌≡◌, ◌≤◌, ◌⊎◌, ℕ, List, length, IfOk, IfSome, IfErr, OnOk, vec_len};
ghost use Rattle.std.specs.Io.KnownBytes.{IsAtEnd};
ghost use Rattle.sw_rows.specs.Gives.{Gives, Raised, TellsSource};
ghost use Rattle.sw_rows.specs.Tables.{IsAllRead, IsLoaded, shown_packed, table_of};

pub(crate) mod cuts;
pub(crate) mod fronts;
pub(crate) mod parts;
pub(crate) mod text_parts;

use crate::loading::parts::read_table_in_parts;
use crate::schema::Schema;
use crate::schema::text_key::TextKey;
use crate::source::Source;
use crate::table::read_table;
use std::alloc::{AllocError, Global};
use std::thread::Threads;
use sw_query::Refusal;
use sw_table::PackedRows;

/// How many bytes a table or a script has at most.
pub const MOST_BYTES: usize = 268_435_456;

/// How many bytes are read at once.
const BLOCK: usize = 65536;

/// Room for all bytes that may come is made where there are so many.
const MANY: usize = 1_048_576;

/// So many bytes of 0. The one error is that there is no memory for them.
fn zeros(alloc: Global, many: usize) -> Result<Vec<u8>, AllocError>
    ensures { IfOk result (λ bytes. vec_len bytes ≡ many) }
{
    vec![in alloc; 0u8; many]
}

/// Makes room for so many bytes in all, where there is memory for it: a page is taken when it is filled, and a list that
/// has the room need not be moved.
fn make_room(bytes: &mut Vec<u8>, many: usize)
    ensures items { bytes.new.items ≡ bytes.old.items }
    ensures len { vec_len bytes.new ≡ vec_len bytes.old }
{
    // without it the list grows as bytes come
    let _room = bytes.reserve_exact(many.saturating_sub(bytes.len()));
}

/// Reads a source to its end.
///
/// Refused `TooMany` of `limit` where it gives more bytes than that, `Input` where it failed in this call, and
/// `NoMemory`. What it gave before a refusal is lost.
pub fn read_all<R: Source>(alloc: Global, source: &mut R, limit: usize) -> Result<Vec<u8>, Refusal>
    ensures spelled { IfSome (R.left source.old) (IsAllRead limit (R.failed source.old) (R.failed source.new) result) }
    ensures short { IfOk result (λ bytes. length bytes.items ≤ limit) }
    ensures steady { OnOk result (R.failed source.new ≡ R.failed source.old) }
    ensures told { IfErr result (TellsSource (Raised (R.failed source.old) (R.failed source.new))) }
    ensures ended { OnOk result (IsAtEnd (R.left source.new)) }
    ensures refused { IfErr result (λ e. (e ≡ Refusal.NoMemory) ⊎ (e ≡ Refusal.Input) ⊎ (e ≡ Refusal.TooMany limit)) }
{
    let mut bytes: Vec<u8> = Vec::new(alloc);
    let Ok(mut block) = zeros(alloc, BLOCK) else {
        return Err(Refusal::NoMemory);
    };
    while bytes.len() <= limit {
        match source.read_some(block.as_mut_slice()) {
            Ok(0) => {
                bytes.shrink_to_fit();
                return Ok(bytes);
            }
            Ok(n) => {
                if MANY <= bytes.len() && bytes.capacity() < limit {
                    make_room(&mut bytes, limit);
                }
                if bytes.extend_from_slice(&block[..n]).is_err() {
                    return Err(Refusal::NoMemory);
                }
            }
            Err(_) => return Err(Refusal::Input),
        }
    }
    Err(Refusal::TooMany {
        limit: limit as u64,
    })
}

/// Reads a table from a source, to the source's end: the attributes of its header, and its rows with the keys 1, 2, 3
/// and so on, packed to as many cells a row as there are attributes. Texts are hashed under the key.
///
/// The first fault refuses it: `TooMany` of 268,435,456 bytes, before anything is split; `BadTable` of record 0, field
/// 0 where there is no header; `TooMany` of 8 attributes; `BadTable` at the first field of the header that is none;
/// then record by record `TooMany` of 1,048,576 rows, `BadTable` at the first field that is missing or too many,
/// `BadTable` at the first cell that is none of its kind, or `TooMany` of 1,048,576 texts at a cell whose text would be
/// one more. What is answered is the table of some bytes, also where the source does not tell its own. `Input` comes
/// only where the source failed in this call.
pub fn load<R: Source>(
    alloc: Global,
    key: TextKey,
    source: &mut R,
) -> Result<(Schema, PackedRows), Refusal>
    ensures spelled { IfSome (R.left source.old) (IsLoaded (R.failed source.old) (R.failed source.new) result) }
    ensures steady { OnOk result (R.failed source.new ≡ R.failed source.old) }
    ensures table { IfOk result (λ t. (bytes : List ℕ) × (table_of bytes ≡ Ok (shown_packed t))) }
    ensures width { IfOk result (λ t. t.1.width ≡ length t.0) }
    ensures told { IfErr result (TellsSource (Raised (R.failed source.old) (R.failed source.new))) }
    ensures ended { OnOk result (IsAtEnd (R.left source.new)) }
{
    match read_all(alloc, source, MOST_BYTES) {
        Ok(bytes) => match read_table(alloc, key, &bytes) {
            Ok(table) => Ok(table),
            Err(e) => Err(e),
        },
        Err(e) => Err(e),
    }
}

/// Reads a table from bytes that stand in memory, where they stay: no copy of them is made.
///
/// Refused as `load` is, but for `Input`, which never comes.
pub fn load_bytes(
    alloc: Global,
    key: TextKey,
    bytes: &[u8],
) -> Result<(Schema, PackedRows), Refusal>
    ensures table { Gives ⊥ shown_packed result (table_of bytes.now) }
    ensures width { IfOk result (λ t. t.1.width ≡ length t.0) }
{
    if MOST_BYTES < bytes.len() {
        return Err(Refusal::TooMany {
            limit: MOST_BYTES as u64,
        });
    }
    read_table(alloc, key, bytes)
}

/// Reads a table as `load` does, with the same clauses, a long one in parts, each by a thread of its own.
pub fn load_in_parts<T: Threads + Sync, R: Source>(
    rt: &T,
    alloc: Global,
    key: TextKey,
    source: &mut R,
) -> Result<(Schema, PackedRows), Refusal>
    ensures spelled { IfSome (R.left source.old) (IsLoaded (R.failed source.old) (R.failed source.new) result) }
    ensures steady { OnOk result (R.failed source.new ≡ R.failed source.old) }
    ensures table { IfOk result (λ t. (bytes : List ℕ) × (table_of bytes ≡ Ok (shown_packed t))) }
    ensures width { IfOk result (λ t. t.1.width ≡ length t.0) }
    ensures told { IfErr result (TellsSource (Raised (R.failed source.old) (R.failed source.new))) }
    ensures ended { OnOk result (IsAtEnd (R.left source.new)) }
{
    match read_all(alloc, source, MOST_BYTES) {
        Ok(bytes) => match read_table_in_parts(rt, alloc, key, &bytes) {
            Ok(table) => Ok(table),
            Err(e) => Err(e),
        },
        Err(e) => Err(e),
    }
}
