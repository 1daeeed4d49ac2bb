//! Where a row's pair stands in the key map.

ghost use Rattle.std.specs.Prelude.{◌≡◌, true, ◌<◌, ◌≤◌, pos, length, slice_range, slice_index_or, unsigned_abs, Contains};
ghost use Rattle.sw_table.specs.declared.row.Row.{Row};
ghost use Rattle.sw_kernel.specs.Arrangement.{joined};
ghost use Rattle.sw_kernel.specs.Tapes.{IsTape, brought};
ghost use Rattle.sw_map.specs.Held.{pairs_in};
ghost use Rattle.sw_map.specs.Lawful.{IsAligned, rows_by};
ghost use Rattle.sw_map.specs.declared.tail.Tail.TheVariants.{Key};
ghost use Rattle.sw_set.specs.Choice.{side_in};
ghost use Rattle.sw_set.specs.Position.{HasCrackedAt, HasRowWith, LacksKey};
ghost use Rattle.sw_set.specs.Boxed.{IsFoundAt};
ghost use Rattle.sw_set.specs.Shelf.{Rises, key_of};
ghost use Rattle.sw_set.specs.declared.reply.window.Side.TheVariants.{Tail};

use crate::reply::window::{Side, value_at};
use sw_map::CrackerMap;
use sw_query::Bound;
use sw_tape::Tape;

/// Where a bound that the map has cracked at stands; an absent one stands at a given place.
fn place_of_bound<M: CrackerMap>(it: &M, bound: Option<Bound>, absent: usize) -> usize
    requires { HasCrackedAt bound (M.held it.now) }
    ensures { IsFoundAt bound absent (M.held it.now) result }
{
    let Some(bound) = bound else {
        return absent;
    };
    let Some(place) = it.find(bound) else {
        unreachable!()
    };
    place
}

/// How many tails are read at a time.
const BLOCK: usize = 256;

/// Whether no cell is the key.
fn lack_key(cells: &[i64], key: u64) -> bool
    ensures { result ≡ true → LacksKey key cells.now 0 (length cells.now) }
{
    // goes on behind the key, so that many are compared at once
    let mut found = false;
    for cell in cells {
        found |= cell.unsigned_abs() == key;
    }
    !found
}

/// A place up to which no tail is the key, from a place on and up to another, block by block.
fn skip_others<M: CrackerMap>(it: &M, key: u64, from: usize, upto: usize) -> usize
    requires within { upto ≤ pairs_in (M.held it.now) }
    ensures behind { from ≤ result }
    ensures others { LacksKey key (side_in Tail (M.held it.now)) from result }
{
    let mut block = [0; BLOCK];
    let mut place = from;
    while upto.saturating_sub(place) >= BLOCK {
        it.read_tails(place, &mut block);
        if !lack_key(&block, key) {
            return place;
        }
        place += BLOCK;
    }
    place
}

/// A place, from one up to below another, whose tail is the key; one of them is.
fn find_key<M: CrackerMap>(it: &M, key: u64, from: usize, upto: usize) -> usize
    requires within { upto ≤ pairs_in (M.held it.now) }
    requires there { Contains (slice_range (side_in Tail (M.held it.now)) from upto) (pos key) }
    ensures within { result < pairs_in (M.held it.now) }
    ensures found { unsigned_abs (slice_index_or (side_in Tail (M.held it.now)) result (pos 0)) ≡ key }
{
    for place in skip_others(it, key, from, upto)..upto {
        if value_at(it, Side::Tail, place).unsigned_abs() == key {
            return place;
        }
    }
    unreachable!()
}

/// Where the pair of a live row stands in a key map at the tape's end. It is searched between the nearest bounds around the
/// row's head value, at which the map has cracked.
pub(crate) fn place_of_row<M: CrackerMap>(it: &M, tape: &Tape, value: i64, key: u64) -> usize
    requires tape { IsTape tape.now }
    requires aligned { IsAligned (M.held it.now).head tape.now (M.held it.now) }
    requires ended { (M.held it.now).cursor ≡ length tape.now }
    requires tail { (M.held it.now).tail ≡ Key }
    requires rise { Rises key_of (brought tape.now) }
    requires live { HasRowWith key value (M.held it.now).head tape.now }
    ensures within { result < length (joined (rows_by (M.held it.now).head tape.now)) }
    ensures key { (d : Row) → (slice_index_or (joined (rows_by (M.held it.now).head tape.now)) result d).key ≡ key }
{
    let (lower, upper) = tape.around(value);
    let from = place_of_bound(it, lower, 0);
    let upto = place_of_bound(it, upper, it.len());
    find_key(it, key, from, upto)
}
