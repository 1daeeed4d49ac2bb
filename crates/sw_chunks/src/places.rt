//! Into which area a row goes, and into which one it went.

ghost use Rattle.std.specs.Prelude.{◌≡◌, ◌≤◌, ◌+◌, ℕ, true, false, length, vec_capacity, vec_len, IfOk, IsOkUnless, OnErr, OnOk};
ghost use Rattle.sw_query.specs.declared.refusal.Refusal.TheVariants.{NoMemory};
ghost use Rattle.sw_set.specs.Shelf.{Rises};
ghost use Rattle.sw_chunks.specs.Cuts.{place_in};
ghost use Rattle.sw_chunks.specs.Places.{HaveAdded, IsNotAt, StandsAt, count_at, find_place, owners_with, place_by, places_of};
ghost use Rattle.sw_chunks.specs.declared.places.TheConstants.{MOST_CUTS};

use crate::division::Division;
use std::alloc::Global;
use sw_query::{Refusal, Update};

/// How many cuts a head has at most.
pub const MOST_CUTS: usize = 15;

/// The number of the interval in which a cell lies: how many cuts, from the first on, it is not below.
pub(crate) fn place_in(cuts: &[i64], cell: i64) -> u8
    requires { length cuts.now ≤ MOST_CUTS }
    ensures { result ≡ place_in cuts.now cell }
{
    let mut place = 0;
    for cut in cuts {
        if cell < *cut {
            return place;
        }
        place += 1;
    }
    place
}

/// Whether the key at a place, if there is such a place, is the one.
fn stands_at(owners: &[(u64, u8)], place: usize, key: u64) -> bool
    ensures there { result ≡ true → StandsAt owners.now place key }
    ensures other { result ≡ false → IsNotAt owners.now place key }
{
    place < owners.len() && owners[place].0 == key
}

/// The place that stands beside a key, where keys rise.
fn find_place(owners: &[(u64, u8)], key: u64) -> u8
    requires { Rises (λ (o : ℕ × ℕ). o.0) owners.now }
    ensures { result ≡ find_place key owners.now }
{
    let at = owners.partition_point(|owner| owner.0 < key);
    if stands_at(owners, at, key) {
        owners[at].1
    } else {
        0
    }
}

/// The area to which an update goes: that in whose interval its row's cell lies, or that of the row that goes.
fn place_by(by: &Division<'_>, owners: &[(u64, u8)], update: &Update) -> u8
    requires rise { Rises (λ (o : ℕ × ℕ). o.0) owners.now }
    ensures { result ≡ place_by by.now.attribute by.now.cuts.now owners.now update.now }
{
    match update {
        Update::Insert(row) => place_in(by.cuts, row.cells[usize::from(by.attribute)]),
        Update::Remove(key) => find_place(owners, *key),
    }
}

/// The areas to which updates go. Refused `NoMemory` alone.
pub(crate) fn places_by(
    alloc: Global,
    by: &Division<'_>,
    owners: &[(u64, u8)],
    updates: &[Update],
) -> Result<Vec<u8>, Refusal>
    requires rise { Rises (λ (o : ℕ × ℕ). o.0) owners.now }
    ensures places { IfOk result (λ it. it.items ≡ places_of by.now.attribute by.now.cuts.now owners.now updates.now) }
    ensures refused { IsOkUnless result NoMemory }
{
    let mut places = Vec::new(alloc);
    for update in updates {
        let place = place_by(by, owners, update);
        if places.push(place).is_err() {
            return Err(Refusal::NoMemory);
        }
    }
    Ok(places)
}

/// How many of these places are the one.
pub(crate) fn count_at(places: &[u8], place: usize) -> usize
    ensures { result ≡ count_at place places.now }
{
    let mut many = 0;
    for at in places {
        if usize::from(*at) == place {
            many += 1;
        }
    }
    many
}

/// Adds the rows that come, and the areas to which they go. There is room for as many as there are updates.
fn add_each(owners: &mut Vec<(u64, u8)>, by: &Division<'_>, updates: &[Update])
    requires { vec_len owners.old + length updates.now ≤ vec_capacity owners.old }
    ensures { owners.new.items ≡ owners_with by.now.attribute by.now.cuts.now owners.old.items updates.now }
{
    for update in updates {
        if let Update::Insert(row) = update {
            let place = place_in(by.cuts, row.cells[usize::from(by.attribute)]);
            owners.push_reserved((row.key, place));
        }
    }
}

/// The same, after room is made for them, where there are cuts; without them nothing is kept. Refused `NoMemory`, nothing
/// has changed.
#[tactic(auto, using(crate::proofs::Kept::added_none, crate::proofs::Kept::added_some))]
pub(crate) fn add_owners(
    owners: &mut Vec<(u64, u8)>,
    by: &Division<'_>,
    updates: &[Update],
) -> Result<(), Refusal>
    ensures added { OnOk result (HaveAdded by.now.attribute by.now.cuts.now updates.now owners.old.items owners.new.items) }
    ensures left { OnErr result (owners.new.items ≡ owners.old.items) }
    ensures refused { IsOkUnless result NoMemory }
{
    if by.cuts.is_empty() {
        return Ok(());
    }
    if owners.reserve(updates.len()).is_err() {
        return Err(Refusal::NoMemory);
    }
    add_each(owners, by, updates);
    Ok(())
}
