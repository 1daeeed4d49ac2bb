//! The plain scan.

ghost use Rattle.std.specs.Prelude.{◌≡◌, ◌<◌, ◌++◌, ◌∷◌, [], length, All, IfOk, IsOk, IsOkUnless, OnOk, OnErr, map};
ghost use Rattle.sw_query.specs.Scan.{answer, column, greatest, least, matching, selected, total, AsksBelow, CondsBelow, ShowsCells, ShowsRow, TakesMemory};
ghost use Rattle.sw_table.specs.Kept.{kept};
ghost use Rattle.sw_table.specs.Live.{key_of};

pub(crate) mod places;
pub(crate) mod sieve;
pub(crate) mod span;

use crate::query::{Cond, Query, Want};
use crate::refusal::Refusal;
use crate::reply::{Cells, Reply, ReplyRow, ReplyRows};
use crate::scanning::places::{AllLive, Places};
use crate::scanning::sieve::Sieve;
use std::alloc::{AllocError, Global};
use sw_table::Row;

/// How many live rows meet each condition.
fn count<P: Places>(rows: &P, sieve: &Sieve<'_>) -> u64
    requires { CondsBelow 8 sieve.now }
    ensures { result ≡ length (matching sieve.now (kept (P.flags rows.now) (P.rows rows.now))) }
{
    let mut found: u64 = 0;
    for place in 0..rows.places() {
        if sieve.takes(rows, place) {
            found += 1;
        }
    }
    found
}

/// The sum of an attribute's cells of the live rows that meet each condition, 0 for none.
fn sum<P: Places>(rows: &P, sieve: &Sieve<'_>, attr: usize) -> i128
    requires conds { CondsBelow 8 sieve.now }
    requires attr { attr < 8 }
    ensures { result ≡ total (column attr (matching sieve.now (kept (P.flags rows.now) (P.rows rows.now)))) }
{
    let mut sum: i128 = 0;
    for place in 0..rows.places() {
        if sieve.takes(rows, place) {
            sum += i128::from(rows.cell(place, attr));
        }
    }
    sum
}

/// The least of an attribute's cells of the live rows that meet each condition, if there are any.
fn min<P: Places>(rows: &P, sieve: &Sieve<'_>, attr: usize) -> Option<i64>
    requires conds { CondsBelow 8 sieve.now }
    requires attr { attr < 8 }
    ensures { result ≡ least (column attr (matching sieve.now (kept (P.flags rows.now) (P.rows rows.now)))) }
{
    let mut found: Option<i64> = None;
    for place in 0..rows.places() {
        if sieve.takes(rows, place) {
            let here = rows.cell(place, attr);
            found = match found {
                Some(low) => Some(low.min(here)),
                None => Some(here),
            };
        }
    }
    found
}

/// The greatest of an attribute's cells of the live rows that meet each condition, if there are any.
fn max<P: Places>(rows: &P, sieve: &Sieve<'_>, attr: usize) -> Option<i64>
    requires conds { CondsBelow 8 sieve.now }
    requires attr { attr < 8 }
    ensures { result ≡ greatest (column attr (matching sieve.now (kept (P.flags rows.now) (P.rows rows.now)))) }
{
    let mut found: Option<i64> = None;
    for place in 0..rows.places() {
        if sieve.takes(rows, place) {
            let here = rows.cell(place, attr);
            found = match found {
                Some(high) => Some(high.max(here)),
                None => Some(here),
            };
        }
    }
    found
}

/// The cells of some attributes of the row at a place, in their order.
fn cells_at<P: Places>(
    alloc: Global,
    rows: &P,
    place: usize,
    names: &[usize],
) -> Result<Cells, AllocError>
    requires place { place < length (P.rows rows.now) }
    requires names { All (λ a. a < 8) names.now }
    ensures { IfOk result (ShowsCells names.now (P.rows rows.now) place) }
{
    let mut cells = Cells::new(alloc);
    for name in names {
        cells.push(rows.cell(place, *name))?;
    }
    Ok(cells)
}

/// What a reply shows of the row at a place.
fn shown_at<P: Places>(
    alloc: Global,
    rows: &P,
    place: usize,
    names: &[usize],
) -> Result<ReplyRow, AllocError>
    requires place { place < length (P.rows rows.now) }
    requires names { All (λ a. a < 8) names.now }
    ensures { IfOk result (ShowsRow names.now (P.rows rows.now) place) }
{
    let cells = cells_at(alloc, rows, place, names)?;
    Ok(ReplyRow {
        key: rows.key(place),
        cells,
    })
}

/// Adds a row at the end; after an error nothing has changed.
fn push_row(found: &mut ReplyRows, row: ReplyRow) -> Result<(), AllocError>
    ensures ok { OnOk result (found.new ≡ found.old ++ row ∷ []) }
    ensures err { OnErr result (found.new ≡ found.old) }
{
    found.push(row.key, row.cells.as_slice())
}

/// The live rows that meet each condition, each as its key and its cells of some attributes.
fn select<P: Places>(
    alloc: Global,
    rows: &P,
    sieve: &Sieve<'_>,
    names: &[usize],
) -> Result<ReplyRows, AllocError>
    requires conds { CondsBelow 8 sieve.now }
    requires names { All (λ a. a < 8) names.now }
    ensures { IfOk result (λ found. found ≡ selected sieve.now names.now (kept (P.flags rows.now) (P.rows rows.now))) }
{
    let mut found = ReplyRows::new(alloc);
    for place in 0..rows.places() {
        if sieve.takes(rows, place) {
            push_row(&mut found, shown_at(alloc, rows, place, names)?)?;
        }
    }
    Ok(found)
}

/// The keys of the live rows that meet each condition.
fn keys<P: Places>(alloc: Global, rows: &P, sieve: &Sieve<'_>) -> Result<Vec<u64>, AllocError>
    requires { CondsBelow 8 sieve.now }
    ensures { IfOk result (λ ks. ks.items ≡ map key_of (matching sieve.now
        (kept (P.flags rows.now) (P.rows rows.now)))) }
{
    let mut found = Vec::new(alloc);
    for place in 0..rows.places() {
        if sieve.takes(rows, place) {
            found.push(rows.key(place))?;
        }
    }
    Ok(found)
}

/// The keys of the live rows that meet each condition, in the order of their places, by one pass over all places.
///
/// The one error is that there is no memory for the keys. The caller's condition: attributes are below 8.
pub fn matching_keys<P: Places>(
    alloc: Global,
    rows: &P,
    conds: &[Cond],
) -> Result<Vec<u64>, AllocError>
    requires { CondsBelow 8 conds.now }
    ensures { IfOk result (λ ks. ks.items ≡ map key_of (matching conds.now
        (kept (P.flags rows.now) (P.rows rows.now)))) }
{
    keys(alloc, rows, &Sieve::new(conds))
}

/// What a query is answered over the live rows, by a pass over all places: those that meet all its conditions, in the
/// order of their places, as their keys and the cells asked for; or their number; or the sum, the least or the greatest
/// of one attribute.
///
/// The one refusal is `NoMemory`, and only where rows are asked for. The caller's condition: attributes are below 8.
pub fn scan<P: Places>(alloc: Global, rows: &P, query: &Query) -> Result<Reply, Refusal>
    requires { AsksBelow 8 query.now }
    ensures answered { IfOk result (λ reply. reply ≡ answer (kept (P.flags rows.now) (P.rows rows.now)) query.now) }
    ensures refused { IsOkUnless result Refusal.NoMemory }
    ensures scalars { (TakesMemory query.now.want → ⊥) → IsOk result }
{
    let sieve = &Sieve::new(query.conds.as_slice());
    match &query.want {
        Want::Rows(names) => match select(alloc, rows, sieve, names.as_slice()) {
            Ok(found) => Ok(Reply::Rows(found)),
            Err(_) => Err(Refusal::NoMemory),
        },
        Want::Count => Ok(Reply::Count(count(rows, sieve))),
        Want::Sum(attr) => Ok(Reply::Sum(sum(rows, sieve, *attr))),
        Want::Min(attr) => Ok(Reply::Least(min(rows, sieve, *attr))),
        Want::Max(attr) => Ok(Reply::Least(max(rows, sieve, *attr))),
    }
}

/// What a query is answered over a list of rows: those that meet all its conditions, in the list's order, as their keys
/// and the cells asked for; or their number; or the sum, the least or the greatest of one attribute.
///
/// The one refusal is `NoMemory`, and only where rows are asked for. The caller's condition: attributes are below 8.
pub fn answer(alloc: Global, rows: &[Row], query: &Query) -> Result<Reply, Refusal>
    requires { AsksBelow 8 query.now }
    ensures answered { IfOk result (λ reply. reply ≡ answer rows.now query.now) }
    ensures refused { IsOkUnless result Refusal.NoMemory }
    ensures scalars { (TakesMemory query.now.want → ⊥) → IsOk result }
{
    scan(alloc, &AllLive { rows }, query)
}
