//! What may be called of a table.

ghost use Rattle.std.specs.Prelude.{◌≡◌, ◌<◌, ◌≤◌, true, length, All};
ghost use Rattle.std.specs.List.{list_all};
ghost use Rattle.sw_lang.specs.Fits.{HasFewNames, IsBound, is_bound};
ghost use Rattle.sw_query.specs.Scan.{AsksBelow, CondsBelow, WantsBelow};
ghost use Rattle.sw_spine.specs.History.{CallsBelow};

use sw_rows::{Call, Cond, Query, Want};

/// Whether all these numbers are below another one.
fn names_below(names: &[usize], columns: usize) -> bool
    ensures { result ≡ true → All (λ a. a < columns) names.now }
{
    for name in names {
        if *name >= columns {
            return false;
        }
    }
    true
}

/// Whether all conditions are on attributes below a number.
fn conds_below(conds: &[Cond], columns: usize) -> bool
    ensures { result ≡ true → CondsBelow columns conds.now }
{
    for cond in conds {
        if cond.attr >= columns {
            return false;
        }
    }
    true
}

/// Whether each condition has a bound.
fn conds_bound(conds: &[Cond]) -> bool
    ensures { result ≡ list_all (λ c. is_bound c.lower c.upper) conds.now }
{
    conds
        .iter()
        .all(|cond| cond.lower.is_some() || cond.upper.is_some())
}

/// Whether rows may be removed by these conditions.
#[tactic(auto, using(crate::proofs::Bounds::all_bound))]
fn removes_below(conds: &[Cond], columns: usize) -> bool
    ensures below { result ≡ true → CondsBelow columns conds.now }
    ensures some { result ≡ true → 1 ≤ length conds.now }
    ensures bound { result ≡ true → All IsBound conds.now }
{
    if conds.is_empty() {
        return false;
    }
    if !conds_bound(conds) {
        return false;
    }
    conds_below(conds, columns)
}

/// Whether what is wanted is of attributes below a number, 1 to 8 of them where it is rows.
fn want_below(want: &Want, columns: usize) -> bool
    ensures below { result ≡ true → WantsBelow columns want.now }
    ensures few { result ≡ true → HasFewNames want.now }
{
    match want {
        Want::Rows(names) => {
            let names = names.as_slice();
            if names.is_empty() || names.len() > 8 {
                return false;
            }
            names_below(names, columns)
        }
        Want::Count => true,
        Want::Sum(a) => *a < columns,
        Want::Min(a) => *a < columns,
        Want::Max(a) => *a < columns,
    }
}

/// Whether all attributes of a query are below a number, and its names are 1 to 8.
pub(crate) fn asks_below(query: &Query, columns: usize) -> bool
    ensures below { result ≡ true → AsksBelow columns query.now }
    ensures few { result ≡ true → HasFewNames query.now.want }
{
    conds_below(query.conds.as_slice(), columns) && want_below(&query.want, columns)
}

/// Whether a call may be made of a table with so many attributes.
pub(crate) fn calls_below(call: &Call, columns: usize) -> bool
    ensures { result ≡ true → CallsBelow columns call.now }
{
    match call {
        Call::Select(query) => asks_below(query, columns),
        Call::Insert(_) => true,
        Call::Delete(_) => true,
        Call::DeleteWhere(conds) => removes_below(conds.as_slice(), columns),
    }
}
