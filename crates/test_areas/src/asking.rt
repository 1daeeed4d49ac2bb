//! Whether a query may be asked, tested when it runs.

ghost use Rattle.std.specs.Prelude.{◌≡◌, ◌<◌, All, Decides};
ghost use Rattle.sw_query.specs.Scan.{AsksBelow, CondsBelow, WantsBelow};
ghost use Rattle.sw_set.specs.Needs.{head_in};
ghost use Rattle.test_areas.specs.Asking.{MayAsk};

use sw_rows::{Cond, Query, Want};

/// Whether all these numbers are below 8.
fn are_small(names: &[usize]) -> bool
    ensures { Decides result (All (λ a. a < 8) names.now) }
{
    for name in names {
        if *name >= 8 {
            return false;
        }
    }
    true
}

/// Whether all conditions are on attributes below 8.
fn conds_are_small(conds: &[Cond]) -> bool
    ensures { Decides result (CondsBelow 8 conds.now) }
{
    for cond in conds {
        if cond.attr >= 8 {
            return false;
        }
    }
    true
}

/// Whether what is wanted is of attributes below 8.
fn want_is_small(want: &Want) -> bool
    ensures { Decides result (WantsBelow 8 want.now) }
{
    match want {
        Want::Rows(names) => are_small(names.as_slice()),
        Want::Count => true,
        Want::Sum(a) => *a < 8,
        Want::Min(a) => *a < 8,
        Want::Max(a) => *a < 8,
    }
}

/// The head of a query: the attribute of its first condition, or 0.
fn head_of(conds: &[Cond]) -> usize
    ensures { result ≡ head_in conds.now }
{
    match conds.first() {
        None => 0,
        Some(cond) => cond.attr,
    }
}

/// Whether all attributes of a query are below 8.
fn asks_below_eight(query: &Query) -> bool
    ensures { Decides result (AsksBelow 8 query.now) }
{
    conds_are_small(query.conds.as_slice()) && want_is_small(&query.want)
}

/// Whether an area or a head of an attribute may be asked a query: its attributes are below 8, and its head is that one.
pub fn may_ask(attribute: u8, query: &Query) -> bool
    ensures { Decides result (MayAsk attribute query.now) }
{
    if head_of(query.conds.as_slice()) != usize::from(attribute) {
        return false;
    }
    asks_below_eight(query)
}
