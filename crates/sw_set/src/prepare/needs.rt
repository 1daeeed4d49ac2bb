//! What a query asks of an area: whether it touches it, with which bounds, and which maps it needs.

ghost use Rattle.std.specs.Prelude.{◌≡◌, ◌==◌, ◌++◌, ◌∷◌, [], length};
ghost use Rattle.std.specs.List.{list_any};
ghost use Rattle.sw_set.specs.Needs.{edge, is_tested, is_wanted, lower_from, lower_in, needed, needs_cell, spans, tails_for, touches, upper_in, upper_upto};
ghost use Rattle.sw_query.specs.Outcomes.{MemoryAside};

use smallvec::SmallVec;
use std::alloc::Global;
use sw_map::Tail;
use sw_query::{Bound, Conds, Names, Query, Refusal, Want};

/// The tails of the maps that a query needs.
pub(crate) type Tails = SmallVec<Tail, 8>;

/// Where an interval begins or ends, as a bound.
pub(crate) fn edge(value: Option<i64>) -> Option<Bound>
    ensures { result ≡ edge value }
{
    match value {
        None => None,
        Some(v) => Some(Bound::Before(v)),
    }
}

/// Whether a range may begin at the one and end at the other, where no bound is no limit.
fn spans(lower: Option<Bound>, upper: Option<Bound>) -> bool
    ensures { result ≡ spans lower upper }
{
    let Some(low) = lower else {
        return true;
    };
    match upper {
        None => true,
        Some(high) => low.is_below(high),
    }
}

/// Whether a range meets an interval, both given by where they begin and end.
pub(crate) fn touches(
    start: Option<Bound>,
    end: Option<Bound>,
    lower: Option<Bound>,
    upper: Option<Bound>,
) -> bool
    ensures { result ≡ touches start end lower upper }
{
    spans(lower, upper) && (spans(lower, end) && spans(start, upper))
}

/// The lower bound within an interval: one at or below its start counts as absent.
pub(crate) fn lower_from(start: Option<Bound>, lower: Option<Bound>) -> Option<Bound>
    ensures { result ≡ lower_from start lower }
{
    let Some(low) = lower else {
        return None;
    };
    match start {
        None => Some(low),
        Some(first) => if first.is_below(low) { Some(low) } else { None },
    }
}

/// The upper bound within an interval: one at or above its end counts as absent.
pub(crate) fn upper_upto(end: Option<Bound>, upper: Option<Bound>) -> Option<Bound>
    ensures { result ≡ upper_upto end upper }
{
    let Some(high) = upper else {
        return None;
    };
    match end {
        None => Some(high),
        Some(last) => if high.is_below(last) {
            Some(high)
        } else {
            None
        },
    }
}

/// A query's lower bound on its head.
pub(crate) fn lower_of(conds: &Conds) -> Option<Bound>
    ensures { result ≡ lower_in conds.now }
{
    match conds.as_slice().first() {
        None => None,
        Some(cond) => cond.lower,
    }
}

/// A query's upper bound on its head.
pub(crate) fn upper_of(conds: &Conds) -> Option<Bound>
    ensures { result ≡ upper_in conds.now }
{
    match conds.as_slice().first() {
        None => None,
        Some(cond) => cond.upper,
    }
}

/// Whether conditions test an attribute.
fn is_tested(conds: &Conds, attribute: usize) -> bool
    ensures { result ≡ is_tested conds.now attribute }
{
    conds.as_slice().iter().any(|cond| cond.attr == attribute)
}

/// Whether an attribute is among names.
fn is_named(names: &Names, attribute: usize) -> bool
    ensures { result ≡ list_any (λ n. n == attribute) names.now }
{
    names.as_slice().iter().any(|name| *name == attribute)
}

/// Whether an attribute is shown or aggregated.
fn is_wanted(want: &Want, attribute: usize) -> bool
    ensures { result ≡ is_wanted want.now attribute }
{
    match want {
        Want::Rows(names) => is_named(names, attribute),
        Want::Count => false,
        Want::Sum(a) => *a == attribute,
        Want::Min(a) => *a == attribute,
        Want::Max(a) => *a == attribute,
    }
}

/// Whether a query over maps of this head needs the map of an attribute's cells.
fn needs_cell(head: u8, query: &Query, attribute: u8) -> bool
    ensures { result ≡ needs_cell head query.now attribute }
{
    let asked = usize::from(attribute);
    attribute != head && (is_tested(&query.conds, asked) || is_wanted(&query.want, asked))
}

/// Adds the tail of an attribute's cells, if a query needs it. Refused `NoMemory` alone.
fn add_tail(tails: &mut Tails, head: u8, query: &Query, attribute: u8) -> Result<(), Refusal>
    ensures { MemoryAside result (λ _. tails.new.items ≡ tails.old.items ++ tails_for head query.now (attribute ∷ [])) }
{
    if !needs_cell(head, query, attribute) {
        return Ok(());
    }
    match tails.push(Tail::Cell(attribute)) {
        Ok(()) => Ok(()),
        Err(_) => Err(Refusal::NoMemory),
    }
}

/// The tails of the maps that a query needs, in the order in which they are made: the key, then the attributes by number.
/// Refused `NoMemory` alone.
pub(crate) fn needed_tails(alloc: Global, head: u8, query: &Query) -> Result<Tails, Refusal>
    ensures { MemoryAside result (λ tails. tails.items ≡ needed head query.now) }
{
    let mut tails = Tails::new(alloc);
    if tails.push(Tail::Key).is_err() {
        return Err(Refusal::NoMemory);
    }
    for attribute in 0..8u8 {
        add_tail(&mut tails, head, query, attribute)?;
    }
    Ok(tails)
}

/// How many maps of this head a query needs: one of keys, and one for each attribute that it tests, shows or aggregates, the
/// head apart. An area with as many boxes is never refused `NoBlank`.
pub fn needed_maps(head: u8, query: &Query) -> usize
    ensures { result ≡ length (needed head query.now) }
{
    let mut many = 1;
    for attribute in 0..8u8 {
        if needs_cell(head, query, attribute) {
            many += 1;
        }
    }
    many
}
