//! A query over areas at rest: each that it touches is ready for it as it stands, so that nothing changes.

ghost use Rattle.std.specs.Prelude.{◌≡◌, [], true, All, IfOk, IfSome, IsOkUnless};
ghost use Rattle.sw_query.specs.Scan.{AsksBelow, answer, answer_over};
ghost use Rattle.sw_query.specs.declared.refusal.Refusal.TheVariants.{NoMemory};
ghost use Rattle.sw_set.specs.Needs.{head_in};
ghost use Rattle.sw_set.specs.Prepared.{is_touched};
ghost use Rattle.sw_set.specs.Resting.{IsAtRest, IsToldWhere};
ghost use Rattle.sw_set.specs.Shelf.{AreaState, rows_in};
ghost use Rattle.sw_chunks.specs.Asked.{AreaFits, AreasFit, AreAtRest, RestsIfTouched, with_area, with_each};

use crate::joining::join;
use std::alloc::Global;
use sw_map::CrackerMap;
use sw_query::{Query, Refusal, Reply, Want};
use sw_set::{Area, nothing};

/// What no set of maps is.
pub(crate) const UNKNOWN: u64 = 0;

/// The attributes that a query tests, a bit for each.
fn attributes_tested(query: &Query) -> u64 {
    let mut tested = 0;
    for cond in query.conds.as_slice() {
        tested |= 1 << (cond.attr % 8);
    }
    tested
}

/// The attributes that are shown or aggregated, a bit for each.
fn attributes_wanted(want: &Want) -> u64 {
    match want {
        Want::Rows(names) => {
            let mut shown = 0;
            for name in names.as_slice() {
                shown |= 1 << (*name % 8);
            }
            shown
        }
        Want::Count => 0,
        Want::Sum(attr) | Want::Min(attr) | Want::Max(attr) => 1 << (*attr % 8),
    }
}

/// Which maps a query uses: a bit for each attribute, and above them one for each area that it touches.
pub(crate) fn maps_used<M: CrackerMap>(areas: &[Area<M>], query: &Query) -> u64 {
    let mut used = attributes_tested(query) | attributes_wanted(&query.want);
    for k in 0..areas.len() {
        if areas[k].touches(query) {
            used |= 256 << (k % 16);
        }
    }
    used
}

/// The reply of an area that the query touches, if it is ready for it as it stands; the maps used are stamped with a number,
/// if there is one.
fn reply_at_rest<M: CrackerMap>(
    area: &Area<M>,
    now: Option<u64>,
    query: &Query,
) -> Result<Option<Reply>, Refusal>
    requires touched { is_touched area.now query.now ≡ true }
    requires asks { AsksBelow 8 query.now }
    requires head { head_in query.now.conds ≡ area.now.attribute }
    ensures rests { IfOk result (IsToldWhere (IsAtRest query.now area.now)) }
    ensures answered { IfOk result (λ it. IfSome it (λ reply. reply ≡ answer (rows_in area.now) query.now)) }
    ensures refused { IsOkUnless result NoMemory }
{
    let Some(ready) = area.ready_at_rest(query)? else {
        return Ok(None);
    };
    if let Some(now) = now {
        area.note_use(query, now);
    }
    let reply = area.collect(&ready, query)?;
    Ok(Some(reply))
}

/// A reply, with that of one area more if the query touches it, where that area is ready for it as it stands.
fn add_at_rest<M: CrackerMap>(
    alloc: Global,
    area: &Area<M>,
    now: Option<u64>,
    query: &Query,
    first: Reply,
) -> Result<Option<Reply>, Refusal>
    requires asks { AsksBelow 8 query.now }
    requires head { head_in query.now.conds ≡ area.now.attribute }
    requires fits { AreaFits query.now first area.now }
    ensures rests { IfOk result (IsToldWhere (RestsIfTouched query.now area.now)) }
    ensures answered { IfOk result (λ it. IfSome it (λ reply. reply ≡ with_area query.now first area.now)) }
    ensures refused { IsOkUnless result NoMemory }
{
    if !area.touches(query) {
        return Ok(Some(first));
    }
    let Some(reply) = reply_at_rest(area, now, query)? else {
        return Ok(None);
    };
    let both = join(alloc, &query.want, first, reply)?;
    Ok(Some(both))
}

/// The replies of the areas that a query touches, put together, if each of these is ready for it as it stands.
pub(crate) fn answer_resting<M: CrackerMap>(
    alloc: Global,
    areas: &[Area<M>],
    now: Option<u64>,
    query: &Query,
) -> Result<Option<Reply>, Refusal>
    requires asks { AsksBelow 8 query.now }
    requires head { All (λ (x : AreaState). head_in query.now.conds ≡ x.attribute) areas.now }
    requires fits { AreasFit query.now (answer_over [] query.now.want) areas.now }
    ensures rests { IfOk result (IsToldWhere (AreAtRest query.now areas.now)) }
    ensures answered { IfOk result (λ it. IfSome it (λ r. r ≡ with_each query.now areas.now)) }
    ensures refused { IsOkUnless result NoMemory }
{
    let mut reply = nothing(alloc, &query.want);
    for k in 0..areas.len() {
        let Some(both) = add_at_rest(alloc, &areas[k], now, query, reply)? else {
            return Ok(None);
        };
        reply = both;
    }
    Ok(Some(reply))
}
