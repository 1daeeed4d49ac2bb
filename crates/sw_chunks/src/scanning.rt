//! A query over areas by scans: each that it touches is merged and its rows are gone over, from the lowest.

ghost use Rattle.std.specs.Prelude.{◌≡◌, [], false, IfOk, IsOkUnless};
ghost use Rattle.sw_query.specs.Scan.{AsksBelow, answer, answer_over};
ghost use Rattle.sw_query.specs.declared.refusal.Refusal.TheVariants.{NoMemory};
ghost use Rattle.sw_set.specs.Merged.{StandsForSame};
ghost use Rattle.sw_set.specs.Prepared.{is_touched};
ghost use Rattle.sw_set.specs.Shelf.{rows_in};
ghost use Rattle.sw_chunks.specs.Cleared.{AreEach};
ghost use Rattle.sw_chunks.specs.Heads.{AreUntouchedSame};
ghost use Rattle.sw_chunks.specs.Asked.{AreaFits, AreasFit, with_area, with_each};

use crate::joining::join;
use std::alloc::Global;
use sw_map::CrackerMap;
use sw_query::{Query, Refusal, Reply};
use sw_set::{Area, nothing};

/// Merges an area and scans it.
fn scan_one<M: CrackerMap>(area: &mut Area<M>, query: &Query) -> Result<Reply, Refusal>
    requires asks { AsksBelow 8 query.now }
    ensures same { StandsForSame area.old area.new }
    ensures answered { IfOk result (λ r. r ≡ answer (rows_in area.old) query.now) }
    ensures refused { IsOkUnless result NoMemory }
{
    let merged = area.merge();
    area.trim();
    merged?;
    area.scan(query)
}

/// A reply, with that of one area more if the query touches it.
fn add_scan<M: CrackerMap>(
    alloc: Global,
    area: &mut Area<M>,
    query: &Query,
    first: Reply,
) -> Result<Reply, Refusal>
    requires asks { AsksBelow 8 query.now }
    requires fits { AreaFits query.now first area.old }
    ensures same { StandsForSame area.old area.new }
    ensures kept { is_touched area.old query.now ≡ false → area.new ≡ area.old }
    ensures answered { IfOk result (λ r. r ≡ with_area query.now first area.old) }
    ensures refused { IsOkUnless result NoMemory }
{
    if !area.touches(query) {
        return Ok(first);
    }
    let reply = scan_one(area, query)?;
    join(alloc, &query.want, first, reply)
}

/// The replies of the areas that a query touches, put together.
pub(crate) fn scan_areas<M: CrackerMap>(
    alloc: Global,
    areas: &mut [Area<M>],
    query: &Query,
) -> Result<Reply, Refusal>
    requires asks { AsksBelow 8 query.now }
    requires fits { AreasFit query.now (answer_over [] query.now.want) areas.old }
    ensures same { AreEach StandsForSame areas.old areas.new }
    ensures kept { AreUntouchedSame query.now areas.old areas.new }
    ensures answered { IfOk result (λ r. r ≡ with_each query.now areas.old) }
    ensures refused { IsOkUnless result NoMemory }
{
    let mut reply = nothing(alloc, &query.want);
    for k in 0..areas.len() {
        reply = add_scan(alloc, &mut areas[k], query, reply)?;
    }
    Ok(reply)
}
