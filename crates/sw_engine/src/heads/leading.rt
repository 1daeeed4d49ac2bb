//! A query with another attribute as its head.

ghost use Rattle.std.specs.Prelude.{◌≡◌, ◌<◌, IfOk, IsOkUnless};
ghost use Rattle.sw_query.specs.Scan.{AsksBelow, answer};
ghost use Rattle.sw_table.specs.Updates.{rows_of};
ghost use Rattle.sw_query.specs.declared.refusal.Refusal.TheVariants.{NoMemory};
ghost use Rattle.sw_chunks.specs.Heads.{IsSameHead};
ghost use Rattle.sw_engine.specs.Leading.{led_by};

use crate::conds::add_all;
use std::alloc::{AllocError, Global};
use sw_chunks::Head;
use sw_map::CrackerMap;
use sw_rows::{Cond, Conds, Query, Refusal, Reply};

/// The query with one condition more, put first, which every row meets: its head is that attribute, and its answer the same.
fn led_by(alloc: Global, attribute: u8, query: &Query) -> Result<Query, AllocError>
    ensures { IfOk result (λ q. q ≡ led_by attribute query.now) }
{
    let mut conds = Conds::new(alloc);
    conds.push(Cond {
        attr: usize::from(attribute),
        lower: None,
        upper: None,
    })?;
    add_all(&mut conds, query.conds.as_slice())?;
    let want = query.want.copied(alloc)?;
    Ok(Query { conds, want })
}

/// The answer of a head to a query whose head is perhaps another attribute, by a scan. The one refusal is `NoMemory`.
pub(crate) fn scan_led<M: CrackerMap>(
    alloc: Global,
    head: &mut Head<M>,
    query: &Query,
) -> Result<Reply, Refusal>
    requires asks { AsksBelow 8 query.now }
    requires attribute { head.old.attribute < 8 }
    ensures same { IsSameHead head.old head.new }
    ensures answered { IfOk result (λ r. r ≡ answer (rows_of head.old.updates) query.now) }
    ensures refused { IsOkUnless result NoMemory }
{
    match led_by(alloc, head.attribute(), query) {
        Ok(led) => head.scan(&led),
        Err(_) => Err(Refusal::NoMemory),
    }
}
