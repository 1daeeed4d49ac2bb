//! Orders of calls whose keys are whatever a store gave.

ghost use Rattle.std.specs.Prelude.{length, IfOk, IfSome, IsOkUnless};
ghost use Rattle.sw_logs.specs.Openings.{IsOpening};
ghost use Rattle.sw_logs.specs.Orders.{AllFit};
ghost use Rattle.sw_keys.specs.Renamings.{IsRenamedOrder, IsRenaming};

use crate::renaming::{Names, are_once, keep_first, places_of, renamed_calls};
use std::alloc::{AllocError, Global};
use sw_logs::{By, Logged, Opening, Order, Placed, check_order};
use sw_rows::Refusal;

/// Calls in an order that may be one, with the keys that the store gave.
#[derive(Drop)]
pub struct Named {
    pub placed: Placed,
    /// The store's keys: the first becomes 1, the second 2, and so on. Those of the opening rows come first and keep their
    /// numbers; then those of the inserts that were placed, in their order; then others that calls name.
    pub names: Vec<u64>,
}

/// The calls under the new keys, if the renaming is one to one and keeps the keys of so many opening rows.
fn calls_under(
    alloc: Global,
    names: &[u64],
    count: usize,
    calls: &[Logged],
) -> Result<Option<Vec<Logged>>, AllocError>
    ensures { IfOk result (λ o. IfSome o (λ new. IsRenaming names.now count calls.now new.items)) }
{
    let places = places_of(alloc, names)?;
    let once = are_once(names, &places);
    if !once {
        return Ok(None);
    }
    let kept = keep_first(names, count);
    if !kept {
        return Ok(None);
    }
    let known = Names {
        keys: names,
        places: &places,
    };
    let made = renamed_calls(alloc, &known, calls)?;
    let Some(new) = made else {
        return Ok(None);
    };
    Ok(Some(new))
}

/// The order of the calls under their new keys, where it is one: `check_order` of the calls in which each key is renamed
/// and the rows of each reply stand in the order of their new keys. None also where a key stands twice among the names, the
/// opening rows' are not the first, or a call or a reply has one that is not among them.
///
/// The history that is answered is legal. The one refusal is `NoMemory`. The caller's condition: calls name attributes of
/// the table.
pub fn check_renamed_order(
    alloc: Global,
    opening: Opening,
    calls: &[Logged],
    by: By,
    named: Named,
) -> Result<Option<Order>, Refusal>
    requires table { IsOpening opening }
    requires fit { AllFit (length opening.schema) calls.now }
    ensures found { IfOk result (λ o. IfSome o (IsRenamedOrder by opening calls.now)) }
    ensures refused { IsOkUnless result Refusal.NoMemory }
{
    let count = opening.rows.len();
    let under = match calls_under(alloc, named.names.as_slice(), count, calls) {
        Ok(under) => under,
        Err(_) => return Err(Refusal::NoMemory),
    };
    let Some(renamed) = under else {
        return Ok(None);
    };
    check_order(alloc, opening, renamed.as_slice(), by, named.placed)
}
