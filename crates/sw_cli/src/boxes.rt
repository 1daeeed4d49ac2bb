//! The boxes that a run is handed.

ghost use Rattle.std.specs.Prelude.{◌≡◌, All, IfOk, IsOkUnless, length};
ghost use Rattle.sw_budget.specs.Account.{empty};
ghost use Rattle.sw_map.specs.Held.{blank};
ghost use Rattle.sw_map.specs.States.{seat_of};
ghost use Rattle.sw_query.specs.declared.refusal.Refusal.TheVariants.{NoMemory};

use std::alloc::Global;
use sw_budget::Budget;
use sw_map::{CrackerMap, PairMap, push_blank};
use sw_rows::Refusal;

/// So many blank maps, each with a purse of one budget of so many cells. The one refusal is `NoMemory`.
pub fn blank_boxes(alloc: Global, cells: u64, many: u64) -> Result<Vec<PairMap>, Refusal>
    ensures many { IfOk result (λ maps. length maps.items ≡ many) }
    ensures blank { IfOk result (λ maps. All (λ m. ⟦<PairMap as CrackerMap>⟧.held m ≡ blank) maps.items) }
    ensures budget { IfOk result (λ maps. (b : _) × All (λ m. seat_of m.home ≡ empty b cells) maps.items) }
    ensures refused { IsOkUnless result NoMemory }
{
    let Ok((_budget, mut purse)) = Budget::open(alloc, cells) else {
        return Err(Refusal::NoMemory);
    };
    let mut maps = Vec::new(alloc);
    for _ in 0..many {
        let Ok(mine) = purse.split() else {
            return Err(Refusal::NoMemory);
        };
        if push_blank(&mut maps, PairMap::blank(alloc, mine)).is_err() {
            return Err(Refusal::NoMemory);
        }
    }
    Ok(maps)
}
