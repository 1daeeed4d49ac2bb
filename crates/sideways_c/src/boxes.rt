//! The boxes that an engine is given for its maps.

ghost use Rattle.std.specs.Prelude.{◌≡◌, All, IfOk, IsOkUnless, length};
ghost use Rattle.sw_budget.specs.Account.{empty};
ghost use Rattle.sw_map.specs.Held.{blank};
ghost use Rattle.sw_map.specs.States.{seat_of};
ghost use Rattle.sw_query.specs.declared.refusal.Refusal.TheVariants.{NoMemory};

use std::alloc::Global;
use sw_budget::Budget;
use sw_map::{CrackerMap, PairMap, push_blank};
use sw_rows::Refusal;
use sw_solo::Solo;

/// So many blank maps, each with a purse of one budget of so many cells. The one refusal is `NoMemory`.
fn blank_boxes(alloc: Global, cells: u64, many: u64) -> Result<Vec<PairMap>, Refusal>
    ensures many { IfOk result (λ maps. length maps.items ≡ many) }
    ensures blank { IfOk result (λ maps. All (λ m. ⟦<PairMap as CrackerMap>⟧.held m ≡ blank) maps.items) }
    ensures budget { IfOk result (λ maps. (b : _) × All (λ m. seat_of m.home ≡ empty b cells) maps.items) }
    ensures refused { IsOkUnless result NoMemory }
{
    let Ok((_budget, mut purse)) = Budget::open(alloc, cells) else {
        return Err(Refusal::NoMemory);
    };
    let mut maps = Vec::new(alloc);
    for _ in 0..many {
        let Ok(mine) = purse.split() else {
            return Err(Refusal::NoMemory);
        };
        if push_blank(&mut maps, PairMap::blank(alloc, mine)).is_err() {
            return Err(Refusal::NoMemory);
        }
    }
    Ok(maps)
}

/// Gives an engine so many maps with one budget of so many cells, one head after another in turn. The one refusal is
/// `NoMemory`.
pub(crate) fn supply(
    alloc: Global,
    solo: &mut Solo<PairMap>,
    cells: u64,
    many: u64,
) -> Result<(), Refusal>
    ensures same { solo.new ≡ solo.old }
    ensures refused { IsOkUnless result NoMemory }
{
    let columns = solo.schema().len();
    let mut boxes = blank_boxes(alloc, cells, many)?;
    let mut head = 0usize;
    while let Some(it) = boxes.pop() {
        if solo.supply(head, it).is_err() {
            return Err(Refusal::NoMemory);
        }
        head = if head + 1 < columns { head + 1 } else { 0 };
    }
    Ok(())
}
