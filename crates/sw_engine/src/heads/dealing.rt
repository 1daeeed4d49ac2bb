//! Boxes dealt out among heads.

ghost use Rattle.std.specs.Prelude.{◌≡◌, ◌<◌, length, All, IsOkUnless};
ghost use Rattle.sw_query.specs.declared.refusal.Refusal.TheVariants.{NoMemory};
ghost use Rattle.sw_map.specs.Held.{blank};

use crate::engine::Engine;
use crate::heads::latch::LatchedHead;
use crate::heads::latching::Latch;
use std::sync::Wait;
use sw_map::CrackerMap;
use sw_rows::Refusal;
use sw_versions::Naming;

/// Whose turn it is, of so many.
#[tactic(auto, using(crate::proofs::Turns::turn_below))]
fn turn(number: usize, many: usize) -> usize
    requires { 0 < many }
    ensures { result < many }
{
    number % many
}

/// Deals boxes out: box i, from 0, goes to the head of attribute i mod n, where there are n attributes. Refused `NoMemory`
/// alone; the boxes that were dealt before stay.
pub fn deal<J: Naming, M: CrackerMap, L: Latch<LatchedHead<J, M>>, R: Wait>(
    rt: &R,
    engine: &Engine<J, M, L>,
    columns: usize,
    maps: Vec<M>,
) -> Result<(), Refusal>
    requires columns { (columns ≡ length J.columns) × (0 < columns) }
    requires blank { All (λ m. M.held m ≡ blank) maps.items }
    ensures { IsOkUnless result NoMemory }
{
    let mut dealt = 0usize;
    for it in maps {
        if engine.supply(rt, turn(dealt, columns), it).is_err() {
            return Err(Refusal::NoMemory);
        }
        dealt = dealt.wrapping_add(1);
    }
    Ok(())
}
