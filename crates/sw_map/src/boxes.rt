//! Blank boxes, as they are made for an area.

ghost use Rattle.std.specs.Prelude.{◌≡◌, All};
ghost use Rattle.sw_map.specs.Held.{blank};
ghost use Rattle.sw_map.specs.Refusals.{IsPushedOr};

use crate::cracker::CrackerMap;
use sw_query::Refusal;

/// Puts one more blank box behind blank boxes. Refused `NoMemory` alone; then the boxes are as they were, and this one
/// comes back.
pub fn push_blank<M: CrackerMap>(boxes: &mut Vec<M>, it: M) -> Result<(), (M, Refusal)>
    requires all { All (λ m. M.held m ≡ blank) boxes.old.items }
    requires one { M.held it ≡ blank }
    ensures pushed { IsPushedOr result it boxes.old.items boxes.new.items }
    ensures blank { All (λ m. M.held m ≡ blank) boxes.new.items }
{
    if boxes.reserve(1).is_err() {
        return Err((it, Refusal::NoMemory));
    }
    boxes.push_reserved(it);
    Ok(())
}
