//! Alignment: maps replay the tape up to its end.

ghost use Rattle.std.specs.Prelude.{◌≡◌, ◌<◌, ◌≤◌, ◌↔◌, length, min, All, Contains, IsTrue, OnErr};
ghost use Rattle.sw_table.specs.declared.row.Row.{Row};
ghost use Rattle.sw_kernel.specs.Replay.{Step};
ghost use Rattle.sw_kernel.specs.Tapes.{peak_from};
ghost use Rattle.sw_map.specs.Held.{KeysFit};
ghost use Rattle.sw_map.specs.Lawful.{IsAligned, IsLawful};
ghost use Rattle.sw_query.specs.Outcomes.{MemoryAside};
ghost use Rattle.sw_set.specs.Aligning.{AlignsBoxes, HasAlignedOr, MayAlign};
ghost use Rattle.sw_set.specs.Aligned.{HasRoomWhereNeeded, IsAtEnd, IsSameMap, IsStalled};

use crate::prepare::course::Course;
use sw_map::{CrackerMap, Tail};
use sw_query::Refusal;
use sw_tape::Tape;

/// Steps a map that lags behind a cursor up to it, or to the end of the tape, if that comes first. Refused `NoMemory`, it had
/// entries to replay, and stands at the cursor that it reached.
#[tactic(auto, using(crate::proofs::Areas::Boxes::stalled_at))]
pub(crate) fn step_upto<M: CrackerMap>(it: &mut M, tape: &Tape, upto: usize) -> Result<(), Refusal>
    requires aligned { IsAligned (M.held it.old).head tape.now (M.held it.old) }
    requires keys { All (λ (e : Step Row). KeysFit e) tape.now }
    requires room { peak_from 0 tape.now ≤ (M.held it.old).cells }
    ensures aligned { IsAligned (M.held it.old).head tape.now (M.held it.new) }
    ensures same { IsSameMap (M.held it.old) (M.held it.new) }
    ensures ends { MemoryAside result (λ _. min upto (length tape.now) ≤ (M.held it.new).cursor) }
    ensures behind { OnErr result ((M.held it.old).cursor < length tape.now) }
    ensures stalled { OnErr result (IsStalled M.stalls tape.now) }
{
    for i in it.cursor()..upto.min(tape.len()) {
        if let Some(entry) = tape.get(i) {
            it.step(entry)?;
        }
    }
    Ok(())
}

/// Steps a map to the end of the tape. Refused `NoMemory`, it had entries to replay, and stands at the cursor that it
/// reached.
pub(crate) fn align_map<M: CrackerMap>(it: &mut M, tape: &Tape) -> Result<(), Refusal>
    requires aligned { IsAligned (M.held it.old).head tape.now (M.held it.old) }
    requires keys { All (λ (e : Step Row). KeysFit e) tape.now }
    requires room { peak_from 0 tape.now ≤ (M.held it.old).cells }
    ensures aligned { IsAligned (M.held it.old).head tape.now (M.held it.new) }
    ensures same { IsSameMap (M.held it.old) (M.held it.new) }
    ensures ends { MemoryAside result (λ _. (M.held it.new).cursor ≡ length tape.now) }
    ensures behind { OnErr result ((M.held it.old).cursor < length tape.now) }
    ensures stalled { OnErr result (IsStalled M.stalls tape.now) }
{
    step_upto(it, tape, tape.len())
}

/// Whether a tail is among those that are needed.
pub(crate) fn is_needed(tails: &[Tail], tail: Tail) -> bool
    ensures { IsTrue result ↔ Contains tails.now tail }
{
    tails.contains(&tail)
}

/// Steps one box to the tape's end where it holds a map that is needed.
pub(crate) fn align_box<M: CrackerMap>(it: &mut M, course: &Course<'_>) -> Result<(), Refusal>
    requires lawful { IsLawful course.now.attribute course.now.tape.now (M.held it.old) }
    requires room { HasRoomWhereNeeded course.now.tails.now course.now.tape.now (M.held it.old) }
    ensures lawful { IsLawful course.now.attribute course.now.tape.now (M.held it.new) }
    ensures same { IsSameMap (M.held it.old) (M.held it.new) }
    ensures ends { MemoryAside result (λ _. IsAtEnd course.now.tails.now course.now.tape.now (M.held it.new)) }
{
    if it.is_blank() {
        return Ok(());
    }
    if !is_needed(course.tails, it.tail()) {
        return Ok(());
    }
    align_map(it, course.tape)
}

/// Aligns boxes by a function that does so.
pub(crate) fn align_boxes<
    M: CrackerMap,
    F: Fn(u8, &mut [M], &[Tail], &Tape) -> Result<(), Refusal>,
>(align: &F, attribute: u8, boxes: &mut [M], tails: &[Tail], tape: &Tape) -> Result<(), Refusal>
    requires aligns { AlignsBoxes F.Fn align.now M.held }
    requires may { MayAlign M.held attribute tails.now tape.now boxes.old }
    ensures { HasAlignedOr result M.held attribute tails.now tape.now boxes.old boxes.new }
{
    align(attribute, boxes, tails, tape)
}
