//! Alignment of two maps together: those of one head that stand at one cursor have the same heads in the same pieces, so
//! an entry does to the one what it does to the other.

ghost use Rattle.std.specs.Prelude.{◌≡◌, ◌<◌, ◌≤◌, length, All};
ghost use Rattle.sw_table.specs.declared.row.Row.{Row};
ghost use Rattle.sw_kernel.specs.Replay.{Step};
ghost use Rattle.sw_kernel.specs.Tapes.{peak_from};
ghost use Rattle.sw_map.specs.Held.{KeysFit};
ghost use Rattle.sw_tape.specs.Entries.{step_of};
ghost use Rattle.sw_map.specs.Lawful.{IsAligned, IsLawful};
ghost use Rattle.sw_map.specs.Twins.{HaveSameHeads, MayStep};
ghost use Rattle.sw_set.specs.Aligned.{HasRoomWhereNeeded, HasSteppedIf, IsSameMap, KeepMaps};
ghost use Rattle.sw_set.specs.Sought.{IsAt, IsNeeded};

use crate::prepare::align::{align_map, step_upto};
use crate::prepare::course::Course;
use sw_map::CrackerMap;
use sw_tape::{Entry, Tape};

/// Replays an entry in two maps together, and tells of each whether it took it. One that was refused is as it was.
fn step_two<M: CrackerMap>(it: &mut M, twin: &mut M, entry: &Entry) -> (bool, bool)
    requires may { MayStep (step_of entry.now) (M.held it.old) × MayStep (step_of entry.now) (M.held twin.old) }
    requires keys { KeysFit (step_of entry.now) }
    requires same { HaveSameHeads (M.held it.old).pairs (M.held twin.old).pairs }
    ensures stepped { HasSteppedIf result.0 (step_of entry.now) (M.held it.old) (M.held it.new) }
    ensures twin_stepped { HasSteppedIf result.1 (step_of entry.now) (M.held twin.old) (M.held twin.new) }
{
    let (done, twin_done) = it.step_both(twin, entry);
    (done.is_ok(), twin_done.is_ok())
}

/// Steps two maps that stand at one cursor together, towards the tape's end, until a step of one is refused, and tells of each
/// whether its last step was not.
fn step_together<M: CrackerMap>(
    attribute: u8,
    it: &mut M,
    twin: &mut M,
    tape: &Tape,
) -> (bool, bool)
    requires aligned { IsAligned attribute tape.now (M.held it.old) }
    requires twin_aligned { IsAligned attribute tape.now (M.held twin.old) }
    requires level { (M.held twin.old).cursor ≡ (M.held it.old).cursor }
    requires keys { All (λ (e : Step Row). KeysFit e) tape.now }
    requires room { peak_from 0 tape.now ≤ (M.held it.old).cells }
    requires twin_room { peak_from 0 tape.now ≤ (M.held twin.old).cells }
    ensures aligned { IsAligned attribute tape.now (M.held it.new) }
    ensures same { IsSameMap (M.held it.old) (M.held it.new) }
    ensures twin_aligned { IsAligned attribute tape.now (M.held twin.new) }
    ensures twin_same { IsSameMap (M.held twin.old) (M.held twin.new) }
{
    for i in it.cursor()..tape.len() {
        if let Some(entry) = tape.get(i) {
            let (took, twin_took) = step_two(it, twin, entry);
            if !(took && twin_took) {
                return (took, twin_took);
            }
        }
    }
    (true, true)
}

/// Steps a map to the tape's end, unless a step of it was refused before.
fn go_on<M: CrackerMap>(took: bool, it: &mut M, tape: &Tape)
    requires aligned { IsAligned (M.held it.old).head tape.now (M.held it.old) }
    requires keys { All (λ (e : Step Row). KeysFit e) tape.now }
    requires room { peak_from 0 tape.now ≤ (M.held it.old).cells }
    ensures aligned { IsAligned (M.held it.old).head tape.now (M.held it.new) }
    ensures same { IsSameMap (M.held it.old) (M.held it.new) }
{
    if took {
        let _ = align_map(it, tape);
    }
}

/// Steps two maps towards the tape's end: the one that lags up to the other's cursor, and from there on both together. One
/// whose step is refused stops, and the other goes on alone.
fn align_twins<M: CrackerMap>(attribute: u8, it: &mut M, twin: &mut M, tape: &Tape)
    requires aligned { IsAligned attribute tape.now (M.held it.old) }
    requires twin_aligned { IsAligned attribute tape.now (M.held twin.old) }
    requires keys { All (λ (e : Step Row). KeysFit e) tape.now }
    requires room { peak_from 0 tape.now ≤ (M.held it.old).cells }
    requires twin_room { peak_from 0 tape.now ≤ (M.held twin.old).cells }
    ensures aligned { IsAligned attribute tape.now (M.held it.new) }
    ensures same { IsSameMap (M.held it.old) (M.held it.new) }
    ensures twin_aligned { IsAligned attribute tape.now (M.held twin.new) }
    ensures twin_same { IsSameMap (M.held twin.old) (M.held twin.new) }
{
    let mut took = step_upto(it, tape, twin.cursor()).is_ok();
    let mut twin_took = step_upto(twin, tape, it.cursor()).is_ok();
    // (the cursors differ where one was refused)
    if it.cursor() == twin.cursor() {
        (took, twin_took) = step_together(attribute, it, twin, tape);
    }
    go_on(took, it, tape);
    go_on(twin_took, twin, tape);
}

/// Steps the boxes at two places together, towards the tape's end.
pub(crate) fn step_twins<M: CrackerMap>(
    boxes: &mut [M],
    at: usize,
    twin: usize,
    course: &Course<'_>,
)
    requires lawful { All (λ m. IsLawful course.now.attribute course.now.tape.now (M.held m)) boxes.old }
    requires room { All (λ m. HasRoomWhereNeeded course.now.tails.now course.now.tape.now (M.held m)) boxes.old }
    requires needed { IsAt (λ m. IsNeeded course.now.tails.now (M.held m)) boxes.old at }
    requires behind { at < twin }
    requires twin { IsAt (λ m. IsNeeded course.now.tails.now (M.held m)) boxes.old twin }
    ensures lawful { All (λ m. IsLawful course.now.attribute course.now.tape.now (M.held m)) boxes.new }
    ensures many { length boxes.new ≡ length boxes.old }
    ensures same { KeepMaps M.held boxes.old boxes.new }
{
    let (front, back) = boxes.split_at_mut(twin);
    align_twins(course.attribute, &mut front[at], &mut back[0], course.tape);
}
