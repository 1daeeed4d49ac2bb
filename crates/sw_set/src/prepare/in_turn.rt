//! Alignment of several maps in turn: no thread is started, and none is linked.

ghost use Rattle.std.specs.Prelude.{◌≡◌, ◌<◌, ◌≤◌, length, map, All};
ghost use Rattle.sw_table.specs.declared.row.Row.{Row};
ghost use Rattle.sw_kernel.specs.Replay.{Step};
ghost use Rattle.sw_map.specs.Held.{KeysFit};
ghost use Rattle.sw_map.specs.Lawful.{IsLawful};
ghost use Rattle.sw_set.specs.Aligned.{AreSameMaps, HasRoomWhereNeeded, IsAtEnd, KeepMaps};
ghost use Rattle.sw_query.specs.Outcomes.{MemoryAside};
ghost use Rattle.sw_set.specs.Sought.{IsAt, IsNeeded};

use crate::prepare::align::align_box;
use crate::prepare::course::Course;
use crate::prepare::lacking::{all_came, find_lacking};
use crate::prepare::twins::step_twins;
use sw_map::{CrackerMap, Tail};
use sw_query::Refusal;
use sw_tape::Tape;

/// Steps the box at a place towards the tape's end, together with the next one that lacks entries, if there is one, and answers
/// the place behind what it stepped. A box whose step is refused stops at the cursor that it reached.
fn step_next<M: CrackerMap>(boxes: &mut [M], at: usize, course: &Course<'_>) -> usize
    requires lawful { All (λ m. IsLawful course.now.attribute course.now.tape.now (M.held m)) boxes.old }
    requires room { All (λ m. HasRoomWhereNeeded course.now.tails.now course.now.tape.now (M.held m)) boxes.old }
    requires needed { IsAt (λ m. IsNeeded course.now.tails.now (M.held m)) boxes.old at }
    ensures lawful { All (λ m. IsLawful course.now.attribute course.now.tape.now (M.held m)) boxes.new }
    ensures many { length boxes.new ≡ length boxes.old }
    ensures same { KeepMaps M.held boxes.old boxes.new }
    ensures behind { (at < result) × (result ≤ length boxes.old) }
{
    let Some(twin) = find_lacking(boxes, at + 1, course.tails, course.tape.len()) else {
        let _ = align_box(&mut boxes[at], course);
        return at + 1;
    };
    step_twins(boxes, at, twin, course);
    twin + 1
}

/// Steps the boxes that lack entries towards the tape's end, two together, and a last one alone. A box whose step is refused
/// stops at the cursor that it reached, and the others go on.
pub(crate) fn step_in_turn<M: CrackerMap>(boxes: &mut [M], course: &Course<'_>)
    requires lawful { All (λ m. IsLawful course.now.attribute course.now.tape.now (M.held m)) boxes.old }
    requires room { All (λ m. HasRoomWhereNeeded course.now.tails.now course.now.tape.now (M.held m)) boxes.old }
    ensures lawful { All (λ m. IsLawful course.now.attribute course.now.tape.now (M.held m)) boxes.new }
    ensures many { length boxes.new ≡ length boxes.old }
    ensures same { KeepMaps M.held boxes.old boxes.new }
{
    let mut from = 0;
    'boxes: while let Some(at) = find_lacking(boxes, from, course.tails, course.tape.len()) {
        from = step_next(boxes, at, course);
    }
}

/// Steps every box that has a needed map to the tape's end, two together. Refused `NoMemory`, a box whose step was
/// refused stands at the cursor that it reached, and all others at the end.
pub fn align_in_turn<M: CrackerMap>(
    attribute: u8,
    boxes: &mut [M],
    tails: &[Tail],
    tape: &Tape,
) -> Result<(), Refusal>
    requires lawful { All (λ m. IsLawful attribute tape.now (M.held m)) boxes.old }
    requires keys { All (λ (e : Step Row). KeysFit e) tape.now }
    requires room { All (λ m. HasRoomWhereNeeded tails.now tape.now (M.held m)) boxes.old }
    ensures lawful { All (IsLawful attribute tape.now) (map M.held boxes.new) }
    ensures same { AreSameMaps (map M.held boxes.old) (map M.held boxes.new) }
    ensures ends { MemoryAside result (λ _. All (IsAtEnd tails.now tape.now) (map M.held boxes.new)) }
{
    let course = Course {
        attribute,
        tails,
        tape,
    };
    step_in_turn(boxes, &course);
    all_came(boxes, &course)
}
