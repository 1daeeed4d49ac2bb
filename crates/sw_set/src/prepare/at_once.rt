//! Alignment of several maps at once.

ghost use Rattle.std.specs.Prelude.{◌≡◌, ◌≤◌, length, map, All, IfSome};
ghost use Rattle.sw_table.specs.declared.row.Row.{Row};
ghost use Rattle.sw_kernel.specs.Replay.{Step};
ghost use Rattle.sw_map.specs.Held.{KeysFit};
ghost use Rattle.sw_map.specs.Lawful.{IsLawful};
ghost use Rattle.sw_set.specs.Aligned.{AreSameMaps, HasRoomWhereNeeded, IsAtEnd, IsSteppedFrom, KeepMaps, MayBeAligned};
ghost use Rattle.sw_query.specs.Outcomes.{MemoryAside};
ghost use Rattle.sw_set.specs.Sought.{IsBetween};

use crate::prepare::align::align_box;
use crate::prepare::course::Course;
use crate::prepare::in_turn::step_in_turn;
use crate::prepare::lacking::{all_came, lacks, lacks_much};
use std::thread;
use std::thread::Threads;
use sw_map::{CrackerMap, Tail};
use sw_query::Refusal;
use sw_tape::Tape;

/// Steps the first boxes at once, each towards the tape's end, after the others in turn; a single one is stepped by the
/// caller. A box whose step is refused stops at the cursor that it reached, and the others go on.
fn step_first<R: Threads + Sync, M: CrackerMap>(
    rt: &R,
    boxes: &mut [M],
    many: usize,
    course: &Course<'_>,
)
    requires lawful { All (λ m. IsLawful course.now.attribute course.now.tape.now (M.held m)) boxes.old }
    requires room { All (λ m. HasRoomWhereNeeded course.now.tails.now course.now.tape.now (M.held m)) boxes.old }
    requires within { many ≤ length boxes.old }
    ensures lawful { All (λ m. IsLawful course.now.attribute course.now.tape.now (M.held m)) boxes.new }
    ensures many { length boxes.new ≡ length boxes.old }
    ensures same { KeepMaps M.held boxes.old boxes.new }
{
    let (front, rest) = boxes.split_at_mut(many);
    step_in_turn(rest, course);
    let step = |_: usize, m: &mut M|
        requires { MayBeAligned course.now.attribute course.now.tape.now course.now.tails.now (M.held m.now) }
        ensures { IsSteppedFrom course.entry.now.attribute course.entry.now.tape.now (M.held m.entry.now) (M.held m.exit.now) }
    {
        let _ = align_box(m, course);
    };
    thread::for_each_mut(rt, front, many.max(1), &step);
}

/// The first box, from a place on, whose needed map lacks so much that a thread is worth its start.
fn find_much<M: CrackerMap>(boxes: &[M], from: usize, course: &Course<'_>) -> Option<usize>
    ensures { IfSome result (IsBetween from (length boxes.now)) }
{
    for at in from..boxes.len() {
        if lacks(&boxes[at], course.tails, course.tape.len())
            && lacks_much(&boxes[at], course.tape)
        {
            return Some(at);
        }
    }
    None
}

/// Brings the boxes that lack much to the front, from the place `done` on, steps all that are there at once and the
/// others in turn, and puts each back at its place.
fn step_lacking<R: Threads + Sync, M: CrackerMap>(
    rt: &R,
    boxes: &mut [M],
    done: usize,
    from: usize,
    course: &Course<'_>,
)
    requires lawful { All (λ m. IsLawful course.now.attribute course.now.tape.now (M.held m)) boxes.old }
    requires room { All (λ m. HasRoomWhereNeeded course.now.tails.now course.now.tape.now (M.held m)) boxes.old }
    requires done { done ≤ from }
    requires within { from ≤ length boxes.old }
    ensures lawful { All (λ m. IsLawful course.now.attribute course.now.tape.now (M.held m)) boxes.new }
    ensures many { length boxes.new ≡ length boxes.old }
    ensures same { KeepMaps M.held boxes.old boxes.new }
{
    match find_much(boxes, from, course) {
        None => step_first(rt, boxes, done, course),
        Some(at) => {
            boxes.swap(done, at);
            step_lacking(rt, boxes, done + 1, at + 1, course);
            boxes.swap(done, at);
        }
    }
}

/// Steps every box that has a needed map to the tape's end, those that lack much at once. Refused `NoMemory`, a box whose
/// step was refused stands at the cursor that it reached, and all others at the end.
pub fn align_at_once<R: Threads + Sync, M: CrackerMap>(
    rt: &R,
    attribute: u8,
    boxes: &mut [M],
    tails: &[Tail],
    tape: &Tape,
) -> Result<(), Refusal>
    requires lawful { All (λ m. IsLawful attribute tape.now (M.held m)) boxes.old }
    requires keys { All (λ (e : Step Row). KeysFit e) tape.now }
    requires room { All (λ m. HasRoomWhereNeeded tails.now tape.now (M.held m)) boxes.old }
    ensures lawful { All (IsLawful attribute tape.now) (map M.held boxes.new) }
    ensures same { AreSameMaps (map M.held boxes.old) (map M.held boxes.new) }
    ensures ends { MemoryAside result (λ _. All (IsAtEnd tails.now tape.now) (map M.held boxes.new)) }
{
    let course = Course {
        attribute,
        tails,
        tape,
    };
    step_lacking(rt, boxes, 0, 0, &course);
    all_came(boxes, &course)
}
