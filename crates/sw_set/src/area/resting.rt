//! An area that is ready for a query as it stands, so that many may be answered from it at a time.

ghost use Rattle.std.specs.Prelude.{◌≡◌, true, Decides, IfOk, IfSome};
ghost use Rattle.sw_query.specs.Outcomes.{MemoryAside};
ghost use Rattle.sw_set.specs.Prepared.{IsPreparedFor, IsReady, StandReady, is_touched};
ghost use Rattle.sw_set.specs.Resting.{IsAtRest, IsToldWhere};
ghost use Rattle.sw_set.specs.Sought.{FindsHeld};

use crate::area::Area;
use crate::area::ready::Ready;
use crate::prepare::{all_stand, range_of};
use crate::reply::finding::is_ready;
use sw_map::{CrackerMap, Tail};
use sw_query::{Query, Refusal};
use sw_tape::Tape;

/// The box that has the map of a tail at the tape's end, if one has it.
pub(crate) fn find_at_end<M: CrackerMap>(boxes: &[M], tail: Tail, tape: &Tape) -> Option<usize>
    ensures { FindsHeld M.held (λ m. ¬ IsReady tail tape.now m) (IsReady tail tape.now) boxes.now result }
{
    for at in 0..boxes.len() {
        if is_ready(&boxes[at], tail, tape) {
            return Some(at);
        }
    }
    None
}

/// Whether of each of these tails a map stands at the tape's end.
fn stand_ready<M: CrackerMap>(area: &Area<M>, tails: &[Tail]) -> bool
    ensures { Decides result (StandReady tails.now area.now.tape area.now.boxes) }
{
    for at in 0..tails.len() {
        let tail = tails[at];
        if area.at_end(tail).is_none() {
            return false;
        }
    }
    true
}

impl<M: CrackerMap> Area<M> {
    /// Where the rows of a query stand in an area that it touches, if the area is ready for it as it stands: nothing
    /// waits, both bounds stand in ranges of the tape, and each map that the query needs stands at the tape's end. The one
    /// refusal is `NoMemory`.
    pub fn ready_at_rest(&self, query: &Query) -> Result<Option<Ready>, Refusal>
        requires { is_touched self.now query.now ≡ true }
        ensures rests { MemoryAside result (IsToldWhere (IsAtRest query.now self.now)) }
        ensures ready { IfOk result (λ it. IfSome it (λ r. IsPreparedFor query.now self.now r.from r.upto)) }
    {
        let (lower, upper) = self.bounds_of(query);
        if self.waiting().len() > 0 || !all_stand(self, lower, upper) {
            return Ok(None);
        }
        let tails = self.tails_for(query)?;
        if !stand_ready(self, tails.as_slice()) {
            return Ok(None);
        }
        Ok(Some(range_of(self, lower, upper, tails.as_slice())))
    }

    /// Stamps the boxes whose maps a query needs with a number, as preparing it does, by who shares the area. Where there is
    /// no memory for it, none is stamped. No clause speaks of stamps.
    pub fn note_use(&self, query: &Query, now: u64) {
        if let Ok(tails) = self.tails_for(query) {
            self.stamp_by(tails.as_slice(), now);
        }
    }
}
