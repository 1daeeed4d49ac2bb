//! Where the columns that a query needs stand.

ghost use Rattle.std.specs.Prelude.{ℕ, ◌<◌, map, length, slice_index_or, Any, All, Decides};
ghost use Rattle.sw_query.specs.Scan.{column};
ghost use Rattle.sw_set.specs.Choice.{AreStocked, HasCells, HasColumn, IsColumn, shown_rows};
ghost use Rattle.sw_set.specs.Prepared.{IsReady};

use crate::reply::window::{Column, Side};
use sw_map::{CrackerMap, Tail};
use sw_tape::Tape;

/// Whether a box has the map of a tail at the tape's end.
pub(crate) fn is_ready<M: CrackerMap>(it: &M, tail: Tail, tape: &Tape) -> bool
    ensures { Decides result (IsReady tail tape.now (M.held it.now)) }
{
    !it.is_blank() && it.tail() == tail && it.cursor() == tape.len()
}

/// The box that has the map of a tail at the tape's end.
pub(crate) fn find_ready<M: CrackerMap>(boxes: &[M], tail: Tail, tape: &Tape) -> usize
    requires { Any (IsReady tail tape.now) (map M.held boxes.now) }
    ensures inside { result < length boxes.now }
    ensures ready { (d : M) → IsReady tail tape.now (M.held (slice_index_or boxes.now result d)) }
{
    for at in 0..boxes.len() {
        if is_ready(&boxes[at], tail, tape) {
            return at;
        }
    }
    unreachable!()
}

/// Where the cells of an attribute stand.
pub(crate) fn column_of<M: CrackerMap>(boxes: &[M], head: u8, tape: &Tape, attr: usize) -> Column
    requires few { attr < 8 }
    requires stocked { AreStocked head tape.now (map M.held boxes.now) }
    requires cells { HasCells head tape.now (map M.held boxes.now) attr }
    ensures { IsColumn (map M.held boxes.now) result (column attr (shown_rows head tape.now)) }
{
    if attr == head as usize {
        return Column {
            at: find_ready(boxes, Tail::Key, tape),
            side: Side::Head,
        };
    }
    Column {
        at: find_ready(boxes, Tail::Cell(attr as u8), tape),
        side: Side::Tail,
    }
}

/// Where the cells of each of some attributes stand, by the attribute's number.
pub(crate) fn columns_of<M: CrackerMap>(
    boxes: &[M],
    head: u8,
    tape: &Tape,
    names: &[usize],
) -> [Column; 8]
    requires few { All (λ (a : ℕ). a < 8) names.now }
    requires stocked { AreStocked head tape.now (map M.held boxes.now) }
    requires cells { All (HasCells head tape.now (map M.held boxes.now)) names.now }
    ensures { All (HasColumn (map M.held boxes.now) result (shown_rows head tape.now)) names.now }
{
    let mut columns = [Column {
        at: 0,
        side: Side::Head,
    }; 8];
    for name in names {
        columns[*name] = column_of(boxes, head, tape, *name);
    }
    columns
}
