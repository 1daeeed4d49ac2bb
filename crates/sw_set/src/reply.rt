//! The answer of a query from boxes that stand at the tape's end.

ghost use Rattle.std.specs.Prelude.{◌≡◌, ◌<◌, ◌≤◌, [], map, length, pos, All, IsOk, IsOkUnless};
ghost use Rattle.sw_query.specs.declared.refusal.Refusal.TheVariants.{NoMemory};
ghost use Rattle.sw_query.specs.Scan.{AsksBelow, CondsBelow, WantsBelow, TakesMemory, answer_over, column, greatest, least, meets_all, total};
ghost use Rattle.sw_set.specs.Needs.{needed};
ghost use Rattle.sw_query.specs.Outcomes.{MemoryAside};
ghost use Rattle.sw_set.specs.Prepared.{StandReady};
ghost use Rattle.sw_set.specs.Choice.{AreFor, AreStocked, HasWanted, IsRangeOf, RangeHasCells, range_over, range_rows, shown_rows};
ghost use Rattle.sw_set.specs.Collected.{AnswersInOrder, AreOfFurther, IsListOf, IsReplyOver, chosen_rows};

pub(crate) mod choice;
pub(crate) mod finding;
pub(crate) mod replies;
pub(crate) mod totals;
pub(crate) mod window;

use crate::reply::choice::{Choice, refine_by};
use crate::reply::finding::{column_of, columns_of, find_ready};
use crate::reply::replies::{found_keys, rows_at, sort_by_key};
use crate::reply::window::{Side, Window};
use std::alloc::Global;
use std::marker::Model;
use sw_bits::Bits;
use sw_map::{CrackerMap, Tail};
use sw_query::{Cond, Query, Refusal, Reply, ReplyRows, Want};
use sw_tape::Tape;

/// A range of places, from one up to below another, of an area's maps at the tape's end. Other boxes may lag; one has the keys there.
/// Contracts see the tape, the maps and the places.
#[derive(Drop)]
pub(crate) struct ShownRange<'a, M: CrackerMap> {
    boxes: &'a [M],
    head: u8,
    tape: &'a Tape,
    from: usize,
    upto: usize,
}

impl<'a, M: CrackerMap> Model for ShownRange<'a, M> {
    ghost use Rattle.std.specs.Prelude.{map};
    ghost use Rattle.sw_set.specs.Choice.{IsLawfulRange, RangeState, range_over};
    ghost use Rattle.sw_set.specs.Codes.{range_code};

    ghost Value = { RangeState };

    ghost coded = { range_code };

    ghost view = { λ r. range_over r.head r.tape.now (map M.held r.boxes.now) r.from r.upto };

    ghost invariant = { λ r. IsLawfulRange (range_over r.head r.tape.now (map M.held r.boxes.now) r.from r.upto) };
}

impl<'a, M: CrackerMap> ShownRange<'a, M> {
    /// A range of places of these boxes' maps, which are of one head: from one place up to below another.
    pub fn new(
        boxes: &'a [M],
        head: u8,
        tape: &'a Tape,
        from: usize,
        upto: usize,
    ) -> ShownRange<'a, M>
        requires stocked { AreStocked head tape.now (map M.held boxes.now) }
        requires ordered { from ≤ upto }
        requires within { upto ≤ length (shown_rows head tape.now) }
        ensures { result ≡ range_over head tape.now (map M.held boxes.now) from upto }
    {
        ShownRange {
            boxes,
            head,
            tape,
            from,
            upto,
        }
    }

    /// How many rows there are.
    fn len(&self) -> usize
        ensures { result ≡ length (range_rows self.now) }
    {
        self.upto - self.from
    }

    /// The cells of an attribute of the range's rows, by place.
    fn cells(&self, attr: usize) -> Window<'a, M>
        requires few { attr < 8 }
        requires cells { RangeHasCells self.now attr }
        ensures { result ≡ column attr (range_rows self.now) }
    {
        let column = column_of(self.boxes, self.head, self.tape, attr);
        Window::new(&self.boxes[column.at], column.side, self.from, self.upto)
    }

    /// The keys of the range's rows, by place.
    fn keys(&self) -> Window<'a, M>
        ensures { result ≡ map (λ r. pos r.key) (range_rows self.now) }
    {
        let at = find_ready(self.boxes, Tail::Key, self.tape);
        Window::new(&self.boxes[at], Side::Tail, self.from, self.upto)
    }

    /// Which of the range's rows meet some conditions, by place.
    fn refined(&self, alloc: Global, conds: &[Cond]) -> Result<Bits, Refusal>
        requires few { CondsBelow 8 conds.now }
        requires cells { All (λ c. RangeHasCells self.now c.attr) conds.now }
        ensures { MemoryAside result (λ bits. bits ≡ map (meets_all conds.now) (range_rows self.now)) }
    {
        let mut bits = Bits::all(alloc, self.len())?;
        for cond in conds {
            let mut cells = self.cells(cond.attr);
            refine_by(&mut bits, &mut cells, cond);
        }
        Ok(bits)
    }

    /// Which rows meet the conditions after the first. It takes no memory where there is one condition at most.
    fn choose(&self, alloc: Global, conds: &[Cond]) -> Result<Choice, Refusal>
        requires few { CondsBelow 8 conds.now }
        requires cells { All (λ c. RangeHasCells self.now c.attr) conds.now }
        ensures chosen { MemoryAside result (λ c. AreOfFurther conds.now (range_rows self.now) c.bits) }
        ensures one { length conds.now ≤ 1 → IsOk result }
    {
        if conds.len() < 2 {
            return Ok(Choice { bits: None });
        }
        let (_, rest) = conds.split_at(1);
        let bits = self.refined(alloc, rest)?;
        Ok(Choice { bits: Some(bits) })
    }

    /// The chosen rows, in key order. It stands apart, as the next three do, so that a count, which needs no window, has none on its
    /// stack.
    #[inline(never)]
    fn select(&self, alloc: Global, names: &[usize], choice: &Choice) -> Result<ReplyRows, Refusal>
        requires few { All (λ a. a < 8) names.now }
        requires cells { All (RangeHasCells self.now) names.now }
        ensures { MemoryAside result (IsListOf names.now (chosen_rows self.now choice.now.bits)) }
    {
        let mut keys = self.keys();
        let mut found = found_keys(alloc, &mut keys, self.from, choice)?;
        sort_by_key(alloc, &mut found);
        let columns = columns_of(self.boxes, self.head, self.tape, names);
        rows_at(alloc, self.boxes, &columns, names, &found)
    }

    /// The sum of an attribute's cells over the chosen rows, 0 for none.
    #[inline(never)]
    fn sum(&self, attr: usize, choice: &Choice) -> i128
        requires few { attr < 8 }
        requires cells { RangeHasCells self.now attr }
        ensures { result ≡ total (column attr (chosen_rows self.now choice.now.bits)) }
    {
        let mut cells = self.cells(attr);
        totals::sum(&mut cells, choice)
    }

    /// The least of an attribute's cells over the chosen rows, if there is one.
    #[inline(never)]
    fn min(&self, attr: usize, choice: &Choice) -> Option<i64>
        requires few { attr < 8 }
        requires cells { RangeHasCells self.now attr }
        ensures { result ≡ least (column attr (chosen_rows self.now choice.now.bits)) }
    {
        let mut cells = self.cells(attr);
        totals::min(&mut cells, choice)
    }

    /// The greatest of an attribute's cells over the chosen rows, if there is one.
    #[inline(never)]
    fn max(&self, attr: usize, choice: &Choice) -> Option<i64>
        requires few { attr < 8 }
        requires cells { RangeHasCells self.now attr }
        ensures { result ≡ greatest (column attr (chosen_rows self.now choice.now.bits)) }
    {
        let mut cells = self.cells(attr);
        totals::max(&mut cells, choice)
    }

    /// What is wanted of the chosen rows. Only a list of rows takes memory.
    fn wanted(&self, alloc: Global, want: &Want, choice: &Choice) -> Result<Reply, Refusal>
        requires few { WantsBelow 8 want.now }
        requires cells { HasWanted self.now.head self.now.tape self.now.maps want.now }
        requires fitting { AreFor (length (range_rows self.now)) choice.now.bits }
        ensures told { MemoryAside result (IsReplyOver (chosen_rows self.now choice.now.bits) want.now) }
        ensures scalars { (TakesMemory want.now → ⊥) → IsOk result }
    {
        match want {
            Want::Rows(names) => match self.select(alloc, names.as_slice(), choice) {
                Ok(rows) => Ok(Reply::Rows(rows)),
                Err(e) => Err(e),
            },
            Want::Count => Ok(Reply::Count(choice.count(self.len()) as u64)),
            Want::Sum(attr) => Ok(Reply::Sum(self.sum(*attr, choice))),
            Want::Min(attr) => Ok(Reply::Least(self.min(*attr, choice))),
            Want::Max(attr) => Ok(Reply::Least(self.max(*attr, choice))),
        }
    }

    /// What a query is answered, where the range's rows are those that meet its first condition, and the boxes that it needs stand at the
    /// tape's end.
    ///
    /// The reply is that of a plain scan over the rows that the tape holds, in key order. The one refusal is `NoMemory`, and only where
    /// rows are asked for or there are two conditions or more.
    pub fn collect(&self, alloc: Global, query: &Query) -> Result<Reply, Refusal>
        requires asks { AsksBelow 8 query.now }
        requires maps { StandReady (needed self.now.head query.now) self.now.tape self.now.maps }
        requires run { IsRangeOf query.now.conds self.now }
        ensures answered { AnswersInOrder result (shown_rows self.now.head self.now.tape) query.now }
        ensures refused { IsOkUnless result NoMemory }
        ensures scalars { (TakesMemory query.now.want → ⊥) → length query.now.conds ≤ 1 → IsOk result }
    {
        let choice = self.choose(alloc, query.conds.as_slice())?;
        self.wanted(alloc, &query.want, &choice)
    }
}

/// The reply over no rows.
pub fn nothing(alloc: Global, want: &Want) -> Reply
    ensures { result ≡ answer_over [] want.now }
{
    match want {
        Want::Rows(_) => Reply::Rows(ReplyRows::new(alloc)),
        Want::Count => Reply::Count(0),
        Want::Sum(_) => Reply::Sum(0),
        Want::Min(_) | Want::Max(_) => Reply::Least(None),
    }
}
