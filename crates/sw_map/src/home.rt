//! What a map's box has of its budget, and its pairs.

ghost use Rattle.std.specs.Prelude.{◌≡◌, ◌<◌, ◌≤◌, IfErr, IfOk, None, OnErr, OnOk, false, true};
ghost use Rattle.sw_map.specs.Held.{begun, blank};
ghost use Rattle.sw_map.specs.Refusals.{HasBegunOr, HasGrownOr};
ghost use Rattle.sw_map.specs.States.{HasLeasedAnew, HasLeasedOr, IsBare, IsGivenBack, IsHome, cleared, held_by, held_with, seat_of};

use crate::active::Active;
use crate::lists::Lists;
use crate::pairs::Pairs;
use crate::tail::Tail;
use std::alloc::Global;
use sw_budget::{Lease, Purse};
use sw_query::Refusal;

/// A purse while the map is blank, with lists after a reset, else a lease and pairs.
#[derive(Drop)]
pub enum Home {
    Blank(Idle),
    Active(Active),
}

/// What a blank map has: its purse, and the lists that a reset left it.
#[derive(Drop)]
pub struct Idle {
    pub purse: Purse,
    pub lists: Option<Lists>,
}

impl Idle {
    /// A purse alone.
    pub(crate) fn new(purse: Purse) -> Idle
        ensures purse { result.purse ≡ purse }
        ensures bare { result.lists ≡ None }
    {
        Idle { purse, lists: None }
    }
}

/// What a map is begun with.
#[derive(Drop)]
pub struct Plan {
    pub alloc: Global,
    pub head: u8,
    pub tail: Tail,
    pub cells: u64,
}

/// Gives a lease lists of its room, those of an earlier map where they serve; where they find no memory, the lease is
/// given back.
fn furnish(lease: Lease, plan: Plan, lists: Option<Lists>) -> (Home, Result<(), Refusal>)
    requires { lease.held ≡ plan.cells }
    ensures ok { OnOk result.1 (IsHome (begun plan.head plan.tail plan.cells) lease result.0) }
    ensures err { IfErr result.1 (IsGivenBack lease result.0) }
    ensures bare { OnErr result.1 (IsBare result.0) }
{
    match Pairs::new(plan.alloc, plan.cells as usize, lists) {
        Ok(pairs) => {
            let active = Active {
                lease,
                head: plan.head,
                tail: plan.tail,
                cursor: 0,
                pairs,
            };
            (Home::Active(active), Ok(()))
        }
        Err(refusal) => (Home::Blank(Idle::new(lease.give_back())), Err(refusal)),
    }
}

/// What a map keeps while its lease grows.
#[derive(Drop)]
struct Kept {
    head: u8,
    tail: Tail,
    cursor: usize,
    pairs: Pairs,
}

/// Gives a lease the pairs that the map had, with room for its cells; where that finds no memory, the lease is given back.
fn refurnish(lease: Lease, kept: Kept, cells: u64) -> (Home, Result<bool, Refusal>)
    requires held { lease.held ≡ cells }
    requires more { kept.pairs.room ≤ cells }
    ensures grew { IfOk result.1 (λ grew. grew ≡ true) }
    ensures ok { OnOk result.1 (IsHome (held_with kept cells) lease result.0) }
    ensures err { IfErr result.1 (IsGivenBack lease result.0) }
    ensures bare { OnErr result.1 (IsBare result.0) }
{
    let Kept {
        head,
        tail,
        cursor,
        pairs,
    } = kept;
    match pairs.grown(cells as usize) {
        Ok(pairs) => {
            let active = Active {
                lease,
                head,
                tail,
                cursor,
                pairs,
            };
            (Home::Active(active), Ok(true))
        }
        Err(refusal) => (Home::Blank(Idle::new(lease.give_back())), Err(refusal)),
    }
}

impl Home {
    /// Begins a blank map. Where it is refused it is blank, with its purse.
    pub(crate) fn begin(self, plan: Plan) -> (Home, Result<(), Refusal>)
        requires { held_by self ≡ blank }
        ensures held { HasBegunOr result.1 plan.head plan.tail plan.cells (held_by result.0) }
        ensures seat { HasLeasedOr result.1 (seat_of self) plan.cells (seat_of result.0) }
        ensures bare { OnErr result.1 (IsBare result.0) }
    {
        match self {
            Home::Blank(Idle { purse, lists }) => match purse.lease(plan.cells) {
                Ok(lease) => furnish(lease, plan, lists),
                Err((purse, refusal)) => (Home::Blank(Idle::new(purse)), Err(refusal)),
            },
            Home::Active(_) => unreachable!(),
        }
    }

    /// Gives the lease back and takes one of more cells, and keeps all that the map has. Where it is refused it is
    /// blank, with its purse.
    pub(crate) fn grow(self, cells: u64) -> (Home, Result<bool, Refusal>)
        requires begun { (held_by self).is_blank ≡ false }
        requires more { (held_by self).cells < cells }
        ensures held { HasGrownOr result.1 cells (held_by self) (held_by result.0) }
        ensures grew { IfOk result.1 (λ grew. grew ≡ true) }
        ensures seat { HasLeasedAnew result.1 (seat_of self) cells (seat_of result.0) }
        ensures bare { OnErr result.1 (IsBare result.0) }
    {
        match self {
            Home::Blank(_) => unreachable!(),
            Home::Active(active) => {
                let Active {
                    lease,
                    head,
                    tail,
                    cursor,
                    pairs,
                    ..
                } = active;
                let kept = Kept {
                    head,
                    tail,
                    cursor,
                    pairs,
                };
                match lease.give_back().lease(cells) {
                    Ok(lease) => refurnish(lease, kept, cells),
                    Err((purse, refusal)) => (Home::Blank(Idle::new(purse)), Err(refusal)),
                }
            }
        }
    }

    /// Makes it blank; the lease, if there is one, is given back, and all memory. It takes no memory.
    pub(crate) fn clear(self) -> Home
        ensures blank { held_by result ≡ blank }
        ensures seat { seat_of result ≡ cleared (seat_of self) (held_by self).is_blank }
        ensures bare { IsBare result }
    {
        match self {
            Home::Blank(Idle { purse, .. }) => Home::Blank(Idle::new(purse)),
            Home::Active(active) => {
                let Active { lease, .. } = active;
                Home::Blank(Idle::new(lease.give_back()))
            }
        }
    }

    /// Makes it blank; the lease, if there is one, is given back, and the lists stay for the next map. It takes no memory.
    pub(crate) fn reset(self) -> Home
        ensures blank { held_by result ≡ blank }
        ensures seat { seat_of result ≡ cleared (seat_of self) (held_by self).is_blank }
    {
        match self {
            Home::Blank(idle) => Home::Blank(idle),
            Home::Active(active) => {
                let Active { lease, pairs, .. } = active;
                Home::Blank(Idle {
                    purse: lease.give_back(),
                    lists: Some(pairs.into_lists()),
                })
            }
        }
    }
}
