//! What the first viewer has the copies made of.

ghost use Rattle.std.specs.Prelude.{◌≡◌, ◌++◌, [], IfOk, OnErr};
ghost use Rattle.sw_table.specs.Live.{RisesFrom, live_rows};
ghost use Rattle.sw_versions.specs.Lists.{TakesNext, rows_after};
ghost use Rattle.sw_versions.specs.Rules.{updates_in};

use crate::book::{Front, Naming};
use crate::live::{make_all, table_of};
use std::alloc::{AllocError, Global};
use std::marker::Model;
use sw_table::{LiveTable, PackedRows, Update};

/// Two tables with the opening rows and the first updates of a list, which nobody reads. They are made before the lock is taken, in
/// parts, so that under it few updates are made. Contracts see the updates that both tables have, and those that were taken to be
/// made next.
#[derive(Drop)]
pub struct Draft<J: Naming> {
    first: LiveTable,
    second: LiveTable,
    list: Front<J>,
    /// How many updates of the list both tables have.
    made: usize,
    /// Those that were taken to be made next.
    next: Vec<Update>,
}

impl<J: Naming> Model for Draft<J> {
    ghost use Rattle.std.specs.Prelude.{take};
    ghost use Rattle.sw_table.specs.Live.{live_rows};
    ghost use Rattle.sw_versions.specs.Lists.{AreDrafted, Drafted};
    ghost use Rattle.sw_versions.specs.Rules.{updates_in};

    ghost Value = { Drafted };

    ghost view = { λ d. record { made = take d.made (updates_in d.list); next = d.next.items } };

    ghost invariant = { λ d. AreDrafted J.opening (live_rows d.first) (live_rows d.second) (updates_in d.list) d.made d.next.items };
}

impl<J: Naming> Draft<J> {
    /// Tables of the opening rows, for a list. The one error is that there is no memory for them. The caller's conditions: these are the
    /// opening rows, and their keys rise from above 0.
    pub fn new(alloc: Global, opening: &PackedRows, list: Front<J>) -> Result<Draft<J>, AllocError>
        requires rows { opening.now.items ≡ J.opening }
        requires rise { RisesFrom 0 J.opening }
        ensures { IfOk result (λ d. (d.made ≡ []) × (d.next ≡ [])) }
    {
        let first = table_of(alloc, opening)?;
        let second = table_of(alloc, opening)?;
        Ok(Draft {
            first,
            second,
            list,
            made: 0,
            next: Vec::new(alloc),
        })
    }

    /// Where the tables lack more updates of a list than so many, the next so many are taken, for `make`: whether they are. The one
    /// error is that there is no memory for them; a list that does not begin with the known one is refused as if there were none. Then
    /// nothing has changed.
    #[tactic(auto, using(crate::proofs::Drafts::draft_within, crate::proofs::Drafts::draft_same))]
    pub(crate) fn take_next(
        &mut self,
        list: &Front<J>,
        updates: &[Update],
        most: usize,
    ) -> Result<bool, AllocError>
        requires { updates.now ≡ updates_in list.now }
        ensures takes { IfOk result (TakesNext most updates.now self.old self.new) }
        ensures kept { OnErr result (self.new ≡ self.old) }
    {
        if !self.list.begins(list) {
            return Err(AllocError);
        }
        let lacked = &updates[self.made..];
        if lacked.len() <= most {
            return Ok(false);
        }
        let next = Vec::from_slice(*self.next.allocator(), &lacked[..most])?;
        self.list = list.again();
        self.next = next;
        Ok(true)
    }

    /// Makes the updates that were taken. The one error is that there is no memory for them.
    #[tactic(auto, using(crate::proofs::Drafts::draft_room))]
    pub fn make(self) -> Result<Draft<J>, AllocError>
        ensures { IfOk result (λ d. (d.made ≡ self.made ++ self.next) × (d.next ≡ [])) }
    {
        let Draft {
            first,
            second,
            list,
            made,
            next,
        } = self;
        // for the prover: the number of updates fits
        let _all = list.len();
        let mut first = first;
        let mut second = second;
        make_all(&mut first, next.as_slice())?;
        make_all(&mut second, next.as_slice())?;
        Ok(Draft {
            first,
            second,
            list,
            made: made + next.len(),
            next: Vec::new(*next.allocator()),
        })
    }

    /// Both tables, in which all updates of a list were made.
    #[tactic(auto, using(crate::proofs::Drafts::draft_within))]
    pub(crate) fn after(
        self,
        list: &Front<J>,
        updates: &[Update],
    ) -> Result<(LiveTable, LiveTable), AllocError>
        requires { updates.now ≡ updates_in list.now }
        ensures first { IfOk result (λ t. live_rows t.0 ≡ rows_after J.opening updates.now) }
        ensures second { IfOk result (λ t. live_rows t.1 ≡ rows_after J.opening updates.now) }
    {
        let Draft {
            first,
            second,
            list: known,
            made,
            next: _next,
        } = self;
        if !known.begins(list) {
            return Err(AllocError);
        }
        let lacked = &updates[made..];
        let mut first = first;
        let mut second = second;
        make_all(&mut first, lacked)?;
        make_all(&mut second, lacked)?;
        Ok((first, second))
    }
}
