//! A copy of the rows that readers take, and the rule that it is the one of its list.

ghost use Rattle.std.specs.Prelude.{◌≡◌, IfOk, IsOk, IsOkUnless, MatchResult, OnErr, OnOk};
ghost use Rattle.sw_query.specs.Scan.{AsksBelow, TakesMemory, answer};
ghost use Rattle.sw_table.specs.Live.{RisesFrom, live_rows};
ghost use Rattle.sw_table.specs.Updates.{rows_then};
ghost use Rattle.sw_versions.specs.Copied.{IsCopy, copy_of, written};
ghost use Rattle.sw_versions.specs.Lists.{rows_after};
ghost use Rattle.sw_versions.specs.Rules.{updates_in};

use crate::book::{Front, Naming, Unnamed};
use crate::op::Op;
use crossbeam_utils::rule::{Outcome, Protocol};
use left_right::Absorb;
use std::alloc::{AllocError, Global};
use std::marker::{Model, PhantomData};
use sw_rows::{MOST_ROWS, Query, Refusal, Reply, scan};
use sw_table::{LiveTable, PackedRows, Update};

/// Makes an update of a table. A row whose key is not above all that came is refused, as if there were no memory; then, as
/// after every error, nothing has changed.
fn make(table: &mut LiveTable, update: &Update) -> Result<(), AllocError>
    ensures ok { OnOk result (live_rows table.new ≡ rows_then (live_rows table.old) update.now) }
    ensures err { OnErr result (table.new ≡ table.old) }
{
    match update {
        Update::Insert(row) => {
            if row.key <= table.top() {
                return Err(AllocError);
            }
            let _flags = table.live();
            table.insert(row)?;
            Ok(())
        }
        Update::Remove(key) => {
            table.remove(*key);
            Ok(())
        }
    }
}

/// Makes updates of a table, in order.
pub(crate) fn make_all(table: &mut LiveTable, updates: &[Update]) -> Result<(), AllocError>
    ensures { OnOk result (live_rows table.new ≡ rows_after (live_rows table.old) updates.now) }
{
    for update in updates {
        make(table, update)?;
    }
    Ok(())
}

/// The table of opening rows, with as many cells a row as those have, and with room for all rows that may come, where there is
/// memory for it: so it does not grow under the lock. No clause tells of the room.
pub(crate) fn table_of(alloc: Global, opening: &PackedRows) -> Result<LiveTable, AllocError>
    requires { RisesFrom 0 opening.now.items }
    ensures { IfOk result (λ t. live_rows t ≡ opening.now.items) }
{
    let mut table = LiveTable::from_rows(alloc, opening)?;
    let _room = table.reserve((MOST_ROWS as usize).saturating_sub(opening.len()));
    Ok(table)
}

/// The rows of a copy that readers take, and the list that they are of. Its type has no name, so that none stands in a bound
/// of those who hold the copies; `Ruled` says of which book's list it is.
#[derive(Drop)]
pub(crate) struct Live {
    table: LiveTable,
    list: Unnamed,
}

impl Model for Live {
    ghost use Rattle.sw_table.specs.Live.{live_rows};
    ghost use Rattle.sw_versions.specs.Copied.{Copied};

    ghost Value = { Copied };

    ghost view = { λ l. record { rows = live_rows l.table; list = l.list } };
}

impl Live {
    /// The rows of a list.
    pub(crate) fn new<J: Naming>(table: LiveTable, list: &Front<J>) -> Live
        requires { live_rows table ≡ rows_after J.opening (updates_in list.now) }
        ensures { result ≡ copy_of J.book J.opening list.now }
    {
        Live {
            table,
            list: list.unnamed(),
        }
    }

    /// The list.
    pub(crate) fn list<J: Naming>(&self) -> Front<J>
        requires { IsCopy J.book J.opening self.now }
        ensures { result ≡ self.now.list.batches }
    {
        self.list.named()
    }

    /// What a query is answered over the rows.
    pub(crate) fn answer(&self, alloc: Global, query: &Query) -> Result<Reply, Refusal>
        requires { AsksBelow 8 query.now }
        ensures answered { IfOk result (λ reply. reply ≡ answer self.now.rows query.now) }
        ensures refused { IsOkUnless result Refusal.NoMemory }
        ensures scalars { (TakesMemory query.now.want → ⊥) → IsOk result }
    {
        scan(alloc, &self.table, query)
    }

    /// An operation is made; without memory nothing changes.
    fn take_in(&mut self, op: &Op) -> Result<(), AllocError>
        ensures { MatchResult result (λ _. self.new ≡ written self.old op.now) (λ _. self.new ≡ self.old) }
    {
        match op {
            Op::Make(update) => make(&mut self.table, update),
            Op::Name(list) => {
                self.list = list.again();
                Ok(())
            }
        }
    }
}

impl Absorb<Op> for Live {
    type State = Live;

    ghost state = { λ live. live };

    ghost applied = { written };

    fn absorb_first(&mut self, operation: &Op, _other: &Live) -> Result<(), AllocError> {
        self.take_in(operation)
    }
}

/// The rule of the copies: what readers take is the copy of its own list, which is of the book of `J`.
pub(crate) struct Ruled<J: Naming> {
    of: PhantomData<J>,
}

impl<J: Naming> Protocol<Live, ()> for Ruled<J> {
    ghost holds = { λ live _. IsCopy J.book J.opening live };

    ghost first = { tt };
}

/// What a step under the rule tells.
pub(crate) struct Sees<J: Naming> {
    of: PhantomData<J>,
}

impl<J: Naming> Outcome<Live, ()> for Sees<J> {
    ghost then = { λ _ _ after _. IsCopy J.book J.opening after };
}
