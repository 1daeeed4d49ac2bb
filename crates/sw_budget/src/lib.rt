//! A budget of cells, shared by threads without waiting.
//!
//! A budget is one word, the number of cells that are out on lease. Purses and leases are the seats at that word: a purse
//! holds nothing, a lease holds the cells that it was asked for. Each change of the word is a single atomic step of one
//! seat, and after each step of every run the word is the sum of what all seats hold, and at most the capacity.
//!
//! No call takes a lock or waits. `lease`, `give_back`, the drop of a lease and `used` take no memory.
#![tactic(auto)]

ghost use Rattle.std.specs.Prelude.{◌≡◌, ◌+◌, ◌≤◌, IfOk, IfErr};
ghost use Rattle.sw_query.specs.declared.refusal.Refusal.TheVariants.{NoMemory};
ghost use Rattle.sw_budget.specs.Account.{empty, asked, returned, Refused};
ghost use Rattle.sw_budget.specs.Balance.{EveryRunIsBalanced};

mod seat;

pub use crate::seat::Purse;
use crate::seat::{Hold, Word};
use std::alloc::Global;
use std::marker::Model;
use std::sync::Arc;
use sw_query::Refusal;

/// A word that counts the cells that are out on lease. A contract sees which budget it is, and its capacity in cells.
#[derive(Drop)]
pub struct Budget {
    word: Arc<Word, Global>,
}

impl Model for Budget {
    ghost use Rattle.std.specs.Prelude.{◌≡◌};
    ghost use Rattle.std.specs.Arc.{arc_value};
    ghost use Rattle.sw_budget.specs.Account.{Terms, terms};

    ghost Value = { Terms };

    ghost view = { λ b. terms (arc_value b.word).shared.table_id (arc_value b.word).shared.key };

    ghost invariant = { λ b. (arc_value b.word).shared.table_id.words ≡ 1 };
}

/// A seat that holds cells of a budget. Dropping it gives them back, by the same one step as `give_back`.
pub struct Lease {
    hold: Hold,
}

impl Model for Lease {
    ghost use Rattle.sw_budget.specs.Account.{Account};

    ghost Value = { Account };

    ghost view = { λ l. l.hold };
}

impl Budget {
    /// A budget of so many cells, none of them out on lease, and its first purse. Refused with `NoMemory` alone; then
    /// nothing was made.
    pub fn open(alloc: Global, capacity: u64) -> Result<(Budget, Purse), Refusal>
        ensures ok { IfOk result (λ r. (r.0.capacity ≡ capacity) × (r.1 ≡ empty r.0.budget capacity)) }
        ensures err { IfErr result (λ e. e ≡ NoMemory) }
    {
        match Purse::open(alloc, capacity) {
            Ok((word, purse)) => Ok((Budget { word }, purse)),
            Err(_) => Err(Refusal::NoMemory),
        }
    }

    /// How many cells are out on lease, at a glance: no seat makes this look, and a contract learns nothing from it.
    pub fn used(&self) -> u64 {
        self.word.shared.peek(0)
    }
}

impl Purse {
    /// One more purse of the same budget; this one stays as it was. Refused with `NoMemory` alone.
    pub fn split(&mut self) -> Result<Purse, Refusal>
        ensures same { self.new ≡ self.old }
        ensures ok { IfOk result (λ p. p ≡ empty self.old.budget self.old.capacity) }
        ensures err { IfErr result (λ e. e ≡ NoMemory) }
    {
        match self.another() {
            Ok(purse) => Ok(purse),
            Err(_) => Err(Refusal::NoMemory),
        }
    }

    /// Takes so many cells, by one load and at most one compare-exchange. It takes no memory and tries nothing again.
    ///
    /// `Short` is answered only where the cells found in use and those wanted exceed the capacity, with these three
    /// numbers; `Contended` only where the word that the exchange found was not the one seen, with both. The purse comes
    /// back with either.
    pub fn lease(mut self, cells: u64) -> Result<Lease, (Purse, Refusal)>
        ensures ok { IfOk result (λ l. (l ≡ asked self cells l.seen l.seen) × (l.seen + cells ≤ self.capacity)) }
        ensures err { IfErr result (λ r. Refused self cells r.0 r.1) }
    {
        let used = self.look();
        let capacity = self.capacity();
        if cells > capacity - used {
            let refusal = Refusal::Short {
                used,
                want: cells,
                capacity,
            };
            return Err((self, refusal));
        }
        match self.try_hold(used, cells) {
            Ok(hold) => Ok(Lease { hold }),
            Err((purse, found)) => Err((purse, Refusal::Contended { seen: used, found })),
        }
    }
}

impl Lease {
    /// Gives all its cells back, in one fetch-sub, and answers the purse. It is never refused.
    pub fn give_back(self) -> Purse
        ensures { result ≡ returned self }
    {
        let Self { hold } = self;
        hold.put_back()
    }
}

impl Drop for Lease {
    fn drop(self) {
        let Self { hold } = self;
        let _purse = hold.put_back();
    }
}

/// However the seats of a budget take turns, after each step its word is the sum of what all seats hold, and at most the
/// capacity. It does nothing; its contract is the law. The steps of the code are steps of such a run, since that is the
/// rule of the budget's table.
pub fn every_run_is_balanced()
    ensures { EveryRunIsBalanced }
{}
