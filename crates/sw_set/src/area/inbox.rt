//! The inbox of an area: the updates that wait to be merged.

ghost use Rattle.std.specs.Prelude.{◌≡◌, ◌≤◌, ◌+◌, length, IsOk, vec_capacity, vec_len};
ghost use Rattle.sw_set.specs.Inbox.{HaveComeOr, emptied, none_waiting, without_first};
ghost use Rattle.sw_set.specs.Outcomes.{AreAppendedOr, HasMadeRoomOr, IsLongerOr};

use std::alloc::Global;
use std::marker::Model;
use std::mem;
use sw_query::{Refusal, Update};

/// Updates that wait, in the order in which they came.
pub(crate) struct Inbox {
    updates: Vec<Update>,
}

// By hand: the drop of a derived one is written out at each way out of a function.
impl Drop for Inbox {
    fn drop(self) {
        let Self { updates: _updates } = self;
    }
}

impl Model for Inbox {
    ghost use Rattle.std.specs.Prelude.{◌-◌, vec_capacity, vec_len};
    ghost use Rattle.sw_set.specs.Codes.{waiting_code};
    ghost use Rattle.sw_set.specs.Inbox.{Waiting};

    ghost Value = { Waiting };

    ghost coded = { waiting_code };

    ghost view = { λ s. record { updates = s.updates.items; spare = vec_capacity s.updates - vec_len s.updates } };
}

impl Inbox {
    /// Nothing waits, and there is no room.
    pub(crate) fn new(alloc: Global) -> Inbox
        ensures { result ≡ none_waiting }
    {
        Inbox {
            updates: Vec::new(alloc),
        }
    }

    /// Makes room for so many updates more: until they are received, `receive` takes no memory. A refusal changes nothing.
    pub(crate) fn room(&mut self, more: usize) -> Result<(), Refusal>
        ensures same { self.new ≡ record self.old { spare = self.new.spare } }
        ensures ends { HasMadeRoomOr result more self.old.spare self.new.spare }
        ensures roomy { more ≤ self.old.spare → IsOk result }
    {
        match self.updates.reserve(more) {
            Ok(()) => Ok(()),
            Err(_) => Err(Refusal::NoMemory),
        }
    }

    /// Appends updates to those that wait. A refusal changes nothing.
    pub(crate) fn receive(&mut self, updates: &[Update]) -> Result<(), Refusal>
        ensures ends { HaveComeOr result updates.now self.old self.new }
        ensures roomy { length updates.now ≤ self.old.spare → IsOk result }
    {
        append(&mut self.updates, updates)
    }

    /// What waits.
    pub(crate) fn updates(&self) -> &[Update]
        ensures { result.now ≡ self.now.updates }
    {
        self.updates.as_slice()
    }

    /// Takes out what waits, with its room.
    pub(crate) fn take(&mut self, alloc: Global) -> Inbox
        ensures taken { result ≡ self.old }
        ensures left { self.new ≡ none_waiting }
    {
        let none = Inbox::new(alloc);
        mem::replace(self, none)
    }

    /// Takes the first updates away. Their room stays.
    pub(crate) fn drop_first(&mut self, many: usize)
        requires { many ≤ length self.old.updates }
        ensures { self.new ≡ without_first many self.old }
    {
        self.updates.drain(..many);
    }

    /// Takes all updates away. Their room stays.
    pub(crate) fn clear(&mut self)
        ensures { self.new ≡ emptied self.old }
    {
        self.updates.clear();
    }
}

/// Appends updates to others. A refusal changes nothing.
fn append(waiting: &mut Vec<Update>, updates: &[Update]) -> Result<(), Refusal>
    ensures items { AreAppendedOr result updates.now waiting.old.items waiting.new.items }
    ensures room { IsLongerOr result (length updates.now) waiting.old waiting.new }
    ensures roomy { vec_len waiting.old + length updates.now ≤ vec_capacity waiting.old → IsOk result }
{
    if waiting.reserve(updates.len()).is_err() {
        return Err(Refusal::NoMemory);
    }
    if waiting.extend_from_slice(updates).is_err() {
        unreachable!()
    }
    Ok(())
}
