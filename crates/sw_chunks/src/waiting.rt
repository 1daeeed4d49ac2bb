//! Boxes that wait until their head is asked.

ghost use Rattle.std.specs.Prelude.{◌≡◌, ◌+◌, ◌<◌, min, IfErr, IsOkUnless, OnOk};
ghost use Rattle.sw_query.specs.declared.refusal.Refusal.TheVariants.{NoMemory};
ghost use Rattle.sw_map.specs.Held.{blank};
ghost use Rattle.sw_chunks.specs.Shelved.{boxes_in};

use crate::head::Head;
use std::alloc::Global;
use std::marker::Model;
use sw_map::CrackerMap;
use sw_query::Refusal;

/// Blank boxes that wait, the one that came first at the list's end. Contracts see how many there are.
pub struct Waiting<M: CrackerMap> {
    boxes: Vec<M>,
}

// By hand: the drop of a derived one is written out at each way out of a function.
impl<M: CrackerMap> Drop for Waiting<M> {
    fn drop(self) {
        let Self { boxes: _boxes } = self;
    }
}

impl<M: CrackerMap> Model for Waiting<M> {
    ghost use Rattle.std.specs.Prelude.{◌≡◌, ℕ, length, All};
    ghost use Rattle.sw_map.specs.Held.{blank};

    ghost Value = { ℕ };

    ghost view = { λ w. length w.boxes.items };

    ghost invariant = { λ w. All (λ m. M.held m ≡ blank) w.boxes.items };
}

/// The head takes one blank box, or gives that very box back. The one refusal is `NoMemory`.
#[tactic(auto, using(crate::proofs::Supplied::supplied_updates, crate::proofs::Supplied::supplied_attribute, crate::proofs::Supplied::supplied_boxes))]
fn supply_one<M: CrackerMap>(head: &mut Head<M>, it: M) -> Result<(), (M, Refusal)>
    requires blank { M.held it ≡ blank }
    ensures updates { head.new.updates ≡ head.old.updates }
    ensures attribute { head.new.attribute ≡ head.old.attribute }
    ensures supplied { OnOk result (boxes_in head.new.areas ≡ boxes_in head.old.areas + 1) }
    ensures refused { IfErr result (λ r. (head.new ≡ head.old) × (r.0 ≡ it) × (r.1 ≡ NoMemory)) }
{
    head.supply(it)
}

impl<M: CrackerMap> Waiting<M> {
    /// No boxes.
    pub fn new(alloc: Global) -> Waiting<M>
        ensures { result ≡ 0 }
    {
        Waiting {
            boxes: Vec::new(alloc),
        }
    }

    /// How many wait.
    pub fn len(&self) -> usize
        ensures { result ≡ self.now }
    {
        self.boxes.len()
    }

    /// Takes a blank box. Refused `NoMemory`, nothing has changed, and that very box comes back.
    pub fn add(&mut self, it: M) -> Result<(), (M, Refusal)>
        requires { M.held it ≡ blank }
        ensures added { OnOk result (self.new ≡ self.old + 1) }
        ensures refused { IfErr result (λ r. (self.new ≡ self.old) × (r.0 ≡ it) × (r.1 ≡ NoMemory)) }
    {
        match self.boxes.insert(0, it) {
            Ok(()) => Ok(()),
            Err(back) => Err((back.value, Refusal::NoMemory)),
        }
    }

    /// Gives a head the box that came first. Refused `NoMemory`, it waits on.
    fn hand_one(&mut self, head: &mut Head<M>) -> Result<(), Refusal>
        requires { 0 < self.old }
        ensures updates { head.new.updates ≡ head.old.updates }
        ensures attribute { head.new.attribute ≡ head.old.attribute }
        ensures handed { OnOk result (self.new + 1 ≡ self.old) }
        ensures boxes { self.new + boxes_in head.new.areas ≡ self.old + boxes_in head.old.areas }
        ensures refused { IsOkUnless result NoMemory }
    {
        let Some(it) = self.boxes.pop() else {
            unreachable!();
        };
        match supply_one(head, it) {
            Ok(()) => Ok(()),
            Err((it, refused)) => {
                self.boxes.push_reserved(it);
                Err(refused)
            }
        }
    }

    /// Gives a head all of them, those first that came first. Refused `NoMemory`, the rest wait on: none is lost.
    pub fn hand_all(&mut self, head: &mut Head<M>) -> Result<(), Refusal>
        ensures updates { head.new.updates ≡ head.old.updates }
        ensures attribute { head.new.attribute ≡ head.old.attribute }
        ensures handed { OnOk result (self.new ≡ 0) }
        ensures boxes { self.new + boxes_in head.new.areas ≡ self.old + boxes_in head.old.areas }
        ensures refused { IsOkUnless result NoMemory }
    {
        for _ in 0..self.len() {
            self.hand_one(head)?;
        }
        Ok(())
    }

    /// Drops up to so many, and answers how many.
    pub fn shed(&mut self, most: usize) -> usize
        ensures gone { result ≡ min most self.old }
        ensures left { self.new + result ≡ self.old }
    {
        let waiting = self.boxes.len();
        let gone = most.min(waiting);
        self.boxes.truncate(waiting - gone);
        gone
    }
}
