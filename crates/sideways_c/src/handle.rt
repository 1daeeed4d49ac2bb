//! A handle.

ghost use Rattle.std.specs.Prelude.{◌≡◌, Some, true, IfOk, IsOkUnless};
ghost use Rattle.sw_query.specs.declared.refusal.Refusal.TheVariants.{NoMemory};
ghost use Rattle.sideways_c.specs.Handles.{seen};

use crate::holder::Sideways;
use crate::inner::Inner;
use crate::slot::Slot;
use crate::state::State;
use std::alloc::Global;
use sw_rows::Refusal;

/// The handle of what stands in a box.
pub(crate) fn kept(inner: Box<Inner>) -> Sideways
    ensures { result.slot.value ≡ Some inner.value }
{
    Sideways {
        is_open: true,
        slot: Slot::of(inner),
    }
}

/// What an open handle stands for.
pub(crate) fn taken(h: Sideways) -> Box<Inner>
    requires { h.is_open ≡ true }
    ensures { h.slot.value ≡ Some result.value }
{
    let Sideways { slot, .. } = h;
    slot.into_box()
}

/// A handle of a state. The one refusal is `NoMemory`.
pub(crate) fn handle_of(alloc: Global, state: State) -> Result<Sideways, Refusal>
    ensures made { IfOk result (λ h. seen h ≡ Some state) }
    ensures refused { IsOkUnless result NoMemory }
{
    let Ok(state) = Box::new(alloc, state) else {
        return Err(Refusal::NoMemory);
    };
    match Box::new(alloc, Inner { state }) {
        Ok(inner) => Ok(kept(inner)),
        Err(_) => Err(Refusal::NoMemory),
    }
}
