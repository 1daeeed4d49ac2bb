//! What a caller that is not Rattle keeps.

ghost use Rattle.std.specs.Prelude.{◌≡◌, is_some};

use crate::slot::Slot;

/// What a caller keeps: closed, all zeros; or open.
#[repr(C)]
#[derive(Drop)]
pub struct Sideways {
    pub(crate) is_open: bool,
    pub(crate) slot: Slot,
    pub ghost opened: { is_open ≡ is_some slot.value },
}
