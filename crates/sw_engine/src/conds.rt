//! Conditions copied.

ghost use Rattle.std.specs.Prelude.{◌≡◌, ◌++◌, OnOk};

use std::alloc::AllocError;
use sw_rows::{Cond, Conds};

/// Adds copies of conditions. The one error is that there is no memory for them.
pub(crate) fn add_all(conds: &mut Conds, more: &[Cond]) -> Result<(), AllocError>
    ensures { OnOk result (conds.new ≡ conds.old ++ more.now) }
{
    for cond in more {
        conds.push(*cond)?;
    }
    Ok(())
}
