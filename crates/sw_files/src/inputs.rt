//! Files that are read.

ghost use Rattle.std.specs.Prelude.{◌≡◌, ◌⊎◌, IfErr, IsOkUnless};

use std::alloc::Global;
use std::fs::File;
use std::rt::Files;
use sw_rows::{Counted, Refusal, read_all};

/// Opens a file that is to be read. Refused `Input` where the system opens none.
pub fn open_input<R: Files>(rt: &R, path: &str) -> Result<R::File, Refusal>
    ensures { IsOkUnless result Refusal.Input }
{
    match File::open(rt, path) {
        Ok(file) => Ok(file),
        Err(_) => Err(Refusal::Input),
    }
}

/// Reads a file to its end. Refused `Input` where it cannot be opened or read, and `NoMemory`.
pub fn read_file<R: Files>(rt: &R, alloc: Global, path: &str) -> Result<Vec<u8>, Refusal>
    ensures { IfErr result (λ e. (e ≡ Refusal.NoMemory) ⊎ (e ≡ Refusal.Input)) }
{
    let file = open_input(rt, path)?;
    match read_all(alloc, &mut Counted::new(file), usize::MAX) {
        Ok(bytes) => Ok(bytes),
        Err(Refusal::Input) => Err(Refusal::Input),
        // no memory holds more bytes than that
        Err(_) => Err(Refusal::NoMemory),
    }
}
