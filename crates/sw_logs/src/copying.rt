//! Copies of calls and of lines.

ghost use Rattle.std.specs.Prelude.{◌≡◌, map, string_bytes, IfOk};

use std::alloc::{AllocError, Global};
use sw_rows::Call;
use sw_spine::Lines;

/// A copy of a call. The one error is that there is no memory for it.
pub fn copied_call(alloc: Global, call: &Call) -> Result<Call, AllocError>
    ensures { IfOk result (λ copy. copy ≡ call.now) }
{
    match call {
        Call::Select(query) => {
            let query = query.copied(alloc)?;
            Ok(Call::Select(query))
        }
        Call::Insert(cells) => Ok(Call::Insert(*cells)),
        Call::Delete(key) => Ok(Call::Delete(*key)),
        Call::DeleteWhere(conds) => {
            let conds = conds.copied(alloc)?;
            Ok(Call::DeleteWhere(conds))
        }
    }
}

fn copied_texts(alloc: Global, texts: &[String]) -> Result<Vec<String>, AllocError>
    ensures { IfOk result (λ copy. map (λ t. string_bytes t) copy.items ≡ map (λ t. string_bytes t) texts.now) }
{
    let mut copy = Vec::with_capacity(alloc, texts.len())?;
    for text in texts {
        copy.push(String::from_str(alloc, text.as_str())?)?;
    }
    Ok(copy)
}

/// A copy of lines. The one error is that there is no memory for it.
pub fn copied_lines(alloc: Global, lines: &Lines) -> Result<Lines, AllocError>
    ensures { IfOk result (λ copy. copy ≡ lines.now) }
{
    Ok(Lines::of(copied_texts(alloc, lines.as_slice())?))
}
