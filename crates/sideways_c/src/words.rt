//! A refused line in words.

ghost use Rattle.std.specs.Prelude.{IsOkUnless};
ghost use Rattle.sw_query.specs.declared.refusal.Refusal.TheVariants.{NoMemory};

use std::alloc::{AllocError, Global};
use sw_faults::wrong_line;
use sw_lang::kind_name;
use sw_rows::{Refusal, Schema, TextKey};

/// The attributes of a table as fields of a header.
fn fields_of(alloc: Global, schema: &Schema) -> Result<Vec<String>, AllocError> {
    let mut fields = Vec::new(alloc);
    for attr in 0..schema.len() {
        let mut field = String::from_str(alloc, schema.name(attr))?;
        field.push_str(":")?;
        field.push_str(kind_name(schema.kind(attr)))?;
        fields.push(field)?;
    }
    Ok(fields)
}

/// The same attributes over no texts: what may stand in a line does not hang on these.
fn bare(alloc: Global, schema: &Schema) -> Result<Schema, Refusal> {
    let Ok(fields) = fields_of(alloc, schema) else {
        return Err(Refusal::NoMemory);
    };
    let mut texts = Vec::new(alloc);
    for field in &fields {
        if texts.push(field.as_str()).is_err() {
            return Err(Refusal::NoMemory);
        }
    }
    Schema::of(alloc, TextKey::fixed(), texts.as_slice())
}

/// Where in a line that is refused its fault is, and what could stand there. The one refusal is `NoMemory`.
pub(crate) fn words_of(alloc: Global, schema: &Schema, line: &[u8]) -> Result<Vec<u8>, Refusal>
    ensures { IsOkUnless result NoMemory }
{
    let Ok(mut schema) = bare(alloc, schema) else {
        return Err(Refusal::NoMemory);
    };
    match wrong_line(alloc, &mut schema, "the line", line) {
        Ok(words) => Ok(words.into_bytes()),
        Err(_) => Err(Refusal::NoMemory),
    }
}
