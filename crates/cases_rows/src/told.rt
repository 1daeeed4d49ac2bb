//! What a case tells.

use std::alloc::{AllocError, Global};
use sw_rows::Refusal;

/// What was made, or the refusal that there is no memory.
pub(crate) fn held<T>(made: Result<T, AllocError>) -> Result<T, Refusal> {
    match made {
        Ok(value) => Ok(value),
        Err(_) => Err(Refusal::NoMemory),
    }
}

/// Bytes as a text.
pub(crate) fn text_of(alloc: Global, bytes: &[u8]) -> Result<String, Refusal> {
    held(String::from_utf8_lossy(alloc, bytes))
}

/// What a case tells, its refusal in the place of a value.
pub(crate) fn or_refused(
    alloc: Global,
    told: Result<String, Refusal>,
) -> Result<String, AllocError> {
    match told {
        Ok(text) => Ok(text),
        Err(refusal) => format!(in alloc; "{refusal}"),
    }
}

/// Adds a line to a text.
pub(crate) fn push_line(text: &mut String, line: &str) -> Result<(), AllocError> {
    text.push_str(line)?;
    text.push_str("\n")
}
