//! Bytes of escaped texts.

use std::alloc::{AllocError, Global};

/// The value of a digit of base 16, 0 of another byte.
fn digit(byte: u8) -> u8 {
    match byte {
        b'0'..=b'9' => byte - b'0',
        b'a'..=b'f' => byte - b'a' + 10,
        _ => 0,
    }
}

/// The byte that a letter after a backslash stands for.
fn escaped(letter: u8) -> u8 {
    match letter {
        b'n' => b'\n',
        b'r' => b'\r',
        b't' => b'\t',
        other => other,
    }
}

/// Where a text stands: outside of an escape, after its backslash, after its x, or after a first digit.
#[derive(Clone, Copy)]
enum At {
    Outside,
    Backslash,
    Letter,
    Digit(u8),
}

/// Adds the bytes of a text in which \n, \r, \t, \\ and \xHH are escaped. Refused for want of memory, it has added a
/// beginning.
pub fn push_unescaped(bytes: &mut Vec<u8>, text: &str) -> Result<(), AllocError> {
    let mut at = At::Outside;
    for &byte in text.as_bytes() {
        let (after, made) = match (at, byte) {
            (At::Outside, b'\\') => (At::Backslash, None),
            (At::Outside, _) => (At::Outside, Some(byte)),
            (At::Backslash, b'x') => (At::Letter, None),
            (At::Backslash, _) => (At::Outside, Some(escaped(byte))),
            (At::Letter, _) => (At::Digit(digit(byte)), None),
            (At::Digit(high), _) => (At::Outside, Some(high.wrapping_mul(16) | digit(byte))),
        };
        at = after;
        if let Some(byte) = made {
            bytes.push(byte)?;
        }
    }
    Ok(())
}

/// Those bytes alone.
pub fn unescaped(alloc: Global, text: &str) -> Result<Vec<u8>, AllocError> {
    let mut bytes = Vec::new(alloc);
    push_unescaped(&mut bytes, text)?;
    Ok(bytes)
}
