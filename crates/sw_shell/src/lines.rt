//! Lines, read one at a time.

ghost use Rattle.std.specs.Prelude.{◌≡◌, [], false, IfOk, OnOk};
ghost use Rattle.std.specs.Io.KnownBytes.{IsAtEnd};
ghost use Rattle.bstr.specs.Text.{without_terminator};
ghost use Rattle.sw_shell.specs.Lines.{IsNext};

use std::io::{BufRead, ErrorKind};
use sw_rows::Refusal;

/// Reads the next line with its end; false at the end of the lines. Refused `NoMemory`, and `Input` where the reader fails.
pub(crate) fn read_line<B: BufRead>(lines: &mut B, line: &mut Vec<u8>) -> Result<bool, Refusal>
    requires { line.old.items ≡ [] }
    ensures next { OnOk result (IsNext (B.remaining lines.old) (B.remaining lines.new) line.new.items) }
    ensures ended { IfOk result (λ more. more ≡ false → IsAtEnd (B.remaining lines.old)) }
{
    match lines.read_until(b'\n', line) {
        Ok(count) => Ok(count > 0),
        Err(error) if error.kind() == ErrorKind::OutOfMemory => Err(Refusal::NoMemory),
        Err(_) => Err(Refusal::Input),
    }
}

/// A line without its line feed and a carriage return before that.
pub(crate) fn without_end(line: &[u8]) -> &[u8]
    ensures { result.now ≡ without_terminator line.now }
{
    let count = line.len();
    if count == 0 || line[count - 1] != b'\n' {
        return line;
    }
    if count == 1 || line[count - 2] != b'\r' {
        return &line[..count - 1];
    }
    &line[..count - 2]
}
