//! Whether a line of bytes that come in pieces is that of a refused call.

ghost use Rattle.std.specs.Prelude.{◌≡◌, ◌≤◌, ◌++◌, ◌∷◌, ◌||◌, ℕ, List, [], false, length};
ghost use Rattle.sw_cli.specs.RefusedLines.{Notes, comes, tells_from, tells_refusal, tells_then};

use memchr::memchr;

/// How the line of a refused call begins.
const REFUSED: [u8; 8] = *b"refused ";

/// Where in its line a byte stands.
#[derive(Clone, Copy)]
enum Place {
    /// After so many bytes, all of them those with which the line of a refused call begins.
    Beginning(usize),
    /// Anywhere else.
    Further,
}

/// The place after one more byte, and whether that byte ends the beginning of a refused call's line.
fn after(place: Place, byte: u8) -> (Place, bool)
    ensures { (later : List ℕ) → result.1 || comes result.0 later ≡ comes place (byte ∷ later) }
{
    match place {
        Place::Beginning(count) if count < 8 && REFUSED[count] == byte => {
            (Place::Beginning(count + 1), count == 7)
        }
        _ if byte == b'\n' => (Place::Beginning(0), false),
        _ => (Place::Further, false),
    }
}

/// The bytes from the end of their first line on.
fn from_line_end(bytes: &[u8]) -> &[u8]
    ensures shorter { length result.now ≤ length bytes.now }
    ensures same { (later : List ℕ) → tells_from false (result.now ++ later) ≡ tells_from false (bytes.now ++ later) }
{
    let at = memchr(b'\n', bytes).unwrap_or(bytes.len());
    &bytes[at..]
}

/// What was seen of the bytes so far.
#[derive(Clone, Copy)]
pub(crate) struct Watch {
    place: Place,
    refused: bool,
}

impl Watch {
    /// Nothing was seen: the next byte begins a line.
    pub(crate) fn new() -> Watch
        ensures { (bytes : List ℕ) → tells_then result bytes ≡ tells_refusal bytes }
    {
        Watch {
            place: Place::Beginning(0),
            refused: false,
        }
    }

    /// Whether a line of the bytes that were seen begins with `refused `.
    pub(crate) fn has_refused(&self) -> bool
        ensures { result ≡ tells_then self.now [] }
    {
        self.refused
    }

    /// Sees one more byte.
    fn see(&mut self, byte: u8)
        ensures { (later : List ℕ) → tells_then self.new later ≡ tells_then self.old (byte ∷ later) }
    {
        let (place, is_refusal) = after(self.place, byte);
        self.place = place;
        self.refused = self.refused || is_refusal;
    }

    /// What is left to be seen of bytes: of a line that is none of a refused call no more than its end.
    fn unseen<'b>(&self, bytes: &'b [u8]) -> &'b [u8]
        ensures shorter { length result.now ≤ length bytes.now }
        ensures same { (later : List ℕ) → tells_then self.now (result.now ++ later) ≡ tells_then self.now (bytes.now ++ later) }
    {
        match self.place {
            Place::Further => from_line_end(bytes),
            Place::Beginning(_) => bytes,
        }
    }

    /// Sees more bytes.
    pub(crate) fn note(&mut self, bytes: &[u8])
        ensures { Notes self.old self.new bytes.now }
    {
        let mut rest = bytes;
        while let Some((byte, more)) = rest.split_first() {
            self.see(*byte);
            rest = self.unseen(more);
        }
    }
}
