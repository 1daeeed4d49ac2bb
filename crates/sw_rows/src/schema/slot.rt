//! A text of few bytes with its code, in four words: two texts are compared by numbers, without a loop over their bytes.

ghost use Rattle.std.specs.Prelude.{◌≡◌, ◌+◌, ◌-◌, ◌<◌, ◌≤◌, ◌++◌, drop, length, slice_index_or, take, IfSome};
ghost use Rattle.sw_rows.specs.Slots.{IsSlotOf, bytes_of};
ghost use Rattle.sw_rows.specs.declared.schema.texts.TheConstants.{MOST_TEXTS};

/// How many bytes a text has at most that a slot has.
pub(crate) const MOST_BYTES: usize = 24;

/// The eight bytes from a place on, as a number.
#[inline]
fn word(bytes: &[u8], at: usize) -> u64
    requires { at + 8 ≤ length bytes.now }
    ensures { bytes_of result ≡ take 8 (drop at bytes.now) }
{
    u64::from_le_bytes([
        bytes[at],
        bytes[at + 1],
        bytes[at + 2],
        bytes[at + 3],
        bytes[at + 4],
        bytes[at + 5],
        bytes[at + 6],
        bytes[at + 7],
    ])
}

/// The first four bytes and the last four, as a number.
#[inline]
fn both_ends(bytes: &[u8]) -> u64
    requires { 4 ≤ length bytes.now }
    ensures { bytes_of result ≡ take 4 bytes.now ++ drop (length bytes.now - 4) bytes.now }
{
    let last = bytes.len() - 4;
    u64::from_le_bytes([
        bytes[0],
        bytes[1],
        bytes[2],
        bytes[3],
        bytes[last],
        bytes[last + 1],
        bytes[last + 2],
        bytes[last + 3],
    ])
}

/// The byte at a place, 0 where there is none.
#[inline]
fn byte(bytes: &[u8], at: usize) -> u8
    ensures { result ≡ slice_index_or bytes.now at 0 }
{
    bytes.get(at).copied().unwrap_or(0)
}

/// Fewer than four bytes, and zeros behind them, as a number.
#[inline]
fn short_word(bytes: &[u8]) -> u64
    requires { length bytes.now < 4 }
    ensures { take (length bytes.now) (bytes_of result) ≡ bytes.now }
{
    let (first, second, third) = (byte(bytes, 0), byte(bytes, 1), byte(bytes, 2));
    u64::from_le_bytes([first, second, third, 0, 0, 0, 0, 0])
}

/// A text of few bytes and its code.
#[derive(Clone, Copy)]
pub(crate) struct Slot {
    pub first: u64,
    pub middle: u64,
    pub last: u64,
    pub many: u8,
    pub code: u32,
}

/// No text.
const NONE: Slot = Slot {
    first: 0,
    middle: 0,
    last: 0,
    many: 0,
    code: 0,
};

impl Slot {
    /// A slot of a text with this code, if its bytes are few.
    #[inline]
    pub fn of(text: &[u8], code: u64) -> Option<Slot>
        requires { code ≤ MOST_TEXTS }
        ensures { IfSome result (IsSlotOf text.now code) }
    {
        let many = text.len();
        if many > MOST_BYTES {
            return None;
        }
        let slot = Slot {
            many: many as u8,
            code: code as u32,
            ..NONE
        };
        Some(match many {
            0..=3 => Slot {
                first: short_word(text),
                ..slot
            },
            4..=7 => Slot {
                first: both_ends(text),
                ..slot
            },
            8..=16 => Slot {
                first: word(text, 0),
                last: word(text, many - 8),
                ..slot
            },
            _ => Slot {
                first: word(text, 0),
                middle: word(text, 8),
                last: word(text, many - 8),
                ..slot
            },
        })
    }

    /// A number that few texts share.
    #[inline]
    pub fn sum(&self) -> u64 {
        let all = self.first ^ self.last.rotate_left(29) ^ self.middle.rotate_left(47);
        (all ^ u64::from(self.many)).wrapping_mul(0x9e37_79b9_7f4a_7c15)
    }
}
