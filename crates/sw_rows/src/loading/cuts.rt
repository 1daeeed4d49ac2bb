//! Where the bytes of a table may be cut.

ghost use Rattle.std.specs.Prelude.{◌≡◌, ◌<◌, ◌≤◌, ◌-◌, ◌/◌, drop, get_or, length, take, true, IfSome};
ghost use Rattle.std.specs.Thread.{IsSync};
ghost use Rattle.sw_rows.specs.Parts.{AreRecordsOfBoth, IsKnownQuoteless, begins_plain, has_no_quote};

use std::thread::{Threads, join};

/// How often a table is halved at most.
pub(crate) const HALVINGS: u32 = 2;

/// How many parts are made of it so.
pub(crate) const PARTS: usize = 4;

/// How many bytes a part has at least that is halved.
pub(crate) const LEAST_HALVED: usize = 1_048_576;

/// Whether no byte is a double quote.
pub(crate) fn has_no_quote(bytes: &[u8]) -> bool
    ensures { result ≡ has_no_quote bytes.now }
{
    // Goes on behind a quote, so that many bytes are compared at once.
    let mut found = false;
    for c in bytes {
        found |= *c == b'"';
    }
    !found
}

/// The same, halved so many times, in a thread for each half.
#[cycle(quotes)]
pub(crate) fn has_no_quote_in_halves<R: Threads + Sync>(rt: &R, bytes: &[u8], halvings: u32) -> bool
    ensures { result ≡ has_no_quote bytes.now }
{
    if halvings == 0 || bytes.len() < LEAST_HALVED {
        return has_no_quote(bytes);
    }
    let (left, right) = bytes.split_at(bytes.len() / 2);
    let fewer = halvings - 1;
    let (first, rest) = join(
        rt,
        || -> bool
            requires { IsSync R.row }
            ensures { result ≡ has_no_quote left.entry.now }
        { has_no_quote_in_halves(rt, left, fewer) },
        || -> bool
            requires { IsSync R.row }
            ensures { result ≡ has_no_quote right.entry.now }
        { has_no_quote_in_halves(rt, right, fewer) },
    );
    first && rest
}

/// Where the first line feed is.
pub(crate) fn feed_at(bytes: &[u8]) -> Option<usize>
    ensures { IfSome result (λ at. (at < length bytes.now) × (get_or bytes.now at 0 ≡ 10)) }
{
    bytes.iter().position(|c| *c == b'\n')
}

/// Whether the bytes begin with none that a byte order mark begins with.
pub(crate) fn begins_plain(bytes: &[u8]) -> bool
    ensures { result ≡ begins_plain bytes.now }
{
    match bytes.first() {
        Some(c) => *c != 0xEF,
        None => true,
    }
}

/// How a part is cut further, and what becomes of it.
#[derive(Clone, Copy)]
pub(crate) struct Cuts {
    /// How often it is halved yet.
    pub(crate) halvings: u32,
    /// How many parts of its length its rows have room for at first: those that are added behind it, about, and its own.
    pub(crate) parts: usize,
    /// Whether it is known that no byte of it is a double quote, so that none is looked for.
    pub(crate) is_quoteless: bool,
}

impl Cuts {
    /// Those of the first half, behind which the other is added.
    pub(crate) fn of_first(self) -> Cuts
        requires { 0 < self.halvings }
        ensures { result ≡ record self { halvings = self.halvings - 1 } }
    {
        Cuts {
            halvings: self.halvings - 1,
            parts: self.parts,
            is_quoteless: self.is_quoteless,
        }
    }

    /// Those of the second half.
    pub(crate) fn of_second(self) -> Cuts
        requires { 0 < self.halvings }
        ensures { result ≡ record self { halvings = self.halvings - 1; parts = self.parts / 2 } }
    {
        Cuts {
            halvings: self.halvings - 1,
            parts: self.parts / 2,
            is_quoteless: self.is_quoteless,
        }
    }
}

/// Whether no byte up to a place is a double quote.
fn has_no_quote_before(bytes: &[u8], at: usize, is_quoteless: bool) -> bool
    requires within { at ≤ length bytes.now }
    requires known { IsKnownQuoteless is_quoteless bytes.now }
    ensures { result ≡ true → has_no_quote (take at bytes.now) ≡ true }
{
    let (front, _) = bytes.split_at(at);
    is_quoteless || has_no_quote(front)
}

/// Where the bytes may be cut in two, the first line feed from a place on: their records are those of both parts.
pub(crate) fn cut(bytes: &[u8], from: usize, is_quoteless: bool) -> Option<usize>
    requires within { from ≤ length bytes.now }
    requires known { IsKnownQuoteless is_quoteless bytes.now }
    ensures inside { IfSome result (λ at. at ≤ length bytes.now) }
    ensures plain { IfSome result (λ at. begins_plain (drop at bytes.now) ≡ true) }
    ensures records { IfSome result (λ at. AreRecordsOfBoth (take at bytes.now) (drop at bytes.now) bytes.now) }
{
    let (_, back) = bytes.split_at(from);
    let at = from + feed_at(back)? + 1;
    let (_, right) = bytes.split_at(at);
    if has_no_quote_before(bytes, at, is_quoteless) && begins_plain(right) {
        Some(at)
    } else {
        None
    }
}
