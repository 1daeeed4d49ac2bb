//! Columns of maps, read in blocks.

ghost use Rattle.std.specs.Prelude.{◌≡◌, ◌+◌, ◌<◌, ◌≤◌, ℤ, pos, List, length, slice_range, slice_index_or};
ghost use Rattle.sw_map.specs.Held.{pairs_in};
ghost use Rattle.sw_set.specs.Choice.{side_in};
ghost use Rattle.sw_set.specs.declared.reply.window.Side.TheVariants.{Head};

use std::marker::Model;
use sw_map::CrackerMap;

/// How many cells a window asks for at a time.
pub(crate) const BLOCK: usize = 256;

/// The half of a map's pairs in which a column stands.
#[derive(Clone, Copy)]
pub(crate) enum Side {
    Head,
    Tail,
}

/// Where a column stands: in which box, and in which half of its pairs.
#[derive(Clone, Copy)]
pub(crate) struct Column {
    pub at: usize,
    pub side: Side,
}

/// The value of a column at a place.
#[inline]
pub(crate) fn value_at<M: CrackerMap>(map: &M, side: Side, place: usize) -> i64
    requires { place < pairs_in (M.held map.now) }
    ensures { result ≡ slice_index_or (side_in side (M.held map.now)) place (pos 0) }
{
    match side {
        Side::Head => map.head_at(place),
        Side::Tail => map.tail_at(place),
    }
}

/// Reads the heads from a place on into a slice, as many as it has.
fn read_heads<M: CrackerMap>(map: &M, place: usize, part: &mut [i64])
    requires { place + length part.old ≤ pairs_in (M.held map.now) }
    ensures { part.new ≡ slice_range (side_in Head (M.held map.now)) place (place + length part.old) }
{
    // that there are so few pairs is for the proof
    let _pairs = map.len();
    for at in 0..part.len() {
        part[at] = map.head_at(place + at);
    }
}

/// Reads a column from a place on into a slice, as many values as it has.
fn read_column<M: CrackerMap>(map: &M, side: Side, place: usize, part: &mut [i64])
    requires { place + length part.old ≤ pairs_in (M.held map.now) }
    ensures { part.new ≡ slice_range (side_in side (M.held map.now)) place (place + length part.old) }
{
    match side {
        Side::Head => read_heads(map, place, part),
        Side::Tail => map.read_tails(place, part),
    }
}

/// A column from one place up to below another, which asks its map for a block of values at a time. Contracts see the list
/// of its values.
#[derive(Drop)]
pub(crate) struct Window<'a, M: CrackerMap> {
    map: &'a M,
    side: Side,
    from: usize,
    len: usize,
    start: usize,
    end: usize,
    block: [i64; BLOCK],
}

impl<'a, M: CrackerMap> Model for Window<'a, M> {
    ghost use Rattle.std.specs.Prelude.{◌+◌, ◌<◌, ◌≤◌, ◌^◌, List, ℤ};
    ghost use Rattle.sw_map.specs.Held.{pairs_in};
    ghost use Rattle.sw_set.specs.Choice.{IsBlock, values_from};

    ghost Value = { List ℤ };

    ghost view = { λ w. values_from w.side (M.held w.map.now) w.from w.len };

    ghost invariant = { λ w.
        (w.from + w.len ≤ pairs_in (M.held w.map.now)) × (w.from + w.len < 2 ^ 64)
        × IsBlock w.block w.start w.end (values_from w.side (M.held w.map.now) w.from w.len) };
}

impl<'a, M: CrackerMap> Window<'a, M> {
    /// A column from one place up to below another. It reads nothing yet.
    pub fn new(map: &'a M, side: Side, from: usize, upto: usize) -> Window<'a, M>
        requires ordered { from ≤ upto }
        requires within { upto ≤ pairs_in (M.held map.now) }
        ensures { result ≡ slice_range (side_in side (M.held map.now)) from upto }
    {
        Window {
            map,
            side,
            from,
            len: upto - from,
            start: 0,
            end: 0,
            block: [0; BLOCK],
        }
    }

    /// How many values there are.
    pub fn len(&self) -> usize
        ensures { result ≡ length self.now }
    {
        self.len
    }

    /// Reads the values from a place on into a slice, as many as it has.
    pub fn read(&self, place: usize, part: &mut [i64])
        requires { place + length part.old ≤ length self.now }
        ensures { part.new ≡ slice_range self.now place (place + length part.old) }
    {
        read_column(self.map, self.side, self.from + place, part);
    }

    /// Reads the values from a place on, and answers that at the place.
    fn refill(&mut self, place: usize) -> i64
        requires { place < length self.old }
        ensures value { result ≡ slice_index_or self.old place (pos 0) }
        ensures same { self.new ≡ self.old }
    {
        let many = (self.len - place).min(BLOCK);
        let at = self.from + place;
        read_column(self.map, self.side, at, &mut self.block[..many]);
        self.start = place;
        self.end = place + many;
        self.block[0]
    }

    /// The value at a place.
    #[inline]
    pub fn at(&mut self, place: usize) -> i64
        requires { place < length self.old }
        ensures value { result ≡ slice_index_or self.old place (pos 0) }
        ensures same { self.new ≡ self.old }
    {
        if self.start <= place && place < self.end {
            return self.block[place - self.start];
        }
        self.refill(place)
    }
}
