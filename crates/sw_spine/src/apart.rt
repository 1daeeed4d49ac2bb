//! Where the lines of two replies part.

ghost use Rattle.std.specs.Prelude.{◌<◌, length, map, string_bytes};
ghost use Rattle.std.specs.Bool.{Decides};
ghost use Rattle.sw_spine.specs.Apart.{IsSameAt, PartAt};

use crate::history::Lines;

/// Whether both have a line at a place, and the same.
fn is_same_at(given: &[String], listed: &[String], place: usize) -> bool
    requires { place < length given.now }
    ensures { Decides result (IsSameAt place (map (λ t. string_bytes t) given.now) (map (λ t. string_bytes t) listed.now)) }
{
    let line = &given[place];
    match listed.get(place) {
        Some(other) => line == other,
        None => false,
    }
}

/// The first place at which lines part.
fn part_at(given: &[String], listed: &[String]) -> usize
    ensures { PartAt result (map (λ t. string_bytes t) given.now) (map (λ t. string_bytes t) listed.now) }
{
    for place in 0..given.len() {
        if !is_same_at(given, listed, place) {
            return place;
        }
    }
    given.len()
}

impl Lines {
    /// The first place, from 0, at which two replies part: the lines before it are the same. Where the replies are the
    /// same it is their number of lines.
    pub fn part_at(&self, other: &Lines) -> usize
        ensures { PartAt result self.now other.now }
    {
        part_at(self.as_slice(), other.as_slice())
    }
}
