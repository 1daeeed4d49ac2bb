//! Flags of rows.

ghost use Rattle.std.specs.Prelude.{◌≡◌, ◌≤◌, true, All, Bool, Decides, length, MatchOption, IfOk};
ghost use Rattle.sw_load.specs.Flags.{AreLive, IsNextGone};
ghost use Rattle.sw_load.specs.Gone.{ArePlaces, flags_without};

use std::alloc::{AllocError, Global};

/// How many flags are looked at together.
const BLOCK: usize = 64;

/// Whether all flags are true.
pub(crate) fn are_all_live(live: &[bool]) -> bool
    ensures { Decides result (All (λ (b : Bool). b ≡ true) live.now) }
{
    // goes on behind one that is false, so that many are looked at at once
    let mut all = true;
    for is_live in live {
        all &= *is_live;
    }
    all
}

/// A place up to which all flags are true, from a place on, block by block.
fn skip_live(live: &[bool], from: usize) -> usize
    requires { from ≤ length live.now }
    ensures within { (from ≤ result) × (result ≤ length live.now) }
    ensures live { AreLive live.now from result }
{
    let mut place = from;
    while live.len() - place >= BLOCK && are_all_live(&live[place..place + BLOCK]) {
        place += BLOCK;
    }
    place
}

/// The place of the first flag that is false, from a place on.
pub(crate) fn next_gone(live: &[bool], from: usize) -> Option<usize>
    requires { from ≤ length live.now }
    ensures { MatchOption result (AreLive live.now from (length live.now)) (IsNextGone live.now from) }
{
    for place in skip_live(live, from)..live.len() {
        if !live[place] {
            return Some(place);
        }
    }
    None
}

/// So many flags, false at some places, and else true. The one error is that there is no memory for them.
pub(crate) fn flags_without(
    alloc: Global,
    many: usize,
    gone: &[usize],
) -> Result<Vec<bool>, AllocError>
    requires { ArePlaces 0 many gone.now }
    ensures { IfOk result (λ flags. flags.items ≡ flags_without 0 many gone.now) }
{
    let mut flags = Vec::with_capacity(alloc, many)?;
    for place in gone {
        flags.resize(*place, true)?;
        flags.push(false)?;
    }
    flags.resize(many, true)?;
    Ok(flags)
}
