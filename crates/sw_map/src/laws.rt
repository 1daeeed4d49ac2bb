//! Laws of maps that replay a tape, each the contract of a function that does nothing.

ghost use Rattle.sw_map.specs.Laws.{BegunLaw, LongerLaw, NextLaw, PlaceLaw, ReadyLaw, StepLaw};

/// A map that was begun is aligned with every tape, before its first entry.
pub fn begun_maps_are_aligned()
    ensures { BegunLaw }
{}

/// An aligned map that replays the entry at its cursor is aligned.
pub fn steps_keep_alignment()
    ensures { StepLaw }
{}

/// A lawful map is lawful when the tape grows.
pub fn longer_tapes_keep_lawful()
    ensures { LongerLaw }
{}

/// The entry at its cursor is one that an aligned map may replay, and needs no more room than the tape's peak.
pub fn next_entries_fit()
    ensures { NextLaw }
{}

/// At the tape's end an aligned map has, place by place, the pairs of the tape's rows, and the places of their bounds.
pub fn ready_maps_show_rows()
    ensures { ReadyLaw }
{}

/// The rows before the place of a bound are left of it, the others are not.
pub fn places_part_rows()
    ensures { PlaceLaw }
{}
