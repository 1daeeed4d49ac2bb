//! Laws of what sessions saw.

ghost use Rattle.std.specs.Prelude.{List};
ghost use Rattle.sw_spine.specs.declared.history.Entry.{Entry};
ghost use Rattle.sw_engine.specs.Later.{Begin};
ghost use Rattle.sw_engine_laws.specs.Stays.{EndsStay, PlacesStay};

/// What a session saw of the history stays so, where the entries that it saw begin those that came after, as they do from call to
/// call and at the close: an entry that is not open stands at its place, and batches that end with entries, as a viewer saw
/// them at a meeting, still do. The function does nothing.
pub fn what_was_seen_stays()
    ensures placed { (es fs : List Entry) → Begin es fs → PlacesStay es fs }
    ensures ends { (es fs : List Entry) → Begin es fs → EndsStay es fs }
    ensures again { (es fs gs : List Entry) → Begin es fs → Begin fs gs → Begin es gs }
{}
