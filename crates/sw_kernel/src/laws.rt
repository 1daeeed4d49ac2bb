//! Laws of the definitions, each the contract of a function that does nothing.

ghost use Rattle.sw_kernel.specs.Laws.{CountLaw, MarkedLaw, OnceLaw, ReplaySeenLaw, RisingLaw, SoundLaw, StepSeenLaw};

/// A step on rows, then showing each as the pair of its head and one other value, is showing them and then the step on
/// pairs: what a step does depends on head values alone.
pub fn steps_seen()
    ensures { StepSeenLaw }
{}

/// The same of a whole replay.
pub fn replays_seen()
    ensures { ReplaySeenLaw }
{}

/// The bounds of a replay rise strictly.
pub fn bounds_rise()
    ensures { RisingLaw }
{}

/// The bounds of a replay are just those that stand in its ranges.
pub fn bounds_marked()
    ensures { MarkedLaw }
{}

/// After a tape, what lies before a mark is left of its bound, and what lies behind it is not.
pub fn marks_sound()
    ensures { SoundLaw }
{}

/// After a tape there are as many items as its steps say.
pub fn items_counted()
    ensures { CountLaw }
{}

/// A tape that brings no key twice leaves each live row once.
pub fn rows_held_once()
    ensures { OnceLaw }
{}
