//! The two lists of a map.

ghost use Rattle.std.specs.Prelude.{◌≡◌, ◌≤◌, MatchResult, vec_capacity, vec_len};
ghost use Rattle.sw_query.specs.declared.refusal.Refusal.TheVariants.{NoMemory};

use sw_query::Refusal;

/// A list of values that grows gets room for one value in so many more than asked for. An allocator may have to move it, and
/// then a list that was to grow again and again would be copied each time.
const PART_TO_SPARE: usize = 64;

/// Heads and tails: what stands at one place of both is a pair.
#[derive(Drop)]
pub struct Lists {
    pub head: Vec<i64>,
    pub tail: Vec<i64>,
}

/// How many values a list that grows to so many gets memory for: one in `PART_TO_SPARE` more.
fn ample(room: usize) -> usize
    ensures { room ≤ result }
{
    room.saturating_add(room / PART_TO_SPARE)
}

/// Makes room for so many values in all, and where there was less for some more, by the allocator's own reallocation. It is
/// refused `NoMemory` alone, and then nothing has changed.
pub(crate) fn make_room(values: &mut Vec<i64>, room: usize) -> Result<(), Refusal>
    ensures items { values.new.items ≡ values.old.items }
    ensures len { vec_len values.new ≡ vec_len values.old }
    ensures ends { MatchResult result (λ _. room ≤ vec_capacity values.new) (λ e. e ≡ NoMemory) }
{
    if room <= values.capacity() {
        return Ok(());
    }
    match values.reserve_exact(ample(room) - values.len()) {
        Ok(()) => Ok(()),
        Err(_) => Err(Refusal::NoMemory),
    }
}

impl Lists {
    /// Whether neither list has memory for more values than one that grows to so many gets.
    pub(crate) fn suit(&self, room: usize) -> bool {
        self.head.capacity() <= ample(room) && self.tail.capacity() <= ample(room)
    }
}
