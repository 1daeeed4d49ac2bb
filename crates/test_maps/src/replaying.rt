//! Steps whose conditions are tested when they run.

ghost use Rattle.std.specs.Prelude.{◌≡◌, ◌<◌, ◌^◌, All, OnOk, true};
ghost use Rattle.sw_table.specs.declared.row.Row.{Row};
ghost use Rattle.sw_tape.specs.Entries.{step_of};
ghost use Rattle.sw_map.specs.Held.{after};
ghost use Rattle.test_maps.specs.Steps.{CanReplay};

use sw_map::CrackerMap;
use sw_query::Refusal;
use sw_tape::{Entry, LoadRows, MAX_ENTRIES};

/// Whether the keys of all these rows fit a cell.
fn keys_fit(rows: &LoadRows) -> bool
    ensures { result ≡ true → All (λ (r : Row). r.key < 2 ^ 63) rows.now.items }
{
    for place in 0..rows.len() {
        if rows.key(place) >= 1 << 63 {
            return false;
        }
    }
    true
}

/// Whether a map may replay the entry: it was begun and stands below `MAX_ENTRIES`, a load comes first, a removed place
/// is there, and there is room.
pub fn can_replay<M: CrackerMap>(map: &M, entry: &Entry) -> bool
    ensures { result ≡ true → CanReplay (step_of entry.now) (M.held map.now) }
{
    let len = map.len() as u64;
    let cells = map.cells();
    if map.is_blank() || map.cursor() >= MAX_ENTRIES || len > cells {
        return false;
    }
    match entry {
        Entry::Load(rows) => {
            if map.cursor() > 0 || rows.len() as u64 > cells - len {
                return false;
            }
            keys_fit(rows)
        }
        Entry::Insert(row) => {
            if row.key >= 1 << 63 {
                return false;
            }
            len < cells
        }
        Entry::Remove(place) => *place < map.len(),
        Entry::Range(_, _) => true,
    }
}

/// Replays an entry, if the map may; otherwise it answers `Input`, and the map is as it was.
pub fn replay<M: CrackerMap>(map: &mut M, entry: &Entry) -> Result<(), Refusal>
    ensures { OnOk result (M.held map.new ≡ after (step_of entry.now) (M.held map.old)) }
{
    if !can_replay(map, entry) {
        return Err(Refusal::Input);
    }
    map.step(entry)
}

/// Replays entries in order, and stops at the first that is refused.
pub fn replay_all<M: CrackerMap>(map: &mut M, entries: &[Entry]) -> Result<(), Refusal> {
    for entry in entries {
        replay(map, entry)?;
    }
    Ok(())
}
