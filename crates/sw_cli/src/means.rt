//! What a run is given beside its sources and its sink, and what it leaves.

ghost use Rattle.std.specs.Prelude.{◌≡◌};

use crate::looking_on::Onlooker;
use crate::running::Options;
use std::alloc::Global;
use std::marker::Model;
use sw_engine::HeadStats;
use sw_map::CrackerMap;
use sw_spine::Record;

/// What a run is given beside its sources and its sink. Its limit is 1 to 1,048,576, and its boxes are blank. Contracts
/// see its options.
#[derive(Drop)]
pub struct Means<'a, M: CrackerMap, O: Onlooker> {
    /// Where its memory comes from.
    pub alloc: Global,
    /// What it is told besides its files.
    pub options: &'a Options<'a>,
    /// The boxes: box i, from 0, is dealt to the head of attribute i mod n, where there are n attributes.
    pub maps: Vec<M>,
    /// Who looks on.
    pub onlooker: &'a O,
}

impl<'a, M: CrackerMap, O: Onlooker> Model for Means<'a, M, O> {
    ghost use Rattle.std.specs.Prelude.{◌≡◌, ◌<◌, ◌≤◌, All};
    ghost use Rattle.sw_map.specs.Held.{blank};
    ghost use Rattle.sw_rows.specs.declared.table.TheConstants.{MOST_ROWS};
    ghost use Rattle.sw_cli.specs.declared.running.Options.{Options};

    ghost Value = { Options };

    ghost view = { λ m. m.options.now };

    ghost invariant = { λ m. (0 < m.options.now.limit) × (m.options.now.limit ≤ MOST_ROWS)
        × All (λ b. M.held b ≡ blank) m.maps.items };
}

/// What a run leaves: its record, and what each head tells of itself, of which no clause speaks. Contracts see the record.
pub struct AfterRun {
    /// The record.
    pub history: Record,
    /// What each head tells of itself.
    pub stats: Vec<HeadStats>,
}

// By hand: the drop of a derived one is written out at each way out of a function.
impl Drop for AfterRun {
    fn drop(self) {
        let Self {
            history: _history,
            stats: _stats,
        } = self;
    }
}

impl Model for AfterRun {
    ghost use Rattle.sw_spine.specs.History.{History};

    ghost Value = { History };

    ghost view = { λ a. a.history };
}

impl AfterRun {
    /// The record.
    pub(crate) fn into_history(self) -> Record
        ensures { result ≡ self }
    {
        let Self {
            history,
            stats: _stats,
        } = self;
        history
    }
}
