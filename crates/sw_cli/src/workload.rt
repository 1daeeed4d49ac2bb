//! What the calls of a run are made over.

ghost use Rattle.std.specs.Prelude.{◌≡◌, length, IfOk, IsOkUnless};
ghost use Rattle.sw_query.specs.declared.refusal.Refusal.TheVariants.{NoMemory};
ghost use Rattle.sw_cli.specs.Starts.{IsStart, start_seen};

use crate::growing::stand_ins;
use crate::looking_on::Onlooker;
use crate::means::Means;
use crate::start::Inputs;
use std::alloc::Global;
use std::marker::Model;
use sw_map::CrackerMap;
use sw_rows::{Refusal, Schema};

/// What was read for a run, within a limit of rows that is 1 to 1,048,576; its blank boxes, how its blocks are made, and who looks
/// on. Contracts see the limit and what was read.
#[derive(Drop)]
pub(crate) struct Workload<'o, M: CrackerMap, O: Onlooker> {
    pub(crate) alloc: Global,
    pub(crate) inputs: Inputs,
    pub(crate) limit: u64,
    /// Whether each block has a thread of its own.
    pub(crate) threads: bool,
    pub(crate) maps: Vec<M>,
    pub(crate) onlooker: &'o O,
}

impl<'o, M: CrackerMap, O: Onlooker> Model for Workload<'o, M, O> {
    ghost use Rattle.std.specs.Prelude.{◌≡◌, ◌<◌, ◌≤◌, ℕ, All};
    ghost use Rattle.sw_map.specs.Held.{blank};
    ghost use Rattle.sw_rows.specs.declared.table.TheConstants.{MOST_ROWS};
    ghost use Rattle.sw_cli.specs.Run.{Start};
    ghost use Rattle.sw_cli.specs.Starts.{IsStart, start_seen};

    ghost Value = { ℕ × Start };

    ghost view = { λ w. (w.limit, start_seen w.inputs) };

    ghost invariant = { λ w. (0 < w.limit) × (w.limit ≤ MOST_ROWS) × IsStart w.limit (start_seen w.inputs)
        × All (λ m. M.held m ≡ blank) w.maps.items };
}

impl<'o, M: CrackerMap, O: Onlooker> Workload<'o, M, O> {
    /// What was read, over what the run is given.
    pub(crate) fn of(means: Means<'o, M, O>, inputs: Inputs) -> Workload<'o, M, O>
        requires { IsStart means.limit (start_seen inputs) }
        ensures { result ≡ (means.entry.limit, start_seen inputs) }
    {
        let Means {
            alloc,
            options,
            maps,
            onlooker,
        } = means;
        Workload {
            alloc,
            inputs,
            limit: options.limit,
            threads: options.threads,
            maps,
            onlooker,
        }
    }

    /// Attributes that stand for those that were read. The one refusal is `NoMemory`.
    pub(crate) fn stand_ins(&self) -> Result<Schema, Refusal>
        ensures many { IfOk result (λ s. length s ≡ length self.now.1.columns) }
        ensures refused { IsOkUnless result NoMemory }
    {
        stand_ins(self.alloc, self.inputs.schema.len())
    }

    /// How many blocks there are, each of which is a session.
    pub(crate) fn sessions(&self) -> usize
        ensures { result ≡ length self.now.1.blocks }
    {
        self.inputs.blocks.len()
    }
}
