//! What the blocks of a script came to.

ghost use Rattle.std.specs.Prelude.{◌≡◌};
ghost use Rattle.sw_cli.specs.Outcomes.{AreTold};

use crate::script::Block;
use crate::telling::BlockTold;
use sw_spine::Record;

/// What came of the blocks of a script, and the record of it.
#[derive(Drop)]
pub(crate) struct Ended {
    pub(crate) blocks: Vec<Block>,
    pub(crate) told: Vec<BlockTold>,
    pub(crate) history: Record,
    ghost all: { AreTold blocks.items told.items },
}

impl Ended {
    /// The record.
    pub(crate) fn into_history(self) -> Record
        ensures { result ≡ self.history }
    {
        let Ended { history, .. } = self;
        history
    }
}
