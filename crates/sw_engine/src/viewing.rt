//! Viewers, which read the live rows without waiting.

ghost use Rattle.std.specs.Prelude.{◌≡◌, IfErr, IfOk, OnOk};
ghost use mathlib.Core.List.{IsPrefix};
ghost use Rattle.sw_query.specs.Scan.{AsksBelow};
ghost use Rattle.sw_engine.specs.Published.{answer_after};
ghost use Rattle.sw_versions.specs.Lists.{IsLonger};
ghost use Rattle.sw_versions.specs.Refused.{RefusesAnswer};
ghost use Rattle.sw_versions.specs.Rules.{updates_in};

use std::marker::{Model, PhantomData};
use sw_rows::{Query, Refusal, Reply};
use sw_versions::{Front, Naming};

/// The list of batches of updates that was published when it was given, to be learnt by a viewer. A batch is all updates of
/// an entry of the history, or of several. It takes no memory, however long it is, and can be copied.
pub type Receipt<J> = Front<J>;

/// A reader of an engine's live rows, which takes no lock and waits for nobody. It does not outlive its engine.
///
/// Contracts see the list of batches that it saw last, and the one that it was told of, the opening rows left out: of each
/// batch it saw all updates, or none.
pub struct Viewer<'e, J: Naming> {
    pub(crate) reader: sw_versions::Viewer<J>,
    pub(crate) of: PhantomData<&'e ()>,
}

// By hand: the drop of a derived one is written out at each way out of a function.
impl<'e, J: Naming> Drop for Viewer<'e, J> {
    fn drop(self) {
        let Self {
            reader: _reader,
            of: _,
        } = self;
    }
}

impl<'e, J: Naming> Model for Viewer<'e, J> {
    ghost use Rattle.sw_versions.specs.Known.{Known};

    ghost Value = { Known };

    ghost view = { λ v. v.reader };
}

impl<'e, J: Naming> Viewer<'e, J> {
    /// What a query is answered over the rows of the list that is then seen, which begins with all that was seen before
    /// and with all that was told, batch by batch: the reply of the plain table there. It takes memory for a list of rows
    /// alone.
    ///
    /// Refused `NoMemory`; or `TooMany` of limit 16 where its reader could not come to the copies any more, which is counted;
    /// or `Ahead` where the copy that it came to lacks updates, which no body makes. After a refusal it has seen and was told
    /// what it had. The caller's condition: attributes are below 8.
    pub fn answer(&mut self, query: &Query) -> Result<Reply, Refusal>
        requires { AsksBelow 8 query.now }
        ensures answered { IfOk result (λ r. r
            ≡ answer_after J.limit J.opening (updates_in self.new.seen) query.now) }
        ensures seen { IfOk result (λ _. IsPrefix self.old.seen self.new.seen) }
        ensures told { IfOk result (λ _. IsPrefix self.old.told self.new.seen) }
        ensures same { self.new.told ≡ self.old.told }
        ensures came { OnOk result (self.new.failed ≡ self.old.failed) }
        ensures refused { IfErr result (RefusesAnswer query.now.want self.old self.new) }
    {
        self.reader.answer(query)
    }

    /// How often it could not come to the copies. The count stays at its type's greatest number once it is there.
    pub fn failures(&self) -> u64
        ensures { result ≡ self.now.failed }
    {
        self.reader.failures()
    }

    /// The receipt's list counts as told. It takes no memory.
    pub fn learn(&mut self, receipt: Receipt<J>)
        ensures told { IsLonger self.old.told receipt self.new.told }
        ensures seen { self.new.seen ≡ self.old.seen }
        ensures failed { self.new.failed ≡ self.old.failed }
    {
        self.reader.learn(receipt);
    }
}
