//! A viewer, which reads without waiting.

ghost use Rattle.std.specs.Prelude.{◌≡◌, ◌<◌, length, true, false, IfErr, IfOk, IfSome, OnOk};
ghost use mathlib.Core.List.{IsPrefix};
ghost use Rattle.sw_query.specs.Scan.{AsksBelow, answer};
ghost use Rattle.sw_versions.specs.Copied.{IsCopy};
ghost use Rattle.sw_versions.specs.Lists.{IsLonger, rows_after};
ghost use Rattle.sw_versions.specs.Known.{opened_over};
ghost use Rattle.sw_versions.specs.Refused.{IsBehind, RefusesAnswer, RefusesLook};
ghost use Rattle.sw_versions.specs.Rules.{updates_in};

use crate::book::{Front, Naming};
use crate::live::{Live, Sees};
use crate::pair::Home;
use crate::visits::Visits;
use core::mem::replace_with;
use std::alloc::Global;
use std::marker::Model;
use sw_rows::{Query, Refusal, Reply};

/// How many viewers may ever be opened.
pub const MOST_VIEWERS: u64 = 16;

/// A reader of the rows, which waits for nobody. Contracts see the list of batches of updates that it saw last, and the one
/// that it was told of: of each batch it saw all updates, or none. They also see how often it could not come to the copies.
pub struct Viewer<J: Naming> {
    alloc: Global,
    reader: Home<J>,
    visits: Visits,
    seen: Front<J>,
    told: Front<J>,
    failed: u64,
}

// By hand: the drop of a derived one is written out at each way out of a function.
impl<J: Naming> Drop for Viewer<J> {
    fn drop(self) {
        let Self {
            alloc: _,
            reader: _reader,
            visits: _visits,
            seen: _seen,
            told: _told,
            failed: _,
        } = self;
    }
}

impl<J: Naming> Model for Viewer<J> {
    ghost use Rattle.sw_versions.specs.Known.{Known};

    ghost Value = { Known };

    ghost view = { λ v. record { seen = v.seen; told = v.told; failed = v.failed } };
}

type Found<J> = Result<(Reply, Front<J>), Refusal>;

/// Of two beginnings the shorter one begins the longer one. Refused `Ahead`, with both numbers of updates, where the list has
/// fewer than what is to begin it.
fn hold<J: Naming>(known: &Front<J>, list: &Front<J>) -> Result<(), Refusal>
    ensures begins { OnOk result (IsPrefix known.now list.now) }
    ensures behind { IfErr result IsBehind }
{
    if known.begins(list) {
        return Ok(());
    }
    Err(Refusal::Ahead {
        seen: known.len(),
        told: list.len(),
    })
}

/// What a query is answered over one copy, with its list, where that begins with all that was seen and told: by bodies it always
/// is so. Refused `Ahead` otherwise.
#[tactic(auto, using(crate::proofs::Refusals::behind_look))]
fn look<J: Naming>(
    alloc: Global,
    live: &Live,
    seen: &Front<J>,
    told: &Front<J>,
    query: &Query,
) -> Found<J>
    requires asks { AsksBelow 8 query.now }
    requires copy { IsCopy J.book J.opening live.now }
    ensures answered { IfOk result (λ t. t.0 ≡ answer (rows_after J.opening (updates_in t.1)) query.now) }
    ensures begins { IfOk result (λ t. IsPrefix seen.now t.1 × IsPrefix told.now t.1) }
    ensures refused { IfErr result (RefusesLook query.now.want) }
{
    let list = live.list();
    hold(seen, &list)?;
    hold(told, &list)?;
    let reply = live.answer(alloc, query)?;
    Ok((reply, list))
}

/// The same by one enter, and nothing where the reader could not enter. The reader comes back.
fn read<J: Naming>(
    alloc: Global,
    reader: Home<J>,
    seen: &Front<J>,
    told: &Front<J>,
    query: &Query,
) -> (Home<J>, Option<Found<J>>)
    requires { AsksBelow 8 query.now }
    ensures answered { IfSome result.1
        (λ f. IfOk f (λ t. t.0 ≡ answer (rows_after J.opening (updates_in t.1)) query.now)) }
    ensures begins { IfSome result.1 (λ f. IfOk f (λ t. IsPrefix seen.now t.1 × IsPrefix told.now t.1)) }
    ensures refused { IfSome result.1 (λ f. IfErr f (RefusesLook query.now.want)) }
{
    match reader.enter_as::<Sees<J>>() {
        Ok(reading) => {
            let found = look(alloc, reading.get(), seen, told, query);
            (reading.leave(), Some(found))
        }
        Err(reader) => (reader, None),
    }
}

impl<J: Naming> Viewer<J> {
    /// A viewer that has seen and was told of a list.
    pub(crate) fn new(alloc: Global, reader: Home<J>, visits: Visits, opened: Front<J>) -> Viewer<J>
        ensures { result ≡ opened_over opened }
    {
        let seen = opened.again();
        Viewer {
            alloc,
            reader,
            visits,
            seen,
            told: opened,
            failed: 0,
        }
    }

    /// What a query is answered over the rows of the list that is then seen, which begins with all that was seen before and
    /// with all that was told, batch by batch. It takes memory for a list of rows alone, and waits for nobody.
    ///
    /// Refused `NoMemory`; or `TooMany` of limit 16 where the reader could not come to the copies any more, which is counted; or
    /// `Ahead` where the copy that it came to lacks updates, which no body here makes. After a refusal the viewer has seen and was
    /// told what it had. The caller's condition: attributes are below 8.
    #[tactic(auto, using(crate::proofs::Refusals::look_answer))]
    pub fn answer(&mut self, query: &Query) -> Result<Reply, Refusal>
        requires { AsksBelow 8 query.now }
        ensures answered { IfOk result (λ reply. reply
            ≡ answer (rows_after J.opening (updates_in self.new.seen)) query.now) }
        ensures seen { IfOk result (λ _. IsPrefix self.old.seen self.new.seen) }
        ensures told { IfOk result (λ _. IsPrefix self.old.told self.new.seen) }
        ensures same { self.new.told ≡ self.old.told }
        ensures came { OnOk result (self.new.failed ≡ self.old.failed) }
        ensures refused { IfErr result (RefusesAnswer query.now.want self.old self.new) }
    {
        let alloc = self.alloc;
        self.visits.step();
        let found = replace_with(
            &mut self.reader,
            (alloc, &self.seen, &self.told, query),
            |reader, (alloc, seen, told, query)|
                requires { AsksBelow 8 query.now }
            { read(alloc, reader, seen, told, query) },
        );
        self.visits.step();
        let Some(found) = found else {
            self.failed = self.failed.saturating_add(1);
            return Err(Refusal::TooMany {
                limit: MOST_VIEWERS,
            });
        };
        let (reply, seen) = found?;
        self.seen = seen;
        Ok(reply)
    }

    /// How often it could not come to the copies. The count stays at its type's greatest number once it is there.
    pub fn failures(&self) -> u64
        ensures { result ≡ self.now.failed }
    {
        self.failed
    }

    /// The receipt's list counts as told. It takes no memory, and waits for nobody.
    pub fn learn(&mut self, receipt: Front<J>)
        ensures told { IsLonger self.old.told receipt self.new.told }
        ensures seen { self.new.seen ≡ self.old.seen }
        ensures failed { self.new.failed ≡ self.old.failed }
    {
        self.told = self.told.longer(&receipt);
    }

    /// A list counts as told, if what was seen begins it; otherwise nothing changes. Whether it does.
    pub(crate) fn meet(&mut self, published: &Front<J>) -> bool
        ensures met { result ≡ true → IsPrefix self.old.seen published.now }
        ensures told { result ≡ true → IsLonger self.old.told published.now self.new.told }
        ensures seen { self.new.seen ≡ self.old.seen }
        ensures failed { self.new.failed ≡ self.old.failed }
        ensures kept { result ≡ false → self.new ≡ self.old }
        ensures ahead { result ≡ false → length (updates_in published.now) < length (updates_in self.old.seen) }
    {
        if self.seen.begins(published) {
            self.told = self.told.longer(published);
            true
        } else {
            false
        }
    }

    /// The list that was seen last.
    pub fn seen(&self) -> &Front<J>
        ensures { result.now ≡ self.now.seen }
    {
        &self.seen
    }
}
