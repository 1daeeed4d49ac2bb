//! What the two copies of the rows have, and what of it is published.

ghost use Rattle.std.specs.Prelude.{◌≡◌, ◌<◌, ◌+◌, ◌^◌, ◌++◌, ◌∷◌, [], None, length, IfOk, IfSome, MatchBool};
ghost use Rattle.sw_table.specs.Live.{live_rows};
ghost use Rattle.sw_versions.specs.Lists.{rows_after};
ghost use Rattle.sw_versions.specs.Known.{opened_over, wrote};
ghost use Rattle.sw_versions.specs.Pending.{TellsPublished, all_of};
ghost use Rattle.sw_versions.specs.Rules.{updates_in};
ghost use Rattle.sw_versions.specs.declared.viewer.TheConstants.{MOST_VIEWERS};

use crate::book::{Front, Naming};
use crate::live::Live;
use crate::op::Op;
use crate::pair::Pair;
use crate::viewer::{MOST_VIEWERS, Viewer};
use crate::visits::Visitors;
use std::alloc::{AllocError, Global};
use std::marker::Model;
use std::sync::Wait;
use sw_table::{LiveTable, Update};

/// Both copies, the batches that are published, and how many updates they have. It is ended by `end` alone: where it is dropped
/// before, the copies stay where they are.
pub struct Copies<J: Naming> {
    pair: Pair<J>,
    published: Front<J>,
    many: u64,
    viewers: u64,
    failed: u64,
    visitors: Visitors,
}

// By hand: the drop of a derived one is written out at each way out of a function.
impl<J: Naming> Drop for Copies<J> {
    fn drop(self) {
        let Self {
            pair: _pair,
            published: _published,
            many: _,
            viewers: _,
            failed: _,
            visitors: _visitors,
        } = self;
    }
}

impl<J: Naming> Model for Copies<J> {
    ghost use Rattle.std.specs.Prelude.{◌≡◌, ◌++◌, length};
    ghost use Rattle.sw_versions.specs.Copied.{copy_of, updates_of};
    ghost use Rattle.sw_versions.specs.Known.{Written};
    ghost use Rattle.sw_versions.specs.Rules.{updates_in};

    ghost Value = { Written };

    ghost view = { λ c. record {
      published = c.published;
      pending = updates_of c.pair.ops;
      viewers = c.viewers;
      failed = c.failed;
    } };

    ghost invariant = { λ c. (c.pair.shown ≡ copy_of J.book J.opening c.published)
        × (c.many ≡ length (updates_in c.published ++ updates_of c.pair.ops)) };
}

impl<J: Naming> Copies<J> {
    /// Copies of the rows of a list, which is published. The one error is that there is no memory for them.
    pub(crate) fn new(
        alloc: Global,
        first: LiveTable,
        second: LiveTable,
        front: &Front<J>,
    ) -> Result<Copies<J>, AllocError>
        requires first { live_rows first ≡ rows_after J.opening (updates_in front.now) }
        requires second { live_rows second ≡ rows_after J.opening (updates_in front.now) }
        ensures { IfOk result (λ c. c ≡ wrote front.now) }
    {
        let first = Live::new(first, front);
        let second = Live::new(second, front);
        let visitors = Visitors::new(alloc, MOST_VIEWERS)?;
        let pair = Pair::new(alloc, first, second, MOST_VIEWERS as usize)?;
        Ok(Copies {
            pair,
            published: front.again(),
            many: front.len(),
            viewers: 0,
            failed: 0,
            visitors,
        })
    }

    /// The list that readers take.
    pub(crate) fn published(&self) -> Front<J>
        ensures { result ≡ self.now.published }
    {
        self.published.again()
    }

    /// How many updates it has.
    pub(crate) fn len(&self) -> u64
        ensures { result ≡ length (all_of self.now) }
    {
        self.many
    }

    /// The writer takes one update more, if there is memory for it: whether it did.
    pub(crate) fn hand(&mut self, update: Update) -> bool
        requires { length (all_of self.old) < 2 ^ 62 }
        ensures all { MatchBool result (all_of self.new ≡ all_of self.old ++ update ∷ []) (all_of self.new ≡ all_of self.old) }
        ensures published { self.new.published ≡ self.old.published }
        ensures viewers { self.new.viewers ≡ self.old.viewers }
    {
        if !self.pair.add(Op::Make(update)) {
            return false;
        }
        self.many += 1;
        true
    }

    /// Whether a viewer still reads the copy from before the last publishing, which is the one to be written.
    pub(crate) fn is_read(&self) -> bool {
        self.visitors.any_reads_on(self.viewers)
    }

    /// Publishes a list, where the writer has all its updates: whether it did. Without memory for it readers see what they saw,
    /// and that is counted.
    pub(crate) fn publish<R: Wait>(&mut self, rt: &R, list: &Front<J>) -> bool
        requires { all_of self.old ≡ updates_in list.now }
        ensures published { TellsPublished result list.now self.old self.new }
        ensures all { all_of self.new ≡ all_of self.old }
        ensures viewers { self.new.viewers ≡ self.old.viewers }
    {
        let told = self.pair.publish_list(rt, list);
        self.visitors.look(self.viewers);
        match told {
            Ok(()) => {
                self.published = list.again();
                true
            }
            Err(_) => {
                self.failed = self.failed.saturating_add(1);
                false
            }
        }
    }

    /// A viewer, which has learnt what is published; none where there were as many as there may be, or where no place for a reader
    /// was got.
    pub(crate) fn viewer(&mut self, alloc: Global) -> Option<Viewer<J>>
        ensures few { IfSome result (λ _. self.old.viewers < MOST_VIEWERS) }
        ensures some { IfSome result (λ v. v ≡ opened_over self.old.published) }
        ensures counted { IfSome result (λ _. self.new ≡ record self.old { viewers = self.old.viewers + 1 }) }
        ensures none { result ≡ None → self.new ≡ self.old }
    {
        if self.viewers >= MOST_VIEWERS {
            return None;
        }
        let visits = self.visitors.visits(self.viewers)?;
        let reader = self.pair.reader()?;
        self.viewers += 1;
        Some(Viewer::new(alloc, reader, visits, self.published()))
    }

    /// Waits for the readers, and ends the writer.
    pub(crate) fn end<R: Wait>(self, rt: &R) {
        let Copies {
            pair,
            published: _published,
            many: _,
            viewers: _,
            failed: _,
            visitors: _visitors,
        } = self;
        pair.end(rt);
    }
}
