//! The two copies of the rows, of which readers take one, with their writer.

ghost use Rattle.std.specs.Prelude.{◌≡◌, ◌<◌, ◌^◌, ◌++◌, ◌∷◌, [], drop, fold, IfOk, MatchBool};
ghost use Rattle.sw_versions.specs.Copied.{HasNamedOr, HasPublishedOr, IsCopy, copy_of, updates_of, written};
ghost use Rattle.sw_versions.specs.Lists.{rows_after};
ghost use Rattle.sw_versions.specs.Rules.{updates_in};

use crate::book::{Front, Naming};
use crate::live::{Live, Ruled, Sees};
use crate::op::Op;
use core::mem::replace_with;
use left_right::reader::Reader;
use left_right::writer::Writer;
use std::alloc::{AllocError, Global};
use std::marker::Model;
use std::mem::ManuallyDrop;
use std::sync::Wait;

/// A reader of a copy.
pub(crate) type Home<J> = Reader<Live, (), Ruled<J>>;

/// Both copies, of the book of `J`. It is ended by `end` alone: where it is dropped before, the copies stay where they are.
pub(crate) struct Pair<J: Naming> {
    writer: ManuallyDrop<Writer<Live, Op, (), Ruled<J>>>,
}

impl<J: Naming> Drop for Pair<J> {
    fn drop(self) {
        let Self { writer: _writer } = self;
    }
}

impl<J: Naming> Model for Pair<J> {
    ghost use Rattle.std.specs.Prelude.{drop};
    ghost use Rattle.sw_versions.specs.Copied.{Paired};

    ghost Value = { Paired };

    ghost view = { λ p. record {
      shown = p.writer.value.desk.shown.value;
      ops = drop p.writer.value.behind p.writer.value.log.items;
    } };
}

impl<J: Naming> Pair<J> {
    /// Two copies that are alike. The one error is that there is no memory for them.
    pub(crate) fn new(
        alloc: Global,
        first: Live,
        second: Live,
        readers: usize,
    ) -> Result<Pair<J>, AllocError>
        requires readers { (0 < readers) × (readers < 2 ^ 32) }
        requires alike { first ≡ second }
        requires copy { IsCopy J.book J.opening first }
        ensures { IfOk result (λ p. p ≡ record { shown = first; ops = [] }) }
    {
        let writer = Writer::new(alloc, first, second, readers)?;
        Ok(Pair {
            // a writer is ended and not dropped
            writer: unsafe { ManuallyDrop::new_unchecked(writer) },
        })
    }

    /// An operation is to be made, if there is memory for it: whether it is.
    pub(crate) fn add(&mut self, op: Op) -> bool
        ensures shown { self.new.shown ≡ self.old.shown }
        ensures ops { MatchBool result (self.new.ops ≡ self.old.ops ++ op ∷ []) (self.new.ops ≡ self.old.ops) }
    {
        self.writer.append(op).is_ok()
    }

    /// Readers take the copy in which all operations were made. After an error they take what they took.
    fn publish<R: Wait>(&mut self, rt: &R) -> Result<(), AllocError>
        requires { IsCopy J.book J.opening (fold written self.old.shown self.old.ops) }
        ensures { HasPublishedOr self.old self.new result }
    {
        replace_with(
            &mut *self.writer,
            rt,
            |writer, rt|
                requires { IsCopy J.book J.opening (fold written writer.desk.shown.value (drop writer.behind writer.log.items)) }
            { writer.publish_as::<Sees<J>, R>(rt) },
        )
    }

    /// Readers take the copy of a list, whose updates the operations make whole. After an error they take what they took.
    #[tactic(auto, using(crate::proofs::Writing::named_copy, crate::proofs::Writing::is_copy, crate::proofs::Writing::name_adds_none))]
    pub(crate) fn publish_list<R: Wait>(
        &mut self,
        rt: &R,
        list: &Front<J>,
    ) -> Result<(), AllocError>
        requires { rows_after self.old.shown.rows (updates_of self.old.ops) ≡ rows_after J.opening (updates_in list.now) }
        ensures { HasNamedOr self.old self.new (copy_of J.book J.opening list.now) result }
    {
        if self.add(Op::Name(list.unnamed())) {
            self.publish(rt)
        } else {
            Err(AllocError)
        }
    }

    /// One more reader, if a place for one is got.
    pub(crate) fn reader(&self) -> Option<Home<J>> {
        self.writer.factory().reader().ok()
    }

    /// Waits for the readers, and ends the writer.
    pub(crate) fn end<R: Wait>(self, rt: &R) {
        let Pair { writer } = self;
        drop(ManuallyDrop::into_inner(writer).take(rt));
    }
}
