//! What a session carries from visit to visit.

ghost use Rattle.std.specs.Prelude.{◌≡◌};
ghost use mathlib.Core.List.{IsPrefix};
ghost use Rattle.sw_spine.specs.History.{mine};
ghost use Rattle.sw_versions.specs.Rules.{updates_in};
ghost use Rattle.sw_engine.specs.Own.{IsNew};
ghost use Rattle.sw_engine.specs.Published.{IsNewShare, IsOfFirst, IsWhole, published_of};
ghost use Rattle.sw_engine.specs.Sessions.{HasMissed, Receives};

use crate::history::locked::Miss;
use crate::history::misses::Misses;
use std::marker::Model;
use sw_spine::Spine;
use sw_tie::Share;
use sw_versions::{Front, Naming};

/// A session's state: its number, its share of the history, the receipt that it was given, and how often it could not publish.
///
/// Contracts see what the session shows, and the select that it waits for, if one has begun.
#[derive(Drop)]
pub struct SessionState<J: Naming> {
    pub(crate) number: u64,
    pub(crate) share: Share<Spine>,
    pub(crate) receipt: Front<J>,
    pub(crate) misses: Misses,
}

impl<J: Naming> Model for SessionState<J> {
    ghost use Rattle.sw_engine.specs.Sessions.{IsHeld, Standing, standing};

    ghost Value = { Standing };

    ghost view = { λ s. standing J.opening s.number s.share.value s.receipt s.misses };

    ghost invariant = { λ s. IsHeld J.sessions J.limit J.opening s.number s.share s.receipt };
}

impl<J: Naming> SessionState<J> {
    /// The receipt, of which no update is missing in what the session's share shows as published.
    pub fn receipt(&self) -> &Front<J>
        ensures given { result.now ≡ self.now.shown.2.given }
        ensures held { IsPrefix (updates_in result.now) self.now.shown.2.published }
        ensures whole { IsOfFirst J.limit J.opening self.now.shown.2.entries self.now.shown.2.published }
        ensures mine { self.now.shown.1 ≡ mine self.now.shown.0 self.now.shown.2.entries }
    {
        &self.receipt
    }

    /// The session has the receipt of what its share shows as published.
    fn receive(&mut self, published: Front<J>)
        requires { updates_in published ≡ self.old.shown.2.published }
        ensures received { Receives published self.old.shown self.new.shown }
        ensures waits { self.new.waits ≡ self.old.waits }
    {
        // for the prover: of two beginnings the one with no more updates begins the other, batch by batch
        let _begins = self.receipt.begins(&published);
        self.receipt = published;
    }

    /// Counts a publishing that there was no memory for.
    fn miss(&mut self, miss: Miss)
        ensures missed { HasMissed self.old.shown self.new.shown }
        ensures waits { self.new.waits ≡ self.old.waits }
    {
        self.misses.add(miss);
    }

    /// How often it could not publish.
    pub fn misses(&self) -> u64
        ensures { result ≡ self.now.shown.2.missed }
    {
        self.misses.count()
    }
}

/// What a session carries: its state, with no select begun. Contracts see what they see of the session: its number, the calls
/// that were answered to it, its receipt, how often it could not publish, and the history as it was at its last visit, with the
/// session's own entries.
#[derive(Drop)]
pub struct Ticket<J: Naming> {
    pub(crate) state: SessionState<J>,
}

impl<J: Naming> Model for Ticket<J> {
    ghost use Rattle.std.specs.Prelude.{◌≡◌, None};
    ghost use Rattle.sw_engine.specs.Published.{Shown};

    ghost Value = { Shown };

    ghost view = { λ t. t.state.shown };

    ghost invariant = { λ t. t.state.waits ≡ None };
}

impl<J: Naming> Ticket<J> {
    /// That of a session that was just opened, with the receipt of what is published.
    pub fn new(number: u64, share: Share<Spine>, receipt: Front<J>) -> Ticket<J>
        requires share { IsNewShare J.sessions share.value number share }
        requires receipt { updates_in receipt ≡ published_of J.opening share.value }
        requires whole { IsWhole J.limit J.opening share.value }
        ensures number { result.0 ≡ number }
        ensures new { IsNew result }
    {
        Ticket {
            state: SessionState {
                number,
                share,
                receipt,
                misses: Misses::new(),
            },
        }
    }

    /// The session has the receipt of what its share shows as published.
    pub fn receive(&mut self, published: Front<J>)
        requires { updates_in published ≡ self.old.2.published }
        ensures { Receives published self.old self.new }
    {
        self.state.receive(published);
    }

    /// Counts a publishing that there was no memory for.
    pub(crate) fn miss(&mut self, miss: Miss)
        ensures { HasMissed self.old self.new }
    {
        self.state.miss(miss);
    }
}
