//! A session, and what it knows of texts.

ghost use Rattle.std.specs.Prelude.{◌≡◌, ◌≤◌, length, IfOk, IfSome, OnErr, OnOk};
ghost use Rattle.sw_cli.specs.Script.{call_of_line};
ghost use Rattle.sw_cli.specs.Sides.{sink_by};
ghost use Rattle.sw_lang.specs.Learning.{learned};
ghost use Rattle.sw_lang.specs.Reading.{Answers};
ghost use Rattle.sw_query.specs.Scan.{AsksBelow};
ghost use Rattle.sw_spine.specs.History.{CallsBelow};
ghost use Rattle.sw_shell.specs.Rows.{AreRows, all_rows};
ghost use Rattle.sw_shell.specs.Talks.{IsTold};

use crate::host::{Host, Line};
use crate::telling::write_at_once;
use std::alloc::{AllocError, Global};
use std::marker::Model;
use std::sync::Wait;
use std::thread::Threads;
use sw_cli::{HeadStats, call_of_line};
use sw_engine::{Engine, Naming, Session, Ticket, Viewer};
use sw_map::CrackerMap;
use sw_rows::{Call, Conds, Names, Query, Refusal, Reply, Schema, Sink, Want};

/// The session of a shell, the attributes with the texts that are known by now, and who looks at the live rows, once that was
/// asked. Contracts see the attributes and the calls that were answered.
#[derive(Drop)]
pub(crate) struct Seat<'e, J: Naming, M: CrackerMap> {
    alloc: Global,
    engine: &'e Engine<J, M>,
    session: Session<'e, J, M>,
    viewer: Option<Viewer<'e, J>>,
    schema: Schema,
}

impl<'e, J: Naming, M: CrackerMap> Model for Seat<'e, J, M> {
    ghost use Rattle.std.specs.Prelude.{◌≡◌, ℕ, List, length};
    ghost use Rattle.sw_rows.specs.Header.{Column};
    ghost use Rattle.sw_query.specs.declared.query.Call.{Call};
    ghost use Rattle.sw_query.specs.declared.reply.Reply.{Reply};

    ghost Value = { ℕ × List Column × List (Call × Reply) };

    ghost view = { λ s. (s.session.0, s.schema, s.session.1) };

    ghost invariant = { λ s. length s.schema ≡ length J.columns };
}

/// The select of all rows with their cells of so many attributes.
#[tactic(auto, using(crate::proofs::Selecting::attributes_next))]
fn all_of(alloc: Global, columns: usize) -> Result<Query, AllocError>
    requires { columns ≤ 8 }
    ensures below { IfOk result (AsksBelow 8) }
    ensures all { IfOk result (λ query. query ≡ all_rows columns) }
{
    let mut names = Names::new(alloc);
    for attr in 0..columns {
        names.push(attr)?;
    }
    Ok(Query {
        conds: Conds::new(alloc),
        want: Want::Rows(names),
    })
}

impl<'e, J: Naming, M: CrackerMap> Seat<'e, J, M> {
    /// A seat at an engine by a ticket of it.
    pub(crate) fn new(
        alloc: Global,
        engine: &'e Engine<J, M>,
        ticket: Ticket<J>,
        schema: Schema,
    ) -> Seat<'e, J, M>
        requires { length schema ≡ length J.columns }
        ensures { (result.0 ≡ ticket.0) × (result.1 ≡ schema) × (result.2 ≡ ticket.1) }
    {
        Seat {
            alloc,
            engine,
            session: engine.attach(ticket),
            viewer: None,
            schema,
        }
    }

    /// The attributes, with the texts that are known.
    pub(crate) fn schema(&self) -> &Schema
        ensures { result.now ≡ self.now.1 }
    {
        &self.schema
    }

    /// The call of a line, if it has one. Its texts become known.
    pub(crate) fn read(&mut self, line: Line<'_>) -> Result<Option<Call>, Refusal>
        ensures answers { Answers result (call_of_line self.old.1 line.entry.number line.entry.bytes.now) }
        ensures learned { OnOk result (self.new ≡ (self.old.0, learned self.old.1 line.entry.bytes.now, self.old.2)) }
        ensures unchanged { OnErr result (self.new ≡ self.old) }
        ensures below { IfOk result (λ call. IfSome call (CallsBelow (length J.columns))) }
    {
        call_of_line(self.alloc, &mut self.schema, line.number, line.bytes)
    }

    /// Makes a call, and writes the lines of what came of it.
    pub(crate) fn call<H: Host, R: Threads + Wait + Sync, W: Sink>(
        &mut self,
        rt: &R,
        call: &Call,
        out: &mut W,
        host: &mut H,
    ) -> Result<(), Refusal>
        requires { CallsBelow (length J.columns) call.now }
        ensures same { (self.new.0 ≡ self.old.0) × (self.new.1 ≡ self.old.1) }
        ensures told { IsTold self.old.1 call.now result self.old.2 self.new.2
            (sink_by W.Sink out.old out.new) }
    {
        host.begins();
        let told = self.session.call(rt, call);
        host.ended(call, told.is_ok());
        write_at_once(self.alloc, &self.schema, call, &told, out)
    }

    /// Opens who looks at the live rows, if that was not done.
    fn look<R: Wait>(&mut self, rt: &R) -> Result<(), Refusal>
        ensures { self.new ≡ self.old }
    {
        if self.viewer.is_some() {
            return Ok(());
        }
        let viewer = self.engine.viewer(rt)?;
        self.viewer = Some(viewer);
        Ok(())
    }

    /// The live rows, by a select that no history has. Refused `NoMemory`, or `TooMany` where no place for a reader is got.
    pub(crate) fn rows<R: Wait>(&mut self, rt: &R) -> Result<(Call, Reply), Refusal>
        ensures same { self.new ≡ self.old }
        ensures rows { IfOk result (AreRows (length J.columns) J.limit J.opening) }
    {
        self.look(rt)?;
        let columns = self.schema.len();
        let Seat {
            alloc,
            session,
            viewer,
            ..
        } = self;
        let Some(viewer) = viewer else {
            return Err(Refusal::NoMemory);
        };
        let Ok(query) = all_of(*alloc, columns) else {
            return Err(Refusal::NoMemory);
        };
        let _receipt = session.meet(rt, viewer)?;
        let reply = viewer.answer(&query)?;
        Ok((Call::Select(query), reply))
    }

    /// What each head tells of itself.
    pub(crate) fn stats<R: Wait>(&self, rt: &R) -> Result<Vec<HeadStats>, AllocError> {
        let mut stats = Vec::new(self.alloc);
        for head in 0..self.engine.heads() {
            stats.push(self.engine.stats(rt, head))?;
        }
        Ok(stats)
    }

    /// The session's ticket, and the attributes with the texts that are known.
    pub(crate) fn end(self) -> (Ticket<J>, Schema)
        ensures ticket { (result.0.0 ≡ self.entry.0) × (result.0.1 ≡ self.entry.2) }
        ensures schema { result.1 ≡ self.entry.1 }
        ensures wide { length result.1 ≡ length J.columns }
    {
        let Seat {
            session,
            schema,
            ..
        } = self;
        (session.end(), schema)
    }
}
