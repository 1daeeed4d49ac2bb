//! What an engine is opened over, and the boxes that it is given.

ghost use Rattle.std.specs.Prelude.{◌≡◌, ◌<◌, ◌≤◌, ℕ, true, length, IfOk};
ghost use Rattle.sw_rows.specs.declared.table.TheConstants.{MOST_ROWS};
ghost use Rattle.sw_lang.specs.Cuts.{AreCuts, cuts_on};
ghost use Rattle.sw_spine.specs.Table.{is_numbered};

use crate::running::{Trial, cleared, numbered};
use std::alloc::Global;
use std::sync::Wait;
use sw_engine::{Engine, Naming, deal};
use sw_lang::{Cuts, parse_cuts};
use sw_map::CrackerMap;
use sw_rows::{PackedRows, Refusal, Schema};

/// What an engine is opened over.
#[derive(Drop)]
pub(crate) struct Table {
    pub schema: Schema,
    pub rows: PackedRows,
    pub cuts: Cuts,
    pub limit: u64,
    ghost some: { 0 < limit },
    ghost most: { limit ≤ MOST_ROWS },
    ghost numbered: { is_numbered 1 rows.items ≡ true },
    ghost lists: { length cuts ≡ length schema },
    ghost lawful: { (a : ℕ) → a < length schema → AreCuts (cuts_on cuts a) },
}

impl Table {
    /// The rows of a trial by the keys 1, 2, 3 and so on, and its cuts.
    pub(crate) fn of(alloc: Global, trial: Trial<'_>, schema: Schema) -> Result<Table, Refusal>
        requires few { length trial.rows.now ≤ MOST_ROWS }
        requires some { 0 < trial.limit }
        requires most { trial.limit ≤ MOST_ROWS }
        ensures { IfOk result (λ t. t.schema ≡ schema) }
    {
        let rows = numbered(alloc, trial.rows)?;
        let cuts = parse_cuts(alloc, &schema, trial.cuts)?;
        Ok(Table {
            schema,
            rows,
            cuts,
            limit: trial.limit,
        })
    }
}

/// Boxes for an engine: those that are dealt out to all heads, those of the first head, those of the second, and those that come and
/// go later.
#[derive(Drop)]
pub(crate) struct Boxes<M: CrackerMap> {
    dealt: Vec<M>,
    first: Vec<M>,
    second: Vec<M>,
    pub later: Vec<M>,
}

impl<M: CrackerMap> Boxes<M> {
    /// Boxes that are dealt out, from the last.
    pub(crate) fn dealt(alloc: Global, maps: Vec<M>) -> Boxes<M> {
        Boxes {
            dealt: maps,
            first: Vec::new(alloc),
            second: Vec::new(alloc),
            later: Vec::new(alloc),
        }
    }

    /// Boxes of the first two heads.
    pub(crate) fn at(alloc: Global, first: Vec<M>, second: Vec<M>) -> Boxes<M> {
        Boxes {
            dealt: Vec::new(alloc),
            first,
            second,
            later: Vec::new(alloc),
        }
    }
}

/// Gives boxes to a head, made blank.
fn hand<J: Naming, M: CrackerMap, R: Wait>(
    rt: &R,
    engine: &Engine<J, M>,
    head: usize,
    maps: Vec<M>,
) -> Result<(), Refusal>
    requires { head < length J.columns }
{
    for it in maps {
        let mut it = it;
        it.clear();
        if engine.supply(rt, head, it).is_err() {
            return Err(Refusal::NoMemory);
        }
    }
    Ok(())
}

/// Gives an engine its boxes, made blank, and answers those that come and go later. `Input` where it has fewer than two heads.
pub(crate) fn supply<J: Naming, M: CrackerMap, R: Wait>(
    rt: &R,
    alloc: Global,
    engine: &Engine<J, M>,
    boxes: Boxes<M>,
) -> Result<Vec<M>, Refusal>
    ensures { IfOk result (λ _. 1 < length J.columns) }
{
    let columns = engine.heads();
    if columns < 2 {
        return Err(Refusal::Input);
    }
    let Boxes {
        dealt,
        first,
        second,
        later,
    } = boxes;
    deal(rt, engine, columns, cleared(alloc, dealt)?)?;
    hand(rt, engine, 0, first)?;
    hand(rt, engine, 1, second)?;
    Ok(later)
}
