//! What an engine is opened with, and heads are made with.

ghost use Rattle.std.specs.Prelude.{◌≡◌, ◌<◌, ◌≤◌, ℕ, true, length, IfErr, IfOk, IsOkUnless, OnOk};
ghost use Rattle.sw_query.specs.declared.refusal.Refusal.TheVariants.{NoMemory};
ghost use Rattle.sw_rows.specs.declared.table.TheConstants.{MOST_ROWS};
ghost use Rattle.sw_lang.specs.Cuts.{AreCuts, cuts_on};
ghost use Rattle.sw_spine.specs.Books.{RefusesRows};
ghost use Rattle.sw_spine.specs.Table.{is_numbered};
ghost use Rattle.sw_engine.specs.Desk.{IsNewHead};

use std::alloc::Global;
use std::marker::{Model, PhantomData};
use sw_chunks::Head;
use sw_lang::Cuts;
use sw_map::CrackerMap;
use sw_rows::{PackedRows, Refusal, Schema};
use sw_versions::Naming;

/// The cuts of each head, of a table that is sound. No lock lies over them, since they never change. The opening rows, over which
/// heads are made, lie with the spine.
#[derive(Drop)]
pub struct Opening<J: Naming> {
    cuts: Cuts,
    of: PhantomData<J>,
}

impl<J: Naming> Model for Opening<J> {
    ghost use Rattle.sw_lang.specs.Cuts.{CutLists};
    ghost use Rattle.sw_engine.specs.Desk.{IsGround};

    ghost Value = { CutLists };

    ghost view = { λ o. o.cuts };

    ghost invariant = { λ o. IsGround J.columns J.opening J.limit o.cuts };
}

impl<J: Naming> Opening<J> {
    /// How many heads there are, one for each attribute, over a table that is sound.
    pub fn heads(&self) -> usize
        ensures many { result ≡ length J.columns }
        ensures some { 1 ≤ result }
        ensures few { result ≤ 8 }
        ensures rows { 0 < J.limit }
        ensures most { J.limit ≤ MOST_ROWS }
        ensures numbered { is_numbered 1 J.opening ≡ true }
        ensures within { length J.opening ≤ J.limit }
    {
        self.cuts.len()
    }

    /// A head over the opening rows, which it takes over. Refused `NoMemory` alone.
    pub fn head<M: CrackerMap>(
        &self,
        alloc: Global,
        place: usize,
        rows: PackedRows,
    ) -> Result<Head<M>, Refusal>
        requires place { place < length J.columns }
        requires rows { rows.items ≡ J.opening }
        ensures made { IfOk result (IsNewHead place J.opening) }
        ensures refused { IsOkUnless result NoMemory }
    {
        let cuts = self.cuts.of(place);
        Head::of(alloc, place as u8, cuts, rows)
    }
}

/// What an engine is opened with: the table of `J`, which has no more rows than its limit allows, and the cuts of its heads.
#[derive(Drop)]
pub(crate) struct Ground<J: Naming> {
    pub(crate) schema: Schema,
    pub(crate) rows: PackedRows,
    pub(crate) limit: u64,
    pub(crate) opening: Opening<J>,
    ghost columns: { schema ≡ J.columns },
    ghost rows_are: { rows.items ≡ J.opening },
    ghost limit_is: { limit ≡ J.limit },
}

impl<J: Naming> Ground<J> {
    /// Refused `TooMany` of the limit where there are more rows.
    pub(crate) fn new(
        schema: Schema,
        rows: PackedRows,
        cuts: Cuts,
        limit: u64,
    ) -> Result<Ground<J>, Refusal>
        requires table { (schema ≡ J.columns) × (rows.items ≡ J.opening) × (limit ≡ J.limit) }
        requires some { 0 < limit }
        requires most { limit ≤ MOST_ROWS }
        requires numbered { is_numbered 1 rows.items ≡ true }
        requires lists { length cuts ≡ length schema }
        requires cuts { (a : ℕ) → a < length schema → AreCuts (cuts_on cuts a) }
        ensures few { OnOk result (length rows.items ≤ limit) }
        ensures refused { IfErr result (RefusesRows limit rows.items) }
    {
        if rows.len() as u64 > limit {
            return Err(Refusal::TooMany { limit });
        }
        // for the prover: there are few enough attributes
        let _columns = schema.len();
        Ok(Ground {
            schema,
            rows,
            limit,
            opening: Opening {
                cuts,
                of: PhantomData,
            },
        })
    }
}
