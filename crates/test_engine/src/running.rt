//! The table and the scripts of trials, and maps that are made blank.

ghost use Rattle.std.specs.Prelude.{◌≡◌, ◌≤◌, true, length, All, IfOk, IfSome};
ghost use Rattle.sw_rows.specs.declared.table.TheConstants.{MOST_ROWS};
ghost use Rattle.sw_map.specs.Held.{blank};
ghost use Rattle.sw_spine.specs.Table.{is_numbered};
ghost use Rattle.sw_spine.specs.History.{CallsBelow};

use std::alloc::Global;
use sw_lang::parse_known;
use sw_map::{CrackerMap, push_blank};
use sw_rows::{Call, PackedRows, Refusal, Row, Schema};

/// The rows of a table, its cuts, and the limit of rows.
#[derive(Clone, Copy)]
pub(crate) struct Trial<'a> {
    pub rows: &'a [[i64; 8]],
    pub cuts: &'a str,
    pub limit: u64,
}

/// Four rows of the attributes a, b and c.
pub(crate) const ROWS: [[i64; 8]; 4] = [
    [12, 7, 1, 0, 0, 0, 0, 0],
    [3, 8, 0, 0, 0, 0, 0, 0],
    [12, 5, 1, 0, 0, 0, 0, 0],
    [20, 2, 0, 0, 0, 0, 0, 0],
];

pub(crate) const HEADER: [&str; 3] = ["a:int", "b:int", "c:int"];

/// The four rows, no cuts, and more rows than come.
pub(crate) const TABLE: Trial<'static> = Trial {
    rows: &ROWS,
    cuts: "",
    limit: 10_000,
};

/// Rows of these cells in a list, by the keys 1, 2, 3 and so on. Refused `NoMemory` alone.
#[tactic(auto, using(crate::proofs::Readings::numbered_push))]
fn listed(alloc: Global, cells: &[[i64; 8]]) -> Result<Vec<Row>, Refusal>
    requires { length cells.now ≤ MOST_ROWS }
    ensures { IfOk result (λ rows. is_numbered 1 rows.items ≡ true) }
{
    let mut rows = Vec::new(alloc);
    for it in cells {
        let key = rows.len() as u64 + 1;
        if rows.push(Row { key, cells: *it }).is_err() {
            return Err(Refusal::NoMemory);
        }
    }
    Ok(rows)
}

/// The same, packed. Refused `NoMemory` alone.
pub(crate) fn numbered(alloc: Global, cells: &[[i64; 8]]) -> Result<PackedRows, Refusal>
    requires { length cells.now ≤ MOST_ROWS }
    ensures { IfOk result (λ rows. is_numbered 1 rows.items ≡ true) }
{
    let rows = listed(alloc, cells)?;
    match PackedRows::of(alloc, rows.as_slice()) {
        Ok(packed) => Ok(packed),
        Err(_) => Err(Refusal::NoMemory),
    }
}

/// The call of a line, if it has one.
fn call_of(alloc: Global, schema: &Schema, line: &str) -> Result<Option<Call>, Refusal>
    ensures { IfOk result (λ call. IfSome call (CallsBelow (length schema.now))) }
{
    parse_known(alloc, schema, 1, line)
}

/// Puts the call of a line, if it has one, behind calls.
pub(crate) fn add_call(
    alloc: Global,
    schema: &Schema,
    calls: &mut Vec<Call>,
    line: &str,
) -> Result<(), Refusal>
    requires { All (λ c. CallsBelow (length schema.now) c) calls.old.items }
    ensures { All (λ c. CallsBelow (length schema.now) c) calls.new.items }
{
    if calls.reserve(1).is_err() {
        return Err(Refusal::NoMemory);
    }
    if let Some(call) = call_of(alloc, schema, line)? {
        calls.push_reserved(call);
    }
    Ok(())
}

/// The call of each line; lines are divided by |.
pub(crate) fn calls(alloc: Global, schema: &Schema, lines: &str) -> Result<Vec<Call>, Refusal>
    ensures { IfOk result (λ v. All (λ c. CallsBelow (length schema.now) c) v.items) }
{
    let mut calls = Vec::new(alloc);
    for line in lines.split('|') {
        add_call(alloc, schema, &mut calls, line)?;
    }
    Ok(calls)
}

/// Puts a block behind blocks.
pub(crate) fn add_block(
    schema: &Schema,
    blocks: &mut Vec<Vec<Call>>,
    block: Vec<Call>,
) -> Result<(), Refusal>
    requires all { All (λ b. All (λ c. CallsBelow (length schema.now) c) b.items) blocks.old.items }
    requires one { All (λ c. CallsBelow (length schema.now) c) block.items }
    ensures { All (λ b. All (λ c. CallsBelow (length schema.now) c) b.items) blocks.new.items }
{
    let _ = schema;
    if blocks.reserve(1).is_err() {
        return Err(Refusal::NoMemory);
    }
    blocks.push_reserved(block);
    Ok(())
}

/// The calls of sessions, a block each; the lines of two are divided by &.
pub(crate) fn blocks(alloc: Global, schema: &Schema, lines: &str) -> Result<Vec<Vec<Call>>, Refusal>
    ensures { IfOk result (λ v. All (λ b. All (λ c. CallsBelow (length schema.now) c) b.items) v.items) }
{
    let mut blocks = Vec::new(alloc);
    for block in lines.split('&') {
        add_block(schema, &mut blocks, calls(alloc, schema, block)?)?;
    }
    Ok(blocks)
}

/// These maps, blank and in the opposite order.
pub(crate) fn cleared<M: CrackerMap>(alloc: Global, maps: Vec<M>) -> Result<Vec<M>, Refusal>
    ensures { IfOk result (λ maps. All (λ m. M.held m ≡ blank) maps.items) }
{
    let mut from = maps;
    let mut into: Vec<M> = Vec::new(alloc);
    for _turn in 0..from.len() {
        let Some(map) = from.pop() else {
            return Ok(into);
        };
        let mut map = map;
        map.clear();
        if push_blank(&mut into, map).is_err() {
            return Err(Refusal::NoMemory);
        }
    }
    Ok(into)
}
