//! Random calls.

ghost use Rattle.std.specs.Prelude.{All, IfOk, length};
ghost use Rattle.sw_spine.specs.History.{CallsBelow};

use crate::running::{add_block, add_call};
use crate::told::held;
use std::alloc::{AllocError, Global};
use sw_rows::{Call, Refusal, Schema};
use test_words::Dice;

/// How many calls a session makes.
const CALLS: usize = 60;

const NAMES: [&str; 8] = ["a", "b", "c", "d", "e", "f", "g", "h"];

/// Adds a line of a call over so many attributes to a text.
fn add_line(text: &mut String, dice: &mut Dice, attributes: u64) -> Result<(), AllocError> {
    let name = NAMES[(dice.roll(attributes) % 8) as usize];
    let other = NAMES[(dice.roll(attributes) % 8) as usize];
    let cell = dice.roll(24);
    match dice.roll(8) {
        0 => write!(text, "count where {name} >= {cell}"),
        1 => write!(text, "select {other} where {name} < {cell}"),
        2 => write!(text, "sum {other} where {name} = {cell}"),
        3 => write!(text, "max {name}"),
        4 => write!(text, "delete {cell}"),
        5 => write!(text, "delete where {name} = {cell}"),
        6 => write!(text, "delete where {name} >= {cell} and {other} < 6"),
        _ => add_insert(text, dice, attributes),
    }
}

/// Adds a line that inserts a row to a text.
fn add_insert(text: &mut String, dice: &mut Dice, attributes: u64) -> Result<(), AllocError> {
    write!(text, "insert {}", dice.roll(24))?;
    for _ in 1..attributes {
        write!(text, ", {}", dice.roll(24))?;
    }
    Ok(())
}

/// Adds a random call.
fn add_random(
    alloc: Global,
    schema: &Schema,
    calls: &mut Vec<Call>,
    dice: &mut Dice,
    attributes: u64,
) -> Result<(), Refusal>
    requires { All (λ c. CallsBelow (length schema.now) c) calls.old.items }
    ensures { All (λ c. CallsBelow (length schema.now) c) calls.new.items }
{
    let mut line = String::new(alloc);
    held(add_line(&mut line, dice, attributes))?;
    add_call(alloc, schema, calls, line.as_str())
}

/// So many random calls of a session.
fn random_block(
    alloc: Global,
    schema: &Schema,
    dice: &mut Dice,
    attributes: u64,
    many: usize,
) -> Result<Vec<Call>, Refusal>
    ensures { IfOk result (λ v. All (λ c. CallsBelow (length schema.now) c) v.items) }
{
    let mut calls = Vec::new(alloc);
    for _ in 0..many {
        add_random(alloc, schema, &mut calls, dice, attributes)?;
    }
    Ok(calls)
}

/// Random calls of so many sessions; of three the third makes none.
pub(crate) fn random_blocks(
    alloc: Global,
    schema: &Schema,
    state: u64,
    attributes: u64,
    sessions: usize,
) -> Result<Vec<Vec<Call>>, Refusal>
    ensures { IfOk result (λ v. All (λ b. All (λ c. CallsBelow (length schema.now) c) b.items) v.items) }
{
    let mut dice = Dice::of(state);
    let mut blocks = Vec::new(alloc);
    for place in 0..sessions {
        let many = if sessions == 3 && place == 2 {
            0
        } else {
            CALLS
        };
        let block = random_block(alloc, schema, &mut dice, attributes, many)?;
        add_block(schema, &mut blocks, block)?;
    }
    Ok(blocks)
}
