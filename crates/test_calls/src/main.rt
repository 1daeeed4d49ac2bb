//! Makes the calls of a tape, a map, a table's reading, an area or a head one by one, and each again where it is refused:
//! `test_calls SIDE EVERY BOXES CELLS LINE..`.
//!
//! SIDE is `tape`, `map`, `load`, `area`, `head` (without cuts) or `cuts` (a head with the cut 12 of its attribute), all of them over
//! the same four rows. An area and a head have BOXES boxes over a budget of CELLS cells. EVERY says what their maps do besides: they
//! refuse each step of this number, none where it is 0 or `none`, or, where it is `contended`, each second begin. But where it is 0
//! the calls of the maps are counted, and told at the end: how many began, how many stepped, and how many were denied. The lines are
//! what is called: calls of a script; `prepare`, before a select, of an area; `scan`, before a select, which is answered from the rows;
//! `room`, which makes room for updates of an area; and `clear`, which clears the key map of an area, or the map of a head that was used
//! longest ago.
//!
//! Of each call it writes a line that begins with `> ` and what is called, then what came of it, a refusal as `refused` and its
//! text, and then a line that begins with `= ` and what is seen of the value.
#![tactic(auto)]

mod areas;
mod boxes;
mod lines;
mod making;
mod maps;
mod sides;
mod tables;
mod tapes;
mod telling;

use crate::boxes::{Task, boxed_side, number_of};
use crate::maps::map_side;
use crate::tables::load_side;
use crate::tapes::tape_side;
use std::alloc::Global;
use std::io;
use std::thread::Threads;

/// The calls of a side.
fn run<R: Print + Threads + Sync>(rt: &R, alloc: Global, words: &[String]) -> io::Result<()> {
    if words.len() < 5 {
        return Ok(());
    }
    let task = Task {
        side: words[1].as_str(),
        boxes: number_of(words[3].as_str()),
        cells: number_of(words[4].as_str()),
        lines: &words[5..],
    };
    match task.side.as_bytes() {
        b"tape" => tape_side(rt, alloc),
        b"map" => map_side(rt, alloc),
        b"load" => load_side(rt, alloc),
        _ => boxed_side(rt, alloc, task, words[2].as_str()),
    }
}

fn main(rt: HostRuntime) -> anyhow::Result<()> {
    let alloc = rt.alloc();
    let words: Vec<String> = std::env::args(&rt)?.collect(alloc)?;
    run(&rt, alloc, words.as_slice())?;
    Ok(())
}
