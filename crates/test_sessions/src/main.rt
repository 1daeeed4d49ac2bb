//! Makes the calls of an engine one by one, and each again where it is refused: `test_sessions EVERY BOXES CELLS CUTS LINE..`.
//!
//! The engine has four rows, one session, and BOXES boxes for its first head over a budget of CELLS cells. EVERY says what their maps
//! do besides: they refuse each step of this number, none where it is 0 or `none`, or, where it is `contended`, each second begin. But
//! where it is 0 the calls of the maps are counted, and told at the end: how many began, how many stepped, and how many were denied.
//! CUTS is a text of cuts, or `whole`. The lines are what is called: calls of a script; `viewer`, which opens one, up to two; `view`
//! before a select, which each viewer answers; `learn`, by which each viewer learns the session's receipt; and `clear`, which drops a
//! box of the first head.
//!
//! Of each call it writes a line that begins with `> ` and what is called, and then what came of it, a refusal as `refused` and its
//! text. At the end stands how many entries the record has, how many are void, and whether it is legal.
#![tactic(auto)]

mod below;
mod boxes;
mod engines;
mod halls;
mod telling;

use crate::boxes::{Task, number_of, over_budget};
use crate::telling::TURNS;

fn main(rt: HostRuntime) -> anyhow::Result<()> {
    let alloc = rt.alloc();
    let words: Vec<String> = std::env::args(&rt)?.collect(alloc)?;
    if words.len() < 5 {
        return Ok(());
    }
    let task = Task {
        every: words[1].as_str(),
        boxes: number_of(words[2].as_str()),
        cells: number_of(words[3].as_str()),
        cuts: words[4].as_str(),
        lines: &words[5..],
    };
    for _turn in 0..TURNS {
        if over_budget(&rt, alloc, task)? {
            return Ok(());
        }
    }
    Ok(())
}
