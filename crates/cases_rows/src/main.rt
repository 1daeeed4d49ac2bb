//! Cases of texts as data: `stdin` has a case a line, `stdout` each behind > and below it what it has to tell.
//!
//! A line is a command, with its arguments after colons, then a blank and a text; README.md has the list. A text has
//! \n, \r, \t, \\ and \xHH for bytes. An empty line and one that begins with # tell nothing.
#![tactic(auto)]

mod bench;
mod calls;
mod refusals;
mod replies;
mod sharing;
mod sinks;
mod sources;
mod tables;
mod told;

use crate::bench::{Bench, told_of};
use std::io;
use test_words::mark;

/// Prints a line, and what its case tells.
fn step(rt: &HostRuntime, bench: &mut Bench, line: &str) -> io::Result<()> {
    println!(rt; "{}{line}", mark(line))?;
    let told = told_of(rt.alloc(), bench, line)?;
    if !told.is_empty() {
        println!(rt; "{told}")?;
    }
    Ok(())
}

fn main(rt: HostRuntime) -> io::Result<()> {
    let mut bench = Bench::new(rt.alloc());
    for line in rt.lines(rt.alloc()) {
        step(&rt, &mut bench, line?.as_str())?;
    }
    Ok(())
}
