//! Trials of engines as data: `stdin` has a trial a line, and `stdout` what each must tell.
//!
//! A line is a word and what the trial is given; README.md has the list. An empty line and one that begins with # tell nothing.
#![tactic(auto)]

mod asking;
mod beginnings;
mod bench;
mod boxes;
mod lines;
mod opening;
mod playing;
mod random;
mod running;
mod runs;
mod sessions;
mod told;

use crate::bench::Bench;
use std::io;

fn main(rt: HostRuntime) -> io::Result<()> {
    let alloc = rt.alloc();
    let mut bench = Bench::new(alloc);
    for line in rt.lines(alloc) {
        bench.take(&rt, alloc, line?.as_str())?;
        if !bench.text.is_empty() {
            println!(rt; "{}", bench.text)?;
        }
    }
    Ok(())
}
