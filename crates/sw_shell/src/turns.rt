//! Lines in turn, each of which is answered before the next one is read.

ghost use Rattle.std.specs.Prelude.{◌≡◌, false, not, IfOk, OnErr};
ghost use Rattle.sw_shell.specs.Lines.{is_quit};
ghost use Rattle.sw_shell.specs.Talks.{Heard, Taken, Talked, Turned, said_at, seen_at};

use crate::commands::{Command, is_command};
use crate::console::Console;
use crate::host::{Errand, Host, Line};
use crate::lines::{read_line, without_end};
use crate::seat::Seat;
use std::alloc::Global;
use std::io::BufRead;
use std::sync::Wait;
use std::thread::Threads;
use sw_engine::Naming;
use sw_map::CrackerMap;
use sw_rows::{Refusal, Sink};

/// The greatest number of a line.
const MOST_LINES: u32 = u32::MAX;

/// Has the live rows written to a file.
fn write_rows<J: Naming, M: CrackerMap, H: Host, R: Wait>(
    rt: &R,
    seat: &mut Seat<'_, J, M>,
    line: Line<'_>,
    file: &str,
    host: &mut H,
) -> Result<(), Refusal>
    ensures { seat.new ≡ seat.old }
{
    match seat.rows(rt) {
        Ok((call, reply)) => {
            let call = &call;
            let reply = &reply;
            host.obeys(seat.schema(), line, Errand::Write { file, call, reply })
        }
        Err(refusal) => host.obeys(seat.schema(), line, Errand::Refused(&refusal)),
    }
}

/// Has told what each head tells of itself.
fn tell_stats<J: Naming, M: CrackerMap, H: Host, R: Wait>(
    rt: &R,
    seat: &Seat<'_, J, M>,
    line: Line<'_>,
    host: &mut H,
) -> Result<(), Refusal> {
    match seat.stats(rt) {
        Ok(stats) => host.obeys(seat.schema(), line, Errand::Stats(stats.as_slice())),
        Err(_) => host.obeys(seat.schema(), line, Errand::Refused(&Refusal::NoMemory)),
    }
}

/// Obeys the command of a line, and tells whether there are to be more lines: after `.quit` there are not.
fn obey<J: Naming, M: CrackerMap, H: Host, R: Wait>(
    rt: &R,
    seat: &mut Seat<'_, J, M>,
    line: Line<'_>,
    host: &mut H,
) -> Result<bool, Refusal>
    ensures same { seat.new ≡ seat.old }
    ensures quits { IfOk result (λ more. more ≡ not (is_quit line.entry.bytes.now)) }
    ensures stays { OnErr result (is_quit line.entry.bytes.now ≡ false) }
{
    let obeyed = match Command::read(line.bytes) {
        Command::Quit => return Ok(false),
        Command::Write(file) => write_rows(rt, seat, line, file, host),
        Command::Stats => tell_stats(rt, seat, line, host),
        Command::Help => host.obeys(seat.schema(), line, Errand::Help),
        Command::Names => host.obeys(seat.schema(), line, Errand::Names),
        Command::Times => host.obeys(seat.schema(), line, Errand::Times),
        Command::History(file) => host.obeys(seat.schema(), line, Errand::History(file)),
        Command::Nameless => host.obeys(seat.schema(), line, Errand::Nameless),
        Command::Unknown => host.obeys(seat.schema(), line, Errand::Unknown),
    };
    match obeyed {
        Ok(()) => Ok(true),
        Err(refusal) => Err(refusal),
    }
}

/// Takes a line that is a call, or none, and writes what comes of it.
fn hear<J: Naming, M: CrackerMap, H: Host, R: Threads + Wait + Sync, W: Sink>(
    rt: &R,
    seat: &mut Seat<'_, J, M>,
    line: Line<'_>,
    out: &mut W,
    host: &mut H,
) -> Result<(), Refusal>
    ensures number { seat.new.0 ≡ seat.old.0 }
    ensures heard { Heard result line.entry (said_at seat.old (W.taken out.old)) (said_at seat.new (W.taken out.new)) }
{
    match seat.read(line) {
        Ok(Some(call)) => seat.call(rt, &call, out, host),
        Ok(None) => Ok(()),
        Err(refusal) => host.refused(seat.schema(), line, &refusal),
    }
}

/// Takes a line, and tells whether there are to be more.
#[tactic(auto, using(crate::proofs::Talking::taken_by, crate::proofs::Talking::taken_heard))]
fn enter<J: Naming, M: CrackerMap, H: Host, R: Threads + Wait + Sync, W: Sink>(
    rt: &R,
    seat: &mut Seat<'_, J, M>,
    line: Line<'_>,
    out: &mut W,
    host: &mut H,
) -> Result<bool, Refusal>
    ensures number { seat.new.0 ≡ seat.old.0 }
    ensures taken { Taken result line.entry (said_at seat.old (W.taken out.old)) (said_at seat.new (W.taken out.new)) }
{
    if is_command(line.bytes) {
        return obey(rt, seat, line, host);
    }
    match hear(rt, seat, line, out, host) {
        Ok(()) => Ok(true),
        Err(refusal) => Err(refusal),
    }
}

/// Waits for the next line, and takes it: whether there are to be more.
#[tactic(auto, using(crate::proofs::Talking::turned_by, crate::proofs::Talking::unheard_same))]
fn turn<J, M, R, B, W, H>(
    rt: &R,
    seat: &mut Seat<'_, J, M>,
    number: u32,
    line: &mut Vec<u8>,
    console: &mut Console<B, W, H>,
) -> Result<bool, Refusal>
where
    J: Naming,
    M: CrackerMap,
    R: Threads + Wait + Sync,
    B: BufRead + Drop,
    W: Sink + Drop,
    H: Host + Drop,
    ensures number { seat.new.0 ≡ seat.old.0 }
    ensures turned { Turned result (seen_at seat.old console.old) (seen_at seat.new console.new) }
{
    if let Err(refusal) = console.host.awaits() {
        return Err(refusal);
    }
    line.clear();
    match read_line(&mut console.lines, line) {
        Ok(true) => {
            let bytes = without_end(line.as_slice());
            let line = Line { bytes, number };
            enter(rt, seat, line, &mut console.out, &mut console.host)
        }
        Ok(false) => Ok(false),
        Err(refusal) => Err(refusal),
    }
}

/// Takes lines until there are no more, or one ends the shell; why it ended, if that was a failure.
pub(crate) fn talk<J, M, R, B, W, H>(
    rt: &R,
    alloc: Global,
    seat: &mut Seat<'_, J, M>,
    console: &mut Console<B, W, H>,
) -> Option<Refusal>
where
    J: Naming,
    M: CrackerMap,
    R: Threads + Wait + Sync,
    B: BufRead + Drop,
    W: Sink + Drop,
    H: Host + Drop,
    ensures number { seat.new.0 ≡ seat.old.0 }
    ensures talked { Talked result (seen_at seat.old console.old) (seen_at seat.new console.new) }
{
    let mut line = Vec::new(alloc);
    for number in 1..MOST_LINES {
        match turn(rt, seat, number, &mut line, console) {
            Ok(true) => {}
            Ok(false) => return None,
            Err(refusal) => return Some(refusal),
        }
    }
    Some(Refusal::TooMany {
        limit: u64::from(MOST_LINES),
    })
}
