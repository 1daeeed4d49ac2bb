//! The calls of a tape.

ghost use Rattle.std.specs.Prelude.{◌≡◌, IfOk};
ghost use Rattle.sw_kernel.specs.Tapes.{count_from};

use crate::areas::removal;
use crate::telling::{CELLS, TURNS, row, told};
use std::alloc::Global;
use std::io;
use sw_rows::{Bound, PackedRows, Refusal};
use sw_tape::{Entry, Tape};
use test_areas::numbered;

/// What is done to a tape.
#[derive(Clone, Copy)]
enum Push {
    Insert(u64),
    Range(i64),
    Restart,
    RestartLive,
}

/// Tells what is seen of a tape.
fn see_tape<R: Print>(rt: &R, tape: &Tape) -> io::Result<()> {
    println!(rt;
        "= {} entries, {} pieces, peak {}",
        tape.len(),
        tape.pieces(),
        tape.peak()
    )
}

/// The four rows, packed.
pub(crate) fn packed(alloc: Global) -> Result<PackedRows, Refusal> {
    let rows = numbered(alloc, &CELLS)?;
    match PackedRows::of(alloc, rows.as_slice()) {
        Ok(packed) => Ok(packed),
        Err(_) => Err(Refusal::NoMemory),
    }
}

/// Begins the tape anew with every second row of its load, and the later rows.
fn restart_live(alloc: Global, tape: &mut Tape) -> Result<(), Refusal> {
    let later = packed(alloc)?;
    let Some(Entry::Load(rows)) = tape.get(0) else {
        return Err(Refusal::Input);
    };
    let live = [true, false, true, false, true, false];
    if rows.len().checked_add(later.len()) != Some(live.len()) {
        return Err(Refusal::Input);
    }
    tape.restart_live(&later, &live)
}

/// Makes a change of a tape.
fn change(alloc: Global, tape: &mut Tape, push: Push) -> Result<(), Refusal> {
    match push {
        Push::Insert(key) => tape.push(Entry::Insert(row(key, 7, 9))),
        Push::Range(low) => tape.push(Entry::Range(
            Some(Bound::Before(low)),
            Some(Bound::After(low)),
        )),
        Push::Restart => tape.restart(&[row(6, 8, 1), row(7, 9, 2)]),
        Push::RestartLive => restart_live(alloc, tape),
    }
}

/// The name of a change.
fn name_of(push: Push) -> &'static str {
    match push {
        Push::Insert(_) => "push of a row",
        Push::Range(_) => "push of a range",
        Push::Restart => "restart",
        Push::RestartLive => "restart with live rows",
    }
}

/// Makes a change, again where it is refused.
fn change_again<R: Print>(rt: &R, alloc: Global, tape: &mut Tape, push: Push) -> io::Result<()> {
    for _turn in 0..TURNS {
        println!(rt; "> {}", name_of(push))?;
        let is_refused = told(rt, change(alloc, tape, push))?;
        see_tape(rt, tape)?;
        if !is_refused {
            return Ok(());
        }
    }
    Ok(())
}

/// Removes the last of four pairs, again where it is refused.
fn remove_again<R: Print>(rt: &R, tape: &mut Tape) -> io::Result<()>
    requires { count_from 0 tape.old ≡ 4 }
{
    println!(rt; "> push of a removal")?;
    match tape.push(Entry::Remove(3)) {
        Ok(()) => {
            println!(rt; "done")?;
        }
        Err(e) => {
            println!(rt; "refused {e}")?;
            see_tape(rt, tape)?;
            println!(rt; "> push of a removal")?;
            told(rt, tape.push(Entry::Remove(3)))?;
        }
    }
    see_tape(rt, tape)
}

/// A tape of the four rows.
fn open_tape(alloc: Global) -> Result<Tape, Refusal>
    ensures { IfOk result (λ tape. count_from 0 tape ≡ 4) }
{
    Tape::new(
        alloc,
        &[row(1, 12, 7), row(2, 3, 8), row(3, 12, 5), row(4, 20, 2)],
    )
}

/// The calls of a tape that was opened.
fn tape_calls<R: Print>(rt: &R, alloc: Global, tape: &mut Tape) -> io::Result<()>
    requires { count_from 0 tape.old ≡ 4 }
{
    see_tape(rt, tape)?;
    remove_again(rt, tape)?;
    for push in PUSHES {
        change_again(rt, alloc, tape, push)?;
    }
    Ok(())
}

/// Changes, so many that the lists of entries and of bounds grow several times.
const PUSHES: [Push; 18] = [
    Push::Range(1),
    Push::Insert(5),
    Push::Range(2),
    Push::Range(3),
    Push::Range(4),
    Push::Insert(6),
    Push::Range(5),
    Push::Range(6),
    Push::Range(7),
    Push::Range(8),
    Push::Range(9),
    Push::Restart,
    Push::Range(3),
    Push::RestartLive,
    Push::Range(4),
    Push::Insert(9),
    Push::Restart,
    Push::Insert(10),
];

/// The calls of a tape.
pub(crate) fn tape_side<R: Print>(rt: &R, alloc: Global) -> io::Result<()> {
    for _turn in 0..TURNS {
        println!(rt; "> new tape")?;
        match open_tape(alloc) {
            Ok(tape) => {
                println!(rt; "done")?;
                let mut tape = tape;
                return tape_calls(rt, alloc, &mut tape);
            }
            Err(e) => println!(rt; "refused {e}\n= none")?,
        }
    }
    Ok(())
}
