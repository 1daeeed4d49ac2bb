//! Which trial a line is.

use crate::asking::{Asked, ask};
use crate::lines::{fault, noting};
use crate::runs::{begun, met_in_run, shared};
use crate::sessions::{among, counted, crowded, insisted, mixed, raced, told_of, waited};
use crate::told::Telling;
use std::alloc::{AllocError, Global};
use std::sync::Wait;
use std::thread::Threads;
use sw_rows::Refusal;

/// What stands before the first of a mark, and what stands after it; all of a text without one, and nothing.
fn split(text: &str, mark: char) -> (&str, &str) {
    match text.split_once(mark) {
        Some(parts) => parts,
        None => (text, ""),
    }
}

/// A word as a number, 0 where it is none.
fn number(word: &str) -> u64 {
    match word.parse::<u64>() {
        Ok(n) => n,
        Err(_) => 0,
    }
}

/// The first word of a text as a number, and the rest.
fn numbered(text: &str) -> (u64, &str) {
    let (word, rest) = split(text, ' ');
    (number(word), rest)
}

/// The first five words of a text as numbers.
fn five(text: &str) -> [u64; 5] {
    let (one, rest) = numbered(text);
    let (two, rest) = numbered(rest);
    let (three, rest) = numbered(rest);
    let (four, rest) = numbered(rest);
    let (five, _) = numbered(rest);
    [one, two, three, four, five]
}

/// Makes a trial to which something is given.
fn tell<R: Threads + Wait + Sync>(
    telling: &mut Telling<'_, R>,
    cuts: &str,
    word: &str,
    given: &str,
) -> Result<(), Refusal> {
    let (first, rest) = numbered(given);
    let many = first as usize;
    match word {
        "told" => told_of(telling, many, 1, cuts, rest),
        "raced" => raced(telling, many, cuts, rest),
        "insisted" => insisted(telling, many, rest),
        "counted" => counted(telling, many, rest),
        "waited" => waited(telling, many, rest),
        "mixed" => mixed(telling, five(given), cuts),
        "among" => among(telling, first, number(rest), cuts),
        "viewed-late" => ask(telling, Asked::LateViews(first)),
        "begun" => begun(telling, many, cuts, rest),
        _ => tell_fixed(telling, word),
    }
}

/// Makes a trial to which nothing is given.
fn tell_fixed<R: Threads + Wait + Sync>(
    telling: &mut Telling<'_, R>,
    word: &str,
) -> Result<(), Refusal> {
    match word {
        "closed" => ask(telling, Asked::Boxes),
        "viewed" => ask(telling, Asked::Views),
        "published" => ask(telling, Asked::Publishing),
        "crowded" => crowded(telling),
        "met-in-run" => met_in_run(telling),
        "shared" => shared(telling),
        _ => Ok(()),
    }
}

/// The cuts of the trials that come, and what the last one tells.
#[derive(Drop)]
pub(crate) struct Bench {
    cuts: String,
    pub text: String,
}

impl Bench {
    /// No cuts, and nothing told.
    pub(crate) fn new(alloc: Global) -> Self {
        Bench {
            cuts: String::new(alloc),
            text: String::new(alloc),
        }
    }

    /// Takes the cuts of a line, or makes its trial. Where that is refused, its refusal stands behind what was told before.
    pub(crate) fn take<R: Threads + Wait + Sync>(
        &mut self,
        rt: &R,
        alloc: Global,
        line: &str,
    ) -> Result<(), AllocError> {
        self.text.clear();
        let (word, given) = split(line, ' ');
        match word {
            "cuts" => {
                self.cuts.clear();
                return self.cuts.push_str(given);
            }
            "fault" => return fault(alloc, given, &mut self.text),
            "noting" => return noting(alloc, given, &mut self.text),
            _ => {}
        }
        let mut telling = Telling {
            rt,
            alloc,
            text: &mut self.text,
        };
        match tell(&mut telling, self.cuts.as_str(), word, given) {
            Ok(()) => Ok(()),
            Err(refusal) => write!(self.text, "refused {refusal}"),
        }
    }
}
