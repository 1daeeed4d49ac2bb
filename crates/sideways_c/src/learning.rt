//! Texts that become known while an engine is open.

ghost use Rattle.sideways_c.specs.Handles.{seen};
ghost use Rattle.sideways_c.specs.Learns.{Learns, LearnsHandle, LearnsIn};

use crate::codes::{BAD_CELL, MISUSE, OK, code_of};
use crate::holder::Sideways;
use crate::told::exchanged;
use core::mem::replace_with;
use sw_map::PairMap;
use sw_rows::read_text;
use sw_solo::Solo;

/// The code of a text, which becomes known where it is not.
fn learn(solo: &mut Solo<PairMap>, text: &[u8]) -> Result<i64, u32>
    ensures { Learns text.now solo.old solo.new result }
{
    let Some(text) = read_text(text) else {
        return Err(BAD_CELL);
    };
    if !solo.schema().has_texts() {
        return Err(BAD_CELL);
    }
    match solo.add_text(text) {
        Ok(code) => Ok(code),
        Err(e) => Err(code_of(&e)),
    }
}

fn learn_in(solo: &mut Option<Solo<PairMap>>, text: &[u8]) -> Result<i64, u32>
    ensures { LearnsIn text.now solo.old solo.new result }
{
    match solo {
        Some(solo) => learn(solo, text),
        None => Err(MISUSE),
    }
}

/// Tells the code of a text, which becomes known where it is not. It is no call.
#[unsafe(no_mangle)]
pub extern "C" fn sideways_learn(h: &mut Sideways, text: &[u8], code: &mut i64) -> u32
    ensures { LearnsHandle text.now (seen h.old) (seen h.new) result code.old code.new }
{
    if !h.is_open {
        return MISUSE;
    }
    let mut solo = replace_with(h, None, exchanged);
    let told = learn_in(&mut solo, text);
    let _none = replace_with(h, solo, exchanged);
    match told {
        Ok(found) => {
            *code = found;
            OK
        }
        Err(code) => code,
    }
}
