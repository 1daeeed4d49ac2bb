//! The call of a line, whose texts become known.

ghost use Rattle.std.specs.Prelude.{◌≡◌, IfOk, IfSome, OnErr, OnOk};
ghost use Rattle.sw_lang.specs.Agreement.{AnswersRelated};
ghost use Rattle.sw_lang.specs.Fits.{FitsCall};
ghost use Rattle.sw_lang.specs.Grammar.{IsLine};
ghost use Rattle.sw_lang.specs.Learning.{learned};
ghost use Rattle.sw_lang.specs.Reading.{line_at, refused, Answers};
ghost use Rattle.sw_rows.specs.Header.{IsSchema};

pub(crate) mod cuts;
pub(crate) mod learning;
pub(crate) mod parse;
pub(crate) mod quotes;
pub(crate) mod single;
pub(crate) mod term;
pub(crate) mod token;

use crate::reading::learning::learn_line;
use crate::reading::parse::parse_learned;
use std::alloc::Global;
use sw_rows::{Call, Refusal, Schema};

/// The call of a line of a script, and None of an empty line or a comment.
///
/// The text is the line without its end. Its quoted texts become known first, where the table has an attribute of
/// texts, and are read as their codes; so does the text of a condition that no row meets. Refused `BadLine` with the
/// line's number, from 1, as it is given: why `Length` where the text is longer than 4,096 bytes; else `Word`, `End` or
/// `Value` for the first token from the left that cannot stand where it does. `UnknownAttribute` where that token is a
/// well-formed name that no attribute has; `TooMany` of `sw_rows::MOST_TEXTS` where it is a text that is one too many;
/// `NoMemory`. After a refusal the schema is as it was.
pub fn parse_line(
    alloc: Global,
    schema: &mut Schema,
    line: u32,
    text: &str,
) -> Result<Option<Call>, Refusal>
    ensures reading { Answers result (refused line (line_at (learned schema.old text.now) text.now)) }

    // a value comes just where the grammar relates it to the line, over what is known then
    ensures grammar { IfOk result (IsLine schema.new text.now) }
    ensures only { IsSchema schema.old → AnswersRelated result (IsLine (learned schema.old text.now) text.now) }

    ensures fits { IfOk result (λ call. IfSome call (FitsCall schema.new)) }
    ensures learned { OnOk result (schema.new ≡ learned schema.old text.now) }
    ensures unchanged { OnErr result (schema.new ≡ schema.old) }
{
    // for the prover: the schema is one, and is one still when it has learned
    let _count = schema.len();
    let known = schema.texts_known();
    learn_line(schema, text)?;
    let _still = schema.len();
    match parse_learned(alloc, schema, line, text) {
        Ok(call) => Ok(call),
        Err(e) => {
            schema.forget_texts(known);
            Err(e)
        }
    }
}
