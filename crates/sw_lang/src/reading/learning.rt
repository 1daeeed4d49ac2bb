//! The texts of a line, made known before it is read.

ghost use Rattle.std.specs.Prelude.{◌≡◌, [], true, MatchOption, IfErr, OnErr, OnOk};
ghost use Rattle.sw_rows.specs.Header.{has_texts};
ghost use Rattle.sw_lang.specs.Learning.{knowing, learned, quoted_text, quoted_texts, Quotes};
ghost use Rattle.sw_lang.specs.Tokens.{tok, tokens};

use crate::reading::parse::{MOST_LINE, is_comment};
use crate::reading::quotes::undoubled;
use crate::reading::token::{Token, next_token};
use sw_rows::{MOST_BYTES_OF_TEXT, Refusal, Schema, read_text};

/// The text of a quoted token, in this buffer, where it may be the text of a cell.
fn quoted_text<'b>(token: Token, buffer: &'b mut [u8; MOST_BYTES_OF_TEXT]) -> Option<&'b str>
    ensures { MatchOption result (quoted_text (tok token.entry) ≡ []) (λ text. Quotes (tok token.entry) text.now) }
{
    let Token::Quoted(raw) = token else {
        return None;
    };
    let text = undoubled(raw, buffer)?;
    read_text(text)
}

/// Makes the text of a quoted token known.
fn learn_token(schema: &mut Schema, token: Token) -> Result<(), Refusal>
    requires { has_texts schema.old ≡ true }
    ensures learned { OnOk result (schema.new ≡ knowing (quoted_text (tok token.entry)) schema.old) }
    ensures refused { IfErr result (λ e. e ≡ Refusal.NoMemory) }
    ensures unchanged { OnErr result (schema.new ≡ schema.old) }
{
    // for the prover: the schema is one
    let _count = schema.len();
    let mut buffer = [0; MOST_BYTES_OF_TEXT];
    let Some(text) = quoted_text(token, &mut buffer) else {
        return Ok(());
    };
    match schema.learn_text(text) {
        Ok(()) => Ok(()),
        Err(_) => Err(Refusal::NoMemory),
    }
}

/// Makes the texts of quoted tokens known.
fn learn_tokens(schema: &mut Schema, text: &[u8]) -> Result<(), Refusal>
    requires { has_texts schema.old ≡ true }
    ensures learned { OnOk result (schema.new ≡ knowing (quoted_texts (tokens text.now)) schema.old) }
    ensures refused { IfErr result (λ e. e ≡ Refusal.NoMemory) }
    ensures unchanged { OnErr result (schema.new ≡ schema.old) }
{
    // for the prover: the schema is one
    let _count = schema.len();
    let known = schema.texts_known();
    let mut rest = text;
    while let Some((token, after)) = next_token(rest) {
        if let Err(e) = learn_token(schema, token) {
            schema.forget_texts(known);
            return Err(e);
        }
        rest = after;
    }
    Ok(())
}

/// Makes the quoted texts of a line known, in their order, where an attribute is of texts.
///
/// A comment and a line of more than 4,096 bytes have none. Texts past the greatest number stay unknown, as reading the
/// line then tells. Refused `NoMemory` alone, and then nothing has changed.
pub(crate) fn learn_line(schema: &mut Schema, text: &str) -> Result<(), Refusal>
    ensures learned { OnOk result (schema.new ≡ learned schema.old text.now) }
    ensures refused { IfErr result (λ e. e ≡ Refusal.NoMemory) }
    ensures unchanged { OnErr result (schema.new ≡ schema.old) }
{
    // for the prover: the schema is one
    let _count = schema.len();
    let text = text.as_bytes();
    if !schema.has_texts() {
        return Ok(());
    }
    if text.len() > MOST_LINE {
        return Ok(());
    }
    if is_comment(text) {
        return Ok(());
    }
    learn_tokens(schema, text)
}
