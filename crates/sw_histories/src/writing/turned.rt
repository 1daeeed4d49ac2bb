//! A text that is made from its end.

ghost use Rattle.std.specs.Prelude.{◌≡◌, ◌++◌, OnOk};

use std::alloc::AllocError;
use std::marker::Model;

/// A text that is made from its end: what is put stands before what stood. Contracts see the text.
#[derive(Drop)]
pub(super) struct TurnedText {
    /// The last byte stands first.
    turned: Vec<u8>,
}

impl Model for TurnedText {
    ghost use Rattle.std.specs.Prelude.{List, ℕ, reverse};

    ghost Value = { List ℕ };

    ghost view = { λ t. reverse t.turned.items };
}

impl TurnedText {
    /// A text that ends so.
    pub(super) fn ending(text: Vec<u8>) -> TurnedText
        ensures { result ≡ text.items }
    {
        let mut turned = text;
        turned.reverse();
        TurnedText { turned }
    }

    /// Puts a piece before the text.
    pub(super) fn put_before(&mut self, piece: Vec<u8>) -> Result<(), AllocError>
        ensures { OnOk result (self.new ≡ piece.items ++ self.old) }
    {
        let mut bytes = piece;
        bytes.reverse();
        self.turned.extend_from_slice(bytes.as_slice())?;
        Ok(())
    }

    /// The text, as it is read.
    pub(super) fn into_bytes(self) -> Vec<u8>
        ensures { result.items ≡ self }
    {
        let mut bytes = self.turned;
        bytes.reverse();
        bytes
    }
}
