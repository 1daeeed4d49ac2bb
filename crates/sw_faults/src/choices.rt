//! What may stand at a place of a line: words of each sort are tried there, and the parser says which it takes.

use std::alloc::{AllocError, Global};
use sw_lang::parse_line;
use sw_rows::{Refusal, Schema, Why};

/// What comes of a line's beginning.
#[derive(Clone, Copy, PartialEq, Eq)]
pub(crate) enum Beginning {
    /// A call.
    Whole,
    /// The beginning of one.
    Open,
    /// Neither.
    Refused,
}

/// What comes of a line's beginning, which is read as a line. No text becomes known by it.
pub(crate) fn read_beginning(
    alloc: Global,
    schema: &mut Schema,
    line: &str,
) -> Result<Beginning, AllocError> {
    let known = schema.texts_known();
    let read = parse_line(alloc, schema, 1, line);
    schema.forget_texts(known);
    match read {
        Ok(_) => Ok(Beginning::Whole),
        Err(Refusal::BadLine { why: Why::End, .. }) => Ok(Beginning::Open),
        Err(Refusal::NoMemory) => Err(AllocError),
        Err(_) => Ok(Beginning::Refused),
    }
}

/// What may stand behind a line's beginning, as it is found.
#[derive(Drop)]
struct Choices<'s, 'f> {
    alloc: Global,
    schema: &'s mut Schema,
    front: &'f str,
    text: String,
}

impl Choices<'_, '_> {
    /// Whether a word may stand there.
    fn takes(&mut self, word: &str) -> Result<bool, AllocError> {
        let line = format!(in self.alloc; "{} {word}", self.front)?;
        Ok(read_beginning(self.alloc, self.schema, line.as_str())? != Beginning::Refused)
    }

    /// Adds what may stand there, in words.
    fn add(&mut self, what: &str) -> Result<(), AllocError> {
        if !self.text.is_empty() {
            self.text.push_str(", ")?;
        }
        self.text.push_str(what)
    }

    /// Adds each of some words that may stand there.
    fn add_words(&mut self, words: &[&str]) -> Result<(), AllocError> {
        for word in words {
            if self.takes(word)? {
                self.add(word)?;
            }
        }
        Ok(())
    }

    /// Adds each attribute that may stand there.
    fn add_names(&mut self) -> Result<(), AllocError> {
        for attr in 0..self.schema.len() {
            if attr < self.schema.len() {
                let name = String::from_str(self.alloc, self.schema.name(attr))?;
                if self.takes(name.as_str())? {
                    self.add(name.as_str())?;
                }
            }
        }
        Ok(())
    }

    /// Adds a comma, where it may stand there.
    fn add_comma(&mut self) -> Result<(), AllocError> {
        if self.takes(",")? {
            self.add("a comma")?;
        }
        Ok(())
    }

    /// Adds the comparisons that may stand there.
    fn add_comparisons(&mut self) -> Result<(), AllocError> {
        if self.takes("<")? {
            return self.add("< <= = >= >");
        }
        if self.takes("=")? {
            return self.add("=, since texts are compared by it alone");
        }
        Ok(())
    }

    /// Adds numbers, where they may stand there.
    fn add_numbers(&mut self) -> Result<(), AllocError> {
        const DECIMALS: [(&str, &str); 6] = [
            ("0.000001", "a number with at most 6 decimals"),
            ("0.00001", "a number with at most 5 decimals"),
            ("0.0001", "a number with at most 4 decimals"),
            ("0.001", "a number with at most 3 decimals"),
            ("0.01", "a number with at most 2 decimals"),
            ("0.1", "a number with at most 1 decimal"),
        ];
        for (word, what) in DECIMALS {
            if self.takes(word)? {
                return self.add(what);
            }
        }
        if self.takes("-1")? {
            return self.add("a whole number");
        }
        if self.takes("1")? {
            return self.add("the key of a row");
        }
        Ok(())
    }

    /// Adds the values that may stand there.
    fn add_values(&mut self) -> Result<(), AllocError> {
        self.add_numbers()?;
        if self.takes("true")? {
            self.add("true or false")?;
        }
        if self.takes("'x'")? {
            self.add("a text in single quotes")?;
        }
        Ok(())
    }

    /// Adds the line's end, where the beginning is a call.
    fn add_end(&mut self) -> Result<(), AllocError> {
        if self.front.is_empty() {
            return Ok(());
        }
        if read_beginning(self.alloc, self.schema, self.front)? == Beginning::Whole {
            self.add("the end of the line")?;
        }
        Ok(())
    }

    /// Adds all that may stand there.
    fn add_all(&mut self) -> Result<(), AllocError> {
        self.add_names()?;
        self.add_words(&WORDS)?;
        self.add_comma()?;
        self.add_comparisons()?;
        self.add_values()?;
        self.add_end()
    }
}

/// The words of the grammar that may stand at a place where no value does.
const WORDS: [&str; 9] = [
    "select", "count", "sum", "min", "max", "insert", "delete", "where", "and",
];

/// What may stand behind a line's beginning, in words, with commas between.
pub(crate) fn choices_behind(
    alloc: Global,
    schema: &mut Schema,
    front: &str,
) -> Result<String, AllocError> {
    let mut choices = Choices {
        alloc,
        schema,
        front,
        text: String::new(alloc),
    };
    choices.add_all()?;
    let Choices { text, .. } = choices;
    Ok(text)
}
