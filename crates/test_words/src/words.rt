//! Words, numbers, and what a line of cases begins with.

/// What stands before the first of a mark, and what stands after it; all of a text without one, and nothing.
pub fn split(text: &str, mark: char) -> (&str, &str) {
    match text.split_once(mark) {
        Some(parts) => parts,
        None => (text, ""),
    }
}

/// A word as a number, 0 where it is none.
pub fn number(word: &str) -> u64 {
    match word.parse::<u64>() {
        Ok(n) => n,
        Err(_) => 0,
    }
}

/// A word as a cell, 0 where it is none.
pub fn cell(word: &str) -> i64 {
    match word.parse::<i64>() {
        Ok(n) => n,
        Err(_) => 0,
    }
}

/// A word as a count, 0 where it is none.
pub fn place(word: &str) -> usize {
    match word.parse::<usize>() {
        Ok(n) => n,
        Err(_) => 0,
    }
}

/// What is written before a line of cases, that its output can be told from it: nothing before a comment or an empty line.
pub fn mark(line: &str) -> &'static str {
    if line.is_empty() || line.starts_with('#') {
        ""
    } else {
        "> "
    }
}
