//! Functions for tables that are texts, and for letters and texts.

use std::alloc::{AllocError, Global};
use std::fmt::Display;

/// Returns the field of a row with this number, from 0; an empty one if there are fewer. Fields are separated by `|`.
pub fn field(row: &str, number: usize) -> &str {
    for (at, text) in row.split('|').enumerate() {
        if at == number {
            return text;
        }
    }
    ""
}

/// Returns the number in the field of a row with this number; 0 if there is none.
pub fn number(row: &str, at: usize) -> u64 {
    field(row, at).parse().unwrap_or(0)
}

/// Returns whether the field of a row with this number is this text, or `?`.
pub fn fits(row: &str, at: usize, text: &str) -> bool {
    field(row, at) == "?" || field(row, at) == text
}

/// Returns the rows of a text, each with its script. A line with `=` has the script of the rows after it. Returns `AllocError` if an
/// allocation fails.
pub fn with_scripts<'a>(
    alloc: Global,
    text: &'a str,
) -> Result<Vec<(&'a str, &'a str)>, AllocError> {
    let mut rows = Vec::new(alloc);
    let mut script = "";
    for line in text.split('\n') {
        match line.strip_prefix("= ") {
            Some(text) => script = text,
            None => rows.push((script, line))?,
        }
    }
    Ok(rows)
}

/// Returns the letters of a text. Returns `AllocError` if an allocation fails.
pub fn letters(alloc: Global, text: &str) -> Result<Vec<char>, AllocError> {
    let mut letters = Vec::new(alloc);
    for letter in text.chars() {
        letters.push(letter)?;
    }
    Ok(letters)
}

/// Returns the text of these letters. Returns `AllocError` if an allocation fails.
pub fn text_of(alloc: Global, letters: &[char]) -> Result<String, AllocError> {
    let mut text = String::new(alloc);
    for letter in letters {
        text.push(*letter)?;
    }
    Ok(text)
}

/// Returns the text with a line feed for each `¶`. Returns `AllocError` if an allocation fails.
pub fn with_line_feeds(alloc: Global, text: &str) -> Result<String, AllocError> {
    let mut made = String::new(alloc);
    for letter in text.chars() {
        made.push(if letter == '¶' { '\n' } else { letter })?;
    }
    Ok(made)
}

/// Returns the texts of these values, each with a semicolon. Returns `AllocError` if an allocation fails.
pub fn print_values<T: Display>(alloc: Global, values: &[T]) -> Result<String, AllocError> {
    let mut text = String::new(alloc);
    for value in values {
        text.push_str(format!(in alloc; "{value};")?.as_str())?;
    }
    Ok(text)
}

/// Returns whether a text has the fields of a row from the one with this number to its last one, or `?` for some of them.
pub fn is_as_row(row: &str, from: usize, text: &str) -> bool {
    let mut at = from;
    for part in text.split('|') {
        if !fits(row, at, part) {
            return false;
        }
        at = at.saturating_add(1);
    }
    field(row, at).is_empty()
}
