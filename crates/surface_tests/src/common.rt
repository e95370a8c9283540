//! What several files of these tests share: scripts, and texts of characters.

use sbl_script::{Script, ScriptFault};
use std::alloc::{AllocError, Global};
use std::fmt::Display;
use test_support::PLURALS;

/// Two groupings. The second is built from the first.
pub(crate) const GROUPINGS: &str = "groupings ( v w )
externals ( stem )
define v 'ae'
define w v + 'y'
define stem as ( [ ( 'x' w ) or v ] delete )";

/// Removes a first `un` or `re`.
pub(crate) const PREFIXES: &str = "externals ( stem )
define stem as ( [ among ( 'un' () 're' () ) ] delete )";

/// The script of a text, or of one of the names above, that runs `stem`.
pub(crate) fn parse_text(alloc: Global, text: &str) -> Result<Script, ScriptFault> {
    let text = match text {
        "PLURALS" => PLURALS,
        "GROUPINGS" => GROUPINGS,
        "PREFIXES" => PREFIXES,
        _ => text,
    };
    Script::parse(alloc, text.as_bytes(), "stem")
}

/// The script that runs this body.
pub(crate) fn parse_body(alloc: Global, body: &str) -> Result<Script, ScriptFault> {
    let text = format!(in alloc; "externals ( stem ) define stem as {body}")?;
    parse_text(alloc, text.as_str())
}

/// The characters of a text.
pub(crate) fn letters(alloc: Global, text: &str) -> Result<Vec<char>, AllocError> {
    let mut letters = Vec::new(alloc);
    for letter in text.chars() {
        letters.push(letter)?;
    }
    Ok(letters)
}

/// The characters of texts with commas between them.
pub(crate) fn lists(alloc: Global, texts: &str) -> Result<Vec<Vec<char>>, AllocError> {
    let mut lists = Vec::new(alloc);
    for text in texts.split(',') {
        lists.push(letters(alloc, text)?)?;
    }
    Ok(lists)
}

/// The text of characters.
pub(crate) fn text_of(alloc: Global, letters: &[char]) -> Result<String, AllocError> {
    let mut text = String::new(alloc);
    for letter in letters {
        text.push(*letter)?;
    }
    Ok(text)
}

/// The displays of values, each with a semicolon.
pub(crate) fn displays<T: Display>(alloc: Global, values: &[T]) -> Result<String, AllocError> {
    let mut text = String::new(alloc);
    for value in values {
        text.push_str(format!(in alloc; "{value};")?.as_str())?;
    }
    Ok(text)
}

/// The display of the fault of a result, empty if it has none. What the result has else is dropped.
pub(crate) fn fault_text<T: Drop, E: Display + Drop>(
    alloc: Global,
    made: Result<T, E>,
) -> Result<String, AllocError> {
    match made {
        Ok(value) => {
            drop(value);
            Ok(String::new(alloc))
        }
        Err(fault) => format!(in alloc; "{fault}"),
    }
}

/// The field of a row with this number, from 0; an empty one if there are fewer. Fields are separated by `|`.
pub(crate) fn field(row: &str, number: usize) -> &str {
    for (at, text) in row.split('|').enumerate() {
        if at == number {
            return text;
        }
    }
    ""
}

/// The number in the field of a row, 0 if there is none.
pub(crate) fn number(row: &str, at: usize) -> u32 {
    field(row, at).parse().unwrap_or(0)
}

/// The field of a row with a line feed for each `¶`.
pub(crate) fn field_lines(alloc: Global, row: &str, number: usize) -> Result<String, AllocError> {
    let mut text = String::new(alloc);
    for letter in field(row, number).chars() {
        text.push(if letter == '¶' { '\n' } else { letter })?;
    }
    Ok(text)
}
