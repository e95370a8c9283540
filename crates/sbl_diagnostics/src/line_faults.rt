//! The line on a fault of one line of an input: where it is, what is wrong, and what to do.

use crate::characters::push_named;
use crate::encodings::push_conversion;
use std::alloc::{AllocError, Global};

/// What standard input is called.
pub const STANDARD_INPUT: &str = "standard input";

/// What the lines of an input are.
#[derive(Clone, Copy)]
pub enum LineRole {
    /// Lines of a script.
    Script,
    /// Words.
    Word,
    /// Commands, or expected stems.
    Other,
}

/// What is wrong with a line of an input.
#[derive(Clone, Copy)]
pub enum BadLine<'a> {
    /// It is not UTF-8. These are the bytes of the input, or of the line.
    NotText(&'a [u8]),
    /// It has more bytes than a line may have.
    TooLong(LineRole),
    /// It has more characters than a word may have, which is this number.
    LongWord(usize),
}

/// Returns the line on a fault of a line: the name of the input, the number of the line, what is wrong, and what to do. Returns `AllocError` if
/// an allocation fails.
pub fn bad_line_text(
    alloc: Global,
    name: &str,
    line: u64,
    problem: BadLine<'_>,
) -> Result<String, AllocError> {
    let mut shown = String::new(alloc);
    push_named(&mut shown, name)?;
    let place = format!(in alloc; ":{line}: ")?;
    shown.push_str(place.as_str())?;
    match problem {
        BadLine::NotText(bytes) => {
            shown.push_str("not UTF-8. ")?;
            push_conversion(&mut shown, bytes, file_of(name))?;
        }
        BadLine::TooLong(role) => {
            shown.push_str("more than 65,536 bytes, which no line may have. ")?;
            shown.push_str(advice(role))?;
        }
        BadLine::LongWord(most) => {
            let text = format!(in alloc; "more than {most} characters, which no word may have")?;
            shown.push_str(text.as_str())?;
        }
    }
    Ok(shown)
}

/// Returns the name of the file of an input in a command.
fn file_of(name: &str) -> &str {
    if name == STANDARD_INPUT { "OLD" } else { name }
}

/// Returns what to do with a line that is too long.
fn advice(role: LineRole) -> &'static str {
    match role {
        LineRole::Script => "Break it",
        LineRole::Word => "Write one word on each line",
        LineRole::Other => "Shorten it",
    }
}
