//! The place of a fault: the line of a text, and carets below its token.

ghost use Rattle.std.specs.Prelude.{◌≡◌, ◌⊎◌, IfNone, IfSome};
ghost use Rattle.std.specs.Str.{IsUtf8, IsValidUpTo};
ghost use Rattle.sbl_ast.specs.Source.{Source};
ghost use Rattle.sbl_script.specs.Reading.{IsFaultOf, IsScriptOf};

use crate::characters::{plain, push_named, width};
use crate::sentences::{Faulty, Place, Spot, is_blank, push_reason, push_sentence};
use crate::text_lines::line_at;
use sbl_script::Script;
use sbl_source_map::{Position, ScriptFault, offset_of_fault, position_of};
use sbl_text::Lexer;
use std::alloc::{AllocError, Global};

/// Up to this column a line is shown from its beginning (our own choice).
const WIDE: usize = 90;

/// How many characters of a longer line are shown before the place (our own choice).
const BEFORE: usize = 60;

/// How many characters of a line are shown (our own choice).
const SHOWN: usize = 120;

/// What is shown for the part of a line that is left out.
const LEFT_OUT: &str = "..";

/// Returns the fault of a script, if it has one. Returns `OutOfMemory` if an allocation fails.
pub fn fault_of(alloc: Global, text: &[u8], external: &str) -> Option<ScriptFault>
    ensures fault { IfSome result (λ f. (f ≡ ScriptFault.OutOfMemory) ⊎ IsFaultOf text.now external.now f) }
    ensures script { IfNone result ((s : Source) × IsScriptOf text.now external.now s) }
{
    match Script::parse(alloc, text, external) {
        Ok(script) => {
            script.discard();
            None
        }
        Err(fault) => Some(fault),
    }
}

/// Returns the offset of the first byte that is not UTF-8, if there is one.
pub fn offset_of_byte(text: &[u8]) -> Option<usize>
    ensures offset { IfSome result (λ offset. IsValidUpTo text.now offset) }
    ensures none { IfNone result (IsUtf8 text.now) }
{
    match str::from_utf8(text) {
        Ok(_) => None,
        Err(error) => Some(error.valid_up_to()),
    }
}

/// Returns the offset of the fault of a script, if it is at one.
fn offset_in_script(
    alloc: Global,
    text: &[u8],
    fault: ScriptFault,
) -> Result<Option<usize>, AllocError> {
    match offset_of_fault(alloc, text, fault)? {
        Some(offset) => Ok(Some(offset)),
        None if fault == ScriptFault::NotUtf8 => Ok(offset_of_byte(text)),
        None => Ok(None),
    }
}

/// Returns the first character of a text.
fn first_character(text: &str) -> &str {
    match text.chars().next() {
        Some(character) => text.get(..character.len_utf8()).unwrap_or(""),
        None => "",
    }
}

/// Returns what is at an offset of a text: a token, or else a character.
pub(crate) fn spot_at(alloc: Global, text: &[u8], begin: usize) -> Spot<'_> {
    let rest = text.get(begin..).unwrap_or(&[]);
    let Ok(rest) = str::from_utf8(rest) else {
        return Spot {
            begin,
            token: "",
            kind: None,
        };
    };
    match Lexer::new(alloc, rest).next() {
        Ok(Some(token)) if token.start == 0 => Spot {
            begin,
            token: token.text,
            kind: Some(token.kind),
        },
        _ => Spot {
            begin,
            token: first_character(rest),
            kind: None,
        },
    }
}

/// Returns the characters of a line, with `?` for each byte that is not UTF-8.
fn characters_of(alloc: Global, line: &[u8]) -> Result<Vec<char>, AllocError> {
    let mut characters = Vec::new(alloc);
    let mut rest = line;
    for _ in 0..line.len() {
        let valid = match str::from_utf8(rest) {
            Ok(text) => return push_characters(characters, text),
            Err(error) => error.valid_up_to(),
        };
        let (prefix, after) = split_at(rest, valid);
        if let Ok(text) = str::from_utf8(prefix) {
            characters = push_characters(characters, text)?;
        }
        characters.push('?')?;
        rest = after.get(1..).unwrap_or(&[]);
    }
    Ok(characters)
}

/// Returns the bytes before an offset, and those from it on; none after it if there are fewer.
fn split_at(bytes: &[u8], offset: usize) -> (&[u8], &[u8]) {
    (
        bytes.get(..offset).unwrap_or(bytes),
        bytes.get(offset..).unwrap_or(&[]),
    )
}

/// Returns the characters with those of a text after them.
fn push_characters(mut characters: Vec<char>, text: &str) -> Result<Vec<char>, AllocError> {
    for character in text.chars() {
        characters.push(character)?;
    }
    Ok(characters)
}

/// Appends characters, with `?` for those that a terminal obeys.
fn push_shown(shown: &mut String, characters: &[char]) -> Result<(), AllocError> {
    for character in characters {
        shown.push(plain(*character))?;
    }
    Ok(())
}

/// Appends blanks that are as wide as these characters; tabs stay tabs.
fn push_blanks(shown: &mut String, characters: &[char]) -> Result<(), AllocError> {
    for character in characters {
        if *character == '\t' {
            shown.push('\t')?;
        } else {
            push_times(shown, ' ', width(*character))?;
        }
    }
    Ok(())
}

/// Appends a character so many times.
fn push_times(shown: &mut String, character: char, count: usize) -> Result<(), AllocError> {
    for _ in 0..count {
        shown.push(character)?;
    }
    Ok(())
}

/// Appends carets that are as wide as these characters, and one if they have no width.
fn push_carets(shown: &mut String, characters: &[char]) -> Result<(), AllocError> {
    let mut columns: usize = 0;
    for character in characters {
        columns = columns.saturating_add(width(*character));
    }
    push_times(shown, '^', columns.max(1))
}

/// Appends the line of a place, of a long line the part around it, and carets below the token. `before` is how many characters are
/// before the place, and `length` how many the token has.
fn push_line(
    shown: &mut String,
    characters: &[char],
    before: usize,
    length: usize,
) -> Result<(), AllocError> {
    let first = if before >= WIDE { before - BEFORE } else { 0 };
    let rest = characters.get(first..).unwrap_or(&[]);
    let part = rest.get(..SHOWN).unwrap_or(rest);
    let place = before.saturating_sub(first).min(part.len());
    let begin = if first > 0 { LEFT_OUT } else { "" };
    shown.push_str("\n    ")?;
    shown.push_str(begin)?;
    push_shown(shown, part)?;
    if part.len() < rest.len() {
        shown.push_str(LEFT_OUT)?;
    }
    shown.push_str("\n    ")?;
    push_times(shown, ' ', begin.len())?;
    push_blanks(shown, part.get(..place).unwrap_or(&[]))?;
    let token = part.get(place..).unwrap_or(&[]);
    push_carets(shown, token.get(..length).unwrap_or(token))
}

/// What is named before the place in a text: where the text itself is, if it is a part of a longer one, and its title.
#[derive(Clone, Copy)]
pub(crate) struct Title<'a> {
    pub(crate) title: &'a str,
    /// The name of the longer text, and the line in it in which the text begins, from 1.
    pub(crate) source: Option<(&'a str, usize)>,
}

/// Appends the title and, if there is one, the position. It ends with a colon and a blank.
pub(crate) fn push_title(
    alloc: Global,
    shown: &mut String,
    title: Title<'_>,
    position: Option<Position>,
) -> Result<(), AllocError> {
    if let Some((name, first)) = title.source {
        let (line, column) = match position {
            Some(position) => (position.line, position.column),
            None => (1, 1),
        };
        let row = first.saturating_add(line.saturating_sub(1));
        push_named(shown, name)?;
        let place = format!(in alloc; ":{row}:{column}: ")?;
        shown.push_str(place.as_str())?;
    }
    push_named(shown, title.title)?;
    match position {
        Some(Position { line, column }) => {
            let place = format!(in alloc; ":{line}:{column}: ")?;
            shown.push_str(place.as_str())
        }
        None => shown.push_str(": "),
    }
}

/// Returns the lines on a fault of a text: its place, what is wrong, and the line with carets; only what is wrong if it is at no
/// place.
pub(crate) fn fault_text(
    title: Title<'_>,
    faulty: Faulty<'_>,
    begin: Option<usize>,
) -> Result<String, AllocError> {
    let mut shown = String::new(faulty.alloc);
    if faulty.part.is_some() && is_blank(faulty.text) {
        push_title(faulty.alloc, &mut shown, title, None)?;
        shown.push_str("the text is empty")?;
        return Ok(shown);
    }
    let Some(begin) = begin else {
        push_title(faulty.alloc, &mut shown, title, None)?;
        push_reason(&mut shown, faulty)?;
        return Ok(shown);
    };
    let position = position_of(faulty.text, begin);
    let spot = spot_at(faulty.alloc, faulty.text, begin);
    push_title(faulty.alloc, &mut shown, title, Some(position))?;
    push_sentence(&mut shown, Place { faulty, spot })?;
    let characters = characters_of(faulty.alloc, line_at(faulty.text, position.line))?;
    let before = position.column.saturating_sub(1);
    push_line(&mut shown, &characters, before, spot.token.chars().count())?;
    Ok(shown)
}

/// Returns the lines on a fault of a whole script. `title` is the name of the script. Returns `AllocError` if an allocation fails.
pub fn script_fault_text<'x>(
    alloc: Global,
    title: &str,
    text: &'x [u8],
    external: &'x str,
    fault: ScriptFault,
) -> Result<String, AllocError> {
    let begin = offset_in_script(alloc, text, fault)?;
    let title = Title {
        title,
        source: None,
    };
    let faulty = Faulty {
        alloc,
        text,
        fault,
        part: None,
        script: text,
        external,
    };
    fault_text(title, faulty, begin)
}
