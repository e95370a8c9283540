//! Words and characters of other languages, and parts of Snowball that are left out: what to write in a script.

use sbl_text::{Kind, Word, tokens};
use std::alloc::Global;

/// Returns what to write in place of a part of Snowball that is left out.
pub(crate) fn left_out_text(kind: Option<Kind>) -> &'static str {
    match kind {
        Some(Kind::Word(Word::Size)) => "write len, which counts characters",
        Some(Kind::Word(Word::SizeOf)) => "write lenof, which counts characters",
        _ => "docs/LANGUAGE.md says what to write",
    }
}

/// Returns what to write in place of a word that other languages have.
fn foreign_word(name: &str) -> Option<&'static str> {
    match name {
        "if" | "then" | "else" | "elif" | "elsif" | "unless" => Some(
            "Snowball has no if: ( C D ) runs D if C signals t, and C or D runs D if C signals f.",
        ),
        "while" | "until" => {
            Some("Snowball has no while: repeat C runs C again and again, until it signals f.")
        }
        "begin" | "end" => Some("Snowball has no begin and end: commands are in parentheses."),
        "return" => Some("Snowball has no return: a routine ends with the last of its commands."),
        "at" => Some("Write atlimit or atmark as one word."),
        "mark" => Some("Write setmark, tomark or atmark as one word."),
        "function" | "func" | "fun" | "def" | "sub" | "proc" | "procedure" => {
            Some("A routine begins with define and its name: define r as ( .. ).")
        }
        "replace" => Some("Snowball has no replace: <- 'x' puts x in place of the slice."),
        "remove" => Some("Snowball has no remove: delete takes the slice out."),
        _ => None,
    }
}

/// Returns whether a script has `define` before this name.
fn is_defined(alloc: Global, script: &[u8], name: &str) -> bool {
    let Ok(text) = str::from_utf8(script) else {
        return false;
    };
    let Ok(tokens) = tokens(alloc, text) else {
        return false;
    };
    let mut follows = false;
    for token in &tokens {
        if follows && token.text == name {
            return true;
        }
        follows = token.kind == Kind::Word(Word::Define);
    }
    false
}

/// Returns what to write in place of a name that is not declared, if it is a word of other languages, and not defined in the script.
pub(crate) fn advice_on(alloc: Global, script: &[u8], name: &str) -> Option<&'static str> {
    let advice = foreign_word(name)?;
    if is_defined(alloc, script, name) {
        return None;
    }
    Some(advice)
}

/// Returns whether a character is beyond ASCII, and no blank, dash or quotation mark, and not invisible.
pub(crate) fn is_letter(character: char) -> bool {
    match character {
        '\u{A0}' | '\u{AB}' | '\u{B4}' | '\u{BB}' | '\u{2000}'..='\u{206F}' | '\u{2212}' => false,
        _ => character > '\u{7F}',
    }
}

/// Returns whether a character is of an alphabet some of whose letters look like Latin ones: Greek, Cyrillic, or full width.
pub(crate) fn may_look_latin(character: char) -> bool {
    matches!(character, '\u{370}'..='\u{52F}' | '\u{FF21}'..='\u{FF5A}')
}

/// Returns what to write in place of a character that begins no token, if that is sure.
pub(crate) fn foreign_character(character: char) -> Option<&'static str> {
    match character {
        ',' | ';' => Some("Names and commands have only white space between them"),
        '"'
        | '`'
        | '\u{AB}'
        | '\u{B4}'
        | '\u{BB}'
        | '\u{2018}'..='\u{201F}'
        | '\u{2032}'..='\u{2036}'
        | '\u{2039}'
        | '\u{203A}' => Some("A literal is in straight single quotes: 'abc'"),
        '#' | '%' => Some("A comment is from // to the end of the line, or from /* to */"),
        '{' | '}' => Some("Commands and names are in round parentheses"),
        '|' => Some("Between two commands write or"),
        '&' => Some("Between two commands write and"),
        '!' => Some("Before a command write not"),
        '\u{A0}' | '\u{2007}' | '\u{202F}' => {
            Some("This is a no-break space: put a blank in its place")
        }
        '\u{2013}' | '\u{2014}' | '\u{2212}' => Some("Put - in its place"),
        '\u{200B}'..='\u{200D}' | '\u{2060}' => {
            Some("This is an invisible character: take it away")
        }
        '\u{2000}'..='\u{206F}' => None,
        '\u{80}'..='\u{10FFFF}' => Some("Names have only a to z, A to Z, 0 to 9 and _"),
        _ => None,
    }
}

/// Returns whether a point at this offset is the first character of its line, and blanks follow it there, and nothing else.
pub(crate) fn is_end_line(text: &[u8], begin: usize) -> bool {
    let (prefix, rest) = text.split_at_checked(begin).unwrap_or((text, &[]));
    if !(prefix.is_empty() || prefix.ends_with(b"\n")) {
        return false;
    }
    if !(rest.starts_with(b". ") || rest.starts_with(b".\t")) {
        return false;
    }
    for byte in rest.get(1..).unwrap_or(&[]) {
        if *byte == b'\n' {
            return true;
        }
        if !byte.is_ascii_whitespace() {
            return false;
        }
    }
    true
}
