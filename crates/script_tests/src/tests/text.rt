//! Tests of the tokens of texts, and of codes. tests/cases has rows of faults, surface_tests has the lexer, literals and the texts of faults.

use sbl_text::{Coding, Sign, Token, Value, Word, macro_value, read_codes, tokens};
use std::alloc::{AllocError, Global};
use std::process::Abort;
use std::test::Fail;
use test_support::{letters, text_of};

/// A token as its kind, its first byte, the byte after it, and its value if it has one.
fn token_text(alloc: Global, token: &Token<'_>) -> Result<String, AllocError> {
    let (kind, start, end) = (&token.kind, token.start, token.end);
    match &token.value {
        Value::None | Value::Inserts(..) => format!(in alloc; "{kind:?} {start} {end};"),
        Value::Number(n) => format!(in alloc; "{kind:?} {start} {end} {n};"),
        Value::Literal { spelling, value } => {
            let value = text_of(alloc, value)?;
            format!(in alloc; "{kind:?} {start} {end} {spelling} {value};")
        }
    }
}

/// What is asked of a text: the texts of its tokens with a space after each, its tokens, or the characters of its last literal.
#[derive(Clone, Copy)]
enum Asked {
    Texts,
    Tokens,
    Value,
}

/// Returns what is asked of a text, or its fault.
fn answer_text(alloc: Global, text: &str, asked: Asked) -> Result<String, AllocError> {
    let found = match tokens(alloc, text) {
        Ok(found) => found,
        Err(fault) => return format!(in alloc; "{fault}"),
    };
    let mut shown = String::new(alloc);
    for token in &found {
        match (asked, &token.value) {
            (Asked::Texts, _) => {
                shown.push_str(token.text)?;
                shown.push(' ')?;
            }
            (Asked::Tokens, _) => shown.push_str(token_text(alloc, token)?.as_str())?,
            (Asked::Value, Value::Literal { value, .. }) => shown = text_of(alloc, value)?,
            (Asked::Value, _) => {}
        }
    }
    Ok(shown)
}

const TEXTS: &[(&str, &str)] = &[
    ("", ""),
    (" \t\r\n\u{b}\u{c}\u{feff}", ""),
    ("2x", "2 x "),
    ("x<->s", "x <- > s "),
    ("$x=>3", "$ x => 3 "),
    ("$x=-1", "$ x = - 1 "),
    ("<//", "< "),
    ("a// b\nc", "a c "),
    ("a/* b * / */c", "a c "),
    ("a/**/b/***/c", "a b c "),
    ("a_1 B2", "a_1 B2 "),
    (
        "( ) [ ] $ + - * / = == != < <= > >= <- <+ -> += -= *= /= => ?",
        "( ) [ ] $ + - * / = == != < <= > >= <- <+ -> += -= *= /= => ? ",
    ),
    ("'a // b' 'c\rd' ''", "'a // b' 'c\rd' '' "),
    ("'\u{e4}\u{1f600}'", "'\u{e4}\u{1f600}' "),
    ("stringescapes{} x", "stringescapes {} x "),
    ("stringescapes //", "stringescapes // "),
    ("stringescapesab", "stringescapesab "),
    ("stringdef", "stringdef "),
    ("stringdef m'x'", "stringdef m'x' "),
    ("stringdef m/*c*/ 'x'", "stringdef m/*c*/ 'x' "),
    ("stringdef /*c*/ m", "stringdef /*c*/ m "),
    ("stringdef e /*c*/ hex 'E4'", "stringdef e hex 'E4' "),
    ("stringdef e hex hex 'zz'", "stringdef e hex hex 'zz' "),
    ("a _b", "1 BadCharacter at 2"),
];

const TOKENS: &[(&str, &str)] = &[(
    "among amongst Among \u{feff}0042 <= 'h\u{e9}'",
    "Word(Among) 0 5;Name 6 13;Name 14 19;Number 23 27 42;Sign(AtMost) 28 30;Literal 31 36 h\u{e9} h\u{e9};",
)];

/// A macro holds from its definition on.
const VALUES: &[(&str, &str)] = &[
    (
        "stringescapes {} stringdef ss '\u{df}' 'gro{ss}{'}'",
        "gro\u{df}'",
    ),
    (
        "stringescapes {} stringdef a 'x' stringdef b '{a}y' '{b}'",
        "xy",
    ),
    (
        "stringescapes {} stringdef a 'x' stringdef a '{a}{a}' '{a}'",
        "xx",
    ),
    (
        "stringescapes {} stringdef a 'x' stringescapes <> '<a>{a}'",
        "x{a}",
    ),
    ("stringescapes {} stringdef e hex 'E4  62' '{e}'", "\u{e4}b"),
    ("stringescapes {} stringdef e decimal '98' '{e}'", "b"),
    (
        "stringescapes {} stringdef U+E4 'a' '{U+E4}{U+e5}'",
        "a\u{e5}",
    ),
    ("'{a}'", "{a}"),
];

/// Asserts what is shown of each text.
fn are_shown(
    rt: &impl Abort,
    alloc: Global,
    asked: Asked,
    rows: &[(&str, &str)],
) -> Result<(), Fail> {
    for (text, want) in rows {
        let shown = answer_text(alloc, text, asked)?;
        assert!(rt; shown.as_str() == *want, "{shown} in {text:?}");
    }
    Ok(())
}

#[test]
fn texts_are_cut_into_tokens(rt: HostRuntime) -> Result<(), Fail> {
    are_shown(&rt, rt.alloc(), Asked::Texts, TEXTS)?;
    are_shown(&rt, rt.alloc(), Asked::Tokens, TOKENS)?;
    are_shown(&rt, rt.alloc(), Asked::Value, VALUES)
}

#[test]
fn words_and_signs_know_how_they_are_written(rt: HostRuntime) {
    for (text, want) in [
        (Word::SetMark.text(), "setmark"),
        (Word::AtLeast.text(), "atleast"),
        (Sign::LessMinus.text(), "<-"),
        (Sign::Question.text(), "?"),
    ] {
        assert_eq!(rt; text, want);
    }
}

/// A code, and how often it is there. Such a macro has as many characters.
const MACROS: &[(Coding, &str)] = &[
    (Coding::Plain, "\u{df}"),
    (Coding::Hex, "DF "),
    (Coding::Decimal, "98\n"),
];

/// How often a code is there.
const COUNTS: &[usize] = &[0, 1, 64, 65, 1000];

/// Returns how many characters a macro of this many codes has, or its fault.
fn length_of(
    alloc: Global,
    coding: Coding,
    code: &str,
    count: usize,
) -> Result<String, AllocError> {
    let mut characters: Vec<char> = Vec::new(alloc);
    for _ in 0..count {
        for c in code.chars() {
            characters.push(c)?;
        }
    }
    match macro_value(alloc, coding, &characters, 7) {
        Ok(value) => format!(in alloc; "{}", value.len()),
        Err(fault) => format!(in alloc; "{fault}"),
    }
}

#[test]
fn a_macro_may_have_any_number_of_characters(rt: HostRuntime) -> Result<(), Fail> {
    let alloc = rt.alloc();
    for (coding, code) in MACROS {
        for count in COUNTS {
            let length = length_of(alloc, *coding, code, *count)?;
            assert_eq!(rt;
                length.as_str(),
                format!(in alloc; "{count}")?.as_str(),
                "{code:?}"
            );
        }
    }
    Ok(())
}

/// Returns the text of a macro of 64 codes and then of this one.
fn text_with_code(alloc: Global, word: &str, code: &str) -> Result<String, AllocError> {
    let mut text = format!(in alloc; "stringescapes {{}} stringdef m {word} '")?;
    for _ in 0..64 {
        text.push_str("61 ")?;
    }
    text.push_str(code)?;
    text.push_str("' '{m}'")?;
    Ok(text)
}

/// The word before the codes, the 65th code, and how many bytes the macro's characters have, or the fault of its literal.
const LAST_CODES: &[(&str, &str, &str)] = &[
    ("hex", "61", "65"),
    ("hex", "E9", "66"),
    ("hex", "110000", "5 BadCode at 33"),
    ("hex", "g", "5 BadCode at 33"),
    ("decimal", "61", "65"),
    ("decimal", "1114112", "5 BadCode at 37"),
    ("decimal", "e", "5 BadCode at 37"),
    ("", "61", "194"),
    ("", "110000", "198"),
];

#[test]
fn a_code_after_64_others_is_read(rt: HostRuntime) -> Result<(), Fail> {
    let alloc = rt.alloc();
    for (word, code, want) in LAST_CODES {
        let text = text_with_code(alloc, word, code)?;
        let shown = answer_text(alloc, &text, Asked::Value)?;
        let length = if shown.as_str().starts_with("5 ") {
            shown
        } else {
            format!(in alloc; "{}", shown.len())?
        };
        assert_eq!(rt; length.as_str(), *want, "{text}");
    }
    Ok(())
}

/// `read_codes` and a lexer read the same codes.
#[test]
fn codes_of_a_call_and_of_a_literal_are_the_same(rt: HostRuntime) -> Result<(), Fail> {
    let alloc = rt.alloc();
    let text = "E4\t".repeat(alloc, 65)?;
    let value = read_codes(alloc, true, &letters(alloc, text.as_str())?)?;
    let read = text_of(alloc, &value)?;
    let script = format!(in alloc; "stringescapes {{}} stringdef m hex '{text}' '{{m}}'")?;
    let inserted = answer_text(alloc, &script, Asked::Value)?;
    assert_eq!(rt; read.len(), 130);
    assert_eq!(rt; inserted.as_str(), read.as_str());
    Ok(())
}

/// Returns a script that defines macros `m0`, `m1`, .. , each two insertions of the one before, and then, if `inserted` is not 0, has
/// a literal that inserts `m5` so many times.
fn doubling_macros(alloc: Global, count: usize, inserted: usize) -> Result<String, AllocError> {
    let mut text = String::from_str(alloc, "stringescapes {} stringdef m0 'ab'")?;
    for i in 1..count {
        let before = i - 1;
        let more = format!(in alloc; " stringdef m{i} '{{m{before}}}{{m{before}}}'")?;
        text.push_str(more.as_str())?;
    }
    if inserted > 0 {
        text.push_str(" '")?;
        for _ in 0..inserted {
            text.push_str("{m5}")?;
        }
        text.push_str("'")?;
    }
    Ok(text)
}

/// How many macros there are, how often the sixth is inserted, and how many characters the last literal has.
const DOUBLED: &[(usize, usize, usize)] = &[
    (6, 0, 64),
    (7, 0, 128),
    (8, 0, 256),
    (14, 0, 16384),
    (7, 500, 32000),
    (14, 500, 32000),
];

#[test]
fn macros_that_double_have_their_characters(rt: HostRuntime) -> Result<(), Fail> {
    let alloc = rt.alloc();
    for (count, inserted, want) in DOUBLED {
        let text = doubling_macros(alloc, *count, *inserted)?;
        assert_eq!(rt; answer_text(alloc, &text, Asked::Value)?.len(), *want);
    }
    Ok(())
}
