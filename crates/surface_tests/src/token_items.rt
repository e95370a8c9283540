//! sbl_text: tokens, escapes, literals, codes, and the faults of a text.

use crate::common::{letters, text_of};
use sbl_text::{Escapes, Kind, Lexer, ScriptFault, Token, Value, read_codes, read_literal};
use std::alloc::{AllocError, Global};
use std::process::Abort;
use std::test::Fail;

/// What a kind is called. The names of its variants are a choice of the library.
fn kind_text(kind: &Kind) -> &'static str {
    match kind {
        Kind::Word(_) => "word",
        Kind::Name => "name",
        Kind::Number => "number",
        Kind::Literal => "literal",
        Kind::Sign(_) => "sign",
        Kind::Inserts => "inserts",
        Kind::MacroName => "macro",
    }
}

/// A number's value, a literal's spelling and characters, else nothing.
fn value_text(alloc: Global, value: &Value<'_>) -> Result<String, AllocError> {
    match value {
        Value::Number(number) => format!(in alloc; " {number}"),
        Value::Literal { spelling, value } => {
            let value = text_of(alloc, value)?;
            format!(in alloc; " {spelling} {value}")
        }
        _ => Ok(String::new(alloc)),
    }
}

/// A token as its kind, its place in bytes, and its value.
fn token_text(alloc: Global, token: &Token<'_>) -> Result<String, AllocError> {
    let Token {
        kind,
        start,
        end,
        value,
        ..
    } = token;
    let (kind, value) = (kind_text(kind), value_text(alloc, value)?);
    format!(in alloc; "{kind} {start} {end}{value};")
}

/// What a lexer gives in turn, so many times.
fn nexts(alloc: Global, lexer: &mut Lexer<'_>, count: usize) -> Result<String, AllocError> {
    let mut shown = String::new(alloc);
    for _ in 0..count {
        let next = match lexer.next() {
            Ok(Some(token)) => token_text(alloc, &token)?,
            Ok(None) => String::from_str(alloc, "end;")?,
            Err(fault) => format!(in alloc; "{fault};")?,
        };
        shown.push_str(next.as_str())?;
    }
    Ok(shown)
}

#[test]
fn a_token_has_its_kind_its_place_and_its_value(rt: HostRuntime) -> Result<(), Fail> {
    let alloc = rt.alloc();
    let text = "stringescapes {} stringdef m 'x' among a1 <= 007 '{m}\u{e9}'";
    let mut lexer = Lexer::new(alloc, text);
    let want =
        "word 0 13;inserts 14 16;word 17 26;macro 27 28;literal 29 32 x x;word 33 38;name 39 41;sign 42 44;number 45 48 7;literal 49 56 {m}\u{e9} x\u{e9};end;end;";
    assert_eq!(rt; nexts(alloc, &mut lexer, 12)?.as_str(), want);
    Ok(())
}

/// Texts, and what a lexer gives for them in turn. A fault is given again.
const FAULTS: &[(&str, &str)] = &[
    ("a ~ b", "name 0 1;1 BadCharacter at 2;1 BadCharacter at 2;"),
    (
        "externals /* x",
        "word 0 9;3 UnclosedComment at 10;3 UnclosedComment at 10;",
    ),
    (
        "next 2147483648",
        "word 0 4;6 NumberTooLarge at 5;6 NumberTooLarge at 5;",
    ),
    (
        "as 'ab",
        "word 0 2;2 UnclosedString at 3;2 UnclosedString at 3;",
    ),
    (
        "stem /**/ ~ stem",
        "name 0 4;1 BadCharacter at 10;1 BadCharacter at 10;",
    ),
];

#[test]
fn a_fault_is_given_again(rt: HostRuntime) -> Result<(), Fail> {
    let alloc = rt.alloc();
    for (text, want) in FAULTS {
        let mut lexer = Lexer::new(alloc, text);
        assert_eq!(rt; nexts(alloc, &mut lexer, 3)?.as_str(), *want);
    }
    Ok(())
}

/// A value, or the display of a fault.
fn read_text(alloc: Global, value: Result<Vec<char>, ScriptFault>) -> Result<String, AllocError> {
    match value {
        Ok(value) => text_of(alloc, &value),
        Err(fault) => format!(in alloc; "{fault}"),
    }
}

/// Spellings of literals, and their values under the insert characters `{` and `}` and the macro `ss` for U+00DF.
const LITERALS: &[(&str, &str)] = &[
    ("gro{ss}", "gro\u{df}"),
    ("{U+00E4}", "\u{e4}"),
    ("{{}{'}", "{'"),
    ("{ }", ""),
    ("{zz}", "4 UnknownEscape at 0"),
    ("{U+D800}", "5 BadCode at 0"),
    ("a'b", "1 BadCharacter at 1"),
    ("ab{", "2 UnclosedString at 0"),
    ("{\n}{}", ""),
    ("{ ss }", "4 UnknownEscape at 0"),
    ("{u+e4}", "4 UnknownEscape at 0"),
    ("\u{e4}{U+0000041}", "5 BadCode at 2"),
    ("{U+}", "5 BadCode at 0"),
    ("a'b{", "2 UnclosedString at 0"),
    ("{zz}\n", "2 UnclosedString at 0"),
    ("{zz}'", "4 UnknownEscape at 0"),
    ("'{zz}", "1 BadCharacter at 0"),
];

/// Asserts what each literal means, and what a lexer gives, under these escapes.
fn are_read(rt: &impl Abort, alloc: Global, escapes: &Escapes) -> Result<(), Fail> {
    for (spelling, want) in LITERALS {
        let shown = read_text(alloc, read_literal(alloc, escapes, spelling))?;
        assert!(rt; shown.as_str() == *want, "{spelling}: {shown}");
    }
    let mut lexer = Lexer::with_escapes(alloc, "'{ss}'", escapes)?;
    let shown = nexts(alloc, &mut lexer, 2)?;
    assert!(rt; shown.as_str() == "literal 0 6 {ss} \u{df};end;");
    Ok(())
}

/// Sets the escapes, and reads under them.
fn read_under(rt: &impl Abort, alloc: Global, escapes: &mut Escapes) -> Result<(), Fail> {
    escapes.set('{', '}');
    escapes.define("ss", &['\u{df}'])?;
    are_read(rt, alloc, escapes)
}

#[test]
fn a_literal_is_read_under_its_escapes(rt: HostRuntime) -> Result<(), Fail> {
    let mut escapes = Escapes::new(rt.alloc());
    read_under(&rt, rt.alloc(), &mut escapes)
}

/// Whether codes are hexadecimal, the codes, and their characters.
const CODES: &[(bool, &str, &str)] = &[
    (true, "E4 62", "\u{e4}b"),
    (false, "98", "b"),
    (true, "", ""),
    (true, "110000", "5 BadCode at 0"),
    (false, " ", ""),
    (false, "9a", "5 BadCode at 0"),
];

#[test]
fn codes_are_read(rt: HostRuntime) -> Result<(), Fail> {
    let alloc = rt.alloc();
    for (hex, codes, want) in CODES {
        let codes = letters(alloc, codes)?;
        let shown = read_text(alloc, read_codes(alloc, *hex, &codes))?;
        assert_eq!(rt; shown.as_str(), *want);
    }
    Ok(())
}
