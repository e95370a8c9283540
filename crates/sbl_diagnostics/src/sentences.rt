//! What is wrong at the place of a fault, in a sentence.

use crate::characters::{cut, push_alone, push_cut, push_hexadecimal};
use crate::comments::{push_comment, push_nested};
use crate::declarations::{declaration_of, declared_in, kind_text, names_of};
use crate::definitions::{push_no_definition, push_undefined, push_wrong_mode};
use crate::enclosed::push_enclosed_in;
use crate::encodings::push_conversion;
use crate::expectations::{push_expectation, push_use};
use crate::foreign::{foreign_character, is_end_line, is_letter, left_out_text, may_look_latin};
use crate::insertions::{follows_quote, push_insertion, push_missing_quote};
use crate::misspelt::{push_meaning, push_substring, push_word_before};
use crate::near::{nearest_of, push_listed};
use crate::reasons::{begins_sentence, reason};
use crate::sites::Site;
use crate::undeclared::push_undeclared;
use sbl_script::Part;
use sbl_source_map::{Position, ScriptFault, begins_item, position_of};
use sbl_text::{Kind, Lexer, Sign, Token, Word, tokens};
use std::alloc::{AllocError, Global};

/// What is wrong with insert characters.
const INSERTS: &str =
    "after stringescapes come two characters, side by side, and no quote as the first: stringescapes {}";

/// A text that has a fault.
#[derive(Clone, Copy)]
pub(crate) struct Faulty<'a> {
    /// What allocates what is written on the fault.
    pub(crate) alloc: Global,
    pub(crate) text: &'a [u8],
    pub(crate) fault: ScriptFault,
    /// What the text is put in place of, if it is not a whole script.
    pub(crate) part: Option<Part<'a>>,
    /// The script whose declarations count.
    pub(crate) script: &'a [u8],
    pub(crate) external: &'a str,
}

/// What is at the place of a fault: the offset, the spelling of the token, and whether it is a name.
#[derive(Clone, Copy)]
pub(crate) struct Spot<'a> {
    pub(crate) begin: usize,
    pub(crate) token: &'a str,
    pub(crate) kind: Option<Kind>,
}

/// A text that has a fault, and the place of the fault.
#[derive(Clone, Copy)]
pub(crate) struct Place<'a> {
    pub(crate) faulty: Faulty<'a>,
    pub(crate) spot: Spot<'a>,
}

impl<'a> Place<'a> {
    /// Returns the tokens of the text before the place; none if they cannot be read.
    pub(crate) fn tokens_before(self) -> Vec<Token<'a>> {
        let Place { faulty, spot } = self;
        match tokens_before(faulty.alloc, faulty.text, spot.begin) {
            Some(tokens) => tokens,
            None => Vec::new(faulty.alloc),
        }
    }
}

/// What the text of a block is; `follows` says that the place is after the beginning of the text.
fn whole_text(part: Part<'_>, kind: Option<Kind>, follows: bool) -> &'static str {
    if follows && kind == Some(Kind::Word(Word::Define)) {
        return "A block has one definition: give the next one a block of its own.";
    }
    match part {
        Part::Routine(_) => "The text of routine is one command: put several into parentheses.",
        Part::Among(_, _) => "The text of among is a whole among ( .. ), and nothing else.",
        Part::Grouping(_) => {
            "The text of grouping is what follows the name in its definition, such as 'aeiou' + 'y'."
        }
    }
}

/// Returns whether the token begins an item, or whether there is none.
fn is_at_item(kind: Option<Kind>) -> bool {
    match kind {
        Some(Kind::Word(word)) => begins_item(word),
        Some(_) => false,
        None => true,
    }
}

/// Returns where the innermost parenthesis begins that these tokens leave open, if one is.
pub(crate) fn open_in(alloc: Global, tokens: &[Token<'_>]) -> Result<Option<usize>, AllocError> {
    let mut open = Vec::new(alloc);
    for token in tokens {
        match token.kind {
            Kind::Sign(Sign::Open) => open.push(token.start)?,
            Kind::Sign(Sign::Close) => {
                open.pop();
            }
            _ => {}
        }
    }
    Ok(open.pop())
}

/// Returns the tokens before an offset in a text, or `None` if they cannot be read.
pub(crate) fn tokens_before(alloc: Global, text: &[u8], offset: usize) -> Option<Vec<Token<'_>>> {
    let prefix = text.get(..offset).unwrap_or(text);
    let Ok(prefix) = str::from_utf8(prefix) else {
        return None;
    };
    match tokens(alloc, prefix) {
        Ok(tokens) => Some(tokens),
        Err(_) => None,
    }
}

/// Returns the tokens of a script; none if they cannot be read.
pub(crate) fn tokens_of(alloc: Global, script: &[u8]) -> Vec<Token<'_>> {
    match tokens_before(alloc, script, script.len()) {
        Some(tokens) => tokens,
        None => Vec::new(alloc),
    }
}

/// Returns whether only white space follows an offset.
fn is_at_end(text: &[u8], offset: usize) -> bool {
    let rest = text.get(offset..).unwrap_or(&[]);
    for byte in rest {
        if !byte.is_ascii_whitespace() {
            return false;
        }
    }
    true
}

/// Returns whether the text is nothing but white space.
pub(crate) fn is_blank(text: &[u8]) -> bool {
    is_at_end(text, 0)
}

/// Appends what is at the place, as it is spelled.
pub(crate) fn push_thing(shown: &mut String, spot: Spot<'_>) -> Result<(), AllocError> {
    if spot.token.is_empty() {
        return shown.push_str("the end");
    }
    push_cut(shown, spot.token)
}

/// Appends where the parenthesis is that is still open.
fn push_open(
    alloc: Global,
    shown: &mut String,
    text: &[u8],
    open: Option<usize>,
) -> Result<(), AllocError> {
    let Some(offset) = open else {
        return Ok(());
    };
    let Position { line, column } = position_of(text, offset);
    let place = format!(in alloc; "; the ( of {line}:{column} is still open")?;
    shown.push_str(place.as_str())
}

/// Appends what is wrong with a text that begins with the definition of another name, and returns whether it does.
fn push_beginning(shown: &mut String, faulty: Faulty<'_>) -> Result<bool, AllocError> {
    let (word, name) = match faulty.part {
        Some(Part::Routine(name)) => ("routine", name),
        Some(Part::Grouping(name)) => ("grouping", name),
        _ => return Ok(false),
    };
    let Some(other) = defined_first(faulty.alloc, faulty.text)? else {
        return Ok(false);
    };
    if other == name {
        return Ok(false);
    }
    let (other, name) = (cut(faulty.alloc, other)?, cut(faulty.alloc, name)?);
    let text = format!(in faulty.alloc;
        "the text begins with the definition of {other}, and {word} {name} replaces that of {name}"
    )?;
    shown.push_str(text.as_str())?;
    Ok(true)
}

/// Returns the name that the first tokens of a text define, if they are `define` and a name.
fn defined_first(alloc: Global, text: &[u8]) -> Result<Option<&str>, AllocError> {
    let Ok(text) = str::from_utf8(text) else {
        return Ok(None);
    };
    let Ok(tokens) = tokens(alloc, text) else {
        return Ok(None);
    };
    match (tokens.first(), tokens.get(1)) {
        (Some(first), Some(second))
            if first.kind == Kind::Word(Word::Define) && second.kind == Kind::Name => {
            Ok(Some(second.text))
        }
        _ => Ok(None),
    }
}

/// Appends what is wrong with a token that cannot follow those before it, or with the end of the text.
fn push_syntax(shown: &mut String, place: Place<'_>) -> Result<(), AllocError> {
    let Place { faulty, spot } = place;
    match tokens_before(faulty.alloc, faulty.text, spot.begin) {
        Some(before) => {
            if before.is_empty() && push_beginning(shown, faulty)? {
                return Ok(());
            }
            push_clause(shown, place, Some(&before))
        }
        None => push_clause(shown, place, None),
    }
}

/// Appends that a token cannot follow these, cannot begin a text or is missing, and what can come there.
fn push_clause<'a>(
    shown: &mut String,
    place: Place<'a>,
    before: Option<&[Token<'a>]>,
) -> Result<(), AllocError> {
    let Place { faulty, spot } = place;
    let (begins, open) = match before {
        Some(before) => (before.is_empty(), open_in(faulty.alloc, before)?),
        None => (false, None),
    };
    if spot.kind == Some(Kind::Sign(Sign::Close)) && before.is_some() && open.is_none() {
        return push_closing(shown, faulty.part);
    }
    if is_at_end(faulty.text, spot.begin) {
        shown.push_str("the text ends here, and more is needed")?;
        push_open(faulty.alloc, shown, faulty.text, open)?;
    } else {
        push_thing(shown, spot)?;
        shown.push_str(match (begins, faulty.part) {
            (true, Some(_)) => " cannot begin the text",
            (true, None) => " cannot begin a script",
            (false, _) => " cannot follow what is before it",
        })?;
        if is_at_item(spot.kind) {
            push_open(faulty.alloc, shown, faulty.text, open)?;
        }
    }
    let is_outside = before.is_some() && open.is_none();
    push_cure(shown, place, before, is_outside)
}

/// Appends what can come in place of a token, if that is sure.
fn push_cure<'a>(
    shown: &mut String,
    place: Place<'a>,
    before: Option<&[Token<'a>]>,
    is_outside: bool,
) -> Result<(), AllocError> {
    let Place { faulty, spot } = place;
    if let Some(before) = before {
        let site = Site::new(faulty, before, spot);
        if spot.kind == Some(Kind::Name) && push_meaning(shown, site, before)? {
            return Ok(());
        }
        if push_word_before(shown, site, before)? || push_expectation(shown, site, before)? {
            return Ok(());
        }
    }
    match faulty.part {
        Some(part) if is_outside && !spot.token.is_empty() => {
            let follows = !before.unwrap_or(&[]).is_empty();
            shown.push_str(". ")?;
            shown.push_str(whole_text(part, spot.kind, follows))
        }
        _ => Ok(()),
    }
}

/// Appends that a parenthesis closes none.
fn push_closing(shown: &mut String, part: Option<Part<'_>>) -> Result<(), AllocError> {
    shown.push_str("this ) closes no parenthesis")?;
    if part.is_some() {
        shown.push_str(" of the text")?;
    }
    shown.push_str(": take it away, or put a ( before it")
}

/// Appends what is wrong with a name: that it is not declared, or is declared as something that cannot be used here.
fn push_name(shown: &mut String, place: Place<'_>) -> Result<(), AllocError> {
    let Place { faulty, spot } = place;
    let name = spot.token;
    let declared = declared_in(faulty.alloc, faulty.script)?;
    match (faulty.fault, declaration_of(&declared, name)) {
        (ScriptFault::Undeclared { .. }, _) => { push_undeclared(shown, &declared, place) }
        (_, Some(declaration)) => {
            shown.push_str(" is declared as ")?;
            shown.push_str(kind_text(declaration.word))?;
            shown.push_str(", which cannot be used here")?;
            if let Some(before) = tokens_before(faulty.alloc, faulty.text, spot.begin) {
                let site = Site::new(faulty, &before, spot);
                push_use(shown, site, &before, declaration)?;
            }
            Ok(())
        }
        (fault, None) => {
            shown.push_str(" ")?;
            shown.push_str(reason(fault))
        }
    }
}

/// Appends why the external that is to be run is not there.
pub(crate) fn push_external(shown: &mut String, faulty: Faulty<'_>) -> Result<(), AllocError> {
    let wanted = faulty.external;
    let declared = declared_in(faulty.alloc, faulty.script)?;
    let there = names_of(faulty.alloc, &declared, true)?;
    let Some(first) = there.first() else {
        let wanted = cut(faulty.alloc, wanted)?;
        let text = format!(in faulty.alloc;
            "the script declares no external: write externals ( {wanted} ), and define {wanted} as .."
        )?;
        return shown.push_str(text.as_str());
    };
    if there.contains(&wanted) {
        return push_no_definition(shown, faulty);
    }
    shown.push_str("the script has no external ")?;
    push_cut(shown, wanted)?;
    shown.push_str(". It has ")?;
    push_listed(shown, &there, " and ")?;
    shown.push_str(": use --external ")?;
    let near = nearest_of(faulty.alloc, wanted, &there)?;
    push_cut(shown, near.unwrap_or(*first))
}

/// Appends that a byte is not UTF-8.
fn push_byte(shown: &mut String, faulty: Faulty<'_>, begin: usize) -> Result<(), AllocError> {
    let Some(byte) = faulty.text.get(begin) else {
        return shown.push_str(reason(faulty.fault));
    };
    shown.push_str("byte ")?;
    push_hexadecimal(shown, u32::from(*byte), 16)?;
    shown.push_str(" is not UTF-8. ")?;
    push_conversion(shown, faulty.text, "OLD")
}

/// Returns whether a character can only be wrong as an insert character: it is white space or begins a literal.
fn is_insert_fault(character: char) -> bool {
    matches!(character, '\t'..='\r' | ' ' | '\'' | '\u{FEFF}')
}

/// Appends what is wrong with a character that begins no token.
fn push_character(shown: &mut String, place: Place<'_>) -> Result<(), AllocError> {
    let Place { faulty, spot } = place;
    let character = match spot.token.chars().next() {
        Some(character) if !is_insert_fault(character) => character,
        _ => return shown.push_str(INSERTS),
    };
    push_alone(shown, character)?;
    if may_look_latin(character) {
        shown.push_str(" (U+")?;
        push_hexadecimal(shown, u32::from(character), 4_096)?;
        shown.push(')')?;
    }
    if character == '_' {
        return shown.push_str(
            " cannot begin a name: a name begins with a letter from a to z or A to Z",
        );
    }
    shown.push_str(" can only be in a literal or a comment")?;
    let advice = if is_end_line(faulty.text, spot.begin) {
        Some("The line that ends a text has a point and no blank after it")
    } else if character == '{' && follows_quote(faulty.text, spot.begin) {
        Some("If a literal is meant, look for a missing quote before it")
    } else if faulty
        .text
        .get(spot.begin..)
        .unwrap_or(&[])
        .starts_with(b":=")
    {
        Some("Did you mean =?")
    } else if is_letter(character) && matches!(faulty.part, Some(Part::Grouping(_))) {
        Some("Characters are in quotes")
    } else {
        foreign_character(character)
    };
    if let Some(advice) = advice {
        shown.push_str(". ")?;
        shown.push_str(advice)?;
    }
    push_missing_quote(shown, place, character)
}

/// Appends that something is left out here, or that a sign is missing after the name of an integer.
fn push_left_out(shown: &mut String, place: Place<'_>) -> Result<(), AllocError> {
    let Place { faulty, spot } = place;
    if spot.kind == Some(Kind::Sign(Sign::Dollar)) {
        if let Some(name) = integer_after(faulty, spot.begin)? {
            shown.push_str("after $")?;
            push_cut(shown, name)?;
            return shown.push_str(" comes a sign such as =, += or >");
        }
    }
    push_thing(shown, spot)?;
    shown.push_str(" is of Snowball, but left out here: ")?;
    shown.push_str(left_out_text(spot.kind))?;
    let is_greater = spot.kind == Some(Kind::Sign(Sign::EqualsGreater));
    if is_greater && end_in_subject(&place.tokens_before()) {
        shown.push_str(". Did you mean >=?")?;
    }
    Ok(())
}

/// Returns whether these tokens end with `$` and a name, or with `$(` and a name or a value.
fn end_in_subject(tokens: &[Token<'_>]) -> bool {
    match tokens {
        [.., dollar, open, _]
            if dollar.kind == Kind::Sign(Sign::Dollar) && open.kind == Kind::Sign(Sign::Open) => {
            true
        }
        [.., prior, last] => prior.kind == Kind::Sign(Sign::Dollar) && last.kind == Kind::Name,
        _ => false,
    }
}

/// Returns the name after the `$` at an offset, if it is declared as an integer.
fn integer_after<'a>(faulty: Faulty<'a>, begin: usize) -> Result<Option<&'a str>, AllocError> {
    let Ok(rest) = str::from_utf8(faulty.text.get(begin..).unwrap_or(&[])) else {
        return Ok(None);
    };
    let declared = declared_in(faulty.alloc, faulty.script)?;
    let mut lexer = Lexer::new(faulty.alloc, rest);
    let Ok(Some(_)) = lexer.next() else {
        return Ok(None);
    };
    let Ok(Some(name)) = lexer.next() else {
        return Ok(None);
    };
    match declaration_of(&declared, name.text) {
        Some(declaration) if declaration.word == Word::Integers => Ok(Some(name.text)),
        _ => Ok(None),
    }
}

/// Appends the sentence for a fault at a place.
pub(crate) fn push_sentence(shown: &mut String, place: Place<'_>) -> Result<(), AllocError> {
    if push_nested(shown, place)? {
        return Ok(());
    }
    push_by_fault(shown, place)?;
    push_comment(shown, place)
}

/// Appends what is wrong at a place, by its fault.
fn push_by_fault(shown: &mut String, place: Place<'_>) -> Result<(), AllocError> {
    let Place { faulty, spot } = place;
    match faulty.fault {
        ScriptFault::Syntax { .. } => push_syntax(shown, place),
        ScriptFault::Undeclared { .. } | ScriptFault::WrongKind { .. } => {
            push_thing(shown, spot)?;
            push_name(shown, place)
        }
        ScriptFault::Undefined { .. } => {
            push_thing(shown, spot)?;
            push_undefined(shown, place)
        }
        ScriptFault::WrongMode { .. } => {
            push_thing(shown, spot)?;
            push_wrong_mode(shown, place)
        }
        ScriptFault::NotUtf8 => push_byte(shown, faulty, spot.begin),
        ScriptFault::BadCharacter { .. } => push_character(shown, place),
        ScriptFault::OutOfProfile { .. } => push_left_out(shown, place),
        ScriptFault::Substring { .. } => push_substring(shown, place),
        ScriptFault::UnclosedString { .. }
        | ScriptFault::UnknownEscape { .. }
        | ScriptFault::BadCode { .. } => push_insertion(shown, place),
        ScriptFault::Starter { .. } | ScriptFault::EmptyAmong { .. } => {
            shown.push_str(reason(faulty.fault))?;
            push_enclosed_in(shown, place)
        }
        fault => {
            if !begins_sentence(fault) {
                push_thing(shown, spot)?;
                shown.push_str(" ")?;
            }
            shown.push_str(reason(fault))
        }
    }
}

/// Appends the sentence for a fault that is at no place.
pub(crate) fn push_reason(shown: &mut String, faulty: Faulty<'_>) -> Result<(), AllocError> {
    match faulty.fault {
        ScriptFault::NoExternal => push_external(shown, faulty),
        fault => {
            if !begins_sentence(fault) {
                shown.push_str("something outside this text ")?;
            }
            shown.push_str(reason(fault))
        }
    }
}
