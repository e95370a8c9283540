//! Reserved words that are misspelt: what may be meant.

use crate::characters::push_cut;
use crate::declarations::{declaration_of, declared_in};
use crate::foreign::advice_on;
use crate::grammar::outlook_after;
use crate::near::{nearest_of, nearest_words, push_question};
use crate::reasons::reason;
use crate::sentences::{Place, tokens_before};
use crate::sites::{Site, push_advice};
use sbl_script::Part;
use sbl_text::{Kind, Lexer, Sign, Token, Word};
use std::alloc::{AllocError, Global};

/// A reserved word is meant at a fault of the grammar only if it has at most one change for so many letters (our own choice).
const LETTERS: usize = 3;

/// Returns whether a script declares this name.
fn is_declared(alloc: Global, script: &[u8], name: &str) -> Result<bool, AllocError> {
    let declared = declared_in(alloc, script)?;
    Ok(declaration_of(&declared, name).is_some())
}

/// Appends what the name at the place may be meant for if it is not declared: what to write for a word of other languages, or a reserved
/// word that can come there. Returns whether it did.
pub(crate) fn push_meaning(
    shown: &mut String,
    site: Site<'_>,
    tokens: &[Token<'_>],
) -> Result<bool, AllocError> {
    let (faulty, name) = (site.faulty, site.spot.token);
    if is_declared(faulty.alloc, faulty.script, name)? {
        return Ok(false);
    }
    if let Some(advice) = advice_on(faulty.alloc, faulty.script, name) {
        return push_advice(shown, advice);
    }
    let found = nearest_words(faulty.alloc, name, tokens, faulty.part, LETTERS)?;
    if found.is_empty() {
        return Ok(false);
    }
    shown.push_str(".")?;
    push_question(shown, &found)
}

/// Returns those of these words after which a token can come, if they come after these tokens.
fn words_before(
    alloc: Global,
    words: &[&'static str],
    tokens: &[Token<'_>],
    part: Option<Part<'_>>,
    kind: Kind,
) -> Result<Vec<&'static str>, AllocError> {
    let mut found = Vec::new(alloc);
    for word in words {
        if can_follow(alloc, *word, tokens, part, kind)? {
            found.push(*word)?;
        }
    }
    Ok(found)
}

/// Returns whether a token can come after these tokens and a word.
fn can_follow(
    alloc: Global,
    word: &str,
    tokens: &[Token<'_>],
    part: Option<Part<'_>>,
    kind: Kind,
) -> Result<bool, AllocError> {
    let Some(mut outlook) = outlook_after(alloc, tokens, part)? else {
        return Ok(false);
    };
    let Ok(Some(token)) = Lexer::new(alloc, word).next() else {
        return Ok(false);
    };
    Ok(outlook.pass(token.kind)? && outlook.takes(kind))
}

/// Appends which reserved word the name before the place may be meant for: it is not declared, and with the word the token at the place
/// could follow. Returns whether it did.
pub(crate) fn push_word_before(
    shown: &mut String,
    site: Site<'_>,
    tokens: &[Token<'_>],
) -> Result<bool, AllocError> {
    let faulty = site.faulty;
    let (Some(name), Some(kind)) = (site.last_of(Kind::Name), site.spot.kind) else {
        return Ok(false);
    };
    let [before @ .., _] = tokens else {
        return Ok(false);
    };
    if is_declared(faulty.alloc, faulty.script, name)?
        || advice_on(faulty.alloc, faulty.script, name).is_some()
    {
        return Ok(false);
    }
    let near = nearest_words(faulty.alloc, name, before, faulty.part, LETTERS)?;
    let found = words_before(faulty.alloc, &near, before, faulty.part, kind)?;
    if found.is_empty() {
        return Ok(false);
    }
    shown.push_str(". ")?;
    push_cut(shown, name)?;
    shown.push_str(" is not declared.")?;
    push_question(shown, &found)
}

/// Returns the first name after an offset that has a parenthesis after it, and is near `among`.
fn near_among<'a>(
    alloc: Global,
    tokens: &[Token<'a>],
    offset: usize,
) -> Result<Option<&'a str>, AllocError> {
    let mut name = "";
    for token in tokens {
        let is_name = token.kind == Kind::Name && token.start > offset;
        if token.kind == Kind::Sign(Sign::Open) && nearest_of(alloc, name, &["among"])?.is_some() {
            return Ok(Some(name));
        }
        if token.kind == Kind::Word(Word::Define) && token.start > offset {
            return Ok(None);
        }
        name = if is_name { token.text } else { "" };
    }
    Ok(None)
}

/// Appends that a `substring` has no `among`, and a name after it that may be meant for one.
pub(crate) fn push_substring(shown: &mut String, place: Place<'_>) -> Result<(), AllocError> {
    let Place { faulty, spot } = place;
    shown.push_str(reason(faulty.fault))?;
    let Some(tokens) = tokens_before(faulty.alloc, faulty.text, faulty.text.len()) else {
        return Ok(());
    };
    match near_among(faulty.alloc, &tokens, spot.begin)? {
        Some(name) if !is_declared(faulty.alloc, faulty.script, name)? => {
            shown.push_str(". ")?;
            push_cut(shown, name)?;
            shown.push_str(" is not declared. Did you mean among?")
        }
        _ => Ok(()),
    }
}
