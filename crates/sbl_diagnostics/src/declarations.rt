//! The names that a script declares.

use sbl_text::{Kind, Sign, Token, Word, tokens};
use std::alloc::{AllocError, Global};

/// A declared name, and the word that declares it.
#[derive(Clone, Copy, Debug, PartialEq, Eq)]
pub(crate) struct DeclaredName<'a> {
    pub(crate) name: &'a str,
    pub(crate) word: Word,
}

/// Returns whether the word begins a declaration.
fn declares(word: Word) -> bool {
    matches!(
        word,
        Word::Strings
            | Word::Integers
            | Word::Booleans
            | Word::Routines
            | Word::Externals
            | Word::Groupings
    )
}

/// Returns what a name is that this word declares.
pub(crate) fn kind_text(word: Word) -> &'static str {
    match word {
        Word::Strings => "a string",
        Word::Integers => "an integer",
        Word::Booleans => "a boolean",
        Word::Routines => "a routine",
        Word::Externals => "an external",
        _ => "a grouping",
    }
}

/// Returns the names that these tokens declare, in their order.
fn names_in<'a>(alloc: Global, tokens: &[Token<'a>]) -> Result<Vec<DeclaredName<'a>>, AllocError> {
    let mut names = Vec::new(alloc);
    let mut declaration = None;
    for token in tokens {
        match token.kind {
            Kind::Word(word) => declaration = if declares(word) { Some(word) } else { None },
            Kind::Sign(Sign::Close) => declaration = None,
            Kind::Name => {
                if let Some(word) = declaration {
                    let name = token.text;
                    names.push(DeclaredName { name, word })?;
                }
            }
            _ => {}
        }
    }
    Ok(names)
}

/// Returns the names that a script declares, in their order; none if the text has a fault of its tokens.
pub(crate) fn declared_in<'a>(
    alloc: Global,
    script: &'a [u8],
) -> Result<Vec<DeclaredName<'a>>, AllocError> {
    let Ok(text) = str::from_utf8(script) else {
        return Ok(Vec::new(alloc));
    };
    match tokens(alloc, text) {
        Ok(tokens) => names_in(alloc, &tokens),
        Err(_) => Ok(Vec::new(alloc)),
    }
}

/// Returns the first declaration of this name, if there is one.
pub(crate) fn declaration_of<'a>(
    names: &[DeclaredName<'a>],
    name: &str,
) -> Option<DeclaredName<'a>> {
    for declared in names {
        if declared.name == name {
            return Some(*declared);
        }
    }
    None
}

/// Returns the names of these kinds: the externals alone, or all.
pub(crate) fn names_of<'a>(
    alloc: Global,
    names: &[DeclaredName<'a>],
    externals_only: bool,
) -> Result<Vec<&'a str>, AllocError> {
    let mut found = Vec::new(alloc);
    for declared in names {
        if !externals_only || declared.word == Word::Externals {
            found.push(declared.name)?;
        }
    }
    Ok(found)
}
