//! Faults of names whose definition is missing, comes too late or is in the other mode.

use crate::characters::{cut, push_cut};
use crate::declarations::{declaration_of, declared_in};
use crate::sentences::{Faulty, Place, tokens_of};
use sbl_script::Part;
use sbl_text::{Kind, Sign, Token, Word};
use std::alloc::{AllocError, Global};

/// In which mode a script defines a name.
#[derive(Clone, Copy, PartialEq, Eq)]
enum Definition {
    /// Outside of `backwardmode`.
    Forward,
    /// Inside of `backwardmode`.
    Backward,
}

/// Returns the definition of this name in these tokens, if there is one. It is the last one: a name with two has another fault.
fn definition_in(tokens: &[Token<'_>], name: &str) -> Option<Definition> {
    let mut found = None;
    let mut depth: usize = 0;
    let mut backward_depth = None;
    let mut previous = None;
    for token in tokens {
        match token.kind {
            Kind::Sign(Sign::Open) => {
                if previous == Some(Kind::Word(Word::BackwardMode)) {
                    backward_depth = Some(depth);
                }
                depth = depth.saturating_add(1);
            }
            Kind::Sign(Sign::Close) => {
                depth = depth.saturating_sub(1);
                if backward_depth == Some(depth) {
                    backward_depth = None;
                }
            }
            Kind::Name if previous == Some(Kind::Word(Word::Define)) && token.text == name => {
                found = Some(match backward_depth {
                    Some(_) => Definition::Backward,
                    None => Definition::Forward,
                });
            }
            _ => {}
        }
        previous = Some(token.kind);
    }
    found
}

/// Returns the definition of this name in a script, if there is one and the tokens of the script can be read.
fn definition_of(alloc: Global, script: &[u8], name: &str) -> Option<Definition> {
    definition_in(&tokens_of(alloc, script), name)
}

/// Returns the name whose definition is the last that begins in these tokens, if one does.
fn last_defined<'a>(tokens: &[Token<'a>]) -> Option<&'a str> {
    let mut name = None;
    let mut previous = None;
    for token in tokens {
        if token.kind == Kind::Name && previous == Some(Kind::Word(Word::Define)) {
            name = Some(token.text);
        }
        previous = Some(token.kind);
    }
    name
}

/// Returns whether the place of a fault is inside the definition of the name that is there.
fn is_in_itself(place: Place<'_>) -> bool {
    let Place { faulty, spot } = place;
    match faulty.part {
        Some(Part::Grouping(name)) => name == spot.token,
        Some(_) => false,
        None => last_defined(&place.tokens_before()) == Some(spot.token),
    }
}

/// Appends that a name has no definition, or has none that counts at this place, and what to do.
pub(crate) fn push_undefined(shown: &mut String, place: Place<'_>) -> Result<(), AllocError> {
    let Place { faulty, spot } = place;
    if is_in_itself(place) {
        return shown.push_str(" cannot be part of its own definition");
    }
    if definition_of(faulty.alloc, faulty.script, spot.token).is_some() {
        return shown.push_str(
            " is defined after this grouping: a grouping can use only those that are defined before it",
        );
    }
    shown.push_str(" is declared, but not defined: add define ")?;
    push_cut(shown, spot.token)?;
    let declared = declared_in(faulty.alloc, faulty.script)?;
    shown.push_str(match declaration_of(&declared, spot.token) {
        Some(declaration) if declaration.word == Word::Groupings => " '..'",
        _ => " as ..",
    })
}

/// Returns whether these tokens end with `define`, a name, and terms with the signs after them, if there are terms.
fn end_in_terms(tokens: &[Token<'_>]) -> bool {
    let mut is_in_terms = false;
    let mut previous = None;
    for token in tokens {
        is_in_terms = match token.kind {
            Kind::Name => is_in_terms || previous == Some(Kind::Word(Word::Define)),
            Kind::Literal | Kind::Sign(Sign::Plus | Sign::Minus) => is_in_terms,
            _ => false,
        };
        previous = Some(token.kind);
    }
    is_in_terms
}

/// Returns whether a name at this place is one of the terms of a grouping, so that it may be meant as characters.
pub(crate) fn is_at_terms(place: Place<'_>) -> bool {
    let Place { faulty, spot } = place;
    match faulty.part {
        Some(Part::Grouping(_)) => true,
        Some(_) => false,
        None => end_in_terms(&place.tokens_before()),
    }
}

/// Returns whether a `backwards` is in the parentheses that are open at the end of these tokens, so that it runs a command before it.
fn follows_backwards(tokens: &[Token<'_>]) -> bool {
    let mut depth: usize = 0;
    let mut found = None;
    for token in tokens {
        match token.kind {
            Kind::Sign(Sign::Open) => depth = depth.saturating_add(1),
            Kind::Sign(Sign::Close) => {
                if found == Some(depth) {
                    found = None;
                }
                depth = depth.saturating_sub(1);
            }
            Kind::Word(Word::Backwards) => found = Some(depth),
            Kind::Word(Word::Define) => found = None,
            _ => {}
        }
    }
    found == Some(depth)
}

/// Appends that a name is used in another mode than it is defined in, and what to do.
pub(crate) fn push_wrong_mode(shown: &mut String, place: Place<'_>) -> Result<(), AllocError> {
    let Place { faulty, spot } = place;
    let before = place.tokens_before();
    let is_condition = matches!(before.last(), Some(token) if token.kind == Kind::Literal);
    match definition_of(faulty.alloc, faulty.script, spot.token) {
        Some(Definition::Forward) => shown.push_str(
            " is defined in forward mode, but used in backward mode: move its define into backwardmode. If forward mode uses it, too, define another one there",
        ),
        Some(Definition::Backward) if is_condition => {
            shown.push_str(
                " is defined in backward mode, but used in forward mode: outside of backwardmode define a routine as backwards ",
            )?;
            push_cut(shown, spot.token)?;
            shown.push_str(", and name that one here")
        }
        Some(Definition::Backward) if follows_backwards(&before) => shown.push_str(
            " is defined in backward mode, but used in forward mode: the backwards before this runs one command. To run several, write backwards ( .. )",
        ),
        Some(Definition::Backward) => shown.push_str(
            " is defined in backward mode, but used in forward mode: write backwards before it. If it is to run forwards, move its define out of backwardmode",
        ),
        None => shown.push_str(" is defined in another mode than it is used in"),
    }
}

/// Appends that an external is declared, but has no definition that a run can begin with, and what to do.
pub(crate) fn push_no_definition(shown: &mut String, faulty: Faulty<'_>) -> Result<(), AllocError> {
    let wanted = cut(faulty.alloc, faulty.external)?;
    let text = match definition_of(faulty.alloc, faulty.script, faulty.external) {
        Some(Definition::Backward) => format!(in faulty.alloc;
            "{wanted} is defined in backward mode, but a run begins in forward mode: outside of backwardmode write define {wanted} as backwards ( .. )"
        )?,
        _ => format!(in faulty.alloc;
            "{wanted} is declared in externals, but not defined: add define {wanted} as .."
        )?,
    };
    shown.push_str(text.as_str())
}
