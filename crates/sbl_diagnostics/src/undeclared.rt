//! Names that are not declared: what may be meant, and how to declare them.

use crate::characters::{cut, push_cut};
use crate::declarations::{DeclaredName, declaration_of, names_of};
use crate::definitions::is_at_terms;
use crate::foreign::advice_on;
use crate::grammar::is_operator;
use crate::near::{is_word_nearer, push_listed, push_near, push_near_word};
use crate::sentences::{Faulty, Place, tokens_of};
use sbl_script::Part;
use sbl_text::{Kind, Sign, Token, Word};
use std::alloc::{AllocError, Global};

/// A name with fewer bytes is near to so many that it may well be a new one (our own choice).
const LEAST_SURE: usize = 4;

/// How a name is used at a place.
#[derive(Clone, Copy, PartialEq, Eq)]
enum Usage {
    /// As something that only one kind of name can be.
    OneKind,
    /// As what is defined, or as the mark that is set: the name may be a new one.
    New,
    /// As a command.
    Command,
}

/// What a name at a place has to be: the word that declares it, most likely, and how it is used.
#[derive(Clone, Copy)]
struct Need {
    word: Word,
    usage: Usage,
}

/// Returns whether an arithmetic expression follows the word.
fn takes_number(word: Word) -> bool {
    matches!(
        word,
        Word::SetMark | Word::Hop | Word::Loop | Word::AtLeast | Word::ToMark | Word::AtMark
    )
}

/// Returns whether an integer can follow the sign.
fn is_arithmetic(sign: Sign) -> bool {
    is_operator(sign)
        || matches!(
            sign,
            Sign::Dollar | Sign::Plus | Sign::Minus | Sign::Star | Sign::Slash
        )
}

/// Returns the word that declares what can follow these two tokens, if names of one kind alone can.
fn only_kind(prior: Option<Kind>, last: Kind) -> Option<Word> {
    match (prior, last) {
        (_, Kind::Word(Word::Non)) => Some(Word::Groupings),
        (Some(Kind::Word(Word::Non)), Kind::Sign(Sign::Minus)) => Some(Word::Groupings),
        (_, Kind::Word(Word::Set | Word::Unset)) => Some(Word::Booleans),
        (_, Kind::Word(Word::Insert | Word::Attach | Word::LenOf)) => Some(Word::Strings),
        (_, Kind::Sign(Sign::Arrow | Sign::LessMinus | Sign::LessPlus)) => Some(Word::Strings),
        (_, Kind::Word(word)) if takes_number(word) => Some(Word::Integers),
        (Some(Kind::Word(word)), Kind::Sign(Sign::Open)) if takes_number(word) => {
            Some(Word::Integers)
        }
        (Some(Kind::Sign(Sign::Dollar)), Kind::Sign(Sign::Open)) => Some(Word::Integers),
        (_, Kind::Sign(sign)) if is_arithmetic(sign) => Some(Word::Integers),
        _ => None,
    }
}

/// Returns the word that declares what these tokens define a name as, if they do.
fn defined_in(tokens: &[Token<'_>], name: &str) -> Option<Word> {
    let mut found = None;
    let mut previous = None;
    let mut is_defined = false;
    for token in tokens {
        if is_defined {
            found = Some(match token.kind {
                Kind::Word(Word::As) => Word::Routines,
                _ => Word::Groupings,
            });
        }
        is_defined = previous == Some(Kind::Word(Word::Define)) && token.text == name;
        previous = Some(token.kind);
    }
    found
}

/// Returns the word that declares what a script defines a name as, if it does and its tokens can be read.
fn defined_as(alloc: Global, script: &[u8], name: &str) -> Option<Word> {
    defined_in(&tokens_of(alloc, script), name)
}

/// Returns what a name has to be that follows these tokens of a text.
fn need_after(faulty: Faulty<'_>, before: &[Token<'_>], name: &str) -> Need {
    let (prior, last) = match before {
        [.., prior, last] => (Some(prior.kind), last.kind),
        [last] => (None, last.kind),
        [] => {
            return Need {
                word: Word::Routines,
                usage: Usage::Command,
            };
        }
    };
    if let Some(word) = only_kind(prior, last) {
        let usage = match last {
            Kind::Word(Word::SetMark) => Usage::New,
            _ => Usage::OneKind,
        };
        return Need { word, usage };
    }
    let guess = match last {
        Kind::Word(Word::GoTo | Word::GoPast) => Word::Groupings,
        _ => Word::Routines,
    };
    let usage = match last {
        Kind::Word(Word::Define) => Usage::New,
        _ => Usage::Command,
    };
    Need {
        word: defined_as(faulty.alloc, faulty.script, name).unwrap_or(guess),
        usage,
    }
}

/// Returns what the name at a place has to be.
fn need_at(place: Place<'_>) -> Need {
    let Place { faulty, spot } = place;
    if is_at_terms(place) {
        return Need {
            word: Word::Groupings,
            usage: Usage::OneKind,
        };
    }
    need_after(faulty, &place.tokens_before(), spot.token)
}

/// Returns whether a name that this word declares can be used so.
fn can_be(declared: Word, need: Need) -> bool {
    match (need.usage, need.word) {
        (Usage::Command, _) => declared != Word::Integers,
        (Usage::New, Word::Routines) => matches!(declared, Word::Routines | Word::Externals),
        (_, word) => declared == word,
    }
}

/// Returns the declared names that can be used so, but not the grouping whose terms are typed.
fn usable_names<'a>(
    alloc: Global,
    declared: &[DeclaredName<'a>],
    part: Option<Part<'_>>,
    need: Need,
) -> Result<Vec<&'a str>, AllocError> {
    let own = match part {
        Some(Part::Grouping(name)) => name,
        _ => "",
    };
    let mut found = Vec::new(alloc);
    for one in declared {
        if can_be(one.word, need) && one.name != own {
            found.push(one.name)?;
        }
    }
    Ok(found)
}

/// Returns the text of a word that declares names.
fn declaring_text(word: Word) -> &'static str {
    match word {
        Word::Groupings => "groupings",
        Word::Booleans => "booleans",
        Word::Integers => "integers",
        Word::Strings => "strings",
        _ => "routines",
    }
}

/// Appends how to declare a name, between two texts. A typed block declares nothing, so there it is to be done in the script.
fn push_declaration(
    shown: &mut String,
    place: Place<'_>,
    need: Need,
    lead: &str,
    rest: &str,
) -> Result<(), AllocError> {
    let name = cut(place.faulty.alloc, place.spot.token)?;
    let word = declaring_text(need.word);
    let there = match place.faulty.part {
        Some(_) => " in the script",
        None => "",
    };
    let text = format!(in place.faulty.alloc; "{lead} it{there}, as in {word} ( {name} ){rest}")?;
    shown.push_str(text.as_str())
}

/// Appends how to declare a name as a grouping, or how to write its characters.
fn push_term(shown: &mut String, place: Place<'_>, need: Need) -> Result<(), AllocError> {
    let rest = ", or put characters in quotes: '";
    push_declaration(shown, place, need, " Declare", rest)?;
    push_cut(shown, place.spot.token)?;
    shown.push_str("'")
}

/// Appends what may be meant by a name or how to declare it.
fn push_way_out(
    shown: &mut String,
    declared: &[DeclaredName<'_>],
    place: Place<'_>,
) -> Result<(), AllocError> {
    let Place { faulty, spot } = place;
    let name = spot.token;
    if let Some(advice) = advice_on(faulty.alloc, faulty.script, name) {
        shown.push_str(" ")?;
        return shown.push_str(advice);
    }
    let need = need_at(place);
    let names = usable_names(faulty.alloc, declared, faulty.part, need)?;
    let before = place.tokens_before();
    let is_word = need.usage == Usage::Command
        && is_word_nearer(faulty.alloc, name, &names, &before, faulty.part)?;
    if !is_word && push_near(faulty.alloc, shown, name, &names)? {
        if need.usage == Usage::New || name.len() < LEAST_SURE {
            return push_declaration(shown, place, need, " If not, declare", ".");
        }
        return Ok(());
    }
    if is_at_terms(place) {
        return push_term(shown, place, need);
    }
    if push_near_word(faulty.alloc, shown, name, &before, faulty.part)? {
        return push_declaration(shown, place, need, " If not, declare", ".");
    }
    push_declaration(shown, place, need, " Declare", ", or use another name.")
}

/// Appends how to declare the external that is to be run, if these are declared and it is not.
fn push_external_declaration(
    shown: &mut String,
    name: &str,
    externals: &[&str],
) -> Result<(), AllocError> {
    if externals.is_empty() {
        shown.push_str(" Declare it: externals ( ")?;
    } else {
        shown.push_str(" externals declares ")?;
        push_listed(shown, externals, " and ")?;
        if externals.len() > 1 {
            shown.push_str(": write ")?;
            push_cut(shown, name)?;
            return shown.push_str(" there, too");
        }
        shown.push_str(": write externals ( ")?;
    }
    push_cut(shown, name)?;
    shown.push_str(" )")
}

/// Appends that a name is not declared, and what may be meant or how to declare it.
pub(crate) fn push_undeclared(
    shown: &mut String,
    declared: &[DeclaredName<'_>],
    place: Place<'_>,
) -> Result<(), AllocError> {
    let name = place.spot.token;
    if declaration_of(declared, name).is_some() {
        return shown.push_str(" is declared only after this: move its declaration before it");
    }
    shown.push_str(" is not declared.")?;
    let externals = names_of(place.faulty.alloc, declared, true)?;
    if name == place.faulty.external
        && (externals.is_empty() || need_at(place).usage == Usage::New)
    {
        return push_external_declaration(shown, name, &externals);
    }
    push_way_out(shown, declared, place)
}
