//! What can come in a construct of the language that a place is in, in a sentence.

use crate::characters::cut;
use crate::declarations::{DeclaredName, declaration_of, declared_in};
use crate::foreign::advice_on;
use crate::grammar::{Outlook, Symbol, is_constant};
use crate::sites::{Site, push_advice, push_text};
use sbl_source_map::begins_item;
use sbl_text::{Kind, Lexer, Sign, Token, Word};
use std::alloc::{AllocError, Global};

/// What a name is.
pub(crate) const NAMES: &str = "A name is an ASCII letter, and then ASCII letters, digits and _.";

/// Appends how numbers are compared, if a word for a number is at a place of commands.
pub(crate) fn push_number(shown: &mut String, site: Site<'_>) -> Result<bool, AllocError> {
    let token = site.spot.token;
    match site.spot.kind {
        Some(Kind::Word(word)) if is_constant(word) => {
            push_text(
                shown,
                format!(in site.faulty.alloc;
                    "Numbers are compared in $( .. ), as in $( {token} > 2 )."
                )?,
            )
        }
        Some(Kind::Word(Word::LenOf)) => {
            push_advice(
                shown,
                "Numbers are compared in $( .. ), as in $( lenof s > 2 ).",
            )
        }
        _ => Ok(false),
    }
}

/// Returns how a boolean is set.
fn setting_of(alloc: Global, name: &str) -> Result<String, AllocError> {
    format!(in alloc; "set {name} makes {name} true, unset {name} makes it false.")
}

/// Returns whether `=` is at the place, and `true` or `false` after it.
fn sets_truth(site: Site<'_>) -> bool {
    match site.next_kinds() {
        (Some(next), _) => site.operator() == Some(Sign::Equals) && is_truth(next),
        _ => false,
    }
}

/// Returns whether the token is `true` or `false`.
fn is_truth(kind: Kind) -> bool {
    matches!(kind, Kind::Word(Word::True | Word::False))
}

/// Appends how a boolean is set if `true` or `false` is at the place, and `=` and a name are before it.
pub(crate) fn push_truth(shown: &mut String, site: Site<'_>) -> Result<bool, AllocError> {
    let (Some(prior), Some(kind)) = (site.prior, site.spot.kind) else {
        return Ok(false);
    };
    if prior.kind != Kind::Name
        || site.last_kind() != Some(Kind::Sign(Sign::Equals))
        || !is_truth(kind)
    {
        return Ok(false);
    }
    let name = cut(site.faulty.alloc, prior.text)?;
    push_text(shown, setting_of(site.faulty.alloc, name.as_str())?)
}

/// Appends how the name before a sign is set or compared.
pub(crate) fn push_operator(
    shown: &mut String,
    site: Site<'_>,
    role: Option<Symbol>,
    declared: &[DeclaredName<'_>],
) -> Result<bool, AllocError> {
    let (Some(last), Some(sign)) = (site.last, site.operator()) else {
        return Ok(false);
    };
    let (name, sign_text) = (last.text, sign.text());
    if last.kind != Kind::Name {
        return Ok(false);
    }
    let word = match site.prior {
        Some(prior) if role == Some(Symbol::Name) => prior.kind,
        _ => last.kind,
    };
    let kind = match declaration_of(declared, name) {
        Some(declared) => declared.word,
        None if sets_truth(site) => Word::Booleans,
        None => Word::Integers,
    };
    let is_command = match role {
        Some(symbol) => symbol.has_command(),
        None => false,
    };
    let name = cut(site.faulty.alloc, name)?;
    let sentence = match word {
        Kind::Word(Word::Set | Word::Unset) => setting_of(site.faulty.alloc, name.as_str())?,
        _ if is_command && kind == Word::Booleans => setting_of(site.faulty.alloc, name.as_str())?,
        Kind::Word(Word::SetMark) => format!(in site.faulty.alloc;
            "setmark {name} sets {name} to the cursor, ${name} = .. to another number."
        )?,
        _ if is_command && kind == Word::Integers => {
            format!(in site.faulty.alloc;
                "Before the name of an integer comes $: ${name} {sign_text} .."
            )?
        }
        _ => return Ok(false),
    };
    push_advice(shown, sentence.as_str())
}

/// Returns whether `<=` or `=` is at the place, and a literal after it.
fn is_arrow_meant(site: Site<'_>) -> bool {
    let (next, _) = site.next_kinds();
    matches!(site.operator(), Some(Sign::AtMost | Sign::Equals)) && next == Some(Kind::Literal)
}

/// Appends what comes in parentheses of commands.
pub(crate) fn push_rows(
    shown: &mut String,
    site: Site<'_>,
    outlook: &Outlook,
) -> Result<bool, AllocError> {
    if is_arrow_meant(site) {
        return push_advice(shown, "Did you mean <-?");
    }
    if site.operator().is_some() {
        return Ok(false);
    }
    if push_foreign(shown, site)? {
        return Ok(true);
    }
    if push_number(shown, site)? {
        return Ok(true);
    }
    if site.is_at(Word::For) {
        return push_advice(shown, "for comes after setlimit: setlimit C for D.");
    }
    if site.is_at(Word::As) {
        return push_advice(shown, "as comes after define and a name.");
    }
    if !outlook.offers(Symbol::Joiners) {
        if site.is_at_joiner() {
            let word = site.spot.token;
            return push_text(
                shown,
                format!(in site.faulty.alloc; "Before {word} comes a command.")?,
            );
        }
        return push_advice(shown, "After ( comes a command or ).");
    }
    push_advice(
        shown,
        "Commands follow each other (C D) or are joined (C or D, C and D).",
    )
}

/// Appends what comes in the parentheses of a declaration.
pub(crate) fn push_names(shown: &mut String, site: Site<'_>) -> Result<bool, AllocError> {
    match site.spot.kind {
        Some(Kind::Word(_)) => {
            let word = site.spot.token;
            push_text(
                shown,
                format!(in site.faulty.alloc; "{word} is a reserved word: take another name.")?,
            )
        }
        Some(Kind::Number | Kind::Sign(Sign::Minus)) => push_advice(shown, NAMES),
        _ => push_advice(shown, "Names come here, and then )."),
    }
}

/// Appends what comes in parentheses of an expression.
pub(crate) fn push_sums(shown: &mut String, site: Site<'_>) -> Result<bool, AllocError> {
    if site.is_at_joiner() {
        let word = site.spot.token;
        return push_text(
            shown,
            format!(in site.faulty.alloc; "{word} joins commands: $( a > b ) {word} $( c > d ).")?,
        );
    }
    push_advice(shown, "Here comes +, -, *, / or ).")
}

/// Appends that a `define` is missing before the token at the place, if `as` follows it.
pub(crate) fn push_missing_define(shown: &mut String, site: Site<'_>) -> Result<bool, AllocError> {
    let rest = site.faulty.text.get(site.spot.begin..).unwrap_or(&[]);
    let Ok(rest) = str::from_utf8(rest) else {
        return Ok(false);
    };
    let mut lexer = Lexer::new(site.faulty.alloc, rest);
    let Ok(Some(name)) = lexer.next() else {
        return Ok(false);
    };
    let Ok(Some(next)) = lexer.next() else {
        return Ok(false);
    };
    if name.kind != Kind::Name || next.kind != Kind::Word(Word::As) {
        return Ok(false);
    }
    let name = cut(site.faulty.alloc, name.text)?;
    push_text(
        shown,
        format!(in site.faulty.alloc; "Before {name} define is missing.")?,
    )
}

/// Returns whether after the token at the place comes `(`, and then a word that begins an item.
fn holds_items(site: Site<'_>) -> bool {
    let (next, second) = site.next_kinds();
    next == Some(Kind::Sign(Sign::Open)) && is_item(second)
}

/// Returns whether an item begins with the token.
pub(crate) fn is_item(kind: Option<Kind>) -> bool {
    matches!(kind, Some(Kind::Word(word)) if begins_item(word))
}

/// Appends which of `backwards` and `backwardmode` is meant if the other one, or `backward`, is at the place. Returns whether it did.
pub(crate) fn push_mode(
    shown: &mut String,
    site: Site<'_>,
    outlook: &Outlook,
) -> Result<bool, AllocError> {
    let has_items = holds_items(site);
    let is_backwards = site.is_at(Word::Backwards) || site.spot.token == "backward";
    if is_backwards && has_items && outlook.offers(Symbol::Items) {
        return push_advice(
            shown,
            "Routines in backward mode are defined in backwardmode ( .. ).",
        );
    }
    if site.is_at(Word::BackwardMode) && !has_items && outlook.takes(Kind::Word(Word::Backwards)) {
        return push_advice(
            shown,
            "Definitions are in backwardmode ( .. ); before a command comes backwards, as in backwards r.",
        );
    }
    Ok(false)
}

/// Appends what comes among the items of a script.
pub(crate) fn push_items(shown: &mut String, site: Site<'_>) -> Result<bool, AllocError> {
    if push_missing_define(shown, site)? {
        return Ok(true);
    }
    if site.is_at(Word::Backwards) {
        return push_advice(
            shown,
            "Routines in backward mode are defined in backwardmode ( .. ).",
        );
    }
    let Some(characters) = site.last_of(Kind::Inserts) else {
        return push_advice(
            shown,
            "Here comes a declaration or a definition, such as define r as ( .. ).",
        );
    };
    push_text(
        shown,
        format!(in site.faulty.alloc;
            "stringescapes takes the two characters after it, here {characters}."
        )?,
    )
}

/// Appends what comes after a term of a grouping.
pub(crate) fn push_terms(
    shown: &mut String,
    site: Site<'_>,
    tokens: &[Token<'_>],
    declared: &[DeclaredName<'_>],
) -> Result<bool, AllocError> {
    if site.faulty.part.is_some() && !matches!(site.spot.kind, Some(Kind::Literal | Kind::Name)) {
        return Ok(false);
    }
    if site.faulty.part.is_none() && push_missing_define(shown, site)? {
        return Ok(true);
    }
    match declaration_of(declared, last_definition(tokens).name) {
        Some(name) if matches!(name.word, Word::Routines | Word::Externals) => {
            return push_form(site.faulty.alloc, shown, name);
        }
        _ => {}
    }
    push_advice(shown, "Between the terms of a grouping comes + or -.")
}

/// The last definition that some tokens have.
#[derive(Clone, Copy)]
pub(crate) struct Definition<'a> {
    name: &'a str,
    /// Whether a parenthesis begins its body, and the last token closes it.
    is_closed: bool,
}

/// Returns the last definition in these tokens, as that of a routine.
pub(crate) fn last_definition<'a>(tokens: &[Token<'a>]) -> Definition<'a> {
    let mut name = "";
    let mut place: usize = 0;
    let mut depth: usize = 0;
    let mut closing: usize = 0;
    let mut opens = false;
    for token in tokens {
        place = place.saturating_add(1);
        if token.kind == Kind::Word(Word::Define) {
            (place, depth, closing, opens) = (0, 0, 0, false);
        } else if place == 1 {
            name = token.text;
        } else if token.kind == Kind::Sign(Sign::Open) {
            opens = opens || place == 3;
            depth = depth.saturating_add(1);
        } else if token.kind == Kind::Sign(Sign::Close) {
            depth = depth.saturating_sub(1);
            closing = if depth == 0 && closing == 0 {
                place
            } else {
                closing
            };
        }
    }
    let is_closed = opens && closing == place;
    Definition { name, is_closed }
}

/// Appends what comes after the body of a routine.
pub(crate) fn push_body(
    shown: &mut String,
    site: Site<'_>,
    definition: Definition<'_>,
) -> Result<bool, AllocError> {
    if push_foreign(shown, site)? {
        return Ok(true);
    }
    if site.faulty.part.is_some() || site.operator().is_some() {
        return Ok(false);
    }
    if push_missing_define(shown, site)? {
        return Ok(true);
    }
    let Definition { name, is_closed } = definition;
    let name = cut(site.faulty.alloc, name)?;
    let sentence = if !site.has_command() {
        format!(in site.faulty.alloc;
            "The body of a routine is one command, or several with or or and between them."
        )?
    } else if is_closed {
        format!(in site.faulty.alloc; "The body of {name} ends at the ) before this.")?
    } else {
        format!(in site.faulty.alloc;
            "The body of a routine is one command: put several in parentheses, define {name} as ( .. )."
        )?
    };
    push_advice(shown, sentence.as_str())
}

/// Appends what to write for the name before the place, if it is a word of other languages and not declared.
fn push_foreign(shown: &mut String, site: Site<'_>) -> Result<bool, AllocError> {
    let Some(last) = site.last else {
        return Ok(false);
    };
    let declared = declared_in(site.faulty.alloc, site.faulty.script)?;
    match advice_on(site.faulty.alloc, site.faulty.script, last.text) {
        Some(advice) if declaration_of(&declared, last.text).is_none() => {
            push_advice(shown, advice)
        }
        _ => Ok(false),
    }
}

/// Appends how a name of this kind is defined.
pub(crate) fn push_form(
    alloc: Global,
    shown: &mut String,
    declared: DeclaredName<'_>,
) -> Result<bool, AllocError> {
    let name = cut(alloc, declared.name)?;
    let sentence = match declared.word {
        Word::Groupings => {
            format!(in alloc; "The definition of a grouping has no as: define {name} 'a' + 'b'.")?
        }
        Word::Routines | Word::Externals => {
            format!(in alloc; "The definition of a routine has as: define {name} as ( .. ).")?
        }
        _ => format!(in alloc; "Only routines, externals and groupings are defined.")?,
    };
    push_advice(shown, sentence.as_str())
}
