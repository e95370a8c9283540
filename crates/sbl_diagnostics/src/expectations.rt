//! What can come at a place, in a sentence for the author of a script.

use crate::characters::cut;
use crate::constructs::{
    NAMES, is_item, last_definition, push_body, push_form, push_items, push_mode, push_names,
    push_number, push_operator, push_rows, push_sums, push_terms, push_truth,
};
use crate::declarations::{DeclaredName, declaration_of, declared_in};
use crate::enclosed::push_enclosed;
use crate::grammar::{Outlook, Symbol, outlook_after};
use crate::sentences::{Place, open_in};
use crate::sites::{Site, push_advice, push_text};
use sbl_source_map::begins_item;
use sbl_text::{Kind, Sign, Token, Word};
use std::alloc::{AllocError, Global};

/// What a grouping is defined by.
const GROUPINGS: &str = "After the name of a grouping comes a literal or another grouping.";

/// What an among is.
const AMONGS: &str =
    "An among has strings and, after them, commands in parentheses: among ( 'a' 'b' (<- 'c') ).";

/// Returns what comes after a token that needs more, if the token alone says it.
fn what_follows(required: Symbol, last: Kind) -> Option<&'static str> {
    match (required, last) {
        (Symbol::Open, Kind::Word(Word::Among)) => { Some("(, as in among ( 'a' 'b' (<- 'c') )") }
        (Symbol::Open, Kind::Word(Word::BackwardMode)) => {
            Some("(, as in backwardmode ( define r as .. )")
        }
        (Symbol::Open, _) => Some("(, then names and )"),
        (Symbol::Name, Kind::Word(Word::Define)) => Some("a name"),
        (Symbol::Name, Kind::Word(Word::SetMark)) => Some("the name of an integer"),
        (Symbol::Name, Kind::Word(_)) => Some("the name of a boolean"),
        (Symbol::Name, Kind::Sign(Sign::Arrow)) => Some("the name of a string"),
        (Symbol::Name | Symbol::Complement, _) => Some("the name of a grouping"),
        (Symbol::Argument, Kind::Sign(Sign::Plus | Sign::Minus)) => {
            Some("a literal or a grouping")
        }
        (Symbol::Argument, _) => Some("a literal or the name of a string"),
        (Symbol::Command, _) => Some("a command"),
        (Symbol::Subject, _) => Some("the name of an integer, or a comparison in parentheses"),
        (Symbol::Factor, Kind::Word(Word::Loop | Word::AtLeast)) => {
            Some("a number or an expression, and then a command")
        }
        (Symbol::Factor, _) => Some("a number or an expression"),
        (Symbol::Inserts, _) => Some("a pair of characters, side by side"),
        (Symbol::MacroLiteral, Kind::Word(_)) => Some("a literal"),
        _ => None,
    }
}

/// Appends what comes after the token before the place.
fn push_follower(shown: &mut String, site: Site<'_>, required: Symbol) -> Result<bool, AllocError> {
    let Some(last) = site.last else {
        return Ok(false);
    };
    let Some(what) = what_follows(required, last.kind) else {
        return Ok(false);
    };
    let after = cut(site.faulty.alloc, last.text)?;
    let is_inside = required == Symbol::Factor && last.kind == Kind::Sign(Sign::Open);
    let sentence = match (site.prior, site.spot.kind) {
        (Some(prior), _) if is_inside => {
            let before = cut(site.faulty.alloc, prior.text)?;
            format!(in site.faulty.alloc; "After {before} ( comes {what}.")?
        }
        (_, Some(Kind::Word(word))) if required == Symbol::Name && !begins_item(word) => {
            let token = site.spot.token;
            format!(in site.faulty.alloc;
                "After {after} comes {what}, and {token} is a reserved word."
            )?
        }
        (_, Some(Kind::Literal)) if last.kind == Kind::Sign(Sign::Equals) => {
            format!(in site.faulty.alloc;
                "After {after} comes {what}. A string variable is set by ->, as in [ next ] -> w."
            )?
        }
        _ => format!(in site.faulty.alloc; "After {after} comes {what}.")?,
    };
    push_advice(shown, sentence.as_str())
}

/// Appends what comes after `define` and a name.
fn push_definition(
    shown: &mut String,
    site: Site<'_>,
    declared: &[DeclaredName<'_>],
) -> Result<bool, AllocError> {
    let Some(last) = site.last else {
        return Ok(false);
    };
    if last.end == site.spot.begin && matches!(site.spot.kind, Some(Kind::Sign(Sign::Minus))) {
        return push_advice(shown, NAMES);
    }
    let sentence = match declaration_of(declared, last.text) {
        Some(name) if matches!(name.word, Word::Routines | Word::Externals) => {
            "After the name of a routine comes as: define r as ( .. )."
        }
        Some(name) if name.word == Word::Groupings => GROUPINGS,
        _ => "After the name comes as, for a routine, or a literal, for a grouping.",
    };
    push_advice(shown, sentence)
}

/// Appends what comes after the name of a macro, or after `hex` or `decimal`.
fn push_macro(shown: &mut String, site: Site<'_>) -> Result<bool, AllocError> {
    match site.last_of(Kind::MacroName) {
        Some(name) => {
            let name = cut(site.faulty.alloc, name)?;
            push_text(
                shown,
                format!(in site.faulty.alloc;
                    "After the name of the macro, {name}, comes a literal, or hex or decimal and a literal."
                )?,
            )
        }
        None => push_follower(shown, site, Symbol::MacroLiteral),
    }
}

/// Appends what comes after a word that has a number after it in place of a command.
fn push_loop(shown: &mut String, site: Site<'_>) -> Result<bool, AllocError> {
    let Some(last) = site.last else {
        return Ok(false);
    };
    let after = cut(site.faulty.alloc, last.text)?;
    push_text(
        shown,
        format!(in site.faulty.alloc;
            "After {after} comes a command, after loop a number: loop 3 next."
        )?,
    )
}

/// Appends what comes after `->`.
fn push_arrow(shown: &mut String, site: Site<'_>) -> Result<bool, AllocError> {
    if site.spot.kind != Some(Kind::Literal) {
        return push_follower(shown, site, Symbol::Name);
    }
    let literal = cut(site.faulty.alloc, site.spot.token)?;
    push_text(
        shown,
        format!(in site.faulty.alloc;
            "After -> comes the name of a string; <- {literal} replaces the slice."
        )?,
    )
}

/// Appends which symbol has to come.
fn push_required(
    shown: &mut String,
    site: Site<'_>,
    required: Symbol,
    declared: &[DeclaredName<'_>],
) -> Result<bool, AllocError> {
    match required {
        Symbol::Command if push_number(shown, site)? => Ok(true),
        Symbol::Factor if push_truth(shown, site)? => Ok(true),
        Symbol::Command if site.spot.kind == Some(Kind::Number) => push_loop(shown, site),
        Symbol::LoopBody => {
            push_advice(
                shown,
                "After the number of loop or atleast comes a command.",
            )
        }
        Symbol::For => push_advice(
            shown,
            "After setlimit and one command comes for: setlimit tomark p1 for ( .. ).",
        ),
        Symbol::Operator => {
            push_advice(shown, "After $ and a name comes a sign such as =, += or >.")
        }
        Symbol::Comparison if site.operator() == Some(Sign::Equals) => {
            push_advice(shown, "= sets an integer, and == compares two.")
        }
        Symbol::Comparison => {
            push_advice(shown, "Two numbers are compared here, as in $( a > b ).")
        }
        Symbol::Definition => push_definition(shown, site, declared),
        Symbol::MacroLiteral => push_macro(shown, site),
        Symbol::Name if site.last_kind() == Some(Kind::Sign(Sign::Arrow)) => {
            push_arrow(shown, site)
        }
        _ => push_follower(shown, site, required),
    }
}

/// Appends what an among has. If a name is at the place, it says how letters are written, and else what to do if parentheses are
/// around the first string.
fn push_amongs(
    shown: &mut String,
    site: Site<'_>,
    tokens: &[Token<'_>],
) -> Result<bool, AllocError> {
    let Site { faulty, spot, .. } = site;
    if spot.kind != Some(Kind::Name) {
        push_advice(shown, AMONGS)?;
        if let Some(open) = open_in(faulty.alloc, tokens)? {
            push_enclosed(shown, Place { faulty, spot }, open)?;
        }
        return Ok(true);
    }
    let name = cut(site.faulty.alloc, site.spot.token)?;
    push_text(
        shown,
        format!(in site.faulty.alloc; "{AMONGS} If letters are meant: '{name}'.")?,
    )
}

/// Appends what comes in the construct that the place is in.
fn push_inside(
    shown: &mut String,
    site: Site<'_>,
    outlook: &Outlook,
    tokens: &[Token<'_>],
    declared: &[DeclaredName<'_>],
) -> Result<bool, AllocError> {
    if outlook.offers(Symbol::Names) {
        push_names(shown, site)
    } else if outlook.offers(Symbol::Groups) || outlook.offers(Symbol::Entries) {
        push_amongs(shown, site, tokens)
    } else if outlook.offers(Symbol::Rows) {
        push_rows(shown, site, outlook)
    } else if outlook.offers(Symbol::Joiners) {
        push_body(shown, site, last_definition(tokens))
    } else if outlook.offers(Symbol::Terms) {
        push_terms(shown, site, tokens, declared)
    } else if outlook.offers(Symbol::Items) {
        push_items(shown, site)
    } else if outlook.offers(Symbol::Sums) {
        push_sums(shown, site)
    } else {
        Ok(false)
    }
}

/// Appends what can come at the place of a token that cannot come after these tokens, or at the end of the text. Returns whether it
/// did: it does not if no sentence is sure to fit.
pub(crate) fn push_expectation(
    shown: &mut String,
    site: Site<'_>,
    tokens: &[Token<'_>],
) -> Result<bool, AllocError> {
    let Some(outlook) = outlook_after(site.faulty.alloc, tokens, site.faulty.part)? else {
        return Ok(false);
    };
    let declared = declared_in(site.faulty.alloc, site.faulty.script)?;
    if push_operator(shown, site, outlook.role, &declared)? || push_mode(shown, site, &outlook)? {
        return Ok(true);
    }
    let is_over = is_item(site.spot.kind) || site.spot.token.is_empty();
    match outlook.first_required() {
        Some(Symbol::Close) | None if is_over => Ok(false),
        Some(Symbol::Close) | None => { push_inside(shown, site, &outlook, tokens, &declared) }
        Some(symbol) => push_required(shown, site, symbol, &declared),
    }
}

/// Appends what can come at the place of a name that is declared as something else. Returns whether it did.
pub(crate) fn push_use(
    shown: &mut String,
    site: Site<'_>,
    tokens: &[Token<'_>],
    declared: DeclaredName<'_>,
) -> Result<bool, AllocError> {
    let Some(mut outlook) = outlook_after(site.faulty.alloc, tokens, site.faulty.part)? else {
        return Ok(false);
    };
    if !outlook.pass(Kind::Name)? {
        return Ok(false);
    }
    match outlook.role {
        Some(Symbol::Name) if site.last_kind() == Some(Kind::Word(Word::Define)) => {
            push_form(site.faulty.alloc, shown, declared)
        }
        Some(Symbol::Condition) => push_advice(
            shown,
            "After a string of an among comes a routine, as its condition.",
        ),
        Some(Symbol::Definition) => push_advice(shown, GROUPINGS),
        Some(role) if role.has_command() && declared.word == Word::Integers => {
            let name = cut(site.faulty.alloc, site.spot.token)?;
            push_text(
                shown,
                format!(in site.faulty.alloc; "An integer is no command, but ${name} > 0 is one.")?,
            )
        }
        Some(role) if !role.has_command() => push_follower(shown, site, role),
        _ => Ok(false),
    }
}
