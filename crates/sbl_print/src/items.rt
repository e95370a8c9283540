//! Prints items and whole scripts.

ghost use Rattle.std.specs.Prelude.{◌≡◌, ◌++◌, ◌∷◌, [], IfOk, OnOk, map, string_bytes};
ghost use Rattle.std.specs.List.{flat_map};
ghost use Rattle.sbl_ast.specs.Terminal as t;
ghost use Rattle.sbl_ast.specs.Places.{placed_plain, tokens};
ghost use Rattle.sbl_ast.specs.Spelled.{spelled_base, spelled_names, spelled_terms};
ghost use Rattle.sbl_ast.specs.Tree as trees;
ghost use Rattle.sbl_ast.specs.View.{view_item, view_items, view_literal, view_plain, view_row, view_term};
ghost use Rattle.sbl_print.specs.Canonical.{canonical, item_text, plain_text};
ghost use Rattle.sbl_print.specs.Adding.{Adds, BeginsLine};

use crate::commands::put_row;
use crate::tokens::{
    put, put_argument, put_inserts, put_literal, put_macro_name, put_name, put_sign, put_word,
};
use crate::words::{additive_text, base_text, declaration_text};
use sbl_ast::{
    Argument, Base, DeclarationKind, Grouping, Literal, Plain, RowOfCommands, ScriptItem, Term,
};
use sbl_token::{Sign, Word};
use std::alloc::{AllocError, Global};

/// Appends names. Returns `AllocError` if an allocation fails.
fn put_names(out: &mut String, names: &Vec<String>) -> Result<(), AllocError>
    ensures { OnOk result (Adds (string_bytes out.old) (string_bytes out.new) (spelled_names (map string_bytes names.now.items))) }
{
    for name in names {
        put_name(out, name)?;
    }
    Ok(())
}

/// Appends `hex`, `decimal` or nothing. Returns `AllocError` if an allocation fails.
fn put_base(out: &mut String, base: Option<Base>) -> Result<(), AllocError>
    ensures { OnOk result (Adds (string_bytes out.old) (string_bytes out.new) (spelled_base base)) }
{
    match base {
        None => Ok(()),
        Some(base) => put(out, base_text(base)),
    }
}

/// Appends the terms after the first one of a grouping. Returns `AllocError` if an allocation fails.
fn put_terms(out: &mut String, terms: &Vec<Term>) -> Result<(), AllocError>
    ensures { OnOk result (Adds (string_bytes out.old) (string_bytes out.new) (spelled_terms (map view_term terms.now.items))) }
{
    for term in terms {
        put(out, additive_text(term.operator))?;
        put_argument(out, &term.argument)?;
    }
    Ok(())
}

/// Appends a declaration at the start of a line. Returns `AllocError` if an allocation fails.
fn begin_declaration(
    out: &mut String,
    kind: DeclarationKind,
    names: &Vec<String>,
) -> Result<(), AllocError>
    ensures { OnOk result (BeginsLine (string_bytes out.old) (string_bytes out.new) (tokens (placed_plain (trees.declaration kind (map string_bytes names.now.items)) []))) }
{
    out.push_str(declaration_text(kind))?;
    put_sign(out, Sign::Open)?;
    put_names(out, names)?;
    put_sign(out, Sign::Close)
}

/// Appends `stringescapes` and its insert characters at the start of a line. Returns `AllocError` if an allocation
/// fails.
fn begin_escapes(out: &mut String, a: char, b: char) -> Result<(), AllocError>
    ensures { OnOk result (BeginsLine (string_bytes out.old) (string_bytes out.new) (tokens (placed_plain (trees.escapes a b) []))) }
{
    out.push_str(Word::StringEscapes.text())?;
    put_inserts(out, a, b)
}

/// Appends `stringdef` and its macro at the start of a line. Returns `AllocError` if an allocation fails.
fn begin_macro(
    out: &mut String,
    name: &String,
    base: Option<Base>,
    value: &Literal,
) -> Result<(), AllocError>
    ensures { OnOk result (BeginsLine (string_bytes out.old) (string_bytes out.new) (tokens (placed_plain (trees.macro (string_bytes name.now) base (view_literal value.now)) []))) }
{
    out.push_str(Word::StringDef.text())?;
    put_macro_name(out, name)?;
    put_base(out, base)?;
    put_literal(out, value)
}

/// Appends the definition of a routine at the start of a line. Returns `AllocError` if an allocation fails.
fn begin_routine(
    alloc: Global,
    out: &mut String,
    name: &String,
    body: &RowOfCommands,
) -> Result<(), AllocError>
    ensures { OnOk result (BeginsLine (string_bytes out.old) (string_bytes out.new) (tokens (placed_plain (trees.routine (string_bytes name.now) (view_row body.now).0 (view_row body.now).1) []))) }
{
    out.push_str(Word::Define.text())?;
    put_name(out, name)?;
    put_word(out, Word::As)?;
    put_row(alloc, out, body)
}

/// Appends the definition of a grouping at the start of a line. Returns `AllocError` if an allocation fails.
fn begin_grouping(out: &mut String, grouping: &Grouping) -> Result<(), AllocError>
    ensures { OnOk result (BeginsLine (string_bytes out.old) (string_bytes out.new) (tokens (placed_plain (view_plain (Plain.Grouping grouping.now)) []))) }
{
    out.push_str(Word::Define.text())?;
    put_name(out, &grouping.name)?;
    put_argument(out, &grouping.first)?;
    put_terms(out, &grouping.others)
}

/// Appends the line of an item that is allowed in a `backwardmode`. Returns `AllocError` if an allocation fails.
fn put_plain(alloc: Global, out: &mut String, plain: &Plain) -> Result<(), AllocError>
    ensures { OnOk result (string_bytes out.new ≡ string_bytes out.old ++ plain_text (view_plain plain.now)) }
{
    match plain {
        Plain::Declaration(kind, names) => begin_declaration(out, *kind, names)?,
        Plain::StringEscapes(a, b) => begin_escapes(out, *a, *b)?,
        Plain::StringDef { name, base, value } => begin_macro(out, name, *base, value)?,
        Plain::Routine { name, body } => begin_routine(alloc, out, name, body)?,
        Plain::Grouping(grouping) => begin_grouping(out, grouping)?,
    }
    out.push_str("\n")
}

/// Appends the lines of the items of a `backwardmode`. Returns `AllocError` if an allocation fails.
fn put_plains(alloc: Global, out: &mut String, plains: &Vec<Plain>) -> Result<(), AllocError>
    ensures { OnOk result (string_bytes out.new ≡ string_bytes out.old ++ flat_map plain_text (map view_plain plains.now.items)) }
{
    for plain in plains {
        put_plain(alloc, out, plain)?;
    }
    Ok(())
}

/// Appends the lines of an item. Returns `AllocError` if an allocation fails.
fn put_item(alloc: Global, out: &mut String, item: &ScriptItem) -> Result<(), AllocError>
    ensures { OnOk result (string_bytes out.new ≡ string_bytes out.old ++ item_text (view_item item.now)) }
{
    match item {
        ScriptItem::Plain(plain) => put_plain(alloc, out, plain),
        ScriptItem::BackwardMode(plains) => {
            out.push_str("backwardmode (\n")?;
            put_plains(alloc, out, plains)?;
            out.push_str(")\n")
        }
    }
}

/// Returns the canonical text of the items of a script (our own choice): each item is one line of its tokens, separated
/// by single spaces; a `backwardmode` is a line `backwardmode (`, the lines of its items and a line `)`. A literal is
/// printed as its spelling in quotes, a number as its value in decimal. Comments and other white space are dropped.
///
/// Returns `AllocError` if an allocation fails.
pub fn canonical_text(alloc: Global, items: &[ScriptItem]) -> Result<String, AllocError>
    ensures { IfOk result (λ text. string_bytes text ≡ canonical (view_items items.now)) }
{
    let mut out = String::new(alloc);
    for item in items {
        put_item(alloc, &mut out, item)?;
    }
    Ok(out)
}
