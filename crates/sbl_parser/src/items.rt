//! Parses items. Each function returns what it has read, or else the first fault, or `Memory` if an allocation fails.

ghost use Rattle.std.specs.Prelude.{◌≡◌, ◌≤◌, ◌∷◌, [], map, string_bytes};
ghost use Rattle.sbl_parser.specs.Roles.{role_of};
ghost use Rattle.sbl_ast.specs.Terminal as t;
ghost use Rattle.sbl_parser.specs.Steps as wanted;
ghost use Rattle.sbl_ast.specs.Spelled.{argument_terminal, spelled_names, spelled_base, spelled_terms, spelled_plain, spelled_item, spelled_items};
ghost use Rattle.sbl_ast.specs.View.{view_argument, view_literal, view_term, view_plain, view_item, view_items};
ghost use Rattle.sbl_parser.specs.Gives.{ahead, Reads};

use crate::commands::row;
use crate::cursor::{Cursor, Delimiter, chain, push_read};
use crate::error::{ReadError, ReadResult};
use crate::role::Role;
use crate::starts::{begins_item, begins_plain};
use crate::tokens::{argument, name};
use sbl_ast::{Argument, Base, DeclarationKind, Grouping, Literal, Plain, ScriptItem, Term};

/// Parses names up to a token that is not a name.
fn names(cursor: &mut Cursor<'_, '_>) -> ReadResult<Vec<String>>
    ensures { Reads (wanted.names ∷ []) (λ x. spelled_names (map string_bytes x.items)) (ahead cursor.old) result (ahead cursor.new) }
{
    let mut names = Vec::new(cursor.alloc);
    while let Role::Name = cursor.role() {
        names.push(cursor.take_name()?)?;
    }
    Ok(names)
}

/// Parses the name of a macro.
fn macro_name(cursor: &mut Cursor<'_, '_>) -> ReadResult<String>
    ensures { Reads (wanted.macro ∷ []) (λ x rest. t.macro_name (string_bytes x) ∷ rest) (ahead cursor.old) result (ahead cursor.new) }
{
    match cursor.role() {
        Role::MacroName => cursor.take_macro_name(),
        _ => Err(ReadError::Syntax(cursor.count_ahead())),
    }
}

/// Parses `hex` or `decimal`, if there is one.
fn base(cursor: &mut Cursor<'_, '_>) -> Option<Base>
    ensures spelled { ahead cursor.old ≡ spelled_base result (ahead cursor.new) }
    ensures faults { (k : wanted.Stack) → wanted.fault (ahead cursor.old) (wanted.base ∷ k) ≡ wanted.fault (ahead cursor.new) k }
{
    let Role::Base(base) = cursor.role() else {
        return None;
    };
    cursor.skip();
    Some(base)
}

/// Parses the literal of a macro.
fn macro_literal(cursor: &mut Cursor<'_, '_>) -> ReadResult<Literal>
    ensures { Reads (wanted.literal ∷ []) (λ x rest. t.literal (view_literal x) ∷ rest) (ahead cursor.old) result (ahead cursor.new) }
{
    match cursor.role() {
        Role::Literal => Ok(cursor.take_literal()?),
        _ => Err(ReadError::Syntax(cursor.count_ahead())),
    }
}

/// Parses the terms of a grouping and returns the first one and those after it.
pub fn terms(cursor: &mut Cursor<'_, '_>) -> ReadResult<(Argument, Vec<Term>)>
    ensures { Reads (wanted.argument 0 ∷ wanted.terms ∷ []) (λ x r. argument_terminal (view_argument x.0) ∷ spelled_terms (map view_term x.1.items) r) (ahead cursor.old) result (ahead cursor.new) }
{
    Ok(chain!(cursor, 0, argument; Additive => Term { operator, argument }))
}

/// Parses `routines ( A B .. )` and similar declarations.
fn declaration(cursor: &mut Cursor<'_, '_>, kind: DeclarationKind) -> ReadResult<Plain>
    requires { role_of (ahead cursor.old) ≡ Role.Declares kind }
    ensures { Reads (wanted.plain ∷ []) (λ x. spelled_plain (view_plain x)) (ahead cursor.old) result (ahead cursor.new) }
{
    cursor.skip();
    cursor.take(Delimiter::Open, 0)?;
    let names = names(cursor)?;
    cursor.take(Delimiter::Close, 0)?;
    Ok(Plain::Declaration(kind, names))
}

/// Parses `stringescapes AB`.
fn string_escapes(cursor: &mut Cursor<'_, '_>) -> ReadResult<Plain>
    requires { role_of (ahead cursor.old) ≡ Role.StringEscapes }
    ensures { Reads (wanted.plain ∷ []) (λ x. spelled_plain (view_plain x)) (ahead cursor.old) result (ahead cursor.new) }
{
    cursor.skip();
    match cursor.role() {
        Role::Inserts => {
            let (a, b) = cursor.take_inserts();
            Ok(Plain::StringEscapes(a, b))
        }
        _ => Err(ReadError::Syntax(cursor.count_ahead())),
    }
}

/// Parses `stringdef M 'abc'` and similar definitions.
fn string_def(cursor: &mut Cursor<'_, '_>) -> ReadResult<Plain>
    requires { role_of (ahead cursor.old) ≡ Role.StringDef }
    ensures { Reads (wanted.plain ∷ []) (λ x. spelled_plain (view_plain x)) (ahead cursor.old) result (ahead cursor.new) }
{
    cursor.skip();
    let name = macro_name(cursor)?;
    let base = base(cursor);
    let value = macro_literal(cursor)?;
    Ok(Plain::StringDef { name, base, value })
}

/// Parses `define NAME as R` and `define NAME T1 + T2 ..`.
fn define(cursor: &mut Cursor<'_, '_>) -> ReadResult<Plain>
    requires { role_of (ahead cursor.old) ≡ Role.Define }
    ensures { Reads (wanted.plain ∷ []) (λ x. spelled_plain (view_plain x)) (ahead cursor.old) result (ahead cursor.new) }
{
    cursor.skip();
    let name = name(cursor, 0)?;
    match cursor.role() {
        Role::As => {
            cursor.skip();
            let body = row(cursor, 1)?;
            Ok(Plain::Routine { name, body })
        }
        _ => {
            let (first, others) = terms(cursor)?;
            Ok(Plain::Grouping(Grouping {
                name,
                first,
                others,
            }))
        }
    }
}

/// Parses an item that is allowed in a `backwardmode`.
fn plain(cursor: &mut Cursor<'_, '_>) -> ReadResult<Plain>
    ensures { Reads (wanted.plain ∷ []) (λ x. spelled_plain (view_plain x)) (ahead cursor.old) result (ahead cursor.new) }
{
    match cursor.role() {
        Role::Declares(kind) => declaration(cursor, kind),
        Role::StringEscapes => string_escapes(cursor),
        Role::StringDef => string_def(cursor),
        Role::Define => define(cursor),
        _ => Err(ReadError::Syntax(cursor.count_ahead())),
    }
}

/// Parses `backwardmode ( .. )`.
fn backward_mode(cursor: &mut Cursor<'_, '_>) -> ReadResult<ScriptItem>
    requires { role_of (ahead cursor.old) ≡ Role.BackwardMode }
    ensures { Reads (wanted.item ∷ []) (λ x. spelled_item (view_item x)) (ahead cursor.old) result (ahead cursor.new) }
{
    cursor.skip();
    cursor.take(Delimiter::Open, 0)?;
    let mut plains = Vec::new(cursor.alloc);
    while begins_plain(cursor.role()) {
        push_read!(plains, plain(cursor));
    }
    match cursor.take(Delimiter::Close, 0) {
        Ok(()) => Ok(ScriptItem::BackwardMode(plains)),
        Err(error) => {
            drop(plains);
            Err(error)
        }
    }
}

/// Parses an item.
fn item(cursor: &mut Cursor<'_, '_>) -> ReadResult<ScriptItem>
    ensures { Reads (wanted.item ∷ []) (λ x. spelled_item (view_item x)) (ahead cursor.old) result (ahead cursor.new) }
{
    match cursor.role() {
        Role::BackwardMode => backward_mode(cursor),
        _ => Ok(ScriptItem::Plain(plain(cursor)?)),
    }
}

/// Parses items up to a token that does not begin an item.
pub fn items(cursor: &mut Cursor<'_, '_>) -> ReadResult<Vec<ScriptItem>>
    ensures { Reads (wanted.items ∷ []) (λ x. spelled_items (view_items x.items)) (ahead cursor.old) result (ahead cursor.new) }
{
    let mut items = Vec::new(cursor.alloc);
    while begins_item(cursor.role()) {
        push_read!(items, item(cursor));
    }
    Ok(items)
}
