//! Parses arithmetic expressions. Each function returns what it has read, or else the first fault, or `Memory` if an
//! allocation fails.

ghost use Rattle.std.specs.Prelude.{◌≡◌, ◌≤◌, ◌∷◌, []};
ghost use Rattle.sbl_parser.specs.Roles.{role_of};
ghost use Rattle.sbl_parser.specs.Steps as wanted;
ghost use Rattle.sbl_ast.specs.Places.{max_depth};
ghost use Rattle.sbl_ast.specs.Spelled.{spelled_expression, spelled_product, spelled_factor};
ghost use Rattle.sbl_ast.specs.View.{view_expression};
ghost use Rattle.sbl_ast.specs.inside.ViewParts.{view_product, view_factor};
ghost use Rattle.sbl_parser.specs.Gives.{ahead, Reads};

use crate::cursor::{Cursor, Delimiter, chain, whole_chain};
use crate::error::{MAX_DEPTH, ReadError, ReadResult};
use crate::role::Role;
use crate::tokens::argument;
use sbl_ast::{Additive, Expression, Factor, NextFactor, NextProduct, Product};

/// Parses an arithmetic expression. Parentheses or a minus in it are one level deeper than `depth`.
#[cycle(arithmetic)]
pub fn expression(cursor: &mut Cursor<'_, '_>, depth: u8) -> ReadResult<Expression>
    requires { depth ≤ max_depth }
    ensures { Reads (wanted.expression depth []) (λ x. spelled_expression (view_expression x)) (ahead cursor.old) result (ahead cursor.new) }
{
    whole_chain!(Expression: cursor, depth, product; Additive => NextProduct { operator, product })
}

/// Parses a product.
#[cycle(arithmetic)]
fn product(cursor: &mut Cursor<'_, '_>, depth: u8) -> ReadResult<Product>
    requires { depth ≤ max_depth }
    ensures { Reads (wanted.factor depth ∷ wanted.scales depth ∷ []) (λ x. spelled_product (view_product x)) (ahead cursor.old) result (ahead cursor.new) }
{
    whole_chain!(Product: cursor, depth, factor; Multiplicative => NextFactor { operator, factor })
}

/// Parses a factor.
#[cycle(arithmetic)]
fn factor(cursor: &mut Cursor<'_, '_>, depth: u8) -> ReadResult<Factor>
    requires { depth ≤ max_depth }
    ensures { Reads (wanted.factor depth ∷ []) (λ x. spelled_factor (view_factor x)) (ahead cursor.old) result (ahead cursor.new) }
{
    match cursor.role() {
        Role::Number => Ok(Factor::Number(cursor.take_number())),
        Role::Name => Ok(Factor::Name(cursor.take_name()?)),
        Role::Constant(constant) => {
            cursor.skip();
            Ok(Factor::Constant(constant))
        }
        Role::LenOf => {
            cursor.skip();
            Ok(Factor::LenOf(argument(cursor, depth)?))
        }
        Role::Additive(operator) => negation(cursor, depth, operator),
        Role::Open => bracket_factor(cursor, depth),
        _ => Err(ReadError::Syntax(cursor.count_ahead())),
    }
}

/// Parses `- F`.
#[cycle(arithmetic)]
fn negation(cursor: &mut Cursor<'_, '_>, depth: u8, operator: Additive) -> ReadResult<Factor>
    requires first { role_of (ahead cursor.old) ≡ Role.Additive operator }
    requires shallow { depth ≤ max_depth }
    ensures { Reads (wanted.factor depth ∷ []) (λ x. spelled_factor (view_factor x)) (ahead cursor.old) result (ahead cursor.new) }
{
    match operator {
        Additive::Plus => Err(ReadError::Syntax(cursor.count_ahead())),
        Additive::Minus => {
            if depth >= MAX_DEPTH {
                return Err(ReadError::TooDeep(cursor.count_ahead()));
            }
            cursor.skip();
            let inner = factor(cursor, depth + 1)?;
            Ok(Factor::Minus(Box::new(cursor.alloc, inner)?))
        }
    }
}

/// Parses `( E )`.
#[cycle(arithmetic)]
fn bracket_factor(cursor: &mut Cursor<'_, '_>, depth: u8) -> ReadResult<Factor>
    requires first { role_of (ahead cursor.old) ≡ Role.Open }
    requires shallow { depth ≤ max_depth }
    ensures { Reads (wanted.factor depth ∷ []) (λ x. spelled_factor (view_factor x)) (ahead cursor.old) result (ahead cursor.new) }
{
    if depth >= MAX_DEPTH {
        return Err(ReadError::TooDeep(cursor.count_ahead()));
    }
    cursor.skip();
    let inner = expression(cursor, depth + 1)?;
    cursor.take(Delimiter::Close, depth + 1)?;
    Ok(Factor::Bracket(Box::new(cursor.alloc, inner)?))
}
