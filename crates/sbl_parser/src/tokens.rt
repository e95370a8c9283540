//! Parses parts of one token.

ghost use Rattle.std.specs.Prelude.{◌≡◌, ◌≤◌, ◌∷◌, [], string_bytes};
ghost use Rattle.sbl_ast.specs.Terminal as t;
ghost use Rattle.sbl_parser.specs.Steps as wanted;
ghost use Rattle.sbl_ast.specs.Places.{max_depth};
ghost use Rattle.sbl_ast.specs.Spelled.{argument_terminal};
ghost use Rattle.sbl_ast.specs.View.{view_argument};
ghost use Rattle.sbl_parser.specs.Gives.{ahead, Reads};

use crate::cursor::Cursor;
use crate::error::{ReadError, ReadResult};
use crate::role::Role;
use sbl_ast::{Argument, Comparison};

/// Parses a name.
pub fn name(cursor: &mut Cursor<'_, '_>, depth: u8) -> ReadResult<String>
    requires { depth ≤ max_depth }
    ensures { Reads (wanted.name depth ∷ []) (λ x rest. t.name (string_bytes x) ∷ rest) (ahead cursor.old) result (ahead cursor.new) }
{
    match cursor.role() {
        Role::Name => Ok(cursor.take_name()?),
        _ => Err(ReadError::Syntax(cursor.count_ahead())),
    }
}

/// Parses a literal or a name.
pub fn argument(cursor: &mut Cursor<'_, '_>, depth: u8) -> ReadResult<Argument>
    requires { depth ≤ max_depth }
    ensures { Reads (wanted.argument depth ∷ []) (λ x rest. argument_terminal (view_argument x) ∷ rest) (ahead cursor.old) result (ahead cursor.new) }
{
    match cursor.role() {
        Role::Literal => Ok(Argument::Literal(cursor.take_literal()?)),
        Role::Name => Ok(Argument::Name(cursor.take_name()?)),
        _ => Err(ReadError::Syntax(cursor.count_ahead())),
    }
}

/// Parses a sign that compares two numbers.
pub fn comparison(cursor: &mut Cursor<'_, '_>, depth: u8) -> ReadResult<Comparison>
    requires { depth ≤ max_depth }
    ensures { Reads (wanted.comparison depth ∷ []) (λ x rest. t.compares x ∷ rest) (ahead cursor.old) result (ahead cursor.new) }
{
    let Role::Comparison(operator) = cursor.role() else {
        return Err(ReadError::Syntax(cursor.count_ahead()));
    };
    cursor.skip();
    Ok(operator)
}
