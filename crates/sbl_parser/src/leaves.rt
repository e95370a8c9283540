//! Parses commands that contain no command. Each function returns what it has read, or else the first fault, or `Memory`
//! if an allocation fails.

ghost use Rattle.std.specs.Prelude.{◌≡◌, ◌≤◌, ◌∷◌, []};
ghost use Rattle.sbl_ast.specs.Places.{max_depth};
ghost use Rattle.sbl_ast.specs.Terminal as t;
ghost use Rattle.sbl_ast.specs.Spelled.{spelled_command};
ghost use Rattle.sbl_ast.specs.View.{view_command};
ghost use Rattle.sbl_parser.specs.Gives.{ahead, comparison_end, spelled_end, Reads};
ghost use Rattle.sbl_parser.specs.Roles.{role_of};
ghost use Rattle.sbl_parser.specs.Steps as wanted;

use crate::arithmetic::expression;
use crate::cursor::{Cursor, Delimiter};
use crate::error::{ReadError, ReadResult};
use crate::role::Role;
use crate::tokens::{comparison, name};
use sbl_ast::{Additive, Command, Comparison, Expression};

/// Parses `G` and `- G`, after a `non`.
pub fn non(cursor: &mut Cursor<'_, '_>, depth: u8) -> ReadResult<Command>
    requires { depth ≤ max_depth }
    ensures { Reads (wanted.command depth ∷ []) (λ x. spelled_command (view_command x)) (t.non ∷ ahead cursor.old) result (ahead cursor.new) }
{
    match cursor.role() {
        Role::Name => Ok(Command::Non {
            with_minus: false,
            name: cursor.take_name()?,
        }),
        Role::Additive(operator) => non_minus(cursor, depth, operator),
        _ => Err(ReadError::Syntax(cursor.count_ahead())),
    }
}

/// Parses `- G`, after a `non`.
fn non_minus(cursor: &mut Cursor<'_, '_>, depth: u8, operator: Additive) -> ReadResult<Command>
    requires first { role_of (ahead cursor.old) ≡ Role.Additive operator }
    requires shallow { depth ≤ max_depth }
    ensures { Reads (wanted.command depth ∷ []) (λ x. spelled_command (view_command x)) (t.non ∷ ahead cursor.old) result (ahead cursor.new) }
{
    match operator {
        Additive::Plus => Err(ReadError::Syntax(cursor.count_ahead())),
        Additive::Minus => {
            cursor.skip();
            let name = name(cursor, depth)?;
            Ok(Command::Non {
                with_minus: true,
                name,
            })
        }
    }
}

/// Parses `X = E`, `X == E`, `( E1 == E2 )` and similar commands, after a `$`.
pub fn dollar(cursor: &mut Cursor<'_, '_>, depth: u8) -> ReadResult<Command>
    requires { depth ≤ max_depth }
    ensures { Reads (wanted.command depth ∷ []) (λ x. spelled_command (view_command x)) (t.dollar ∷ ahead cursor.old) result (ahead cursor.new) }
{
    match cursor.role() {
        Role::Name => assign_command(cursor, depth),
        Role::Open => values_compared(cursor, depth),
        _ => Err(ReadError::Syntax(cursor.count_ahead())),
    }
}

/// Parses `X = E` and similar commands, after a `$`.
fn assign_command(cursor: &mut Cursor<'_, '_>, depth: u8) -> ReadResult<Command>
    requires first { role_of (ahead cursor.old) ≡ Role.Name }
    requires shallow { depth ≤ max_depth }
    ensures { Reads (wanted.command depth ∷ []) (λ x. spelled_command (view_command x)) (t.dollar ∷ ahead cursor.old) result (ahead cursor.new) }
{
    let subject = cursor.take_name()?;
    match cursor.role() {
        Role::Assignment(operator) => {
            cursor.skip();
            let value = expression(cursor, depth)?;
            Ok(Command::Assign(subject, operator, value))
        }
        Role::Comparison(operator) => {
            cursor.skip();
            let value = expression(cursor, depth)?;
            Ok(Command::Compare(subject, operator, value))
        }
        Role::End => Err(ReadError::Syntax(cursor.count_ahead())),
        _ => Err(ReadError::OutOfProfile(cursor.count_ahead())),
    }
}

/// Parses `( E1 == E2 )` and similar commands, after a `$`.
fn values_compared(cursor: &mut Cursor<'_, '_>, depth: u8) -> ReadResult<Command>
    requires first { role_of (ahead cursor.old) ≡ Role.Open }
    requires shallow { depth ≤ max_depth }
    ensures { Reads (wanted.command depth ∷ []) (λ x. spelled_command (view_command x)) (t.dollar ∷ ahead cursor.old) result (ahead cursor.new) }
{
    cursor.skip();
    let left = expression(cursor, depth)?;
    match right_value(cursor, depth) {
        Ok((operator, right)) => Ok(Command::CompareValues(left, operator, right)),
        Err(error) => {
            drop(left);
            Err(error)
        }
    }
}

/// Parses `== E2 )` and similar ends of a comparison.
fn right_value(cursor: &mut Cursor<'_, '_>, depth: u8) -> ReadResult<(Comparison, Expression)>
    requires { depth ≤ max_depth }
    ensures { Reads (comparison_end depth) spelled_end (ahead cursor.old) result (ahead cursor.new) }
{
    let operator = comparison(cursor, depth)?;
    let right = expression(cursor, depth)?;
    match cursor.take(Delimiter::Close, depth) {
        Ok(()) => Ok((operator, right)),
        Err(error) => {
            drop(right);
            Err(error)
        }
    }
}
