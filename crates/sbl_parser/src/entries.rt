//! Parses the strings of an `among`.

ghost use Rattle.std.specs.Prelude.{◌≡◌, ◌≤◌, ◌∷◌, [], drop, map, IfOk, IfErr};
ghost use Rattle.sbl_parser.specs.Roles.{role_of};
ghost use Rattle.sbl_parser.specs.Steps as wanted;
ghost use Rattle.sbl_ast.specs.Places.{max_depth};
ghost use Rattle.sbl_ast.specs.Spelled.{spelled_condition, spelled_entry, spelled_entries};
ghost use Rattle.sbl_ast.specs.View.{view_entry};
ghost use Rattle.sbl_ast.specs.inside.ViewParts.{view_name};
ghost use Rattle.sbl_parser.specs.Gives.{ahead, Reads};

use crate::cursor::Cursor;
use crate::error::{ReadError, ReadResult};
use crate::role::Role;
use sbl_ast::Entry;

/// Parses the condition of a string, if there is one.
fn condition(cursor: &mut Cursor<'_, '_>, depth: u8) -> ReadResult<Option<String>>
    requires { depth ≤ max_depth }
    ensures memory { IfErr result (λ e. e ≡ ReadError.Memory) }
    ensures gives { Reads (wanted.condition depth ∷ []) (λ x. spelled_condition (view_name x)) (ahead cursor.old) result (ahead cursor.new) }
{
    match cursor.role() {
        Role::Name => Ok(Some(cursor.take_name()?)),
        _ => Ok(None),
    }
}

/// Parses a string and its condition.
pub fn entry(cursor: &mut Cursor<'_, '_>, depth: u8) -> ReadResult<Entry>
    requires first { role_of (ahead cursor.old) ≡ Role.Literal }
    requires shallow { depth ≤ max_depth }
    ensures spelled { IfOk result (λ x. ahead cursor.old ≡ spelled_entry (view_entry x) (ahead cursor.new)) }
    ensures faults { IfOk result (λ x. (k : wanted.Stack) → wanted.fault (drop 1 (ahead cursor.old)) (wanted.condition depth ∷ k) ≡ wanted.fault (ahead cursor.new) k) }
    ensures memory { IfErr result (λ e. e ≡ ReadError.Memory) }
{
    let string = cursor.take_literal()?;
    let condition = condition(cursor, depth)?;
    Ok(Entry { string, condition })
}

/// Parses more strings, if any.
pub fn entries(cursor: &mut Cursor<'_, '_>, depth: u8) -> ReadResult<Vec<Entry>>
    requires { depth ≤ max_depth }
    ensures spelled { IfOk result (λ x. ahead cursor.old ≡ spelled_entries (map view_entry x.items) (ahead cursor.new)) }
    ensures faults { IfOk result (λ x. (k : wanted.Stack) → wanted.fault (ahead cursor.old) (wanted.entries depth ∷ k) ≡ wanted.fault (ahead cursor.new) (wanted.entries depth ∷ k)) }
    ensures ended { IfOk result (λ x. role_of (ahead cursor.new) ≡ Role.Literal → ⊥) }
    ensures memory { IfErr result (λ e. e ≡ ReadError.Memory) }
{
    let mut entries = Vec::new(cursor.alloc);
    while let Role::Literal = cursor.role() {
        entries.push(entry(cursor, depth)?)?;
    }
    Ok(entries)
}
