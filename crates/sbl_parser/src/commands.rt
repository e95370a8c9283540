//! Parses commands. Each function returns what it has read, or else the first fault, or `Memory` if an allocation fails.

ghost use Rattle.std.specs.Prelude.{◌≡◌, ◌≤◌, ◌+◌, ◌∷◌, [], IfErr, IfOk, OnOk};
ghost use Rattle.sbl_parser.specs.Roles.{role_of};
ghost use Rattle.sbl_ast.specs.Terminal as t;
ghost use Rattle.sbl_parser.specs.Steps as wanted;
ghost use Rattle.sbl_ast.specs.Places.{max_depth};
ghost use Rattle.sbl_ast.specs.Tree.{among_};
ghost use Rattle.sbl_ast.specs.Spelled.{spelled_command, spelled_rows, spelled_others, spelled_starter, spelled_groups};
ghost use Rattle.sbl_ast.specs.View.{view_among, view_command, view_row, view_entry};
ghost use Rattle.sbl_ast.specs.inside.ViewParts.{view_rows, view_starter, view_groups};
ghost use Rattle.sbl_parser.specs.Gives.{ahead, Reads};
ghost use Rattle.std.specs.Prelude.{map};

use crate::arithmetic::expression;
use crate::cursor::{Cursor, Delimiter, chain, push_read, whole_chain};
use crate::entries::{entries, entry};
use crate::error::{MAX_DEPTH, ReadError, ReadResult};
use crate::leaves::{dollar, non};
use crate::role::Role;
use crate::starts::begins_command;
use crate::tokens::{argument, name};
use sbl_ast::{Among, Command, Count, Entry, Group, NextCommand, Prefix, RowOfCommands};
use std::alloc::Global;

/// Puts a command into a box. It is dropped here if an allocation fails, so no caller has to prove that again.
fn box_command(alloc: Global, command: Command) -> ReadResult<Box<Command>>
    ensures same { IfOk result (λ b. b.value ≡ command) }
    ensures memory { IfErr result (λ e. e ≡ ReadError.Memory) }
{
    Ok(Box::new(alloc, command)?)
}

/// Parses a command whose first token is at nesting depth `depth`.
#[cycle(commands)]
fn command(cursor: &mut Cursor<'_, '_>, depth: u8) -> ReadResult<Command>
    requires { depth ≤ max_depth + 1 }
    ensures shallow { OnOk result (depth ≤ max_depth) }
    ensures gives { Reads (wanted.command depth ∷ []) (λ x. spelled_command (view_command x)) (ahead cursor.old) result (ahead cursor.new) }
{
    let role = cursor.role();
    if !begins_command(role) {
        return Err(ReadError::Syntax(cursor.count_ahead()));
    }
    if depth > MAX_DEPTH {
        return Err(ReadError::TooDeep(cursor.count_ahead()));
    }
    command_of(cursor, depth, role)
}

/// Parses a command whose first token has this role.
#[cycle(commands)]
fn command_of(cursor: &mut Cursor<'_, '_>, depth: u8, role: Role) -> ReadResult<Command>
    requires first { role_of (ahead cursor.old) ≡ role }
    requires shallow { depth ≤ max_depth }
    ensures { Reads (wanted.command depth ∷ []) (λ x. spelled_command (view_command x)) (ahead cursor.old) result (ahead cursor.new) }
{
    match role {
        Role::Open => {
            cursor.skip();
            Ok(Command::Bracket(block(cursor, depth)?))
        }
        Role::Simple(simple) => {
            cursor.skip();
            Ok(Command::Simple(simple))
        }
        Role::Literal => Ok(Command::Literal(cursor.take_literal()?)),
        Role::Name => Ok(Command::Name(cursor.take_name()?)),
        Role::Non => {
            cursor.skip();
            non(cursor, depth)
        }
        Role::Prefix(prefix) => {
            cursor.skip();
            prefix_command(cursor, depth, prefix)
        }
        Role::Count(count) => {
            cursor.skip();
            count_command(cursor, depth, count)
        }
        Role::Move(word) => {
            cursor.skip();
            Ok(Command::Move(word, expression(cursor, depth)?))
        }
        Role::SetLimit => set_limit(cursor, depth),
        Role::Naming(word) => {
            cursor.skip();
            Ok(Command::Named(word, name(cursor, depth)?))
        }
        Role::Among => Ok(Command::Among(among(cursor, depth)?)),
        Role::Splice(word) => {
            cursor.skip();
            Ok(Command::Splice(word, argument(cursor, depth)?))
        }
        Role::Dollar => {
            cursor.skip();
            dollar(cursor, depth)
        }
        _ => Err(ReadError::Syntax(cursor.count_ahead())),
    }
}

/// Parses a command and puts it into a box.
#[cycle(commands)]
fn inner_command(cursor: &mut Cursor<'_, '_>, depth: u8) -> ReadResult<Box<Command>>
    requires { depth ≤ max_depth + 1 }
    ensures { Reads (wanted.command depth ∷ []) (λ b. spelled_command (view_command b.value)) (ahead cursor.old) result (ahead cursor.new) }
{
    let inner = command(cursor, depth)?;
    box_command(cursor.alloc, inner)
}

/// Parses `C`, after a `not` or a similar word.
#[cycle(commands)]
fn prefix_command(cursor: &mut Cursor<'_, '_>, depth: u8, prefix: Prefix) -> ReadResult<Command>
    requires { depth ≤ max_depth }
    ensures { Reads (wanted.command depth ∷ []) (λ x. spelled_command (view_command x)) (t.prefix prefix ∷ ahead cursor.old) result (ahead cursor.new) }
{
    Ok(Command::Prefixed(prefix, inner_command(cursor, depth + 1)?))
}

/// Parses `E C`, after a `loop` or `atleast`.
#[cycle(commands)]
fn count_command(cursor: &mut Cursor<'_, '_>, depth: u8, count: Count) -> ReadResult<Command>
    requires { depth ≤ max_depth }
    ensures { Reads (wanted.command depth ∷ []) (λ x. spelled_command (view_command x)) (t.count count ∷ ahead cursor.old) result (ahead cursor.new) }
{
    let times = expression(cursor, depth)?;
    match inner_command(cursor, depth + 1) {
        Ok(inner) => Ok(Command::Counted(count, times, inner)),
        Err(error) => {
            drop(times);
            Err(error)
        }
    }
}

/// Parses `setlimit C1 for C2`.
#[cycle(commands)]
fn set_limit(cursor: &mut Cursor<'_, '_>, depth: u8) -> ReadResult<Command>
    requires first { role_of (ahead cursor.old) ≡ Role.SetLimit }
    requires shallow { depth ≤ max_depth }
    ensures { Reads (wanted.command depth ∷ []) (λ x. spelled_command (view_command x)) (ahead cursor.old) result (ahead cursor.new) }
{
    cursor.skip();
    let limit = inner_command(cursor, depth + 1)?;
    cursor.take(Delimiter::For, depth)?;
    let inner = inner_command(cursor, depth + 1)?;
    Ok(Command::SetLimit(limit, inner))
}

/// Parses `among ( .. )`.
#[cycle(commands)]
pub fn among(cursor: &mut Cursor<'_, '_>, depth: u8) -> ReadResult<Among>
    requires first { role_of (ahead cursor.old) ≡ Role.Among }
    requires shallow { depth ≤ max_depth }
    ensures { Reads (wanted.among depth ∷ []) (λ x. spelled_command (among_ (view_among x).0 (view_among x).1)) (ahead cursor.old) result (ahead cursor.new) }
{
    cursor.skip();
    cursor.take(Delimiter::Open, depth)?;
    let starter = starter(cursor, depth)?;
    let (groups, bare) = groups(cursor, depth)?;
    cursor.take(Delimiter::Close, depth)?;
    Ok(Among {
        starter,
        groups,
        bare,
    })
}

/// Parses the starter of an `among` (the commands in parentheses before the first string), if there is one. Its
/// parentheses are one level deeper than `depth`.
#[cycle(commands)]
fn starter(cursor: &mut Cursor<'_, '_>, depth: u8) -> ReadResult<Option<Vec<RowOfCommands>>>
    requires { depth ≤ max_depth }
    ensures { Reads (wanted.starter depth ∷ []) (λ x. spelled_starter (view_starter x)) (ahead cursor.old) result (ahead cursor.new) }
{
    match cursor.role() {
        Role::Open => {
            if depth >= MAX_DEPTH {
                return Err(ReadError::TooDeep(cursor.count_ahead()));
            }
            cursor.skip();
            Ok(Some(block(cursor, depth + 1)?))
        }
        _ => Ok(None),
    }
}

/// Parses the groups of an `among`, and the strings after the last group. Parentheses are one level deeper than
/// `depth`.
#[cycle(commands)]
fn groups(cursor: &mut Cursor<'_, '_>, depth: u8) -> ReadResult<(Vec<Group>, Vec<Entry>)>
    requires { depth ≤ max_depth }
    ensures { Reads (wanted.groups depth ∷ []) (λ x. spelled_groups (view_groups x.0.items (map view_entry x.1.items))) (ahead cursor.old) result (ahead cursor.new) }
{
    let mut groups = Vec::new(cursor.alloc);
    while let Role::Literal = cursor.role() {
        let first = entry(cursor, depth)?;
        let mut others = entries(cursor, depth)?;
        match cursor.role() {
            Role::Open => {
                if depth >= MAX_DEPTH {
                    return Err(ReadError::TooDeep(cursor.count_ahead()));
                }
                cursor.skip();
                let rows = block(cursor, depth + 1)?;
                groups.push(Group {
                    first,
                    others,
                    rows,
                })?;
            }
            _ => {
                others.insert(0, first)?;
                return Ok((groups, others));
            }
        }
    }
    Ok((groups, Vec::new(cursor.alloc)))
}

/// Parses the commands after a `(` at depth `depth`, and the `)`.
#[cycle(commands)]
fn block(cursor: &mut Cursor<'_, '_>, depth: u8) -> ReadResult<Vec<RowOfCommands>>
    requires { depth ≤ max_depth }
    ensures { Reads (wanted.rows (depth + 1) ∷ wanted.closing depth ∷ []) (λ x rest. spelled_rows (view_rows x.items) (t.close_ ∷ rest)) (ahead cursor.old) result (ahead cursor.new) }
{
    let rows = rows(cursor, depth + 1)?;
    cursor.take(Delimiter::Close, depth)?;
    Ok(rows)
}

/// Parses rows up to a token that does not begin a command.
#[cycle(commands)]
fn rows(cursor: &mut Cursor<'_, '_>, depth: u8) -> ReadResult<Vec<RowOfCommands>>
    requires { depth ≤ max_depth + 1 }
    ensures { Reads (wanted.rows depth ∷ []) (λ x. spelled_rows (view_rows x.items)) (ahead cursor.old) result (ahead cursor.new) }
{
    let mut rows = Vec::new(cursor.alloc);
    while begins_command(cursor.role()) {
        push_read!(rows, row(cursor, depth));
    }
    Ok(rows)
}

/// Parses a command and those that `or` or `and` joins to it.
#[cycle(commands)]
pub fn row(cursor: &mut Cursor<'_, '_>, depth: u8) -> ReadResult<RowOfCommands>
    requires { depth ≤ max_depth + 1 }
    ensures { Reads (wanted.command depth ∷ wanted.others depth ∷ []) (λ x rest. spelled_command (view_row x).0 (spelled_others (view_row x).1 rest)) (ahead cursor.old) result (ahead cursor.new) }
{
    whole_chain!(RowOfCommands: cursor, depth, command; Joiner => NextCommand { joiner, command })
}
