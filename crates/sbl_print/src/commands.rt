//! Prints commands.

ghost use Rattle.std.specs.Prelude.{◌≡◌, ◌∷◌, OnOk, map, string_bytes};
ghost use Rattle.sbl_ast.specs.Terminal.{Terminal};
ghost use Rattle.sbl_ast.specs.Terminal as t;
ghost use Rattle.sbl_ast.specs.Spelled.{spelled_command, spelled_entries, spelled_entry, spelled_groups, spelled_others, spelled_rows, spelled_starter};
ghost use Rattle.sbl_ast.specs.Tree as trees;
ghost use Rattle.sbl_ast.specs.View.{view_among, view_argument, view_command, view_entry, view_expression, view_row};
ghost use Rattle.sbl_ast.specs.inside.ViewParts.{view_others, view_rows};
ghost use Rattle.sbl_print.specs.Adding.{Adds, AddsGroups, spelled_dollar, token_text};

use crate::arithmetic::put_expression;
use crate::tokens::{put, put_argument, put_literal, put_name, put_operations, put_sign, put_word};
use crate::words::{
    assignment_text, comparison_text, count_text, joiner_text, move_text, naming_text, prefix_text,
    simple_text, splice_text,
};
use sbl_ast::{
    Among, Argument, Command, Comparison, Entry, Expression, Group, Move, Naming, NextCommand,
    RowOfCommands, Splice,
};
use sbl_token::{Sign, Word};
use std::alloc::{AllocError, Global};

/// Appends `non G` or `non - G`. Returns `AllocError` if an allocation fails.
fn put_non(out: &mut String, with_minus: bool, name: &String) -> Result<(), AllocError>
    ensures { OnOk result (Adds (string_bytes out.old) (string_bytes out.new) (spelled_command (trees.non_ with_minus (string_bytes name.now)))) }
{
    put_word(out, Word::Non)?;
    if with_minus {
        put_sign(out, Sign::Minus)?;
    }
    put_name(out, name)
}

/// Appends `hop E` and similar commands. Returns `AllocError` if an allocation fails.
fn put_move(
    alloc: Global,
    out: &mut String,
    word: Move,
    place: &Expression,
) -> Result<(), AllocError>
    ensures { OnOk result (Adds (string_bytes out.old) (string_bytes out.new) (spelled_command (trees.move_ word (view_expression place.now)))) }
{
    put(out, move_text(word))?;
    put_expression(alloc, out, place)
}

/// Appends `set X` and similar commands. Returns `AllocError` if an allocation fails.
fn put_named(out: &mut String, word: Naming, name: &String) -> Result<(), AllocError>
    ensures { OnOk result (Adds (string_bytes out.old) (string_bytes out.new) (spelled_command (trees.named word (string_bytes name.now)))) }
{
    put(out, naming_text(word))?;
    put_name(out, name)
}

/// Appends `<- S` and similar commands. Returns `AllocError` if an allocation fails.
fn put_splice(out: &mut String, word: Splice, string: &Argument) -> Result<(), AllocError>
    ensures { OnOk result (Adds (string_bytes out.old) (string_bytes out.new) (spelled_command (trees.splice_ word (view_argument string.now)))) }
{
    put(out, splice_text(word))?;
    put_argument(out, string)
}

/// Appends `$ X`, a sign and an expression, as in `$ X = E` and `$ X == E`. Returns `AllocError` if an allocation fails.
fn put_dollar(
    alloc: Global,
    out: &mut String,
    name: &String,
    sign: &str,
    number: &Expression,
) -> Result<(), AllocError>
    ensures { OnOk result ((x : Terminal) → token_text x ≡ sign.now → Adds (string_bytes out.old) (string_bytes out.new) (spelled_dollar (string_bytes name.now) x (view_expression number.now))) }
{
    put_sign(out, Sign::Dollar)?;
    put_name(out, name)?;
    put(out, sign)?;
    put_expression(alloc, out, number)
}

/// Appends `$ ( E1 == E2 )` and similar commands. Returns `AllocError` if an allocation fails.
fn put_compare_values(
    alloc: Global,
    out: &mut String,
    first: &Expression,
    sign: Comparison,
    second: &Expression,
) -> Result<(), AllocError>
    ensures { OnOk result (Adds (string_bytes out.old) (string_bytes out.new) (spelled_command (trees.compare_values_ (view_expression first.now) sign (view_expression second.now)))) }
{
    put_sign(out, Sign::Dollar)?;
    put_sign(out, Sign::Open)?;
    put_expression(alloc, out, first)?;
    put(out, comparison_text(sign))?;
    put_expression(alloc, out, second)?;
    put_sign(out, Sign::Close)
}

/// Appends a string of an among, with its condition. Returns `AllocError` if an allocation fails.
fn put_entry(out: &mut String, entry: &Entry) -> Result<(), AllocError>
    ensures { OnOk result (Adds (string_bytes out.old) (string_bytes out.new) (spelled_entry (view_entry entry.now))) }
{
    put_literal(out, &entry.string)?;
    match &entry.condition {
        None => Ok(()),
        Some(name) => put_name(out, name),
    }
}

/// Appends strings of an among. Returns `AllocError` if an allocation fails.
fn put_entries(out: &mut String, entries: &Vec<Entry>) -> Result<(), AllocError>
    ensures { OnOk result (Adds (string_bytes out.old) (string_bytes out.new) (spelled_entries (map view_entry entries.now.items))) }
{
    for entry in entries {
        put_entry(out, entry)?;
    }
    Ok(())
}

/// Appends a command. Returns `AllocError` if an allocation fails.
#[cycle(commands)]
fn put_command(alloc: Global, out: &mut String, command: &Command) -> Result<(), AllocError>
    ensures { OnOk result (Adds (string_bytes out.old) (string_bytes out.new) (spelled_command (view_command command.now))) }
{
    match command {
        Command::Bracket(rows) => put_bracket(alloc, out, rows),
        Command::Simple(simple) => put(out, simple_text(*simple)),
        Command::Literal(literal) => put_literal(out, literal),
        Command::Name(name) => put_name(out, name),
        Command::Non { with_minus, name } => put_non(out, *with_minus, name),
        Command::Prefixed(prefix, inner) => {
            put(out, prefix_text(*prefix))?;
            put_command(alloc, out, inner)
        }
        Command::Counted(count, times, inner) => {
            put(out, count_text(*count))?;
            put_expression(alloc, out, times)?;
            put_command(alloc, out, inner)
        }
        Command::Move(word, place) => put_move(alloc, out, *word, place),
        Command::Named(word, name) => put_named(out, *word, name),
        Command::Splice(word, string) => put_splice(out, *word, string),
        Command::SetLimit(limit, inner) => {
            put_word(out, Word::SetLimit)?;
            put_command(alloc, out, limit)?;
            put_word(out, Word::For)?;
            put_command(alloc, out, inner)
        }
        Command::Assign(name, sign, number) => {
            put_dollar(alloc, out, name, assignment_text(*sign), number)
        }
        Command::Compare(name, sign, number) => {
            put_dollar(alloc, out, name, comparison_text(*sign), number)
        }
        Command::CompareValues(first, sign, second) => {
            put_compare_values(alloc, out, first, *sign, second)
        }
        Command::Among(among) => put_among(alloc, out, among),
    }
}

#[cycle(commands)]
fn put_among(alloc: Global, out: &mut String, among: &Among) -> Result<(), AllocError>
    ensures { OnOk result (Adds (string_bytes out.old) (string_bytes out.new) (spelled_command (trees.among_ (view_among among.now).0 (view_among among.now).1))) }
{
    put_word(out, Word::Among)?;
    put_sign(out, Sign::Open)?;
    put_parts(alloc, out, among)?;
    put_sign(out, Sign::Close)
}

/// Appends what is between the parentheses of an among. Returns `AllocError` if an allocation fails.
#[cycle(commands)]
fn put_parts(alloc: Global, out: &mut String, among: &Among) -> Result<(), AllocError>
    ensures { OnOk result (Adds (string_bytes out.old) (string_bytes out.new) (λ rest. spelled_starter (view_among among.now).0 (spelled_groups (view_among among.now).1 rest))) }
{
    put_starter(alloc, out, among)?;
    put_groups(alloc, out, &among.groups)?;
    put_entries(out, &among.bare)
}

/// Appends the starter of an among, if there is one. Returns `AllocError` if an allocation fails.
#[cycle(commands)]
fn put_starter(alloc: Global, out: &mut String, among: &Among) -> Result<(), AllocError>
    ensures { OnOk result (Adds (string_bytes out.old) (string_bytes out.new) (spelled_starter (view_among among.now).0)) }
{
    match &among.starter {
        None => Ok(()),
        Some(rows) => put_bracket(alloc, out, rows),
    }
}

/// Appends groups of an among, which strings without commands may follow. Returns `AllocError` if an allocation fails.
#[cycle(commands)]
fn put_groups(alloc: Global, out: &mut String, groups: &Vec<Group>) -> Result<(), AllocError>
    ensures { OnOk result (AddsGroups (string_bytes out.old) (string_bytes out.new) groups.now.items) }
{
    for group in groups {
        put_entry(out, &group.first)?;
        put_entries(out, &group.others)?;
        put_bracket(alloc, out, &group.rows)?;
    }
    Ok(())
}

/// Appends rows in parentheses. Returns `AllocError` if an allocation fails.
#[cycle(commands)]
fn put_bracket(alloc: Global, out: &mut String, rows: &Vec<RowOfCommands>) -> Result<(), AllocError>
    ensures { OnOk result (Adds (string_bytes out.old) (string_bytes out.new) (λ rest. t.open_ ∷ spelled_rows (view_rows rows.now.items) (t.close_ ∷ rest))) }
{
    put_sign(out, Sign::Open)?;
    put_rows(alloc, out, rows)?;
    put_sign(out, Sign::Close)
}

#[cycle(commands)]
fn put_rows(alloc: Global, out: &mut String, rows: &Vec<RowOfCommands>) -> Result<(), AllocError>
    ensures { OnOk result (Adds (string_bytes out.old) (string_bytes out.new) (spelled_rows (view_rows rows.now.items))) }
{
    for row in rows {
        put_row(alloc, out, row)?;
    }
    Ok(())
}

#[cycle(commands)]
fn put_others(alloc: Global, out: &mut String, others: &Vec<NextCommand>) -> Result<(), AllocError>
    ensures { OnOk result (Adds (string_bytes out.old) (string_bytes out.new) (spelled_others (view_others others.now.items))) }
{
    put_operations!(alloc, out, others: joiner_text(joiner), put_command(command))
}

/// Appends a row. Returns `AllocError` if an allocation fails.
#[cycle(commands)]
pub fn put_row(alloc: Global, out: &mut String, row: &RowOfCommands) -> Result<(), AllocError>
    ensures { OnOk result (Adds (string_bytes out.old) (string_bytes out.new) (λ rest. spelled_command (view_row row.now).0 (spelled_others (view_row row.now).1 rest))) }
{
    put_command(alloc, out, &row.first)?;
    put_others(alloc, out, &row.others)
}
