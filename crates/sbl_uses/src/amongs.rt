//! The amongs of a routine's body, in the order of their words `among`, and their strings.

ghost use Rattle.std.specs.Prelude.{◌≡◌, ◌++◌, ◌∷◌, [], List, map, OnOk, IfOk};
ghost use Rattle.sbl_tree_amongs.specs.Amongs.{amongs_of_body};
ghost use Rattle.sbl_ast.specs.Tree as trees;
ghost use Rattle.sbl_ast.specs.View.{view_among, view_command, view_entry, view_row};
ghost use Rattle.sbl_ast.specs.inside.ViewParts.{view_groups, view_others, view_rows};
ghost use Rattle.sbl_uses.specs.Parts.{groups_held, string_of, strings_of};
ghost use Rattle.sbl_uses.specs.GatheredGroups.{gathered_command, gathered_groups, gathered_others, gathered_rows};
ghost use Rattle.sbl_uses.specs.UnusedViews.{texts_of, view_amongs};

use sbl_ast::{Among, Command, Entry, Group, NextCommand, RowOfCommands};
use std::alloc::{AllocError, Global};

/// Appends the amongs of a command. Returns `AllocError` if an allocation fails.
#[cycle(list)]
fn add_command<'a>(command: &'a Command, all: &mut Vec<&'a Among>) -> Result<(), AllocError>
    ensures { OnOk result (view_amongs all.new.items ≡ gathered_command (view_command command.now) (view_amongs all.old.items)) }
{
    match command {
        Command::Bracket(rows) => add_rows(rows, all),
        Command::Prefixed(_, inner) => add_command(inner, all),
        Command::Counted(_, _, inner) => add_command(inner, all),
        Command::SetLimit(limit, inner) => {
            add_command(limit, all)?;
            add_command(inner, all)
        }
        Command::Among(among) => add_among(among, all),
        _ => Ok(()),
    }
}

/// An among comes before those in its starter, and these come before those in its groups.
#[cycle(list)]
fn add_among<'a>(among: &'a Among, all: &mut Vec<&'a Among>) -> Result<(), AllocError>
    ensures { OnOk result (view_amongs all.new.items ≡ gathered_command (trees.among_ (view_among among.now).0 (view_among among.now).1) (view_amongs all.old.items)) }
{
    push_among(among, all)?;
    if let Some(rows) = &among.starter {
        add_rows(rows, all)?;
    }
    add_groups(&among.groups, all)
}

#[cycle(list)]
fn add_groups<'a>(groups: &'a Vec<Group>, all: &mut Vec<&'a Among>) -> Result<(), AllocError>
    ensures { OnOk result ((bare : List trees.Entry) → view_amongs all.new.items ≡ gathered_groups (view_groups groups.now.items bare) (view_amongs all.old.items)) }
{
    for group in groups {
        add_rows(&group.rows, all)?;
    }
    Ok(())
}

#[cycle(list)]
fn add_rows<'a>(rows: &'a Vec<RowOfCommands>, all: &mut Vec<&'a Among>) -> Result<(), AllocError>
    ensures { OnOk result (view_amongs all.new.items ≡ gathered_rows (view_rows rows.now.items) (view_amongs all.old.items)) }
{
    for row in rows {
        add_row(row, all)?;
    }
    Ok(())
}

#[cycle(list)]
fn add_row<'a>(row: &'a RowOfCommands, all: &mut Vec<&'a Among>) -> Result<(), AllocError>
    ensures { OnOk result (view_amongs all.new.items ≡ gathered_others (view_row row.now).1 (gathered_command (view_row row.now).0 (view_amongs all.old.items))) }
{
    add_command(&row.first, all)?;
    add_others(&row.others, all)
}

#[cycle(list)]
fn add_others<'a>(others: &'a Vec<NextCommand>, all: &mut Vec<&'a Among>) -> Result<(), AllocError>
    ensures { OnOk result (view_amongs all.new.items ≡ gathered_others (view_others others.now.items) (view_amongs all.old.items)) }
{
    for joined in others {
        add_command(&joined.command, all)?;
    }
    Ok(())
}

/// Appends an among alone. Returns `AllocError` if an allocation fails.
fn push_among<'a>(among: &'a Among, all: &mut Vec<&'a Among>) -> Result<(), AllocError>
    ensures { OnOk result (view_amongs all.new.items ≡ view_amongs all.old.items ++ (view_among among.now).1 ∷ []) }
{
    all.push(among)?;
    Ok(())
}

/// Returns the amongs of a body. Returns `AllocError` if an allocation fails.
#[tactic(auto, using(crate::proofs::Gathering::gathered_body))]
pub(crate) fn amongs_of(alloc: Global, body: &RowOfCommands) -> Result<Vec<&Among>, AllocError>
    ensures { IfOk result (λ all. view_amongs all.items ≡ groups_held (amongs_of_body (view_row body.now))) }
{
    let mut all = Vec::new(alloc);
    add_row(body, &mut all)?;
    Ok(all)
}

/// Appends the string of an entry. Returns `AllocError` if an allocation fails.
fn add_string<'a>(entry: &'a Entry, strings: &mut Vec<&'a [char]>) -> Result<(), AllocError>
    ensures { OnOk result (texts_of strings.new.items ≡ texts_of strings.old.items ++ string_of (view_entry entry.now) ∷ []) }
{
    strings.push(entry.string.value.as_slice())?;
    Ok(())
}

/// Appends the strings of entries. Returns `AllocError` if an allocation fails.
fn add_strings<'a>(entries: &'a Vec<Entry>, strings: &mut Vec<&'a [char]>) -> Result<(), AllocError>
    ensures { OnOk result (texts_of strings.new.items ≡ texts_of strings.old.items ++ map string_of (map view_entry entries.now.items)) }
{
    for entry in entries {
        add_string(entry, strings)?;
    }
    Ok(())
}

/// Appends the strings of groups. Returns `AllocError` if an allocation fails.
fn add_group_strings<'a>(
    groups: &'a Vec<Group>,
    strings: &mut Vec<&'a [char]>,
) -> Result<(), AllocError>
    ensures { OnOk result ((bare : List trees.Entry) → texts_of strings.new.items ++ map string_of bare ≡ texts_of strings.old.items ++ strings_of (view_groups groups.now.items bare)) }
{
    for group in groups {
        add_string(&group.first, strings)?;
        add_strings(&group.others, strings)?;
    }
    Ok(())
}

/// Returns the strings of an among, in the order of the text. Returns `AllocError` if an allocation fails.
pub(crate) fn strings_in<'a>(alloc: Global, among: &'a Among) -> Result<Vec<&'a [char]>, AllocError>
    ensures { IfOk result (λ strings. texts_of strings.items ≡ strings_of (view_among among.now).1) }
{
    let mut strings = Vec::new(alloc);
    add_group_strings(&among.groups, &mut strings)?;
    add_strings(&among.bare, &mut strings)?;
    Ok(strings)
}
