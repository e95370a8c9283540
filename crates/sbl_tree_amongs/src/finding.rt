//! Finds an among of a routine's body by its number.

ghost use Rattle.std.specs.Prelude.{◌≡◌, ◌≤◌, ◌<◌, ◌-◌, List, [], MatchOption, None, Some, nat_eq};
ghost use Rattle.sbl_tree_amongs.specs.Amongs as spec;
ghost use Rattle.sbl_ast.specs.Counts.{count_amongs, count_in_among, count_in_groups, count_in_others, count_in_rows};
ghost use Rattle.sbl_tree_amongs.specs.Amongs.{AmongContents, amongs_of_body, amongs_of_groups, contents_of, nth_held};
ghost use Rattle.sbl_tree_amongs.specs.WalkEnds.{Finds, among_command, amongs_of_row, placed_row};
ghost use Rattle.sbl_ast.specs.Places.{placed_command, placed_groups, placed_others, placed_rows, placed_starter, max_depth, AreShallow};
ghost use Rattle.sbl_ast.specs.Texts.{body, places_in};
ghost use Rattle.sbl_ast.specs.Tree.{Entry};
ghost use Rattle.sbl_ast.specs.View.{view_among, view_command, view_row};
ghost use Rattle.sbl_ast.specs.inside.ViewParts.{view_groups, view_others, view_rows};

use sbl_ast::{Among, Command, Group, NextCommand, RowOfCommands};

/// The result of a walk through a part of a tree.
pub(crate) enum WalkEnd<'a> {
    /// The among, with its depth.
    There(u8, &'a Among),
    /// The among is not in the part. This is its number among those after the part.
    After(u64),
}

/// Finds the among with this number in a command at `depth`.
#[cycle(find)]
fn in_command(command: &Command, depth: u8, number: u64) -> WalkEnd<'_>
    ensures { AreShallow (placed_command (view_command command.now) depth []) → Finds result number (λ rest. spec.amongs (view_command command.now) depth rest) }
{
    let inside = depth.saturating_add(1);
    match command {
        Command::Bracket(rows) => in_rows(rows, inside, number),
        Command::Prefixed(_, inner) => in_command(inner, inside, number),
        Command::Counted(_, _, inner) => in_command(inner, inside, number),
        Command::SetLimit(limit, inner) => match in_command(limit, inside, number) {
            WalkEnd::After(number) => in_command(inner, inside, number),
            WalkEnd::There(depth, among) => WalkEnd::There(depth, among),
        },
        Command::Among(among) => in_among(among, depth, number),
        _ => WalkEnd::After(number),
    }
}

/// An among comes before those in its starter, and these come before those in its groups.
#[cycle(find)]
fn in_among(among: &Among, depth: u8, number: u64) -> WalkEnd<'_>
    ensures { AreShallow (placed_command (among_command among.now) depth []) → Finds result number (λ rest. spec.amongs (among_command among.now) depth rest) }
{
    if number == 1 {
        return WalkEnd::There(depth, among);
    }
    let inside = number.saturating_sub(1);
    match in_starter(among, depth, inside) {
        WalkEnd::After(number) => in_groups(&among.groups, depth, number),
        WalkEnd::There(depth, among) => WalkEnd::There(depth, among),
    }
}

#[cycle(find)]
fn in_starter(among: &Among, depth: u8, number: u64) -> WalkEnd<'_>
    ensures { AreShallow (placed_starter (view_among among.now).0 depth []) → Finds result number (λ rest. spec.amongs_of_starter (view_among among.now).0 depth rest) }
{
    match &among.starter {
        None => WalkEnd::After(number),
        Some(rows) => in_rows(rows, depth.saturating_add(2), number),
    }
}

#[cycle(find)]
fn in_groups(groups: &Vec<Group>, depth: u8, number: u64) -> WalkEnd<'_>
    ensures { AreShallow (placed_groups (view_groups groups.now.items []) depth []) → (bare : List Entry) → Finds result number (λ r. amongs_of_groups (view_groups groups.now.items bare) depth r) }
{
    let mut following = number;
    for group in groups {
        match in_rows(&group.rows, depth.saturating_add(2), following) {
            WalkEnd::After(next) => following = next,
            WalkEnd::There(depth, among) => return WalkEnd::There(depth, among),
        }
    }
    WalkEnd::After(following)
}

#[cycle(find)]
fn in_rows(rows: &Vec<RowOfCommands>, depth: u8, number: u64) -> WalkEnd<'_>
    ensures { AreShallow (placed_rows (view_rows rows.now.items) depth []) → Finds result number (λ rest. spec.amongs_of_rows (view_rows rows.now.items) depth rest) }
{
    let mut following = number;
    for row in rows {
        match in_row(row, depth, following) {
            WalkEnd::After(next) => following = next,
            WalkEnd::There(depth, among) => return WalkEnd::There(depth, among),
        }
    }
    WalkEnd::After(following)
}

#[cycle(find)]
fn in_row(row: &RowOfCommands, depth: u8, number: u64) -> WalkEnd<'_>
    ensures { AreShallow (placed_row (view_row row.now) depth []) → Finds result number (λ rest. amongs_of_row (view_row row.now) depth rest) }
{
    match in_command(&row.first, depth, number) {
        WalkEnd::After(number) => in_others(&row.others, depth, number),
        WalkEnd::There(depth, among) => WalkEnd::There(depth, among),
    }
}

#[cycle(find)]
fn in_others(others: &Vec<NextCommand>, depth: u8, number: u64) -> WalkEnd<'_>
    ensures { AreShallow (placed_others (view_others others.now.items) depth []) → Finds result number (λ rest. spec.amongs_of_others (view_others others.now.items) depth rest) }
{
    let mut following = number;
    for joined in others {
        match in_command(&joined.command, depth, following) {
            WalkEnd::After(next) => following = next,
            WalkEnd::There(depth, among) => return WalkEnd::There(depth, among),
        }
    }
    WalkEnd::After(following)
}

/// Returns the among with this number, and its depth. Amongs are numbered from 1 in the order of the words `among`.
/// Returns `None` exactly if no among has this number; so for 0. In the body no token is deeper than 64.
pub fn nth_among(row: &RowOfCommands, number: u64) -> Option<(u8, &Among)>
    requires { AreShallow (places_in body (view_row row.now)) }
    ensures held { MatchOption result (nth_held number (amongs_of_body (view_row row.now)) ≡ None) (λ x. nth_held number (amongs_of_body (view_row row.now)) ≡ Some (contents_of x.0 x.1.now)) }
    ensures depth { MatchOption result (Unit {0}) (λ x. x.0 ≤ max_depth) }
{
    match in_row(row, 1, number) {
        WalkEnd::There(depth, among) => Some((depth, among)),
        WalkEnd::After(_) => None,
    }
}
