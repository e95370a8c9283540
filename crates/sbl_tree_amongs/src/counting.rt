//! The number of amongs that an among holds.

ghost use Rattle.std.specs.Prelude.{◌≡◌, ◌≤◌, ◌<◌, ◌-◌, List, MatchOption, nat_eq};
ghost use Rattle.sbl_ast.specs.Counts as spec;
ghost use Rattle.sbl_ast.specs.Tree as trees;
ghost use Rattle.sbl_ast.specs.View.{view_among, view_command, view_row};
ghost use Rattle.sbl_ast.specs.inside.ViewParts.{view_groups, view_others, view_rows};

use sbl_ast::{Among, Command, Group, NextCommand, RowOfCommands};

/// Returns `number` minus the number of amongs in a command, or 0 if there are more.
#[cycle(less)]
fn less_command(command: &Command, number: u64) -> u64
    ensures { result ≡ number - spec.count_amongs (view_command command.now) }
{
    match command {
        Command::Bracket(rows) => less_rows(rows, number),
        Command::Prefixed(_, inner) => less_command(inner, number),
        Command::Counted(_, _, inner) => less_command(inner, number),
        Command::SetLimit(limit, inner) => less_command(inner, less_command(limit, number)),
        Command::Among(among) => less_among(among, number),
        _ => number,
    }
}

/// The same for an among, which itself counts too.
#[cycle(less)]
fn less_among(among: &Among, number: u64) -> u64
    ensures { result ≡ number - spec.count_in_among (view_among among.now) }
{
    let inside = number.saturating_sub(1);
    let following = match &among.starter {
        None => inside,
        Some(rows) => less_rows(rows, inside),
    };
    less_groups(&among.groups, following)
}

#[cycle(less)]
fn less_groups(groups: &Vec<Group>, number: u64) -> u64
    ensures { (bare : List trees.Entry) → result ≡ number - spec.count_in_groups (view_groups groups.now.items bare) }
{
    let mut left = number;
    for group in groups {
        left = less_rows(&group.rows, left);
    }
    left
}

#[cycle(less)]
fn less_rows(rows: &Vec<RowOfCommands>, number: u64) -> u64
    ensures { result ≡ number - spec.count_in_rows (view_rows rows.now.items) }
{
    let mut left = number;
    for row in rows {
        left = less_row(row, left);
    }
    left
}

#[cycle(less)]
fn less_row(row: &RowOfCommands, number: u64) -> u64
    ensures { result ≡ number - spec.count_amongs (view_row row.now).0 - spec.count_in_others (view_row row.now).1 }
{
    less_others(&row.others, less_command(&row.first, number))
}

#[cycle(less)]
fn less_others(others: &Vec<NextCommand>, number: u64) -> u64
    ensures { result ≡ number - spec.count_in_others (view_others others.now.items) }
{
    let mut left = number;
    for joined in others {
        left = less_command(&joined.command, left);
    }
    left
}

/// Whether two amongs hold the same number of amongs. Each count includes the among itself and those inside it. The
/// count of the first is less than 2^64 - 1.
pub fn has_as_many_amongs(among: &Among, other: &Among) -> bool
    requires { spec.count_in_among (view_among among.now) < 18446744073709551615 }
    ensures { result ≡ nat_eq (spec.count_in_among (view_among among.now)) (spec.count_in_among (view_among other.now)) }
{
    less_among(among, u64::MAX) == less_among(other, u64::MAX)
}

/// Returns the number of amongs that an among holds: itself and those inside it. Returns `None` if there are 2^64 - 1 or
/// more.
pub fn among_count(among: &Among) -> Option<u64>
    ensures { MatchOption result (18446744073709551615 ≤ spec.count_in_among (view_among among.now)) (λ count. count ≡ spec.count_in_among (view_among among.now)) }
{
    match less_among(among, u64::MAX) {
        0 => None,
        left => Some(u64::MAX - left),
    }
}
