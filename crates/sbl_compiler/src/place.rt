//! The position of a command among the amongs of a script.

ghost use Rattle.std.specs.Prelude.{◌≡◌, List, length};
ghost use Rattle.sbl_ast.specs.View.{view_command, view_row, view_among};
ghost use Rattle.sbl_ast.specs.inside.ViewParts.{view_rows, view_others, view_groups};
ghost use Rattle.sbl_ast.specs.Tree as trees;
ghost use Rattle.sbl_compiler.specs.NumberedItems as spec;
ghost use Rattle.sbl_compiler.specs.NumberedView.{view_place};

use sbl_ast::{Among, Command, Group, NextCommand, RowOfCommands, Simple};
use sbl_program::AmongStrings;

/// Where a command stands among the amongs of a script.
#[derive(Clone, Copy)]
pub struct Standing {
    /// The number of the next among in the script.
    pub next: usize,
    /// The number of the amongs still to come that are after its region.
    pub following: usize,
    /// Whether a `substring` waits for the next among.
    pub waits: bool,
}

/// Returns the position after all of these parts.
macro_rules! past_each {
    ($part:ident in $parts:expr, $place:ident => $following:ident: $past:expr) => {{
        let mut $following = $place;
        for $part in $parts {
            $following = $past;
        }
        $following
    }};
}

/// Returns the number of amongs still to come.
pub fn left_of(amongs: &Vec<AmongStrings>, place: Standing) -> usize
    ensures { result ≡ length (view_place amongs.now.items place).coming }
{
    amongs.len().saturating_sub(place.next)
}

/// Returns the position inside the next among, after its word.
pub fn inside(amongs: &Vec<AmongStrings>, place: Standing) -> Standing
    ensures { view_place amongs.now.items result ≡ spec.inside (view_place amongs.now.items place) }
{
    Standing {
        next: if place.next < amongs.len() {
            place.next + 1
        } else {
            place.next
        },
        following: place.following,
        waits: false,
    }
}

/// Returns the same position, at which no `substring` waits.
pub fn end_waiting(_amongs: &Vec<AmongStrings>, place: Standing) -> Standing
    ensures { view_place _amongs.now.items result ≡ spec.end_waiting (view_place _amongs.now.items place) }
{
    Standing {
        waits: false,
        ..place
    }
}

/// Returns the position at the beginning of a region; `following` is the position after the region.
pub fn begin_region(amongs: &Vec<AmongStrings>, place: Standing, following: Standing) -> Standing
    ensures { view_place amongs.now.items result ≡ spec.begin_region (view_place amongs.now.items place) (view_place amongs.now.items following) }
{
    Standing {
        next: place.next,
        following: left_of(amongs, following),
        waits: false,
    }
}

fn past_simple(_amongs: &Vec<AmongStrings>, word: Simple, place: Standing) -> Standing
    ensures { view_place _amongs.now.items result ≡ spec.past_simple word (view_place _amongs.now.items place) }
{
    match word {
        Simple::Substring => Standing {
            waits: true,
            ..place
        },
        Simple::LeftBracket
        | Simple::RightBracket
        | Simple::Next
        | Simple::ToLimit
        | Simple::AtLimit
        | Simple::Delete
        | Simple::True
        | Simple::False => place,
    }
}

/// Returns the position after a command.
#[cycle(passing)]
fn past(amongs: &Vec<AmongStrings>, command: &Command, place: Standing) -> Standing
    ensures { view_place amongs.now.items result ≡ spec.past (view_command command.now) (view_place amongs.now.items place) }
{
    match command {
        Command::Bracket(rows) => past_rows(amongs, rows, place),
        Command::Simple(word) => past_simple(amongs, *word, place),
        Command::Prefixed(_, inner) => past(amongs, inner, place),
        Command::Counted(_, _, inner) => past(amongs, inner, place),
        Command::SetLimit(limit, inner) => {
            let between = past(amongs, limit, place);
            past(amongs, inner, between)
        }
        Command::Among(among) => past_among(amongs, among, place),
        _ => place,
    }
}

/// Returns the position after the rows in parentheses.
#[cycle(passing)]
pub fn past_rows(amongs: &Vec<AmongStrings>, rows: &Vec<RowOfCommands>, place: Standing) -> Standing
    ensures { view_place amongs.now.items result ≡ spec.past_rows (view_rows rows.now.items) (view_place amongs.now.items place) }
{
    past_each!(row in rows, place => following: past_row(amongs, row, following))
}

/// Returns the position after a row.
#[cycle(passing)]
pub fn past_row(amongs: &Vec<AmongStrings>, row: &RowOfCommands, place: Standing) -> Standing
    ensures { view_place amongs.now.items result ≡ spec.past_others (view_row row.now).1 (spec.past (view_row row.now).0 (view_place amongs.now.items place)) }
{
    let first = past(amongs, &row.first, place);
    past_others(amongs, &row.others, first)
}

#[cycle(passing)]
fn past_others(amongs: &Vec<AmongStrings>, others: &Vec<NextCommand>, place: Standing) -> Standing
    ensures { view_place amongs.now.items result ≡ spec.past_others (view_others others.now.items) (view_place amongs.now.items place) }
{
    past_each!(joined in others, place => following: past(amongs, &joined.command, following))
}

#[cycle(passing)]
fn past_among(amongs: &Vec<AmongStrings>, among: &Among, place: Standing) -> Standing
    ensures { view_place amongs.now.items result ≡ spec.past (trees.among_ (view_among among.now).0 (view_among among.now).1) (view_place amongs.now.items place) }
{
    let mut following = inside(amongs, place);
    if let Some(rows) = &among.starter {
        following = past_rows(amongs, rows, following);
    }
    end_waiting(amongs, past_groups(amongs, &among.groups, following))
}

#[cycle(passing)]
fn past_groups(amongs: &Vec<AmongStrings>, groups: &Vec<Group>, place: Standing) -> Standing
    ensures { (bare : List trees.Entry) → view_place amongs.now.items result ≡ spec.past_groups (view_groups groups.now.items bare) (view_place amongs.now.items place) }
{
    past_each!(group in groups, place => following: past_rows(amongs, &group.rows, end_waiting(amongs, following)))
}
