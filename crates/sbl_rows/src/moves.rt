//! The words that have a stem in both lists: where they move from and to.

ghost use Rattle.std.specs.Prelude.{◌≡◌, IfOk, option_map};
ghost use Rattle.sbl_rows.specs.Moves as spec;
ghost use Rattle.sbl_rows.specs.Views.{known_outcome, view_stem_classes, view_pair, view_pairs, view_row, view_rows};

use crate::lists::push_some;
use crate::outcomes::{Outcomes, outcome_of};
use crate::row::Row;
use crate::stem_class::{StemClass, StemPair, classes_of};
use sbl_semantics::Outcome;
use std::alloc::{AllocError, Global};

/// Returns the stems of a word, if it has one in both lists.
fn move_of<'a>(before: &Outcomes<'a>, row: &Row<'a>) -> Option<StemPair<'a>>
    ensures { option_map view_pair result ≡ spec.move_of (known_outcome before.now row.now.word.now) (view_row row.now).outcome }
{
    match (outcome_of(before, row.word), row.outcome) {
        (Some(Outcome::Stem(stem)), Outcome::Stem(member)) => Some(StemPair {
            stem: stem.as_slice(),
            member: member.as_slice(),
        }),
        _ => None,
    }
}

/// Returns the stems of each word that has one in both lists, in the order of the second list. Returns `AllocError` if an
/// allocation fails.
pub(crate) fn moves_of<'a>(
    alloc: Global,
    before: &Outcomes<'a>,
    after: &[Row<'a>],
) -> Result<Vec<StemPair<'a>>, AllocError>
    ensures { IfOk result (λ moves. view_pairs moves.items ≡ spec.moves_of (known_outcome before.now) (view_rows after.now)) }
{
    let mut moves = Vec::new(alloc);
    for row in after {
        push_some(&mut moves, move_of(before, row))?;
    }
    Ok(moves)
}

/// Turns each move, as if the lists were exchanged.
fn turn(moves: &mut [StemPair<'_>])
    ensures { view_pairs moves.new ≡ spec.moves_back (view_pairs moves.old) }
{
    for stems in moves.iter_mut() {
        *stems = StemPair {
            stem: stems.member,
            member: stems.stem,
        };
    }
}

/// Returns the classes of the second list, each with the stems that its words have in the first. Returns `AllocError` if an allocation
/// fails.
pub(crate) fn new_classes<'a>(
    alloc: Global,
    mut moves: Vec<StemPair<'a>>,
) -> Result<Vec<StemClass<'a>>, AllocError>
    ensures { IfOk result (λ classes. view_stem_classes classes.items ≡ spec.new_classes (view_pairs moves.entry.items)) }
{
    turn(&mut moves);
    classes_of(alloc, &moves)
}
