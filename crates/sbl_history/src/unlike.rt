//! The words whose rows are not the same in two lists.
ghost use Rattle.std.specs.Prelude.{◌≡◌, ℕ, List, false, true};
ghost use Rattle.std.specs.List.{AllByRecursion};
ghost use Rattle.sbl_rows.specs.Rows.{view_row, view_rows};
ghost use Rattle.sbl_history.specs.inside.Noted.{IsNoted};
ghost use Rattle.sbl_history.specs.inside.TextSets.{has};

use crate::text_set::TextSet;
use sbl_rows::{Row, is_same};

/// How many rows ahead a word is looked for. It only decides which rows are compared.
const AHEAD: usize = 256;

/// Returns whether one of the next rows has this word. If so, the rows before it have no partner.
fn comes_later(rows: &[Row<'_>], word: &[char]) -> bool {
    rows.iter().take(AHEAD).any(|row| row.word == word)
}

/// Puts in the word of two rows, if their outcomes differ.
fn note_if_unlike(words: &mut TextSet, one: &Row<'_>, other: &Row<'_>)
    requires { one.now.word.now ≡ other.now.word.now }
    ensures grows { (t : List ℕ) → has words.old t ≡ true → has words.new t ≡ true }
    ensures noted { has words.new one.now.word.now ≡ false → view_row one.now ≡ view_row other.now }
    ensures other { has words.new other.now.word.now ≡ false → view_row other.now ≡ view_row one.now }
{
    if !is_same(one.outcome, other.outcome) {
        words.insert(one.word);
    }
}

/// Puts in the words of all rows.
fn note_all(words: &mut TextSet, rows: &[Row<'_>])
    ensures grows { (t : List ℕ) → has words.old t ≡ true → has words.new t ≡ true }
    ensures noted { AllByRecursion (λ r. has words.new r.word ≡ true) (view_rows rows.now) }
{
    for row in rows {
        words.insert(row.word);
    }
}

/// Puts in the word of each row that is not known to be in the other list, too.
pub(crate) fn note_unlike(words: &mut TextSet, before: &[Row<'_>], after: &[Row<'_>])
    ensures before { AllByRecursion (IsNoted (has words.new) (view_rows after.now)) (view_rows before.now) }
    ensures after { AllByRecursion (IsNoted (has words.new) (view_rows before.now)) (view_rows after.now) }
{
    let mut i = 0;
    let mut j = 0;
    while i < before.len() && j < after.len() {
        if before[i].word == after[j].word {
            note_if_unlike(words, &before[i], &after[j]);
            i += 1;
            j += 1;
        } else if comes_later(&before[i..], after[j].word) {
            words.insert(before[i].word);
            i += 1;
        } else {
            words.insert(after[j].word);
            j += 1;
        }
    }
    note_all(words, &before[i..]);
    note_all(words, &after[j..]);
}
