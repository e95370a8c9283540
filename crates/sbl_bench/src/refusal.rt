//! Why a word of a list is refused.

ghost use Rattle.std.specs.Prelude.{◌≡◌, ◌&&◌, ℕ, List, length, nat_le, not};
ghost use Rattle.sbl_bench.specs.Contents.{max_words, word_fault};
ghost use Rattle.sbl_bench.specs.Vocabulary.{is_word};

use crate::fault::EditFault;
use sbl_run_state::MAX_WORD_LENGTH;

/// Returns the fault of a word that follows the words of a vocabulary, if it has one. `has_no_room` says whether the vocabulary is
/// full and the word is not in it.
pub fn word_fault(word: &[char], has_no_room: bool) -> Option<EditFault>
    ensures { (words : List (List ℕ)) → has_no_room ≡ (nat_le max_words (length words) && not (is_word word.now words)) → result ≡ word_fault words word.now }
{
    if word.len() > MAX_WORD_LENGTH {
        return Some(EditFault::WordTooLong);
    }
    if word.is_empty() {
        return None;
    }
    if has_no_room {
        Some(EditFault::Full)
    } else {
        None
    }
}
