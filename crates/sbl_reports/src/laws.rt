//! Laws of the stems that are written and read, and of lists of words.
ghost use Rattle.sbl_reports.specs.StemLinesAreRead.{WrittenStemsAreRead, WrittenStemsShowNoChange};
ghost use Rattle.sbl_reports.specs.WordLists.{ListLinesAreOne};

use sbl_rows::laws::changes_are_sound;

/// The text of the stems of rows has a line for each row, each line is UTF-8, and the words with the stems in it are the rows again. So
/// nothing has changed from the words with these stems to the rows, if no two rows have the same word.
pub fn written_stems_are_read()
    ensures read { WrittenStemsAreRead }
    ensures changes { WrittenStemsShowNoChange }
{
    changes_are_sound();
}

/// A line of a list for a search engine is that of one word and one stem.
pub fn list_lines_are_one()
    ensures { ListLinesAreOne }
{}
