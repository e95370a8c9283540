//! Laws of sbl_reports (specs/StemLinesAreRead.antt), written out.

ghost use Rattle.std.specs.Prelude.{◌≡◌, ℕ, List, [], length, Some, true};
ghost use Rattle.sbl_io.specs.LinesOf.{lines_of};
ghost use Rattle.sbl_rows.specs.Changes.{changes_of};
ghost use Rattle.sbl_rows.specs.ChangesAreSound.{HasOneRowEach};
ghost use Rattle.sbl_rows.specs.Rows.{Row};
ghost use Rattle.sbl_reports.specs.StemLines.{are_text, stem_lines};
ghost use Rattle.sbl_reports.specs.StemLinesAreRead.{HaveCharacters, rows_read};

use sbl_reports::laws::written_stems_are_read;

/// Needs the whole of the law `written_stems_are_read`.
pub fn needs_written_stems_are_read()
    ensures read { (rows : List Row) (t : List ℕ) → HaveCharacters rows → stem_lines rows ≡ Some t → (length (lines_of t) ≡ length rows) × (are_text (lines_of t) ≡ true) × (rows_read rows t ≡ rows) }
    ensures changes { (rows : List Row) (t : List ℕ) → HaveCharacters rows → HasOneRowEach rows → stem_lines rows ≡ Some t → changes_of (rows_read rows t) rows ≡ [] }
{
    written_stems_are_read();
}
