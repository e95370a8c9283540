//! The law of lists of words in sbl_reports (specs/WordLists.antt), written out.

ghost use Rattle.std.specs.Prelude.{◌≡◌, ℕ, List};
ghost use Rattle.law_tests.specs.Lists.{HasLine, HaveOneLine};
ghost use Rattle.sbl_reports.specs.declared.word_lists.ListForm.{ListForm};

use sbl_reports::laws::list_lines_are_one;

/// Needs the whole of the law `list_lines_are_one`.
pub fn needs_list_lines_are_one()
    ensures { (form : ListForm) (w s v t : List ℕ) → HasLine form w s → HasLine form v t → HaveOneLine form w s v t → (w ≡ v) × (s ≡ t) }
{
    list_lines_are_one();
}
