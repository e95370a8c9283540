//! Laws of sbl_machine (specs/Groupings.antt), written out.

ghost use Rattle.std.specs.Prelude.{◌≡◌, ◌↔◌, ℕ, true, List};
ghost use Rattle.sbl_ast.specs.Tree.{Argument, Term};
ghost use Rattle.sbl_ast.specs.Source.{Source};
ghost use Rattle.sbl_machine.specs.Groupings.{Defines};
ghost use Rattle.law_tests.specs.Groupings.{IsAdded, has_character, is_added};
ghost use Rattle.law_tests.specs.Scripts.{PassesChecks};

use sbl_machine::laws::groupings_are_their_terms;

/// Needs the whole of the law `groupings_are_their_terms`.
pub fn needs_groupings_are_their_terms()
    ensures have { (script : Source) → PassesChecks script → (n : List ℕ) (a : Argument) (ts : List Term) → Defines script n a ts → (c : ℕ) → (has_character script n c ≡ true) ↔ IsAdded script a ts c }
    ensures computed { (script : Source) → PassesChecks script → (n : List ℕ) (a : Argument) (ts : List Term) → Defines script n a ts → (c : ℕ) → has_character script n c ≡ is_added script a ts c }
{
    groupings_are_their_terms();
}
