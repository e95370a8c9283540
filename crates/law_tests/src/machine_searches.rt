//! Laws of sbl_machine (specs/Searches.antt), written out.

ghost use Rattle.std.specs.Prelude.{◌↔◌, ℕ, List};
ghost use Rattle.std.specs.List.{AllByRecursion};
ghost use Rattle.sbl_semantics.specs.Fitting.{fitting};
ghost use Rattle.sbl_program.specs.Laws.{AllDiffer, Matches, StandsIn};
ghost use Rattle.sbl_ast.specs.Source.{Source};
ghost use Rattle.sbl_machine.specs.Searches.{amongs_of, strings_read};
ghost use Rattle.law_tests.specs.Scripts.{PassesChecks};

use sbl_machine::laws::searches_are_exact;

/// Needs the whole of the law `searches_are_exact`.
pub fn needs_searches_are_exact()
    ensures differ { (script : Source) → PassesChecks script → AllByRecursion (λ f. AllDiffer (strings_read f)) (amongs_of script) }
    ensures exact { (script : Source) → PassesChecks script → AllByRecursion (λ f. (x : List ℕ) (i : ℕ) → StandsIn i (fitting (strings_read f) x) ↔ Matches (strings_read f) x i) (amongs_of script) }
{
    searches_are_exact();
}
