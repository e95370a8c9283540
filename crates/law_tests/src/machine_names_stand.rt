//! Laws of sbl_machine (specs/NamesStand.antt), written out.

ghost use Rattle.std.specs.Prelude.{ℕ, List};
ghost use Rattle.sbl_resolver.specs.Occurrences.{Occurrence, uses};
ghost use Rattle.sbl_ast.specs.Source.{Source};
ghost use Rattle.sbl_resolver.specs.declared.occurrences.Site.{Site};
ghost use Rattle.sbl_resolver.specs.declared.occurrences.Use.{Use};
ghost use Rattle.law_tests.specs.Scripts.{ComesTo, NamesSomething, PassesChecks};

use sbl_machine::laws::names_stand;

/// Needs the whole of the law `names_stand`.
pub fn needs_names_stand()
    ensures { (script : Source) → PassesChecks script → (before after : List Occurrence) (p : Site) (u : Use) (n : List ℕ) → ComesTo script.items before p (uses u n) after → NamesSomething script u n p }
{
    names_stand();
}
