//! Laws of sbl_resolver (specs/Laws.antt), written out.

ghost use Rattle.std.specs.Prelude.{◌≡◌, ℕ, true, List, length};
ghost use Rattle.sbl_ast.specs.Tree.{Item};
ghost use Rattle.sbl_text.specs.declared.fault.ScriptFault.{ScriptFault};
ghost use Rattle.sbl_resolver.specs.AllFaults.{IsListed, faults_of, first_of};
ghost use Rattle.sbl_resolver.specs.Checks.{WellDeclared, fault_of, is_followed};
ghost use Rattle.sbl_resolver.specs.Occurrences.{Occurrence, substring};
ghost use Rattle.sbl_resolver.specs.Subjects.{subjects_of};
ghost use Rattle.sbl_resolver.specs.declared.occurrences.Site.{Site};
ghost use Rattle.law_tests.specs.Scripts.{ComesTo, HasFaultIn};

use sbl_resolver::laws::{each_fault_is_listed, fault_is_first_of_all, substrings_are_paired};

/// Needs the whole of the law `substrings_are_paired`.
pub fn needs_substrings_are_paired()
    ensures { (items : List Item) (external : List ℕ) → WellDeclared items external → (before rest : List Occurrence) (p : Site) → ComesTo items before p substring rest → is_followed p.mode rest ≡ true }
{
    substrings_are_paired();
}

/// Needs the whole of the law `fault_is_first_of_all`.
pub fn needs_fault_is_first_of_all()
    ensures { (items : List Item) (external : List ℕ) → first_of (faults_of items external) ≡ fault_of items external }
{
    fault_is_first_of_all();
}

/// Needs the whole of the law `each_fault_is_listed`.
pub fn needs_each_fault_is_listed()
    ensures { (items : List Item) (external : List ℕ) (before : List Occurrence) (f : ScriptFault) → HasFaultIn items before f → IsListed (length (subjects_of before), f) (faults_of items external) }
{
    each_fault_is_listed();
}
