//! Laws of sbl_script (specs/OnlyTheItem.antt), written out.

ghost use Rattle.std.specs.Prelude.{◌≡◌, ℕ, List, Some};
ghost use Rattle.sbl_text.specs.declared.fault.ScriptFault.{ScriptFault};
ghost use Rattle.sbl_ast.specs.Source.{Source};
ghost use Rattle.sbl_ast.specs.NamedParts.{Part'};
ghost use Rattle.sbl_script.specs.Edits.{changes, IsEditFault};
ghost use Rattle.sbl_script.specs.OnlyTheItem.{item_of, number_of};
ghost use Rattle.sbl_text.specs.declared.fault.ScriptFault.TheVariants as fault;
ghost use Rattle.sbl_script.specs.declared.edit_fault.EditFault.TheVariants.{Script};
ghost use Rattle.law_tests.specs.Scripts.{PassesChecks};

use sbl_script::laws::only_the_item;

/// Needs the whole of the law `only_the_item`.
pub fn needs_only_the_item()
    ensures item { (s : Source) (e : Part') (t : List ℕ) (f : ScriptFault) (i : ℕ) → PassesChecks s → IsEditFault s e t (Script f) → item_of f ≡ Some i → number_of (changes e) s.items ≡ Some i }
    ensures external { (s : Source) (e : Part') (t : List ℕ) → PassesChecks s → IsEditFault s e t (Script fault.NoExternal) → ⊥ }
{
    only_the_item();
}
