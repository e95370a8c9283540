//! Laws of sbl_source_map (specs/FaultPlaces.antt, specs/FaultLists.antt), written out.

ghost use Rattle.std.specs.Prelude.{◌≡◌, ◌∷◌, [], ℕ, true, List};
ghost use Rattle.sbl_resolver.specs.Occurrences.{occurrences_of};
ghost use Rattle.sbl_resolver.specs.Subjects.{subjects_of};
ghost use Rattle.sbl_parser.specs.Reading.{IsReadAs};
ghost use Rattle.sbl_source_map.specs.FaultLists.{AreFaultsOf};
ghost use Rattle.sbl_source_map.specs.FaultPlaces.{IsFaultAt, is_of_token};
ghost use Rattle.sbl_source_map.specs.declared.fault_lists.PlacedFault.{PlacedFault as Placed};
ghost use Rattle.sbl_source_map.specs.SubjectTokens.{SubjectToken, subject_tokens, subjects};
ghost use Rattle.sbl_ast.specs.Source.{Source};
ghost use Rattle.sbl_script.specs.Reading.{IsFaultOf, IsScriptOf, lexemes};
ghost use Rattle.sbl_text.specs.Tokens.{PlacedToken};
ghost use Rattle.sbl_text.specs.declared.fault.ScriptFault.{ScriptFault as AnyFault};
ghost use Rattle.sbl_ast.specs.Texts.{script};
ghost use Rattle.sbl_ast.specs.Tree.{Item};

use sbl_source_map::laws::{
    faults_are_at_tokens, first_fault_is_listed, listed_unless_script, subjects_are_tokens,
    token_is_one,
};

/// Needs the whole of the law `subjects_are_tokens`.
pub fn needs_subjects_are_tokens()
    ensures { (ts : List PlacedToken) (items : List Item) → IsReadAs script (lexemes ts) items → subjects (subject_tokens ts) ≡ subjects_of (occurrences_of items) }
{
    subjects_are_tokens();
}

/// Needs the whole of the law `token_is_one`.
pub fn needs_token_is_one()
    ensures subject { (bytes : List ℕ) (f : AnyFault) (t : SubjectToken) (is : IsFaultAt bytes f t) → t.subject ≡ is.first.subject }
    ensures one { (bytes : List ℕ) (f g : AnyFault) (t u : SubjectToken) → IsFaultAt bytes f t → IsFaultAt bytes g u → (f ≡ g) × (t ≡ u) }
{
    token_is_one();
}

/// Needs the whole of the law `faults_are_at_tokens`.
pub fn needs_faults_are_at_tokens()
    ensures fault { (bytes external : List ℕ) (f : AnyFault) (t : SubjectToken) → IsFaultAt bytes f t → (is_of_token f ≡ true) × IsFaultOf bytes external f }
    ensures token { (bytes external : List ℕ) (f : AnyFault) → is_of_token f ≡ true → IsFaultOf bytes external f → (t : SubjectToken) × IsFaultAt bytes f t }
{
    faults_are_at_tokens();
}

/// Needs the whole of the law `first_fault_is_listed`.
pub fn needs_first_fault_is_listed()
    ensures { (bytes external : List ℕ) (x : Placed) (xs : List Placed) → AreFaultsOf bytes external (x ∷ xs) → IsFaultOf bytes external x.fault }
{
    first_fault_is_listed();
}

/// Needs the whole of the law `listed_unless_script`.
pub fn needs_listed_unless_script()
    ensures none { (bytes external : List ℕ) → AreFaultsOf bytes external [] → (s : Source) × IsScriptOf bytes external s }
    ensures script { (bytes external : List ℕ) (s : Source) (xs : List Placed) → IsScriptOf bytes external s → AreFaultsOf bytes external xs → xs ≡ [] }
{
    listed_unless_script();
}
