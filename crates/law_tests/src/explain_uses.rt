//! Laws of sbl_uses (specs/UsesLaws.antt, specs/EventsStay.antt), written out.

ghost use Rattle.std.specs.Prelude.{◌≡◌, ℕ, List, length};
ghost use Rattle.std.specs.List.{list_any};
ghost use Rattle.sbl_ast.specs.Source.{Source};
ghost use Rattle.sbl_rows.specs.Setting.{Setting, under};
ghost use Rattle.sbl_machine.specs.BuiltFrom.{is_affected_by};
ghost use Rattle.sbl_semantics.specs.Outcome.{events_of};
ghost use Rattle.sbl_semantics.specs.TouchedItems.{touched_items};
ghost use Rattle.sbl_ast.specs.NamedParts.{Part'};
ghost use Rattle.sbl_uses.specs.Unused.{unused_rows};
ghost use Rattle.sbl_uses.specs.Used.{Usable, Whole, number_using, rows_using, takes_of, uses};
ghost use Rattle.law_tests.specs.Uses.{MissesWhatDiffers, rows_of_zeros};

use sbl_uses::laws::{
    counts_are_of_uses, takes_stay, unused_have_number_zero, uses_agree_with_traces,
};

/// Needs the whole of the law `counts_are_of_uses`.
pub fn needs_counts_are_of_uses()
    ensures { (s : Setting) (words : List (List ℕ)) (u : Usable) → number_using s words u ≡ length (rows_using s words u) }
{
    counts_are_of_uses();
}

/// Needs the whole of the law `unused_have_number_zero`.
pub fn needs_unused_have_number_zero()
    ensures { (s : Setting) (words : List (List ℕ)) → unused_rows s words ≡ rows_of_zeros s words }
{
    unused_have_number_zero();
}

/// Needs the whole of the law `uses_agree_with_traces`.
pub fn needs_uses_agree_with_traces()
    ensures { (s : Setting) (w : List ℕ) (x : Part') → uses s w (Whole x) ≡ list_any (is_affected_by s.script x) (touched_items s.script w s.limit) }
{
    uses_agree_with_traces();
}

/// Needs the whole of the law `takes_stay`.
pub fn needs_takes_stay()
    ensures events { (s t : Source) (xs : List Part') (w : List ℕ) (l : ℕ) → MissesWhatDiffers s t xs w l → events_of t w l ≡ events_of s w l }
    ensures takes { (s t : Source) (xs : List Part') (w : List ℕ) (l : ℕ) → MissesWhatDiffers s t xs w l → takes_of (under t l) w ≡ takes_of (under s l) w }
{
    takes_stay();
}
