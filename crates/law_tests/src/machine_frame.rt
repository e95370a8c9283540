//! Laws of sbl_machine (specs/Frame.antt), written out.

ghost use Rattle.std.specs.Prelude.{◌≡◌, ℕ, Bool, false, List};
ghost use Rattle.std.specs.List.{list_any};
ghost use Rattle.std.specs.List.Sorted.{IsStrictlySortedBy};
ghost use Rattle.sbl_machine.specs.BuiltFrom.{IsClosed, is_affected_by, affected_by, meets, meets_one};
ghost use Rattle.sbl_semantics.specs.TouchedItems.{item_cmp, same_item, touched_items, touches, names_of};
ghost use Rattle.sbl_ast.specs.NamedParts.{Part'};
ghost use Rattle.sbl_ast.specs.Source.{Source};
ghost use Rattle.sbl_machine.specs.Frame.{AgreeOutside, RunsAlike, StaysAsItWas};
ghost use Rattle.law_tests.specs.Scripts.{PassesChecks, TouchesNone};

use sbl_machine::laws::{clear_stay, frame, touches_are_touched, unmet_by_one_stay, unmet_stay};

/// Needs the whole of the law `touches_are_touched`.
pub fn needs_touches_are_touched()
    ensures touched { (x : Part') (script : Source) (word : List ℕ) (limit : ℕ) → list_any (same_item x) (touched_items script word limit) ≡ touches x script word limit }
    ensures rise { (script : Source) (word : List ℕ) (limit : ℕ) → IsStrictlySortedBy item_cmp (touched_items script word limit) }
{
    touches_are_touched();
}

/// Needs the whole of the law `frame`.
pub fn needs_frame()
    ensures { (picked : Part' → Bool) (s t : Source) → IsClosed picked s → AgreeOutside picked s t → (w : List ℕ) (limit : ℕ) → list_any picked (touched_items s w limit) ≡ false → RunsAlike s t w limit }
{
    frame();
}

/// Needs the whole of the law `unmet_stay`.
pub fn needs_unmet_stay()
    ensures { (x : Part') (s t : Source) → PassesChecks s → AgreeOutside (is_affected_by s x) s t → (w : List ℕ) (limit : ℕ) → meets x s w limit ≡ false → StaysAsItWas s t w limit }
{
    unmet_stay();
}

/// Needs the whole of the law `clear_stay`.
pub fn needs_clear_stay()
    ensures names { (picked : Part' → Bool) (s t : Source) → AgreeOutside picked s t → names_of t ≡ names_of s }
    ensures clear { (picked : Part' → Bool) (s t : Source) → IsClosed picked s → AgreeOutside picked s t → (w : List ℕ) (limit : ℕ) → TouchesNone picked s w limit → StaysAsItWas s t w limit }
{
    clear_stay();
}

/// Needs the whole of the law `unmet_by_one_stay`.
pub fn needs_unmet_by_one_stay()
    ensures { (xs : List Part') (s t : Source) → PassesChecks s → AgreeOutside (affected_by s xs) s t → (w : List ℕ) (limit : ℕ) → meets_one xs s w limit ≡ false → StaysAsItWas s t w limit }
{
    unmet_by_one_stay();
}
