//! Laws of sbl_rows (specs/FamiliesAreSound.antt), written out.

ghost use Rattle.std.specs.Prelude.{◌≡◌, ◌↔◌, ◌&&◌, ℕ, List, [], length, Some, All};
ghost use Rattle.std.specs.List.{filter_map, flat_map};
ghost use Rattle.sbl_rows.specs.Classes.{Pair};
ghost use Rattle.sbl_rows.specs.ClassesAreSound.{Rise};
ghost use Rattle.sbl_rows.specs.Families.{all_of, families_of, is_in, is_unknown, other_stem, over_rows};
ghost use Rattle.sbl_rows.specs.Families.{pairs_across, pairs_within, same_stem, under, unknown_words};
ghost use Rattle.sbl_rows.specs.Rows.{Row};
ghost use Rattle.sbl_semantics.specs.Outcome.{Stem};
ghost use Rattle.sbl_rows.specs.ChangedRows.{outcome_in};
ghost use Rattle.law_tests.specs.Families.{ArePairsOf, SumsPairs, all_pairs};

use sbl_rows::laws::families_are_sound;

/// Needs the whole of the law `families_are_sound`.
pub fn needs_families_are_sound()
    ensures apart { (families : List (List Pair)) → (pairs_within other_stem families ≡ 0) ↔ (filter_map under families ≡ []) }
    ensures joined { (families : List (List Pair)) → (pairs_across same_stem families ≡ 0) ↔ (over_rows families ≡ []) }
    ensures sum { (families : List (List Pair)) → ArePairsOf (length (all_of families)) (all_pairs families) × SumsPairs families }
    ensures stems { (rows : List Row) (lists : List (List (List ℕ))) → All (λ p. outcome_in rows p.1 ≡ Some (Stem p.0)) (all_of (families_of rows [] lists)) }
    ensures rise { (rows : List Row) (lists : List (List (List ℕ))) → Rise (unknown_words rows lists) }
    ensures unknown { (rows : List Row) (lists : List (List (List ℕ))) (word : List ℕ) → is_in (unknown_words rows lists) word ≡ (is_in (flat_map (λ l. l) lists) word && is_unknown rows word) }
{
    families_are_sound();
}
