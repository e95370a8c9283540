//! Laws of the classes of pairs of sbl_rows (specs/ClassesAreSound.antt), written out.

ghost use Rattle.std.specs.Prelude.{◌≡◌, ◌&&◌, ◌<◌, ℕ, List, map, length, All};
ghost use Rattle.std.specs.List.{list_any};
ghost use Rattle.std.specs.Str.{bytes_eq};
ghost use Rattle.sbl_rows.specs.Classes.{Pair, pair_classes};
ghost use Rattle.law_tests.specs.Classes.{Ascend, have_member};

use sbl_rows::laws::classes_of_pairs_are_sound;

/// Needs the whole of the law `classes_of_pairs_are_sound`.
pub fn needs_classes_of_pairs_are_sound()
    ensures rise { (pairs : List Pair) → Ascend (map (λ c. c.stem) (pair_classes pairs)) × All (λ c. Ascend c.members × (0 < length c.members)) (pair_classes pairs) }
    ensures of_pairs { (pairs : List Pair) (stem member : List ℕ) → have_member stem member (pair_classes pairs) ≡ list_any (λ p. bytes_eq stem p.0 && bytes_eq member p.1) pairs }
{
    classes_of_pairs_are_sound();
}
