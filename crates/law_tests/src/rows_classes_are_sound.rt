//! Laws of sbl_rows (specs/ClassesAreSound.antt), written out.

ghost use Rattle.std.specs.Prelude.{◌≡◌, ◌&&◌, ◌<◌, ℕ, List, map, length, All};
ghost use Rattle.std.specs.List.{list_any};
ghost use Rattle.std.specs.Str.{bytes_eq};
ghost use Rattle.sbl_rows.specs.Classes.{classes_of, is_stem};
ghost use Rattle.sbl_rows.specs.Rows.{Row};
ghost use Rattle.law_tests.specs.Classes.{Ascend, have_member};

use sbl_rows::laws::classes_are_sound;

/// Needs the whole of the law `classes_are_sound`.
pub fn needs_classes_are_sound()
    ensures rise { (rows : List Row) → Ascend (map (λ c. c.stem) (classes_of rows)) × All (λ c. Ascend c.members × (0 < length c.members)) (classes_of rows) }
    ensures of_rows { (rows : List Row) (stem word : List ℕ) → have_member stem word (classes_of rows) ≡ list_any (λ r. is_stem stem r.outcome && bytes_eq word r.word) rows }
{
    classes_are_sound();
}
