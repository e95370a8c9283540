//! Laws of sbl_rows (specs/ChangesAreSound.antt), written out.

ghost use Rattle.std.specs.Prelude.{◌≡◌, ◌⊎◌, ℕ, List, [], None};
ghost use Rattle.sbl_rows.specs.Changes.{changes_of, class_renaming, class_split};
ghost use Rattle.sbl_rows.specs.Classes.{Class};
ghost use Rattle.sbl_rows.specs.Rows.{Row};
ghost use Rattle.sbl_rows.specs.ChangesAreSound.{HasOneRowEach};
ghost use Rattle.law_tests.specs.Changes.{AreOtherWay};

use sbl_rows::laws::changes_are_sound;

/// Needs the whole of the law `changes_are_sound`.
pub fn needs_changes_are_sound()
    ensures none { (rows : List Row) → HasOneRowEach rows → changes_of rows rows ≡ [] }
    ensures either { (new : List Class) (c : Class) → (class_split c c.members ≡ None) ⊎ (class_renaming new c c.members ≡ None) }
    ensures exchange { (before after : List Row) → HasOneRowEach before → HasOneRowEach after → AreOtherWay (changes_of before after) (changes_of after before) }
{
    changes_are_sound();
}
