//! Laws of sbl_bench (specs/Undo.antt), written out.

ghost use Rattle.std.specs.Prelude.{◌≡◌, ℕ, List, true};
ghost use Rattle.sbl_bench.specs.Contents.{Contents};
ghost use Rattle.sbl_bench.specs.Edits.{Edit, Limit, IsAccepted, is_of_script};
ghost use Rattle.sbl_bench.specs.Undo.{Shows};
ghost use Rattle.law_tests.specs.Undo.{BringsBack};

use sbl_bench::laws::undo_restores;

/// Needs the whole of the law `undo_restores`.
pub fn needs_undo_restores()
    ensures script { (s t u v : Contents) (e : Edit) (bytes : List ℕ) → is_of_script e ≡ true → IsAccepted s e t → u.setting ≡ t.setting → BringsBack s u bytes v }
    ensures limit { (s t u v : Contents) (n : ℕ) → IsAccepted s (Limit n) t → u.setting ≡ t.setting → IsAccepted u (Limit s.setting.limit) v → Shows v s.setting u.words }
{
    undo_restores();
}
