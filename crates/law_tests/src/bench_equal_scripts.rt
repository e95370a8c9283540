//! Laws of sbl_bench (specs/EqualScripts.antt), written out.

ghost use Rattle.std.specs.Prelude.{◌≡◌, ℕ, List};
ghost use Rattle.sbl_bench.specs.Contents.{Contents};
ghost use Rattle.sbl_bench.specs.Edits.{Whole, IsAccepted};

use sbl_bench::laws::equal_scripts_run_nothing;

/// Needs the whole of the law `equal_scripts_run_nothing`.
pub fn needs_equal_scripts_run_nothing()
    ensures { (s t : Contents) (bytes : List ℕ) → IsAccepted s (Whole bytes) t → t.setting.script ≡ s.setting.script → t ≡ s }
{
    equal_scripts_run_nothing();
}
