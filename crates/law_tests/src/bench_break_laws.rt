//! Laws of sbl_bench (specs/BreakLaws.antt), written out.

ghost use Rattle.std.specs.Prelude.{◌≡◌, Option, None, Err};
ghost use Rattle.sbl_bench.specs.BreakingOff.{IsBrokenOff};
ghost use Rattle.sbl_bench.specs.Contents.{Contents};
ghost use Rattle.sbl_bench.specs.Edits.{Edit, Edits, IsVerdict};
ghost use Rattle.sbl_bench.specs.Undo.{Shows};
ghost use Rattle.sbl_bench.specs.declared.fault.EditFault.{EditFault};
ghost use Rattle.sbl_bench.specs.declared.fault.EditFault.TheVariants as fault;

use sbl_bench::laws::broken_off_changes_nothing;

/// Needs the whole of the law `broken_off_changes_nothing`.
pub fn needs_broken_off_changes_nothing()
    ensures plain { (s t : Contents) (e : Edit) → Edits (Err fault.BrokenOff) s e t → ⊥ }
    ensures good { (s t u : Contents) (e : Edit) (v : Option EditFault) → IsBrokenOff s e t → IsVerdict s e v u → v ≡ None }
    ensures shows { (s t : Contents) (e : Edit) → IsBrokenOff s e t → Shows t s.setting s.words }
{
    broken_off_changes_nothing();
}
