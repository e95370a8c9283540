//! Laws of sbl_machine (specs/Sound.antt), written out.

ghost use Rattle.std.specs.Prelude.{◌≡◌, ℕ, List};
ghost use Rattle.sbl_semantics.specs.Meaning.{ending};
ghost use Rattle.sbl_program.specs.Start.{ending_of};
ghost use Rattle.sbl_machine.specs.NumberedScript.{numbered_script};
ghost use Rattle.sbl_ast.specs.Source.{Source};

use sbl_machine::laws::run_is_sound;

/// Needs the whole of the law `run_is_sound`.
pub fn needs_run_is_sound()
    ensures { (script : Source) (word : List ℕ) (limit : ℕ) → ending_of (numbered_script script) word limit ≡ ending script word limit }
{
    run_is_sound();
}
