//! Edits of a bench that are broken off only if a desk allows it.
ghost use Rattle.std.specs.Prelude.{◌≡◌, IfErr, OnOk};
ghost use Rattle.sbl_bench.specs.BreakingOff.{BreaksIfTold};
ghost use Rattle.sbl_bench.specs.Edits.{Limit, Replace, Whole};
ghost use Rattle.sbl_bench.specs.KeptRuns.{contents_of};
ghost use Rattle.sbl_history.specs.MayBreak.{EditsOrBreaksIf};
ghost use Rattle.sbl_script.specs.Parts.{view_part};

use sbl_bench::{Bench, BreakOff, EditFault, NeverBreak};
use sbl_script::Part;

// Makes an edit. What may break it off is asked only if `may_break` is true.
macro_rules! edit {
    ($bench:ident.$edit:ident($($given:ident),*), $may_break:ident, $break_off:ident) => {
        if $may_break {
            $bench.$edit($($given,)* $break_off)
        } else {
            $bench.$edit($($given,)* &mut NeverBreak {})
        }
    };
}

/// Replaces the whole script. `break_off` is asked only if `may_break` is true.
pub(crate) fn replace_script<B: BreakOff>(
    bench: &mut Bench,
    text: &[u8],
    may_break: bool,
    break_off: &mut B,
) -> Result<(), EditFault>
    ensures edits { EditsOrBreaksIf may_break result (contents_of bench.old) (Whole text.now) (contents_of bench.new) }
    ensures untold { OnOk result (B.said break_off.new ≡ B.said break_off.old) }
    ensures told { IfErr result (λ f. BreaksIfTold (B.said break_off.old) (B.said break_off.new) f) }
{
    edit!(bench.replace_script_or_break(text), may_break, break_off)
}

/// Replaces a part of the script. `break_off` is asked only if `may_break` is true.
pub(crate) fn replace_part<B: BreakOff>(
    bench: &mut Bench,
    part: Part<'_>,
    text: &str,
    may_break: bool,
    break_off: &mut B,
) -> Result<(), EditFault>
    ensures edits { EditsOrBreaksIf may_break result (contents_of bench.old) (Replace (view_part part.entry) text.now) (contents_of bench.new) }
    ensures untold { OnOk result (B.said break_off.new ≡ B.said break_off.old) }
    ensures told { IfErr result (λ f. BreaksIfTold (B.said break_off.old) (B.said break_off.new) f) }
{
    edit!(bench.replace_or_break(part, text), may_break, break_off)
}

/// Sets the limit. `break_off` is asked only if `may_break` is true.
pub(crate) fn set_limit<B: BreakOff>(
    bench: &mut Bench,
    number: u64,
    may_break: bool,
    break_off: &mut B,
) -> Result<(), EditFault>
    ensures edits { EditsOrBreaksIf may_break result (contents_of bench.old) (Limit number) (contents_of bench.new) }
    ensures untold { OnOk result (B.said break_off.new ≡ B.said break_off.old) }
    ensures told { IfErr result (λ f. BreaksIfTold (B.said break_off.old) (B.said break_off.new) f) }
{
    edit!(bench.set_limit_or_break(number), may_break, break_off)
}
