//! Counts the amongs of a part of a routine.

ghost use Rattle.std.specs.Prelude.{◌≡◌, IfOk};
ghost use Rattle.sbl_tree_diff.specs.WalkViews.{after_among};

use sbl_ast::Among;
use sbl_tree_amongs::among_count;
use std::alloc::AllocError;

/// Returns how many amongs of the routine come before what follows an among, if `before` come before the among. Returns
/// `AllocError` if there are 2^64 - 1 or more.
#[tactic(auto, using(crate::proofs::After::among_after))]
pub(crate) fn past_among(among: &Among, before: u64) -> Result<u64, AllocError>
    ensures { IfOk result (λ after. after ≡ after_among among.now before) }
{
    let Some(count) = among_count(among) else {
        return Err(AllocError);
    };
    let Some(after) = before.checked_add(count) else {
        return Err(AllocError);
    };
    Ok(after)
}
