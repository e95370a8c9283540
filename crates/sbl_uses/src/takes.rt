//! The strings that runs take.

ghost use Rattle.std.specs.Prelude.{◌≡◌, ◌||◌, Bool, OnOk};
ghost use Rattle.std.specs.List.{list_any};
ghost use Rattle.sbl_machine.specs.ItemRefs.{item_of_ref};
ghost use Rattle.sbl_uses.specs.Used.{Take};
ghost use Rattle.sbl_uses.specs.UnusedViews.{takes_in};

use sbl_machine::ItemRef;
use std::alloc::AllocError;
use std::collections::BTreeSet;

/// Amongs, each with a string that is taken there.
pub type Takes<'a> = BTreeSet<(ItemRef<'a>, Vec<char>)>;

/// Adds an among and a string. Returns `AllocError` if an allocation fails.
#[tactic(auto, using(crate::proofs::Sets::take_added))]
pub fn add_take<'a>(
    takes: &mut Takes<'a>,
    among: ItemRef<'a>,
    string: Vec<char>,
) -> Result<(), AllocError>
    ensures { OnOk result ((test : Take → Bool) → list_any test (takes_in takes.new) ≡ (test (item_of_ref among.entry, string.items) || list_any test (takes_in takes.old))) }
{
    takes.insert((among, string))?;
    Ok(())
}
