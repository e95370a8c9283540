//! What the runs of a script can use, in the order of the text.

ghost use Rattle.std.specs.Prelude.{◌≡◌, ◌++◌, OnOk, IfOk};
ghost use Rattle.sbl_machine.specs.ItemRefs.{item_of_ref};
ghost use Rattle.sbl_semantics.specs.TouchedItems.{item_of};
ghost use Rattle.sbl_script.specs.ParsedScript.{source_of};
ghost use Rattle.sbl_uses.specs.Counts as spec;
ghost use Rattle.sbl_uses.specs.UnusedViews.{texts_of, view_part};
ghost use Rattle.sbl_uses.specs.UsableViews.{entries_of, view_usables};

use crate::usable_parts::{Part, parts_in_text};
use sbl_machine::{Item, ItemRef};
use sbl_script::Script;
use std::alloc::{AllocError, Global};

/// What a run can use.
#[derive(Clone, Copy, Debug)]
pub enum Usable<'a> {
    /// A routine, an among or a grouping.
    Whole(ItemRef<'a>),
    /// A string of an among.
    Entry(ItemRef<'a>, &'a [char]),
}

/// Appends the strings of an among. Returns `AllocError` if an allocation fails.
fn push_entries<'a>(
    usables: &mut Vec<Usable<'a>>,
    among: ItemRef<'a>,
    strings: &[&'a [char]],
) -> Result<(), AllocError>
    ensures { OnOk result (view_usables usables.new.items ≡ view_usables usables.old.items ++ entries_of (item_of_ref among.entry) (texts_of strings.now)) }
{
    for string in strings {
        usables.push(Usable::Entry(among, *string))?;
    }
    Ok(())
}

/// Appends an item, and its strings if it is an among. Returns `AllocError` if an allocation fails.
fn push_part<'a>(usables: &mut Vec<Usable<'a>>, part: &Part<'a>) -> Result<(), AllocError>
    ensures { OnOk result (view_usables usables.new.items ≡ view_usables usables.old.items ++ spec.usables_in (view_part part.now)) }
{
    let (item, strings) = part;
    usables.push(Usable::Whole(*item))?;
    push_entries(usables, *item, strings)
}

/// Returns what the runs of a script can use, in the order of the text. Returns `AllocError` if an allocation fails.
pub fn usables_of(alloc: Global, script: &Script) -> Result<Vec<Usable<'_>>, AllocError>
    ensures { IfOk result (λ usables. view_usables usables.items ≡ spec.usables_of (source_of script.now)) }
{
    let parts = parts_in_text(alloc, script)?;
    let mut usables = Vec::new(alloc);
    for part in &parts {
        push_part(&mut usables, part)?;
    }
    Ok(usables)
}

/// Returns an item with a name of its own. Returns `AllocError` if an allocation fails.
pub fn own_item(alloc: Global, item: &ItemRef<'_>) -> Result<Item, AllocError>
    ensures { IfOk result (λ own. item_of own ≡ item_of_ref item.now) }
{
    match item {
        ItemRef::Routine(name) => Ok(Item::Routine(String::from_str(alloc, name)?)),
        ItemRef::Among(name, number) => Ok(Item::Among(String::from_str(alloc, name)?, *number)),
        ItemRef::Grouping(name) => Ok(Item::Grouping(String::from_str(alloc, name)?)),
    }
}
