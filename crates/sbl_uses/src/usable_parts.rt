//! The parts of a script that a run can use, in the order of the text and in the order of items.

ghost use Rattle.std.specs.Prelude.{◌≡◌, ◌++◌, ◌∷◌, [], OnOk, IfOk};
ghost use Rattle.std.specs.BTreeMap.{insert_entry};
ghost use Rattle.std.specs.List.{flat_map};
ghost use Rattle.sbl_semantics.specs.TouchedItems.{item_cmp};
ghost use Rattle.sbl_script.specs.ParsedScript.{source_of};
ghost use Rattle.sbl_ast.specs.Order.{in_order};
ghost use Rattle.sbl_ast.specs.View.{view_plain};
ghost use Rattle.sbl_uses.specs.Parts as spec;
ghost use Rattle.sbl_uses.specs.UnusedViews.{part_of, view_amongs, view_part, view_parts};

use crate::amongs::{amongs_of, strings_in};
use sbl_ast::{Among, Plain, items_in_order};
use sbl_machine::ItemRef;
use sbl_script::Script;
use std::alloc::{AllocError, Global};
use std::collections::BTreeMap;

/// An item and, if it is an among, its strings.
pub(crate) type Part<'a> = (ItemRef<'a>, Vec<&'a [char]>);

/// Items in their order; each among with its strings.
pub type Parts<'a> = BTreeMap<ItemRef<'a>, Vec<&'a [char]>>;

/// Appends a part. Returns `AllocError` if an allocation fails.
fn push_part<'a>(
    parts: &mut Vec<Part<'a>>,
    item: ItemRef<'a>,
    strings: Vec<&'a [char]>,
) -> Result<(), AllocError>
    ensures { OnOk result (view_parts parts.new.items ≡ view_parts parts.old.items ++ part_of item.entry strings.entry.items ∷ []) }
{
    parts.push((item, strings))?;
    Ok(())
}

/// Appends the amongs of a routine. Returns `AllocError` if an allocation fails.
fn push_amongs<'a>(
    alloc: Global,
    parts: &mut Vec<Part<'a>>,
    name: &'a str,
    amongs: &[&'a Among],
) -> Result<(), AllocError>
    ensures { OnOk result (view_parts parts.new.items ≡ view_parts parts.old.items ++ spec.amongs_from 1 name.now (view_amongs amongs.now)) }
{
    for (i, among) in amongs.iter().enumerate() {
        let strings = strings_in(alloc, among)?;
        push_part(parts, ItemRef::Among(name, i as u64 + 1), strings)?;
    }
    Ok(())
}

/// Appends the parts of a definition. Returns `AllocError` if an allocation fails.
fn push_plain<'a>(
    alloc: Global,
    parts: &mut Vec<Part<'a>>,
    plain: &'a Plain,
) -> Result<(), AllocError>
    ensures { OnOk result (view_parts parts.new.items ≡ view_parts parts.old.items ++ spec.parts_by (view_plain plain.now)) }
{
    match plain {
        Plain::Routine { name, body } => {
            push_part(parts, ItemRef::Routine(name), Vec::new(alloc))?;
            push_amongs(alloc, parts, name, &amongs_of(alloc, body)?)
        }
        Plain::Grouping(grouping) => {
            push_part(parts, ItemRef::Grouping(&grouping.name), Vec::new(alloc))
        }
        Plain::Declaration(_, _) | Plain::StringEscapes(_, _) | Plain::StringDef { .. } => Ok(()),
    }
}

/// Returns the parts of a script in the order of the text. Returns `AllocError` if an allocation fails.
pub(crate) fn parts_in_text(alloc: Global, script: &Script) -> Result<Vec<Part<'_>>, AllocError>
    ensures { IfOk result (λ parts. view_parts parts.items ≡ flat_map (λ x. spec.parts_by x.plain) (in_order (source_of script.now).items)) }
{
    let items = items_in_order(alloc, script.items())?;
    let mut parts = Vec::new(alloc);
    for item in &items {
        push_plain(alloc, &mut parts, item.plain)?;
    }
    Ok(parts)
}

/// Puts a part at its place. Returns `AllocError` if an allocation fails.
#[tactic(auto, using(crate::proofs::PartFacts::put_viewed))]
fn put_part<'a>(parts: &mut Parts<'a>, part: Part<'a>) -> Result<(), AllocError>
    ensures { OnOk result (view_parts parts.new.entries ≡ insert_entry item_cmp (view_parts parts.old.entries) (view_part part.entry).0 (view_part part.entry).1) }
{
    let (item, strings) = part;
    parts.insert(item, strings)?;
    Ok(())
}

/// Returns the parts of a script. Returns `AllocError` if an allocation fails.
pub fn parts_of(alloc: Global, script: &Script) -> Result<Parts<'_>, AllocError>
    ensures { IfOk result (λ parts. view_parts parts.entries ≡ spec.parts_of (source_of script.now)) }
{
    let mut parts = BTreeMap::new(alloc);
    for part in parts_in_text(alloc, script)? {
        put_part(&mut parts, part)?;
    }
    Ok(parts)
}
