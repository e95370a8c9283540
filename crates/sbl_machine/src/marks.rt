//! What edits affect, by number.

ghost use Rattle.std.specs.Prelude.{◌≡◌, ℕ, List, [], map, OnOk, IfOk, string_bytes};
ghost use Rattle.sbl_compiler.specs.NumberedNames.{is_one_of};
ghost use Rattle.sbl_semantics.specs.Touches.{with_touch};
ghost use Rattle.sbl_ast.specs.Order.{in_order};
ghost use Rattle.sbl_ast.specs.View.{view_items};
ghost use Rattle.sbl_machine.specs.Marking.{amongs_in, and_among, and_grouping, and_routine, groupings_after, with_marks, with_names, marks_of, routines_after, touch_of, with_searches, searches};
ghost use Rattle.sbl_machine.specs.AmongList.{numbers_of};
ghost use Rattle.sbl_semantics.specs.TouchedItems.{item_of};

use crate::among_list::AmongList;
use crate::groupings_built::built_from;
use crate::naming::Names;
use sbl_compiler::NameList;
use sbl_run_state::TouchLog;
use sbl_semantics::Item;
use std::alloc::{AllocError, Global};

/// The items that have a number in the script, and not only in their routine.
#[derive(Clone, Copy)]
pub(crate) enum ItemKind {
    Routine,
    Grouping,
}

// Adds the touch that enters the routine, or tests the grouping, with this number.
fn mark(kind: ItemKind, number: usize, marks: &mut TouchLog) -> Result<(), AllocError>
    ensures { OnOk result (marks.new ≡ with_touch (touch_of kind number) marks.old) }
{
    match kind {
        ItemKind::Routine => marks.enter(number),
        ItemKind::Grouping => marks.test(number),
    }
}

// Adds the touch of each of these routines or groupings that has one of these names.
fn mark_names(
    kind: ItemKind,
    all: &[String],
    names: &NameList,
    marks: &mut TouchLog,
) -> Result<(), AllocError>
    ensures { OnOk result (marks.new ≡ with_names (touch_of kind) (is_one_of names.now) 0 (map string_bytes all.now) marks.old) }
{
    for (number, name) in all.iter().enumerate() {
        if names.is_one_of(name.as_str()) {
            mark(kind, number, marks)?;
        }
    }
    Ok(())
}

// Adds the touches that search these amongs of a routine. The numbers are counted from 0.
fn mark_searches(routine: usize, amongs: &[usize], marks: &mut TouchLog) -> Result<(), AllocError>
    ensures { OnOk result (marks.new ≡ with_searches routine amongs.now marks.old) }
{
    for among in amongs {
        marks.search(routine, *among)?;
    }
    Ok(())
}

// Adds the touches that search these amongs of each routine.
fn mark_amongs(
    routines: &[String],
    amongs: &AmongList,
    marks: &mut TouchLog,
) -> Result<(), AllocError>
    ensures { OnOk result (marks.new ≡ searches (numbers_of amongs.now) 0 (map string_bytes routines.now) marks.old) }
{
    for (number, name) in routines.iter().enumerate() {
        mark_searches(number, amongs.numbers_of(name.as_str()), marks)?;
    }
    Ok(())
}

// Adds the name of the item to the names of routines or to those of groupings.
fn add_name(
    alloc: Global,
    item: &Item,
    routines: &mut NameList,
    groupings: &mut NameList,
) -> Result<(), AllocError>
    ensures routines { OnOk result (routines.new ≡ and_routine (item_of item.now) routines.old) }
    ensures groupings { OnOk result (groupings.new ≡ and_grouping (item_of item.now) groupings.old) }
{
    match item {
        Item::Routine(name) => routines.add(alloc, name.as_str()),
        Item::Grouping(name) => groupings.add(alloc, name.as_str()),
        Item::Among(_, _) => Ok(()),
    }
}

// Adds the names of the routines and of the groupings among the items.
fn add_names(
    alloc: Global,
    items: &[Item],
    routines: &mut NameList,
    groupings: &mut NameList,
) -> Result<(), AllocError>
    ensures routines { OnOk result (routines.new ≡ routines_after (map item_of items.now) routines.old) }
    ensures groupings { OnOk result (groupings.new ≡ groupings_after (map item_of items.now) groupings.old) }
{
    for item in items {
        add_name(alloc, item, routines, groupings)?;
    }
    Ok(())
}

// Adds the number of the item, counted from 0, if it is an among.
fn add_among(alloc: Global, item: &Item, amongs: &mut AmongList) -> Result<(), AllocError>
    ensures { (n : List ℕ) → OnOk result (numbers_of amongs.new n ≡ and_among n (item_of item.now) (numbers_of amongs.old n)) }
{
    match item {
        Item::Among(name, number) => {
            if 0 < *number {
                amongs.add(alloc, name.as_str(), (*number - 1) as usize)?;
            }
            Ok(())
        }
        Item::Routine(_) | Item::Grouping(_) => Ok(()),
    }
}

// Returns the amongs among the items.
fn amongs_in(alloc: Global, items: &[Item]) -> Result<AmongList, AllocError>
    ensures { IfOk result (λ amongs. numbers_of amongs ≡ amongs_in (map item_of items.now)) }
{
    let mut amongs = AmongList::new(alloc);
    for item in items {
        add_among(alloc, item, &mut amongs)?;
    }
    Ok(amongs)
}

// Adds the touches of these amongs, of these routines and of these groupings.
fn mark_all(
    names: &Names,
    amongs: &AmongList,
    routines: &NameList,
    groupings: &NameList,
    marks: &mut TouchLog,
) -> Result<(), AllocError>
    ensures { OnOk result (marks.new ≡ with_marks names.now (numbers_of amongs.now) routines.now groupings.now marks.old) }
{
    mark_amongs(&names.routines, amongs, marks)?;
    mark_names(ItemKind::Routine, &names.routines, routines, marks)?;
    mark_names(ItemKind::Grouping, &names.groupings, groupings, marks)
}

/// Returns the touches of some items and of all groupings that are built from one of them, by number. The cost
/// is about that of one walk over the script and one over the items.
///
/// # Errors
///
/// Returns `AllocError` if an allocation fails.
pub fn marks_of(
    alloc: Global,
    names: &Names,
    script: &[sbl_ast::ScriptItem],
    items: &[Item],
) -> Result<TouchLog, AllocError>
    ensures { IfOk result (λ marks. marks ≡ marks_of names.now (in_order (view_items script.now)) (map item_of items.now)) }
{
    let mut routines = NameList::new(alloc);
    let mut groupings = NameList::new(alloc);
    add_names(alloc, items, &mut routines, &mut groupings)?;
    let built = built_from(alloc, script, groupings)?;
    let amongs = amongs_in(alloc, items)?;
    let mut marks = TouchLog::new(alloc);
    mark_all(names, &amongs, &routines, &built, &mut marks)?;
    Ok(marks)
}
