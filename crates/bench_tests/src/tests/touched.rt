//! What runs touch, by names and by numbers.

ghost use Rattle.std.specs.Prelude.{◌≤◌, length};
ghost use Rattle.sbl_semantics.specs.Limit.{max_word_length};

use crate::tests::runs::{Asked, ask};
use sbl_machine::{AmongSearch, Item, Machine, Meter, RunStop, Table, Touch};
use std::alloc::Global;
use std::collections::BTreeSet;
use std::test::Fail;

/// Returns whether the numbers of what was touched say the same as these items.
fn are_items<S: AmongSearch>(
    alloc: Global,
    machine: &Machine<S>,
    touches: &[Touch],
    mut items: BTreeSet<Item>,
) -> Result<bool, RunStop> {
    let is_same = machine.items(alloc, touches)? == items;
    items.retain(|item| !machine.is_among_touches(touches, item));
    let other = Item::Routine(String::from_str(alloc, "nowhere")?);
    let has_other = machine.is_among_touches(touches, &other);
    Ok(is_same && items.is_empty() && !has_other)
}

/// Runs a machine over a word three times. Returns the items in order, and the steps; and whether all runs are the same, and the numbers
/// of what is touched say the same as the names.
pub(crate) fn touches<S: AmongSearch>(
    alloc: Global,
    machine: &Machine<S>,
    word: &[char],
    limit: u32,
    meter: &mut Meter,
) -> Result<(String, bool), RunStop>
    requires { length word.now ≤ max_word_length }
{
    let ran = machine.run(alloc, meter, word, limit)?;
    let traced = machine.trace(alloc, meter, word, limit)?;
    let end = machine.run_untraced(alloc, meter, word, limit)?;
    let is_traced = traced.outcome == ran.outcome && traced.used == ran.used;
    let is_untraced = end.outcome == ran.outcome && end.used == ran.used;
    let (touched, used) = (&ran.touched, ran.used);
    let text = format!(in alloc; "{touched:?}|{used};")?;
    let agree = are_items(alloc, machine, &traced.touches, ran.touched)?;
    Ok((
        text,
        is_traced && is_untraced && agree && meter.count() == 3,
    ))
}

/// A word, the limit of steps, the items that its run touches, and the steps that it uses. A condition that signals f is entered, and a
/// search that finds nothing is made; the external is entered before any step, and a search is made once its step is paid; a condition
/// is entered where its string fits; capitals come first, amongs are in the order of their words, and each item once; a routine that is
/// too deep is not touched; a grouping is touched once its test is paid, by its name or by `non`, whatever it finds and if nothing is
/// ahead, but not if it is only named in the terms of another.
const ROWS: &str = "= PLURALS
cakes||{Routine(\"last\"), Routine(\"sib\"), Routine(\"stem\"), Routine(\"tail\"), Among(\"tail\", 1)}|
dog||{Routine(\"stem\"), Routine(\"tail\"), Among(\"tail\", 1)}|12;
= externals ( stem ) define stem as among ( ( next ) 'a' () )
ab||{Routine(\"stem\"), Among(\"stem\", 1)}|5;
ab|4|{Routine(\"stem\"), Among(\"stem\", 1)}|5;
ab|2|{Routine(\"stem\"), Among(\"stem\", 1)}|3;
ab|1|{Routine(\"stem\")}|2;
ab|0|{Routine(\"stem\")}|1;
= externals ( stem ) routines ( r ) define r as 'x' define stem as ( [ among ( 'a' () 'ab' r () ) ] delete )
abx||{Routine(\"r\"), Routine(\"stem\"), Among(\"stem\", 1)}|9;
aby||{Routine(\"r\"), Routine(\"stem\"), Among(\"stem\", 1)}|
ay||{Routine(\"stem\"), Among(\"stem\", 1)}|
= externals ( stem ) routines ( a Z ) define a as among ( 'x' () ) define Z as among ( '' () )¶        define stem as ( do among ( 'x' () ) do a do Z do among ( 'x' ( among ( 'y' () ) ) ) do among ( '' () ) do a )
ab||{Routine(\"Z\"), Routine(\"a\"), Routine(\"stem\"), Among(\"Z\", 1), Among(\"a\", 1), Among(\"stem\", 1), Among(\"stem\", 2), Among(\"stem\", 4)}|
= integers ( n ) routines ( deep ) externals ( stem ) define deep as true define stem as ( $n += 1 ( $n == 31 deep ) or stem )
a||{Routine(\"deep\"), Routine(\"stem\")}|
= integers ( n ) routines ( deep ) externals ( stem ) define deep as true define stem as ( $n += 1 ( $n == 32 deep ) or stem )
a||{Routine(\"stem\")}|
= groupings ( g h ) externals ( stem ) define g 'a' define h g + 'b' define stem as ( do h do non-g do h )
ab||{Routine(\"stem\"), Grouping(\"g\"), Grouping(\"h\")}|
xy||{Routine(\"stem\"), Grouping(\"g\"), Grouping(\"h\")}|
||{Routine(\"stem\"), Grouping(\"g\"), Grouping(\"h\")}|
= groupings ( g h ) externals ( stem ) define g 'a' define h g + 'b' define stem as h
a|1|{Routine(\"stem\"), Grouping(\"h\")}|1;
x|1|{Routine(\"stem\"), Grouping(\"h\")}|1;
a|0|{Routine(\"stem\")}|1;";

#[test]
fn runs_touch(rt: HostRuntime) -> Result<(), Fail> {
    ask::<Table>(&rt, rt.alloc(), Asked::Items, ROWS)
}
