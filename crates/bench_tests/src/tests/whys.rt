//! What a run does, event by event, and what it leaves in the integer variables.

ghost use Rattle.std.specs.Prelude.{◌≤◌, length};
ghost use Rattle.sbl_semantics.specs.Limit.{max_word_length};

use crate::tests::runs::{Asked, answer, ask, machine_of, outcome_text, sign_of};
use sbl_machine::{AmongSearch, Machine, Meter, RunStop, Table};
use sbl_script::Script;
use std::alloc::Global;
use std::test::Fail;
use test_support::print_values;

/// Returns what a run gives, the integers at its end or at its refusal, and its events; and whether the run without events is the same.
pub(crate) fn does<S: AmongSearch>(
    alloc: Global,
    meter: &mut Meter,
    machine: &Machine<S>,
    word: &[char],
    limit: u32,
) -> Result<(String, bool), RunStop>
    requires { length word.now ≤ max_word_length }
{
    let why = machine.why(alloc, word, limit)?;
    let ran = machine.run(alloc, meter, word, limit)?;
    let is_same = why.outcome == ran.outcome && why.used == ran.used;
    let sign = sign_of(&ran.outcome);
    let outcome = outcome_text(alloc, &ran.outcome)?;
    let integers = print_values(alloc, &why.integers)?;
    let events = &why.events;
    Ok((
        format!(in alloc; "{sign}{outcome}|{integers}|{events:?}")?,
        is_same,
    ))
}

/// A word, the limit of steps, the stem or the fault, the integers, and the events (empty: not asked). Events are calls, searches and
/// changes; a refused run leaves in the integers what it has set.
const ROWS: &str =
    "= externals ( stem ) routines ( c ) define c as 'x' define stem as ( [ among ( 'a' () 'ab' c () ) ] delete )
abx|100|x||[Enters(1), Searches { routine: 1, among: 0, mode: Forward, cursor: 0 }, Enters(0), Leaves(true), Finds(0, Some(2)), Puts(0, 2, []), Leaves(true)]
aby|100|by||[Enters(1), Searches { routine: 1, among: 0, mode: Forward, cursor: 0 }, Enters(0), Leaves(false), Finds(0, Some(1)), Puts(0, 1, []), Leaves(true)]
b|100|b||[Enters(1), Searches { routine: 1, among: 0, mode: Forward, cursor: 0 }, Finds(0, None), Leaves(false)]
= externals ( stem ) define stem as backwards ( [ substring ] among ( 's' ( delete ) 'ies' ( <- 'y' ) ) )
cats|100|cat||[Enters(0), Searches { routine: 0, among: 0, mode: Backward, cursor: 4 }, Finds(0, Some(1)), Puts(3, 4, []), Leaves(true)]
parties|100|party||[Enters(0), Searches { routine: 0, among: 0, mode: Backward, cursor: 7 }, Finds(0, Some(3)), Puts(4, 7, ['y']), Leaves(true)]
= integers ( n m ) externals ( stem ) define stem as ( $n += 1 stem $m = 1 )
ab|1000|!61 Depth|32;0;|
= integers ( n m ) externals ( stem ) define stem as ( $n = 7 $m = maxint $m += 1 $n = 9 )
ab|1000|!64 Integer|7;2147483647;|
= integers ( n m ) externals ( stem ) define stem as ( $n = -3 next ] setmark m tolimit [ delete $n = 9 )
ab|1000|!62 Slice|-3;1;|
= integers ( n m ) externals ( stem ) define stem as ( $m = 5 $n = m / 0 $m = 9 )
ab|1000|!65 Divide|0;5;|
= integers ( n m ) externals ( stem ) define stem as repeat $n += 1
ab|1000|!60 Steps|999;0;|
= integers ( n m ) externals ( stem ) define stem as ( $n = 4 next setmark m )
ab|1000|ab|4;1;|
= integers ( n m k ) externals ( stem ) define stem as ( $k = 2 $n = 1 )
ab|1000|ab|1;0;2;|";

#[test]
fn runs_do(rt: HostRuntime) -> Result<(), Fail> {
    ask::<Table>(&rt, rt.alloc(), Asked::Events, ROWS)
}

#[test]
fn after_an_edit_the_integers_are_those_of_the_new_body(rt: HostRuntime) -> Result<(), Fail> {
    let alloc = rt.alloc();
    let text = b"integers ( n m k ) externals ( stem ) define stem as ( $k = 2 $n = 1 )";
    let script = Script::parse(alloc, text, "stem")?;
    let edited = script.with_routine(alloc, "stem", "( $m = 3 $n -= 1 )");
    script.discard();
    let machine: Machine<Table> = machine_of(alloc, edited?)?;
    let done = answer(alloc, &machine, &['a', 'b'], 1_000, Asked::Events);
    machine.discard();
    let (text, is_same) = done?;
    assert!(rt; is_same && text.as_str().starts_with("ab|-1;3;0;|"));
    Ok(())
}
