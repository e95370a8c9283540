//! sbl_machine: searches of an among's strings, runs, and why they are refused.

ghost use Rattle.std.specs.Prelude.{◌≤◌, length, IfOk};

use crate::common::{field, letters, lists, number, parse_body, parse_text, text_of};
use sbl_machine::{
    AmongSearch, Item, LinkedTable, Machine, Meter, Outcome, PlainTable, Ran, RunStop, ScriptFault,
};
use sbl_script::{Mode, Script};
use std::alloc::{AllocError, Global};
use std::collections::BTreeSet;
use std::process::Abort;
use std::test::Fail;

/// Asserts what a table of `a`, `abc`, `ab` finds forwards.
fn finds_forwards<S: AmongSearch>(rt: &impl Abort, alloc: Global) -> Result<(), Fail> {
    let table = S::build(alloc, &lists(alloc, "a,abc,ab")?, Mode::Forward)?;
    let text = ['a', 'b', 'd'];
    assert!(rt; table.longest(&text, 0, 3) == Some(2));
    assert!(rt; table.longest(&text, 2, 3) == None);
    assert!(rt; table.next_shorter(1) == Some(2));
    assert!(rt; table.next_shorter(2) == Some(0));
    assert!(rt; table.next_shorter(0) == None);
    Ok(())
}

/// Asserts what a table of `s`, `es` finds backwards.
fn finds_backwards<S: AmongSearch>(rt: &impl Abort, alloc: Global) -> Result<(), Fail> {
    let table = S::build(alloc, &lists(alloc, "s,es")?, Mode::Backward)?;
    let text = ['b', 'o', 'x', 'e', 's'];
    assert!(rt; table.longest(&text, 5, 0) == Some(1));
    assert!(rt; table.longest(&text, 5, 4) == Some(0));
    assert!(rt; table.next_shorter(1) == Some(0));
    Ok(())
}

/// Asserts what tables of no string, and of the empty one, find.
fn finds_empty<S: AmongSearch>(rt: &impl Abort, alloc: Global) -> Result<(), Fail> {
    let none = S::build(alloc, &Vec::new(alloc), Mode::Forward)?;
    assert!(rt; none.longest(&['a'], 0, 1) == None);
    let empty = S::build(alloc, &lists(alloc, "")?, Mode::Forward)?;
    assert!(rt; empty.longest(&[], 0, 0) == Some(0));
    assert!(rt; empty.next_shorter(0) == None);
    Ok(())
}

#[test]
fn both_tables_find_the_longest_and_the_next_shorter(rt: HostRuntime) -> Result<(), Fail> {
    finds_forwards::<PlainTable>(&rt, rt.alloc())?;
    finds_forwards::<LinkedTable>(&rt, rt.alloc())?;
    finds_backwards::<PlainTable>(&rt, rt.alloc())?;
    finds_backwards::<LinkedTable>(&rt, rt.alloc())?;
    finds_empty::<PlainTable>(&rt, rt.alloc())?;
    finds_empty::<LinkedTable>(&rt, rt.alloc())
}

/// A word for a run.
fn word_of(rt: &impl Abort, alloc: Global, text: &str) -> Result<Vec<char>, AllocError>
    ensures { IfOk result (λ word. length word.items ≤ 255) }
{
    let word = letters(alloc, text)?;
    assert!(rt; word.len() <= 255);
    Ok(word)
}

/// Items as the rows of a trace, without their line ends.
fn items_text(alloc: Global, items: &BTreeSet<Item>) -> Result<String, AllocError> {
    let mut text = String::new(alloc);
    for item in items.iter() {
        let row = match item {
            Item::Routine(name) => format!(in alloc; "routine,{name};")?,
            Item::Among(name, number) => format!(in alloc; "among,{name},{number};")?,
            Item::Grouping(name) => format!(in alloc; "grouping,{name};")?,
        };
        text.push_str(row.as_str())?;
    }
    Ok(text)
}

/// What a run gives: its stem or its fault, the steps that it used, and what it touched.
fn ran_text(alloc: Global, ran: &Ran) -> Result<String, AllocError> {
    let Ran {
        outcome,
        touched,
        used,
    } = ran;
    let items = items_text(alloc, touched)?;
    match outcome {
        Outcome::Stem(stem) => {
            let stem = text_of(alloc, stem)?;
            format!(in alloc; "{stem} {used} {items}")
        }
        Outcome::Refused(fault) => format!(in alloc; "{fault} {used} {items}"),
    }
}

/// Runs a machine over the word of a row. Returns what the run gives, and the count of the meter.
fn run_text<S: AmongSearch>(
    rt: &impl Abort,
    alloc: Global,
    machine: &Machine<S>,
    meter: &mut Meter,
    row: &str,
) -> Result<String, Fail> {
    let word = word_of(rt, alloc, field(row, 1))?;
    let ran: Result<Ran, RunStop> = machine.run(alloc, meter, &word, number(row, 2));
    let text = ran_text(alloc, &ran?)?;
    let count = meter.count();
    Ok(format!(in alloc; "{text} {count}")?)
}

/// Runs a machine over the word of a row, with a new meter.
fn run_once<S: AmongSearch>(
    rt: &impl Abort,
    alloc: Global,
    machine: &Machine<S>,
    row: &str,
) -> Result<String, Fail> {
    let mut meter = Meter::new();
    let text = run_text(rt, alloc, machine, &mut meter, row);
    drop(meter);
    text
}

/// Asserts what a run of a script gives. The machine owns what it needs of the script.
fn gives<S: AmongSearch>(
    rt: &impl Abort,
    alloc: Global,
    script: &Script,
    row: &str,
) -> Result<(), Fail> {
    let machine: Machine<S> = Machine::new(alloc, script)?;
    let text = run_once(rt, alloc, &machine, row);
    drop(machine);
    let text = text?;
    assert!(rt; text.as_str() == field(row, 3), "{row}: {text}");
    Ok(())
}

/// A script, a word, a limit of steps, and what a first run gives.
const RUNS: &str = "PLURALS|s|16| 16 routine,stem;routine,tail;among,tail,1; 1
PLURALS|s|15|60 Steps 16 routine,stem;routine,tail;among,tail,1; 1
PLURALS|cakes|100000|cak 27 routine,last;routine,sib;routine,stem;routine,tail;among,tail,1; 1
PLURALS|dog|100000|dog 12 routine,stem;routine,tail;among,tail,1; 1
GROUPINGS|ab|100000|b 8 routine,stem;grouping,v; 1";

/// A body, a word, a limit of steps, and what a first run gives.
const BODIES: &str = "loop 2 next|ab|3|ab 3 routine,stem; 1
loop 2 next|ab|2|60 Steps 3 routine,stem; 1
stem|a|100000|61 Depth 32 routine,stem; 1
( next ] tolimit [ delete )|ab|100000|62 Slice 6 routine,stem; 1
( next ] tolimit [ delete )|a|100000|a 6 routine,stem; 1
backwards ( [ next next ] do delete )|ab|100000|63 Cursor 8 routine,stem; 1
hop ( maxint + 1 )|a|100000|64 Integer 1 routine,stem; 1
hop ( 1 / 0 )|a|100000|65 Divide 1 routine,stem; 1
repeat <+ 'aa'|a|100000|66 TooLong 513 routine,stem; 1";

/// Asserts what a run of a machine with each table gives.
fn runs(rt: &impl Abort, alloc: Global, script: &Script, row: &str) -> Result<(), Fail> {
    gives::<PlainTable>(rt, alloc, script, row)?;
    gives::<LinkedTable>(rt, alloc, script, row)
}

/// The script of a row of `RUNS`.
fn script_named(alloc: Global, row: &str) -> Result<Script, ScriptFault> {
    parse_text(alloc, field(row, 0))
}

#[test]
fn a_run_gives_its_outcome_its_steps_and_what_it_touched(rt: HostRuntime) -> Result<(), Fail> {
    let alloc = rt.alloc();
    for row in RUNS.split('\n') {
        let script = script_named(alloc, row)?;
        let done = runs(&rt, alloc, &script, row);
        drop(script);
        done?;
    }
    for row in BODIES.split('\n') {
        let script = parse_body(alloc, field(row, 0))?;
        let done = runs(&rt, alloc, &script, row);
        drop(script);
        done?;
    }
    Ok(())
}
