//! How the faults of the five libraries are displayed: a number, a name, and a place or an item if there is one.

use crate::common::displays;
use sbl_bench::{EditFault, ScriptFault as BenchScriptFault};
use sbl_machine::{RunFault, RunStop};
use sbl_script::{EditFault as PartFault, ScriptFault};
use sbl_text::ScriptFault as TextFault;
use snowbench::{LoadFault, ScriptFault as LoadedFault, ServeFault};
use std::test::Fail;

/// Asserts how faults are displayed that have these fields: each as its number, its name and this ending.
macro_rules! are_displayed {
    ($rt:ident, $fault:ident $fields:tt $ending:literal: $($number:literal $name:ident),*) => {
        let faults = [$($fault::$name $fields),*];
        let want = concat!($($number, " ", stringify!($name), $ending, ";"),*);
        assert_eq!($rt; displays($rt.alloc(), &faults)?.as_str(), want);
    };
}

#[test]
fn the_faults_of_a_text_have_a_place(rt: HostRuntime) -> Result<(), Fail> {
    are_displayed!(rt, TextFault { place: 6 } " at 6":
        1 BadCharacter, 2 UnclosedString, 3 UnclosedComment, 4 UnknownEscape, 5 BadCode, 6 NumberTooLarge);
    Ok(())
}

#[test]
fn the_faults_of_a_script_have_a_place_or_an_item(rt: HostRuntime) -> Result<(), Fail> {
    are_displayed!(rt, ScriptFault { place: 7 } " at 7":
        4 UnknownEscape, 5 BadCode, 7 Syntax, 8 TooDeep, 20 OutOfProfile);
    are_displayed!(rt, ScriptFault { item: 3 } " in item 3":
        9 DeclaredTwice, 10 Undeclared, 11 WrongKind, 12 DefinedTwice, 13 Undefined, 14 WrongMode, 15 Substring, 16 Starter,
        17 RepeatedString, 18 EmptyAmong, 19 NestedBackwards);
    are_displayed!(rt, ScriptFault {} "": 21 NoExternal, 23 NotUtf8, 24 ScriptTooLong, 49 OutOfMemory);
    Ok(())
}

#[test]
fn the_faults_of_edits_have_their_numbers(rt: HostRuntime) -> Result<(), Fail> {
    are_displayed!(rt, PartFault {} "": 45 NoRoutine, 46 NoAmong, 47 AmongCount, 49 OutOfMemory, 53 NoGrouping);
    let faults = [
        PartFault::Script(ScriptFault::TooDeep { place: 3 }),
        PartFault::Script(ScriptFault::Undeclared { item: 2 }),
    ];
    let want = "48 8 TooDeep at 3;48 10 Undeclared in item 2;";
    assert_eq!(rt; displays(rt.alloc(), &faults)?.as_str(), want);
    Ok(())
}

#[test]
fn the_faults_of_runs_are_displayed(rt: HostRuntime) -> Result<(), Fail> {
    are_displayed!(rt, RunFault {} "": 60 Steps, 61 Depth, 62 Slice, 63 Cursor, 64 Integer, 65 Divide, 66 TooLong);
    are_displayed!(rt, RunStop {} "": 49 OutOfMemory, 50 MeterFull);
    Ok(())
}

#[test]
fn the_faults_of_a_bench_are_displayed(rt: HostRuntime) -> Result<(), Fail> {
    are_displayed!(rt, EditFault {} "":
        40 Present, 41 Absent, 42 EmptyWord, 43 WordTooLong, 44 Full, 45 NoRoutine, 46 NoAmong, 47 AmongCount, 49 OutOfMemory,
        50 MeterFull, 51 BadLimit, 53 NoGrouping);
    let faults = [EditFault::Script(BenchScriptFault::Undeclared { item: 4 })];
    assert_eq!(rt; displays(rt.alloc(), &faults)?.as_str(), "48 Undeclared;");
    Ok(())
}

#[test]
fn the_faults_of_sessions_are_displayed(rt: HostRuntime) -> Result<(), Fail> {
    are_displayed!(rt, ServeFault {} "":
        70 Read, 71 Write, 72 LineTooLong, 73 Cut, 74 LengthsDiffer, 75 NotText, 49 OutOfMemory);
    let others = [
        LoadFault::Input(ServeFault::Cut),
        LoadFault::Script(LoadedFault::UnclosedString { place: 34 }),
        LoadFault::Open(EditFault::Full),
    ];
    let want = "73 Cut;2 UnclosedString at 34;44 Full;";
    assert_eq!(rt; displays(rt.alloc(), &others)?.as_str(), want);
    Ok(())
}
