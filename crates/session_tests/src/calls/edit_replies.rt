//! The number and the name of each fault of an edit, as a session writes them. tests/cases has no edit with some of them.

use sbl_bench::EditFault;
use sbl_bench::EditFault::{
    Absent, AmongCount, BadLimit, BrokenOff, EmptyWord, Full, MeterFull, NoAmong, NoGrouping,
    NoRoutine, OutOfMemory, Present, Script, WordTooLong,
};
use sbl_script::ScriptFault;
use sbl_sessions::{BAD_COMMAND, edit_text};
use std::alloc::{AllocError, Global};
use std::test::Fail;

/// The replies to edits with these faults.
fn replies_to(alloc: Global, faults: &[EditFault]) -> Result<String, AllocError> {
    let mut text = String::new(alloc);
    for fault in faults {
        text.push_str(edit_text(Err(*fault)))?;
    }
    Ok(text)
}

#[test]
fn each_fault_of_an_edit_has_its_number_and_its_name(rt: HostRuntime) -> Result<(), Fail> {
    assert_eq!(rt; edit_text(Ok(())), "ok\n");
    let words = [Present, Absent, EmptyWord, WordTooLong, Full];
    let want = "no 40 Present\nno 41 Absent\nno 42 EmptyWord\nno 43 WordTooLong\nno 44 Full\n";
    assert_eq!(rt; replies_to(rt.alloc(), &words)?.as_str(), want);
    let parts = [NoRoutine, NoAmong, AmongCount, NoGrouping];
    let want = "no 45 NoRoutine\nno 46 NoAmong\nno 47 AmongCount\nno 53 NoGrouping\n";
    assert_eq!(rt; replies_to(rt.alloc(), &parts)?.as_str(), want);
    let others = [OutOfMemory, MeterFull, BadLimit, BrokenOff];
    let want = "no 49 OutOfMemory\nno 50 MeterFull\nno 51 BadLimit\nno 68 BrokenOff\n";
    assert_eq!(rt; replies_to(rt.alloc(), &others)?.as_str(), want);
    assert_eq!(rt; BAD_COMMAND, "no 52 BadCommand\n");
    Ok(())
}

/// Asserts the replies to edits with these faults of a script, which have these fields: each has one number and the name.
macro_rules! have_one_number {
    ($rt:ident, $fields:tt: $($name:ident),*) => {
        let faults = [$(Script(ScriptFault::$name $fields)),*];
        let want = concat!($("no 48 ", stringify!($name), "\n"),*);
        assert_eq!($rt; replies_to($rt.alloc(), &faults)?.as_str(), want);
    };
}

#[test]
fn a_fault_of_a_script_has_one_number_and_its_name(rt: HostRuntime) -> Result<(), Fail> {
    have_one_number!(rt, { place: 8 }:
        BadCharacter, UnclosedString, UnclosedComment, UnknownEscape, BadCode, NumberTooLarge, Syntax, TooDeep, OutOfProfile);
    have_one_number!(rt, { item: 11 }:
        DeclaredTwice, Undeclared, WrongKind, DefinedTwice, Undefined, WrongMode, Substring, Starter, RepeatedString, EmptyAmong,
        NestedBackwards);
    have_one_number!(rt, {}: NoExternal, NotUtf8, ScriptTooLong);
    Ok(())
}
