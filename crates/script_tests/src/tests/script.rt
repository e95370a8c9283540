//! Tests of parsing scripts: each kind of refusal once, depth, length, and what a script keeps. tests/cases has rows of
//! single checks.

use sbl_parser::{one_fault, one_tree};
use sbl_script::Script;
use sbl_script::laws::{
    amongs_are_sound, fault_is_first, is_well_declared, names_resolve, one_edit, one_reading,
    substrings_are_paired, well_declared_passes,
};
use std::alloc::{AllocError, Global};
use std::fmt::Display;
use std::process::Abort;
use std::test::Fail;
use test_support::{PORTER, SCRIPT_PREFIX, field};

/// Returns the fault as text, which is empty for a script. The script is discarded.
pub(crate) fn fault_in<E: Display + Drop>(
    alloc: Global,
    made: Result<Script, E>,
) -> Result<String, AllocError> {
    match made {
        Ok(script) => {
            script.discard();
            Ok(String::new(alloc))
        }
        Err(fault) => format!(in alloc; "{fault}"),
    }
}

/// The script of a text, with the external `stem`.
pub(crate) fn script_of(rt: &impl Abort, alloc: Global, text: &str) -> Script {
    Script::parse(alloc, text.as_bytes(), "stem").expect(rt, "a script")
}

/// A text, and then a part so many times.
pub(crate) fn repeat_part(
    alloc: Global,
    prefix: &str,
    part: &str,
    count: usize,
) -> Result<String, AllocError> {
    let mut text = String::from_str(alloc, prefix)?;
    for _ in 0..count {
        text.push_str(part)?;
    }
    Ok(text)
}

/// A text, an external, and the fault (empty if the script is accepted).
const TEXTS: &str = "externals ( stem ) define stem as stem|stem|
! \"|stem|1 BadCharacter at 0
externals ( ) ) $x 3 size|stem|20 OutOfProfile at 21
externals ( stem ) define stem as|stem|7 Syntax at 33
define stem as next externals ( stem )|stem|10 Undeclared in item 1
|stem|21 NoExternal
externals ( stem ) define stem as next||21 NoExternal
externals ( stem ) define stem as next|2x|21 NoExternal
externals ( stem ) define stem as next|next|21 NoExternal
externals ( stem ) define stem as next|Stem|21 NoExternal";

/// Asserts that a script has this fault, or is accepted if the fault is empty.
fn has_fault(
    rt: &impl Abort,
    alloc: Global,
    text: &[u8],
    external: &str,
    want: &str,
) -> Result<(), Fail> {
    let fault = fault_in(alloc, Script::parse(alloc, text, external))?;
    assert!(rt; fault.as_str() == want, "{want}: {fault}");
    Ok(())
}

#[test]
fn a_script_is_accepted_or_has_its_first_fault(rt: HostRuntime) -> Result<(), Fail> {
    for row in TEXTS.split('\n') {
        let text = field(row, 0).as_bytes();
        has_fault(&rt, rt.alloc(), text, field(row, 1), field(row, 2))?;
    }
    has_fault(&rt, rt.alloc(), PORTER.as_bytes(), "stem", "")?;
    has_fault(&rt, rt.alloc(), b"\xff", "stem", "23 NotUtf8")
}

/// A text, a part that follows so many times, and the fault.
const LONG: &[(&str, &str, usize, &str)] = &[
    (SCRIPT_PREFIX, "(", 300_000, "8 TooDeep at 98"),
    ("", " ", 1_048_577, "24 ScriptTooLong"),
    ("", " ", 1_048_576, "21 NoExternal"),
];

#[test]
fn texts_of_every_depth_and_length_have_an_answer(rt: HostRuntime) -> Result<(), Fail> {
    let alloc = rt.alloc();
    for (prefix, part, count, want) in LONG {
        let text = repeat_part(alloc, prefix, part, *count)?;
        has_fault(&rt, alloc, text.as_bytes(), "stem", want)?;
    }
    Ok(())
}

#[test]
fn every_prefix_of_a_script_has_an_answer(rt: HostRuntime) -> Result<(), Fail> {
    let alloc = rt.alloc();
    let mut text = String::new(alloc);
    for letter in PORTER.chars() {
        let fault = fault_in(alloc, Script::parse(alloc, text.as_bytes(), "stem"))?;
        assert!(rt; fault.as_str() != "49 OutOfMemory", "{text}");
        text.push(letter)?;
    }
    Ok(())
}

#[test]
fn a_script_keeps_what_was_read(rt: HostRuntime) {
    let script = script_of(&rt, rt.alloc(), "externals ( stem ) define stem as next");
    assert_eq!(rt; script.external(), "stem");
    assert_eq!(rt; script.items().len(), 2);
    is_well_declared(&script);
    assert_eq!(rt; script.body().others.len(), 0);
    script.discard();
}

#[test]
fn the_laws_of_trees_and_scripts_are_called(_rt: HostRuntime) {
    one_tree();
    one_fault();
    one_reading();
    one_edit();
    well_declared_passes();
    fault_is_first();
    amongs_are_sound();
    names_resolve();
    substrings_are_paired();
}
