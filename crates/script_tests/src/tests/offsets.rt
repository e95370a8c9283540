//! The byte offset of a fault. Offsets were counted by hand.

use sbl_source_map::{ScriptFault, offset_of_fault};
use std::test::Fail;

const STEPS: &str = "externals ( stem )\ndefine stem as (\n  do true\n  do Step3\n)";

const TWICE: &str = "externals ( stem )\nroutines ( stem )\ndefine stem as x";

const OFFSETS: &[(&str, ScriptFault, Option<usize>)] = &[
    // a fault with an item is at its token
    (STEPS, ScriptFault::Undeclared { item: 2 }, Some(51)),
    // faults that the text does not have: another item, another kind
    (STEPS, ScriptFault::Undeclared { item: 1 }, None),
    (STEPS, ScriptFault::WrongKind { item: 2 }, None),
    (STEPS, ScriptFault::NestedBackwards { item: 2 }, None),
    // only the first fault is at a token
    (TWICE, ScriptFault::DeclaredTwice { item: 2 }, Some(30)),
    (TWICE, ScriptFault::Undeclared { item: 3 }, None),
    // a fault with a place is there
    (
        "define stem as ( x",
        ScriptFault::Syntax { place: 18 },
        Some(18),
    ),
    (
        "? define stem as true",
        ScriptFault::BadCharacter { place: 0 },
        Some(0),
    ),
    // also if the checks find another fault in the text
    (
        "externals ( stem ) define stem as x",
        ScriptFault::OutOfProfile { place: 3 },
        Some(3),
    ),
    // others are at no offset
    (
        "routines ( stem )\ndefine stem as true",
        ScriptFault::NoExternal,
        None,
    ),
    (
        "externals ( stem ) define stem as x",
        ScriptFault::NoExternal,
        None,
    ),
    (
        "externals ( stem ) define stem as x",
        ScriptFault::OutOfMemory,
        None,
    ),
    (
        "externals ( stem ) define stem as x",
        ScriptFault::ScriptTooLong,
        None,
    ),
];

#[test]
fn a_fault_is_at_its_offset(rt: HostRuntime) -> Result<(), Fail> {
    for (text, fault, want) in OFFSETS {
        let offset = offset_of_fault(rt.alloc(), text.as_bytes(), *fault)?;
        assert_eq!(rt; offset, *want, "{fault}: {text}");
    }
    // not UTF-8
    for fault in [ScriptFault::NotUtf8, ScriptFault::Undeclared { item: 1 }] {
        assert_eq!(rt; offset_of_fault(rt.alloc(), &[255], fault)?, None);
    }
    Ok(())
}
