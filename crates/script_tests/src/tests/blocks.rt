//! The place of a fault in a block. Offsets were counted by hand.

use sbl_script::Part;
use sbl_source_map::{ScriptFault, cut_at_part, offset_in_block};
use std::alloc::{AllocError, Global};
use std::process::Abort;
use std::test::Fail;

const UNDECLARED: ScriptFault = ScriptFault::Undeclared { item: 3 };

const REPEATED: ScriptFault = ScriptFault::RepeatedString { item: 3 };

/// A body of `r`, a fault, and its offset in the body.
const BODIES: &[(&str, ScriptFault, Option<usize>)] = &[
    ("( do true do x )", UNDECLARED, Some(13)),
    ("x", UNDECLARED, Some(0)),
    // a condition, and the string after it that is there twice
    ("among ( 'a' y (delete) 'b' )", UNDECLARED, Some(12)),
    ("among ( 'a' r (delete) 'b' 'a' )", REPEATED, Some(27)),
    // a string of an among in the command of another
    (
        "among ( 'a' ( 'b' [ among ( 'b' 'c' 'b' () ) ] ) )",
        REPEATED,
        Some(36),
    ),
    // the text has another fault, or none
    ("( do x )", ScriptFault::Undeclared { item: 4 }, None),
    ("( do true )", UNDECLARED, None),
    // a fault with a place of its own
    ("( do true", ScriptFault::Syntax { place: 9 }, Some(9)),
];

/// A block between two parts of the body of `stem`: the fault is before it, after it, or right after it.
const BLOCKS: &[(&str, &str, &str)] = &[
    ("( x do ", "true", " )\n"),
    ("( do ", "true", " x )\n"),
    ("( do ", "true ", "x )\n"),
];

#[test]
fn a_fault_of_the_checks_is_at_its_token_in_the_block(rt: HostRuntime) -> Result<(), Fail> {
    let prefix = b"externals ( stem )\nroutines ( r )\ndefine r as ";
    for (body, fault, want) in BODIES {
        let after = b"\ndefine stem as r\n";
        let offset = offset_in_block(rt.alloc(), prefix, body.as_bytes(), after, *fault)?;
        assert_eq!(rt; offset, *want, "{body}");
    }
    Ok(())
}

#[test]
fn a_fault_outside_the_block_is_at_no_offset(rt: HostRuntime) -> Result<(), Fail> {
    let alloc = rt.alloc();
    for (before, block, after) in BLOCKS {
        let prefix = format!(in alloc; "externals ( stem )\ndefine stem as {before}")?;
        let (prefix, block, after) = (prefix.as_bytes(), block.as_bytes(), after.as_bytes());
        let fault = ScriptFault::Undeclared { item: 2 };
        let offset = offset_in_block(alloc, prefix, block, after, fault)?;
        assert_eq!(rt; offset, None, "{before}");
    }
    Ok(())
}

fn part_in<'a>(
    alloc: Global,
    text: &'a str,
    part: Part<'_>,
) -> Result<Option<&'a [u8]>, AllocError> {
    Ok(match cut_at_part(alloc, text, part)? {
        Some(cut) => Some(cut.part),
        None => None,
    })
}

const TEXT: &str =
    "externals ( stem )\nroutines ( r )\ngroupings ( v r2 )\nbackwardmode (\n  define r as ( among ( 'a' ( among ( 'b' ( ) ) ) ) or true )\n)\ndefine v 'a' + 'e'\ndefine stem as ( do among ( 'define r as' ( ) ) )";

const PARTS: &[(Part, Option<&str>)] = &[
    (
        Part::Routine("r"),
        Some("( among ( 'a' ( among ( 'b' ( ) ) ) ) or true )"),
    ),
    (
        Part::Among("r", 1),
        Some("among ( 'a' ( among ( 'b' ( ) ) ) )"),
    ),
    (Part::Among("r", 2), Some("among ( 'b' ( ) )")),
    (Part::Among("r", 3), None),
    (Part::Among("r", 0), None),
    (Part::Among("stem", 1), Some("among ( 'define r as' ( ) )")),
    (Part::Grouping("v"), Some("'a' + 'e'")),
    (Part::Grouping("r"), None),
    (Part::Routine("v"), None),
    (Part::Routine("none"), None),
];

#[test]
fn a_text_is_cut_at_a_part(rt: HostRuntime) -> Result<(), Fail> {
    for (part, want) in PARTS {
        let cut = part_in(rt.alloc(), TEXT, *part)?;
        assert_eq!(rt; cut, want.map(|part| part.as_bytes()), "{part:?}");
    }
    Ok(())
}

const ITEMS: &[&str] = &[
    "strings ( t )",
    "integers ( n )",
    "booleans ( b )",
    "routines ( s )",
    "externals ( e )",
    "groupings ( w )",
    "define s as true",
    "backwardmode ( )",
    "stringescapes {}",
    "stringdef m 'x'",
];

/// Asserts that a body and terms end before this item.
fn ends_before(rt: &impl Abort, alloc: Global, item: &str) -> Result<(), Fail> {
    let text = format!(in alloc; "define r as ( next or true ) {item} define v 'a' + 'e' {item}")?;
    let body = part_in(alloc, text.as_str(), Part::Routine("r"))?;
    assert!(rt; body == Some(b"( next or true )".as_slice()), "{item}");
    let terms = part_in(alloc, text.as_str(), Part::Grouping("v"))?;
    assert!(rt; terms == Some(b"'a' + 'e'".as_slice()), "{item}");
    Ok(())
}

#[test]
fn a_part_ends_before_the_next_item(rt: HostRuntime) -> Result<(), Fail> {
    for item in ITEMS {
        ends_before(&rt, rt.alloc(), item)?;
    }
    Ok(())
}
