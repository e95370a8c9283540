//! sbl_script: the three edits of a script, and why they are refused.

use crate::common::{fault_text, field, parse_text};
use sbl_script::{EditFault, Script};
use std::alloc::{AllocError, Global};
use std::test::Fail;

/// Makes an edit: of `routine NAME`, `among NAME K` or `grouping NAME`.
fn edit_script(
    alloc: Global,
    script: &Script,
    part: &str,
    text: &str,
) -> Result<Script, EditFault> {
    let (word, name) = part.split_once(' ').unwrap_or((part, ""));
    match word {
        "routine" => script.with_routine(alloc, name, text),
        "grouping" => script.with_grouping(alloc, name, text),
        _ => {
            let (routine, k) = name.split_once(' ').unwrap_or((name, ""));
            script.with_among(alloc, routine, k.parse().unwrap_or(0), text)
        }
    }
}

/// A script, what is replaced, the text, and the fault. An item is the one that is replaced.
const EDITS: &str = "PLURALS|routine last|true|
PLURALS|routine nope|true|45 NoRoutine
PLURALS|routine tail|nowhere|48 10 Undeclared in item 4
PLURALS|routine tail||48 7 Syntax at 0
PLURALS|among tail 1|among ( 's' () )|
PLURALS|among tail 0|among ( 's' () )|46 NoAmong
PLURALS|among tail 2|among ( 's' () )|46 NoAmong
PLURALS|among nope 1|among ( 's' () )|45 NoRoutine
PLURALS|among tail 1|among ( 's' (among ( 'e' (delete) )) )|47 AmongCount
GROUPINGS|grouping w|v + 'b'|
GROUPINGS|grouping stem|'a'|53 NoGrouping
GROUPINGS|grouping v|w|48 13 Undefined in item 3
GROUPINGS|grouping w||48 7 Syntax at 0";

#[test]
fn edits_of_a_script_are_made_or_refused(rt: HostRuntime) -> Result<(), Fail> {
    let alloc = rt.alloc();
    for row in EDITS.split('\n') {
        let script = parse_text(alloc, field(row, 0))?;
        let made = edit_script(alloc, &script, field(row, 1), field(row, 2));
        drop(script);
        let fault = fault_text(alloc, made)?;
        assert!(rt; fault.as_str() == field(row, 3), "{row}: {fault}");
    }
    Ok(())
}

/// The canonical texts of a script before and after an edit, and again of the script that was edited.
fn print_edit(alloc: Global, text: &str, part: &str, new: &str) -> Result<(String, String), Fail> {
    let script = parse_text(alloc, text)?;
    let made = print_result(edit_script(alloc, &script, part, new), alloc);
    let kept = script.print(alloc);
    drop(script);
    Ok((made?, kept?))
}

/// The canonical text of an edit.
fn print_result(made: Result<Script, EditFault>, alloc: Global) -> Result<String, EditFault> {
    let script = made?;
    let text: Result<String, AllocError> = script.print(alloc);
    drop(script);
    Ok(text?)
}

/// The canonical texts of a script with two groupings, and of the same with another second grouping.
const GROUPED: &str = "groupings ( v w )
externals ( stem )
define v 'ae'
define w v + 'y'
define stem as ( [ ( 'x' w ) or v ] delete )
";

const REGROUPED: &str = "groupings ( v w )
externals ( stem )
define v 'ae'
define w v + 'b'
define stem as ( [ ( 'x' w ) or v ] delete )
";

const REWRITTEN: &str = "groupings ( v w )
externals ( stem )
define v 'ae'
define w v + 'y'
define stem as next
";

#[test]
fn an_edit_leaves_the_script_alone(rt: HostRuntime) -> Result<(), Fail> {
    let alloc = rt.alloc();
    let (made, kept) = print_edit(alloc, "GROUPINGS", "grouping w", "v + 'b'")?;
    assert!(rt; made.as_str() == REGROUPED && kept.as_str() == GROUPED);
    let (made, kept) = print_edit(alloc, "GROUPINGS", "routine stem", "next")?;
    assert!(rt; made.as_str() == REWRITTEN && kept.as_str() == GROUPED);
    Ok(())
}
