//! sbl_script: trees, parsing and printing, and the faults of a script.

use crate::common::{fault_text, field, parse_body, parse_text};
use sbl_script::{Among, Command, Grouping, Mode, Plain, Script, ScriptItem};
use std::alloc::{AllocError, Global};
use std::test::Fail;

/// The canonical text of a script.
fn print_and_drop(alloc: Global, script: Script) -> Result<String, AllocError> {
    let text = script.print(alloc);
    drop(script);
    text
}

/// A script, and its canonical text.
const LOOSE: &str = "integers(x) groupings(v)externals(stem)// a comment
define v 'ab'+'c' define stem as($x=007 non-v [substring]among('s'(delete)))";

const CANONICAL: &str = "integers ( x )
groupings ( v )
externals ( stem )
define v 'ab' + 'c'
define stem as ( $ x = 7 non - v [ substring ] among ( 's' ( delete ) ) )
";

#[test]
fn the_canonical_text_is_read_as_the_script(rt: HostRuntime) -> Result<(), Fail> {
    for text in [LOOSE, CANONICAL] {
        let script = parse_text(rt.alloc(), text)?;
        let text = print_and_drop(rt.alloc(), script)?;
        assert_eq!(rt; text.as_str(), CANONICAL);
    }
    Ok(())
}

/// The number of groups of an among.
fn groups_of(among: &Among) -> usize {
    among.groups.len()
}

/// What a command is: an among with so many groups, or another.
fn command_text(alloc: Global, command: &Command) -> Result<String, AllocError> {
    match command {
        Command::Among(among) => format!(in alloc; "among of {};", groups_of(among)),
        _ => String::from_str(alloc, "command;"),
    }
}

/// A grouping as its name and the number of its terms.
fn grouping_text(alloc: Global, grouping: &Grouping) -> Result<String, AllocError> {
    let terms = grouping.others.len().saturating_add(1);
    format!(in alloc; "{} of {terms};", grouping.name)
}

/// The groupings, and the first commands of the routines, of these items.
fn tree_text(alloc: Global, items: &[ScriptItem]) -> Result<String, AllocError> {
    let mut text = String::new(alloc);
    for item in items {
        let shown = match item {
            ScriptItem::Plain(Plain::Grouping(grouping)) => grouping_text(alloc, grouping)?,
            ScriptItem::Plain(Plain::Routine { body, .. }) => command_text(alloc, &body.first)?,
            _ => String::from_str(alloc, "item;")?,
        };
        text.push_str(shown.as_str())?;
    }
    Ok(text)
}

#[test]
fn a_tree_is_of_public_types(rt: HostRuntime) -> Result<(), Fail> {
    let alloc = rt.alloc();
    let text =
        "groupings ( v ) externals ( stem ) define v 'ab' + 'c' define stem as among ( 'a' () 'b' () )";
    let script = parse_text(alloc, text)?;
    let shown = tree_text(alloc, script.items());
    drop(script);
    assert_eq!(rt; shown?.as_str(), "item;item;v of 2;among of 2;");
    assert!(rt; Mode::Forward != Mode::Backward);
    Ok(())
}

/// A body, and the fault of the script that runs it. Its text begins at byte 34.
const BODIES: &str = "'ab|2 UnclosedString at 34
( get )|20 OutOfProfile at 36
( next next|7 Syntax at 45
'a' 'b'|7 Syntax at 38
( $x 3 )|20 OutOfProfile at 36
((((((((((((((((((((((((((((((((((((((((((((((((((((((((((((((((next))))))))))))))))))))))))))))))))))))))))))))))))))))))))))))))))|8 TooDeep at 98
nowhere|10 Undeclared in item 2
set stem|11 WrongKind in item 2
next define stem as next|12 DefinedTwice in item 3
substring|15 Substring in item 2
( substring among ( ( next ) 'a' ) )|16 Starter in item 2
among ( 'a' 'b' ( next ) 'a' )|17 RepeatedString in item 2
among ( )|18 EmptyAmong in item 2
backwards ( backwards next )|19 NestedBackwards in item 2
next|";

/// A script, and its fault.
const SCRIPTS: &str = "PLURALS|
externals ( stem ) routines ( stem )|9 DeclaredTwice in item 2
routines ( r ) externals ( stem ) define stem as r|13 Undefined in item 3
routines ( r ) externals ( stem ) backwardmode ( define r as next ) define stem as r|14 WrongMode in item 4
externals ( stem )|21 NoExternal";

#[test]
fn a_script_is_accepted_or_refused_with_its_fault(rt: HostRuntime) -> Result<(), Fail> {
    let alloc = rt.alloc();
    for row in BODIES.split('\n') {
        let fault = fault_text(alloc, parse_body(alloc, field(row, 0)))?;
        assert!(rt; fault.as_str() == field(row, 1), "{row}");
    }
    for row in SCRIPTS.split('\n') {
        let fault = fault_text(alloc, parse_text(alloc, field(row, 0)))?;
        assert!(rt; fault.as_str() == field(row, 1), "{row}");
    }
    Ok(())
}

#[test]
fn bytes_are_a_text_that_is_not_too_long(rt: HostRuntime) -> Result<(), Fail> {
    let alloc = rt.alloc();
    let fault = fault_text(alloc, Script::parse(alloc, &[255], "stem"))?;
    assert_eq!(rt; fault.as_str(), "23 NotUtf8");
    let long = vec![in alloc; b' '; 1_048_577]?;
    let fault = fault_text(alloc, Script::parse(alloc, &long, "stem"))?;
    assert_eq!(rt; fault.as_str(), "24 ScriptTooLong");
    Ok(())
}
