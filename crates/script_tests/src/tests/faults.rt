//! The token of each fault of the checks. Lines and columns were counted by hand.

use sbl_source_map::{Position, place_of_fault, position_of};
use std::alloc::{AllocError, Global};
use std::test::Fail;
use test_support::{field, with_line_feeds};

/// The line and the column of a fault, its token and its text, each after `|`; nothing if it is at no token.
fn shown_in(alloc: Global, text: &str) -> Result<String, AllocError> {
    let Some(place) = place_of_fault(alloc, text.as_bytes())? else {
        return Ok(String::new(alloc));
    };
    let Position { line, column } = position_of(text.as_bytes(), place.begin);
    let token = text.get(place.begin..place.end).unwrap_or("");
    format!(in alloc; "|{line}:{column}|{token}|{}", place.fault)
}

/// A text, the line and column of its fault, the token, and the fault: names in declarations and definitions; names in commands, also
/// an integer as a command; in arithmetic, after strings that are commands; after `non`, `set` and `<-`; strings and conditions of
/// amongs, inside one another, in a group and in a starter, where strings are commands, and with two spellings of one string; words,
/// also if the routine ends, or the parentheses of a group, before an among comes; amongs in backward mode, a condition that is defined
/// in forward mode; columns, which are characters.
const FAULTS: &str =
    "externals ( stem )¶routines ( a stem )¶define stem as true|2:14|stem|9 DeclaredTwice in item 2
externals ( stem )¶define  x as true¶define stem as true|2:9|x|10 Undeclared in item 2
externals ( stem ) integers ( i )¶define i as true|2:8|i|11 WrongKind in item 3
externals ( stem )¶groupings ( g )¶define stem 'a'|3:8|stem|11 WrongKind in item 3
externals ( stem )¶define stem as true¶define stem as false|3:8|stem|12 DefinedTwice in item 3
externals ( stem ) groupings ( v w )¶define v 'aeiou' + w¶define w 'y'¶define stem as true|2:20|w|13 Undefined in item 3
externals ( stem )¶define stem as (¶  do true¶  do Step3¶)|4:6|Step3|10 Undeclared in item 2
externals ( stem ) integers ( i )¶define stem as ( true and i )|2:27|i|11 WrongKind in item 3
externals ( stem ) routines ( r )¶define stem as ( 'r' r )|2:22|r|13 Undefined in item 3
externals ( stem ) routines ( r )¶backwardmode (¶  define r as true¶)¶define stem as ( 'r' or r )|5:25|r|14 WrongMode in item 4
externals ( stem ) integers ( i )¶define stem as ( 'a' $i = i + (2 * -k) )|2:37|k|10 Undeclared in item 3
externals ( stem ) integers ( i )¶define stem as $(i < lenof s)|2:28|s|10 Undeclared in item 3
externals ( stem )¶define stem as non-v|2:20|v|10 Undeclared in item 2
externals ( stem )¶define stem as set b|2:20|b|10 Undeclared in item 2
externals ( stem )¶define stem as ( <- 'a' <- s )|2:28|s|10 Undeclared in item 2
externals ( stem )¶define stem as among ( 'a' 'b' c (delete) 'd' )|2:32|c|10 Undeclared in item 2
externals ( stem )¶define stem as among (¶  'a' ( among ( 'a' 'b' ( 'x' ) ) 'y' )¶  'b' 'a' ( true )¶)|4:7|'a'|17 RepeatedString in item 2
externals ( stem )¶define stem as among (¶  'a' ( 'a' 'a' among ( 'b' ( 'b' ) 'c' 'b' ) )¶)|3:41|'b'|17 RepeatedString in item 2
externals ( stem )¶define stem as ( among ( ( 'a' 'a' ) 'a' ( true ) 'a' ) )|2:51|'a'|17 RepeatedString in item 2
stringescapes {}¶stringdef o' decimal '243'¶externals ( stem )¶define stem as among ( '\u{f3}' 'o' '{o'}' )|4:32|'{o'}'|17 RepeatedString in item 4
externals ( stem ) routines ( r )¶define r as ( [substring] )¶define stem as among ( 'a' )|2:16|substring|15 Substring in item 3
externals ( stem )¶define stem as among ( 'a' ( [substring] ) 'b' ( among ( 'c' ) ) )|2:31|substring|15 Substring in item 2
externals ( stem )¶define stem as ( substring 'a' among ( (true) 'a' ) )|2:32|among|16 Starter in item 2
externals ( stem )¶define stem as ( among ( 'a' ) among ( ) )|2:32|among|18 EmptyAmong in item 2
externals ( stem )¶define stem as backwards ( do backwards true )|2:31|backwards|19 NestedBackwards in item 2
externals ( stem ) routines ( r )¶backwardmode (¶  define r as ( [substring] among ( 'a' 'b' (delete) 'a' ) )¶)¶define stem as backwards r|3:54|'a'|17 RepeatedString in item 3
externals ( stem ) routines ( r )¶backwardmode (¶  define r as ( among ( ) )¶)¶define stem as backwards r|3:17|among|18 EmptyAmong in item 3
externals ( stem ) routines ( r c )¶define c as true¶backwardmode (¶  define r as among ( 'a' 'b' c (delete) )¶)¶define stem as backwards r|4:31|c|14 WrongMode in item 4
externals ( stem ) routines ( r )¶backwardmode (¶  define r as backwards among ( 'a' )¶)¶define stem as true|3:15|backwards|19 NestedBackwards in item 3
externals ( stem )\r¶\tdefine stem as ( '\u{8a9e}' tial )|2:23|tial|10 Undeclared in item 2
externals ( stem ) /* \u{e9}\u{1f600} */ routines ( stem )|1:40|stem|9 DeclaredTwice in item 2";

#[test]
fn a_fault_of_the_checks_is_at_its_token(rt: HostRuntime) -> Result<(), Fail> {
    for row in FAULTS.split('\n') {
        let text = with_line_feeds(rt.alloc(), field(row, 0))?;
        let shown = shown_in(rt.alloc(), text.as_str())?;
        assert_eq!(rt; row.strip_prefix(field(row, 0)), Some(shown.as_str()));
    }
    Ok(())
}

const NONE: &[&str] = &[
    "externals ( stem )\ndefine stem as true",
    // a fault of the external, of the grammar, of the tokens, of the profile
    "routines ( stem )\ndefine stem as true",
    "define stem as ( x",
    "define stem as x 'a",
    "define stem as x size",
];

#[test]
fn no_fault_at_a_token(rt: HostRuntime) -> Result<(), Fail> {
    for text in NONE {
        assert_eq!(rt; shown_in(rt.alloc(), text)?.as_str(), "", "{text}");
    }
    // not UTF-8
    assert_eq!(rt; place_of_fault(rt.alloc(), &[255])?, None);
    Ok(())
}
