//! Tests of the trees of texts, and of faults of the grammar. tests/cases has more of them.

use crate::tests::script::repeat_part;
use sbl_parser::parse;
use sbl_script::{Command, Plain, ScriptItem};
use sbl_text::{ScriptFault, tokens};
use std::alloc::{AllocError, Global};
use std::process::Abort;
use std::test::Fail;
use test_support::{PLURALS, PORTER, SCRIPT_PREFIX, discard, field};

fn read(alloc: Global, text: &str) -> Result<Vec<ScriptItem>, ScriptFault> {
    let tokens = tokens(alloc, text)?;
    parse(alloc, &tokens, text.len())
}

/// Returns how the body of the first item begins if that is a `non`.
fn non_of(items: &[ScriptItem]) -> &'static str {
    match items.first() {
        Some(ScriptItem::Plain(Plain::Routine { body, .. })) => match &body.first {
            Command::Non { with_minus, .. } => if *with_minus { " non -" } else { " non" },
            _ => "",
        },
        _ => "",
    }
}

/// Returns the number of items and how the first begins, or the fault, as text.
fn items_text(alloc: Global, prefix: &str, body: &str) -> Result<String, AllocError> {
    let text = format!(in alloc; "{prefix}{body}")?;
    match read(alloc, text.as_str()) {
        Ok(items) => {
            let count = items.len();
            let non = non_of(&items);
            discard(items);
            format!(in alloc; "{count}{non}")
        }
        Err(fault) => format!(in alloc; "{fault}"),
    }
}

/// What is before a text, the text, and the number of items with how the first begins, or the fault: an empty script, each form, a
/// minus that is kept after `non`, and first faults.
const TEXTS: &str = "||0
|backwardmode ( )|1
stem|( )|2
stem|next|2
stem|non v|2
stem|non - v|2
stem|next or next and next|2
stem|not test try do fail repeat goto gopast backwards next|2
stem|loop 2 next|2
stem|atleast x - 1 * 2 next|2
stem|( hop 2 atmark - x tomark ( x + 1 ) / 2 )|2
stem|( setmark x set b unset b -> s )|2
stem|( <- 'a' <+ s insert 'a' attach s )|2
stem|setlimit tomark x for ( [ delete ] )|2
stem|( $x = 1 $x += 1 $x -= 1 $x *= 2 $x /= 2 )|2
stem|( $x == 1 $x != 1 $x < 1 $x <= 1 $x > 1 $x >= 1 )|2
stem|$( lenof 'a' + len >= lenof s - cursor * limit / maxint + minint )|2
stem|among ( )|2
stem|among ( ( next ) )|2
stem|among ( ( next ) 'a' 'b' r ( delete ) 'c' ( ) 'd' r 'e' )|2
stem|( substring next tolimit atlimit true false 'a' )|2
|strings ( a b ) integers ( ) define v 'abc' + w - 'x' define w v|4
|define r as non v|1 non
|define r as non - v|1 non -
stem|( next next|7 Syntax at 45
stem|( $x 3 )|20 OutOfProfile at 36
stem|get|7 Syntax at 34";

/// Asserts what is shown of a text.
fn is_shown(
    rt: &impl Abort,
    alloc: Global,
    prefix: &str,
    body: &str,
    want: &str,
) -> Result<(), Fail> {
    let shown = items_text(alloc, prefix, body)?;
    assert!(rt; shown.as_str() == want, "{want}: {shown}");
    Ok(())
}

#[test]
fn texts_are_read_or_have_a_fault(rt: HostRuntime) -> Result<(), Fail> {
    for row in TEXTS.split('\n') {
        let prefix = if field(row, 0) == "stem" {
            SCRIPT_PREFIX
        } else {
            ""
        };
        is_shown(&rt, rt.alloc(), prefix, field(row, 1), field(row, 2))?;
    }
    Ok(())
}

#[test]
fn long_and_deep_texts_are_read_or_have_a_fault(rt: HostRuntime) -> Result<(), Fail> {
    let alloc = rt.alloc();
    is_shown(&rt, alloc, "", PLURALS, "4")?;
    is_shown(&rt, alloc, "", PORTER, "9")?;
    let deep = repeat_part(alloc, "", "(", 100_000)?;
    is_shown(&rt, alloc, SCRIPT_PREFIX, deep.as_str(), "8 TooDeep at 98")
}
