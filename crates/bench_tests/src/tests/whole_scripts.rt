//! Whole scripts as edits, with the rows and the count of runs after each.

use std::alloc::{AllocError, Global};
use test_support::field;

const WORDS: &str = "xyb,ab,xb,q,ad";

/// Two groupings are built from `v`. `xyb` tests `u`, `xb` tests `u` and `w`, `q` tests `w`, and `ab` and `ad` test none of them.
/// `ab` and `ad` enter `tail`, and only `ab` searches its among.
const FIRST: &str =
    "groupings ( v w u )¶routines ( head tail )¶externals ( stem )¶define v 'a'¶define w v + 'b'¶define u v + 'y'¶define head as ( [ u ] delete )¶define tail as ( 'd' or ( [ among ( 'b' () 'c' () ) ] delete ) )¶define stem as ( 'x' head ) or ( 'a' tail ) or ( [ non w ] delete )¶";

/// The first script in another layout, with comments.
const LAID_OUT: &str =
    "// the groupings¶groupings(v w u)routines(head tail)externals(stem)¶define v'a' /* and */ define w v+'b'¶define u v+'y' define head as([u]delete)¶define tail as('d'or([among('b'()'c'())]delete))¶define stem as('x'head)or('a'tail)or([non w]delete)";

/// Returns the text with `new` in place of the first `old`.
fn replace_first(alloc: Global, text: &str, old: &str, new: &str) -> Result<String, AllocError> {
    let (prefix, back) = text.split_once(old).unwrap_or(("", ""));
    format!(in alloc; "{prefix}{new}{back}")
}

/// Whole scripts one after another: a text, `first`, `laid out` or `before` for the script before it; a part of it and what is in its place
/// (empty: nothing changes); why it is refused, the rows, and the count of runs. The first two run nothing, the next four what met the
/// items that differ (in a routine, then also in the among of `tail`, then also in a grouping; the first two are taken back). Then two
/// groupings are exchanged and an integer is declared, which run all, and three are refused.
pub(crate) const SCRIPTS: &str = "first||||xyb xb;ab a;xb b;q ;ad ad;|5
laid out||||xyb xb;ab a;xb b;q ;ad ad;|5
first|( [ u ] delete )|( u )||xyb xyb;ab a;xb b;q ;ad ad;|7
before|'b' ()|'b' ( attach 'e' )||xyb xyb;ab ae;xb b;q ;ad ad;|8
before|v 'a'|v 'aq'||xyb xyb;ab ae;xb b;q q;ad ad;|11
first|v 'a'|v 'aq'||xyb xb;ab a;xb b;q q;ad ad;|14
before|define w v + 'b'¶define u v + 'y'¶|define u v + 'y'¶define w v + 'b'¶||xyb xb;ab a;xb b;q q;ad ad;|19
before|define v|integers ( n )¶define v||xyb xb;ab a;xb b;q q;ad ad;|24
define|||48 Syntax|xyb xb;ab a;xb b;q q;ad ad;|24
externals ( other ) define other as next|||48 NoExternal|xyb xb;ab a;xb b;q q;ad ad;|24
|||48 NoExternal|xyb xb;ab a;xb b;q q;ad ad;|24
first||||xyb xb;ab a;xb b;q ;ad ad;|29";

/// A script that is too long changes nothing: the longest has 1,048,576 bytes.
pub(crate) const TOO_LONG: &str = "too long|||48 ScriptTooLong|xyb xb;ab a;xb b;q ;ad ad;|5";

/// Returns the script of a row, after this one.
fn script_in(alloc: Global, before: &str, row: &str) -> Result<String, AllocError> {
    let text = match field(row, 0) {
        "too long" => return " ".repeat(alloc, 1_048_577),
        "first" => FIRST,
        "laid out" => LAID_OUT,
        "before" => before,
        text => text,
    };
    if field(row, 1).is_empty() {
        return String::from_str(alloc, text);
    }
    replace_first(alloc, text, field(row, 1), field(row, 2))
}

/// Returns the case, as in edits.rt, of an edit to this script.
fn line_of(alloc: Global, script: &str, row: &str) -> Result<String, AllocError> {
    let (want, rows, runs) = (field(row, 3), field(row, 4), field(row, 5));
    format!(in alloc; "\nscript {script}|{want}|{rows}|?|{runs}")
}

/// Returns the case, as in edits.rt, of these scripts.
pub(crate) fn case_of(alloc: Global, scripts: &str) -> Result<String, AllocError> {
    let mut case = format!(in alloc; "{FIRST}\n{WORDS}")?;
    let mut script = String::new(alloc);
    for row in scripts.split('\n') {
        script = script_in(alloc, script.as_str(), row)?;
        case.push_str(line_of(alloc, script.as_str(), row)?.as_str())?;
    }
    Ok(case)
}
