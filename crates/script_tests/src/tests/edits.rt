//! Edits of scripts: why they are refused, and what they make.

use crate::tests::grouping_edits::{GROUPING_EDITS, GROUPING_TEXTS};
use crate::tests::script::{fault_in, repeat_part, script_of};
use crate::tests::script_edits::{AMONG_TEXTS, SCRIPT_EDITS};
use sbl_script::laws::canonical_is_read;
use sbl_script::{Part, Script};
use std::alloc::{AllocError, Global};
use std::process::Abort;
use std::test::Fail;
use test_support::{PLURALS, PORTER, SCRIPT_PREFIX, field, with_line_feeds, with_scripts};

/// The part of a text such as `routine NAME`, `among NAME 2` and `grouping NAME`.
fn part_in(text: &str) -> Part<'_> {
    let (word, name) = text.split_once(' ').unwrap_or((text, ""));
    if word == "routine" {
        return Part::Routine(name);
    }
    match name.split_once(' ') {
        Some((name, number)) => Part::Among(name, number.parse().unwrap_or(0)),
        None => Part::Grouping(name),
    }
}

/// Returns the script of a text. The names of two scripts are texts, too.
fn script_named(rt: &impl Abort, alloc: Global, text: &str) -> Script {
    if text == "PORTER" {
        return script_of(rt, alloc, PORTER);
    }
    if text == "PLURALS" {
        return script_of(rt, alloc, PLURALS);
    }
    let text = with_line_feeds(alloc, text).expect(rt, "memory");
    script_of(rt, alloc, text.as_str())
}

/// Asserts that an edit is refused with this fault, or accepted if the fault is empty.
fn is_refused(rt: &impl Abort, alloc: Global, script: &Script, part: Part, text: &str, want: &str) {
    let taken = script.with(alloc, part, text);
    let fault = fault_in(alloc, taken).expect(rt, "memory");
    assert_eq!(rt; fault.as_str(), want, "{part:?}: {text}");
}

/// An edit of a script, and what is wanted of it.
#[derive(Drop)]
struct Row<'a> {
    script: &'a str,
    part: Part<'a>,
    text: String,
    want: &'a str,
}

/// Returns the rows of a text: what is replaced, the text, and what is wanted.
fn rows_in<'a>(alloc: Global, text: &'a str) -> Result<Vec<Row<'a>>, AllocError> {
    let mut rows = Vec::new(alloc);
    for (script, row) in with_scripts(alloc, text)? {
        rows.push(Row {
            script,
            part: part_in(field(row, 0)),
            text: with_line_feeds(alloc, field(row, 1))?,
            want: field(row, 2),
        })?;
    }
    Ok(rows)
}

/// Asserts that each edit is refused with the fault that is wanted, or accepted.
fn are_refused(rt: &impl Abort, alloc: Global, text: &str) -> Result<(), Fail> {
    for row in &rows_in(alloc, text)? {
        let script = script_named(rt, alloc, row.script);
        is_refused(rt, alloc, &script, row.part, row.text.as_str(), row.want);
        script.discard();
    }
    Ok(())
}

#[test]
fn edits_are_refused_or_accepted(rt: HostRuntime) -> Result<(), Fail> {
    for text in [SCRIPT_EDITS, GROUPING_EDITS] {
        are_refused(&rt, rt.alloc(), text)?;
    }
    Ok(())
}

#[test]
fn depth_counts_from_the_place_and_length_from_the_text(rt: HostRuntime) -> Result<(), Fail> {
    let alloc = rt.alloc();
    let nots = repeat_part(alloc, SCRIPT_PREFIX, "not ", 59)?;
    let deep = format!(in alloc; "{nots}among ( 'a' )")?;
    let long = repeat_part(alloc, "", " ", 1_048_577)?;
    let at_65 = "among ( 'a' ( not not not next ) )";
    let at_64 = "among ( 'a' ( not not next ) )";
    let too_long = "48 24 ScriptTooLong";
    let among = Part::Among("stem", 1);
    let script = script_of(&rt, alloc, deep.as_str());
    is_refused(&rt, alloc, &script, among, at_65, "48 8 TooDeep at 26");
    is_refused(&rt, alloc, &script, among, at_64, "");
    script.discard();
    let script = script_of(
        &rt,
        alloc,
        "externals ( stem ) define stem as among ( 'a' )",
    );
    is_refused(&rt, alloc, &script, among, &long, too_long);
    is_refused(&rt, alloc, &script, Part::Routine("stem"), &long, too_long);
    is_refused(&rt, alloc, &script, among, at_65, "");
    script.discard();
    Ok(())
}

fn canonical_of(rt: &impl Abort, alloc: Global, script: &Script) -> String {
    script.print(alloc).expect(rt, "memory")
}

/// Asserts that a script is read back from its canonical text.
fn is_read_back(rt: &impl Abort, alloc: Global, script: &Script) {
    let text = canonical_of(rt, alloc, script);
    canonical_is_read(script, text.as_str());
    let again = script_of(rt, alloc, text.as_str());
    let again_text = canonical_of(rt, alloc, &again);
    again.discard();
    assert_eq!(rt; text.as_str(), again_text.as_str());
}

/// Asserts that an edit of a script makes the script `after`, or another one: scripts with one canonical text are the same.
fn makes(
    rt: &impl Abort,
    alloc: Global,
    before: &str,
    edit: (Part, &str),
    after: &str,
    want: bool,
) {
    let script = script_named(rt, alloc, before);
    let made = script.with(alloc, edit.0, edit.1).expect(rt, "an edit");
    script.discard();
    is_read_back(rt, alloc, &made);
    let other = script_named(rt, alloc, after);
    let text = canonical_of(rt, alloc, &made);
    let is_same = canonical_of(rt, alloc, &other).as_str() == text.as_str();
    made.discard();
    other.discard();
    assert_eq!(rt; is_same, want, "{edit:?}");
}

/// Asserts what each edit makes: the same script, another one, or the script that is wanted.
fn all_make(rt: &impl Abort, alloc: Global, text: &str) -> Result<(), Fail> {
    for row in &rows_in(alloc, text)? {
        let is_named = row.want == "same" || row.want == "another";
        let after = if is_named { row.script } else { row.want };
        let edit = (row.part, row.text.as_str());
        makes(rt, alloc, row.script, edit, after, row.want != "another");
    }
    Ok(())
}

#[test]
fn an_edit_makes_the_script_with_its_text(rt: HostRuntime) -> Result<(), Fail> {
    all_make(&rt, rt.alloc(), AMONG_TEXTS)?;
    all_make(&rt, rt.alloc(), GROUPING_TEXTS)
}

#[test]
fn a_routine_with_its_own_text_is_the_same(rt: HostRuntime) {
    let alloc = rt.alloc();
    let script = script_of(&rt, alloc, PORTER);
    let text = script.print(alloc).expect(&rt, "memory");
    script.discard();
    let mut routines: u64 = 0;
    for line in text.as_str().split('\n') {
        let Some((prefix, body)) = line.split_once(" as ") else {
            continue;
        };
        let name = prefix.strip_prefix("define ").expect(&rt, "a name");
        let part = Part::Routine(name);
        makes(&rt, alloc, "PORTER", (part, body), "PORTER", true);
        makes(&rt, alloc, "PORTER", (part, "fail true"), "PORTER", false);
        routines = routines.saturating_add(1);
    }
    assert_eq!(rt; routines, 12);
}
