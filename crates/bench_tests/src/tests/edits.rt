//! Edits of a bench, with the rows, the changes and the count of runs after each. Sessions of edits are in tests/cases.

use crate::tests::bench::{REFUSED, bench_of, push_row, rows_shown, words_in};
use crate::tests::breaks::{BREAKS, break_edit};
use crate::tests::groupings::GROUPINGS;
use crate::tests::limits::{LIMITS, SET};
use crate::tests::whole_scripts::{SCRIPTS, TOO_LONG, case_of};
use sbl_bench::{Bench, EditFault, Row};
use std::alloc::{AllocError, Global};
use std::process::Abort;
use std::test::Fail;
use test_support::{field, is_as_row, letters, number, with_line_feeds};

/// A case has the script, the words with commas between them, and edits one after another, each on a line: the edit, why it is refused
/// (empty if it is accepted), the rows and the changes after it (`?`: not asked), and the count of runs (empty: not asked). A `¶` is
/// a line feed in a script. With the among of the first edit, `tail` takes nothing off. All five words run again, and those that end in
/// `s` get another stem. A word that is added or removed changes no outcome, nor does a list of words, and a refused edit leaves what there is. A refusal that
/// becomes another one is a change, and one that stays the same is none.
const CHANGES: &[&str] = &[
    "PLURALS
cats,boxes,cakes,cake,dog
among tail 1 among ( 's' () )||cats cats;boxes boxes;cakes cakes;cake cak;dog dog;|cats cat;cats cats;boxes box;boxes boxes;cakes cak;cakes cakes;|10
add dog|40 Present|?|cats cat;cats cats;boxes box;boxes boxes;cakes cak;cakes cakes;|10
add s||?||11
routine last true||?|cake cak;cake cake;|
remove s||?||",
    "PLURALS
cats,dog
words boxes,cats,,boxes||boxes box;cats cat;||3
words dog,cats||dog dog;cats cat;||4
words cats,dog||cats cat;dog dog;||4",
    "integers ( x )¶externals ( stem )¶define stem as $x = maxint + 1
ab
routine stem $x = 1 / 0||ab 65 Divide;|ab 64 Integer;ab 65 Divide;|2
routine stem $x = 2 / 0||ab 65 Divide;||3",
];

/// Adds a word, or removes it.
fn change_word(alloc: Global, bench: &mut Bench, verb: &str, word: &str) -> Result<(), EditFault> {
    let word = letters(alloc, word)?;
    if verb == "add" {
        bench.add(&word)
    } else {
        bench.remove(&word)
    }
}

/// Replaces an among: its number and its text.
fn replace_among(bench: &mut Bench, name: &str, rest: &str) -> Result<(), EditFault> {
    let (k, text) = rest.split_once(' ').unwrap_or((rest, ""));
    bench.replace_among(name, k.parse().unwrap_or(0), text)
}

/// Makes an edit of a bench. `add_a 3` adds the word `aaa`.
fn make_edit(alloc: Global, bench: &mut Bench, edit: &str) -> Result<(), EditFault> {
    let (verb, rest) = edit.split_once(' ').unwrap_or((edit, ""));
    let (name, text) = rest.split_once(' ').unwrap_or((rest, ""));
    match verb {
        "add" | "remove" => change_word(alloc, bench, verb, rest),
        "add_a" => {
            let word = "a".repeat(alloc, number(rest, 0) as usize)?;
            change_word(alloc, bench, "add", word.as_str())
        }
        "words" => bench.replace_words(&words_in(alloc, rest)?),
        "routine" => bench.replace_routine(name, text),
        "among" => replace_among(bench, name, text),
        "grouping" => bench.replace_grouping(name, text),
        "limit" => bench.set_limit(rest.parse().unwrap_or(0)),
        _ => bench.replace_script(with_line_feeds(alloc, rest)?.as_bytes()),
    }
}

/// Makes an edit of a bench. Returns why it is refused, if it is.
fn fault_of(alloc: Global, bench: &mut Bench, edit: &str) -> Result<String, AllocError> {
    let (made, agrees) = match edit.strip_prefix("break ") {
        Some(edit) => break_edit(alloc, bench, edit),
        None => (make_edit(alloc, bench, edit), true),
    };
    if !agrees {
        return String::from_str(alloc, "a break that was not said");
    }
    match made {
        Ok(()) => Ok(String::new(alloc)),
        Err(fault) => format!(in alloc; "{fault}"),
    }
}

/// The changes of the last edit as `WORD STEM;WORD STEM;`, before and after.
fn changes_shown(alloc: Global, bench: &Bench) -> Result<String, AllocError> {
    let mut text = String::new(alloc);
    let changes = bench.changes()?;
    for change in &changes {
        for outcome in [change.before, change.after] {
            let row = Row {
                word: change.word,
                outcome,
            };
            push_row(alloc, &mut text, &row)?;
        }
    }
    Ok(text)
}

/// The rows, the changes of the last edit, and the count of runs if it is asked.
fn state_of(alloc: Global, bench: &Bench, asks_runs: bool) -> Result<String, AllocError> {
    let rows = rows_shown(alloc, bench)?;
    let changes = changes_shown(alloc, bench)?;
    if !asks_runs {
        return format!(in alloc; "{rows}|{changes}|");
    }
    let runs = bench.runs();
    format!(in alloc; "{rows}|{changes}|{runs}")
}

/// Makes one edit, and asserts what it gives.
fn edits_one(rt: &impl Abort, alloc: Global, bench: &mut Bench, row: &str) -> Result<(), Fail> {
    let fault = fault_of(alloc, bench, field(row, 0))?;
    assert!(rt; fault.as_str() == field(row, 1), "{row}: {fault}");
    let state = state_of(alloc, bench, number(row, 4) != 0)?;
    assert!(rt; is_as_row(row, 2, state.as_str()), "{row}: {state}");
    Ok(())
}

/// Makes one edit after another, in a bench that was just opened: it has no changes.
fn edits(rt: &impl Abort, alloc: Global, bench: &mut Bench, rows: &str) -> Result<(), Fail> {
    assert!(rt; changes_shown(alloc, bench)?.is_empty());
    for row in rows.split('\n') {
        edits_one(rt, alloc, bench, row)?;
    }
    Ok(())
}

/// Tries the edits of a case, and returns the limit at their end.
fn tries(rt: &impl Abort, alloc: Global, case: &str) -> Result<u32, Fail> {
    let (script, rest) = case.split_once('\n').unwrap_or((case, ""));
    let (words, rows) = rest.split_once('\n').unwrap_or((rest, ""));
    let mut bench = bench_of(alloc, script, words)?;
    let done = edits(rt, alloc, &mut bench, rows);
    let limit = bench.limit();
    bench.leak();
    done?;
    Ok(limit)
}

#[test]
fn edits_give_their_rows_changes_and_runs(rt: HostRuntime) -> Result<(), Fail> {
    for cases in [REFUSED, CHANGES, GROUPINGS, LIMITS, BREAKS] {
        for case in cases {
            tries(&rt, rt.alloc(), case)?;
        }
    }
    Ok(())
}

#[test]
fn a_limit_runs_what_used_more_than_the_smaller_one(rt: HostRuntime) -> Result<(), Fail> {
    let limit = tries(&rt, rt.alloc(), SET)?;
    assert_eq!(rt; limit, 100_000);
    Ok(())
}

#[test]
fn a_whole_script_runs_what_met_the_items_that_differ(rt: HostRuntime) -> Result<(), Fail> {
    let alloc = rt.alloc();
    tries(&rt, alloc, case_of(alloc, SCRIPTS)?.as_str())?;
    Ok(())
}

#[test]
fn a_script_that_is_too_long_changes_nothing(rt: HostRuntime) -> Result<(), Fail> {
    let alloc = rt.alloc();
    tries(&rt, alloc, case_of(alloc, TOO_LONG)?.as_str())?;
    Ok(())
}
