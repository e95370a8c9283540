//! The words of a bench: refusals, and refused growths. tests/cases has the replies.

use crate::tests::runs::outcome_text;
use sbl_bench::EditFault::{
    Absent, AmongCount, BadLimit, BrokenOff, EmptyWord, Full, MeterFull, NoAmong, NoGrouping,
    NoRoutine, OutOfMemory, Present, WordTooLong,
};
use sbl_bench::{Bench, EditFault, Row, WordKeys};
use sbl_script::{Script, ScriptFault};
use std::alloc::{AllocError, Global};
use std::hash::RandomState;
use std::process::Abort;
use std::test::Fail;
use test_support::{PLURALS, PREFIXES, SameBytes, letters, print_values, text_of, with_line_feeds};

/// The words of a text, which have commas between them.
pub(crate) fn words_in(alloc: Global, text: &str) -> Result<Vec<Vec<char>>, AllocError> {
    let mut words = Vec::new(alloc);
    for word in text.split(',') {
        words.push(letters(alloc, word)?)?;
    }
    Ok(words)
}

/// A bench over this script, with `¶` for a line feed or by its name, and these words.
pub(crate) fn bench_of(alloc: Global, script: &str, words: &str) -> Result<Bench, EditFault> {
    let words = words_in(alloc, words)?;
    let text = if script == "PLURALS" { PLURALS } else { script };
    let text = with_line_feeds(alloc, text)?;
    // The script comes last: on no path is a script or a bench dropped, whose destructors would be proved here again.
    let script = Script::parse(alloc, text.as_str().as_bytes(), "stem")?;
    Bench::open(alloc, script, words)
}

/// Appends a row as `WORD STEM;`, or `WORD` and the fault.
pub(crate) fn push_row(alloc: Global, text: &mut String, row: &Row<'_>) -> Result<(), AllocError> {
    let word = text_of(alloc, row.word)?;
    let outcome = outcome_text(alloc, row.outcome)?;
    text.push_str(format!(in alloc; "{word} {outcome};")?.as_str())
}

/// The rows as `WORD STEM;`.
pub(crate) fn rows_shown(alloc: Global, bench: &Bench) -> Result<String, AllocError> {
    let mut text = String::new(alloc);
    let rows = bench.rows()?;
    for row in &rows {
        push_row(alloc, &mut text, row)?;
    }
    Ok(text)
}

/// Cases as in edits.rt of words that are refused, which change nothing. A word of 255 letters is none of them.
pub(crate) const REFUSED: &[&str] = &[
    "externals ( stem ) define stem as ( [ among ( 'un' () 're' () ) ] delete )
undo
add |42 EmptyWord|undo do;||1
add_a 256|43 WordTooLong|undo do;||1
add undo|40 Present|undo do;||1
add_a 255||?||2",
];

/// Returns the stem that `why` has, or the fault.
fn why_of(alloc: Global, bench: &Bench, word: &[char]) -> Result<String, AllocError> {
    match bench.why(word) {
        Ok(why) => outcome_text(alloc, &why.outcome),
        Err(fault) => format!(in alloc; "{fault}"),
    }
}

/// Asserts which words `why` takes.
fn tells_why(rt: &impl Abort, alloc: Global, bench: &Bench) -> Result<(), Fail> {
    assert!(rt; why_of(alloc, bench, &[])?.as_str() == "42 EmptyWord");
    assert!(rt; why_of(alloc, bench, &['a'; 256])?.as_str() == "43 WordTooLong");
    let word = ['a'; 255];
    assert!(rt; why_of(alloc, bench, &word)? == text_of(alloc, &word)?);
    assert!(rt; bench.routine_name(0) == "stem");
    assert!(rt; bench.routine_name(1) == "");
    assert!(rt; bench.runs() == 1);
    Ok(())
}

#[test]
fn why_takes_any_word_that_fits(rt: HostRuntime) -> Result<(), Fail> {
    let bench = bench_of(rt.alloc(), PREFIXES, "undo")?;
    let done = tells_why(&rt, rt.alloc(), &bench);
    bench.leak();
    done
}

/// Adds a word to an empty bench, and once more where a growth was refused.
fn takes_a_word(rt: &(impl Abort + Print), bench: &mut Bench) -> Result<(), Fail> {
    if let Err(fault) = bench.add(&['r', 'e', 'd', 'o']) {
        println!(rt; "redo was refused")?;
        assert_eq!(rt; fault, EditFault::OutOfMemory);
        assert_eq!(rt; bench.len(), 0);
        assert!(rt; bench.runs() <= 1);
        assert_eq!(rt; bench.add(&['r', 'e', 'd', 'o']), Ok(()));
    }
    assert_eq!(rt; bench.len(), 1);
    assert!(rt; bench.runs() <= 2);
    Ok(())
}

// A refused growth leaves the bench as it was, and the same word is taken afterwards.
#[test]
fn a_refused_growth_changes_nothing(rt: HostRuntime) -> Result<(), Fail> {
    let keys = WordKeys::new(RandomState::new(&SameBytes)?);
    let Ok(script) = Script::parse(rt.alloc(), PREFIXES.as_bytes(), "stem") else {
        println!(rt; "the script was refused")?;
        return Ok(());
    };
    let words = Vec::new(rt.alloc());
    let Ok(mut bench) = Bench::open_with_keys(rt.alloc(), keys, script, words) else {
        println!(rt; "the bench was refused")?;
        return Ok(());
    };
    let taken = takes_a_word(&rt, &mut bench);
    bench.leak();
    taken
}

#[test]
fn faults_are_printed_with_their_numbers(rt: HostRuntime) -> Result<(), Fail> {
    let words = [Present, Absent, EmptyWord, WordTooLong, Full];
    let want = "40 Present;41 Absent;42 EmptyWord;43 WordTooLong;44 Full;";
    assert_eq!(rt; print_values(rt.alloc(), &words)?.as_str(), want);
    let edits = [NoRoutine, NoAmong, AmongCount, NoGrouping, BadLimit];
    let want = "45 NoRoutine;46 NoAmong;47 AmongCount;53 NoGrouping;51 BadLimit;";
    assert_eq!(rt; print_values(rt.alloc(), &edits)?.as_str(), want);
    let undeclared = EditFault::Script(ScriptFault::Undeclared { item: 2 });
    let no_external = EditFault::Script(ScriptFault::NoExternal);
    let others = [undeclared, no_external, OutOfMemory, MeterFull, BrokenOff];
    let want = "48 Undeclared;48 NoExternal;49 OutOfMemory;50 MeterFull;68 BrokenOff;";
    assert_eq!(rt; print_values(rt.alloc(), &others)?.as_str(), want);
    Ok(())
}
