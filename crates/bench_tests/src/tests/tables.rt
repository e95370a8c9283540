//! Searches of the strings of an among, and what is printed of a run's faults.

use crate::tests::bench::words_in;
use sbl_ast::Mode;
use sbl_machine::RunFault::{Cursor, Depth, Divide, Integer, Slice, Steps, TooLong};
use sbl_machine::{AmongSearch, LinkedTable, PlainTable, RunStop};
use std::alloc::{AllocError, Global};
use std::process::Abort;
use std::test::Fail;
use test_support::{field, is_as_row, letters, number, print_values};

/// The direction, the strings, the text, where in it the strings are looked for and the limit; the longest string that is there, and for
/// each string the next shorter one. No string but a prefix, or backwards a suffix, is a shorter one.
const TABLES: &str = "forwards|a,abc,ab|abd|0|3|Some(2)|None;Some(2);Some(0);
backwards|s,es|boxes|5|0|Some(1)|None;Some(0);
backwards|s,es|boxes|5|4|Some(0)|None;Some(0);
forwards|||0|0|Some(0)|None;
forwards|a,b||0|0|None|None;None;";

/// The table of a row.
fn table_of<S: AmongSearch>(alloc: Global, row: &str) -> Result<S, AllocError> {
    let strings = words_in(alloc, field(row, 1))?;
    let mode = match field(row, 0) {
        "forwards" => Mode::Forward,
        _ => Mode::Backward,
    };
    S::build(alloc, &strings, mode)
}

/// For each of these strings the next shorter one.
fn shorter_ones<S: AmongSearch>(
    alloc: Global,
    table: &S,
    strings: &str,
) -> Result<String, AllocError> {
    let mut text = String::new(alloc);
    for (at, _) in strings.split(',').enumerate() {
        let shorter = table.next_shorter(at);
        text.push_str(format!(in alloc; "{shorter:?};")?.as_str())?;
    }
    Ok(text)
}

/// What a search of a row finds.
fn finds<S: AmongSearch>(alloc: Global, table: &S, row: &str) -> Result<String, AllocError> {
    let text = letters(alloc, field(row, 2))?;
    let at = (number(row, 3) as usize).min(text.len());
    let bound = (number(row, 4) as usize).min(text.len());
    let longest = table.longest(&text, at, bound);
    let shorter = shorter_ones(alloc, table, field(row, 1))?;
    format!(in alloc; "{longest:?}|{shorter}")
}

/// Builds the table of each row, and asserts what it finds.
fn ask_tables<S: AmongSearch>(rt: &impl Abort, alloc: Global) -> Result<(), Fail> {
    for row in TABLES.split('\n') {
        let table: S = table_of(alloc, row)?;
        let shown = finds(alloc, &table, row);
        drop(table);
        let shown = shown?;
        assert!(rt; is_as_row(row, 5, shown.as_str()), "{row}: {shown}");
    }
    Ok(())
}

#[test]
fn a_table_finds_the_longest_and_then_the_next_shorter(rt: HostRuntime) -> Result<(), Fail> {
    ask_tables::<PlainTable>(&rt, rt.alloc())?;
    ask_tables::<LinkedTable>(&rt, rt.alloc())
}

#[test]
fn faults_of_runs_are_printed_with_their_numbers(rt: HostRuntime) -> Result<(), Fail> {
    let faults = [Steps, Depth, Slice, Cursor, Integer, Divide, TooLong];
    let want = "60 Steps;61 Depth;62 Slice;63 Cursor;64 Integer;65 Divide;66 TooLong;";
    assert_eq!(rt; print_values(rt.alloc(), &faults)?.as_str(), want);
    let stop = print_values(rt.alloc(), &[RunStop::MeterFull])?;
    assert_eq!(rt; stop.as_str(), "50 MeterFull;");
    Ok(())
}
