//! sbl_bench: the rows and classes of a vocabulary, its edits, and why they are refused.

use crate::common::{field, letters, lists, parse_body, parse_text, text_of};
use sbl_bench::{Bench, Class, EditFault, Row, ScriptFault, WordKeys, differences};
use sbl_machine::{Item, Outcome};
use sbl_script::Script;
use std::alloc::{AllocError, Global};
use std::hash::RandomState;
use std::io;
use std::process::Abort;
use std::random::RandomSource;
use std::test::Fail;

/// A bench over the words of a text, which have commas between them.
fn bench_over(alloc: Global, script: &str, words: &str) -> Result<Bench, Fail> {
    let words = lists(alloc, words)?;
    Ok(Bench::open(alloc, parse_text(alloc, script)?, words)?)
}

/// A source that gives the same bytes again and again, so that each run has the same keys.
struct SameBytes;

impl RandomSource for SameBytes {
    fn fill_bytes(&self, buf: &mut [u8]) -> io::Result<()> {
        buf.fill(5);
        Ok(())
    }
}

/// The same bench, with keys of its own.
fn bench_with_keys(alloc: Global, script: &str, words: &str) -> Result<Bench, Fail> {
    let keys = WordKeys::new(RandomState::new(&SameBytes)?);
    let words = lists(alloc, words)?;
    Ok(Bench::open_with_keys(alloc, keys, parse_text(alloc, script)?, words)?)
}

/// A row as `WORD STEM;`, or as `WORD` and the fault.
fn row_text(alloc: Global, row: &Row<'_>) -> Result<String, AllocError> {
    let word = text_of(alloc, row.word)?;
    match row.outcome {
        Outcome::Stem(stem) => {
            let stem = text_of(alloc, stem)?;
            format!(in alloc; "{word} {stem};")
        }
        Outcome::Refused(fault) => format!(in alloc; "{word} {fault};"),
    }
}

/// The texts of values, one after another.
macro_rules! joined {
    ($alloc:ident, $values:expr, $text_of:ident) => {{
        let mut text = String::new($alloc);
        for value in $values {
            text.push_str($text_of($alloc, value)?.as_str())?;
        }
        text
    }};
}

/// The rows of a bench.
fn rows_text(alloc: Global, bench: &Bench) -> Result<String, AllocError> {
    let rows = bench.rows()?;
    Ok(joined!(alloc, &rows, row_text))
}

/// A class as `STEM,WORD,WORD;`.
fn class_text(alloc: Global, class: &Class) -> Result<String, AllocError> {
    let mut text = text_of(alloc, &class.stem)?;
    for word in &class.words {
        text.push(',')?;
        text.push_str(text_of(alloc, word)?.as_str())?;
    }
    text.push(';')?;
    Ok(text)
}

/// The classes of a bench.
fn classes_text(alloc: Global, bench: &Bench) -> Result<String, AllocError> {
    let classes = bench.classes()?;
    Ok(joined!(alloc, &classes, class_text))
}

/// The class of a word, `none` if there is none.
fn class_of_text(alloc: Global, bench: &Bench, word: &str) -> Result<String, AllocError> {
    match bench.class_of(&letters(alloc, word)?)? {
        Some(class) => class_text(alloc, &class),
        None => String::from_str(alloc, "none"),
    }
}

/// The name of an item, with the number of an among, and a semicolon.
fn item_text(alloc: Global, item: &Item) -> Result<String, AllocError> {
    match item {
        Item::Routine(name) | Item::Grouping(name) => format!(in alloc; "{name};"),
        Item::Among(name, k) => format!(in alloc; "{name} {k};"),
    }
}

/// The names of the routines that a word touched, `none` if the word is not there.
fn touched_text(alloc: Global, bench: &Bench, word: &str) -> Result<String, AllocError> {
    let Some(items) = bench.touched(&letters(alloc, word)?)? else {
        return String::from_str(alloc, "none");
    };
    Ok(joined!(alloc, items.iter(), item_text))
}

/// The items in which a script differs from that of a text, each with a semicolon; `more` if they differ in more.
fn differences_text(alloc: Global, script: &Script, other: &str) -> Result<String, Fail> {
    let other = parse_text(alloc, other)?;
    let differing = differences(alloc, script, &other);
    drop(other);
    let Some(items) = differing? else {
        return Ok(String::from_str(alloc, "more")?);
    };
    Ok(joined!(alloc, &items, item_text))
}

/// Two scripts, and the items in which they differ.
const DIFFERING: &str = "PLURALS|PLURALS|
PLURALS|PREFIXES|more
PREFIXES|externals ( stem ) define stem as ( [ among ( 'un' () 'in' () ) ] delete )|stem 1;
PREFIXES|externals ( stem ) define stem as ( [ among ( 'un' () 're' () ) ] )|stem;
externals ( stem ) define stem as setlimit among ( 'a' ) for among ( 'b' )|externals ( stem ) define stem as setlimit among ( 'a' ) for among ( 'c' )|stem 2;
GROUPINGS|groupings ( v w ) externals ( stem ) define v 'aei' define w v + 'y' define stem as true|v;stem;";

#[test]
fn two_scripts_differ_in_items(rt: HostRuntime) -> Result<(), Fail> {
    let alloc = rt.alloc();
    for row in DIFFERING.split('\n') {
        let script = parse_text(alloc, field(row, 0))?;
        let items = differences_text(alloc, &script, field(row, 1));
        drop(script);
        assert!(rt; items?.as_str() == field(row, 2), "{row}");
    }
    Ok(())
}

/// Asserts the rows, the classes and the count of runs of a bench.
fn shows(
    rt: &impl Abort,
    alloc: Global,
    bench: &Bench,
    rows: &str,
    classes: &str,
    runs: u64,
) -> Result<(), Fail> {
    assert!(rt; rows_text(alloc, bench)?.as_str() == rows, "{rows}");
    assert!(rt;
        classes_text(alloc, bench)?.as_str() == classes,
        "{classes}"
    );
    assert!(rt; bench.runs() == runs, "{runs}");
    Ok(())
}

/// Asserts what a bench over `cats`, `boxes`, `cakes`, `cake`, `dog` shows.
fn asks(rt: &impl Abort, alloc: Global, bench: &Bench) -> Result<(), Fail> {
    let rows = "cats cat;boxes box;cakes cak;cake cak;dog dog;";
    let classes = "box,boxes;cak,cake,cakes;cat,cats;dog,dog;";
    shows(rt, alloc, bench, rows, classes, 5)?;
    assert!(rt; bench.len() == 5);
    assert!(rt; bench.row(5).is_none());
    let row = bench.row(1).expect(rt, "a second row");
    assert!(rt; row_text(alloc, &row)?.as_str() == "boxes box;");
    assert!(rt; class_of_text(alloc, bench, "cakes")?.as_str() == "cak,cake,cakes;");
    assert!(rt; class_of_text(alloc, bench, "cak")?.as_str() == "none");
    assert!(rt; touched_text(alloc, bench, "dog")?.as_str() == "stem;tail;tail 1;");
    assert!(rt; touched_text(alloc, bench, "cak")?.as_str() == "none");
    let printed = bench.script().print(alloc)?;
    assert!(rt;
        printed
            .as_str()
            .starts_with("externals ( stem )\nroutines ( tail last sib )\n")
    );
    Ok(())
}

/// Asks an opened bench, and drops it.
macro_rules! with_bench {
    ($rt:ident, $asked:ident: $opened:ident $script:literal, $words:expr) => {{
        let mut bench = $opened($rt.alloc(), $script, $words)?;
        let done = $asked(&$rt, $rt.alloc(), &mut bench);
        drop(bench);
        done
    }};
}

/// Words with an empty one and a repeat, which are skipped.
const PLURAL_WORDS: &str = "cats,boxes,,cakes,cake,boxes,dog";

#[test]
fn a_bench_has_rows_and_classes(rt: HostRuntime) -> Result<(), Fail> {
    with_bench!(rt, asks: bench_over "PLURALS", PLURAL_WORDS)
}

#[test]
fn a_bench_with_keys_is_the_same(rt: HostRuntime) -> Result<(), Fail> {
    with_bench!(rt, asks: bench_with_keys "PLURALS", PLURAL_WORDS)
}

/// Makes each edit of a word or of the script, and asserts what there is after it.
fn edits(rt: &impl Abort, alloc: Global, bench: &mut Bench) -> Result<(), Fail> {
    let word = ['b', 'o', 'x', 'e', 's'];
    assert!(rt; bench.replace_routine("last", "true") == Ok(()));
    let classes = "box,boxes;cake,cake,cakes;cat,cats;dog,dog;";
    let rows = "cats cat;boxes box;cakes cake;cake cake;dog dog;";
    shows(rt, alloc, bench, rows, classes, 7)?;
    assert!(rt; bench.remove(&word) == Ok(()));
    assert!(rt; bench.add(&word) == Ok(()));
    let rows = "cats cat;cakes cake;cake cake;dog dog;boxes box;";
    shows(rt, alloc, bench, rows, classes, 8)?;
    assert!(rt; bench.replace_among("tail", 1, "among ( 's' () )") == Ok(()));
    let rows = "cats cats;cakes cakes;cake cake;dog dog;boxes boxes;";
    let classes = "boxes,boxes;cake,cake;cakes,cakes;cats,cats;dog,dog;";
    shows(rt, alloc, bench, rows, classes, 13)
}

#[test]
fn a_bench_runs_what_an_edit_concerns(rt: HostRuntime) -> Result<(), Fail> {
    with_bench!(rt, edits: bench_over "PLURALS", "cats,boxes,cakes,cake,dog")
}

/// Asserts what an edit of a grouping, and another limit, give.
fn edits_groupings(rt: &impl Abort, alloc: Global, bench: &mut Bench) -> Result<(), Fail> {
    shows(rt, alloc, bench, "xyb b;ab b;xb xb;", "b,ab,xyb;xb,xb;", 3)?;
    assert!(rt; touched_text(alloc, bench, "ab")?.as_str() == "stem;v;");
    assert!(rt; bench.replace_grouping("w", "v + 'b'") == Ok(()));
    let classes = ",xb;b,ab;xyb,xyb;";
    shows(rt, alloc, bench, "xyb xyb;ab b;xb ;", classes, 5)?;
    assert!(rt; bench.set_limit(1) == Ok(()));
    let rows = "xyb 60 Steps;ab 60 Steps;xb 60 Steps;";
    shows(rt, alloc, bench, rows, "", 8)?;
    assert!(rt; class_of_text(alloc, bench, "ab")?.as_str() == "none");
    Ok(())
}

#[test]
fn a_bench_takes_a_grouping_and_a_limit(rt: HostRuntime) -> Result<(), Fail> {
    with_bench!(rt, edits_groupings: bench_over "GROUPINGS", "xyb,ab,xb")
}

/// Asserts why edits are refused, in the order of the checks.
fn refuses(rt: &impl Abort, alloc: Global, bench: &mut Bench) -> Result<(), Fail> {
    let among = "among ( 's' () )";
    let more = "among ( 's' (among ( 'e' (delete) )) )";
    let undeclared = EditFault::Script(ScriptFault::Undeclared { item: 4 });
    assert!(rt; bench.add(&['d', 'o', 'g']) == Err(EditFault::Present));
    assert!(rt; bench.remove(&['d', 'o']) == Err(EditFault::Absent));
    assert!(rt; bench.add(&[]) == Err(EditFault::EmptyWord));
    assert!(rt; bench.add(&['a'; 256]) == Err(EditFault::WordTooLong));
    assert!(rt; bench.replace_routine("nope", "true") == Err(EditFault::NoRoutine));
    assert!(rt; bench.replace_routine("tail", "nowhere") == Err(undeclared));
    assert!(rt; bench.replace_among("nope", 1, among) == Err(EditFault::NoRoutine));
    assert!(rt; bench.replace_among("tail", 0, among) == Err(EditFault::NoAmong));
    assert!(rt; bench.replace_among("tail", 1, more) == Err(EditFault::AmongCount));
    assert!(rt; bench.replace_grouping("tail", "'a'") == Err(EditFault::NoGrouping));
    assert!(rt; bench.set_limit(0) == Err(EditFault::BadLimit));
    assert!(rt; bench.set_limit(10_000_001) == Err(EditFault::BadLimit));
    shows(rt, alloc, bench, "dog dog;", "dog,dog;", 1)
}

#[test]
fn a_bench_refuses_edits(rt: HostRuntime) -> Result<(), Fail> {
    with_bench!(rt, refuses: bench_over "PLURALS", "dog")
}

/// The fault of a bench that is opened over these words.
fn fault_over(alloc: Global, words: Vec<Vec<char>>) -> Result<Option<EditFault>, Fail> {
    Ok(Bench::open(alloc, parse_body(alloc, "true")?, words).err())
}

#[test]
fn a_bench_is_opened_or_refused(rt: HostRuntime) -> Result<(), Fail> {
    let alloc = rt.alloc();
    assert!(rt; fault_over(alloc, Vec::new(alloc))? == None);
    let mut words = lists(alloc, "a,b")?;
    words.push(vec![in alloc; 'a'; 256]?)?;
    assert!(rt; fault_over(alloc, words)? == Some(EditFault::WordTooLong));
    Ok(())
}
