//! Runs of scripts over words, on both searches.

ghost use Rattle.std.specs.Prelude.{◌≤◌, length, IfOk};
ghost use Rattle.sbl_semantics.specs.Limit.{max_word_length};

use crate::tests::amongs::AMONGS;
use crate::tests::control::CONTROL;
use crate::tests::slices::{SLICES, STEMS};
use crate::tests::touched::touches;
use crate::tests::whys::does;
use sbl_machine::{AmongSearch, LinkedTable, Machine, Meter, Outcome, PlainTable, RunStop};
use sbl_script::{Script, ScriptFault};
use std::alloc::{AllocError, Global};
use std::process::Abort;
use std::test::Fail;
use test_support::{PLURALS, field, letters, text_of, with_line_feeds, with_scripts};

/// The machine of a script, with a search.
pub(crate) fn machine_of<S: AmongSearch>(
    alloc: Global,
    script: Script,
) -> Result<Machine<S>, AllocError> {
    let machine = Machine::new(alloc, &script);
    script.discard();
    machine
}

/// The machine of a text. The name of a script is a text, too.
fn machine_named<S: AmongSearch>(alloc: Global, text: &str) -> Result<Machine<S>, ScriptFault> {
    let text = if text == "PLURALS" { PLURALS } else { text };
    let text = with_line_feeds(alloc, text)?;
    let script = Script::parse(alloc, text.as_bytes(), "stem")?;
    Ok(machine_of(alloc, script)?)
}

/// The word of a row, which is its first field.
fn word_in(rt: &impl Abort, alloc: Global, row: &str) -> Result<Vec<char>, AllocError>
    ensures { IfOk result (λ word. length word.items ≤ max_word_length) }
{
    let word = letters(alloc, field(row, 0))?;
    assert!(rt; word.len() <= 255);
    Ok(word)
}

/// A stem, or a fault.
pub(crate) fn outcome_text(alloc: Global, outcome: &Outcome) -> Result<String, AllocError> {
    match outcome {
        Outcome::Stem(stem) => text_of(alloc, stem.as_slice()),
        Outcome::Refused(fault) => format!(in alloc; "{fault}"),
    }
}

/// The sign before the text of an outcome: `!` if it is a fault.
pub(crate) fn sign_of(outcome: &Outcome) -> &'static str {
    match outcome {
        Outcome::Stem(_) => "",
        Outcome::Refused(_) => "!",
    }
}

/// Makes one run. Returns what it gives and the steps that it uses; and whether the meter counts it once.
fn runs<S: AmongSearch>(
    alloc: Global,
    machine: &Machine<S>,
    meter: &mut Meter,
    word: &[char],
    limit: u32,
) -> Result<(String, bool), RunStop>
    requires { length word.now ≤ max_word_length }
{
    let ran = machine.run(alloc, meter, word, limit)?;
    let (sign, used) = (sign_of(&ran.outcome), ran.used);
    let outcome = outcome_text(alloc, &ran.outcome)?;
    let text = format!(in alloc; "{sign}{outcome}|{used};")?;
    Ok((text, meter.count() == 1))
}

/// What is asked of a machine about each row.
#[derive(Clone, Copy)]
pub(crate) enum Asked {
    Outcome,
    Items,
    Events,
}

/// Asks a machine about a word, with a new meter. Returns the answer, and whether all runs agree. No other function here has a meter,
/// and it is dropped by a call, since the prover takes it apart on each path that drops it without one.
pub(crate) fn answer<S: AmongSearch>(
    alloc: Global,
    machine: &Machine<S>,
    word: &[char],
    limit: u32,
    asked: Asked,
) -> Result<(String, bool), RunStop>
    requires { length word.now ≤ max_word_length }
{
    let mut meter = Meter::new();
    let answer = match asked {
        Asked::Outcome => runs(alloc, machine, &mut meter, word, limit),
        Asked::Items => touches(alloc, machine, word, limit, &mut meter),
        Asked::Events => does(alloc, &mut meter, machine, word, limit),
    };
    drop(meter);
    answer
}

/// Asks a machine about a row: the word, the limit of steps (empty: 100,000), and how the answer begins.
fn ask_row<S: AmongSearch>(
    rt: &impl Abort,
    alloc: Global,
    asked: Asked,
    machine: &Machine<S>,
    row: &str,
) -> Result<(), Fail> {
    let word = word_in(rt, alloc, row)?;
    let limit = field(row, 1).parse().unwrap_or(100_000);
    let (answer, agree) = answer(alloc, machine, &word, limit, asked)?;
    let shown = format!(in alloc; "{}|{}|{answer}", field(row, 0), field(row, 1))?;
    assert!(rt; agree && shown.as_str().starts_with(row), "{row}: {shown}");
    Ok(())
}

/// Asks machines, with a search, about rows. On no path is a machine dropped, whose destructors would be proved here again.
pub(crate) fn ask<S: AmongSearch>(
    rt: &impl Abort,
    alloc: Global,
    asked: Asked,
    rows: &str,
) -> Result<(), Fail> {
    for (script, row) in with_scripts(alloc, rows)? {
        let machine: Machine<S> = machine_named(alloc, script)?;
        let done = ask_row(rt, alloc, asked, &machine, row);
        machine.discard();
        done?;
    }
    Ok(())
}

#[test]
fn runs_give_stems_or_are_refused(rt: HostRuntime) -> Result<(), Fail> {
    for rows in [AMONGS, CONTROL, SLICES, STEMS] {
        ask::<PlainTable>(&rt, rt.alloc(), Asked::Outcome, rows)?;
        ask::<LinkedTable>(&rt, rt.alloc(), Asked::Outcome, rows)?;
    }
    Ok(())
}
