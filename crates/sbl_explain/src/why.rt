//! The text of the rows that tell why a word has its stem.
ghost use Rattle.std.specs.Prelude.{◌≡◌, ◌++◌, ◌∷◌, [], IfErr, IfOk, OnOk, None, Some, Err, map, take};
ghost use Rattle.sbl_bench.specs.KeptRuns.{setting_of};
ghost use Rattle.sbl_bench.specs.Whys.{refusal_of_why};
ghost use Rattle.sbl_bench.specs.declared.fault.EditFault.{EditFault as AnyFault};
ghost use Rattle.sbl_semantics.specs.Outcome.{outcome_of};
ghost use Rattle.sbl_io.specs.Records.{records_text};
ghost use Rattle.sbl_semantics.specs.Events.{event_of};
ghost use Rattle.sbl_uses.specs.Moments.{at_start};
ghost use Rattle.sbl_uses.specs.TakesRows.{TakesRows};
ghost use Rattle.sbl_explain.specs.WhyRows as spec;

use crate::event_rows::{push_event, push_more, push_outcome};
use sbl_bench::{Bench, EditFault};
use sbl_io::{Report, ReportLength, ReportText};
use sbl_machine::Why;
use sbl_run_state::Event;
use sbl_uses::{Moment, first};
use std::alloc::{AllocError, Global};

/// No more events than this have a row.
const MAX_EVENTS: usize = 10_000;

/// Appends the lines of events, the first of which is the first of a run on a word. Returns `AllocError` if an allocation fails.
fn push_events<T: Report>(
    alloc: Global,
    out: &mut T,
    bench: &Bench,
    word: &[char],
    events: &[Event],
) -> Result<(), AllocError>
    ensures { OnOk result (TakesRows T.has_taken out.old out.new (spec.rows_from (spec.routine_names (setting_of bench.now)) (at_start word.now) (map event_of events.now))) }
{
    let mut moment = Moment::new(alloc, word)?;
    for event in events {
        push_event(alloc, out, bench, &mut moment, event)?;
    }
    Ok(())
}

/// Appends the lines of a run on a word. Returns `AllocError` if an allocation fails.
fn push_run<T: Report>(
    alloc: Global,
    out: &mut T,
    bench: &Bench,
    word: &[char],
    why: &Why,
) -> Result<(), AllocError>
    ensures { OnOk result (TakesRows T.has_taken out.old out.new (spec.why_rows (spec.routine_names (setting_of bench.now)) word.now (map event_of why.now.events.items) (outcome_of why.now.outcome))) }
{
    let shown = first(why.events.as_slice(), MAX_EVENTS);
    push_events(alloc, out, bench, word, shown)?;
    push_more(alloc, out, why.events.len().saturating_sub(shown.len()))?;
    push_outcome(alloc, out, &why.outcome)
}

/// Returns the lines of a run on a word. Returns `AllocError` if an allocation fails.
fn run_lines(alloc: Global, bench: &Bench, word: &[char], why: &Why) -> Result<Vec<u8>, AllocError>
    ensures { IfOk result (λ text. text.items ≡ records_text (spec.why_rows (spec.routine_names (setting_of bench.now)) word.now (map event_of why.now.events.items) (outcome_of why.now.outcome))) }
{
    let mut length = ReportLength::new();
    push_run(alloc, &mut length, bench, word, why)?;
    let mut out = ReportText::with_length(alloc, &length)?;
    push_run(alloc, &mut out, bench, word, why)?;
    out.into_bytes()
}

/// Returns the rows that tell why a word has its stem, be it in the vocabulary or not: a row for each of the first 10,000 events
/// of a run of the script on the word, a row `more` with the number of the others if there are more, and a row for the outcome.
///
/// # Errors
///
/// Returns `EmptyWord` if the word has no character, `WordTooLong` if it has more than 255, and `OutOfMemory` if an allocation
/// fails.
pub fn why_text(alloc: Global, bench: &Bench, word: &[char]) -> Result<Vec<u8>, EditFault>
    ensures rows { IfOk result (λ text. text.items ≡ spec.why_text (setting_of bench.now) word.now) }
    ensures refused { (f : AnyFault) → refusal_of_why word.now ≡ Some f → result ≡ Err f }
    ensures memory { refusal_of_why word.now ≡ None → IfErr result (λ f. f ≡ EditFault.OutOfMemory) }
{
    let why = bench.why(word)?;
    Ok(run_lines(alloc, bench, word, &why)?)
}
