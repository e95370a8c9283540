//! The strings that the runs of the words of a bench take.

ghost use Rattle.std.specs.Prelude.{map, OnOk, IfOk};
ghost use Rattle.sbl_bench.specs.KeptRuns.{setting_of};
ghost use Rattle.sbl_semantics.specs.Events.{event_of};
ghost use Rattle.sbl_uses.specs.Unused.{takes_at, takes_from, takes_of};
ghost use Rattle.sbl_uses.specs.UnusedViews.{HasTaken, IsUnion, takes_in, texts_of};
ghost use Rattle.sbl_explain.specs.WhyRows.{routine_names};
ghost use Rattle.sbl_uses.specs.Moments.{at_start};

use sbl_bench::Bench;
use sbl_machine::ItemRef;
use sbl_run_state::Event;
use sbl_uses::{Moment, Takes, add_take};
use std::alloc::{AllocError, Global};
use std::collections::BTreeSet;

/// Adds what an event takes. Returns `AllocError` if an allocation fails, or if the number of an among is above `u64::MAX`: no
/// routine has so many.
fn add_event<'a>(
    alloc: Global,
    takes: &mut Takes<'a>,
    bench: &'a Bench,
    moment: &Moment,
    event: &Event,
) -> Result<(), AllocError>
    ensures { OnOk result (IsUnion (takes_in takes.new) (takes_at (routine_names (setting_of bench.now)) moment.now (event_of event.now)) (takes_in takes.old)) }
{
    let Event::Finds(among, Some(length)) = event else {
        return Ok(());
    };
    let Some(number) = (*among as u64).checked_add(1) else {
        return Err(AllocError);
    };
    let name = bench.routine_name(moment.routine());
    let string = Vec::from_slice(alloc, moment.string_taken(*length))?;
    add_take(takes, ItemRef::Among(name, number), string)
}

/// Adds what the events of a run on a word take. Returns `AllocError` as `add_event` does.
fn add_events<'a>(
    alloc: Global,
    takes: &mut Takes<'a>,
    bench: &'a Bench,
    word: &[char],
    events: &[Event],
) -> Result<(), AllocError>
    ensures { OnOk result (IsUnion (takes_in takes.new) (takes_from (routine_names (setting_of bench.now)) (at_start word.now) (map event_of events.now)) (takes_in takes.old)) }
{
    let mut moment = Moment::new(alloc, word)?;
    for event in events {
        add_event(alloc, takes, bench, &moment, event)?;
        moment.pass(event)?;
    }
    Ok(())
}

/// Adds what the run of a word takes. Returns `AllocError` as `add_event` does, or if the word cannot be run.
fn add_word<'a>(
    alloc: Global,
    takes: &mut Takes<'a>,
    bench: &'a Bench,
    word: &[char],
) -> Result<(), AllocError>
    ensures { OnOk result (IsUnion (takes_in takes.new) (takes_of (setting_of bench.now) word.now) (takes_in takes.old)) }
{
    match bench.why(word) {
        Ok(why) => add_events(alloc, takes, bench, word, why.events.as_slice()),
        Err(_) => Err(AllocError),
    }
}

/// Returns what the runs of some words take. Returns `AllocError` as `add_word` does.
pub(crate) fn takes_by_words<'a>(
    alloc: Global,
    bench: &'a Bench,
    words: &[&[char]],
) -> Result<Takes<'a>, AllocError>
    ensures { IfOk result (HasTaken (setting_of bench.now) (texts_of words.now)) }
{
    let mut takes = BTreeSet::new(alloc);
    for word in words {
        add_word(alloc, &mut takes, bench, word)?;
    }
    Ok(takes)
}
