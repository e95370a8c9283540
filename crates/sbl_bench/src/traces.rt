//! The words of a bench, each with its last run, apart from the bench itself.

ghost use Rattle.std.specs.Prelude.{◌≡◌, ◌≤◌, ◌<◌, ◌+◌, ◌^◌, ◌++◌, [], ◌∷◌, false, length, OnOk, OnErr, IfErr};
ghost use Rattle.sbl_ast.specs.Source.{Source};
ghost use Rattle.sbl_machine.specs.MachineOf.{IsLinkedMachineOf};
ghost use Rattle.sbl_bench.specs.Vocabulary.{is_word};
ghost use Rattle.sbl_bench.specs.KeptRuns.{IsWord};
ghost use Rattle.sbl_last_runs.specs.KeptEntries.{words_in};
ghost use Rattle.sbl_bench.specs.inside.KeptEntries.{IsKept};
ghost use Rattle.sbl_last_runs.specs.Pairs.{IsOneMore};
ghost use Rattle.sbl_rows.specs.Setting.{under};
ghost use Rattle.sbl_bench.specs.inside.Stops.{IsStop};

use crate::fault::EditFault;
use sbl_last_runs::{LastRun, Traces};
use sbl_machine::{Machine, Meter, Table};
use std::alloc::Global;

/// Returns whether the word is in the vocabulary. Does not allocate.
pub(crate) fn has_word(traces: &Traces, word: &[char]) -> bool
    ensures { result ≡ is_word word.now (words_in traces.now.entries) }
{
    traces.contains_key(word)
}

// The run of the last word.
fn last_of(traces: &Traces) -> Option<&LastRun> {
    let (_, last) = traces.last()?;
    Some(last)
}

/// Runs a new word once and appends it, with its run, which shares the touches of the run before it if they are the same. Returns
/// `OutOfMemory` if an allocation fails and `MeterFull` if no further run can be counted. Then the words and their runs are
/// unchanged, and after `MeterFull` the count too.
pub(crate) fn put_last(
    alloc: Global,
    machine: &Machine<Table>,
    limit: u32,
    meter: &mut Meter,
    traces: &mut Traces,
    word: Vec<char>,
) -> Result<(), EditFault>
    requires sound { IsWord word.items }
    requires new { is_word word.items (words_in traces.old.entries) ≡ false }
    requires room { length traces.old.entries < 100000 }
    ensures words { OnOk result (words_in traces.new.entries ≡ words_in traces.old.entries ++ word.items ∷ []) }
    ensures kept { OnOk result ((s : Source) → IsLinkedMachineOf machine.now s → IsKept (under s limit) traces.old.entries → IsKept (under s limit) traces.new.entries) }
    ensures more { OnOk result (IsOneMore word.items traces.new.entries traces.old.entries) }
    ensures counted { OnOk result (meter.new ≡ meter.old + 1) }
    ensures err { OnErr result (traces.new.entries ≡ traces.old.entries) }
    ensures stop { IfErr result (λ f. IsStop 1 f meter.old meter.new) }
{
    traces.reserve(1)?;
    let traced = machine.trace(alloc, meter, word.as_slice(), limit)?;
    let last = LastRun::after(alloc, last_of(traces), traced)?;
    traces.insert(word, last).unwrap();
    Ok(())
}
