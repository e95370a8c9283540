//! How many words use each part of a script.

ghost use Rattle.std.specs.Prelude.{◌≡◌, ◌++◌, ◌∷◌, [], map, OnOk, IfOk};
ghost use Rattle.sbl_bench.specs.KeptRuns.{setting_of};
ghost use Rattle.sbl_uses.specs.Counts as spec;
ghost use Rattle.sbl_explain.specs.TakeNumbers.{KeepsNumbers};
ghost use Rattle.sbl_uses.specs.UsableViews.{view_usable, view_usables};
ghost use Rattle.sbl_explain.specs.UsableViews.{AreDefined, Defines, next_row, number_for, number_row, number_rows as rows_in, row_for, rows_text};
ghost use Rattle.sbl_explain.specs.Kept.{KeepsWords};

use crate::kept_takes::KeptTakes;
use crate::kept_words::KeptWord;
use crate::take_counts::counts_by_words;
use csv::ByteRecord;
use sbl_bench::Bench;
use sbl_io::push_number;
use sbl_records::{Record, records_text};
use sbl_uses::{TakeCounts, Usable, number_taking, own_item, usables_of};
use std::alloc::{AllocError, Global};

/// A part of a script, and the number of words whose runs use it.
#[derive(Clone, Copy, Debug)]
pub(crate) struct Count<'a> {
    usable: Usable<'a>,
    words: usize,
}

impl Record for Count<'_> {
    ghost fields = { λ count. number_row count };

    fn fill(&self, text: &mut String, csv_record: &mut ByteRecord) -> Result<(), AllocError> {
        self.usable.push_fields(text, csv_record)?;
        push_number(*text.allocator(), csv_record, self.words)
    }
}

/// Returns the number of words whose run uses a part of the script. Returns `AllocError` if an allocation fails.
fn number_using<'a>(
    alloc: Global,
    bench: &Bench,
    taken: &TakeCounts<'a>,
    usable: &Usable<'a>,
) -> Result<usize, AllocError>
    ensures { Defines bench.now (view_usable usable.now) → KeepsNumbers bench.now taken.now → IfOk result (λ n. n ≡ number_for bench.now (view_usable usable.now)) }
{
    match usable {
        Usable::Whole(item) => {
            let rows = bench.rows_meeting(&own_item(alloc, item)?)?;
            Ok(rows.len())
        }
        Usable::Entry(among, string) => number_taking(alloc, taken, among, string),
    }
}

/// Appends a part of the script with its number of words. Returns `AllocError` if an allocation fails.
#[tactic(auto, unfolding(sbl_uses::specs::Counts::count_row))]
fn push_count<'a>(
    alloc: Global,
    counts: &mut Vec<Count<'a>>,
    bench: &Bench,
    taken: &TakeCounts<'a>,
    usable: &Usable<'a>,
) -> Result<(), AllocError>
    ensures { Defines bench.now (view_usable usable.now) → KeepsNumbers bench.now taken.now → OnOk result (rows_in counts.new.items ≡ rows_in counts.old.items ++ next_row bench.now usable.now ∷ []) }
{
    let words = number_using(alloc, bench, taken, usable)?;
    counts.push(Count {
        usable: *usable,
        words,
    })?;
    Ok(())
}

/// Returns parts of the script, each with its number of words. Returns `AllocError` if an allocation fails.
fn counts_of<'a>(
    alloc: Global,
    bench: &Bench,
    taken: &TakeCounts<'a>,
    usables: &[Usable<'a>],
) -> Result<Vec<Count<'a>>, AllocError>
    ensures { AreDefined bench.now (view_usables usables.now) → KeepsNumbers bench.now taken.now → IfOk result (λ counts. rows_in counts.items ≡ map (row_for bench.now) (view_usables usables.now)) }
{
    let mut counts = Vec::with_capacity(alloc, usables.len())?;
    for usable in usables {
        push_count(alloc, &mut counts, bench, taken, usable)?;
    }
    Ok(counts)
}

/// Returns the rows of parts of the script, given what the words take. Returns `AllocError` if an allocation fails.
fn text_of_counts(
    alloc: Global,
    bench: &Bench,
    usables: &[Usable<'_>],
    words: &[KeptWord],
) -> Result<Vec<u8>, AllocError>
    ensures { AreDefined bench.now (view_usables usables.now) → KeepsWords bench.now words.now → IfOk result (λ text. text.items ≡ rows_text bench.now (view_usables usables.now)) }
{
    let taken = counts_by_words(alloc, bench, words)?;
    let counts = counts_of(alloc, bench, &taken, usables)?;
    records_text(alloc, &counts)
}

impl KeptTakes {
    /// Returns a row for each routine, external and grouping of the script, in the order of the text, with the number of words whose
    /// run uses it; after a routine its amongs, by number, and after each among its strings. Runs that are refused count.
    ///
    /// Runs only words that an edit since the last question can concern, or that are not kept. Returns `AllocError` if an allocation
    /// fails.
    pub fn counts_text(&mut self, alloc: Global, bench: &Bench) -> Result<Vec<u8>, AllocError>
        ensures { IfOk result (λ text. text.items ≡ spec.counts_text (setting_of bench.now) bench.now.words) }
    {
        let usables = usables_of(alloc, bench.script())?;
        let words = self.words_now(alloc, bench)?;
        let text = text_of_counts(alloc, bench, &usables, &words)?;
        self.keep(alloc, bench, words)?;
        Ok(text)
    }
}
