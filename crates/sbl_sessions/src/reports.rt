//! Reports of a bench on request of a session.
ghost use Rattle.std.specs.Prelude.{◌≡◌, IfOk, decimal};
ghost use Rattle.std.specs.List.{find};
ghost use Rattle.std.specs.Option.{option_map};
ghost use Rattle.std.specs.Str.{bytes_eq, chars};
ghost use Rattle.sbl_bench.specs.{Contents.rows_now, KeptRuns.contents_of};
ghost use Rattle.sbl_rows.specs.Rows.{view_row};
ghost use Rattle.sbl_machine.specs.ItemRefs.{items_of_refs};
ghost use Rattle.sbl_print.specs.Canonical.{canonical};
ghost use Rattle.sbl_sessions.specs.{Answers.with_line_feed, CommandViews.IsAnswer};
ghost use Rattle.sbl_sessions.specs.inside.SessionParts.{Class, Trace};
ghost use Rattle.sbl_reports.specs.inside.ItemTexts.{items_text};
ghost use Rattle.sbl_reports.specs.Listings as spec;
ghost use Rattle.sbl_reports.specs.inside.ListingParts as parts;

use crate::replies::{Reply, edit_text, report};
use crate::session_edits::{MAX_LOOKED_AT, first_characters};
use sbl_bench::laws::words_fit;
use sbl_bench::{Bench, EditFault, Row};
use sbl_machine::ItemRef;
use sbl_records::{records_text, records_text_in_one_pass};
use sbl_reports::rows_text;
use std::alloc::{AllocError, Global};
use std::collections::BTreeSet;

/// Returns the report of all rows. Returns `AllocError` if an allocation fails.
pub fn stems_text(alloc: Global, bench: &Bench) -> Result<Vec<u8>, AllocError>
    ensures { IfOk result (λ text. text.items ≡ spec.stems_text (contents_of bench.now)) }
{
    rows_text(alloc, bench)
}

/// Lets the bench keep its classes in order, for this report and later ones. If memory for that is refused, the report is made
/// without it.
pub(crate) fn keep_classes(bench: &mut Bench)
    ensures { bench.new ≡ bench.old }
{
    let _kept = bench.keep_classes();
}

/// Returns the report of all classes. Returns `AllocError` if an allocation fails.
pub(crate) fn classes_text(alloc: Global, bench: &Bench) -> Result<Vec<u8>, AllocError>
    ensures { IfOk result (λ text. text.items ≡ spec.classes_text (contents_of bench.now)) }
{
    let classes = bench.classes()?;
    records_text_in_one_pass(alloc, &classes)
}

/// Returns the report of the script: its canonical text. Returns `AllocError` if an allocation fails.
pub(crate) fn script_text(alloc: Global, bench: &Bench) -> Result<Vec<u8>, AllocError>
    ensures { IfOk result (λ text. text.items ≡ canonical (contents_of bench.now).setting.script.items) }
{
    let text = bench.script().print(alloc)?;
    Ok(text.into_bytes())
}

/// Returns the report of the number of runs: the number in decimal, and a line feed. Returns `AllocError` if an allocation
/// fails.
pub(crate) fn runs_text(alloc: Global, bench: &Bench) -> Result<Vec<u8>, AllocError>
    ensures { IfOk result (λ text. text.items ≡ with_line_feed (decimal (contents_of bench.now).count)) }
{
    let count = bench.runs();
    let line = format!(in alloc; "{count}\n")?;
    Ok(line.into_bytes())
}

/// Returns the row of a word, if the word is in the vocabulary. Does not allocate.
fn row_with<'b>(bench: &'b Bench, word: &[char]) -> Option<Row<'b>>
    ensures { option_map view_row result ≡ find (λ row. bytes_eq word.now row.word) (rows_now (contents_of bench.now)) }
{
    bench.row_of(word)
}

/// Returns the report of a word's class, or of its row if its run is refused. Returns `AllocError` if an allocation fails.
fn class_or_row_text(
    alloc: Global,
    bench: &Bench,
    word: &[char],
    row: Row<'_>,
) -> Result<Vec<u8>, AllocError>
    ensures { IfOk result (λ text. text.items ≡ parts.class_or_row_text (contents_of bench.now) word.now (view_row row.entry)) }
{
    match bench.class_of(word)? {
        Some(class) => records_text(alloc, &[class]),
        None => records_text(alloc, &[row]),
    }
}

/// Returns the reply with a word's class, or `no 41 Absent` if the word is not in the vocabulary; the latter does not allocate.
pub(crate) fn class_reply(alloc: Global, bench: &Bench, word: &str) -> Reply
    ensures { IsAnswer (contents_of bench.now) (Class (chars word.now)) result (contents_of bench.now) }
{
    words_fit(bench);
    let mut room = ['\0'; MAX_LOOKED_AT];
    let count = first_characters(word, &mut room);
    let word = &room[..count];
    match row_with(bench, word) {
        Some(row) => report(class_or_row_text(alloc, bench, word, row)),
        None => Reply::Fixed(edit_text(Err(EditFault::Absent))),
    }
}

/// Returns the text of some items: a row for each, in their order. Returns `AllocError` if an allocation fails.
fn items_text(alloc: Global, items: BTreeSet<ItemRef<'_>>) -> Result<Vec<u8>, AllocError>
    ensures { IfOk result (λ text. text.items ≡ items_text (items_of_refs items.entry)) }
{
    let items: Vec<ItemRef<'_>> = items.into_iter().collect(alloc)?;
    records_text(alloc, &items)
}

/// Returns the reply with the items that the run of a word touches, or `no 41 Absent` if the word is not in the vocabulary; the
/// latter does not allocate.
pub(crate) fn trace_reply(alloc: Global, bench: &Bench, word: &str) -> Reply
    ensures { IsAnswer (contents_of bench.now) (Trace (chars word.now)) result (contents_of bench.now) }
{
    words_fit(bench);
    let mut room = ['\0'; MAX_LOOKED_AT];
    let count = first_characters(word, &mut room);
    match bench.touched_refs(&room[..count]) {
        Ok(Some(items)) => report(items_text(alloc, items)),
        Ok(None) => Reply::Fixed(edit_text(Err(EditFault::Absent))),
        Err(refused) => report(Err(refused)),
    }
}
