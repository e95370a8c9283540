//! The reports of work: figures, and the largest classes.
ghost use Rattle.std.specs.Prelude.{◌≡◌, ◌++◌, IfOk, OnOk};
ghost use Rattle.sbl_bench.specs.KeptRuns.{contents_of};
ghost use Rattle.sbl_rows.specs.Stats.{view_stats};
ghost use Rattle.sbl_io.specs.Records.{record_line, records_text};
ghost use Rattle.sbl_records.specs.FigureRecords.{figure_fields};
ghost use Rattle.sbl_reports.specs.Reports as spec;

use csv::ByteRecord;
use sbl_bench::Bench;
use sbl_io::push_line;
use sbl_records::records_text;
use sbl_rows::{RowStats, largest_classes, stats};
use std::alloc::{AllocError, Global};

/// Appends the line of a figure. Returns `AllocError` if an allocation fails.
fn push_figure(alloc: Global, out: &mut Vec<u8>, name: &str, number: u64) -> Result<(), AllocError>
    ensures { OnOk result (out.new.items ≡ out.old.items ++ record_line (figure_fields name.now number)) }
{
    let digits = format!(in alloc; "{number}")?;
    let mut csv_record = ByteRecord::new(alloc);
    csv_record.push_field(name.as_bytes())?;
    csv_record.push_field(digits.as_bytes())?;
    push_line(alloc, out, &csv_record)
}

/// Appends the lines of the figures about words. Returns `AllocError` if an allocation fails.
fn push_word_figures(alloc: Global, out: &mut Vec<u8>, figures: &RowStats) -> Result<(), AllocError>
    ensures { OnOk result (out.new.items ≡ out.old.items ++ records_text (spec.word_figures (view_stats figures.now))) }
{
    push_figure(alloc, out, "words", figures.words as u64)?;
    push_figure(alloc, out, "refused", figures.refused as u64)
}

/// Appends the lines of the figures about classes. Returns `AllocError` if an allocation fails.
fn push_class_figures(
    alloc: Global,
    out: &mut Vec<u8>,
    figures: &RowStats,
) -> Result<(), AllocError>
    ensures { OnOk result (out.new.items ≡ out.old.items ++ records_text (spec.class_figures (view_stats figures.now))) }
{
    push_figure(alloc, out, "classes", figures.classes as u64)?;
    push_figure(alloc, out, "alone", figures.alone as u64)?;
    push_figure(alloc, out, "largest", figures.largest as u64)
}

/// Returns the report of figures of the rows and classes of a bench, and of its runs.
///
/// # Errors
///
/// Returns `AllocError` if an allocation fails.
pub fn stats_text(alloc: Global, bench: &Bench) -> Result<Vec<u8>, AllocError>
    ensures { IfOk result (λ text. text.items ≡ spec.stats_text (contents_of bench.now)) }
{
    let rows = bench.rows()?;
    let classes = bench.classes()?;
    let figures = stats(&rows, &classes);
    let mut out = Vec::new(alloc);
    push_word_figures(alloc, &mut out, &figures)?;
    push_class_figures(alloc, &mut out, &figures)?;
    push_figure(alloc, &mut out, "unchanged", figures.unchanged as u64)?;
    push_figure(alloc, &mut out, "runs", bench.runs())?;
    Ok(out)
}

/// Returns the report of the largest classes, at most `number` of them: the largest first, those of one size by stem.
///
/// # Errors
///
/// Returns `AllocError` if an allocation fails.
pub fn largest_text(alloc: Global, bench: &Bench, number: usize) -> Result<Vec<u8>, AllocError>
    ensures { IfOk result (λ text. text.items ≡ spec.largest_text number (contents_of bench.now)) }
{
    let rows = bench.rows()?;
    let classes = largest_classes(alloc, &rows, number)?;
    records_text(alloc, &classes)
}
