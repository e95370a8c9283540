//! What changed since some rows: all changes, how many there are of each kind, and the first ones of each kind.
ghost use Rattle.std.specs.Prelude.{◌≡◌, ◌++◌, IfOk, OnOk, count_by, map};
ghost use Rattle.sbl_bench.specs.KeptRuns.{contents_of};
ghost use Rattle.sbl_rows.specs.Rows.{view_row};
ghost use Rattle.sbl_rows.specs.Changes.{view_change, view_changes};
ghost use Rattle.sbl_io.specs.Records as records;
ghost use Rattle.sbl_io.specs.Records.{record_line};
ghost use Rattle.sbl_history.specs.ChangeReports as spec;
ghost use Rattle.sbl_records.specs.ChangeRecords.{change_fields};

use crate::few::changes_of_few;
use csv::ByteRecord;
use sbl_bench::{Bench, Row};
use sbl_io::push_line;
use sbl_records::{Record, records_text};
use sbl_rows::ChangeRow;
use std::alloc::{AllocError, Global};

/// A kind of changes.
#[derive(Clone, Copy, Debug, PartialEq, Eq)]
enum ChangeKind {
    Added,
    Removed,
    Changed,
    Split,
    Merged,
    Renamed,
}

impl ChangeKind {
    /// Returns the word that begins the rows of this kind.
    fn name(self) -> &'static str
        ensures { result.now ≡ spec.kind_name self }
    {
        match self {
            ChangeKind::Added => "added",
            ChangeKind::Removed => "removed",
            ChangeKind::Changed => "changed",
            ChangeKind::Split => "split",
            ChangeKind::Merged => "merged",
            ChangeKind::Renamed => "renamed",
        }
    }
}

/// Returns the kind of a change.
fn kind_of(change: &ChangeRow<'_>) -> ChangeKind
    ensures { result ≡ spec.kind_of (view_change change.now) }
{
    match change {
        ChangeRow::Added(_) => ChangeKind::Added,
        ChangeRow::Removed(_) => ChangeKind::Removed,
        ChangeRow::Changed { .. } => ChangeKind::Changed,
        ChangeRow::Split(_) => ChangeKind::Split,
        ChangeRow::Merged(_) => ChangeKind::Merged,
        ChangeRow::Renamed { .. } => ChangeKind::Renamed,
    }
}

/// Returns whether a change is of this kind.
fn is_of(kind: ChangeKind, change: &ChangeRow<'_>) -> bool
    ensures { result ≡ spec.is_of kind (view_change change.now) }
{
    kind == kind_of(change)
}

/// Returns how many of the changes are of this kind.
fn count_of(kind: ChangeKind, found: &[ChangeRow<'_>]) -> usize
    ensures { result ≡ count_by (λ c. spec.is_of kind (view_change c)) found.now }
{
    found.iter().filter(|change| is_of(kind, change)).count()
}

/// Returns the report of what changed: a row for each change between some rows and those of the bench.
///
/// # Errors
///
/// Returns `AllocError` if an allocation fails.
pub fn changes_text(alloc: Global, before: &[Row<'_>], bench: &Bench) -> Result<Vec<u8>, AllocError>
    ensures { IfOk result (λ text. text.items ≡ spec.changes_text (map view_row before.now) (contents_of bench.now)) }
{
    let rows = bench.rows()?;
    let found = changes_of_few(alloc, before, &rows)?;
    records_text(alloc, &found)
}

/// Appends the row with the number of changes of this kind. Returns `AllocError` if an allocation fails.
fn push_count(
    alloc: Global,
    out: &mut Vec<u8>,
    kind: ChangeKind,
    found: &[ChangeRow<'_>],
) -> Result<(), AllocError>
    ensures { OnOk result (out.new.items ≡ out.old.items ++ record_line (spec.kind_figure (view_changes found.now) kind)) }
{
    let number = count_of(kind, found);
    let digits = format!(in alloc; "{number}")?;
    let mut csv_record = ByteRecord::new(alloc);
    csv_record.push_field(kind.name().as_bytes())?;
    csv_record.push_field(digits.as_bytes())?;
    push_line(alloc, out, &csv_record)
}

/// Three kinds of changes, in the order of their rows.
#[derive(Clone, Copy)]
struct Kinds {
    first: ChangeKind,
    second: ChangeKind,
    third: ChangeKind,
}

/// The kinds of changes of words.
const WORD_KINDS: Kinds = Kinds {
    first: ChangeKind::Added,
    second: ChangeKind::Removed,
    third: ChangeKind::Changed,
};

/// The kinds of changes of classes.
const CLASS_KINDS: Kinds = Kinds {
    first: ChangeKind::Split,
    second: ChangeKind::Merged,
    third: ChangeKind::Renamed,
};

impl Kinds {
    /// Appends the rows with the numbers of changes of these kinds. Returns `AllocError` if an allocation fails.
    fn push_counts(
        self,
        alloc: Global,
        out: &mut Vec<u8>,
        found: &[ChangeRow<'_>],
    ) -> Result<(), AllocError>
        ensures { OnOk result (out.new.items ≡ out.old.items ++ records.records_text (spec.three_figures (view_changes found.now) self.first self.second self.third)) }
    {
        push_count(alloc, out, self.first, found)?;
        push_count(alloc, out, self.second, found)?;
        push_count(alloc, out, self.third, found)
    }

    /// Appends the rows of the first `number` changes of each of these kinds. Returns `AllocError` if an allocation fails.
    fn push_first_of_each(
        self,
        alloc: Global,
        out: &mut Vec<u8>,
        number: usize,
        found: &[ChangeRow<'_>],
    ) -> Result<(), AllocError>
        ensures { OnOk result (out.new.items ≡ out.old.items ++ records.records_text (map change_fields (spec.first_of_three number (view_changes found.now) self.first self.second self.third))) }
    {
        push_first(alloc, out, number, self.first, found)?;
        push_first(alloc, out, number, self.second, found)?;
        push_first(alloc, out, number, self.third, found)
    }
}

/// Returns the report of how many changes of each kind there are between some rows and those of the bench.
///
/// # Errors
///
/// Returns `AllocError` if an allocation fails.
pub fn change_figures_text(
    alloc: Global,
    before: &[Row<'_>],
    bench: &Bench,
) -> Result<Vec<u8>, AllocError>
    ensures { IfOk result (λ text. text.items ≡ spec.change_figures_text (map view_row before.now) (contents_of bench.now)) }
{
    let rows = bench.rows()?;
    let found = changes_of_few(alloc, before, &rows)?;
    let mut out = Vec::new(alloc);
    WORD_KINDS.push_counts(alloc, &mut out, &found)?;
    CLASS_KINDS.push_counts(alloc, &mut out, &found)?;
    Ok(out)
}

/// Appends the row of a change. Returns `AllocError` if an allocation fails.
fn push_change(alloc: Global, out: &mut Vec<u8>, change: &ChangeRow<'_>) -> Result<(), AllocError>
    ensures { OnOk result (out.new.items ≡ out.old.items ++ record_line (change_fields (view_change change.now))) }
{
    let mut text = String::new(alloc);
    let mut csv_record = ByteRecord::new(alloc);
    change.fill(&mut text, &mut csv_record)?;
    push_line(alloc, out, &csv_record)
}

/// Appends the rows of the changes of this kind, at most `number` of them. Returns `AllocError` if an allocation fails.
fn push_first(
    alloc: Global,
    out: &mut Vec<u8>,
    number: usize,
    kind: ChangeKind,
    found: &[ChangeRow<'_>],
) -> Result<(), AllocError>
    ensures { OnOk result (out.new.items ≡ out.old.items ++ records.records_text (map change_fields (spec.first_of_kind number (view_changes found.now) kind))) }
{
    let mut left = number;
    for change in found {
        if left > 0 && is_of(kind, change) {
            push_change(alloc, out, change)?;
            left -= 1;
        }
    }
    Ok(())
}

/// Returns the report of what changed between some rows and those of the bench, with at most `number` rows of each kind.
///
/// # Errors
///
/// Returns `AllocError` if an allocation fails.
pub fn first_changes_text(
    alloc: Global,
    before: &[Row<'_>],
    bench: &Bench,
    number: usize,
) -> Result<Vec<u8>, AllocError>
    ensures { IfOk result (λ text. text.items ≡ spec.first_changes_text number (map view_row before.now) (contents_of bench.now)) }
{
    let rows = bench.rows()?;
    let found = changes_of_few(alloc, before, &rows)?;
    let mut out = Vec::new(alloc);
    WORD_KINDS.push_first_of_each(alloc, &mut out, number, &found)?;
    CLASS_KINDS.push_first_of_each(alloc, &mut out, number, &found)?;
    Ok(out)
}
