//! The rows of the edits that can be undone and redone.
ghost use Rattle.std.specs.Prelude.{◌≡◌, ◌++◌, ◌∷◌, [], IfOk, OnOk, codes, decimal, map, reverse};
ghost use Rattle.csv.specs.Records.{fields_of, partial_of};
ghost use Rattle.sbl_history.specs.Desks.{past_of, view_edit, view_kind};
ghost use Rattle.sbl_history.specs.Listing as spec;
ghost use Rattle.sbl_io.specs.Records.{record_line, records_text};

use crate::kinds::HeldKind;
use crate::steps::{HeldEdit, History};
use csv::ByteRecord;
use sbl_io::{push_line, push_two};
use std::alloc::{AllocError, Global};

/// Appends a number to a record, as one field. Returns `AllocError` if an allocation fails.
fn push_number(alloc: Global, csv_record: &mut ByteRecord, number: u64) -> Result<(), AllocError>
    requires { partial_of csv_record.old ≡ [] }
    ensures fields { OnOk result (fields_of csv_record.new ≡ fields_of csv_record.old ++ decimal number ∷ []) }
    ensures partial { OnOk result (partial_of csv_record.new ≡ []) }
{
    let digits = format!(in alloc; "{number}")?;
    csv_record.push_field(digits.as_bytes())
}

/// Appends what was edited to a record. Returns `AllocError` if an allocation fails.
fn push_kind(alloc: Global, csv_record: &mut ByteRecord, kind: &HeldKind) -> Result<(), AllocError>
    requires { partial_of csv_record.old ≡ [] }
    ensures fields { OnOk result (fields_of csv_record.new ≡ fields_of csv_record.old ++ spec.kind_fields (view_kind kind.now)) }
    ensures partial { OnOk result (partial_of csv_record.new ≡ []) }
{
    match kind {
        HeldKind::Routine(name) => push_two(csv_record, b"routine", name.as_bytes()),
        HeldKind::Among(name, number) => {
            push_two(csv_record, b"among", name.as_bytes())?;
            push_number(alloc, csv_record, *number)
        }
        HeldKind::Grouping(name) => push_two(csv_record, b"grouping", name.as_bytes()),
        HeldKind::Script => csv_record.push_field(b"script"),
        HeldKind::Limit(limit) => {
            csv_record.push_field(b"limit")?;
            push_number(alloc, csv_record, u64::from(*limit))
        }
    }
}

/// Appends the row of an edit, which begins with a word. Returns `AllocError` if an allocation fails.
fn push_edit(
    alloc: Global,
    out: &mut Vec<u8>,
    word: &[u8],
    edit: &HeldEdit,
) -> Result<(), AllocError>
    ensures { OnOk result (out.new.items ≡ out.old.items ++ record_line (word.now ∷ spec.kind_fields (view_kind edit.now.kind))) }
{
    let mut csv_record = ByteRecord::new(alloc);
    csv_record.push_field(word)?;
    push_kind(alloc, &mut csv_record, &edit.kind)?;
    push_line(alloc, out, &csv_record)
}

/// Appends the rows of edits that can be undone. Returns `AllocError` if an allocation fails.
fn push_done(alloc: Global, out: &mut Vec<u8>, edits: &[HeldEdit]) -> Result<(), AllocError>
    ensures { OnOk result (out.new.items ≡ out.old.items ++ records_text (spec.edit_rows (codes "done") (map view_edit edits.now))) }
{
    for edit in edits {
        push_edit(alloc, out, b"done", edit)?;
    }
    Ok(())
}

/// Appends the rows of edits that were undone, the last of them first. Returns `AllocError` if an allocation fails.
fn push_undone(alloc: Global, out: &mut Vec<u8>, edits: &[HeldEdit]) -> Result<(), AllocError>
    ensures { OnOk result (out.new.items ≡ out.old.items ++ records_text (spec.edit_rows (codes "undone") (reverse (map view_edit edits.now)))) }
{
    for edit in edits.iter().rev() {
        push_edit(alloc, out, b"undone", edit)?;
    }
    Ok(())
}

/// Returns the rows of the edits that can be undone, the oldest first, and then of those that can be redone, the next one first.
/// Returns `AllocError` if an allocation fails.
pub(crate) fn history_text(alloc: Global, history: &History) -> Result<Vec<u8>, AllocError>
    ensures { IfOk result (λ text. text.items ≡ spec.history_text (past_of history.now)) }
{
    let mut out = Vec::new(alloc);
    push_done(alloc, &mut out, &history.earlier)?;
    push_undone(alloc, &mut out, &history.later)?;
    Ok(out)
}
