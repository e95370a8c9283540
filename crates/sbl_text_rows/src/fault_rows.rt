//! The rows of the faults of a text.

ghost use Rattle.std.specs.Prelude.{◌≡◌, ◌∷◌, ◌++◌, [], IfOk, OnOk, map};
ghost use Rattle.csv.specs.Records.{fields_of, partial_of};
ghost use Rattle.sbl_io.specs.Records.{record_line};
ghost use Rattle.sbl_text_rows.specs.FaultRows as spec;
ghost use Rattle.sbl_text_rows.specs.FaultViews.{view_fault};
ghost use Rattle.sbl_text_rows.specs.Views.{Measures};

use crate::fields::push_numbers;
use crate::rulers::Ruler;
use csv::ByteRecord;
use sbl_io::{push_line, push_number};
use std::alloc::{AllocError, Global};

/// What the row of a fault has.
#[derive(Debug, Drop)]
pub struct FaultRow {
    /// The number of the fault.
    pub number: usize,
    /// Its name.
    pub name: &'static str,
    /// The byte offsets at which what is wrong begins and ends (exclusive); `None` if the fault is at no place.
    pub range: Option<(usize, usize)>,
    /// What is wrong, for people.
    pub sentence: String,
}

/// Appends the two ends of a range, and the line and the column of the first; four empty fields if there is no range. Returns
/// `AllocError` if an allocation fails.
fn push_range(
    alloc: Global,
    csv_record: &mut ByteRecord,
    ruler: &mut Ruler<'_>,
    range: Option<(usize, usize)>,
) -> Result<(), AllocError>
    requires ruler { Measures ruler.old }
    requires whole { partial_of csv_record.old ≡ [] }
    ensures fields { OnOk result (fields_of csv_record.new ≡ fields_of csv_record.old ++ spec.range_fields ruler.old.text.now range) }
    ensures partial { OnOk result (partial_of csv_record.new ≡ []) }
    ensures measures { Measures ruler.new }
    ensures same_text { ruler.new.text.now ≡ ruler.old.text.now }
{
    match range {
        Some((from, to)) => {
            let position = ruler.position(from);
            push_numbers(alloc, csv_record, from, to)?;
            push_numbers(alloc, csv_record, position.line, position.column)
        }
        None => {
            csv_record.push_field(b"")?;
            csv_record.push_field(b"")?;
            csv_record.push_field(b"")?;
            csv_record.push_field(b"")
        }
    }
}

/// Appends the line of a fault. Returns `AllocError` if an allocation fails.
#[tactic(auto, unfolding(crate::specs::FaultRows::fault_row))]
fn push_fault(
    alloc: Global,
    out: &mut Vec<u8>,
    ruler: &mut Ruler<'_>,
    row: &FaultRow,
) -> Result<(), AllocError>
    requires { Measures ruler.old }
    ensures line { OnOk result (out.new.items ≡ out.old.items ++ record_line (spec.fault_row ruler.old.text.now (view_fault row.now))) }
    ensures measures { Measures ruler.new }
    ensures same_text { ruler.new.text.now ≡ ruler.old.text.now }
{
    let mut csv_record = ByteRecord::new(alloc);
    csv_record.push_field(b"fault")?;
    push_number(alloc, &mut csv_record, row.number)?;
    csv_record.push_field(row.name.as_bytes())?;
    push_range(alloc, &mut csv_record, ruler, row.range)?;
    csv_record.push_field(row.sentence.as_bytes())?;
    push_line(alloc, out, &csv_record)
}

/// Returns the rows of the faults of a text: the number and the name of each, the two ends of its range, the line and the column of
/// the first, and the sentence. The fields of the range are empty if there is none.
///
/// Returns `AllocError` if an allocation fails.
pub fn faults_text(alloc: Global, text: &[u8], rows: &[FaultRow]) -> Result<Vec<u8>, AllocError>
    ensures { IfOk result (λ report. report.items ≡ spec.fault_lines text.now (map view_fault rows.now)) }
{
    let mut out = Vec::new(alloc);
    let mut ruler = Ruler::new(text);
    for row in rows {
        push_fault(alloc, &mut out, &mut ruler, row)?;
    }
    Ok(out)
}
