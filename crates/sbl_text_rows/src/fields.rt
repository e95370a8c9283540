//! Fields of rows.

ghost use Rattle.std.specs.Prelude.{◌≡◌, ◌++◌, ◌∷◌, [], IfOk, OnOk, decimal};
ghost use Rattle.csv.specs.Records.{fields_of, partial_of};

use csv::ByteRecord;
use sbl_io::push_number;
use std::alloc::{AllocError, Global};

/// Returns a record with these two fields. Returns `AllocError` if an allocation fails.
pub(crate) fn record_of(alloc: Global, kind: &str, name: &str) -> Result<ByteRecord, AllocError>
    ensures fields { IfOk result (λ csv_record. fields_of csv_record ≡ kind.now ∷ name.now ∷ []) }
    ensures partial { IfOk result (λ csv_record. partial_of csv_record ≡ []) }
{
    let mut csv_record = ByteRecord::new(alloc);
    csv_record.push_field(kind.as_bytes())?;
    csv_record.push_field(name.as_bytes())?;
    Ok(csv_record)
}

/// Appends two numbers to a record, each as one field. Returns `AllocError` if an allocation fails.
pub(crate) fn push_numbers(
    alloc: Global,
    csv_record: &mut ByteRecord,
    first: usize,
    second: usize,
) -> Result<(), AllocError>
    requires { partial_of csv_record.old ≡ [] }
    ensures fields { OnOk result (fields_of csv_record.new ≡ fields_of csv_record.old ++ decimal first ∷ decimal second ∷ []) }
    ensures partial { OnOk result (partial_of csv_record.new ≡ []) }
{
    push_number(alloc, csv_record, first)?;
    push_number(alloc, csv_record, second)
}
