//! The text of the rows of a bench.
ghost use Rattle.std.specs.Prelude.{◌≡◌, IfOk};
ghost use Rattle.sbl_bench.specs.KeptRuns.{contents_of};
ghost use Rattle.sbl_reports.specs.Listings as spec;

use sbl_bench::Bench;
use sbl_records::RecordWriter;
use std::alloc::{AllocError, Global};

/// Returns the text of the rows of a bench, in vocabulary order, as `records_text` has it. Takes the rows one at a time, so it
/// needs no memory for a list of them. Returns `AllocError` if an allocation fails.
pub fn rows_text(alloc: Global, bench: &Bench) -> Result<Vec<u8>, AllocError>
    ensures { IfOk result (λ text. text.items ≡ spec.stems_text (contents_of bench.now)) }
{
    let mut writer = RecordWriter::new(alloc);
    for i in 0..bench.len() {
        // A bench has a row at each number below its length: the case without one is proved impossible.
        if let Some(row) = bench.row(i) {
            writer.push(&row)?;
        }
    }
    writer.into_text()
}
