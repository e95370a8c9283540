//! The fields of a part of a script in a row.

ghost use Rattle.std.specs.Prelude.{◌≡◌, ◌++◌, [], OnOk};
ghost use Rattle.csv.specs.Records.{fields_of, partial_of};
ghost use Rattle.sbl_uses.specs.Counts as spec;
ghost use Rattle.sbl_uses.specs.UsableViews.{view_usable};

use crate::unused::{kind, push_place};
use crate::usables::Usable;
use csv::ByteRecord;
use sbl_io::push_text;
use std::alloc::AllocError;

impl Usable<'_> {
    /// Appends the fields of this part of a script. Returns `AllocError` if an allocation fails.
    pub fn push_fields(
        &self,
        text: &mut String,
        csv_record: &mut ByteRecord,
    ) -> Result<(), AllocError>
        requires { partial_of csv_record.old ≡ [] }
        ensures fields { OnOk result (fields_of csv_record.new ≡ fields_of csv_record.old ++ spec.usable_row (view_usable self.now)) }
        ensures partial { OnOk result (partial_of csv_record.new ≡ []) }
    {
        let alloc = *text.allocator();
        match self {
            Usable::Whole(item) => {
                csv_record.push_field(kind(item).as_bytes())?;
                push_place(alloc, csv_record, item)
            }
            Usable::Entry(among, string) => {
                csv_record.push_field(b"entry")?;
                push_place(alloc, csv_record, among)?;
                push_text(text, csv_record, string)
            }
        }
    }
}
