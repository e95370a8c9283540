//! Items as records.
ghost use Rattle.std.specs.Prelude.{◌≡◌, ◌++◌, ◌∷◌, [], OnOk};
ghost use Rattle.csv.specs.Records.{fields_of, partial_of};
ghost use Rattle.sbl_machine.specs.ItemRefs.{item_of_ref};
ghost use Rattle.sbl_records.specs.ItemRecords.{item_fields};

use crate::records::Record;
use csv::ByteRecord;
use sbl_io::push_two;
use sbl_machine::ItemRef;
use std::alloc::AllocError;

impl Record for ItemRef<'_> {
    ghost fields = { λ item. item_fields (item_of_ref item) };

    fn fill(&self, text: &mut String, csv_record: &mut ByteRecord) -> Result<(), AllocError> {
        match self {
            ItemRef::Routine(name) => push_two(csv_record, b"routine", name.as_bytes()),
            ItemRef::Among(name, number) => {
                push_two(csv_record, b"among", name.as_bytes())?;
                let number = format!(in *text.allocator(); "{number}")?;
                csv_record.push_field(number.as_bytes())
            }
            ItemRef::Grouping(name) => push_two(csv_record, b"grouping", name.as_bytes()),
        }
    }
}
