//! The text of the rows of what no word uses.

ghost use Rattle.std.specs.Prelude.{◌≡◌, ◌++◌, [], OnOk, IfOk};
ghost use Rattle.std.specs.List.{flat_map, list_any};
ghost use Rattle.csv.specs.Records.{fields_of, partial_of};
ghost use Rattle.sbl_rows.specs.Setting.{Setting};
ghost use Rattle.sbl_machine.specs.ItemRefs.{item_of_ref};
ghost use Rattle.sbl_io.specs.Records.{record_line};
ghost use Rattle.sbl_io.specs.Reports.{TakesMore};
ghost use Rattle.sbl_uses.specs.TakesRows.{TakesRows, parts_text};
ghost use Rattle.sbl_uses.specs.Unused as spec;
ghost use Rattle.sbl_uses.specs.UnusedViews.{IsUsed, Words, part_of, parts_in, takes_in};

use crate::takes::Takes;
use crate::touched_items::{Items, has_item};
use crate::usable_parts::Parts;
use csv::ByteRecord;
use sbl_io::{Report, ReportLength, ReportText, text_of};
use sbl_machine::ItemRef;
use std::alloc::{AllocError, Global};

/// Appends the name of an item or of its routine, and the number of an among. Returns `AllocError` if an allocation fails.
pub(crate) fn push_place(
    alloc: Global,
    csv_record: &mut ByteRecord,
    item: &ItemRef<'_>,
) -> Result<(), AllocError>
    requires { partial_of csv_record.old ≡ [] }
    ensures fields { OnOk result (fields_of csv_record.new ≡ fields_of csv_record.old ++ spec.place_fields (item_of_ref item.now)) }
    ensures partial { OnOk result (partial_of csv_record.new ≡ []) }
{
    match item {
        ItemRef::Routine(name) | ItemRef::Grouping(name) => csv_record.push_field(name.as_bytes()),
        ItemRef::Among(name, number) => {
            let digits = format!(in alloc; "{number}")?;
            csv_record.push_field(name.as_bytes())?;
            csv_record.push_field(digits.as_bytes())
        }
    }
}

/// Returns the name of the kind of an item.
pub(crate) fn kind(item: &ItemRef<'_>) -> &'static str
    ensures { result.now ≡ spec.kind_field (item_of_ref item.now) }
{
    match item {
        ItemRef::Routine(_) => "routine",
        ItemRef::Among(_, _) => "among",
        ItemRef::Grouping(_) => "grouping",
    }
}

/// Appends the line of an item. Returns `AllocError` if an allocation fails.
fn push_item<T: Report>(alloc: Global, out: &mut T, item: &ItemRef<'_>) -> Result<(), AllocError>
    ensures { OnOk result (TakesMore T.has_taken out.old out.new (record_line (spec.item_row (item_of_ref item.now)))) }
{
    let mut csv_record = ByteRecord::new(alloc);
    csv_record.push_field(kind(item).as_bytes())?;
    push_place(alloc, &mut csv_record, item)?;
    out.push(&csv_record)
}

/// Appends the line of a string of an among. Returns `AllocError` if an allocation fails.
fn push_entry<T: Report>(
    alloc: Global,
    out: &mut T,
    among: &ItemRef<'_>,
    string: &[char],
) -> Result<(), AllocError>
    ensures { OnOk result (TakesMore T.has_taken out.old out.new (record_line (spec.entry_row (item_of_ref among.now, string.now)))) }
{
    let mut csv_record = ByteRecord::new(alloc);
    csv_record.push_field(b"entry")?;
    push_place(alloc, &mut csv_record, among)?;
    let text = text_of(alloc, string)?;
    csv_record.push_field(text.as_bytes())?;
    out.push(&csv_record)
}

/// What the words of a vocabulary meet and take.
#[derive(Clone, Copy)]
pub struct Used<'s, 'a> {
    /// The allocator of the text.
    pub alloc: Global,
    /// What they meet.
    pub met: &'s Items<'a>,
    /// What they take.
    pub taken: &'s Takes<'a>,
}

impl<'s, 'a> Used<'s, 'a> {
    /// Returns whether a string is taken at an among. Returns `AllocError` if an allocation fails.
    #[tactic(auto, using(crate::proofs::Sets::take_held))]
    fn has_take(&self, among: &ItemRef<'a>, string: &[char]) -> Result<bool, AllocError>
        ensures { IfOk result (λ b. b ≡ list_any (spec.same_take (item_of_ref among.now, string.now)) (takes_in self.now.taken.now)) }
    {
        let key = (*among, Vec::from_slice(self.alloc, string)?);
        Ok(self.taken.contains(&key))
    }

    /// Appends the line of an item, unless a word meets it. Returns `AllocError` if an allocation fails.
    fn push_unmet<T: Report>(&self, out: &mut T, item: &ItemRef<'a>) -> Result<(), AllocError>
        ensures { (s : Setting) (ws : Words) → IsUsed s ws self.now → OnOk result (TakesRows T.has_taken out.old out.new (spec.item_rows s ws (item_of_ref item.now))) }
    {
        if has_item(self.met, item) {
            Ok(())
        } else {
            push_item(self.alloc, out, item)
        }
    }

    /// Appends the line of a string of an among, unless a word takes it there. Returns `AllocError` if an allocation fails.
    fn push_untaken<T: Report>(
        &self,
        out: &mut T,
        among: &ItemRef<'a>,
        string: &[char],
    ) -> Result<(), AllocError>
        ensures { (s : Setting) (ws : Words) → IsUsed s ws self.now → OnOk result (TakesRows T.has_taken out.old out.new (spec.string_rows s ws (item_of_ref among.now, string.now))) }
    {
        if self.has_take(among, string)? {
            Ok(())
        } else {
            push_entry(self.alloc, out, among, string)
        }
    }

    /// Appends the lines of the items that no word meets. Returns `AllocError` if an allocation fails.
    fn push_items<T: Report>(&self, out: &mut T, parts: &Parts<'a>) -> Result<(), AllocError>
        ensures { (s : Setting) (ws : Words) → IsUsed s ws self.now → OnOk result (TakesRows T.has_taken out.old out.new (spec.unmet_rows s ws (parts_in parts.now))) }
    {
        for (item, _) in parts.iter() {
            self.push_unmet(out, item)?;
        }
        Ok(())
    }

    /// Appends the lines of the strings of one part that no word takes there, if a word meets it. Returns `AllocError` if an
    /// allocation fails.
    fn push_part<T: Report>(
        &self,
        out: &mut T,
        item: &ItemRef<'a>,
        strings: &[&[char]],
    ) -> Result<(), AllocError>
        ensures { (s : Setting) (ws : Words) → IsUsed s ws self.now → OnOk result (TakesRows T.has_taken out.old out.new (spec.entry_rows s ws (part_of item.now strings.now))) }
    {
        if !has_item(self.met, item) {
            return Ok(());
        }
        for string in strings {
            self.push_untaken(out, item, string)?;
        }
        Ok(())
    }

    /// Appends the lines of the strings that no word takes. Returns `AllocError` if an allocation fails.
    fn push_entries<T: Report>(&self, out: &mut T, parts: &Parts<'a>) -> Result<(), AllocError>
        ensures { (s : Setting) (ws : Words) → IsUsed s ws self.now → OnOk result (TakesRows T.has_taken out.old out.new (flat_map (spec.entry_rows s ws) (parts_in parts.now))) }
    {
        for (item, strings) in parts.iter() {
            self.push_part(out, item, strings)?;
        }
        Ok(())
    }

    /// Appends the lines of what no word uses. Returns `AllocError` if an allocation fails.
    fn push_rows<T: Report>(&self, out: &mut T, parts: &Parts<'a>) -> Result<(), AllocError>
        ensures { (s : Setting) (ws : Words) → IsUsed s ws self.now → OnOk result (TakesRows T.has_taken out.old out.new (spec.rows_of_parts s ws (parts_in parts.now))) }
    {
        self.push_items(out, parts)?;
        self.push_entries(out, parts)
    }

    /// Returns the rows of what no word uses, given what the words meet and take. Returns `AllocError` if an allocation fails.
    pub fn text_of_rows(&self, parts: &Parts<'a>) -> Result<Vec<u8>, AllocError>
        ensures { (s : Setting) (ws : Words) → IsUsed s ws self.now → IfOk result (λ text. text.items ≡ parts_text s ws (parts_in parts.now)) }
    {
        let mut length = ReportLength::new();
        self.push_rows(&mut length, parts)?;
        let mut out = ReportText::with_length(self.alloc, &length)?;
        self.push_rows(&mut out, parts)?;
        out.into_bytes()
    }
}
