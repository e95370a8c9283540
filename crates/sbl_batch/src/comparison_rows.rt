//! The rows of a comparison.
ghost use Rattle.std.specs.Prelude.{◌≡◌, ◌++◌, ◌∷◌, [], IfOk, OnOk, map};
ghost use Rattle.csv.specs.Records.{fields_of, partial_of};
ghost use Rattle.sbl_rows.specs.Changes.{view_changes};
ghost use Rattle.sbl_records.specs.ItemRecords.{item_fields};
ghost use Rattle.sbl_records.specs.ChangeRecords.{change_fields};
ghost use Rattle.sbl_semantics.specs.TouchedItems.{item_of};
ghost use Rattle.sbl_tree_diff.specs.ItemsIn.{items_in};
ghost use Rattle.sbl_batch.specs.Compare as spec;
ghost use Rattle.sbl_batch.specs.Comparing.{fields_in};

use crate::comparing::ScriptComparison;
use csv::ByteRecord;
use sbl_io::push_two;
use sbl_machine::Item;
use sbl_records::{Record, records_text};
use sbl_rows::ChangeRow;
use std::alloc::{AllocError, Global};

/// A row of a comparison.
#[derive(Drop)]
enum ComparisonRow<'c, 'a> {
    /// The scripts differ in this item.
    Item(&'c Item),
    /// The scripts differ in more than bodies of routines and terms of groupings.
    Script,
    /// This changed.
    Change(&'c ChangeRow<'a>),
    /// There are so many words, and so many of them changed.
    Words(usize, usize),
}

impl Record for ComparisonRow<'_, '_> {
    ghost fields = { λ row. fields_in row };

    fn fill(&self, text: &mut String, csv_record: &mut ByteRecord) -> Result<(), AllocError> {
        let alloc = *text.allocator();
        match self {
            ComparisonRow::Item(item) => fill_item(alloc, csv_record, *item),
            ComparisonRow::Script => fill_script(csv_record),
            ComparisonRow::Change(change) => change.fill(text, csv_record),
            ComparisonRow::Words(words, changed) => fill_words(alloc, csv_record, *words, *changed),
        }
    }
}

/// Appends the fields of an item to a record. Returns `AllocError` if an allocation fails.
fn push_item(alloc: Global, csv_record: &mut ByteRecord, item: &Item) -> Result<(), AllocError>
    requires { partial_of csv_record.old ≡ [] }
    ensures { OnOk result (fields_of csv_record.new ≡ fields_of csv_record.old ++ item_fields (item_of item.now)) }
{
    match item {
        Item::Routine(name) => push_two(csv_record, b"routine", name.as_bytes()),
        Item::Among(name, number) => {
            let number = format!(in alloc; "{number}")?;
            push_two(csv_record, b"among", name.as_bytes())?;
            csv_record.push_field(number.as_bytes())
        }
        Item::Grouping(name) => push_two(csv_record, b"grouping", name.as_bytes()),
    }
}

/// Fills a blank record for an item. Returns `AllocError` if an allocation fails.
#[tactic(auto, unfolding(crate::specs::Compare::item_row))]
fn fill_item(alloc: Global, csv_record: &mut ByteRecord, item: &Item) -> Result<(), AllocError>
    requires fields { fields_of csv_record.old ≡ [] }
    requires partial { partial_of csv_record.old ≡ [] }
    ensures { OnOk result (fields_of csv_record.new ≡ spec.item_row (item_of item.now)) }
{
    csv_record.push_field(b"differs")?;
    push_item(alloc, csv_record, item)
}

/// Fills a blank record for scripts that differ in more than items. Returns `AllocError` if an allocation fails.
#[tactic(auto, unfolding(crate::specs::Compare::script_row))]
fn fill_script(csv_record: &mut ByteRecord) -> Result<(), AllocError>
    requires fields { fields_of csv_record.old ≡ [] }
    requires partial { partial_of csv_record.old ≡ [] }
    ensures { OnOk result (fields_of csv_record.new ≡ spec.script_row) }
{
    csv_record.push_field(b"differs")?;
    csv_record.push_field(b"script")
}

/// Fills a blank record for the number of words, and of those that changed. Returns `AllocError` if an allocation fails.
#[tactic(auto, unfolding(crate::specs::Compare::words_row))]
fn fill_words(
    alloc: Global,
    csv_record: &mut ByteRecord,
    words: usize,
    changed: usize,
) -> Result<(), AllocError>
    requires fields { fields_of csv_record.old ≡ [] }
    requires partial { partial_of csv_record.old ≡ [] }
    ensures { OnOk result (fields_of csv_record.new ≡ spec.words_row words changed) }
{
    let words = format!(in alloc; "{words}")?;
    let changed = format!(in alloc; "{changed}")?;
    csv_record.push_field(b"words")?;
    csv_record.push_field(words.as_bytes())?;
    csv_record.push_field(changed.as_bytes())
}

/// Appends a row. Returns `AllocError` if an allocation fails.
fn push_row<'c, 'a>(
    rows: &mut Vec<ComparisonRow<'c, 'a>>,
    row: ComparisonRow<'c, 'a>,
) -> Result<(), AllocError>
    ensures { OnOk result (map fields_in rows.new.items ≡ map fields_in rows.old.items ++ fields_in row.entry ∷ []) }
{
    rows.push(row).map_err(|_| AllocError)
}

/// Appends a row for each item. Returns `AllocError` if an allocation fails.
fn push_items<'c, 'a>(
    rows: &mut Vec<ComparisonRow<'c, 'a>>,
    items: &'c [Item],
) -> Result<(), AllocError>
    ensures { OnOk result (map fields_in rows.new.items ≡ map fields_in rows.old.items ++ map spec.item_row (map item_of items.now)) }
{
    for item in items {
        push_row(rows, ComparisonRow::Item(item))?;
    }
    Ok(())
}

/// Appends a row for each change. Returns `AllocError` if an allocation fails.
fn push_changes<'c, 'a>(
    rows: &mut Vec<ComparisonRow<'c, 'a>>,
    changes: &'c [ChangeRow<'a>],
) -> Result<(), AllocError>
    ensures { OnOk result (map fields_in rows.new.items ≡ map fields_in rows.old.items ++ map change_fields (view_changes changes.now)) }
{
    for change in changes {
        push_row(rows, ComparisonRow::Change(change))?;
    }
    Ok(())
}

/// Appends the rows of where scripts differ. Returns `AllocError` if an allocation fails.
fn push_differing<'c, 'a>(
    rows: &mut Vec<ComparisonRow<'c, 'a>>,
    differing: &'c Option<Vec<Item>>,
) -> Result<(), AllocError>
    ensures { OnOk result (map fields_in rows.new.items ≡ map fields_in rows.old.items ++ spec.differs_rows (items_in differing.now)) }
{
    match differing {
        Some(items) => push_items(rows, items),
        None => push_row(rows, ComparisonRow::Script),
    }
}

/// Returns the rows of a comparison. Returns `AllocError` if an allocation fails.
fn comparison_rows<'c, 'a>(
    alloc: Global,
    comparison: &'c ScriptComparison<'a>,
) -> Result<Vec<ComparisonRow<'c, 'a>>, AllocError>
    ensures { IfOk result (λ rows. map fields_in rows.items ≡ spec.comparison_rows (spec.view_comparison comparison.now)) }
{
    let mut rows = Vec::new(alloc);
    push_differing(&mut rows, &comparison.differing)?;
    push_changes(&mut rows, &comparison.changes)?;
    let words = ComparisonRow::Words(comparison.words, comparison.changed);
    push_row(&mut rows, words)?;
    Ok(rows)
}

/// Returns the text of the rows of a comparison: a row for each item in which the scripts differ, or `differs,script` if they
/// differ in more; the rows of what changed; and the numbers of words and of changed words. Returns `AllocError` if an
/// allocation fails.
pub fn comparison_text(
    alloc: Global,
    comparison: &ScriptComparison<'_>,
) -> Result<Vec<u8>, AllocError>
    ensures { IfOk result (λ text. text.items ≡ spec.comparison_text (spec.view_comparison comparison.now)) }
{
    let rows = comparison_rows(alloc, comparison)?;
    records_text(alloc, &rows)
}
