//! The rows of the integer variables at the end of a run.
ghost use Rattle.std.specs.Prelude.{◌≡◌, ◌++◌, ◌∷◌, [], IfErr, IfOk, None, Some, Err, OnOk, map, slice_index_or, string_bytes};
ghost use Rattle.sbl_bench.specs.KeptRuns.{setting_of};
ghost use Rattle.sbl_bench.specs.Whys.{refusal_of_why};
ghost use Rattle.sbl_bench.specs.declared.fault.EditFault.{EditFault as AnyFault};
ghost use Rattle.sbl_semantics.specs.Items.{known_in, names_by};
ghost use Rattle.sbl_io.specs.Records.{record_line, records_text};
ghost use Rattle.sbl_script.specs.ParsedScript.{source_of};
ghost use Rattle.sbl_ast.specs.Order.{in_order, view_in_mode};
ghost use Rattle.sbl_ast.specs.View.{view_plain};
ghost use Rattle.sbl_ast.specs.declared.tree.DeclarationKind.TheVariants as kinds;
ghost use Rattle.sbl_explain.specs.Integers as spec;

use csv::ByteRecord;
use sbl_ast::{DeclarationKind, ItemInMode, Plain, items_in_order};
use sbl_bench::{Bench, EditFault};
use sbl_compiler::NameList;
use sbl_io::push_line;
use sbl_script::Script;
use sbl_script::laws::is_spelled;
use std::alloc::{AllocError, Global};

/// Appends names to a list. Returns `AllocError` if an allocation fails.
fn add_names(alloc: Global, more: &Vec<String>, names: &mut NameList) -> Result<(), AllocError>
    ensures { OnOk result (names.new ≡ names.old ++ map string_bytes more.now.items) }
{
    for name in more {
        names.add(alloc, name.as_str())?;
    }
    Ok(())
}

/// Appends the names of the integer variables that an item declares. Returns `AllocError` if an allocation fails.
fn add_integers(alloc: Global, plain: &Plain, names: &mut NameList) -> Result<(), AllocError>
    ensures { OnOk result (names.new ≡ names.old ++ names_by kinds.Integers (view_plain plain.now)) }
{
    match plain {
        Plain::Declaration(DeclarationKind::Integers, more) => add_names(alloc, more, names),
        _ => Ok(()),
    }
}

/// Returns the names of the integer variables that items declare, in their order. Returns `AllocError` if an allocation fails.
fn names_in(alloc: Global, items: &[ItemInMode]) -> Result<NameList, AllocError>
    ensures { IfOk result (λ names. names ≡ known_in (map view_in_mode items.now) kinds.Integers) }
{
    let mut names = NameList::new(alloc);
    for item in items {
        add_integers(alloc, item.plain, &mut names)?;
    }
    Ok(names)
}

/// Returns the names of the integer variables of a script, in the order of their declarations. Returns `AllocError` if an
/// allocation fails.
fn integer_names(alloc: Global, script: &Script) -> Result<Vec<String>, AllocError>
    ensures { IfOk result (λ names. map string_bytes names.items ≡ known_in (in_order (source_of script.now).items) kinds.Integers) }
{
    is_spelled(script);
    let items = items_in_order(alloc, script.items())?;
    let names = names_in(alloc, &items)?;
    Ok(names.into_names())
}

/// Returns the name with this number, or an empty name if there is none.
fn name_at(names: &[String], number: usize) -> &str
    ensures { result.now ≡ slice_index_or (map string_bytes names.now) number [] }
{
    match names.get(number) {
        Some(name) => name.as_str(),
        None => "",
    }
}

/// Appends the line of the number of steps. Returns `AllocError` if an allocation fails.
fn push_steps(alloc: Global, out: &mut Vec<u8>, used: u64) -> Result<(), AllocError>
    ensures { OnOk result (out.new.items ≡ out.old.items ++ record_line (spec.steps_row used)) }
{
    let mut csv_record = ByteRecord::new(alloc);
    csv_record.push_field(b"steps")?;
    let digits = format!(in alloc; "{used}")?;
    csv_record.push_field(digits.as_bytes())?;
    push_line(alloc, out, &csv_record)
}

/// Appends the line of the integer variable with this number. Returns `AllocError` if an allocation fails.
#[tactic(auto, unfolding(crate::specs::Integers::value_row))]
fn push_value(
    alloc: Global,
    out: &mut Vec<u8>,
    names: &[String],
    number: usize,
    value: i32,
) -> Result<(), AllocError>
    ensures { OnOk result (out.new.items ≡ out.old.items ++ record_line (spec.value_row (map string_bytes names.now) number value)) }
{
    let mut csv_record = ByteRecord::new(alloc);
    csv_record.push_field(b"integer")?;
    csv_record.push_field(name_at(names, number).as_bytes())?;
    let digits = format!(in alloc; "{value}")?;
    csv_record.push_field(digits.as_bytes())?;
    push_line(alloc, out, &csv_record)
}

/// Appends the lines of integer variables. Returns `AllocError` if an allocation fails.
fn push_values(out: &mut Vec<u8>, names: &[String], values: &[i32]) -> Result<(), AllocError>
    ensures { OnOk result (out.new.items ≡ out.old.items ++ records_text (spec.value_rows (map string_bytes names.now) 0 values.now)) }
{
    let alloc = *out.allocator();
    for (number, value) in values.iter().enumerate() {
        push_value(alloc, out, names, number, *value)?;
    }
    Ok(())
}

/// Returns what a run of the script leaves in the integer variables, whether the word is in the vocabulary or not: a row with the
/// number of steps that the run used, `limit` + 1 if it was refused for its steps, and a row for each integer variable in the
/// order of the declarations. If the run was refused, the values are those at that point.
///
/// # Errors
///
/// Returns `EmptyWord` if the word has no character, `WordTooLong` if it has more than 255, and `OutOfMemory` if an allocation
/// fails.
pub fn integers_text(alloc: Global, bench: &Bench, word: &[char]) -> Result<Vec<u8>, EditFault>
    ensures rows { IfOk result (λ text. text.items ≡ spec.integers_text (setting_of bench.now) word.now) }
    ensures refused { (f : AnyFault) → refusal_of_why word.now ≡ Some f → result ≡ Err f }
    ensures memory { refusal_of_why word.now ≡ None → IfErr result (λ f. f ≡ EditFault.OutOfMemory) }
{
    let why = bench.why(word)?;
    let names = integer_names(alloc, bench.script())?;
    let mut out = Vec::new(alloc);
    push_steps(alloc, &mut out, why.used)?;
    push_values(&mut out, &names, &why.integers)?;
    Ok(out)
}
