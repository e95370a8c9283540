//! Laws of scripts.

ghost use Rattle.sbl_script.specs.OneEdit.{EditFaultIsOne, EditIsOne, EditOrFault};
ghost use Rattle.sbl_script.specs.OnlyTheItem.{ExternalStays, OnlyTheItem};
ghost use Rattle.sbl_script.specs.OneReading.{FaultIsOne, ScriptIsOne, ScriptOrFault};
ghost use Rattle.sbl_script.specs.ParsedScript.{source_of};
ghost use Rattle.sbl_script.specs.CanonicalText.{CanonicalIsOne, CanonicalIsRead};

use crate::script::Script;
pub use crate::script::{is_shallow, is_spelled, is_well_declared};
use sbl_parser::{one_fault, one_tree};
use sbl_print::laws::canonical_is_spaced;
pub use sbl_resolver::laws::{
    amongs_are_sound, fault_is_first, names_resolve, substrings_are_paired, well_declared_passes,
};
use sbl_text::laws::{first_fault_is_one, spaced_are_read, tokens_are_one};

/// For given bytes and a given external there is at most one script and at most one fault, and never both. So
/// `Script::parse` is a function of these two, unless an allocation fails.
pub fn one_reading()
    ensures script { ScriptIsOne }
    ensures fault { FaultIsOne }
    ensures either { ScriptOrFault }
{
    tokens_are_one();
    first_fault_is_one();
    one_tree();
    one_fault();
}

/// For a given script, a given place and a given text there is at most one edited script and at most one fault, and
/// never both. So `Script::with_routine`, `Script::with_among` and `Script::with_grouping` are functions of these
/// three, unless an allocation fails.
pub fn one_edit()
    ensures script { EditIsOne }
    ensures fault { EditFaultIsOne }
    ensures either { EditOrFault }
{
    tokens_are_one();
    first_fault_is_one();
    one_tree();
    one_fault();
}

/// If a fault of `Script::with_routine`, `Script::with_among` or `Script::with_grouping` names an item, that item is
/// the one that changes: the definition of the routine or of the grouping. No check fails in another item, and the edit
/// never makes the script lose its external.
pub fn only_the_item()
    ensures item { OnlyTheItem }
    ensures external { ExternalStays }
{}

/// If a text is the canonical text of a script (`Script::print`) and has at most 1,048,576 bytes, it is read as the
/// same script with the same external. This holds for scripts after edits too. By `one_reading`, `Script::parse`
/// returns this script for it, unless an allocation fails.
pub fn canonical_is_read(script: &Script, text: &str)
    ensures { CanonicalIsRead (source_of script.now) text.now }
{
    spaced_are_read();
    canonical_is_spaced();
    is_well_declared(script);
    is_shallow(script);
    is_spelled(script);
    let _ = text;
}

/// If two scripts have the same canonical text, of any length, they have the same items.
pub fn canonical_is_one(script: &Script, other: &Script)
    ensures { CanonicalIsOne (source_of script.now) (source_of other.now) }
{
    tokens_are_one();
    spaced_are_read();
    canonical_is_spaced();
    one_tree();
    is_spelled(script);
    is_spelled(other);
}
