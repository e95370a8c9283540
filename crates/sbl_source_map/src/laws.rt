//! Laws of places.

ghost use Rattle.sbl_source_map.specs.FaultLists.{FirstIsFault, NoneIsScript, ScriptHasNone};
ghost use Rattle.sbl_source_map.specs.FaultPlaces.{FaultAtIsFault, FaultIsAt, FaultIsAtOne, SubjectsAreTokens, TokenIsSubject};

use sbl_parser::one_tree;
use sbl_resolver::laws::fault_is_first_of_all;
use sbl_script::laws::{fault_is_first, one_reading, well_declared_passes};
use sbl_text::laws::tokens_are_one;

/// What the checks look at in a script is, one for one and in order, what its text has in subject tokens: the same
/// names, the same strings of amongs, and the same words.
pub fn subjects_are_tokens()
    ensures { SubjectsAreTokens }
{
    one_tree();
}

/// The token of a fault is what the checks look at in the occurrence that has the fault. A text has at most one fault
/// at a token, at one token.
pub fn token_is_one()
    ensures subject { TokenIsSubject }
    ensures one { FaultIsAtOne }
{
    tokens_are_one();
    one_tree();
}

/// A fault at a token is one of those with the numbers 9 to 19, and `Script::parse` refuses the text with it, with each
/// external. If `Script::parse` refuses a text with one of these, it is at a token.
pub fn faults_are_at_tokens()
    ensures fault { FaultAtIsFault }
    ensures token { FaultIsAt }
{
    one_tree();
    fault_is_first();
    well_declared_passes();
}

/// The first of all faults of a text is the one with which `Script::parse` refuses the text.
pub fn first_fault_is_listed()
    ensures { FirstIsFault }
{
    fault_is_first_of_all();
}

/// A text has no fault exactly if it is a script.
pub fn listed_unless_script()
    ensures none { NoneIsScript }
    ensures script { ScriptHasNone }
{
    fault_is_first_of_all();
    one_reading();
}
