//! Laws of sbl_batch (specs/Laws.antt), written out.

ghost use Rattle.std.specs.Prelude.{◌≡◌, ◌++◌, ℕ, List, [], Option, Some, Result, Ok};
ghost use Rattle.sbl_ast.specs.Source.{Source};
ghost use Rattle.sbl_bench.specs.Contents.{Contents, opening_contents};
ghost use Rattle.sbl_bench.specs.Vocabulary.{vocabulary};
ghost use Rattle.sbl_batch.specs.Compare.{Compares};
ghost use Rattle.sbl_batch.specs.Filter.{filter_output};
ghost use Rattle.sbl_batch.specs.declared.bench_pair.CompareInput.{CompareInput};
ghost use Rattle.sbl_batch.specs.declared.word_fault.WordFault.{WordFault};
ghost use Rattle.sbl_reports.specs.Block.{NoPoint};
ghost use Rattle.sbl_input.specs.declared.faults.LoadFault.{LoadFault};
ghost use Rattle.sbl_io.specs.LinesOf.{lines_of};
ghost use Rattle.sbl_reports.specs.Listings.{stems_text};
ghost use Rattle.law_tests.specs.Filters.{AreOfOneInput, IsEachOnce, IsFilterToPoint, Loads, WriteOne, Writes};

use sbl_batch::laws::{
    comparing_is_one, filtering_is_one, inputs_are_one, parts_make_whole, stem_is_filter,
    to_end_is_filter,
};

/// Needs the whole of the law `parts_make_whole`.
pub fn needs_parts_make_whole()
    ensures { (s : Source) (first rest : List (List ℕ)) → filter_output s (first ++ rest) ≡ filter_output s first ++ filter_output s rest }
{
    parts_make_whole();
}

/// Needs the whole of the law `stem_is_filter`.
#[tactic(auto, using(crate::proofs::FilterPremises::no_repeats))]
pub fn needs_stem_is_filter()
    ensures vocabulary { (s : Source) (words : List (List ℕ)) → stems_text (opening_contents s words) ≡ filter_output s (vocabulary words) }
    ensures same { (s : Source) (words : List (List ℕ)) → IsEachOnce words → filter_output s words ≡ stems_text (opening_contents s words) }
{
    stem_is_filter();
}

/// Needs the whole of the law `to_end_is_filter`.
pub fn needs_to_end_is_filter()
    ensures { (s : Source) (bytes : List ℕ) (new held new_held : Option (List ℕ)) (r : Result (Unit {0}) WordFault) → NoPoint (lines_of bytes) → IsFilterToPoint s bytes new held new_held r }
{
    to_end_is_filter();
}

/// Needs the whole of the law `inputs_are_one`.
pub fn needs_inputs_are_one()
    ensures { (bytes external : List ℕ) (a b : Option (List ℕ)) (c : Contents) (text : List ℕ) → Loads bytes external a c → Writes bytes external b text (Ok tt) → AreOfOneInput c text }
{
    inputs_are_one();
}

/// Needs the whole of the law `filtering_is_one`.
#[tactic(auto, using(crate::proofs::FilterPremises::filters_are_one))]
pub fn needs_filtering_is_one()
    ensures { (bytes external : List ℕ) (a b : Option (List ℕ)) (text other : List ℕ) (r q : Result (Unit {0}) LoadFault) → WriteOne bytes external a b text other r q }
{
    filtering_is_one();
}

/// Needs the whole of the law `comparing_is_one`.
pub fn needs_comparing_is_one()
    ensures { (input : CompareInput) (text other : List ℕ) (m n : ℕ) → Compares input (Some []) (Some text) (Ok m)
        → Compares input (Some []) (Some other) (Ok n) → (m ≡ n) × (text ≡ other) }
{
    comparing_is_one();
}
