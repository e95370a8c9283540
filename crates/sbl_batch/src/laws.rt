//! Laws of the rows that a filter and a comparison write.
ghost use Rattle.sbl_batch.specs.Laws as spec;

use sbl_input::laws::loading_is_one;
use sbl_script::laws::one_reading;

/// The rows of a list of words are the rows of its parts, one after another.
pub fn parts_make_whole()
    ensures { spec.PartsMakeWhole }
{}

/// The rows that `stem` writes for some words are those that `filter` writes for their vocabulary, which is the words that are
/// not empty, each at its first place. If no word is there again, both write the same.
pub fn stem_is_filter()
    ensures vocabulary { spec.StemsAreFiltered }
    ensures same { spec.SameWithoutRepeats }
{}

/// `filter_to_end` ends and writes as `filter` does for the same words, if no line of them is a single point.
pub fn to_end_is_filter()
    ensures { spec.ToEndIsFilter }
{}

/// If `load` makes a bench of an input and `filter` writes all rows of the same input, both are of one script and one list of
/// words.
pub fn inputs_are_one()
    ensures { spec.SameInput }
{
    loading_is_one();
}

/// A filter of an input has one result and one text. With the same external, the same bytes always give the same, unless an
/// allocation fails or the reader or the writer stops.
pub fn filtering_is_one()
    ensures { spec.FilteringIsOne }
{
    one_reading();
}

/// A comparison of the same files always writes the same rows and returns the same number of changed words, unless it ends with a
/// fault.
pub fn comparing_is_one()
    ensures { spec.ComparingIsOne }
{
    one_reading();
}
