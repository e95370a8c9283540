//! Laws of the searches of a run, of its events under an edit, and of what words use.

ghost use Rattle.sbl_uses.specs.Searches.{EachSearchTakesFirst, PlainTakesLongest, PlainTakesOne, SearchesTakeFirst};
ghost use Rattle.sbl_uses.specs.EventsStay.{EventsStay, TakesStay};
ghost use Rattle.sbl_uses.specs.UsesLaws.{NumbersAreOfRows, UnusedHaveNumberZero, UsesAgreeWithTraces};

use sbl_machine::laws::differing_agree;

/// A search takes the first of the strings of its among that fit between the cursor and the limit, the longest first, that
/// has no condition or whose condition signals t. It takes none if each of them has a condition that signals f. It calls
/// the conditions of the strings up to the one that it takes, in this order, and no others.
pub fn searches_take_first()
    ensures { SearchesTakeFirst }
{}

/// Each search in the events of a run is such a search of an among that its routine has. It begins in the state in which the
/// run with just too few steps for it is refused. If the run is not refused, the search ends.
pub fn each_search_takes_first()
    ensures { EachSearchTakesFirst }
{}

/// If none of the strings that fit has a condition, a search takes the longest of them; it takes none only if none fits.
pub fn plain_searches_take_longest()
    ensures longest { PlainTakesLongest }
    ensures one { PlainTakesOne }
{}

/// The number of words that use a part of the script, as `counts` has it, is the number of their rows, as `uses` has them.
pub fn counts_are_of_uses()
    ensures { NumbersAreOfRows }
{}

/// `unused` has the routines, amongs and groupings with the number 0 in `counts`, and then the strings with the number 0 of the
/// other amongs.
pub fn unused_have_number_zero()
    ensures { UnusedHaveNumberZero }
{}

/// A word uses a routine, an among or a grouping exactly if `trace` has it or, for a grouping, one that is built from it.
pub fn uses_agree_with_traces()
    ensures { UsesAgreeWithTraces }
{}

/// In a well-declared script, a word whose run met nothing that an edit of one of the differing items affects has the same
/// events under the other script, and takes the same strings there.
pub fn takes_stay()
    ensures events { EventsStay }
    ensures takes { TakesStay }
{
    differing_agree();
}
