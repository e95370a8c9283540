//! Laws of the matching strings of an among.

ghost use Rattle.sbl_program.specs.Laws.{BestComesFirst, FittingAreMatches, FittingFall, RestIsItsOwn};

/// The longest matching string comes first.
pub fn best_comes_first()
    ensures { BestComesFirst }
{}

/// After a matching string come the shorter strings that are prefixes of it.
pub fn rest_is_its_own()
    ensures { RestIsItsOwn }
{}

/// If all strings differ, `fitting` has exactly the strings that match.
pub fn fitting_are_matches()
    ensures { FittingAreMatches }
{}

/// Each matching string is longer than the next one.
pub fn fitting_fall()
    ensures { FittingFall }
{}
