//! Laws of the compiler.

ghost use Rattle.sbl_compiler.specs.Laws.{OwnIsMade, RoutineIsItsOwn, ClassesAreTheirTerms};

/// The program of each routine is made of the names, its mode and its own tree.
pub fn own_is_made()
    ensures { OwnIsMade }
{}

/// If the names and the body of a routine are the same, its program is the same.
pub fn routine_is_its_own()
    ensures { RoutineIsItsOwn }
{}

/// A character is in the class of a grouping exactly if its terms have it.
pub fn classes_are_their_terms()
    ensures { ClassesAreTheirTerms }
{}
