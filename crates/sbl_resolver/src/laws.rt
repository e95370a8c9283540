//! Laws of the checks.

ghost use Rattle.sbl_resolver.specs.AllFaults.{EachFaultIsListed, FaultIsFirstOfAll};
ghost use Rattle.sbl_resolver.specs.Amongs.{AmongsAreSound};
ghost use Rattle.sbl_resolver.specs.Laws.{FaultIsFirst, NamesResolve, SubstringsArePaired, WellDeclaredPasses};

/// In a well declared script no check fails at any occurrence, and its external is declared and defined in forward
/// mode.
pub fn well_declared_passes()
    ensures { WellDeclaredPasses }
{}

/// The fault of a script is the fault of the first occurrence at which a check fails; the fault of the external comes
/// last.
pub fn fault_is_first()
    ensures { FaultIsFirst }
{}

/// Each among of a well declared script has at least one string, and its strings differ in their characters.
pub fn amongs_are_sound()
    ensures { AmongsAreSound }
{}

/// Each name that is used in a well declared script is declared as a kind that is allowed there. A routine or grouping
/// is defined, and a routine is defined in the mode in which it is used.
pub fn names_resolve()
    ensures { NamesResolve }
{}

/// Each `substring` in a well declared script has its `among`.
pub fn substrings_are_paired()
    ensures { SubstringsArePaired }
{}

/// The fault of a script is the first of all its faults. There are none if the script is accepted.
pub fn fault_is_first_of_all()
    ensures { FaultIsFirstOfAll }
{}

/// All faults of a script contain the fault of each occurrence at which a check fails.
pub fn each_fault_is_listed()
    ensures { EachFaultIsListed }
{}
