//! Laws of runs.

ghost use Rattle.sbl_machine.specs.BuiltFrom.{AffectedIsClosed};
ghost use Rattle.sbl_machine.specs.DifferLaws.{AlikeDifferNowhere, DifferingAgree, DifferingAreThere, DifferingStay, MoreDiffers, OneAffects, OneMeets, OnlyItemsDiffer};
ghost use Rattle.sbl_machine.specs.EnoughSteps.{RefusedForSteps, UsedStepsSuffice, UsedStepsTouch};
ghost use Rattle.sbl_machine.specs.Frame.{AgreeingNamesStay, ClearStay, EditsAgree, Frame, NamesStay, TouchedRise, TouchesAreTouched, UnmetByOneStay, UnmetStay, UntouchedStay};
ghost use Rattle.sbl_machine.specs.Groupings.{GroupingsAreTheirTerms, GroupingsHaveTheirTerms};
ghost use Rattle.sbl_machine.specs.Marks.{EditedAreThere};
ghost use Rattle.sbl_machine.specs.NamesStand.{NamesStand};
ghost use Rattle.sbl_machine.specs.Searches.{SearchesAreExact, TablesDiffer};
ghost use Rattle.sbl_machine.specs.Sound.{RunIsSound};
ghost use Rattle.sbl_machine.specs.Why.{EventsChangeNothing, EventsTouch, PutsGiveTheStem};

use sbl_program::laws::fitting_are_matches;
use sbl_resolver::laws::{amongs_are_sound, names_resolve, well_declared_passes};

/// A run of the program of a script is a run of the script.
pub fn run_is_sound()
    ensures { RunIsSound }
{}

/// A run is refused for its steps exactly if it used more than its limit. If a limit is enough for a run, each other
/// limit that is at least the number of steps used gives the same outcome, the same number of steps used, and the same
/// touches.
pub fn used_steps_suffice()
    ensures refused { RefusedForSteps }
    ensures suffice { UsedStepsSuffice }
    ensures touch { UsedStepsTouch }
{}

/// A run that records its events gives the same outcome, uses the same number of steps and touches the same as the run
/// that does not.
pub fn events_change_nothing()
    ensures { EventsChangeNothing }
{}

/// If a run gives a stem, making its recorded replacements on the word, one after another, gives that stem.
pub fn puts_give_the_stem()
    ensures { PutsGiveTheStem }
{}

/// The routines that a run enters and the amongs that it searches, by its events, each once in the order of first
/// occurrence, are what it touches besides groupings.
pub fn events_touch()
    ensures { EventsTouch }
{}

/// A run touches an item exactly if the item is in its list of touched items. That list is in strictly ascending order.
pub fn touches_are_touched()
    ensures touched { TouchesAreTouched }
    ensures rise { TouchedRise }
{}

/// In a well-declared script, no string occurs twice in the table of an `among`. So a search finds exactly the strings
/// of the among that are a prefix of the text ahead.
pub fn searches_are_exact()
    ensures differ { TablesDiffer }
    ensures exact { SearchesAreExact }
{
    amongs_are_sound();
    fitting_are_matches();
}

/// In a well-declared script, each name that is used means an existing variable, grouping or routine, and a routine is
/// called in the mode in which it is defined. So the cases of the definition of a run for other names do not arise.
pub fn names_stand()
    ensures { NamesStand }
{
    names_resolve();
    well_declared_passes();
}

/// In a well-declared script, a grouping has exactly the characters that one of its terms adds and no later term
/// removes. A name among the terms means the grouping of that name in the whole script.
pub fn groupings_are_their_terms()
    ensures have { GroupingsHaveTheirTerms }
    ensures computed { GroupingsAreTheirTerms }
{
    well_declared_passes();
}

/// A run does not depend on items that it does not touch. If two scripts agree outside some items, and the run of a
/// word under the first touches none of them, the word runs alike under both. If these items include a grouping, they
/// have to include every grouping that is built from it.
pub fn frame()
    ensures { Frame }
{}

/// In a well-declared script, if the items that an item affects include a grouping, they include all groupings built
/// from it, directly or through others. So the frame law applies to these items.
pub fn affected_is_closed()
    ensures { AffectedIsClosed }
{
    well_declared_passes();
}

/// After an edit, the script agrees with the old one outside the replaced item and, if that is a grouping, the
/// groupings built from it. The names of routines and groupings stay, and the routine or grouping of the replaced item
/// is in the script.
pub fn edits_agree()
    ensures agree { EditsAgree }
    ensures names { NamesStay }
    ensures there { EditedAreThere }
{}

/// After an edit, a word runs as before and touches the same, if its run before the edit touched neither the replaced
/// item nor a grouping that is built from it.
pub fn untouched_stay()
    ensures { UntouchedStay }
{
    well_declared_passes();
}

/// If two scripts agree outside the items that one item affects, a word whose run met none of these items runs as
/// before and touches the same.
pub fn unmet_stay()
    ensures { UnmetStay }
{
    well_declared_passes();
}

/// If two scripts agree outside some items, they have the same names of routines and groupings. If these items also
/// include each grouping built from one of them, a word whose run touches none of these items runs as before, and
/// touches the same, by name and by number.
pub fn clear_stay()
    ensures names { AgreeingNamesStay }
    ensures clear { ClearStay }
{}

/// If two scripts agree outside the items that several items affect, a word whose run met none of these items runs as
/// before and touches the same.
pub fn unmet_by_one_stay()
    ensures { UnmetByOneStay }
{
    well_declared_passes();
}

/// A list of one item affects what the item affects, and the same runs meet it.
pub fn one_item_alone()
    ensures affects { OneAffects }
    ensures meets { OneMeets }
{}

/// Two scripts have a list of differing items exactly if they are equal after the bodies of all routines and the terms
/// of all groupings are replaced by holes. A script differs from itself in no item.
pub fn only_items_differ()
    ensures only { OnlyItemsDiffer }
    ensures more { MoreDiffers }
    ensures alike { AlikeDifferNowhere }
{}

/// Two scripts agree outside what an edit of one of the items in which they differ affects. In a well-declared script,
/// these are closed under what is built from them. The routines and groupings of the differing items are in the script.
pub fn differing_agree()
    ensures agree { DifferingAgree }
    ensures there { DifferingAreThere }
{
    well_declared_passes();
}

/// In a well-declared script, a word whose run met nothing that an edit of one of the differing items affects runs alike
/// under the other script, and touches the same.
pub fn differing_stay()
    ensures { DifferingStay }
{
    well_declared_passes();
}
