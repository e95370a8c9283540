//! Laws of sbl_uses (specs/Searches.antt), written out.

ghost use Rattle.std.specs.Prelude.{◌≡◌, ℕ, List, Option, Some, None};
ghost use Rattle.sbl_semantics.specs.Meaning.{Offer};
ghost use Rattle.sbl_semantics.specs.Outcome.{events_of};
ghost use Rattle.sbl_semantics.specs.Items.{Body, DeclaredNames};
ghost use Rattle.sbl_semantics.specs.Landmarks.{Among};
ghost use Rattle.sbl_semantics.specs.Events.{Event'};
ghost use Rattle.sbl_semantics.specs.State.{State};
ghost use Rattle.sbl_ast.specs.Source.{Source};
ghost use Rattle.sbl_ast.specs.declared.mode.Mode.{Mode};
ghost use Rattle.sbl_uses.specs.Searches.{Call, AllRefused, OneTaken, IsSearch, first_length};
ghost use Rattle.law_tests.specs.Searches.{ArePlain, EachSearch, TookFirst, search_in};

use sbl_uses::laws::{each_search_takes_first, plain_searches_take_longest, searches_take_first};

/// Needs the whole of the law `searches_take_first`.
pub fn needs_searches_take_first()
    ensures { (script : Source) (levels : ℕ) (a : Among) (m : Mode) (s : State) (before : List Event') → s.events ≡ Some before → TookFirst script a m s before (search_in script levels a m s) }
{
    searches_take_first();
}

/// Needs the whole of the law `each_search_takes_first`.
pub fn needs_each_search_takes_first()
    ensures { (script : Source) (word : List ℕ) (limit : ℕ) → EachSearch (events_of script word limit) (IsSearch script word limit) }
{
    each_search_takes_first();
}

/// Needs the whole of the law `plain_searches_take_longest`.
pub fn needs_plain_searches_take_longest()
    ensures longest { (ns : DeclaredNames) (bodies : List ℕ → Option Body) (os : List Offer) (calls : List Call) (n : ℕ) → ArePlain os → OneTaken ns bodies os n calls → first_length os ≡ Some n }
    ensures one { (ns : DeclaredNames) (bodies : List ℕ → Option Body) (os : List Offer) (calls : List Call) → ArePlain os → AllRefused ns bodies os calls → first_length os ≡ None }
{
    plain_searches_take_longest();
}
