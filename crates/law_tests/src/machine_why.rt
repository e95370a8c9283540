//! Laws of sbl_machine (specs/Why.antt), written out.

ghost use Rattle.std.specs.Prelude.{◌≡◌, ℕ, List, []};
ghost use Rattle.std.specs.List.{filter};
ghost use Rattle.sbl_semantics.specs.Meaning.{ending_with_events};
ghost use Rattle.sbl_semantics.specs.Outcome.{Stem, integers_at, integers_of, outcome_at, run_of, touched_at, touches_of, used_at, used_of, events_of};
ghost use Rattle.sbl_ast.specs.Source.{Source};
ghost use Rattle.sbl_machine.specs.Why.{text_after, touches_after, is_no_test};

use sbl_machine::laws::{events_change_nothing, events_touch, puts_give_the_stem};

/// Needs the whole of the law `events_change_nothing`.
pub fn needs_events_change_nothing()
    ensures outcome { (script : Source) (word : List ℕ) (limit : ℕ) → outcome_at (ending_with_events script word limit) ≡ run_of script word limit }
    ensures used { (script : Source) (word : List ℕ) (limit : ℕ) → used_at limit (ending_with_events script word limit) ≡ used_of script word limit }
    ensures touches { (script : Source) (word : List ℕ) (limit : ℕ) → touched_at (ending_with_events script word limit) ≡ touches_of script word limit }
    ensures integers { (script : Source) (word : List ℕ) (limit : ℕ) → integers_at (ending_with_events script word limit) ≡ integers_of script word limit }
{
    events_change_nothing();
}

/// Needs the whole of the law `puts_give_the_stem`.
pub fn needs_puts_give_the_stem()
    ensures { (script : Source) (word : List ℕ) (limit : ℕ) (stem : List ℕ) → run_of script word limit ≡ Stem stem → text_after word (events_of script word limit) ≡ stem }
{
    puts_give_the_stem();
}

/// Needs the whole of the law `events_touch`.
pub fn needs_events_touch()
    ensures { (script : Source) (word : List ℕ) (limit : ℕ) → touches_after [] (events_of script word limit) ≡ filter is_no_test (touches_of script word limit) }
{
    events_touch();
}
