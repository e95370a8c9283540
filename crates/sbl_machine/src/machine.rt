//! The machine.

ghost use Rattle.std.specs.Prelude.{◌≡◌, ℕ, ◌<◌, ◌≤◌, ◌+◌, length, map, slice_index_or, [], IfOk, MatchResult, ◌↔◌, Err};
ghost use Rattle.std.specs.List.{list_any};
ghost use Rattle.sbl_semantics.specs.Limit.{max_levels, max_word_length};
ghost use Rattle.sbl_ast.specs.declared.mode.Mode.TheVariants.{Forward};
ghost use Rattle.sbl_program.specs.AmongStrings.{Listing};
ghost use Rattle.sbl_machine.specs.MachineOf.{IsMachineOf, machine_plan};
ghost use Rattle.sbl_program.specs.ProgramOf.{program_of};
ghost use Rattle.sbl_run_state.specs.Endings.{Follows};
ghost use Rattle.sbl_machine.specs.Marks.{AreMarksOf, Defines};
ghost use Rattle.sbl_program.specs.Run.{calls};
ghost use Rattle.sbl_program.specs.Start.{start};
ghost use Rattle.sbl_semantics.specs.Outcome.{integers_at, integers_of, outcome_at, outcome_of, run_of, touched_at, touches_of, used_at, used_of, events_at, events_in, events_of};
ghost use Rattle.sbl_semantics.specs.TouchedItems.{item_of, items_in, items_of, item_of_touch, names_of, same_item, touched_items};
ghost use Rattle.sbl_machine.specs.ItemRefs.{items_of_refs};
ghost use Rattle.sbl_machine.specs.inside.LastTouches.{touched_in};
ghost use Rattle.sbl_ast.specs.Source.{Source};
ghost use Rattle.sbl_script.specs.ParsedScript.{source_of as source};
ghost use Rattle.sbl_semantics.specs.State.{Ending};
ghost use Rattle.sbl_semantics.specs.Events.{event_of, view_events};

use crate::item_ref::ItemRef;
use crate::marks::marks_of;
use crate::meter::Meter;
use crate::naming::{Names, is_touched, item_refs, items_touched, routine_at};
use crate::outcome::{Ran, RunEnd, Why};
use crate::run_stop::RunStop;
use sbl_ast::Mode;
use sbl_code::Code;
use sbl_compiler::{Compilation, compile_items};
use sbl_interpreter::Runner;
use sbl_last_runs::RunTrace;
use sbl_program::AmongSearch;
use sbl_run_state::{Event, Halt, RunFault, State, TableList, Touch, TouchLog, tables_of};
use sbl_script::Script;
use sbl_script::laws::is_spelled;
use sbl_semantics::{Item, Outcome};
use std::alloc::{AllocError, Global};
use std::collections::BTreeSet;

/// The maximum depth of calls of routines, counting the external as 1.
const MAX_LEVELS: u32 = 32;

/// A script, ready to run.
#[derive(Drop)]
pub struct Machine<S> {
    tables: TableList<S>,
    code: Code,
    names: Names,
}

impl<S: AmongSearch> Machine<S> {
    /// Returns the machine of a script. The machine owns what it needs of the script.
    ///
    /// Returns `AllocError` if an allocation fails.
    pub fn new(alloc: Global, script: &Script) -> Result<Machine<S>, AllocError>
        ensures { IfOk result (λ m. IsMachineOf S S.entries S.mode m (source script.now)) }
    {
        let Compilation {
            program,
            amongs,
            routines,
            groupings,
        } = compile_items(alloc, script.items(), script.external())?;
        let tables = tables_of(alloc, &amongs)?;
        let code = Code::new(alloc, program)?;
        Ok(Machine {
            tables: TableList { tables },
            code,
            names: Names {
                routines,
                groupings,
            },
        })
    }

    /// Frees the machine, as a drop does. A crate that drops a machine has to prove its destructors again; a crate that
    /// calls this instead does not. Does not allocate.
    pub fn discard(self) {}

    /// Runs the script on a word with at most `limit` steps, and returns the items that the run touched, too. Adds one
    /// to the count of the meter.
    ///
    /// Returns `MeterFull` exactly if the count is `u64::MAX`, and `OutOfMemory` if an allocation fails. The count then
    /// stays.
    pub fn run(
        &self,
        alloc: Global,
        meter: &mut Meter,
        word: &[char],
        limit: u32,
    ) -> Result<Ran, RunStop>
        requires { length word.now ≤ max_word_length }
        ensures outcome { (script : Source) → IsMachineOf S S.entries S.mode self.now script → IfOk result (λ ran. outcome_of ran.outcome ≡ run_of script word.now limit) }
        ensures touched { (script : Source) → IsMachineOf S S.entries S.mode self.now script → IfOk result (λ ran. items_in ran.touched ≡ touched_items script word.now limit) }
        ensures used { (script : Source) → IsMachineOf S S.entries S.mode self.now script → IfOk result (λ ran. ran.used ≡ used_of script word.now limit) }
        ensures counted { MatchResult result (λ _. meter.new ≡ meter.old + 1) (λ _. meter.new ≡ meter.old) }
        ensures full { (result ≡ Err RunStop.MeterFull) ↔ (meter.old ≡ u64.MAX) }
    {
        let RunTrace {
            outcome,
            touches,
            used,
        } = self.run_unless_full(alloc, meter, word, limit)?;
        let touched = self.items(alloc, touches.as_slice())?;
        meter.count_run();
        Ok(Ran {
            outcome,
            touched,
            used,
        })
    }

    /// The same as `run`, but returns what the run touched by number. `items` and `touched` read these numbers.
    pub fn trace(
        &self,
        alloc: Global,
        meter: &mut Meter,
        word: &[char],
        limit: u32,
    ) -> Result<RunTrace, RunStop>
        requires { length word.now ≤ max_word_length }
        ensures outcome { (script : Source) → IsMachineOf S S.entries S.mode self.now script → IfOk result (λ traced. outcome_of traced.outcome ≡ run_of script word.now limit) }
        ensures touches { (script : Source) → IsMachineOf S S.entries S.mode self.now script → IfOk result (λ traced. traced.touches.items ≡ touches_of script word.now limit) }
        ensures used { (script : Source) → IsMachineOf S S.entries S.mode self.now script → IfOk result (λ traced. traced.used ≡ used_of script word.now limit) }
        ensures counted { MatchResult result (λ _. meter.new ≡ meter.old + 1) (λ _. meter.new ≡ meter.old) }
        ensures full { (result ≡ Err RunStop.MeterFull) ↔ (meter.old ≡ u64.MAX) }
    {
        let traced = self.run_unless_full(alloc, meter, word, limit)?;
        meter.count_run();
        Ok(traced)
    }

    /// The same as `run`, but does not return what the run touched.
    pub fn run_untraced(
        &self,
        alloc: Global,
        meter: &mut Meter,
        word: &[char],
        limit: u32,
    ) -> Result<RunEnd, RunStop>
        requires { length word.now ≤ max_word_length }
        ensures outcome { (script : Source) → IsMachineOf S S.entries S.mode self.now script → IfOk result (λ ended. outcome_of ended.outcome ≡ run_of script word.now limit) }
        ensures used { (script : Source) → IsMachineOf S S.entries S.mode self.now script → IfOk result (λ ended. ended.used ≡ used_of script word.now limit) }
        ensures counted { MatchResult result (λ _. meter.new ≡ meter.old + 1) (λ _. meter.new ≡ meter.old) }
        ensures full { (result ≡ Err RunStop.MeterFull) ↔ (meter.old ≡ u64.MAX) }
    {
        if meter.is_full() {
            return Err(RunStop::MeterFull);
        }
        let stem = meter.take_stem(alloc);
        let ended = self.run_unread(alloc, &mut meter.state, stem, word, limit)?;
        meter.count_run();
        Ok(ended)
    }

    /// Runs the script on a word with at most `limit` steps, and returns the events of the run and the values of the integer
    /// variables at its end, too.
    ///
    /// Returns `AllocError` if an allocation fails.
    pub fn why(&self, alloc: Global, word: &[char], limit: u32) -> Result<Why, AllocError>
        requires { length word.now ≤ max_word_length }
        ensures outcome { (script : Source) → IsMachineOf S S.entries S.mode self.now script → IfOk result (λ why. outcome_of why.outcome ≡ run_of script word.now limit) }
        ensures events { (script : Source) → IsMachineOf S S.entries S.mode self.now script → IfOk result (λ why. map event_of why.events.items ≡ events_of script word.now limit) }
        ensures used { (script : Source) → IsMachineOf S S.entries S.mode self.now script → IfOk result (λ why. why.used ≡ used_of script word.now limit) }
        ensures integers { (script : Source) → IsMachineOf S S.entries S.mode self.now script → IfOk result (λ why. why.integers.items ≡ integers_of script word.now limit) }
    {
        let mut state = State::new(alloc);
        self.why_in(alloc, &mut state, word, limit)
    }

    /// Returns the name of the routine with this number, or an empty name if there is none. Routines count from 0, in the
    /// order of their definitions. Does not allocate.
    pub fn routine_name(&self, number: usize) -> &str
        ensures { (script : Source) → IsMachineOf S S.entries S.mode self.now script → result.now ≡ slice_index_or (names_of script).routines number [] }
    {
        routine_at(&self.names, number)
    }

    /// Returns the items that were touched, each once, in order: routines by name in code point order, then amongs by
    /// routine and number, then groupings by name. If no routine or grouping has a number, its name is empty.
    ///
    /// Returns `AllocError` if an allocation fails.
    pub fn items(&self, alloc: Global, touches: &[Touch]) -> Result<BTreeSet<Item>, AllocError>
        ensures { (script : Source) → IsMachineOf S S.entries S.mode self.now script → IfOk result (λ set. items_in set ≡ items_of (names_of script) touches.now) }
    {
        items_touched(alloc, &self.names, touches)
    }

    /// The same as `items`, but the items borrow their names from the machine.
    pub fn item_refs(
        &self,
        alloc: Global,
        touches: &[Touch],
    ) -> Result<BTreeSet<ItemRef<'_>>, AllocError>
        ensures { (script : Source) → IsMachineOf S S.entries S.mode self.now script → IfOk result (λ set. items_of_refs set ≡ items_of (names_of script) touches.now) }
    {
        item_refs(alloc, &self.names, touches)
    }

    /// Whether an item is one of those that were touched. Does not allocate.
    pub fn is_among_touches(&self, touches: &[Touch], item: &Item) -> bool
        ensures { (script : Source) → IsMachineOf S S.entries S.mode self.now script → result ≡ list_any (same_item (item_of item.now)) (map (item_of_touch (names_of script)) touches.now) }
    {
        is_touched(&self.names, touches, item)
    }

    /// Returns what an edit of one of some items affects, by number: the items and all groupings that are built from
    /// one of them, directly or through others. This holds if the machine is that of the script and the script defines
    /// the routines and groupings of the items.
    ///
    /// # Errors
    ///
    /// Returns `AllocError` if an allocation fails.
    pub fn affected_touches(
        &self,
        alloc: Global,
        script: &Script,
        items: &[Item],
    ) -> Result<TouchLog, AllocError>
        ensures { IsMachineOf S S.entries S.mode self.now (source script.now) → Defines (source script.now) (map item_of items.now) → IfOk result (AreMarksOf (source script.now) (map item_of items.now)) }
    {
        is_spelled(script);
        marks_of(alloc, &self.names, script.items(), items)
    }

    // Runs with the state that the meter keeps, and does not count the run. Returns `MeterFull` if the meter cannot
    // count another run, and `OutOfMemory` if an allocation fails.
    fn run_unless_full(
        &self,
        alloc: Global,
        meter: &mut Meter,
        word: &[char],
        limit: u32,
    ) -> Result<RunTrace, RunStop>
        requires { length word.now ≤ max_word_length }
        ensures outcome { (script : Source) → IsMachineOf S S.entries S.mode self.now script → IfOk result (λ traced. outcome_of traced.outcome ≡ run_of script word.now limit) }
        ensures touches { (script : Source) → IsMachineOf S S.entries S.mode self.now script → IfOk result (λ traced. traced.touches.items ≡ touches_of script word.now limit) }
        ensures used { (script : Source) → IsMachineOf S S.entries S.mode self.now script → IfOk result (λ traced. traced.used ≡ used_of script word.now limit) }
        ensures uncounted { meter.new ≡ meter.old }
        ensures full { (result ≡ Err RunStop.MeterFull) ↔ (meter.old ≡ u64.MAX) }
        ensures room { IfOk result (λ _. meter.old < u64.MAX) }
    {
        if meter.is_full() {
            return Err(RunStop::MeterFull);
        }
        let stem = meter.take_stem(alloc);
        let mut touches = meter.take_touches(alloc);
        let RunEnd { outcome, used } = self.run_in(alloc, &mut meter.state, stem, word, limit)?;
        touches.clear();
        touches.extend_from_slice(last_touches(&meter.state))?;
        Ok(RunTrace {
            outcome,
            touches,
            used,
        })
    }

    // Runs in the state of an earlier run, or in a new state, which it then keeps. The stem is put into `stem`.
    fn run_in(
        &self,
        alloc: Global,
        kept: &mut Option<State>,
        stem: Vec<char>,
        word: &[char],
        limit: u32,
    ) -> Result<RunEnd, AllocError>
        requires { length word.now ≤ max_word_length }
        ensures outcome { (script : Source) → IsMachineOf S S.entries S.mode self.now script → IfOk result (λ ended. outcome_of ended.outcome ≡ run_of script word.now limit) }
        ensures touches { (script : Source) → IsMachineOf S S.entries S.mode self.now script → IfOk result (λ _. touched_in kept.new ≡ touches_of script word.now limit) }
        ensures used { (script : Source) → IsMachineOf S S.entries S.mode self.now script → IfOk result (λ ended. ended.used ≡ used_of script word.now limit) }
    {
        match kept {
            Some(state) => self.ran(state, stem, word, limit),
            None => self.run_first(alloc, kept, stem, word, limit),
        }
    }

    // Runs in a new state, which it then keeps. It is a call, so that other runs have no room for a state to clear.
    #[cold]
    #[inline(never)]
    fn run_first(
        &self,
        alloc: Global,
        kept: &mut Option<State>,
        stem: Vec<char>,
        word: &[char],
        limit: u32,
    ) -> Result<RunEnd, AllocError>
        requires { length word.now ≤ max_word_length }
        ensures outcome { (script : Source) → IsMachineOf S S.entries S.mode self.now script → IfOk result (λ ended. outcome_of ended.outcome ≡ run_of script word.now limit) }
        ensures touches { (script : Source) → IsMachineOf S S.entries S.mode self.now script → IfOk result (λ _. touched_in kept.new ≡ touches_of script word.now limit) }
        ensures used { (script : Source) → IsMachineOf S S.entries S.mode self.now script → IfOk result (λ ended. ended.used ≡ used_of script word.now limit) }
    {
        let mut state = State::new(alloc);
        let ended = self.ran(&mut state, stem, word, limit)?;
        *kept = Some(state);
        Ok(ended)
    }

    // Does what `run_in` does for a run whose touches nobody reads: those of earlier runs stay, so that few are recorded.
    fn run_unread(
        &self,
        alloc: Global,
        kept: &mut Option<State>,
        stem: Vec<char>,
        word: &[char],
        limit: u32,
    ) -> Result<RunEnd, AllocError>
        requires { length word.now ≤ max_word_length }
        ensures outcome { (script : Source) → IsMachineOf S S.entries S.mode self.now script → IfOk result (λ ended. outcome_of ended.outcome ≡ run_of script word.now limit) }
        ensures used { (script : Source) → IsMachineOf S S.entries S.mode self.now script → IfOk result (λ ended. ended.used ≡ used_of script word.now limit) }
    {
        match kept {
            Some(state) => self.ended_unread(state, stem, word, limit),
            None => self.run_first(alloc, kept, stem, word, limit),
        }
    }

    // Makes a run with its events, in this state.
    fn why_in(
        &self,
        alloc: Global,
        state: &mut State,
        word: &[char],
        limit: u32,
    ) -> Result<Why, AllocError>
        requires { length word.now ≤ max_word_length }
        ensures outcome { (script : Source) → IsMachineOf S S.entries S.mode self.now script → IfOk result (λ why. outcome_of why.outcome ≡ run_of script word.now limit) }
        ensures events { (script : Source) → IsMachineOf S S.entries S.mode self.now script → IfOk result (λ why. map event_of why.events.items ≡ events_of script word.now limit) }
        ensures used { (script : Source) → IsMachineOf S S.entries S.mode self.now script → IfOk result (λ why. why.used ≡ used_of script word.now limit) }
        ensures integers { (script : Source) → IsMachineOf S S.entries S.mode self.now script → IfOk result (λ why. why.integers.items ≡ integers_of script word.now limit) }
    {
        self.restart(state, word, limit)?;
        state.record_events();
        let end = self.call_external(state);
        let ended = end_of(end, limit, state, Vec::new(alloc))?;
        let integers = state.integers(alloc)?;
        Ok(Why {
            outcome: ended.outcome,
            events: events_or_none(alloc, state.take_events()),
            integers,
            used: ended.used,
        })
    }

    // Starts a run in this state. Returns `AllocError` if an allocation fails.
    fn restart(&self, state: &mut State, word: &[char], limit: u32) -> Result<(), AllocError>
        requires { length word.now ≤ max_word_length }
        ensures { (tables : ℕ → Listing) → IfOk result (λ _. state.new ≡ start (program_of tables self.now.code) word.now limit) }
    {
        state.restart(self.code.program(), word, limit)
    }

    // Starts a run in this state, with what was touched before. Returns `AllocError` if an allocation fails.
    fn begin(&self, state: &mut State, word: &[char], limit: u32) -> Result<(), AllocError>
        requires { length word.now ≤ max_word_length }
        ensures { (tables : ℕ → Listing) → IfOk result (λ _. state.new ≡ record (start (program_of tables self.now.code) word.now limit) { touched = state.old.touched }) }
    {
        state.begin(self.code.program(), word, limit)
    }

    // Calls the external.
    fn call_external(&self, state: &mut State) -> Result<bool, Halt>
        ensures { Follows result state.new (calls (machine_plan S S.entries S.mode self.now) max_levels self.now.code.external Forward state.old) }
    {
        let runner = Runner {
            tables: &self.tables,
            code: &self.code,
            levels: MAX_LEVELS,
            mode: Mode::Forward,
        };
        runner.run_call(self.code.program().external, state)
    }

    // Makes the run.
    fn ran(
        &self,
        state: &mut State,
        stem: Vec<char>,
        word: &[char],
        limit: u32,
    ) -> Result<RunEnd, AllocError>
        requires { length word.now ≤ max_word_length }
        ensures outcome { (script : Source) → IsMachineOf S S.entries S.mode self.now script → IfOk result (λ ended. outcome_of ended.outcome ≡ run_of script word.now limit) }
        ensures touches { (script : Source) → IsMachineOf S S.entries S.mode self.now script → IfOk result (λ _. state.new.touched ≡ touches_of script word.now limit) }
        ensures used { (script : Source) → IsMachineOf S S.entries S.mode self.now script → IfOk result (λ ended. ended.used ≡ used_of script word.now limit) }
    {
        self.restart(state, word, limit)?;
        let end = self.call_external(state);
        end_of(end, limit, state, stem)
    }

    // Makes a run whose touches nobody reads.
    fn ended_unread(
        &self,
        state: &mut State,
        stem: Vec<char>,
        word: &[char],
        limit: u32,
    ) -> Result<RunEnd, AllocError>
        requires { length word.now ≤ max_word_length }
        ensures outcome { (script : Source) → IsMachineOf S S.entries S.mode self.now script → IfOk result (λ ended. outcome_of ended.outcome ≡ run_of script word.now limit) }
        ensures used { (script : Source) → IsMachineOf S S.entries S.mode self.now script → IfOk result (λ ended. ended.used ≡ used_of script word.now limit) }
    {
        self.begin(state, word, limit)?;
        let end = self.call_external(state);
        end_of(end, limit, state, stem)
    }
}

/// Returns how a run ended, with its stem in place of `stem`. Returns `AllocError` if it ended because an allocation failed,
/// or if one fails.
#[inline(always)]
fn end_of(
    end: Result<bool, Halt>,
    limit: u32,
    state: &State,
    mut stem: Vec<char>,
) -> Result<RunEnd, AllocError>
    ensures outcome { (e : Ending) → Follows end state.now e → IfOk result (λ ended. outcome_of ended.outcome ≡ outcome_at e) }
    ensures touches { (e : Ending) → Follows end state.now e → IfOk result (λ _. state.now.touched ≡ touched_at e) }
    ensures used { (e : Ending) → Follows end state.now e → IfOk result (λ ended. ended.used ≡ used_at limit e) }
    ensures events { (e : Ending) → Follows end state.now e → IfOk result (λ _. events_in state.now.events ≡ events_at e) }
    ensures integers { (e : Ending) → Follows end state.now e → IfOk result (λ _. state.now.integers ≡ integers_at e) }
{
    let paid = u64::from(limit.saturating_sub(state.steps()));
    match end {
        Err(halt) => match halt.fault() {
            None => Err(AllocError),
            Some(fault) => Ok(RunEnd {
                outcome: Outcome::Refused(fault),
                used: if fault == RunFault::Steps {
                    u64::from(limit) + 1
                } else {
                    paid
                },
            }),
        },
        Ok(_) => {
            stem.clear();
            stem.extend_from_slice(state.text())?;
            Ok(RunEnd {
                outcome: Outcome::Stem(stem),
                used: paid,
            })
        }
    }
}

/// Returns what the last run touched, or nothing if there was no run.
fn last_touches(kept: &Option<State>) -> &[Touch]
    ensures { result.now ≡ touched_in kept.now }
{
    match kept {
        Some(state) => state.touches(),
        None => &[],
    }
}

/// Returns the recorded events, or no events if the run recorded none.
fn events_or_none(alloc: Global, events: Option<Vec<Event>>) -> Vec<Event>
    ensures { map event_of result.items ≡ events_in (view_events events) }
{
    match events {
        None => Vec::new(alloc),
        Some(events) => events,
    }
}
