//! The state of a run: its text, the offsets in it, and its variables.

ghost use Rattle.std.specs.Prelude.{◌≡◌, ℕ, ◌+◌, ◌-◌, ◌<◌, ◌≤◌, [], suc, length, IfOk, Some, None, false};
ghost use Rattle.sbl_semantics.specs.Fitting.{read_as};
ghost use Rattle.sbl_semantics.specs.State.{State as RunState, pay, at_place, at_difference, to_limit, saved_cursor, put_back, step_over, place_after, ahead, room, note_event};
ghost use Rattle.sbl_program.specs.AmongStrings.{Listing};
ghost use Rattle.sbl_program.specs.ProgramOf.{program_of, view_text};
ghost use Rattle.sbl_program.specs.Arithmetic.{characters};
ghost use Rattle.sbl_semantics.specs.Events.{Event' as RunEvent, event_of, view_events, Puts};
ghost use Rattle.sbl_run_state.specs.Endings.{Leads, IsSaved};
ghost use Rattle.sbl_program.specs.Rows.{pays};
ghost use Rattle.sbl_program.specs.Start.{blank, start};
ghost use Rattle.sbl_semantics.specs.Limit.{max_word_length};

mod actions;
mod control;
mod moves;
pub mod numbers;
mod seeking;
mod slices;
mod variables;

use crate::choices::Choices;
use crate::halt::Halt;
use crate::slots::Slots;
use crate::state::variables::{
    all_integers, reset_booleans, reset_integers, reset_strings, string_of,
};
use crate::touches::TouchLog;
use sbl_ast::Mode;
use sbl_program::{Program, StringTerm};
use sbl_semantics::{Event, SavedCursor};
use std::alloc::{AllocError, Global};
use std::marker::Model;
use std::mem;

/// The maximum number of characters of a word (our own choice).
pub const MAX_WORD_LENGTH: usize = 255;

/// The maximum number of characters in the text of a run.
const MAX_TEXT_LENGTH: usize = 1024;

/// The state of a run.
#[derive(Drop)]
pub struct State {
    text: Vec<char>,
    cursor: usize,
    left: usize,
    beyond: usize,
    bra: usize,
    ket: usize,
    integers: Slots<i32>,
    booleans: Slots<bool>,
    strings: Slots<Vec<char>>,
    choices: Choices,
    routine: usize,
    touched: TouchLog,
    events: Option<Vec<Event>>,
    steps: u32,
    // The buffer for the next splice, and buffers for the choices of the next calls.
    spare: Vec<char>,
    spares: Vec<Box<Slots<usize>>>,
}

impl Model for State {
    ghost use Rattle.std.specs.Prelude.{map, pos, false};
    ghost use Rattle.sbl_semantics.specs.State.{State as RunState};
    ghost use Rattle.sbl_run_state.specs.Endings.{IsWithin};
    ghost use Rattle.sbl_semantics.specs.Events.{view_events};
    ghost use Rattle.sbl_run_state.specs.Slots.{text_or_empty, value_or};

    ghost Value = { RunState };

    ghost view = { λ s. record { text = s.text.items; cursor = s.cursor; left = s.left; beyond = s.beyond; bra = s.bra; ket = s.ket; integers = map (value_or (pos 0)) s.integers; booleans = map (value_or false) s.booleans; strings = map text_or_empty s.strings; choices = s.choices; routine = s.routine; touched = s.touched; events = view_events s.events; steps = s.steps } };

    ghost invariant = { λ s. IsWithin s.text.items s.cursor s.left s.beyond s.bra s.ket };
}

impl State {
    /// Returns a state with nothing in it. Buffers are made when they are needed. Does not allocate.
    pub fn new(alloc: Global) -> State
        ensures { result ≡ blank }
    {
        State {
            text: Vec::new(alloc),
            cursor: 0,
            left: 0,
            beyond: 0,
            bra: 0,
            ket: 0,
            integers: Slots::new(alloc),
            booleans: Slots::new(alloc),
            strings: Slots::new(alloc),
            choices: Choices::none(),
            routine: 0,
            touched: TouchLog::new(alloc),
            events: None,
            steps: 0,
            spare: Vec::new(alloc),
            spares: Vec::new(alloc),
        }
    }

    /// Starts a run of a word with this many steps, whatever ran before in these buffers. The time does not depend on how
    /// many variables the program has. Returns `AllocError` if an allocation fails.
    #[inline(always)]
    pub fn restart(
        &mut self,
        program: &Program,
        word: &[char],
        steps: u32,
    ) -> Result<(), AllocError>
        requires { length word.now ≤ max_word_length }
        ensures { (tables : ℕ → Listing) → IfOk result (λ _. self.new ≡ start (program_of tables program.now) word.now steps) }
    {
        self.touched.clear();
        self.begin(program, word, steps)
    }

    /// Starts a run as `restart` does, but keeps what was touched before. A run that is not asked what it touches then records only
    /// what no run before it touched. Returns `AllocError` if an allocation fails.
    #[inline(always)]
    pub fn begin(&mut self, program: &Program, word: &[char], steps: u32) -> Result<(), AllocError>
        requires { length word.now ≤ max_word_length }
        ensures { (tables : ℕ → Listing) → IfOk result (λ _. self.new ≡ record (start (program_of tables program.now) word.now steps) { touched = self.old.touched }) }
    {
        self.cursor = 0;
        self.left = 0;
        self.beyond = 0;
        self.bra = 0;
        self.ket = 0;
        self.text.clear();
        self.text.extend_from_slice(word)?;
        reset_integers(&mut self.integers, program.integers);
        reset_booleans(&mut self.booleans, program.booleans);
        reset_strings(&mut self.strings, program.strings);
        self.choices = Choices::none();
        self.routine = 0;
        self.events = None;
        self.steps = steps;
        Ok(())
    }

    /// Starts to record events.
    pub fn record_events(&mut self)
        ensures { self.new ≡ record self.old { events = Some [] } }
    {
        self.events = Some(Vec::new(*self.text.allocator()));
    }

    /// Returns the recorded events, or `None` if the run records none. It keeps none of them, and records no more.
    pub fn take_events(&mut self) -> Option<Vec<Event>>
        ensures events { view_events result ≡ self.old.events }
        ensures rest { self.new ≡ record self.old { events = None } }
    {
        mem::replace(&mut self.events, None)
    }

    // Records an event, if the run records events. Returns `AllocError` if an allocation fails.
    #[inline(always)]
    fn note_event(&mut self, event: Event) -> Result<(), AllocError>
        ensures { IfOk result (λ _. self.new ≡ note_event (event_of event) self.old) }
    {
        if let Some(events) = &mut self.events {
            events.push(event)?;
        }
        Ok(())
    }

    // Does the same for the characters that replace those between two offsets of the text.
    #[inline(always)]
    fn note_put(&mut self, from: usize, to: usize, term: &StringTerm) -> Result<(), AllocError>
        ensures { IfOk result (λ _. self.new ≡ note_event (Puts from to (characters (view_text term.now) self.old)) self.old) }
    {
        if self.records_events() {
            let put = self.copy_of(term)?;
            self.note_event(Event::Puts(from, to, put))?;
        }
        Ok(())
    }

    // Returns whether the run records events. If not, an event changes nothing.
    #[inline(always)]
    fn records_events(&self) -> bool
        ensures { (x : RunEvent) → result ≡ false → note_event x self.now ≡ self.now }
    {
        match &self.events {
            None => false,
            Some(_) => true,
        }
    }

    // Returns a copy of a literal or of the value of a string variable. Returns `AllocError` if an allocation fails.
    fn copy_of(&self, term: &StringTerm) -> Result<Vec<char>, AllocError>
        ensures { IfOk result (λ v. v.items ≡ characters (view_text term.now) self.now) }
    {
        let alloc = *self.text.allocator();
        self.characters(term).to_vec(alloc)
    }

    /// Returns the values of the integer variables, by number. Returns `AllocError` if an allocation fails.
    pub fn integers(&self, alloc: Global) -> Result<Vec<i32>, AllocError>
        ensures { IfOk result (λ v. v.items ≡ self.now.integers) }
    {
        all_integers(alloc, &self.integers)
    }

    /// Returns the number of steps that are left.
    pub fn steps(&self) -> u32
        ensures { result ≡ self.now.steps }
    {
        self.steps
    }

    /// Uses one step. Returns `Steps` if none is left.
    #[inline(always)]
    pub fn pay(&mut self) -> Result<(), Halt>
        ensures { Leads result self.new (pay self.old.steps self.old) }
    {
        if self.steps == 0 {
            return Err(Halt::Steps);
        }
        self.steps -= 1;
        Ok(())
    }

    // Uses all steps that are left. It is a call, so that enough steps cost a comparison and a subtraction.
    #[cold]
    #[inline(never)]
    fn use_all_steps(&mut self)
        ensures { self.new ≡ record self.old { steps = 0 } }
    {
        self.steps = 0;
    }

    // Uses this many steps. Returns `Steps` if fewer are left; then these are used.
    #[inline(always)]
    pub fn pay_for(&mut self, count: u32) -> Result<(), Halt>
        ensures leads { Leads result self.new (pays count self.old) }
        ensures no_more { IfOk result (λ _. self.new.steps ≤ self.old.steps) }
    {
        if count > self.steps {
            self.use_all_steps();
            return Err(Halt::Steps);
        }
        self.steps -= count;
        Ok(())
    }

    /// Uses this many steps, and one more. Returns `Steps` if fewer are left; then these are used.
    #[inline(always)]
    pub fn pay_with_own(&mut self, count: u32) -> Result<(), Halt>
        ensures leads { Leads result self.new (pays (suc count) self.old) }
        ensures fewer { IfOk result (λ _. self.new.steps < self.old.steps) }
    {
        if count >= self.steps {
            self.use_all_steps();
            return Err(Halt::Steps);
        }
        self.steps -= count + 1;
        Ok(())
    }

    // Sets the cursor to an offset.
    #[inline(always)]
    fn go_to(&mut self, place: usize) -> Result<(), Halt>
        ensures { Leads result self.new (at_place place self.old) }
    {
        if place > self.text.len() {
            return Err(Halt::Cursor);
        }
        self.cursor = place;
        Ok(())
    }

    // Sets the cursor to the offset `b` to the left of `a`.
    #[inline(always)]
    fn go_to_difference(&mut self, a: usize, b: usize) -> Result<(), Halt>
        ensures { Leads result self.new (at_difference a b self.old) }
    {
        if a < b {
            return Err(Halt::Cursor);
        }
        self.go_to(a - b)
    }

    /// Returns what is needed to put the cursor back here.
    #[inline(always)]
    pub fn saved_cursor(&self) -> SavedCursor
        ensures value { result ≡ saved_cursor self.now }
        ensures small { IsSaved result }
        ensures within { result.cursor ≤ result.length }
    {
        SavedCursor {
            cursor: self.cursor,
            beyond: self.beyond,
            length: self.text.len(),
        }
    }

    /// Puts the cursor back to a saved cursor. Returns `Cursor` if that offset is outside the text.
    #[inline(always)]
    pub fn put_back(&mut self, mode: Mode, from: SavedCursor) -> Result<(), Halt>
        requires { IsSaved from }
        ensures leads { Leads result self.new (put_back mode from self.old) }
        ensures same_steps { IfOk result (λ _. self.new.steps ≡ self.old.steps) }
    {
        match mode {
            Mode::Forward => self.go_to(from.cursor),
            Mode::Backward => {
                let whole = self.text.len() + from.beyond + from.cursor;
                let part = self.beyond + from.length;
                self.go_to_difference(whole, part)
            }
        }
    }

    // Moves the cursor over this many characters, which need not be ahead.
    #[inline(always)]
    fn step_over(&mut self, mode: Mode, n: usize) -> Result<(), Halt>
        ensures leads { Leads result self.new (step_over mode n self.old) }
        ensures same_steps { IfOk result (λ _. self.new.steps ≡ self.old.steps) }
    {
        match mode {
            Mode::Forward => {
                if n > self.text.len() - self.cursor {
                    return Err(Halt::Cursor);
                }
                self.cursor += n;
                Ok(())
            }
            Mode::Backward => {
                let cursor = self.cursor;
                self.go_to_difference(cursor, n)
            }
        }
    }

    /// Sets the cursor just after a string of this many characters that begins at a saved cursor. Returns `Cursor` if
    /// one of the two offsets is outside the text.
    #[inline(always)]
    pub fn place_after(&mut self, mode: Mode, from: SavedCursor, n: usize) -> Result<(), Halt>
        requires { IsSaved from }
        ensures leads { Leads result self.new (place_after mode from n self.old) }
        ensures same_steps { IfOk result (λ _. self.new.steps ≡ self.old.steps) }
    {
        self.put_back(mode, from)?;
        self.step_over(mode, n)
    }

    /// `tolimit`. Returns `Cursor` if the limit is outside the text.
    pub fn to_limit(&mut self, mode: Mode) -> Result<(), Halt>
        ensures leads { Leads result self.new (to_limit mode self.old) }
        ensures same_steps { IfOk result (λ _. self.new.steps ≡ self.old.steps) }
    {
        match mode {
            Mode::Forward => {
                let length = self.text.len();
                let beyond = self.beyond;
                self.go_to_difference(length, beyond)
            }
            Mode::Backward => {
                let left = self.left;
                self.go_to(left)
            }
        }
    }

    /// Returns the characters of a literal or of a string variable.
    #[inline(always)]
    pub fn characters<'a>(&'a self, term: &'a StringTerm) -> &'a [char]
        ensures { result.now ≡ characters (view_text term.now) self.now }
    {
        match term {
            StringTerm::Literal(string) => string,
            StringTerm::Variable(number) => string_of(&self.strings, *number),
        }
    }

    // Returns the limit as an offset of the text; 0 if it would be left of the text.
    #[inline(always)]
    fn limit(&self) -> usize
        ensures value { result ≡ length self.now.text - self.now.beyond }
        ensures within { result ≤ length self.now.text }
    {
        self.text.len().saturating_sub(self.beyond)
    }

    /// Returns the part of the text that is ahead, in text order.
    #[inline(always)]
    pub fn part_ahead(&self, mode: Mode) -> &[char]
        ensures value { read_as mode result.now ≡ ahead mode self.now }
        ensures len { length result.now ≡ room mode self.now }
    {
        match mode {
            Mode::Forward => {
                let limit = self.limit();
                if self.cursor < limit {
                    &self.text[self.cursor..limit]
                } else {
                    &[]
                }
            }
            Mode::Backward => {
                if self.left < self.cursor {
                    &self.text[self.left..self.cursor]
                } else {
                    &[]
                }
            }
        }
    }
}
