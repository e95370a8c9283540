//! Parts of the state for commands that contain commands: limits, `backwards`, the choices of amongs, and calls.

ghost use Rattle.std.specs.Prelude.{◌≡◌, ◌≤◌, ◌-◌, ℕ, Option, None, length, replicate, IfOk};
ghost use Rattle.sbl_semantics.specs.Fitting.{ahead_at};
ghost use Rattle.sbl_run_state.specs.Endings.{Leads};
ghost use Rattle.sbl_semantics.specs.State.{max_text_length};
ghost use Rattle.sbl_semantics.specs.Control.{limits, limit_here, limit_back, backwards_from, backwards_end, back_in, enter};
ghost use Rattle.sbl_semantics.specs.Moves.{touch_grouping};
ghost use Rattle.sbl_semantics.specs.Choices.{choice, take_none, take_string, touch_among};
ghost use Rattle.sbl_semantics.specs.inside.ChoiceParts.{choose};
ghost use Rattle.sbl_program.specs.Search.{bound_in};

use crate::choices::Choices;
use crate::halt::Halt;
use crate::state::State;
use sbl_ast::Mode;
use sbl_semantics::{Event, Limits, Touch};
use std::alloc::AllocError;
use std::mem;

impl State {
    /// Returns the limits, to be restored after `setlimit`.
    #[inline(always)]
    pub fn limits(&self) -> Limits
        ensures value { result ≡ limits self.now }
        ensures small { (result.left ≤ max_text_length) × (result.beyond ≤ max_text_length) }
    {
        Limits {
            left: self.left,
            beyond: self.beyond,
        }
    }

    /// Sets the limit of the direction to the cursor.
    #[inline(always)]
    pub fn limit_here(&mut self, mode: Mode)
        ensures { self.new ≡ limit_here mode self.old }
    {
        match mode {
            Mode::Forward => self.beyond = self.text.len() - self.cursor,
            Mode::Backward => self.left = self.cursor,
        }
    }

    /// Restores an earlier limit.
    #[inline(always)]
    pub fn limit_back(&mut self, mode: Mode, from: Limits)
        requires { (from.left ≤ max_text_length) × (from.beyond ≤ max_text_length) }
        ensures { self.new ≡ limit_back mode from self.old }
    {
        match mode {
            Mode::Forward => self.beyond = from.beyond,
            Mode::Backward => self.left = from.left,
        }
    }

    /// Starts `backwards`. Returns `Cursor` if the limit is outside the text.
    pub fn begin_backwards(&mut self) -> Result<(), Halt>
        ensures leads { Leads result self.new (backwards_from self.old) }
        ensures same_steps { IfOk result (λ _. self.new.steps ≡ self.old.steps) }
    {
        self.left = self.cursor;
        self.to_limit(Mode::Forward)
    }

    /// Ends `backwards` after t. Returns `Cursor` if the left limit is outside the text.
    pub fn end_backwards(&mut self) -> Result<(), Halt>
        ensures leads { Leads result self.new (backwards_end self.old) }
        ensures same_steps { IfOk result (λ _. self.new.steps ≡ self.old.steps) }
    {
        let left = self.left;
        self.go_to(left)
    }

    /// Returns the text.
    pub fn text(&self) -> &[char]
        ensures { result.now ≡ self.now.text }
    {
        &self.text
    }

    /// Returns the cursor.
    pub fn place(&self) -> usize
        ensures value { result ≡ self.now.cursor }
        ensures within { result ≤ length self.now.text }
    {
        self.cursor
    }

    /// Returns the end of the part that is ahead, as an offset of the text.
    pub fn bound(&self, mode: Mode) -> usize
        ensures value { result ≡ bound_in mode self.now }
        ensures within { result ≤ length self.now.text }
    {
        match mode {
            Mode::Forward => self.limit(),
            Mode::Backward => {
                if self.left < self.text.len() {
                    self.left
                } else {
                    self.text.len()
                }
            }
        }
    }

    /// Records that the search of an among takes a string of this many characters and this group. Returns `AllocError`
    /// if an allocation fails.
    #[inline(always)]
    pub fn take_string(
        &mut self,
        among: usize,
        length: usize,
        group: usize,
    ) -> Result<(), AllocError>
        ensures { IfOk result (λ _. self.new ≡ take_string among length group self.old) }
    {
        self.choose(among, Some(group))?;
        self.note_event(Event::Finds(among, Some(length)))
    }

    /// Records that the search of an among takes no string. Returns `AllocError` if an allocation fails.
    #[inline(always)]
    pub fn take_none(&mut self, among: usize) -> Result<(), AllocError>
        ensures { IfOk result (λ _. self.new ≡ take_none among self.old) }
    {
        self.choose(among, None)?;
        self.note_event(Event::Finds(among, None))
    }

    // Stores the group of the string that the search of an among took, or that it took none. Returns `AllocError` if an
    // allocation fails.
    #[inline(always)]
    fn choose(&mut self, among: usize, group: Option<usize>) -> Result<(), AllocError>
        ensures { IfOk result (λ _. self.new ≡ choose among group self.old) }
    {
        match group {
            None => {
                self.choices.unset(among);
                Ok(())
            }
            Some(group) => self.choices.set(among, group),
        }
    }

    /// Returns the group that was chosen for an among, if any.
    #[inline(always)]
    pub fn choice(&self, among: usize) -> Option<usize>
        ensures { result ≡ choice among self.now }
    {
        self.choices.get(among)
    }

    /// Begins a search of an among of the current routine, after it is paid. It touches the among. Returns `AllocError`
    /// if an allocation fails or a number is above `u32::MAX`.
    #[inline(always)]
    pub fn touch_among(&mut self, among: usize, mode: Mode) -> Result<(), AllocError>
        ensures { IfOk result (λ _. self.new ≡ touch_among among mode self.old) }
    {
        self.touched.search(self.routine, among)?;
        self.note_event(Event::Searches {
            routine: self.routine,
            among,
            mode,
            cursor: self.cursor,
        })
    }

    /// Touches a grouping, after its test is paid. Returns `AllocError` if an allocation fails or the number is above
    /// `u32::MAX`.
    #[inline(always)]
    pub fn touch_grouping(&mut self, grouping: usize) -> Result<(), AllocError>
        ensures { IfOk result (λ _. self.new ≡ touch_grouping grouping self.old) }
    {
        self.touched.test(grouping)
    }

    /// Returns what was touched, in the order of first touch.
    pub fn touches(&self) -> &[Touch]
        ensures { result.now ≡ self.now.touched }
    {
        self.touched.touches()
    }

    /// Returns the number of the current routine.
    pub fn routine(&self) -> usize
        ensures { result ≡ self.now.routine }
    {
        self.routine
    }

    /// Starts a call of the routine with this number, which has this many amongs. Touches the routine and returns the
    /// choices of the caller. The time does not depend on how many amongs there are. Returns `AllocError` if an allocation fails or the number is above `u32::MAX`.
    #[inline(always)]
    pub fn enter(&mut self, routine: usize, amongs: usize) -> Result<Choices, AllocError>
        ensures kept { IfOk result (λ kept. kept ≡ self.old.choices) }
        ensures entered { IfOk result (λ _. self.new ≡ enter routine amongs self.old) }
    {
        self.touched.enter(routine)?;
        let alloc = *self.text.allocator();
        let fresh = Choices::open(alloc, &mut self.spares, amongs)?;
        self.routine = routine;
        let kept = mem::replace(&mut self.choices, fresh);
        self.note_event(Event::Enters(routine))?;
        Ok(kept)
    }

    /// Ends a call with this signal and restores the number and the choices of the caller. Returns `AllocError` if an
    /// allocation fails.
    #[inline(always)]
    pub fn leave(&mut self, caller: usize, kept: Choices, signal: bool) -> Result<(), AllocError>
        ensures { IfOk result (λ _. self.new ≡ back_in caller kept signal self.old) }
    {
        self.routine = caller;
        let used = mem::replace(&mut self.choices, kept);
        used.end(&mut self.spares);
        self.note_event(Event::Leaves(signal))
    }
}
