//! Runs code.

ghost use Rattle.std.specs.Prelude.{◌<◌, ◌≤◌, IfOk};
ghost use Rattle.sbl_program.specs.ProgramOf.{view_number};
ghost use Rattle.sbl_run_state.specs.Endings.{Follows, Leads};
ghost use Rattle.sbl_program.specs.Rows.{pays};
ghost use Rattle.sbl_program.specs.Run.{calls};
ghost use Rattle.sbl_semantics.specs.State.{pay, then_on};
ghost use Rattle.sbl_code.specs.Slots.{no_cursors};
ghost use Rattle.sbl_code.specs.Flow.{flow, loop_of, at_least_of, turns_of, seek_of, backwards_of, limited_of};
ghost use Rattle.sbl_interpreter.specs.Inner.{alone_in, inner_of, program_in};

mod bodies;
mod searching;

use crate::slots::SavedCursors;
use sbl_ast::Mode;
use sbl_code::{Code, Instruction};
use sbl_program::Arithmetic;
use sbl_run_state::{Halt, State, Tables, count_of};

// Uses the steps of `cost`, and the command's own. Returns `Steps` if fewer are left.
#[inline(always)]
fn pay_all(cost: u32, state: &mut State) -> Result<(), Halt>
    ensures leads { Leads result state.new (then_on (pays cost state.old) (λ u. pay u.steps u)) }
    ensures fewer { IfOk result (λ _. state.new.steps < state.old.steps) }
{
    state.pay_with_own(cost)
}

/// The fixed part of a run. A call and `backwards` run with a runner of their own.
#[derive_where(Clone, Copy)]
pub struct Runner<'a, T> {
    /// The tables of the program's amongs.
    pub tables: &'a T,
    /// The code of the program whose routines are called.
    pub code: &'a Code,
    /// The number of levels that calls may still go down.
    pub levels: u32,
    /// The mode: the direction in which commands read the text.
    pub mode: Mode,
}

impl<'a, T: Tables> Runner<'a, T> {
    /// Runs instructions from this one on, up to an end, and returns the signal there.
    #[cycle(run)]
    #[inline(never)]
    fn run_from(&self, entry: &Instruction, state: &mut State) -> Result<bool, Halt>
        ensures follows { Follows result state.new (flow (program_in T.listed self.now) self.now.levels (T.listed self.now.tables.now) entry.now self.now.mode no_cursors state.old) }
        ensures no_more { IfOk result (λ _. state.new.steps ≤ state.old.steps) }
    {
        let mut slots = SavedCursors::new();
        let mut at = entry;
        loop {
            match at {
                Instruction::End(signal) => return Ok(*signal),
                Instruction::Pay { cost, next } => {
                    state.pay_for(*cost)?;
                    at = next;
                }
                Instruction::Act {
                    cost,
                    action,
                    next,
                    fail,
                } => {
                    state.pay_for(*cost)?;
                    at = if state.act(&self.code.program().groupings, self.mode, action)? {
                        next
                    } else {
                        fail
                    };
                }
                Instruction::Save { cost, slot, next } => {
                    state.pay_for(*cost)?;
                    slots.set(*slot, state.saved_cursor());
                    at = next;
                }
                Instruction::Restore { slot, next } => {
                    state.put_back(self.mode, slots.get(*slot))?;
                    at = next;
                }
                Instruction::Nested {
                    cost,
                    next,
                    fail,
                    ..
                }
                | Instruction::Loop {
                    cost,
                    next,
                    fail,
                    ..
                }
                | Instruction::AtLeast {
                    cost,
                    next,
                    fail,
                    ..
                }
                | Instruction::Seek {
                    cost,
                    next,
                    fail,
                    ..
                }
                | Instruction::Backwards {
                    cost,
                    next,
                    fail,
                    ..
                }
                | Instruction::SetLimit {
                    cost,
                    next,
                    fail,
                    ..
                }
                | Instruction::Search {
                    cost,
                    next,
                    fail,
                    ..
                } => {
                    pay_all(*cost, state)?;
                    at = if self.run_inner(at, state)? {
                        next
                    } else {
                        fail
                    };
                }
                Instruction::Repeat { cost, body, next } => {
                    pay_all(*cost, state)?;
                    self.run_turns(body, state)?;
                    at = next;
                }
                Instruction::SeekGrouping {
                    next,
                    fail,
                    cost,
                    past,
                    grouping,
                    wanted,
                } => {
                    state.pay_for(*cost)?;
                    at = if state.seek_one(
                        *past,
                        self.mode,
                        &self.code.program().groupings,
                        *grouping,
                        *wanted,
                    )? {
                        next
                    } else {
                        fail
                    };
                }
                Instruction::Choose {
                    cost,
                    among,
                    bodies,
                    next,
                    fail,
                } => {
                    state.pay_for(*cost)?;
                    at = match state.choice(*among) {
                        None => fail,
                        Some(group) => match bodies.get(group) {
                            None => next,
                            Some(body) => &body.first,
                        },
                    };
                }
                Instruction::Character {
                    cost,
                    character,
                    back: _,
                    next,
                    fail,
                } => {
                    state.pay_for(*cost)?;
                    at = if state.take_character(self.mode, *character) {
                        next
                    } else {
                        // Only for its contract: the cursor lies in the text, so to put it back to here changes nothing.
                        state.place();
                        fail
                    };
                }
                Instruction::Literal {
                    cost,
                    string,
                    back: _,
                    next,
                    fail,
                } => {
                    state.pay_for(*cost)?;
                    at = if state.take_literal(self.mode, string) {
                        next
                    } else {
                        // Only for its contract: the cursor lies in the text, so to put it back to here changes nothing.
                        state.place();
                        fail
                    };
                }
                Instruction::Grouping {
                    cost,
                    wanted,
                    grouping,
                    back: _,
                    next,
                    fail,
                } => {
                    state.pay_for(*cost)?;
                    let groupings = &self.code.program().groupings;
                    at = if state.take_grouping(self.mode, groupings, *grouping, *wanted)? {
                        next
                    } else {
                        // Only for its contract: the cursor lies in the text, so to put it back to here changes nothing.
                        state.place();
                        fail
                    };
                }
                Instruction::LeftBracket { cost, next } => {
                    state.pay_for(*cost)?;
                    state.left_bracket(self.mode);
                    at = next;
                }
                Instruction::RightBracket { cost, next } => {
                    state.pay_for(*cost)?;
                    state.right_bracket(self.mode);
                    at = next;
                }
                Instruction::Boolean {
                    cost,
                    number,
                    next,
                    fail,
                } => {
                    state.pay_for(*cost)?;
                    at = if state.test_boolean(*number) {
                        next
                    } else {
                        fail
                    };
                }
                Instruction::Next { cost, next, fail } => {
                    state.pay_for(*cost)?;
                    at = if state.take_next(self.mode) {
                        next
                    } else {
                        fail
                    };
                }
                Instruction::DoCall {
                    cost,
                    routine,
                    next,
                } => {
                    pay_all(*cost, state)?;
                    let from = state.saved_cursor();
                    self.run_call(*routine, state)?;
                    state.put_back(self.mode, from)?;
                    at = next;
                }
                Instruction::Call {
                    cost,
                    routine,
                    next,
                    fail,
                } => {
                    pay_all(*cost, state)?;
                    at = if self.run_call(*routine, state)? {
                        next
                    } else {
                        fail
                    };
                }
            }
        }
    }

    /// Does what an instruction does that runs others, and returns its signal. Does nothing at any other, and returns t. A call is
    /// in the loop: scripts make many.
    #[cycle(run)]
    #[inline(always)]
    fn run_inner(&self, at: &Instruction, state: &mut State) -> Result<bool, Halt>
        ensures follows { Follows result state.new (inner_of (program_in T.listed self.now) self.now.levels (T.listed self.now.tables.now) at.now self.now.mode state.old) }
        ensures no_more { IfOk result (λ _. state.new.steps ≤ state.old.steps) }
    {
        match at {
            Instruction::Nested { body, .. } => self.run_from(body, state),
            Instruction::Loop { count, body, .. } => self.run_times(count, body, state),
            Instruction::AtLeast { count, body, .. } => self.run_at_least(count, body, state),
            Instruction::Seek { past, body, .. } => self.run_tries(*past, body, state),
            Instruction::Backwards { body, .. } => self.run_backwards(body, state),
            Instruction::SetLimit { first, second, .. } => self.run_limited(first, second, state),
            Instruction::Search { among, site, .. } => self.run_search_all(*among, site, state),
            _ => Ok(true),
        }
    }

    /// Runs instructions again and again up to their first f, and puts the cursor back to where it was before that. The
    /// assembler makes bodies that use a step, so there are at most as many turns as steps, and one more.
    #[cycle(run)]
    #[inline(never)]
    fn run_turns(&self, body: &Instruction, state: &mut State) -> Result<(), Halt>
        ensures leads { Leads result state.new (turns_of (alone_in T.listed self.now body.now) self.now.mode state.old) }
        ensures no_more { IfOk result (λ _. state.new.steps ≤ state.old.steps) }
    {
        let mut left = state.steps();
        loop {
            let from = state.saved_cursor();
            if !self.run_body(body, state)? {
                state.put_back(self.mode, from)?;
                return Ok(());
            }
            if left == 0 {
                return Err(Halt::Steps);
            }
            left -= 1;
        }
    }

    /// Runs instructions as often as `count` says, up to the first f.
    #[cycle(run)]
    #[inline(never)]
    fn run_times(
        &self,
        count: &Arithmetic,
        body: &Instruction,
        state: &mut State,
    ) -> Result<bool, Halt>
        ensures follows { Follows result state.new (loop_of (view_number count.now) (alone_in T.listed self.now body.now) self.now.mode state.old) }
        ensures no_more { IfOk result (λ _. state.new.steps ≤ state.old.steps) }
    {
        let number = state.value(self.mode, count)?;
        let mut left = count_of(number);
        while 0 < left {
            if !self.run_from(body, state)? {
                return Ok(false);
            }
            left -= 1;
        }
        Ok(true)
    }

    /// Runs instructions as often as `count` says, up to the first f, and then again and again as `run_turns` does.
    #[cycle(run)]
    #[inline(never)]
    fn run_at_least(
        &self,
        count: &Arithmetic,
        body: &Instruction,
        state: &mut State,
    ) -> Result<bool, Halt>
        ensures follows { Follows result state.new (at_least_of (view_number count.now) (alone_in T.listed self.now body.now) self.now.mode state.old) }
        ensures no_more { IfOk result (λ _. state.new.steps ≤ state.old.steps) }
    {
        if !self.run_times(count, body, state)? {
            return Ok(false);
        }
        self.run_turns(body, state)?;
        Ok(true)
    }

    /// Tries instructions at the cursor and further on, up to their first t. The cursor stays after the match, or goes
    /// before it. There are at most as many tries as steps, and one more.
    #[cycle(run)]
    #[inline(never)]
    fn run_tries(&self, past: bool, body: &Instruction, state: &mut State) -> Result<bool, Halt>
        ensures follows { Follows result state.new (seek_of past (alone_in T.listed self.now body.now) self.now.mode state.old) }
        ensures no_more { IfOk result (λ _. state.new.steps ≤ state.old.steps) }
    {
        let mut left = state.steps();
        loop {
            let from = state.saved_cursor();
            if self.run_body(body, state)? {
                if !past {
                    state.put_back(self.mode, from)?;
                }
                return Ok(true);
            }
            state.put_back(self.mode, from)?;
            if !state.take_next(self.mode) {
                return Ok(false);
            }
            if left == 0 {
                return Err(Halt::Steps);
            }
            left -= 1;
        }
    }

    /// Runs instructions backwards, on the text between the cursor and the limit.
    #[cycle(run)]
    #[inline(never)]
    fn run_backwards(&self, body: &Instruction, state: &mut State) -> Result<bool, Halt>
        ensures follows { Follows result state.new (backwards_of (alone_in T.listed self.now body.now) self.now.mode state.old) }
        ensures no_more { IfOk result (λ _. state.new.steps ≤ state.old.steps) }
    {
        state.begin_backwards()?;
        let backwards = Runner {
            mode: Mode::Backward,
            ..*self
        };
        if !backwards.run_from(body, state)? {
            return Ok(false);
        }
        state.end_backwards()?;
        Ok(true)
    }

    /// Runs instructions that set the limit, and then others within that limit, from where the cursor was before.
    #[cycle(run)]
    #[inline(never)]
    fn run_limited(
        &self,
        first: &Instruction,
        second: &Instruction,
        state: &mut State,
    ) -> Result<bool, Halt>
        ensures follows { Follows result state.new (limited_of (alone_in T.listed self.now first.now) (alone_in T.listed self.now second.now) self.now.mode state.old) }
        ensures no_more { IfOk result (λ _. state.new.steps ≤ state.old.steps) }
    {
        let from = state.saved_cursor();
        let limits = state.limits();
        if !self.run_from(first, state)? {
            return Ok(false);
        }
        state.limit_here(self.mode);
        state.put_back(self.mode, from)?;
        let signal = self.run_from(second, state)?;
        state.limit_back(self.mode, limits);
        Ok(signal)
    }

    /// Calls the routine with this number and returns its signal; f if there is none.
    ///
    /// Returns `Depth` if no level is left, `OutOfMemory` if an allocation fails or a number to be touched is above
    /// `u32::MAX`, and else the fault of a command in the routine. After a fault the state is the one at the fault.
    #[cycle(run)]
    #[inline(always)]
    pub fn run_call(&self, number: usize, state: &mut State) -> Result<bool, Halt>
        ensures follows { Follows result state.new (calls (program_in T.listed self.now) self.now.levels number self.now.mode state.old) }
        ensures no_more { IfOk result (λ _. state.new.steps ≤ state.old.steps) }
    {
        if self.levels == 0 {
            return Err(Halt::Depth);
        }
        match self.code.routine(number) {
            None => Ok(false),
            Some(routine) => {
                let caller = state.routine();
                let kept = state.enter(number, routine.amongs)?;
                let deeper = Runner {
                    levels: self.levels - 1,
                    ..*self
                };
                let signal = deeper.run_body(&routine.first, state)?;
                state.leave(caller, kept, signal)?;
                Ok(signal)
            }
        }
    }
}
