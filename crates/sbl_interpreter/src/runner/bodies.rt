//! Runs the bodies of loops and of routines.

ghost use Rattle.std.specs.Prelude.{◌≤◌, IfOk};
ghost use Rattle.sbl_run_state.specs.Endings.{Follows};
ghost use Rattle.sbl_code.specs.Slots.{no_cursors};
ghost use Rattle.sbl_code.specs.Flow.{flow};
ghost use Rattle.sbl_interpreter.specs.Inner.{program_in};

use crate::runner::{Runner, pay_all};
use sbl_code::Instruction;
use sbl_run_state::{Halt, State, Tables};

impl<'a, T: Tables> Runner<'a, T> {
    /// Does what `run_from` does, for the body of a loop or of a routine. Many runs of a body end after its first instruction: it is
    /// done here, so that they do not pay for the frame of `run_from`.
    #[cycle(run)]
    #[inline(always)]
    pub(super) fn run_body(&self, body: &Instruction, state: &mut State) -> Result<bool, Halt>
        ensures follows { Follows result state.new (flow (program_in T.listed self.now) self.now.levels (T.listed self.now.tables.now) body.now self.now.mode no_cursors state.old) }
        ensures no_more { IfOk result (λ _. state.new.steps ≤ state.old.steps) }
    {
        match body {
            Instruction::Grouping {
                cost,
                wanted,
                grouping,
                back: _,
                next,
                fail,
            } => {
                state.pay_for(*cost)?;
                let groupings = &self.code.program().groupings;
                if state.take_grouping(self.mode, groupings, *grouping, *wanted)? {
                    return self.run_from(next, state);
                }
                // Only for its contract: the cursor lies in the text, so to put it back to here changes nothing.
                state.place();
                self.run_exit(fail, state)
            }
            Instruction::Character {
                cost,
                character,
                back: _,
                next,
                fail,
            } => {
                state.pay_for(*cost)?;
                if state.take_character(self.mode, *character) {
                    return self.run_from(next, state);
                }
                // Only for its contract: the cursor lies in the text, so to put it back to here changes nothing.
                state.place();
                self.run_exit(fail, state)
            }
            Instruction::Act {
                cost,
                action,
                next,
                fail,
            } => {
                state.pay_for(*cost)?;
                if state.act(&self.code.program().groupings, self.mode, action)? {
                    return self.run_exit(next, state);
                }
                self.run_exit(fail, state)
            }
            Instruction::LeftBracket { cost, next } => {
                state.pay_for(*cost)?;
                state.left_bracket(self.mode);
                self.run_bracketed(next, state)
            }
            _ => self.run_from(body, state),
        }
    }

    /// Does what `run_from` does, for what follows `[` at the start of a body: mostly a search, which is done here.
    #[cycle(run)]
    #[inline(always)]
    fn run_bracketed(&self, at: &Instruction, state: &mut State) -> Result<bool, Halt>
        ensures follows { Follows result state.new (flow (program_in T.listed self.now) self.now.levels (T.listed self.now.tables.now) at.now self.now.mode no_cursors state.old) }
        ensures no_more { IfOk result (λ _. state.new.steps ≤ state.old.steps) }
    {
        match at {
            Instruction::Search {
                cost,
                among,
                site,
                next,
                fail,
            } => {
                pay_all(*cost, state)?;
                if self.run_search_all(*among, site, state)? {
                    return self.run_from(next, state);
                }
                self.run_exit(fail, state)
            }
            _ => self.run_from(at, state),
        }
    }

    /// Does what `run_from` does, for the exit of an instruction, which is mostly the end of the body.
    #[cycle(run)]
    #[inline(always)]
    fn run_exit(&self, at: &Instruction, state: &mut State) -> Result<bool, Halt>
        ensures follows { Follows result state.new (flow (program_in T.listed self.now) self.now.levels (T.listed self.now.tables.now) at.now self.now.mode no_cursors state.old) }
        ensures no_more { IfOk result (λ _. state.new.steps ≤ state.old.steps) }
    {
        match at {
            Instruction::End(signal) => Ok(*signal),
            _ => self.run_from(at, state),
        }
    }
}
