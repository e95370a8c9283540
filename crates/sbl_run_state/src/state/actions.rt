//! Commands that contain no command.

ghost use Rattle.std.specs.Prelude.{◌≡◌, ℕ, ◌<◌, map, IfOk};
ghost use Rattle.sbl_program.specs.CharacterClasses.{members};
ghost use Rattle.sbl_program.specs.Actions.{acts};
ghost use Rattle.sbl_semantics.specs.Numbers.{continue_with, natural};
ghost use Rattle.sbl_program.specs.Arithmetic.{value};
ghost use Rattle.sbl_semantics.specs.Moves.{hop, at_mark, to_mark};
ghost use Rattle.sbl_program.specs.ProgramOf.{view_action, view_number};
ghost use Rattle.sbl_semantics.specs.State.{State, Ending};
ghost use Rattle.sbl_run_state.specs.Endings.{Follows, Leads};

use crate::halt::Halt;
use crate::state::State;
use crate::state::numbers::natural;
use sbl_ast::Mode;
use sbl_program::{Action, Arithmetic, CharacterClass};

/// Does something with the value of an expression. Returns a fault if the expression has one.
macro_rules! at_value {
    ($self:ident, $mode:ident, $expression:ident; $value:ident => $then:expr) => {{
        let $value = $self.value_here($mode, $expression)?;
        Ok($then)
    }};
}

// The signal t of a command that has no signal of its own.
#[inline(always)]
fn then_t(done: Result<(), Halt>) -> Result<bool, Halt>
    ensures follows { (new : State) (ending : Ending) → Leads done new ending → Follows result new ending }
    ensures same_steps { (before after : ℕ) → IfOk done (λ _. after ≡ before) → IfOk result (λ _. after ≡ before) }
{
    done?;
    Ok(true)
}

impl State {
    /// Does a command without a command inside, after its step is paid, and returns its signal. `groupings` has the
    /// class of each grouping.
    ///
    /// Returns a fault if a number in it is out of range, if there is no valid slice for it, if the cursor would leave
    /// the text, or if the text would be too long; returns `OutOfMemory` if an allocation fails or the number of a
    /// grouping is above `u32::MAX`.
    pub fn act(
        &mut self,
        groupings: &[CharacterClass],
        mode: Mode,
        action: &Action,
    ) -> Result<bool, Halt>
        ensures follows { Follows result self.new (acts (map members groupings.now) (view_action action.now) mode self.old) }
        ensures same_steps { IfOk result (λ _. self.new.steps ≡ self.old.steps) }
    {
        match action {
            Action::Match(term) => Ok(self.take_term(mode, term)),
            Action::Grouping(number) => self.take_grouping(mode, groupings, *number, true),
            Action::NonGrouping(number) => self.take_grouping(mode, groupings, *number, false),
            Action::Next => Ok(self.take_next(mode)),
            Action::Hop(expression) => self.hop_by(mode, expression),
            Action::ToLimit => then_t(self.to_limit(mode)),
            Action::AtLimit => Ok(self.is_at_limit(mode)),
            Action::SetMark(number) => then_t(self.set_mark(*number)),
            Action::AtMark(expression) => self.is_at_value(mode, expression),
            Action::ToMark(expression) => self.to_value(mode, expression),
            Action::Set(number) => then_t(self.set_boolean(*number, true)),
            Action::Unset(number) => then_t(self.set_boolean(*number, false)),
            Action::Boolean(number) => Ok(self.test_boolean(*number)),
            Action::LeftBracket => {
                self.left_bracket(mode);
                Ok(true)
            }
            Action::RightBracket => {
                self.right_bracket(mode);
                Ok(true)
            }
            Action::Replace(term) => then_t(self.replace(term)),
            Action::Delete => then_t(self.delete()),
            Action::Keep(number) => then_t(self.keep(*number)),
            Action::Insert(term) => then_t(self.insert(mode, term)),
            Action::Attach(term) => then_t(self.attach(mode, term)),
            Action::Assign(number, change, expression) => {
                then_t(self.assign(mode, *number, *change, expression))
            }
            Action::Compare(left, relation, right) => self.compare(mode, left, *relation, right),
            Action::True => Ok(true),
            Action::False => Ok(false),
        }
    }

    // `atmark`: returns whether the cursor is at the value of an expression. Returns a fault if the expression has one.
    #[inline(never)]
    fn is_at_value(&mut self, mode: Mode, expression: &Arithmetic) -> Result<bool, Halt>
        ensures follows { Follows result self.new (continue_with (value (view_number expression.now) mode self.old) self.old (λ z. at_mark (natural z) self.old)) }
        ensures same_steps { IfOk result (λ _. self.new.steps ≡ self.old.steps) }
    {
        at_value!(self, mode, expression; place => self.is_at_mark(natural(place)))
    }

    // `hop`: moves over as many characters as an expression says. Returns a fault if the expression has one.
    #[inline(never)]
    fn hop_by(&mut self, mode: Mode, expression: &Arithmetic) -> Result<bool, Halt>
        ensures follows { Follows result self.new (continue_with (value (view_number expression.now) mode self.old) self.old (λ z. hop (natural z) mode self.old)) }
        ensures same_steps { IfOk result (λ _. self.new.steps ≡ self.old.steps) }
    {
        at_value!(self, mode, expression; number => self.hop(mode, natural(number)))
    }

    // `tomark`: moves the cursor to the value of an expression. Returns a fault if the expression has one.
    #[inline(never)]
    fn to_value(&mut self, mode: Mode, expression: &Arithmetic) -> Result<bool, Halt>
        ensures follows { Follows result self.new (continue_with (value (view_number expression.now) mode self.old) self.old (λ z. to_mark (natural z) mode self.old)) }
        ensures same_steps { IfOk result (λ _. self.new.steps ≡ self.old.steps) }
    {
        at_value!(self, mode, expression; place => self.to_mark(mode, natural(place)))
    }
}
