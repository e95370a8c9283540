//! Commands that contain no command.

ghost use Rattle.sbl_semantics.specs.Moves.{match, test_boolean, next as move_next};
ghost use Rattle.sbl_program.specs.AmongStrings.{Listing};
ghost use Rattle.sbl_program.specs.Terms.{class_at};
ghost use Rattle.std.specs.Prelude.{ℕ, [], true, ◌∷◌, IfOk};
ghost use Rattle.sbl_code.specs.Performs.{PerformsWithExits};
ghost use Rattle.sbl_code.specs.Flow.{bracket_of};
ghost use Rattle.sbl_semantics.specs.State.{Signals};
ghost use Rattle.sbl_program.specs.Actions.{acts, test_grouping};
ghost use Rattle.sbl_program.specs.ProgramOf.{view_action};

use crate::assembler::{Assembler, Exits};
use crate::copies::copy_action;
use crate::instruction::Instruction;
use sbl_program::{Action, StringTerm};
use std::alloc::AllocError;
use std::rc::Rc;

impl Assembler {
    // A command that contains no command.
    pub(super) fn act(
        &mut self,
        action: &Action,
        cost: u32,
        exits: &Exits,
    ) -> Result<Rc<Instruction>, AllocError>
        ensures { IfOk result (λ made. (t : ℕ → Listing) (n : ℕ) → PerformsWithExits t (λ p levels. acts p.groupings (view_action action.now)) cost n exits.now made.value) }
    {
        match action {
            Action::Match(term) => match term {
                StringTerm::Literal(string) => self.literal(string, cost, exits),
                _ => self.act_any(cost, exits, action),
            },
            Action::Grouping(number) => self.grouping(true, *number, cost, exits),
            Action::NonGrouping(number) => self.grouping(false, *number, cost, exits),
            Action::Next => self.next(cost, exits),
            Action::LeftBracket => self.bracket(true, cost, exits),
            Action::RightBracket => self.bracket(false, cost, exits),
            Action::Boolean(number) => self.boolean(*number, cost, exits),
            _ => self.act_any(cost, exits, action),
        }
    }

    // Any other command that contains no command.
    pub(super) fn act_any(
        &mut self,
        cost: u32,
        exits: &Exits,
        action: &Action,
    ) -> Result<Rc<Instruction>, AllocError>
        ensures { IfOk result (λ made. (t : ℕ → Listing) (n : ℕ) → PerformsWithExits t (λ p levels. acts p.groupings (view_action action.now)) cost n exits.now made.value) }
    {
        let copy = copy_action(self.alloc, action)?;
        let action = Box::new(self.alloc, copy)?;
        emit!(self, exits, Act { cost, action })
    }

    // A literal of one character.
    pub(super) fn character(
        &mut self,
        character: char,
        cost: u32,
        exits: &Exits,
    ) -> Result<Rc<Instruction>, AllocError>
        ensures { IfOk result (λ made. (t : ℕ → Listing) (n : ℕ) → PerformsWithExits t (λ p levels m s. match (character ∷ []) m s) cost n exits.now made.value) }
    {
        let back = false;
        emit!(
            self,
            exits,
            Character {
                cost,
                character,
                back
            }
        )
    }

    // A literal.
    pub(super) fn literal(
        &mut self,
        string: &[char],
        cost: u32,
        exits: &Exits,
    ) -> Result<Rc<Instruction>, AllocError>
        ensures { IfOk result (λ made. (t : ℕ → Listing) (n : ℕ) → PerformsWithExits t (λ p levels m s. match string.now m s) cost n exits.now made.value) }
    {
        if string.len() == 1 {
            return self.character(string[0], cost, exits);
        }
        let copy = Vec::from_slice(self.alloc, string)?;
        let string = Box::new(self.alloc, copy)?;
        let back = false;
        emit!(self, exits, Literal { cost, string, back })
    }

    // A grouping, or `non` and a grouping.
    pub(super) fn grouping(
        &mut self,
        wanted: bool,
        grouping: usize,
        cost: u32,
        exits: &Exits,
    ) -> Result<Rc<Instruction>, AllocError>
        ensures { IfOk result (λ made. (t : ℕ → Listing) (n : ℕ) → PerformsWithExits t (λ p levels m s. test_grouping wanted (class_at p.groupings grouping) grouping m s) cost n exits.now made.value) }
    {
        let back = false;
        emit!(
            self,
            exits,
            Grouping {
                cost,
                wanted,
                grouping,
                back
            }
        )
    }

    // `next`
    pub(super) fn next(&mut self, cost: u32, exits: &Exits) -> Result<Rc<Instruction>, AllocError>
        ensures { IfOk result (λ made. (t : ℕ → Listing) (n : ℕ) → PerformsWithExits t (λ p levels m s. move_next m s) cost n exits.now made.value) }
    {
        let Exits { next, fail } = exits.copy()?;
        self.emit(Instruction::Next { cost, next, fail })
    }

    // The name of a boolean variable.
    pub(super) fn boolean(
        &mut self,
        number: usize,
        cost: u32,
        exits: &Exits,
    ) -> Result<Rc<Instruction>, AllocError>
        ensures { IfOk result (λ made. (t : ℕ → Listing) (n : ℕ) → PerformsWithExits t (λ p levels m s. test_boolean number s) cost n exits.now made.value) }
    {
        emit!(self, exits, Boolean { cost, number })
    }

    // `[` if `left`, and else `]`.
    fn bracket(
        &mut self,
        left: bool,
        cost: u32,
        exits: &Exits,
    ) -> Result<Rc<Instruction>, AllocError>
        ensures { IfOk result (λ made. (t : ℕ → Listing) (n : ℕ) → PerformsWithExits t (λ p levels m s. Signals true (bracket_of left m s)) cost n exits.now made.value) }
    {
        let next = exits.next.clone()?;
        if left {
            self.emit(Instruction::LeftBracket { cost, next })
        } else {
            self.emit(Instruction::RightBracket { cost, next })
        }
    }
}
