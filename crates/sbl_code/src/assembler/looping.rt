//! Loops, `backwards` and `setlimit`: their commands run by themselves.

ghost use Rattle.sbl_program.specs.AmongStrings.{Listing};
ghost use Rattle.std.specs.Prelude.{ℕ, IfOk};
ghost use Rattle.sbl_program.specs.ProgramOf.{view_node};
ghost use Rattle.sbl_semantics.specs.Control.{pay_first};
ghost use Rattle.sbl_code.specs.Performs.{PerformsWithExits, counted_node, limit_node};
ghost use Rattle.sbl_code.specs.Flow.{turns_of, seek_of, backwards_of};
ghost use Rattle.sbl_program.specs.Run.{runs};

use crate::assembler::{Assembler, Exits, more};
use crate::copies::copy_number;
use crate::instruction::Instruction;
use sbl_program::{Action, Arithmetic, Node};
use std::alloc::AllocError;
use std::rc::Rc;

impl Assembler {
    // `repeat C`
    #[cycle(command)]
    pub(super) fn repeat(
        &mut self,
        inner: &Node,
        cost: u32,
        exits: &Exits,
    ) -> Result<Rc<Instruction>, AllocError>
        ensures { IfOk result (λ made. (t : ℕ → Listing) (n : ℕ) → PerformsWithExits t (λ p levels. pay_first (turns_of (runs p levels (view_node t inner.now)))) cost n exits.now made.value) }
    {
        let body = self.body(inner)?;
        let next = exits.next.clone()?;
        self.emit(Instruction::Repeat { cost, body, next })
    }

    // `goto C` and `gopast C`
    #[cycle(command)]
    pub(super) fn seek(
        &mut self,
        past: bool,
        inner: &Node,
        cost: u32,
        exits: &Exits,
    ) -> Result<Rc<Instruction>, AllocError>
        ensures { IfOk result (λ made. (t : ℕ → Listing) (n : ℕ) → PerformsWithExits t (λ p levels. pay_first (seek_of past (runs p levels (view_node t inner.now)))) cost n exits.now made.value) }
    {
        match inner {
            Node::Act(action) => match action {
                Action::Grouping(number) => {
                    self.seek_grouping(past, *number, true, more(cost, 1)?, exits)
                }
                Action::NonGrouping(number) => {
                    self.seek_grouping(past, *number, false, more(cost, 1)?, exits)
                }
                _ => self.seek_any(inner, past, exits, cost),
            },
            _ => self.seek_any(inner, past, exits, cost),
        }
    }

    // The same of any command.
    #[cycle(command)]
    pub(super) fn seek_any(
        &mut self,
        inner: &Node,
        past: bool,
        exits: &Exits,
        cost: u32,
    ) -> Result<Rc<Instruction>, AllocError>
        ensures { IfOk result (λ made. (t : ℕ → Listing) (n : ℕ) → PerformsWithExits t (λ p levels. pay_first (seek_of past (runs p levels (view_node t inner.now)))) cost n exits.now made.value) }
    {
        let body = self.body(inner)?;
        emit!(self, exits, Seek { cost, past, body })
    }

    // `backwards C`
    #[cycle(command)]
    pub(super) fn backwards(
        &mut self,
        cost: u32,
        exits: &Exits,
        inner: &Node,
    ) -> Result<Rc<Instruction>, AllocError>
        ensures { IfOk result (λ made. (t : ℕ → Listing) (n : ℕ) → PerformsWithExits t (λ p levels. pay_first (backwards_of (runs p levels (view_node t inner.now)))) cost n exits.now made.value) }
    {
        let body = self.body(inner)?;
        emit!(self, exits, Backwards { cost, body })
    }

    // `setlimit C1 for C2`, after C2 is made.
    #[cycle(command)]
    pub(super) fn set_limit(
        &mut self,
        first: &Node,
        second: Rc<Instruction>,
        cost: u32,
        exits: &Exits,
    ) -> Result<Rc<Instruction>, AllocError>
        ensures { IfOk result (λ made. (t : ℕ → Listing) (n : ℕ) → PerformsWithExits t (limit_node t first.now second.value) cost n exits.now made.value) }
    {
        let first = self.body(first)?;
        emit!(
            self,
            exits,
            SetLimit {
                cost,
                first,
                second
            }
        )
    }

    // `loop AE C`, and `atleast AE C` if `repeats`.
    #[cycle(command)]
    pub(super) fn iterate(
        &mut self,
        inner: &Node,
        count: &Arithmetic,
        repeats: bool,
        cost: u32,
        exits: &Exits,
    ) -> Result<Rc<Instruction>, AllocError>
        ensures { IfOk result (λ made. (t : ℕ → Listing) (n : ℕ) → PerformsWithExits t (counted_node t repeats count.now inner.now) cost n exits.now made.value) }
    {
        let body = self.body(inner)?;
        let copy = copy_number(self.alloc, count)?;
        let count = Box::new(self.alloc, copy)?;
        if repeats {
            emit!(self, exits, AtLeast { cost, count, body })
        } else {
            emit!(self, exits, Loop { cost, count, body })
        }
    }
}
