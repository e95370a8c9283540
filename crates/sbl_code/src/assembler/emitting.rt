//! Instructions of all kinds but the commonest, and their exits.

ghost use Rattle.std.specs.Prelude.{◌≡◌, ℕ, true, false, IfOk};
ghost use Rattle.sbl_code.specs.Performs.{PerformsChosen, PerformsWithExits, Ends, Restores, Saves, class_test};
ghost use Rattle.sbl_program.specs.AmongStrings.{Listing};
ghost use Rattle.sbl_code.specs.Flow.{flow, alone, do_of, seek_of};
ghost use Rattle.sbl_program.specs.Run.{calls};
ghost use Rattle.sbl_program.specs.Search.{search_all};
ghost use Rattle.sbl_semantics.specs.Control.{pay_first};
ghost use Rattle.sbl_semantics.specs.State.{Signals};

use crate::assembler::{Assembler, Exits};
use crate::instruction::{GroupCode, Instruction, SearchSite};
use sbl_program::{Candidate, Node};
use std::alloc::AllocError;
use std::rc::Rc;

impl Assembler {
    // Keeps an instruction.
    pub(super) fn emit(&mut self, instruction: Instruction) -> Result<Rc<Instruction>, AllocError>
        ensures { IfOk result (λ made. made.value ≡ instruction) }
    {
        let made = Rc::new(self.alloc, instruction)?;
        self.instructions.push(made.clone()?)?;
        Ok(made)
    }

    // Returns the two ends of instructions that run by themselves.
    pub(super) fn ends(&mut self) -> Result<Exits, AllocError>
        ensures { IfOk result (λ ends. Ends true ends.next.value × Ends false ends.fail.value) }
    {
        Ok(Exits {
            next: self.emit(Instruction::End(true))?,
            fail: self.emit(Instruction::End(false))?,
        })
    }

    // Uses steps.
    pub(super) fn pay(&mut self, cost: u32, exits: &Exits) -> Result<Rc<Instruction>, AllocError>
        ensures { IfOk result (λ made. (t : ℕ → Listing) (n : ℕ) → PerformsWithExits t (λ p levels m s. Signals true s) cost n exits.now made.value) }
    {
        let next = exits.next.clone()?;
        self.emit(Instruction::Pay { cost, next })
    }

    // Puts the cursor of a slot back.
    pub(super) fn restore(
        &mut self,
        slot: usize,
        next: &Rc<Instruction>,
    ) -> Result<Rc<Instruction>, AllocError>
        ensures { IfOk result (λ made. Restores slot next.now.value made.value) }
    {
        let next = next.clone()?;
        self.emit(Instruction::Restore { slot, next })
    }

    // Saves the cursor in a slot.
    pub(super) fn save(
        &mut self,
        cost: u32,
        slot: usize,
        next: Rc<Instruction>,
    ) -> Result<Rc<Instruction>, AllocError>
        ensures { IfOk result (λ made. Saves cost slot next.value made.value) }
    {
        self.emit(Instruction::Save { cost, slot, next })
    }

    // A call.
    pub(super) fn call(
        &mut self,
        routine: usize,
        cost: u32,
        exits: &Exits,
    ) -> Result<Rc<Instruction>, AllocError>
        ensures { IfOk result (λ made. (t : ℕ → Listing) (n : ℕ) → PerformsWithExits t (λ p levels. pay_first (calls p levels routine)) cost n exits.now made.value) }
    {
        emit!(self, exits, Call { cost, routine })
    }

    // `do` and a call.
    pub(super) fn do_call(
        &mut self,
        routine: usize,
        cost: u32,
        exits: &Exits,
    ) -> Result<Rc<Instruction>, AllocError>
        ensures { IfOk result (λ made. (t : ℕ → Listing) (n : ℕ) → PerformsWithExits t (λ p levels. pay_first (do_of (calls p levels routine))) cost n exits.now made.value) }
    {
        let next = exits.next.clone()?;
        self.emit(Instruction::DoCall {
            cost,
            routine,
            next,
        })
    }

    // The search of an among.
    pub(super) fn search(
        &mut self,
        among: usize,
        table: usize,
        entries: &[Candidate],
        cost: u32,
        exits: &Exits,
    ) -> Result<Rc<Instruction>, AllocError>
        ensures { IfOk result (λ made. (t : ℕ → Listing) (n : ℕ) → PerformsWithExits t (λ p levels. pay_first (search_all (calls p levels) among entries.now (t table))) cost n exits.now made.value) }
    {
        let entries = Vec::from_slice(self.alloc, entries)?;
        let site = Box::new(self.alloc, SearchSite { table, entries })?;
        emit!(self, exits, Search { cost, among, site })
    }

    // `goto` and `gopast` of a grouping, or of `non` and a grouping.
    pub(super) fn seek_grouping(
        &mut self,
        past: bool,
        grouping: usize,
        wanted: bool,
        cost: u32,
        exits: &Exits,
    ) -> Result<Rc<Instruction>, AllocError>
        ensures { IfOk result (λ made. (t : ℕ → Listing) (n : ℕ) → PerformsWithExits t (λ p levels. seek_of past (pay_first (class_test wanted grouping p levels))) cost n exits.now made.value) }
    {
        emit!(
            self,
            exits,
            SeekGrouping {
                cost,
                past,
                grouping,
                wanted
            }
        )
    }

    // Instructions that run with slots of their own, after one step.
    pub(super) fn nest(
        &mut self,
        body: Rc<Instruction>,
        cost: u32,
        exits: &Exits,
    ) -> Result<Rc<Instruction>, AllocError>
        ensures { IfOk result (λ made. (t : ℕ → Listing) (n : ℕ) → PerformsWithExits t (λ p levels. pay_first (alone (flow p levels t body.value))) cost n exits.now made.value) }
    {
        emit!(self, exits, Nested { cost, body })
    }

    // Goes on with the command of the chosen group.
    pub(super) fn choose(
        &mut self,
        among: usize,
        groups: Vec<GroupCode>,
        cost: u32,
        exits: &Exits,
    ) -> Result<Rc<Instruction>, AllocError>
        ensures { IfOk result (λ made. (t : ℕ → Listing) → PerformsChosen t among groups.items cost exits.now made.value) }
    {
        let bodies = Box::new(self.alloc, groups)?;
        emit!(
            self,
            exits,
            Choose {
                cost,
                among,
                bodies
            }
        )
    }
}
