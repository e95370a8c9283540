//! Commands that begin where the cursor was saved. If the first of them tests the text and signals f, the cursor is where it
//! was, so it need not be put back.

ghost use Rattle.std.specs.Prelude.{◌≡◌, ◌<◌, ◌≤◌, ℕ, length, drop, IfOk, IfSome};
ghost use Rattle.sbl_program.specs.Terms.{class_at};
ghost use Rattle.sbl_program.specs.Actions.{acts, test_grouping};
ghost use Rattle.sbl_program.specs.Run.{runs, all_run};
ghost use Rattle.sbl_program.specs.AmongStrings.{Listing};
ghost use Rattle.sbl_program.specs.ProgramOf.{view_action, view_node, view_nodes};
ghost use Rattle.sbl_semantics.specs.Moves.{match};
ghost use Rattle.sbl_code.specs.Performs.{PerformsAtWithExits, Restores, Tests};

use crate::assembler::{Assembler, Exits, more};
use crate::instruction::Instruction;
use sbl_program::{Action, Node, StringTerm};
use std::alloc::AllocError;
use std::rc::Rc;

// Returns what a run goes on with after it has put the cursor of this slot back, if that is the exit after f.
fn stay(exits: &Exits, slot: usize) -> Option<&Rc<Instruction>>
    ensures { IfSome result (λ stay. Restores slot stay.now.value exits.now.fail.value) }
{
    match &*exits.fail {
        Instruction::Restore { slot: saved, next } => {
            if *saved == slot { Some(next) } else { None }
        }
        _ => None,
    }
}

impl Assembler {
    // A command that begins where the cursor was saved in this slot.
    #[cycle(command)]
    pub(super) fn inner(
        &mut self,
        node: &Node,
        slot: usize,
        exits: &Exits,
    ) -> Result<Rc<Instruction>, AllocError>
        requires { slot < 4 }
        ensures { IfOk result (λ made. (t : ℕ → Listing) → PerformsAtWithExits t (λ p levels. runs p levels (view_node t node.now)) 0 slot exits.now made.value) }
    {
        match node {
            Node::Act(action) => self.test(action, 1, slot, exits),
            Node::Sequence(commands) => self.inner_sequence(commands, slot, exits),
            _ => self.command(node, 0, slot + 1, exits),
        }
    }

    // Commands one after another, after the step of the sequence, that begin where the cursor was saved in this slot.
    #[cycle(command)]
    fn inner_sequence(
        &mut self,
        commands: &[Node],
        slot: usize,
        exits: &Exits,
    ) -> Result<Rc<Instruction>, AllocError>
        requires { slot < 4 }
        ensures { IfOk result (λ made. (t : ℕ → Listing) → PerformsAtWithExits t (λ p levels. all_run p levels (view_nodes t commands.now)) 1 slot exits.now made.value) }
    {
        if commands.len() < 2 {
            return self.sequence(commands, 1, slot + 1, exits);
        }
        match &commands[0] {
            Node::Act(first) => match first {
                Action::LeftBracket => {
                    let next = self.inner_rest(commands, slot, exits)?;
                    self.emit(Instruction::LeftBracket { cost: 2, next })
                }
                _ => {
                    let now = self.tail(commands, 1, slot + 1, exits)?;
                    self.test(first, 2, slot, &now)
                }
            },
            _ => self.sequence(commands, 1, slot + 1, exits),
        }
    }

    // All but the first of these commands, if that leaves the cursor where it was.
    #[cycle(command)]
    fn inner_rest(
        &mut self,
        commands: &[Node],
        slot: usize,
        exits: &Exits,
    ) -> Result<Rc<Instruction>, AllocError>
        requires many { 2 ≤ length commands.now }
        requires small { slot < 4 }
        ensures { IfOk result (λ made. (t : ℕ → Listing) → PerformsAtWithExits t (λ p levels. all_run p levels (view_nodes t (drop 1 commands.now))) 0 slot exits.now made.value) }
    {
        match &commands[1] {
            Node::Act(second) => {
                let tail = self.tail(commands, 2, slot + 1, exits)?;
                self.test(second, 1, slot, &tail)
            }
            _ => {
                let tail = self.tail(commands, 1, slot + 1, exits)?;
                Ok(tail.next)
            }
        }
    }

    // A command that contains no command and begins where the cursor was saved in this slot.
    fn test(
        &mut self,
        action: &Action,
        cost: u32,
        slot: usize,
        exits: &Exits,
    ) -> Result<Rc<Instruction>, AllocError>
        ensures { IfOk result (λ made. (t : ℕ → Listing) → PerformsAtWithExits t (λ p levels. acts p.groupings (view_action action.now)) cost slot exits.now made.value) }
    {
        let Some(stay) = stay(exits, slot) else {
            return self.act(action, cost, exits);
        };
        match action {
            Action::Match(term) => match term {
                StringTerm::Literal(string) => self.test_literal(string, cost, &exits.next, stay),
                _ => self.act(action, cost, exits),
            },
            Action::Grouping(number) => self.test_class(true, *number, cost, &exits.next, stay),
            Action::NonGrouping(number) => self.test_class(false, *number, cost, &exits.next, stay),
            _ => self.act(action, cost, exits),
        }
    }

    // A literal, after which the cursor is put back if it signals f.
    fn test_literal(
        &mut self,
        string: &[char],
        cost: u32,
        next: &Rc<Instruction>,
        stay: &Rc<Instruction>,
    ) -> Result<Rc<Instruction>, AllocError>
        ensures { IfOk result (λ made. (t : ℕ → Listing) → Tests t (λ p levels m s. match string.now m s) cost next.now.value stay.now.value made.value) }
    {
        let next = next.clone()?;
        let fail = stay.clone()?;
        let back = true;
        if string.len() == 1 {
            let character = string[0];
            return self.emit(Instruction::Character {
                cost,
                character,
                back,
                next,
                fail,
            });
        }
        let copy = Vec::from_slice(self.alloc, string)?;
        let string = Box::new(self.alloc, copy)?;
        self.emit(Instruction::Literal {
            cost,
            string,
            back,
            next,
            fail,
        })
    }

    // A grouping, or `non` and a grouping, after which the cursor is put back if it signals f.
    fn test_class(
        &mut self,
        wanted: bool,
        grouping: usize,
        cost: u32,
        next: &Rc<Instruction>,
        stay: &Rc<Instruction>,
    ) -> Result<Rc<Instruction>, AllocError>
        ensures { IfOk result (λ made. (t : ℕ → Listing) → Tests t (λ p levels m s. test_grouping wanted (class_at p.groupings grouping) grouping m s) cost next.now.value stay.now.value made.value) }
    {
        let next = next.clone()?;
        let fail = stay.clone()?;
        let back = true;
        self.emit(Instruction::Grouping {
            cost,
            wanted,
            grouping,
            back,
            next,
            fail,
        })
    }
}
