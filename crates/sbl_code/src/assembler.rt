//! Makes the code of a program.

ghost use Rattle.std.specs.Prelude.{◌≡◌, ◌+◌, ◌≤◌, ℕ, length, drop, IfOk};
ghost use Rattle.sbl_program.specs.AmongStrings.{Listing};
ghost use Rattle.sbl_program.specs.ProgramOf.{view_node, view_nodes, view_routine};
ghost use Rattle.sbl_program.specs.Run.{runs, all_run};
ghost use Rattle.sbl_semantics.specs.Control.{pay_first};
ghost use Rattle.sbl_code.specs.Performs.{PerformsAmong, PerformsWithExits, Runs, chosen_node};
ghost use Rattle.sbl_code.specs.Flow.{fail_of};
ghost use Rattle.sbl_code.specs.CodeOf.{IsCodeOf, AreCodeOf};

// Makes an instruction that goes on with the exits of a command.
macro_rules! emit {
    ($assembler:ident, $exits:ident, $kind:ident { $($field:ident),* }) => {{
        let Exits { next, fail } = $exits.copy()?;
        $assembler.emit(Instruction::$kind {
            $($field,)*
            next,
            fail,
        })
    }};
}

mod acting;
mod emitting;
mod looping;
mod saving;
mod testing;

use crate::code::RoutineCode;
use crate::instruction::{GroupCode, Instruction};
use sbl_program::{Node, Program, Routine};
use std::alloc::{AllocError, Global};
use std::rc::Rc;

/// Makes instructions, those that others lead to first.
#[derive(Drop)]
pub struct Assembler {
    alloc: Global,
    instructions: Vec<Rc<Instruction>>,
}

/// Where a command goes on after t and after f.
#[derive(Drop)]
pub struct Exits {
    next: Rc<Instruction>,
    fail: Rc<Instruction>,
}

/// How a command that saved the cursor goes on after the command in it.
#[derive(Clone, Copy)]
pub enum Way {
    /// With what follows t.
    Next,
    /// With what follows f.
    Fail,
    /// It puts the cursor back, and goes on with what follows t.
    Back,
}

/// Where a command saves the cursor, and where it goes on from there.
#[derive(Drop)]
pub struct Place {
    cost: u32,
    slot: usize,
    exits: Exits,
    nested: bool,
}

// Returns the sum of two numbers of steps. Returns `AllocError` if it is above `u32::MAX`: no script has so many commands.
fn more(cost: u32, count: u32) -> Result<u32, AllocError>
    ensures { IfOk result (λ sum. sum ≡ cost + count) }
{
    match cost.checked_add(count) {
        None => Err(AllocError),
        Some(sum) => Ok(sum),
    }
}

// Returns the number of steps of this many commands. Returns `AllocError` if it is above `u32::MAX`.
fn steps_of(count: usize) -> Result<u32, AllocError>
    ensures { IfOk result (λ steps. steps ≡ count) }
{
    match u32::try_from(count) {
        Err(_) => Err(AllocError),
        Ok(steps) => Ok(steps),
    }
}

impl Exits {
    // Returns the same exits.
    fn copy(&self) -> Result<Exits, AllocError>
        ensures { IfOk result (λ copy. (copy.next.value ≡ self.now.next.value) × (copy.fail.value ≡ self.now.fail.value)) }
    {
        Ok(Exits {
            next: self.next.clone()?,
            fail: self.fail.clone()?,
        })
    }
}

impl Assembler {
    /// Returns an assembler that has made nothing.
    pub fn new(alloc: Global) -> Assembler {
        Assembler {
            alloc,
            instructions: Vec::new(alloc),
        }
    }

    /// Returns all instructions, each before those that it leads to.
    pub fn into_instructions(self) -> Vec<Rc<Instruction>> {
        let mut instructions = self.instructions;
        instructions.reverse();
        instructions
    }

    /// Returns the first instruction of each routine.
    pub fn routines(&mut self, program: &Program) -> Result<Vec<RoutineCode>, AllocError>
        ensures { IfOk result (λ codes. AreCodeOf codes.items program.now.routines.items) }
    {
        let mut codes = Vec::new(self.alloc);
        for routine in &program.routines {
            let code = self.routine(routine)?;
            codes.push(code)?;
        }
        Ok(codes)
    }

    // Returns the code of a routine.
    fn routine(&mut self, routine: &Routine) -> Result<RoutineCode, AllocError>
        ensures { IfOk result (λ code. (tables : ℕ → Listing) → IsCodeOf tables code (view_routine tables routine.now)) }
    {
        let first = self.body(&routine.body)?;
        Ok(RoutineCode {
            amongs: routine.amongs,
            first,
        })
    }

    // A command. `cost` steps are used before its own.
    #[cycle(command)]
    fn command(
        &mut self,
        node: &Node,
        cost: u32,
        slot: usize,
        exits: &Exits,
    ) -> Result<Rc<Instruction>, AllocError>
        ensures { IfOk result (λ made. (tables : ℕ → Listing) → PerformsWithExits tables (λ p levels. runs p levels (view_node tables node.now)) cost slot exits.now made.value) }
    {
        match node {
            Node::Act(action) => self.act(action, more(cost, 1)?, exits),
            Node::Sequence(commands) => self.sequence(commands, more(cost, 1)?, slot, exits),
            Node::Row { first, others } => {
                if others.is_empty() {
                    return self.command(first, more(cost, 1)?, slot, exits);
                }
                let own = steps_of(others.len())?;
                let place = self.place(cost, own, slot, exits)?;
                let rest = self.rest(others, place.slot, &place.exits)?;
                let entry = self.inner(first, place.slot, &rest)?;
                self.save_before(&place, entry, cost, exits)
            }
            Node::Not(inner) => self.wrap(inner, Way::Fail, Way::Back, cost, slot, exits),
            Node::Test(inner) => self.wrap(inner, Way::Back, Way::Fail, cost, slot, exits),
            Node::Try(inner) => self.wrap(inner, Way::Next, Way::Back, cost, slot, exits),
            Node::Do(inner) => self.do_command(inner, cost, slot, exits),
            Node::Fail(inner) => self.fail(inner, cost, slot, exits),
            Node::Repeat(inner) => self.repeat(inner, cost, exits),
            Node::Loop(count, inner) => self.iterate(inner, count, false, cost, exits),
            Node::AtLeast(count, inner) => self.iterate(inner, count, true, cost, exits),
            Node::Goto(inner) => self.seek(false, inner, cost, exits),
            Node::GoPast(inner) => self.seek(true, inner, cost, exits),
            Node::Backwards(inner) => self.backwards(cost, exits, inner),
            Node::SetLimit(first, second) => {
                let second = self.body(second)?;
                self.set_limit(first, second, cost, exits)
            }
            Node::Call(number) => self.call(*number, cost, exits),
            Node::Search {
                among,
                table,
                entries,
            } => self.search(*among, *table, entries, cost, exits),
            Node::Among {
                among,
                before,
                bodies,
            } => {
                let choose = self.groups(*among, slot, exits, bodies)?;
                self.among(before, choose, cost, slot, exits)
            }
        }
    }

    // A command that runs by itself.
    #[cycle(command)]
    fn body(&mut self, inner: &Node) -> Result<Rc<Instruction>, AllocError>
        ensures { IfOk result (λ made. (tables : ℕ → Listing) → Runs tables (λ p levels. runs p levels (view_node tables inner.now)) made.value) }
    {
        let ends = self.ends()?;
        self.command(inner, 0, 0, &ends)
    }

    // Commands one after another. `cost` steps are used before them.
    #[cycle(command)]
    fn sequence(
        &mut self,
        commands: &[Node],
        cost: u32,
        slot: usize,
        exits: &Exits,
    ) -> Result<Rc<Instruction>, AllocError>
        ensures { IfOk result (λ made. (tables : ℕ → Listing) → PerformsWithExits tables (λ p levels. all_run p levels (view_nodes tables commands.now)) cost slot exits.now made.value) }
    {
        if commands.is_empty() {
            return self.pay(cost, exits);
        }
        let now = self.tail(commands, 1, slot, exits)?;
        self.command(&commands[0], cost, slot, &now)
    }

    // The exits of a command, if it goes on after t with all but the first `count` commands.
    #[cycle(command)]
    fn tail(
        &mut self,
        commands: &[Node],
        count: usize,
        slot: usize,
        exits: &Exits,
    ) -> Result<Exits, AllocError>
        requires { count ≤ length commands.now }
        ensures fail { IfOk result (λ tail. tail.fail.value ≡ exits.now.fail.value) }
        ensures next { IfOk result (λ tail. (t : ℕ → Listing) → PerformsWithExits t (λ p levels. all_run p levels (view_nodes t (drop count commands.now))) 0 slot exits.now tail.next.value) }
    {
        let mut now = exits.copy()?;
        let mut i = commands.len();
        while count < i {
            i -= 1;
            now.next = self.command(&commands[i], 0, slot, &now)?;
        }
        Ok(now)
    }

    // `fail C`
    #[cycle(command)]
    fn fail(
        &mut self,
        inner: &Node,
        cost: u32,
        slot: usize,
        exits: &Exits,
    ) -> Result<Rc<Instruction>, AllocError>
        ensures { IfOk result (λ made. (t : ℕ → Listing) → PerformsWithExits t (λ p levels. pay_first (fail_of (runs p levels (view_node t inner.now)))) cost slot exits.now made.value) }
    {
        let own = Exits {
            next: exits.fail.clone()?,
            fail: exits.fail.clone()?,
        };
        self.command(inner, more(cost, 1)?, slot, &own)
    }

    // What an among does before the command of its group, and then that command, which is made already.
    #[cycle(command)]
    fn among(
        &mut self,
        before: &[Node],
        choose: Rc<Instruction>,
        cost: u32,
        slot: usize,
        exits: &Exits,
    ) -> Result<Rc<Instruction>, AllocError>
        ensures { IfOk result (λ made. (tables : ℕ → Listing) → PerformsAmong tables before.now cost slot exits.now choose.value made.value) }
    {
        let own = Exits {
            next: choose,
            fail: exits.fail.clone()?,
        };
        self.sequence(before, more(cost, 1)?, slot, &own)
    }

    // The command of the chosen group.
    #[cycle(command)]
    fn groups(
        &mut self,
        among: usize,
        slot: usize,
        exits: &Exits,
        bodies: &[Node],
    ) -> Result<Rc<Instruction>, AllocError>
        ensures { IfOk result (λ made. (tables : ℕ → Listing) → PerformsWithExits tables (chosen_node tables among bodies.now) 0 slot exits.now made.value) }
    {
        let mut entries = Vec::new(self.alloc);
        for body in bodies {
            let first = self.command(body, 0, slot, exits)?;
            entries.push(GroupCode { first })?;
        }
        self.choose(among, entries, 0, exits)
    }
}
