//! The code of a program.

ghost use Rattle.sbl_code.specs.CodeOf.{IsCodeOfAny, AreCodeOf};
ghost use Rattle.std.specs.Prelude.{◌≡◌, ℕ, IfOk, slice_get};
ghost use Rattle.std.specs.Option.{option_copied};
ghost use Rattle.sbl_program.specs.AmongStrings.{Listing};
ghost use Rattle.sbl_program.specs.ProgramOf.{program_of};

use crate::assembler::Assembler;
use crate::instruction::Instruction;
use sbl_program::Program;
use std::alloc::{AllocError, Global};
use std::marker::Model;
use std::rc::Rc;

/// The code of a routine.
#[derive(Drop)]
pub struct RoutineCode {
    /// The number of amongs in the routine.
    pub amongs: usize,
    /// The first instruction.
    pub first: Rc<Instruction>,
}

/// A program with its code.
#[derive(Drop)]
pub struct Code {
    program: Program,
    routines: Vec<RoutineCode>,
    // All instructions, each before those that it leads to. So a drop ends one instruction after the other.
    instructions: Vec<Rc<Instruction>>,
}

impl Model for Code {
    ghost use Rattle.sbl_program.specs.declared.node.Program.{Program};
    ghost use Rattle.sbl_program.specs.contracts.node.Node as node;
    ghost use Rattle.sbl_program.specs.contracts.action.Arithmetic as arithmetic;
    ghost use Rattle.std.specs.Coded.{codes};
    ghost use Rattle.sbl_code.specs.CodeOf.{AreCodeOf};

    ghost Value = { Program };

    ghost coded = { Prim.hlevel (codes, node.the_row.coded, arithmetic.the_row.coded) };

    ghost view = { λ c. c.program };

    ghost invariant = { λ c. AreCodeOf c.routines.items c.program.routines.items };
}

impl Code {
    /// Returns a program with its code. Returns `AllocError` if an allocation fails.
    pub fn new(alloc: Global, program: Program) -> Result<Code, AllocError>
        ensures { IfOk result (λ code. code ≡ program) }
    {
        let mut assembler = Assembler::new(alloc);
        let routines = assembler.routines(&program);
        let instructions = assembler.into_instructions();
        let routines = routines?;
        Ok(Code {
            program,
            routines,
            instructions,
        })
    }

    /// Returns the program.
    #[inline(always)]
    pub fn program(&self) -> &Program
        ensures { result.now ≡ self.now }
    {
        &self.program
    }

    /// Returns the code of the routine with this number, or `None` if there is none.
    #[inline(always)]
    pub fn routine(&self, number: usize) -> Option<&RoutineCode>
        ensures { (tables : ℕ → Listing) → IsCodeOfAny tables (option_copied result) (slice_get (program_of tables self.now).routines number) }
    {
        self.routines.get(number)
    }
}
