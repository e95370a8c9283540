//! Programs as threaded code: instructions that are linked to those after them. The code of a program is made once.
#![tactic(auto)]

mod assembler;
mod code;
mod copies;
mod instruction;

pub use code::{Code, RoutineCode};
pub use instruction::{GroupCode, Instruction, SLOTS, SearchSite};
