//! Instructions.

use sbl_program::{Action, Arithmetic, Candidate};
use std::rc::Rc;

/// The number of cursors that the instructions of a routine can save. Commands that are nested deeper get a runner of their own.
pub const SLOTS: usize = 4;

/// An instruction of a routine. A run acts and goes on with `next` after t and with `fail` after f. Before it acts it uses
/// the steps of `cost`: those of the commands that begin here and do nothing else.
#[cycle(instruction)]
#[derive(Drop)]
pub enum Instruction {
    /// The end, with the signal of all.
    End(bool),
    /// Uses steps.
    Pay {
        cost: u32,
        next: Rc<Instruction>,
    },
    /// A literal of one character. `back` says that the cursor is put back after f. It is where it was, so a run does nothing
    /// for that.
    Character {
        cost: u32,
        character: char,
        back: bool,
        next: Rc<Instruction>,
        fail: Rc<Instruction>,
    },
    /// Any other literal; `back` is as in `Character`.
    Literal {
        cost: u32,
        string: Box<Vec<char>>,
        back: bool,
        next: Rc<Instruction>,
        fail: Rc<Instruction>,
    },
    /// A grouping, or `non` and a grouping; `back` is as in `Character`.
    Grouping {
        cost: u32,
        wanted: bool,
        grouping: usize,
        back: bool,
        next: Rc<Instruction>,
        fail: Rc<Instruction>,
    },
    /// `[`
    LeftBracket {
        cost: u32,
        next: Rc<Instruction>,
    },
    /// `]`
    RightBracket {
        cost: u32,
        next: Rc<Instruction>,
    },
    /// The name of a boolean variable.
    Boolean {
        cost: u32,
        number: usize,
        next: Rc<Instruction>,
        fail: Rc<Instruction>,
    },
    /// `next`
    Next {
        cost: u32,
        next: Rc<Instruction>,
        fail: Rc<Instruction>,
    },
    /// Any other command that contains no command.
    Act {
        cost: u32,
        action: Box<Action>,
        next: Rc<Instruction>,
        fail: Rc<Instruction>,
    },
    /// Saves the cursor in a slot.
    Save {
        cost: u32,
        slot: usize,
        next: Rc<Instruction>,
    },
    /// Puts the cursor back to where it was saved.
    Restore {
        slot: usize,
        next: Rc<Instruction>,
    },
    /// Runs other instructions with slots of their own.
    Nested {
        cost: u32,
        body: Rc<Instruction>,
        next: Rc<Instruction>,
        fail: Rc<Instruction>,
    },
    /// `repeat C`
    Repeat {
        cost: u32,
        body: Rc<Instruction>,
        next: Rc<Instruction>,
    },
    /// `loop AE C`
    Loop {
        cost: u32,
        count: Box<Arithmetic>,
        body: Rc<Instruction>,
        next: Rc<Instruction>,
        fail: Rc<Instruction>,
    },
    /// `atleast AE C`
    AtLeast {
        cost: u32,
        count: Box<Arithmetic>,
        body: Rc<Instruction>,
        next: Rc<Instruction>,
        fail: Rc<Instruction>,
    },
    /// `goto C` and `gopast C`
    Seek {
        cost: u32,
        past: bool,
        body: Rc<Instruction>,
        next: Rc<Instruction>,
        fail: Rc<Instruction>,
    },
    /// `goto` and `gopast` of a grouping, or of `non` and a grouping.
    SeekGrouping {
        cost: u32,
        past: bool,
        grouping: usize,
        wanted: bool,
        next: Rc<Instruction>,
        fail: Rc<Instruction>,
    },
    /// `backwards C`
    Backwards {
        cost: u32,
        body: Rc<Instruction>,
        next: Rc<Instruction>,
        fail: Rc<Instruction>,
    },
    /// `setlimit C1 for C2`
    SetLimit {
        cost: u32,
        first: Rc<Instruction>,
        second: Rc<Instruction>,
        next: Rc<Instruction>,
        fail: Rc<Instruction>,
    },
    /// The call of a routine, by its number.
    Call {
        cost: u32,
        routine: usize,
        next: Rc<Instruction>,
        fail: Rc<Instruction>,
    },
    /// `do` and the call of a routine.
    DoCall {
        cost: u32,
        routine: usize,
        next: Rc<Instruction>,
    },
    /// The search of an among.
    Search {
        cost: u32,
        among: usize,
        site: Box<SearchSite>,
        next: Rc<Instruction>,
        fail: Rc<Instruction>,
    },
    /// Goes on with the command of the group that the search of an among chose.
    Choose {
        cost: u32,
        among: usize,
        bodies: Box<Vec<GroupCode>>,
        next: Rc<Instruction>,
        fail: Rc<Instruction>,
    },
}

/// What an among searches: the strings of a table, and the candidate of each.
#[derive(Drop)]
pub struct SearchSite {
    /// The number of the table.
    pub table: usize,
    /// The candidates.
    pub entries: Vec<Candidate>,
}

/// The command of a group of an among.
#[cycle(instruction)]
#[derive(Drop)]
pub struct GroupCode {
    /// Its first instruction.
    pub first: Rc<Instruction>,
}
