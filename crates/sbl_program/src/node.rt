//! The commands of a routine as the interpreter runs them: names are numbers; each among has its table and its number
//! in its routine.

ghost use Rattle.std.specs.Prelude.{◌≡◌, ℕ, slice_get};
ghost use Rattle.std.specs.Option.{option_map};
ghost use Rattle.sbl_program.specs.AmongStrings.{Listing};
ghost use Rattle.sbl_program.specs.ProgramOf.{program_of, view_routine};

use crate::action::{Action, Arithmetic};
use crate::character_class::CharacterClass;
use sbl_ast::Joiner;

/// A command of a routine's body.
#[cycle(node)]
#[derive(Drop)]
pub enum Node {
    /// A command that contains no command.
    Act(Action),
    /// `( C1 C2 .. )`
    Sequence(Vec<Node>),
    /// `C1 or C2 and C3 ..`: a row of commands, grouped from left to right. If `others` is empty, the row is the first
    /// command in parentheses.
    Row {
        /// The first command.
        first: Box<Node>,
        /// The commands after it.
        others: Vec<JoinedNode>,
    },
    /// `not C`
    Not(Box<Node>),
    /// `test C`
    Test(Box<Node>),
    /// `try C`
    Try(Box<Node>),
    /// `do C`
    Do(Box<Node>),
    /// `fail C`
    Fail(Box<Node>),
    /// `repeat C`
    Repeat(Box<Node>),
    /// `loop AE C`
    Loop(Arithmetic, Box<Node>),
    /// `atleast AE C`
    AtLeast(Arithmetic, Box<Node>),
    /// `goto C`
    Goto(Box<Node>),
    /// `gopast C`
    GoPast(Box<Node>),
    /// `backwards C`
    Backwards(Box<Node>),
    /// `setlimit C1 for C2`
    SetLimit(Box<Node>, Box<Node>),
    /// The name of a routine, by its number.
    Call(usize),
    /// The search of an among: a `substring`, or the search that the among makes itself.
    Search {
        /// The number of the among in its routine.
        among: usize,
        /// The number of its table.
        table: usize,
        /// The candidate of each string.
        entries: Vec<Candidate>,
    },
    /// `among ( .. )`
    Among {
        /// The number of the among in its routine.
        among: usize,
        /// What runs before the command of the chosen group: the search and the starter. If a `substring` makes the
        /// search: empty.
        before: Vec<Node>,
        /// The command of each group.
        bodies: Vec<Node>,
    },
}

/// A command after the first one of a row.
#[cycle(node)]
#[derive(Drop)]
pub struct JoinedNode {
    /// The word before it.
    pub joiner: Joiner,
    /// The command.
    pub command: Node,
}

/// What belongs to a string of an among.
#[derive(Clone, Copy, Debug, PartialEq, Eq)]
pub struct Candidate {
    /// The routine that must signal t.
    pub condition: Option<usize>,
    /// The number of its group; the number of groups if it has no command.
    pub group: usize,
    /// The length of the string in characters.
    pub length: usize,
}

/// A routine.
#[derive(Drop)]
pub struct Routine {
    /// The body of the routine.
    pub body: Node,
    /// The number of amongs in the routine.
    pub amongs: usize,
}

/// A program: the variables, groupings and routines that commands refer to by number.
#[derive(Drop)]
pub struct Program {
    /// The number of integer variables.
    pub integers: usize,
    /// The number of boolean variables.
    pub booleans: usize,
    /// The number of string variables.
    pub strings: usize,
    /// The class of each grouping.
    pub groupings: Vec<CharacterClass>,
    /// The routines.
    pub routines: Vec<Routine>,
    /// The number of the routine to run.
    pub external: usize,
}

impl Program {
    /// Returns the routine with this number, or `None` if there is none.
    pub fn routine(&self, number: usize) -> Option<&Routine>
        ensures { (tables : ℕ → Listing) → slice_get (program_of tables self.now).routines number ≡ option_map (λ r. view_routine tables r.now) result }
    {
        self.routines.get(number)
    }
}
