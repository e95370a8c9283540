//! The events of a run, which it records on request.

use sbl_ast::Mode;

/// An event of a run. Numbers of routines, and of the amongs in a routine, count from 0.
#[derive(Debug, Drop, PartialEq, Eq)]
pub enum Event {
    /// The run enters the body of the routine with this number.
    Enters(usize),
    /// The body that was entered last and not left yet ends with this signal.
    Leaves(bool),
    /// A search begins.
    Searches {
        /// The number of the current routine.
        routine: usize,
        /// The number of the among in this routine.
        among: usize,
        /// The direction of the search.
        mode: Mode,
        /// The offset of the cursor.
        cursor: usize,
    },
    /// The search of the among with this number, which began last and has not ended yet, takes the string of this many
    /// characters that was ahead when it began, or none.
    Finds(usize, Option<usize>),
    /// The characters between two offsets of the text are replaced by these.
    Puts(usize, usize, Vec<char>),
}
