//! What a run touches, by number.

/// A touch of a run: it enters a routine's body, searches an among, or tests a grouping. The numbers have 32 bits.
#[derive(Clone, Copy, Debug, Drop, PartialEq, Eq)]
pub enum Touch {
    /// The run enters the body of the routine with this number.
    Entered(u32),
    /// The run pays for the search of an among: the number of its routine, and its own number in it, both from 0.
    Searched(u32, u32),
    /// The run pays for the test of the grouping with this number.
    Tested(u32),
}
