//! The items that an edit of a script may replace and that a run may touch.

/// An item of a script. The order is: routines by name in code point order, then amongs by name and number, then
/// groupings by name.
#[derive(Clone, Debug, Drop, PartialEq, Eq, PartialOrd, Ord)]
pub enum Item {
    /// A routine's body, by the routine's name.
    Routine(String),
    /// An among, by the name of its routine and its number there, counted from 1 in the order of the words `among`.
    Among(String, u64),
    /// A grouping's terms, by the grouping's name.
    Grouping(String),
}
