//! The items that a run may touch, with borrowed names.

/// An item of a script that borrows its name. The order is that of `Item`: routines by name in code point order, then amongs by
/// name and number, then groupings by name.
#[derive(Clone, Copy, Debug, PartialEq, Eq, PartialOrd, Ord)]
pub enum ItemRef<'n> {
    /// A routine's body, by the routine's name.
    Routine(&'n str),
    /// An among, by the name of its routine and its number there, counted from 1 in the order of the words `among`.
    Among(&'n str, u64),
    /// A grouping's terms, by the grouping's name.
    Grouping(&'n str),
}
