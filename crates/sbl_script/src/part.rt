//! Parts of a script.

/// A part of a script that can be replaced: a routine, an among or a grouping, by name and number.
#[derive(Clone, Copy, Debug, PartialEq, Eq)]
pub enum Part<'a> {
    /// The body of the routine or external with this name.
    Routine(&'a str),
    /// The among with this number in the routine or external with this name, counted from 1 in the order of the words `among`.
    Among(&'a str, u64),
    /// The terms of the grouping with this name.
    Grouping(&'a str),
}
