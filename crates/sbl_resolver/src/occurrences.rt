//! The parts of a script that the checks look at.

use sbl_ast::{DeclarationKind, Mode};

/// The use of a name.
#[derive(Clone, Copy, Debug, PartialEq, Eq)]
pub enum Use {
    /// As a command.
    Command,
    /// As the condition of a string of an `among`.
    Condition,
    /// As the grouping after `non`.
    Excluded,
    /// As a term of a grouping.
    Term,
    /// As the variable of `set` or `unset`.
    Boolean,
    /// As the variable of `setmark` or `$`, or in arithmetic.
    Integer,
    /// As the variable of `->`, or as a string.
    String,
}

/// A position in a script: the number of the item and the mode. Items are counted from 1; the items of a `backwardmode`
/// are counted, the `backwardmode` itself is not.
#[derive(Clone, Copy, Debug, PartialEq, Eq)]
pub struct Site {
    /// The number of the item.
    pub item: usize,
    /// The mode.
    pub mode: Mode,
}

/// What occurs there.
#[derive(Clone, Copy)]
pub enum Notice<'a> {
    /// The declaration of a name.
    Declares(DeclarationKind, &'a str),
    /// The definition of a routine with this name.
    DefinesRoutine(&'a str),
    /// The definition of a grouping with this name.
    DefinesGrouping(&'a str),
    /// The use of a name.
    Uses(Use, &'a str),
    /// `substring`
    Substring,
    /// `among`
    Among {
        /// Whether it has a starter: commands in parentheses before its first string.
        has_starter: bool,
        /// Whether it has no string.
        is_empty: bool,
    },
    /// A string of an `among`, with the number of the among in its item. Amongs are counted from 1, in the order of the
    /// words `among`.
    String(usize, &'a [char]),
    /// `backwards`
    Backwards,
    /// The end of a routine's body, or of the parentheses of an among's group or starter.
    RegionEnd,
}

/// An occurrence: one place in a script that the checks look at.
#[derive(Clone, Copy)]
pub struct Occurrence<'a> {
    /// Its position.
    pub site: Site,
    /// What occurs there.
    pub notice: Notice<'a>,
}
