//! Programs as the interpreter runs them: names are numbers, each `substring` is tied to its `among`, groupings are
//! classes of characters, and the strings of an among have a table to search.
#![tactic(auto)]

mod action;
mod among;
mod bits;
mod block;
mod blocks;
mod character_class;
pub mod laws;
mod linked;
mod node;
mod plain;
mod search;

pub use action::{Action, Addend, Arithmetic, Change, Multiplicand, Relation, StringTerm};
pub use among::AmongStrings;
pub use character_class::{CharacterClass, is_in_class};
pub use linked::LinkedTable;
pub use node::{Candidate, JoinedNode, Node, Program, Routine};
pub use plain::PlainTable;
pub use search::AmongSearch;
