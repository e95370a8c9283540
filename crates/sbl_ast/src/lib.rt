//! The AST of Snowball scripts: its types, the tokens that each tree is written with, the two modes, and the items of a script in
//! order.
#![tactic(auto)]

mod mode;
mod order;
mod tree;

pub use mode::Mode;
pub use order::{ItemInMode, items_in_order};
pub use tree::{
    Additive, Among, Argument, Assignment, Base, Command, Comparison, Constant, Count,
    DeclarationKind, Entry, Expression, Factor, Group, Grouping, Joiner, Literal, Move,
    Multiplicative, Naming, NextCommand, NextFactor, NextProduct, Plain, Prefix, Product,
    RowOfCommands, ScriptItem, Simple, Splice, Term,
};
