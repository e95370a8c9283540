//! Copies of trees, and the amongs of a body: found by their numbers, counted, replaced.
#![tactic(auto)]

mod copies;
mod counting;
mod finding;
pub mod laws;
mod replacing;

pub use copies::{
    copy_among, copy_command, copy_entries, copy_entry, copy_expression, copy_name, copy_plain,
    copy_row,
};
pub use counting::{among_count, has_as_many_amongs};
pub use finding::nth_among;
pub use replacing::put_in_place;
