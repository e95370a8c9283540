//! The items in which two trees differ, part by part.
#![tactic(auto)]

mod command_diff;
mod counting;
mod item_diff;
mod picks;
mod same;

pub use item_diff::differ_trees;
