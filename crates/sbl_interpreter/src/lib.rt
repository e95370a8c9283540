//! Runs threaded code. That is faster than to run a tree.
#![tactic(auto)]

mod runner;
mod slots;

pub use runner::Runner;
