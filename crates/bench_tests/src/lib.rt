//! Tests of runs, of what runs touch, and of a vocabulary's refusals and edits. This crate has only tests.
#![tactic(auto)]

#[cfg(test)]
mod tests;
