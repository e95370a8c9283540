//! Tests of lines, sessions, filters, checks and comparisons. This crate has only tests.
#![tactic(auto)]

#[cfg(test)]
mod calls;
