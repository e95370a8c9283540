//! Tests of tokens, trees, scripts, edits of scripts and canonical texts. This crate has only tests.
#![tactic(auto)]

#[cfg(test)]
mod tests;
