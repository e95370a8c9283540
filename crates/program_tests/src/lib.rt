//! Tests of the whole program, of command lines, of work and of files that are replaced. This crate has only tests.
#![tactic(auto)]

#[cfg(test)]
mod command_lines;
#[cfg(test)]
mod program;
#[cfg(test)]
mod saving;
#[cfg(test)]
mod work;
