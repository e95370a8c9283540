//! Public calls, each file by what it tries.

mod blocks;
mod edits;
mod faults;
mod grammar;
mod grouping_edits;
mod offsets;
mod positions;
mod printing;
mod script;
mod script_edits;
mod text;
