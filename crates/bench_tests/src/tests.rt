//! Public calls, each file by what it tries.

mod amongs;
mod bench;
mod breaks;
mod changes;
mod control;
mod edits;
mod families;
mod groupings;
mod largest;
mod limits;
mod row_lists;
mod runs;
mod slices;
mod stats;
mod tables;
mod touched;
mod whole_scripts;
mod whys;
