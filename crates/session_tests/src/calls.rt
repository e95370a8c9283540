//! Public calls, each file by what it tries.

mod benches;
mod checks;
mod compares;
mod cuts;
mod devices;
mod edit_replies;
mod filters;
mod lines;
mod sessions;
mod verbs;
