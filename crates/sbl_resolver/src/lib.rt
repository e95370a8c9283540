//! The resolver: the checks of a script beyond its grammar, such as whether its names are declared and defined.
#![tactic(auto)]

mod bodies;
mod checks;
mod fault_list;
pub mod laws;
mod noting;
mod occurrences;
mod sofar;

pub use bodies::body_in;
pub use checks::{check, first_fault};
pub use fault_list::all_faults;
pub use occurrences::{Site, Use};
