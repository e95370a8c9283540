//! What a run uses of its script: where a run is between its events, the parts that it can use, and the laws of its searches.
#![tactic(auto)]

mod amongs;
mod counts;
pub mod laws;
mod moment;
mod slices;
mod take_counts;
mod takes;
mod touched_items;
mod unused;
mod usable_parts;
mod usables;
mod uses;

pub use moment::Moment;
pub use slices::first;
pub use take_counts::{TakeCounts, count_each, number_taking};
pub use takes::{Takes, add_take};
pub use touched_items::{Items, add_bases, add_items};
pub use unused::Used;
pub use usable_parts::{Parts, parts_of};
pub use usables::{Usable, own_item, usables_of};
pub use uses::{Question, UsesFault, usable_for};
