//! Places in the text of a script: of a fault, of a part, and of a definition.
#![tactic(auto)]

mod block_faults;
mod block_places;
mod definitions;
mod fault_kinds;
mod fault_lists;
mod fault_numbers;
mod fault_places;
mod fault_ranges;
pub mod laws;
mod parts;
mod positions;
mod subject_tokens;

pub use block_faults::{TypedPart, faults_of_block};
pub use block_places::offset_in_block;
pub use definitions::{definition_of, definition_text, without_head};
pub use fault_lists::{PlacedFault, faults_of_text};
pub use fault_numbers::number_of;
pub use fault_places::{FaultPlace, offset_of_fault, place_of_fault, tokens_of};
pub use parts::{Excerpt, begins_item, cut_at_part, depth_after};
pub use positions::{Position, position_of};
pub use sbl_text::ScriptFault;
