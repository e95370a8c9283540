//! The lines on a fault that people read: its place, what is wrong in a sentence, and the line of the text with carets.
#![tactic(auto)]

mod block_faults;
mod characters;
mod comments;
mod constructs;
mod declarations;
mod definitions;
mod enclosed;
mod encodings;
mod expectations;
mod foreign;
mod grammar;
mod insertions;
mod line_faults;
mod misspelt;
mod near;
mod one_line;
mod places;
mod reasons;
mod sentences;
mod sites;
mod text_lines;
mod undeclared;

pub use block_faults::{TypedBlock, part_text, whole_text};
pub use characters::{plain_text, push_named};
pub use line_faults::{BadLine, LineRole, STANDARD_INPUT, bad_line_text};
pub use one_line::{RefusedText, fault_sentence};
pub use places::{fault_of, offset_of_byte, script_fault_text};
