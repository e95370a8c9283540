//! Readers and writers of bytes, the lines of a reader, and CSV records as text: what they return, when they fail, and
//! what is left to read.
#![tactic(auto)]

mod devices;
mod faults;
mod lines;
mod records;
mod report;
mod text_buffer;
mod text_lines;
mod writing;

pub use devices::{Device, Sink, Source, Stop};
pub use faults::{LineFault, ServeFault};
pub use lines::{Lines, MAX_LINE};
pub use records::{push_line, push_number, push_text, push_two, record_line, text_of};
pub use report::{Report, ReportLength, ReportText};
pub use text_buffer::TextBuffer;
pub use text_lines::first_line;
pub use writing::write_all;
