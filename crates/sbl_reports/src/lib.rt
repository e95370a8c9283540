//! The texts that commands read and write: blocks of lines, the rows and classes of a bench, and the reports on them.
#![tactic(auto)]

mod block_text;
mod families;
pub mod laws;
mod listings;
mod lookups;
mod reports;
mod word_lists;
mod written_stems;

pub use block_text::{BlockFault, BlockText, read_block, text_of_lines};
pub use families::families_text;
pub use listings::rows_text;
pub use lookups::{found_text, stem_text};
pub use reports::{largest_text, stats_text};
pub use word_lists::{ListForm, word_list};
pub use written_stems::{has_stem_lines, stem_lines, stems_in, text_line_count};
