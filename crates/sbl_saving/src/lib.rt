//! Files that are replaced so that each has its old text or its new one, whatever happens in between.
#![tactic(auto)]

mod folder;
mod former;
mod in_place;
mod memory;
mod read;
mod replace;
mod save;
mod save_fault;
mod system;

pub use folder::{Failed, Folder, SaveStep};
pub use former::Former;
pub use memory::{Find, MemoryFolder};
pub use read::{ReadFault, is_same_file, read_file};
pub use replace::{ReplaceFault, replace_file};
pub use save::save_file;
pub use save_fault::SaveFault;
