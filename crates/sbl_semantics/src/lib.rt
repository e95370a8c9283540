//! What a run of a script means, defined on the script's trees, and the types of what a run reports.
#![tactic(auto)]

mod cursor;
mod event;
mod fault;
mod item;
mod limits;
mod outcome;
mod touch;

pub use cursor::SavedCursor;
pub use event::Event;
pub use fault::RunFault;
pub use item::Item;
pub use limits::Limits;
pub use outcome::Outcome;
pub use touch::Touch;
