//! The steps that undo and redo edits.
ghost use Rattle.std.specs.Prelude.{◌≤◌, ◌+◌, vec_len, vec_capacity};

use crate::kinds::HeldKind;

/// What an edit is undone or redone by.
#[derive(Drop)]
pub enum Step {
    /// A text of the whole script.
    Text(Vec<u8>),
    /// A limit of steps.
    Limit(u32),
}

/// An edit that can be undone or redone.
#[derive(Drop)]
pub struct HeldEdit {
    pub(crate) kind: HeldKind,
    pub(crate) step: Step,
}

/// The edits that can be undone and redone: at most 100 together.
#[derive(Drop)]
pub struct History {
    // the latest edit is the last
    pub(crate) earlier: Vec<HeldEdit>,
    // the next edit is the last
    pub(crate) later: Vec<HeldEdit>,
    ghost few: { vec_len earlier + vec_len later ≤ 100 },
    ghost room: { 100 ≤ vec_capacity earlier },
    ghost later_room: { 100 ≤ vec_capacity later },
}
