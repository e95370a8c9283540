//! A saved cursor.

/// What is needed to put the cursor back.
#[derive(Clone, Copy)]
pub struct SavedCursor {
    /// The cursor.
    pub cursor: usize,
    /// The number of characters beyond the limit.
    pub beyond: usize,
    /// The number of characters in the text.
    pub length: usize,
}
