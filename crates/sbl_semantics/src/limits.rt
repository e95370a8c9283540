//! The limits in both directions.

/// The limits in both directions.
#[derive(Clone, Copy)]
pub struct Limits {
    /// The left limit.
    pub left: usize,
    /// The number of characters beyond the limit.
    pub beyond: usize,
}
