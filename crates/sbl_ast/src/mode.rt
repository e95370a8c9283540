//! The two modes.

/// The direction in which a command moves through the text.
#[derive(Clone, Copy, Debug, PartialEq, Eq)]
pub enum Mode {
    /// From left to right.
    Forward,
    /// From right to left: in a `backwardmode` or inside `backwards`.
    Backward,
}
