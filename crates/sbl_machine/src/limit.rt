//! The limit of steps.

/// The most steps of a run if no other limit is set (our own choice).
pub const DEFAULT_LIMIT: u32 = 100_000;
