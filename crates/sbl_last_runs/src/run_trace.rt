//! The result of a run.

use sbl_semantics::{Outcome, Touch};

/// The outcome of a run, what it touched, by numbers, and the steps that it used.
#[derive(Debug, Drop, PartialEq, Eq)]
pub struct RunTrace {
    /// The stem, or why there is none.
    pub outcome: Outcome,
    /// What the run touched, each once, in the order of first touch.
    pub touches: Vec<Touch>,
    /// The number of steps used; `limit` + 1 if the run was refused for its steps.
    pub used: u64,
}
