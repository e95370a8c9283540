//! The results of a run.

use sbl_semantics::{Event, Item, Outcome};
use std::collections::BTreeSet;

/// The outcome of a run, the items that it touched, and the steps that it used.
#[derive(Debug, Drop, PartialEq, Eq)]
pub struct Ran {
    /// The stem, or why there is none.
    pub outcome: Outcome,
    /// The routines that the run entered, the amongs that it searched and the groupings that it tested, in order.
    pub touched: BTreeSet<Item>,
    /// The number of steps used; `limit` + 1 if the run was refused for its steps.
    pub used: u64,
}

/// The outcome of a run and the steps that it used.
#[derive(Debug, Drop, PartialEq, Eq)]
pub struct RunEnd {
    /// The stem, or why there is none.
    pub outcome: Outcome,
    /// The number of steps used; `limit` + 1 if the run was refused for its steps.
    pub used: u64,
}

/// Why a word has its stem.
#[derive(Debug, Drop, PartialEq, Eq)]
pub struct Why {
    /// The stem, or why there is none.
    pub outcome: Outcome,
    /// The events of the run, in order, up to its end or to the point of its refusal.
    pub events: Vec<Event>,
    /// The values of the integer variables at that point, in the order of their declarations.
    pub integers: Vec<i32>,
    /// The number of steps used; `limit` + 1 if the run was refused for its steps.
    pub used: u64,
}
