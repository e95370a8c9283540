//! The replies to `figures`, and to `changes` with a number.
ghost use Rattle.std.specs.Prelude.{◌≡◌, IfOk};
ghost use Rattle.sbl_bench.specs.KeptRuns.{contents_of};
ghost use Rattle.sbl_history.specs.Desks.{state_of};
ghost use Rattle.sbl_history.specs.ChangeReports as reports;
ghost use Rattle.sbl_work.specs.Commands as spec;
ghost use Rattle.sbl_work.specs.ReplyViews.{IsWorkAnswer};

use crate::requests::count_in;
use sbl_bench::Bench;
use sbl_history::{Desk, change_figures_text, first_changes_text};
use sbl_sessions::{BAD_COMMAND, Reply, report};
use std::alloc::{AllocError, Global};

/// Returns the report of how many changes of each kind there are since the mark. Returns `AllocError` if an allocation fails.
fn figures_since_mark(alloc: Global, desk: &Desk, bench: &Bench) -> Result<Vec<u8>, AllocError>
    ensures { IfOk result (λ text. text.items ≡ reports.change_figures_text (state_of desk.now).marked (contents_of bench.now)) }
{
    let marked = desk.marked_rows()?;
    change_figures_text(alloc, &marked, bench)
}

/// Returns the reply to `figures`.
pub(crate) fn figures_reply(alloc: Global, desk: &Desk, bench: &Bench) -> Reply
    ensures { IsWorkAnswer (contents_of bench.now) (state_of desk.now) spec.Figures result (contents_of bench.now) (state_of desk.now) }
{
    report(figures_since_mark(alloc, desk, bench))
}

/// Returns the report of the first `number` changes of each kind since the mark. Returns `AllocError` if an allocation fails.
fn first_since_mark(
    alloc: Global,
    desk: &Desk,
    bench: &Bench,
    number: usize,
) -> Result<Vec<u8>, AllocError>
    ensures { IfOk result (λ text. text.items ≡ reports.first_changes_text number (state_of desk.now).marked (contents_of bench.now)) }
{
    let before = desk.marked_rows()?;
    first_changes_text(alloc, &before, bench, number)
}

/// Returns the reply to `changes` with an argument, which should be a number above 0.
pub(crate) fn first_changes_reply(
    alloc: Global,
    desk: &Desk,
    bench: &Bench,
    argument: &str,
) -> Reply
    ensures { IsWorkAnswer (contents_of bench.now) (state_of desk.now) (spec.first_changes_command argument.now) result (contents_of bench.now) (state_of desk.now) }
{
    match count_in(argument.as_bytes()) {
        Some(number) => report(first_since_mark(alloc, desk, bench, number)),
        None => Reply::Fixed(BAD_COMMAND),
    }
}
