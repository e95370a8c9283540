//! The largest classes.

use crate::tests::row_lists::{rows_in, shown_records, view};
use sbl_rows::largest_classes;
use std::alloc::Global;
use std::test::Fail;
use test_support::number;

/// The largest classes as rows.
pub(crate) fn largest_of(alloc: Global, rows: &str, n: &str) -> Result<String, Fail> {
    let rows = rows_in(alloc, rows)?;
    let rows = view(alloc, &rows)?;
    let n = number(n, 0) as usize;
    shown_records(alloc, &largest_classes(alloc, &rows, n)?)
}

/// What is tried, the rows, how many classes are wanted, and the classes: the largest is first, then the stem decides; a prefix is before
/// the longer stem.
pub(crate) const LARGEST: &str = "no class of no row||3|
the largest|a=x e=z d=z b=y c=y f!Steps|1|y,b,c;
two of one size by their stems|a=x e=z d=z b=y c=y f!Steps|2|y,b,c;z,d,e;
all|a=x e=z d=z b=y c=y f!Steps|3|y,b,c;z,d,e;x,a;
more than there are|a=x e=z d=z b=y c=y f!Steps|99|y,b,c;z,d,e;x,a;
a prefix comes first|a=xy b=x c=|3|,c;x,b;xy,a;";
