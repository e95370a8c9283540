//! Two lists of rows, and their changes; the table of what is asked about rows.

use crate::tests::families::{FAMILIES, families_of};
use crate::tests::largest::{LARGEST, largest_of};
use crate::tests::row_lists::{rows_in, shown_records, view};
use sbl_rows::changes;
use std::alloc::Global;
use std::process::Abort;
use std::test::Fail;
use test_support::{field, is_as_row};

/// The changes between two lists as rows.
fn changes_of(alloc: Global, before: &str, after: &str) -> Result<String, Fail> {
    let (before, after) = (rows_in(alloc, before)?, rows_in(alloc, after)?);
    let (before, after) = (view(alloc, &before)?, view(alloc, &after)?);
    shown_records(alloc, &changes(alloc, &before, &after)?)
}

/// What is asked about two texts.
#[derive(Clone, Copy)]
enum Asked {
    Changes,
    Families,
    Largest,
}

/// Asserts what is shown for each row: what is tried, two texts, and what is wanted.
fn are_shown(rt: &impl Abort, alloc: Global, asked: Asked, rows: &str) -> Result<(), Fail> {
    for row in rows.split('\n') {
        let (one, other) = (field(row, 1), field(row, 2));
        let shown = match asked {
            Asked::Changes => changes_of(alloc, one, other)?,
            Asked::Families => families_of(alloc, one, other)?,
            Asked::Largest => largest_of(alloc, one, other)?,
        };
        assert!(rt; is_as_row(row, 3, shown.as_str()), "{row}: {shown}");
    }
    Ok(())
}

/// What is tried, the rows before and after, and the changes between them.
const CHANGES: &str = "equal lists have no changes|a=x b=x|a=x b=x|
all words of a class have another stem|a=x b=x|a=y b=y|changed,a,stem,x,stem,y;changed,b,stem,x,stem,y;renamed,x,y;
a class is split|a=x b=x|a=x b=y|changed,b,stem,x,stem,y;split,x,x,y;
two classes are merged|a=x b=y|a=x b=x|changed,b,stem,y,stem,x;merged,x,x,y;
a word goes to another class|a=x b=x c=y|a=x b=y c=y|changed,b,stem,x,stem,y;split,x,x,y;merged,y,x,y;
two classes exchange their stems|a=x b=y|a=y b=x|changed,a,stem,x,stem,y;changed,b,stem,y,stem,x;renamed,x,y;renamed,y,x;
a class is split into two other stems|a=x b=x|a=y b=z|changed,a,stem,x,stem,y;changed,b,stem,x,stem,z;split,x,y,z;
a word is refused|a=x b=x|a=x b!Steps|changed,b,stem,x,refused,Steps;
the only word is refused|a=x|a!Steps|changed,a,stem,x,refused,Steps;
a refusal has another name|a!Steps|a!Depth|changed,a,refused,Steps,refused,Depth;
a word is added|a=x|a=x b=x|added,b;
a word is removed|a=x b=y|a=x|removed,b;
a class is split merged and kept|a=x b=x c=y d=y|a=z b=z c=y d=x|changed,a,stem,x,stem,z;changed,b,stem,x,stem,z;changed,d,stem,y,stem,x;split,y,x,y;renamed,x,z;
a refusal is mended|a!Steps b=x|a=x b=x|changed,a,refused,Steps,stem,x;
a refused word that stays refused is no change|a!Steps|a!Steps|
added words keep their order|c=x|b=y a=y c=x|added,b;added,a;
removed words keep their order|b=y c=x a=y|c=x|removed,b;removed,a;
changed words are in the order of now|a=x b=y|b=z a=z|changed,b,stem,y,stem,z;changed,a,stem,x,stem,z;merged,z,x,y;
an added word joins no class|a=x|a=y b=y|added,b;changed,a,stem,x,stem,y;renamed,x,y;
stems of a split are in code point order|a=x b=x c=x|a=z b=y c=é|changed,a,stem,x,stem,z;changed,b,stem,x,stem,y;changed,c,stem,x,stem,é;split,x,y,z,é;
a prefix comes first|a=x b=x c=w d=w|a=ab b=a c=w d=v|changed,a,stem,x,stem,ab;changed,b,stem,x,stem,a;changed,d,stem,w,stem,v;split,w,v,w;split,x,a,ab;
a class is in several rows|a=x b=x c=y|a=y b=z c=y|changed,a,stem,x,stem,y;changed,b,stem,x,stem,z;split,x,y,z;merged,y,x,y;";

#[test]
fn changes_families_and_the_largest_classes(rt: HostRuntime) -> Result<(), Fail> {
    are_shown(&rt, rt.alloc(), Asked::Changes, CHANGES)?;
    are_shown(&rt, rt.alloc(), Asked::Families, FAMILIES)?;
    are_shown(&rt, rt.alloc(), Asked::Largest, LARGEST)
}
