//! Edits of groupings, with the rows, the items that a word touches and the count of runs after them. Cases as in edits.rt.

use crate::tests::bench::bench_of;
use sbl_bench::Bench;
use sbl_machine::Item;
use std::alloc::{AllocError, Global};
use std::process::Abort;
use std::test::Fail;
use test_support::letters;

/// The second grouping is built from the first, and the external tests the second after an `x` and else the first.
const BUILT: &str =
    "groupings ( v w ) externals ( stem ) define v 'ae' define w v + 'y' define stem as ( [ ( 'x' w ) or v ] delete )";

/// In the first case an edit runs what tested the grouping or one built from it. In the second case the second grouping drops the first, so that
/// an edit of the first no longer runs what tested the second alone. In the third case a grouping is built from two others. One of these
/// is built from a third grouping. Another one is tested by `non` alone.
pub(crate) const GROUPINGS: &[&str] = &[
    "groupings ( v w ) externals ( stem ) define v 'ae' define w v + 'y' define stem as ( [ ( 'x' w ) or v ] delete )
xyb,ab,xb
grouping w v + 'b'||xyb xyb;ab b;xb ;|?|5
grouping v 'x'||xyb yb;ab ab;xb ;|?|8
grouping v w|48 Undefined|xyb yb;ab ab;xb ;|?|8
grouping stem 'a'|53 NoGrouping|xyb yb;ab ab;xb ;|?|8
grouping w|48 Syntax|xyb yb;ab ab;xb ;|?|8",
    "groupings ( v w ) externals ( stem ) define v 'a' define w v + 'b' define stem as ( [ w ] delete )
ac,bc
grouping w 'b'||ac ac;bc c;|?|4
grouping v 'c'||ac ac;bc c;|?|4
grouping w v||ac ac;bc bc;|?|6
grouping v 'a'||ac c;bc bc;|?|8",
    "groupings ( a b c d e ) externals ( stem ) define a 'a' define b a + 'b' define c 'c' define d c + b - 'x' define e 'e' define stem as ( [ non-e d ] delete )
xa,xz,ea,
grouping a 'z'||xa xa;xz ;ea ea;|?|5
grouping e 'x'||xa xa;xz xz;ea ea;|?|8
grouping c 'a' + a||xa xa;xz xz;ea ;|?|9",
];

/// Whether a word touches the external and these groupings of the two, and nothing else.
fn touches(alloc: Global, bench: &Bench, word: &str, v: bool, w: bool) -> Result<bool, AllocError> {
    let word = letters(alloc, word)?;
    let Some(items) = bench.touched(word.as_slice())? else {
        return Ok(false);
    };
    let first = Item::Grouping(String::from_str(alloc, "v")?);
    let second = Item::Grouping(String::from_str(alloc, "w")?);
    let external = Item::Routine(String::from_str(alloc, "stem")?);
    let has = items.contains(&first) == v && items.contains(&second) == w;
    let count = 1 + usize::from(v) + usize::from(w);
    Ok(has && items.contains(&external) && items.len() == count)
}

/// Edits the second grouping, between what two words touch.
fn edits_second(rt: &impl Abort, alloc: Global, bench: &mut Bench) -> Result<(), Fail> {
    assert!(rt; touches(alloc, bench, "ab", true, false)?);
    assert!(rt; touches(alloc, bench, "xb", true, true)?);
    assert_eq!(rt; bench.replace_grouping("w", "v + 'b'"), Ok(()));
    assert!(rt; touches(alloc, bench, "xb", false, true)?);
    Ok(())
}

#[test]
fn a_test_that_fails_touches_its_grouping(rt: HostRuntime) -> Result<(), Fail> {
    let alloc = rt.alloc();
    let mut bench = bench_of(alloc, BUILT, "xyb,ab,xb")?;
    let done = edits_second(&rt, alloc, &mut bench);
    bench.leak();
    done
}
