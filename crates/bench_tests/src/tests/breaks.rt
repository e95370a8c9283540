//! Edits that are broken off before one of their runs, with the rows, the changes and the count of runs after each.

use crate::tests::bench::words_in;
use sbl_bench::{Bench, BreakOff, EditFault};
use sbl_script::Part;
use std::alloc::Global;
use test_support::with_line_feeds;

/// Says that an edit should be broken off before the run after so many.
#[derive(Drop)]
struct BreakAfter {
    runs: u64,
    said: bool,
}

impl BreakOff for BreakAfter {
    ghost said = { λ b. b.said };

    fn is_wanted(&mut self) -> bool {
        if self.runs == 0 {
            self.said = true;
            return true;
        }
        self.runs -= 1;
        false
    }
}

/// Cases as in edits.rt, whose edits are broken off after so many runs. With the among of the first edits, `tail` takes nothing off: all
/// five words run again. A limit that no run reaches runs none, and neither does a list without new words, so they are never broken off.
/// After an edit that is broken off the changes are those of the edit before.
pub(crate) const BREAKS: &[&str] = &[
    "PLURALS
cats,boxes,cakes,cake,dog
break 0 among tail 1 among ( 's' () )|68 BrokenOff|cats cat;boxes box;cakes cak;cake cak;dog dog;||5
break 2 among tail 1 among ( 's' () )|68 BrokenOff|cats cat;boxes box;cakes cak;cake cak;dog dog;||7
break 4 among tail 1 among ( 's' () )|68 BrokenOff|cats cat;boxes box;cakes cak;cake cak;dog dog;||11
break 5 among tail 1 among ( 's' () )||cats cats;boxes boxes;cakes cakes;cake cak;dog dog;|cats cat;cats cats;boxes box;boxes boxes;cakes cak;cakes cakes;|16
break 1 among tail 1 among ( 's' () )|68 BrokenOff|cats cats;boxes boxes;cakes cakes;cake cak;dog dog;|cats cat;cats cats;boxes box;boxes boxes;cakes cak;cakes cakes;|17
break 0 limit 99999||?||17
break 3 limit 1|68 BrokenOff|cats cats;boxes boxes;cakes cakes;cake cak;dog dog;|?|20
break 0 words dog,cake||dog dog;cake cak;||20
break 0 words dog,cake,cats|68 BrokenOff|dog dog;cake cak;||20
break 1 words cats,dog,boxes|68 BrokenOff|dog dog;cake cak;||21
break 2 words cats,dog,boxes||cats cats;dog dog;boxes boxes;||23
break 1 externals ( stem )¶define stem as true|68 BrokenOff|cats cats;dog dog;boxes boxes;||24
break 3 externals ( stem )¶define stem as true||cats cats;dog dog;boxes boxes;||27
break 0 externals ( stem ) define stem as true||cats cats;dog dog;boxes boxes;||27
break 0 externals ( stem ) define stem is true|48 Syntax|cats cats;dog dog;boxes boxes;||27",
];

/// Makes an edit of a bench, or breaks it off.
fn make_edit(
    alloc: Global,
    bench: &mut Bench,
    edit: &str,
    break_off: &mut BreakAfter,
) -> Result<(), EditFault> {
    let (verb, rest) = edit.split_once(' ').unwrap_or((edit, ""));
    match verb {
        "among" => {
            let text = rest.strip_prefix("tail 1 ").unwrap_or("");
            bench.replace_or_break(Part::Among("tail", 1), text, break_off)
        }
        "limit" => bench.set_limit_or_break(rest.parse().unwrap_or(0), break_off),
        "words" => bench.replace_words_or_break(&words_in(alloc, rest)?, break_off),
        _ => bench.replace_script_or_break(with_line_feeds(alloc, edit)?.as_bytes(), break_off),
    }
}

/// Makes an edit of a bench, or breaks it off after so many runs: `2 limit 1`. Returns also whether it says that it is broken off exactly
/// if that was wanted.
pub(crate) fn break_edit(
    alloc: Global,
    bench: &mut Bench,
    edit: &str,
) -> (Result<(), EditFault>, bool) {
    let (runs, edit) = edit.split_once(' ').unwrap_or((edit, ""));
    let mut break_off = BreakAfter {
        runs: runs.parse().unwrap_or(0),
        said: false,
    };
    let made = make_edit(alloc, bench, edit, &mut break_off);
    (made, break_off.said == (made == Err(EditFault::BrokenOff)))
}
