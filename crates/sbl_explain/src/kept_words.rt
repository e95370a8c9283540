//! Words with the strings that their runs take.

ghost use Rattle.std.specs.Prelude.{◌≡◌, IfOk, IfSome, OnOk};
ghost use Rattle.std.specs.List.{list_any};
ghost use Rattle.sbl_bench.specs.KeptRuns.{setting_of};
ghost use Rattle.sbl_bench.specs.Whys.{routine_name};
ghost use Rattle.sbl_machine.specs.ItemRefs.{item_of_ref};
ghost use Rattle.sbl_semantics.specs.TouchedItems.{same_item};
ghost use Rattle.sbl_explain.specs.Kept.{has_taken, taken_of, view_list};
ghost use Rattle.sbl_uses.specs.UnusedViews.{IsUnion, take_of, takes_in};
ghost use Rattle.sbl_uses.specs.Used.{Take, same_take};
ghost use Rattle.sbl_explain.specs.WhyRows.{routine_names};

use sbl_bench::Bench;
use sbl_machine::ItemRef;
use sbl_uses::{Takes, add_take};
use std::alloc::{AllocError, Global};
use std::collections::BTreeSet;
use std::rc::Rc;

/// A string that a run takes at an among, by the number of its routine and its number there.
#[derive(Drop)]
pub(crate) struct Taken {
    pub(crate) routine: usize,
    pub(crate) among: u64,
    pub(crate) string: Vec<char>,
}

/// A word, and the strings that its run takes. Words whose runs take the same can share one list of them.
#[derive(Drop)]
pub(crate) struct KeptWord {
    pub(crate) word: Vec<char>,
    pub(crate) takes: Rc<Vec<Taken>>,
}

/// Returns the number of the routine with this name.
fn routine_number(bench: &Bench, name: &str) -> Option<usize>
    ensures { IfSome result (λ number. routine_name (setting_of bench.now) number ≡ name.now) }
{
    for number in 0..usize::MAX {
        let other = bench.routine_name(number);
        if other == name {
            return Some(number);
        }
        if other.is_empty() {
            return None;
        }
    }
    None
}

/// Returns a string of an among without the name of its routine. Returns `AllocError` if it is of no among of the script.
fn nameless(bench: &Bench, key: (ItemRef<'_>, Vec<char>)) -> Result<Taken, AllocError>
    ensures { IfOk result (λ taken. taken_of (routine_names (setting_of bench.now)) taken ≡ take_of key.entry) }
{
    let (item, string) = key;
    let ItemRef::Among(name, among) = item else {
        return Err(AllocError);
    };
    match routine_number(bench, name) {
        Some(routine) => Ok(Taken {
            routine,
            among,
            string,
        }),
        None => Err(AllocError),
    }
}

/// Returns strings of amongs without the names of their routines. Returns `AllocError` if an allocation fails, or as `nameless` does.
pub(crate) fn nameless_takes(
    alloc: Global,
    bench: &Bench,
    takes: Takes<'_>,
) -> Result<Vec<Taken>, AllocError>
    ensures { IfOk result (λ list. view_list (routine_names (setting_of bench.now)) list.items ≡ takes_in takes.entry) }
{
    let mut list = Vec::with_capacity(alloc, takes.len())?;
    for key in takes {
        list.push(nameless(bench, key)?)?;
    }
    Ok(list)
}

/// Returns the among of a string.
fn among_of<'b>(bench: &'b Bench, taken: &Taken) -> ItemRef<'b>
    ensures { item_of_ref result ≡ (taken_of (routine_names (setting_of bench.now)) taken.now).0 }
{
    ItemRef::Among(bench.routine_name(taken.routine), taken.among)
}

/// Adds what is in a list. Returns `AllocError` if an allocation fails.
fn add_list<'b>(
    alloc: Global,
    bench: &'b Bench,
    takes: &mut Takes<'b>,
    list: &[Taken],
) -> Result<(), AllocError>
    ensures { OnOk result (IsUnion (takes_in takes.new) (view_list (routine_names (setting_of bench.now)) list.now) (takes_in takes.old)) }
{
    for taken in list {
        let string = Vec::from_slice(alloc, taken.string.as_slice())?;
        add_take(takes, among_of(bench, taken), string)?;
    }
    Ok(())
}

/// Returns what the run of a word takes. Returns `AllocError` if an allocation fails.
pub(crate) fn takes_of_word<'b>(
    alloc: Global,
    bench: &'b Bench,
    word: &KeptWord,
) -> Result<Takes<'b>, AllocError>
    ensures { IfOk result (λ takes. (t : Take) → list_any (same_take t) (takes_in takes) ≡ has_taken (routine_names (setting_of bench.now)) t word.now) }
{
    let mut takes = BTreeSet::new(alloc);
    add_list(alloc, bench, &mut takes, word.takes.as_slice())?;
    Ok(takes)
}

/// Returns what the runs of words take. Returns `AllocError` if an allocation fails.
pub(crate) fn takes_of_words<'b>(
    alloc: Global,
    bench: &'b Bench,
    words: &[KeptWord],
) -> Result<Takes<'b>, AllocError>
    ensures { IfOk result (λ takes. (t : Take) → list_any (same_take t) (takes_in takes) ≡ list_any (has_taken (routine_names (setting_of bench.now)) t) words.now) }
{
    let mut takes = BTreeSet::new(alloc);
    for word in words {
        add_list(alloc, bench, &mut takes, word.takes.as_slice())?;
    }
    Ok(takes)
}

/// Returns whether two items are the same.
fn is_item(item: &ItemRef<'_>, other: &ItemRef<'_>) -> bool
    ensures { result ≡ same_item (item_of_ref item.now) (item_of_ref other.now) }
{
    match (item, other) {
        (ItemRef::Routine(name), ItemRef::Routine(other)) => *name == *other,
        (ItemRef::Among(name, number), ItemRef::Among(other, other_number)) => {
            *name == *other && *number == *other_number
        }
        (ItemRef::Grouping(name), ItemRef::Grouping(other)) => *name == *other,
        _ => false,
    }
}

/// Returns whether it is this string, and has this among.
fn is_taken(bench: &Bench, taken: &Taken, among: &ItemRef<'_>, string: &[char]) -> bool
    ensures { result ≡ same_take (item_of_ref among.now, string.now) (taken_of (routine_names (setting_of bench.now)) taken.now) }
{
    is_item(among, &among_of(bench, taken)) && string == taken.string.as_slice()
}

/// Returns whether a list has a string of an among.
fn is_in_list(bench: &Bench, list: &[Taken], among: &ItemRef<'_>, string: &[char]) -> bool
    ensures { result ≡ list_any (same_take (item_of_ref among.now, string.now)) (view_list (routine_names (setting_of bench.now)) list.now) }
{
    for taken in list {
        if is_taken(bench, taken, among, string) {
            return true;
        }
    }
    false
}

/// Returns whether the run of a word takes a string of an among.
pub(crate) fn has_string(
    bench: &Bench,
    word: &KeptWord,
    among: &ItemRef<'_>,
    string: &[char],
) -> bool
    ensures { result ≡ has_taken (routine_names (setting_of bench.now)) (item_of_ref among.now, string.now) word.now }
{
    is_in_list(bench, word.takes.as_slice(), among, string)
}
