//! A comparison of two scripts in words, for people.

use crate::counts::count_and_word;
use sbl_batch::ScriptComparison;
use sbl_diagnostics::push_named;
use sbl_io::text_of;
use sbl_machine::{Item, Outcome};
use sbl_rows::ChangeRow;
use std::alloc::{AllocError, Global};

/// How many parts, and how many changes of a kind, are shown at most.
const MOST: usize = 20;

/// A kind of changes.
#[derive(Clone, Copy, PartialEq, Eq)]
enum Kind {
    /// A word that had a stem is refused by the new script.
    Refused,
    /// A word is refused by both scripts, for another reason by the new one.
    Otherwise,
    /// A word that was refused has a stem.
    Accepted,
    /// A class is split.
    Split,
    /// Classes are merged.
    Merged,
    /// A class has another stem.
    Renamed,
    /// A word has another stem.
    Word,
    /// A word is only in one of the lists, which two scripts over one list never have.
    Lone,
}

/// The kinds of changes that a comparison has, the most telling first, with what is said of one change and of several.
const KINDS: [(Kind, &str, &str); 7] = [
    (
        Kind::Refused,
        "word is refused now",
        "words are refused now",
    ),
    (
        Kind::Otherwise,
        "word is refused for another reason",
        "words are refused for another reason",
    ),
    (
        Kind::Accepted,
        "word is no longer refused",
        "words are no longer refused",
    ),
    (Kind::Split, "class is split", "classes are split"),
    (
        Kind::Merged,
        "class is made of several",
        "classes are made of several",
    ),
    (
        Kind::Renamed,
        "class has another stem",
        "classes have another stem",
    ),
    (
        Kind::Word,
        "word has another stem",
        "words have another stem",
    ),
];

/// Returns the kind of a change.
fn kind_of(change: &ChangeRow<'_>) -> Kind {
    match change {
        ChangeRow::Added(_) | ChangeRow::Removed(_) => Kind::Lone,
        ChangeRow::Changed { before, after, .. } => match (before, after) {
            (Outcome::Stem(_), Outcome::Refused(_)) => Kind::Refused,
            (Outcome::Refused(_), Outcome::Refused(_)) => Kind::Otherwise,
            (Outcome::Refused(_), Outcome::Stem(_)) => Kind::Accepted,
            (Outcome::Stem(_), Outcome::Stem(_)) => Kind::Word,
        },
        ChangeRow::Split(_) => Kind::Split,
        ChangeRow::Merged(_) => Kind::Merged,
        ChangeRow::Renamed { .. } => Kind::Renamed,
    }
}

/// Returns a comparison in words: where the scripts of these names differ, the changes by kind, and how many words changed.
pub(crate) fn comparison_words(
    alloc: Global,
    old: &str,
    new: &str,
    comparison: &ScriptComparison<'_>,
) -> Result<String, AllocError> {
    let mut shown = String::new(alloc);
    push_named(&mut shown, old)?;
    shown.push_str(" and ")?;
    push_named(&mut shown, new)?;
    match &comparison.differing {
        None => shown.push_str(" differ in more than bodies of routines and terms of groupings\n")?,
        Some(items) => push_items(&mut shown, items)?,
    }
    for (kind, one, many) in KINDS {
        let number = count_of(&comparison.changes, kind);
        if number > 0 {
            push_count(&mut shown, number, one, many)?;
            shown.push_str("\n")?;
            push_changes(&mut shown, &comparison.changes, kind)?;
            push_more(&mut shown, number)?;
        }
    }
    push_count(&mut shown, comparison.words, "word", "words")?;
    let changed = format!(in alloc; ", {} changed\n", comparison.changed)?;
    shown.push_str(changed.as_str())?;
    Ok(shown)
}

/// Appends a number, and the word for one or for more.
fn push_count(shown: &mut String, number: usize, one: &str, many: &str) -> Result<(), AllocError> {
    let text = count_and_word(*shown.allocator(), number as u64, one, many)?;
    shown.push_str(text.as_str())
}

/// Appends in which items two scripts differ.
fn push_items(shown: &mut String, items: &[Item]) -> Result<(), AllocError> {
    if items.is_empty() {
        return shown.push_str(" are the same but for layout and comments\n");
    }
    shown.push_str(" differ in ")?;
    push_count(shown, items.len(), "part\n", "parts\n")?;
    for item in items.iter().take(MOST) {
        push_item(shown, item)?;
    }
    push_more(shown, items.len())
}

/// Appends the line of an item.
fn push_item(shown: &mut String, item: &Item) -> Result<(), AllocError> {
    let alloc = *shown.allocator();
    let line = match item {
        Item::Routine(name) => format!(in alloc; "  routine {name}\n")?,
        Item::Among(name, number) => format!(in alloc; "  among {number} of {name}\n")?,
        Item::Grouping(name) => format!(in alloc; "  grouping {name}\n")?,
    };
    shown.push_str(line.as_str())
}

/// Appends how many more there are than are shown, if there are more.
fn push_more(shown: &mut String, number: usize) -> Result<(), AllocError> {
    if number <= MOST {
        return Ok(());
    }
    let more = number - MOST;
    let line = format!(in *shown.allocator(); "  .. and {more} more: --rows shows all\n")?;
    shown.push_str(line.as_str())
}

/// Returns how many changes are of one kind.
fn count_of(changes: &[ChangeRow<'_>], kind: Kind) -> usize {
    changes
        .iter()
        .filter(|change| kind_of(change) == kind)
        .count()
}

/// Appends the lines of the first changes of one kind.
fn push_changes(
    shown: &mut String,
    changes: &[ChangeRow<'_>],
    kind: Kind,
) -> Result<(), AllocError> {
    let mut left = MOST;
    for change in changes {
        if kind_of(change) == kind && left > 0 {
            left -= 1;
            push_change(shown, change)?;
        }
    }
    Ok(())
}

/// Appends the line of a change.
fn push_change(shown: &mut String, change: &ChangeRow<'_>) -> Result<(), AllocError> {
    shown.push_str("  ")?;
    match change {
        ChangeRow::Added(word) | ChangeRow::Removed(word) => push_characters(shown, word)?,
        ChangeRow::Changed {
            word,
            before,
            after,
        } => {
            push_characters(shown, word)?;
            shown.push_str(": ")?;
            push_outcome(shown, before)?;
            shown.push_str(" -> ")?;
            push_outcome(shown, after)?;
        }
        ChangeRow::Split(class) => {
            push_stem(shown, class.stem)?;
            shown.push_str(" -> ")?;
            push_stems(shown, &class.members)?;
        }
        ChangeRow::Merged(class) => {
            push_stems(shown, &class.members)?;
            shown.push_str(" -> ")?;
            push_stem(shown, class.stem)?;
        }
        ChangeRow::Renamed { from, to } => {
            push_stem(shown, from)?;
            shown.push_str(" -> ")?;
            push_stem(shown, to)?;
        }
    }
    shown.push_str("\n")
}

/// Appends characters as a text.
fn push_characters(shown: &mut String, characters: &[char]) -> Result<(), AllocError> {
    let text = text_of(*shown.allocator(), characters)?;
    push_named(shown, text.as_str())
}

/// Appends a stem, which may be empty.
fn push_stem(shown: &mut String, stem: &[char]) -> Result<(), AllocError> {
    if stem.is_empty() {
        return shown.push_str("(empty)");
    }
    push_characters(shown, stem)
}

/// Appends stems.
fn push_stems(shown: &mut String, stems: &[&[char]]) -> Result<(), AllocError> {
    let mut mark = "";
    for stem in stems {
        shown.push_str(mark)?;
        push_stem(shown, stem)?;
        mark = ", ";
    }
    Ok(())
}

/// Appends the outcome of a word.
fn push_outcome(shown: &mut String, outcome: &Outcome) -> Result<(), AllocError> {
    match outcome {
        Outcome::Stem(stem) => push_stem(shown, stem),
        Outcome::Refused(fault) => {
            shown.push_str("refused ")?;
            shown.push_str(fault.name())
        }
    }
}
