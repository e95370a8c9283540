//! Rows, lists of words, and the texts of reports.

use sbl_machine::{Outcome, RunFault};
use sbl_records::{Record, records_text};
use sbl_rows::Row;
use std::alloc::{AllocError, Global};
use std::test::Fail;
use test_support::letters;

/// A row with its own characters.
#[derive(Drop)]
pub(crate) struct OwnRow {
    word: Vec<char>,
    outcome: Outcome,
}

/// The fault of a name: `Depth`, or otherwise `Steps`.
fn fault_of(name: &str) -> RunFault {
    if name == "Depth" {
        RunFault::Depth
    } else {
        RunFault::Steps
    }
}

/// The row of a text: `cats=cat` is a word and its stem, `cats!Steps` a word whose run is refused.
fn row_in(alloc: Global, text: &str) -> Result<OwnRow, AllocError> {
    let (text, name) = text.split_once('!').unwrap_or((text, ""));
    let (word, stem) = text.split_once('=').unwrap_or((text, ""));
    let word = letters(alloc, word)?;
    let outcome = if name.is_empty() {
        Outcome::Stem(letters(alloc, stem)?)
    } else {
        Outcome::Refused(fault_of(name))
    };
    Ok(OwnRow { word, outcome })
}

/// The rows of a text, which are separated by spaces.
pub(crate) fn rows_in(alloc: Global, text: &str) -> Result<Vec<OwnRow>, AllocError> {
    let mut rows = Vec::new(alloc);
    for part in text.split_whitespace() {
        rows.push(row_in(alloc, part)?)?;
    }
    Ok(rows)
}

/// The rows as the calls take them.
pub(crate) fn view(alloc: Global, rows: &[OwnRow]) -> Result<Vec<Row<'_>>, AllocError> {
    let mut views = Vec::new(alloc);
    for row in rows {
        views.push(Row {
            word: &row.word,
            outcome: &row.outcome,
        })?;
    }
    Ok(views)
}

/// Lists of words: the words are separated by spaces, and the lists by ` / `. An empty text has no list.
pub(crate) fn lists_in(alloc: Global, text: &str) -> Result<Vec<Vec<Vec<char>>>, AllocError> {
    let mut lists = Vec::new(alloc);
    let mut list = Vec::new(alloc);
    for part in text.split_whitespace() {
        if part == "/" {
            lists.push(list)?;
            list = Vec::new(alloc);
        } else {
            list.push(letters(alloc, part)?)?;
        }
    }
    if !text.is_empty() {
        lists.push(list)?;
    }
    Ok(lists)
}

/// The words of a list as the calls take them.
fn view_list(alloc: Global, list: &[Vec<char>]) -> Result<Vec<&[char]>, AllocError> {
    let mut views = Vec::new(alloc);
    for word in list {
        views.push(word.as_slice())?;
    }
    Ok(views)
}

/// The lists as the calls take them.
pub(crate) fn view_lists(
    alloc: Global,
    lists: &[Vec<Vec<char>>],
) -> Result<Vec<Vec<&[char]>>, AllocError> {
    let mut views = Vec::new(alloc);
    for list in lists {
        views.push(view_list(alloc, list)?)?;
    }
    Ok(views)
}

/// The records of a report, each with a semicolon in place of its line feed.
pub(crate) fn shown_records<T: Record>(alloc: Global, records: &[T]) -> Result<String, Fail> {
    let bytes = records_text(alloc, records)?;
    let mut text = String::new(alloc);
    for letter in str::from_utf8(&bytes)?.chars() {
        text.push(if letter == '\n' { ';' } else { letter })?;
    }
    Ok(text)
}
