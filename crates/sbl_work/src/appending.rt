//! The words that were added, and the lines by which a file of words gets those that it lacks.

use sbl_bench::Bench;
use sbl_history::has_crlf;
use sbl_input::without_mark;
use sbl_io::first_line;
use std::alloc::{AllocError, Global};
use std::collections::BTreeSet;

/// Which words of the vocabulary were added, and the files that `append` has made. A word that is added is the last one of the vocabulary,
/// so those that were added come after those of the start.
#[derive(Drop)]
pub(crate) struct Added {
    /// How many words of the start the vocabulary has.
    first: usize,
    made: Vec<String>,
}

impl Added {
    /// Returns that none was added, if the vocabulary has this number of words.
    pub(crate) fn new(alloc: Global, first: usize) -> Added {
        Added {
            first,
            made: Vec::new(alloc),
        }
    }

    /// Returns whether a line removes a word that was not added, if it removes one.
    pub(crate) fn is_of_start(&self, bench: &Bench, line: &[u8]) -> bool {
        match line.strip_prefix(b"remove ".as_slice()) {
            Some(word) => !self.has(bench, word),
            None => false,
        }
    }

    /// Returns whether a word was added.
    fn has(&self, bench: &Bench, word: &[u8]) -> bool {
        for at in self.first..bench.len() {
            if let Some(row) = bench.row(at) {
                if is_text_of(row.word, word) {
                    return true;
                }
            }
        }
        false
    }

    /// Notes that a line was answered. `before` is how many words there were. If there are fewer now and `is_of_start` is true, a word of
    /// the start was removed.
    pub(crate) fn note_answered(&mut self, bench: &Bench, before: usize, is_of_start: bool) {
        if bench.len() < before && is_of_start {
            self.first = self.first.saturating_sub(1);
        }
    }

    /// Notes that the vocabulary is that of the file of words, and has this number of words.
    pub(crate) fn note_read(&mut self, count: usize) {
        self.first = count;
    }

    /// Returns the words that were added and not removed since, in their order. Returns `AllocError` if an allocation fails.
    pub(crate) fn words(&self, alloc: Global, bench: &Bench) -> Result<Vec<String>, AllocError> {
        let mut words = Vec::new(alloc);
        for at in self.first..bench.len() {
            if let Some(row) = bench.row(at) {
                words.push(text_of(alloc, row.word)?)?;
            }
        }
        Ok(words)
    }

    /// Returns the files that `append` has made.
    pub(crate) fn files(&self) -> &[String] {
        self.made.as_slice()
    }

    /// Returns the name of a file that `append` is about to make. Makes room to note it. Returns `AllocError` if an allocation fails.
    pub(crate) fn name_to_make(&mut self, alloc: Global, path: &str) -> Result<String, AllocError> {
        self.made.reserve(1)?;
        String::from_str(alloc, path)
    }

    /// Notes a file that `append` has made.
    pub(crate) fn note_made(&mut self, path: String) {
        let _ = self.made.push(path);
    }
}

/// Returns the text of characters. Returns `AllocError` if an allocation fails.
fn text_of(alloc: Global, word: &[char]) -> Result<String, AllocError> {
    let mut text = String::new(alloc);
    for character in word {
        text.push(*character)?;
    }
    Ok(text)
}

/// Returns whether bytes are the text of these characters.
fn is_text_of(word: &[char], bytes: &[u8]) -> bool {
    let Ok(text) = str::from_utf8(bytes) else {
        return false;
    };
    let mut rest = word;
    for character in text.chars() {
        match rest.split_first() {
            Some((first, after)) if *first == character => rest = after,
            _ => return false,
        }
    }
    rest.is_empty()
}

/// Returns the words. Returns `AllocError` if an allocation fails.
fn set_of<'a>(alloc: Global, words: &'a [String]) -> Result<BTreeSet<&'a str>, AllocError> {
    let mut set = BTreeSet::new(alloc);
    for word in words {
        set.insert(word.as_str())?;
    }
    Ok(set)
}

/// Returns the words that no line of a file is. A byte order mark at its start is left out.
fn lacking<'a>(
    alloc: Global,
    words: &'a [String],
    old: &[u8],
) -> Result<BTreeSet<&'a str>, AllocError> {
    let mut set = set_of(alloc, words)?;
    let mut rest = without_mark(old);
    while let Some((line, after)) = first_line(rest) {
        if let Ok(word) = str::from_utf8(line) {
            set.remove(word);
        }
        rest = after;
    }
    Ok(set)
}

/// Returns the lines by which a file of words with these bytes gets the words that it lacks, in their order; none if it lacks none. Each
/// ends in a line feed, after a carriage return if each line of the file ends so. If the last line of the file has no end, its end comes
/// first.
///
/// # Errors
///
/// Returns `AllocError` if an allocation fails.
pub(crate) fn lines_to_append(
    alloc: Global,
    words: &[String],
    old: &[u8],
) -> Result<Vec<u8>, AllocError> {
    let set = lacking(alloc, words, old)?;
    let end = if has_crlf(old) {
        b"\r\n".as_slice()
    } else {
        b"\n".as_slice()
    };
    let mut lines = Vec::new(alloc);
    if !set.is_empty() && !old.is_empty() && old.last() != Some(&b'\n') {
        lines.extend_from_slice(end)?;
    }
    for word in words {
        if set.contains(word.as_str()) {
            lines.extend_from_slice(word.as_bytes())?;
            lines.extend_from_slice(end)?;
        }
    }
    Ok(lines)
}
