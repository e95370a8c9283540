//! Numbers in words: how many words there are, differ, and were run.

ghost use Rattle.std.specs.Prelude.{◌≡◌, ◌/◌, min};
ghost use Rattle.std.specs.Duration.{as_nanos};

use crate::blocks::{first_empty_line, line_count};
use crate::failures::{Failure, REFUSED, plain};
use crate::run_files::RunFiles;
use std::alloc::{AllocError, Global};
use std::time::Duration;

/// Returns a number with commas between thousands, and the word for one or for more.
pub(crate) fn count_and_word(
    alloc: Global,
    number: u64,
    one: &str,
    many: &str,
) -> Result<String, AllocError> {
    let word = if number == 1 { one } else { many };
    let (millions, thousands, ones) = (number / 1_000_000, number / 1_000 % 1_000, number % 1_000);
    if number >= 1_000_000 {
        return format!(in alloc; "{millions},{thousands:03},{ones:03} {word}");
    }
    if number >= 1_000 {
        return format!(in alloc; "{thousands},{ones:03} {word}");
    }
    format!(in alloc; "{ones} {word}")
}

/// Returns how many words there are, and how many differ. Returns `AllocError` if an allocation fails.
pub fn counts_text(alloc: Global, words: u64, differences: u64) -> Result<String, AllocError> {
    let words = count_and_word(alloc, words, "word", "words")?;
    let differences = count_and_word(alloc, differences, "differs", "differ")?;
    plain(format!(in alloc; "{words}, {differences}"))
}

/// Returns how many lines each of the two lists has, if they have as many. Else returns the failure that says both numbers, or `OutOfMemory` if
/// an allocation fails.
pub fn same_count(alloc: Global, files: &RunFiles<'_>) -> Result<u64, Failure> {
    let count = line_count(&files.words.bytes);
    let other = line_count(&files.rest.bytes);
    if count == other {
        return Ok(count);
    }
    let (words, stems) = (files.words.name, files.rest.name);
    let longer = if count < other {
        &files.rest
    } else {
        &files.words
    };
    let empty = first_empty_line(&longer.bytes);
    let count = count_and_word(alloc, count, "line", "lines")?;
    let other = count_and_word(alloc, other, "line", "lines")?;
    let line = match empty {
        None => format!(in alloc;
            "snowbench: {words} has {count} and {stems} has {other}: each word needs its stem"
        ),
        Some(number) => {
            let name = longer.name;
            format!(in alloc;
                "snowbench: {words} has {count} and {stems} has {other}: each word needs its stem, and line {number} of {name} is empty"
            )
        }
    };
    Err(Failure::of_line(line, REFUSED))
}

/// Returns how many words were run, and how many a second. Returns `AllocError` if an allocation fails.
pub fn progress_text(alloc: Global, words: u64, milliseconds: u64) -> Result<String, AllocError> {
    let rate = match milliseconds {
        0 => 0,
        _ => words.saturating_mul(1_000) / milliseconds,
    };
    let words = count_and_word(alloc, words, "word", "words")?;
    let rate = count_and_word(alloc, rate, "word", "words")?;
    format!(in alloc; "{words}, {rate} a second")
}

/// Returns the whole milliseconds of a duration, or the greatest `u64` if there are more.
pub fn milliseconds_in(duration: Duration) -> u64
    ensures { result ≡ min u64.MAX (as_nanos duration / 1_000_000) }
{
    let seconds = duration.as_secs();
    let rest = u64::from(duration.subsec_millis());
    seconds.saturating_mul(1_000).saturating_add(rest)
}
