//! Tests of command lines: what they ask for, and which are refused.

use snowbench::read_words;
use std::alloc::{AllocError, Global};
use std::test::Fail;

/// Returns the words of a command line, which are separated by blanks.
fn line_of(alloc: Global, words: &str) -> Result<Vec<String>, AllocError> {
    let mut line = Vec::new(alloc);
    for word in words.split_whitespace() {
        line.push(String::from_str(alloc, word)?)?;
    }
    Ok(line)
}

/// Returns what a command line asks for, or that it is refused.
fn answer(alloc: Global, words: &str) -> Result<String, AllocError> {
    let line = line_of(alloc, words)?;
    match read_words(alloc, line.as_slice()) {
        Ok(wanted) => format!(in alloc; "{wanted:?}"),
        Err(_) => String::from_str(alloc, "refused"),
    }
}

/// The words of a command line, and what it asks for.
const LINES: &str =
    "snowbench session: Wanted { verb: Session, external: \"stem\", options: Options { script: None, old: None, new: None, words: None, commands: None, stems: None, is_strict: false, shows_places: false, face: None, from: None, stop: None, form: None } }
snowbench check --external go: Wanted { verb: Check, external: \"go\", options: Options { script: None, old: None, new: None, words: None, commands: None, stems: None, is_strict: false, shows_places: false, face: None, from: None, stop: None, form: None } }
snowbench stem --external=go: Wanted { verb: Stem, external: \"go\", options: Options { script: None, old: None, new: None, words: None, commands: None, stems: None, is_strict: false, shows_places: false, face: None, from: None, stop: None, form: None } }
snowbench stem --external=: Wanted { verb: Stem, external: \"\", options: Options { script: None, old: None, new: None, words: None, commands: None, stems: None, is_strict: false, shows_places: false, face: None, from: None, stop: None, form: None } }
snowbench stem --external -: Wanted { verb: Stem, external: \"-\", options: Options { script: None, old: None, new: None, words: None, commands: None, stems: None, is_strict: false, shows_places: false, face: None, from: None, stop: None, form: None } }
snowbench session --: Wanted { verb: Session, external: \"stem\", options: Options { script: None, old: None, new: None, words: None, commands: None, stems: None, is_strict: false, shows_places: false, face: None, from: None, stop: None, form: None } }
snowbench run a --strict b c: Wanted { verb: Session, external: \"stem\", options: Options { script: Some(\"a\"), old: None, new: None, words: Some(\"b\"), commands: Some(\"c\"), stems: None, is_strict: true, shows_places: false, face: None, from: None, stop: None, form: None } }
snowbench run --as synonym a b: Wanted { verb: Session, external: \"stem\", options: Options { script: Some(\"a\"), old: None, new: None, words: Some(\"b\"), commands: None, stems: None, is_strict: false, shows_places: false, face: None, from: None, stop: None, form: Some(\"synonym\") } }
snowbench check --places a - c: Wanted { verb: Check, external: \"stem\", options: Options { script: Some(\"a\"), old: None, new: None, words: Some(\"-\"), commands: None, stems: Some(\"c\"), is_strict: false, shows_places: true, face: None, from: None, stop: None, form: None } }
snowbench compare a --rows b c: Wanted { verb: Compare, external: \"stem\", options: Options { script: None, old: Some(\"a\"), new: Some(\"b\"), words: Some(\"c\"), commands: None, stems: None, is_strict: false, shows_places: false, face: Some(Rows), from: None, stop: None, form: None } }
snowbench compare a b c --external go: Wanted { verb: Compare, external: \"go\", options: Options { script: None, old: Some(\"a\"), new: Some(\"b\"), words: Some(\"c\"), commands: None, stems: None, is_strict: false, shows_places: false, face: None, from: None, stop: None, form: None } }
snowbench work a --from b --rows c: Wanted { verb: Work, external: \"stem\", options: Options { script: Some(\"a\"), old: None, new: None, words: Some(\"c\"), commands: None, stems: None, is_strict: false, shows_places: false, face: Some(Rows), from: Some(\"b\"), stop: None, form: None } }
snowbench work --stop s a: Wanted { verb: Work, external: \"stem\", options: Options { script: Some(\"a\"), old: None, new: None, words: None, commands: None, stems: None, is_strict: false, shows_places: false, face: None, from: None, stop: Some(\"s\"), form: None } }
snowbench session --places: Wanted { verb: Session, external: \"stem\", options: Options { script: None, old: None, new: None, words: None, commands: None, stems: None, is_strict: false, shows_places: true, face: None, from: None, stop: None, form: None } }
snowbench stem --places: Wanted { verb: Stem, external: \"stem\", options: Options { script: None, old: None, new: None, words: None, commands: None, stems: None, is_strict: false, shows_places: true, face: None, from: None, stop: None, form: None } }
snowbench filter --places a b: Wanted { verb: Filter, external: \"stem\", options: Options { script: Some(\"a\"), old: None, new: None, words: Some(\"b\"), commands: None, stems: None, is_strict: false, shows_places: true, face: None, from: None, stop: None, form: None } }
snowbench work a --stop: refused
snowbench work a --from: refused
snowbench run a --from b: refused
snowbench compare a b: refused
snowbench compare a b c d: refused
snowbench compare --text a b c: refused
snowbench compare --places a b c: refused
snowbench filter --strict: refused
snowbench check --strict: refused
snowbench session --as tsv: refused
snowbench session --rows: refused
snowbench run --places a: refused
snowbench work --strict a: refused
snowbench: refused
snowbench session --external: refused
snowbench session --external a --external b: refused
snowbench session --external -a: refused
snowbench --external go session: refused
snowbench run: refused
snowbench Session: refused
snowbench session more: refused
snowbench session stem: refused
snowbench session --other: refused
snowbench --help: refused
snowbench help: refused
snowbench session --help: refused
snowbench stem --help: refused
snowbench check --help: refused
snowbench --version: refused";

#[test]
fn a_command_line_asks_for_something_or_is_refused(rt: HostRuntime) -> Result<(), Fail> {
    for line in LINES.split('\n') {
        let (words, want) = line.split_once(": ").unwrap_or((line, ""));
        assert!(rt; answer(rt.alloc(), words)?.as_str() == want, "{words}");
    }
    Ok(())
}
