//! What the runs of the words of a bench take, kept from one question to the next.

ghost use Rattle.std.specs.Prelude.{◌≡◌, ◌||◌, [], ℕ, List, false, true, IfOk, IfSome, OnOk, Some};
ghost use Rattle.std.specs.List.{list_any};
ghost use Rattle.std.specs.Str.{bytes_eq};
ghost use Rattle.sbl_bench.specs.KeptRuns.{setting_of};
ghost use Rattle.sbl_bench.specs.Vocabulary.{is_word};
ghost use Rattle.sbl_rows.specs.Setting.{Setting, under};
ghost use Rattle.sbl_script.specs.ParsedScript.{source_of};
ghost use Rattle.sbl_semantics.specs.Differs.{differs};
ghost use Rattle.sbl_explain.specs.Kept.{AreKept, HasItems, IsListOf, KeepsWords, MissesIn, StayKept, is_one_of, row_words};

use crate::bench_words::words_of;
use crate::kept_run::KeptRun;
use crate::kept_words::{KeptWord, Taken, nameless_takes};
use crate::shared_takes::SharedTakes;
use crate::takes::takes_by_words;
use sbl_bench::{Bench, Row, differences};
use sbl_machine::laws::differing_agree;
use sbl_machine::{Item, ScriptFault};
use sbl_script::Script;
use sbl_script::laws::is_well_declared;
use sbl_uses::laws::takes_stay;
use std::alloc::{AllocError, Global};
use std::collections::BTreeSet;
use std::rc::Rc;

/// What the runs of the words of a bench took when somebody last asked, so that the next question runs only the words whose
/// runs can take something else.
#[derive(Drop)]
pub struct KeptTakes {
    run: Option<KeptRun>,
    lists: SharedTakes,
}

/// How many kept words are looked at for the next word: those that were removed are passed over, if they are not more.
const REACH: usize = 64;

/// Adds a word. Returns `AllocError` if an allocation fails.
#[tactic(auto, using(crate::proofs::KeptSets::word_added))]
fn add_word<'a>(words: &mut BTreeSet<&'a [char]>, word: &'a [char]) -> Result<(), AllocError>
    ensures { OnOk result ((w : List ℕ) → is_one_of words.new w ≡ (bytes_eq w word.now || is_one_of words.old w)) }
{
    words.insert(word)?;
    Ok(())
}

/// Adds the words of rows. Returns `AllocError` if an allocation fails.
fn add_words<'a>(words: &mut BTreeSet<&'a [char]>, rows: &[Row<'a>]) -> Result<(), AllocError>
    ensures { OnOk result ((w : List ℕ) → is_one_of words.new w ≡ (list_any (bytes_eq w) (row_words rows.now) || is_one_of words.old w)) }
{
    for row in rows {
        add_word(words, row.word)?;
    }
    Ok(())
}

/// Returns the words whose runs meet one of some items; `None` if one of the items is met by more than half of the words. Returns
/// `AllocError` if an allocation fails.
fn words_meeting<'a>(
    alloc: Global,
    bench: &'a Bench,
    items: &[Item],
) -> Result<Option<BTreeSet<&'a [char]>>, AllocError>
    ensures { HasItems bench.now items.now → IfOk result (λ found. IfSome found (MissesIn bench.now items.now)) }
{
    let mut words = BTreeSet::new(alloc);
    for item in items {
        let rows = bench.rows_meeting(item)?;
        if rows.len() > bench.len() / 2 {
            return Ok(None);
        }
        add_words(&mut words, &rows)?;
    }
    Ok(Some(words))
}

/// Returns the strings that the run of a word takes. Returns `AllocError` as `takes_by_words` does.
fn list_of(
    alloc: Global,
    bench: &Bench,
    lists: &mut SharedTakes,
    word: &[char],
) -> Result<Rc<Vec<Taken>>, AllocError>
    ensures { IfOk result (λ list. IsListOf (setting_of bench.now) word.now list) }
{
    let takes = takes_by_words(alloc, bench, &[word])?;
    lists.share(alloc, nameless_takes(alloc, bench, takes)?)
}

/// Returns the place of a word among kept words, if it is one of the next.
fn place_of(kept: &[KeptWord], from: usize, word: &[char]) -> usize {
    for i in from..from.saturating_add(REACH).min(kept.len()) {
        if kept[i].word.as_slice() == word {
            return i;
        }
    }
    kept.len()
}

/// Returns whether a word is to run again.
#[tactic(auto, using(crate::proofs::KeptSets::word_held))]
fn runs_again<'a>(again: &BTreeSet<&'a [char]>, word: &'a [char]) -> bool
    ensures { result ≡ is_one_of again.now word.now }
{
    again.contains(&word)
}

/// Returns the word that is kept at a place.
fn entry_at(kept: &[KeptWord], place: usize) -> Option<&KeptWord>
    ensures { (u : Setting) → AreKept u kept.now → IfSome result (λ entry. IsListOf u entry.now.word.items entry.now.takes) }
{
    match kept.get(place) {
        Some(entry) => Some(entry),
        None => None,
    }
}

/// Returns true only if it is this word that is kept.
fn is_of_word(entry: &KeptWord, word: &[char]) -> bool
    ensures { result ≡ true → entry.now.word.items ≡ word.now }
{
    entry.word.as_slice() == word
}

/// Returns another owner of the strings of a word. Returns `AllocError` if the list has too many owners.
fn list_in(entry: &KeptWord) -> Result<Rc<Vec<Taken>>, AllocError>
    ensures { IfOk result (λ list. list.value ≡ entry.now.takes.value) }
{
    Ok(entry.takes.clone()?)
}

/// Returns the strings that a word takes, if the word is kept at a place and is not one of those that run again. Returns
/// `AllocError` if the list has too many owners.
#[tactic(auto, using(crate::proofs::KeptFacts::list_moves))]
fn kept_list<'a>(
    kept: &[KeptWord],
    place: usize,
    word: &'a [char],
    again: &BTreeSet<&'a [char]>,
) -> Result<Option<Rc<Vec<Taken>>>, AllocError>
    ensures { (u : Setting) → AreKept u kept.now → IfOk result (λ found. IfSome found (λ list. (is_one_of again.now word.now ≡ false) × IsListOf u word.now list)) }
{
    let Some(entry) = entry_at(kept, place) else {
        return Ok(None);
    };
    if runs_again(again, word) {
        return Ok(None);
    }
    if !is_of_word(entry, word) {
        return Ok(None);
    }
    let list = list_in(entry)?;
    Ok(Some(list))
}

/// Returns the strings that the run of a word takes: those that are kept, or those of a run. Returns `AllocError` as `list_of` does.
fn list_now<'a>(
    alloc: Global,
    bench: &Bench,
    lists: &mut SharedTakes,
    kept: &[KeptWord],
    place: usize,
    word: &'a [char],
    again: &BTreeSet<&'a [char]>,
) -> Result<Rc<Vec<Taken>>, AllocError>
    ensures { (u : Setting) → AreKept u kept.now → StayKept bench.now u again.now → is_word word.now bench.now.words ≡ true → IfOk result (λ list. IsListOf (setting_of bench.now) word.now list) }
{
    match kept_list(kept, place, word, again)? {
        Some(list) => Ok(list),
        None => list_of(alloc, bench, lists, word),
    }
}

/// Returns the words of a bench with the strings that their runs take. Only those words run that are not kept or that are to run
/// again. Returns `AllocError` as `list_of` does.
fn words_with_takes<'b>(
    alloc: Global,
    bench: &'b Bench,
    lists: &mut SharedTakes,
    kept: &[KeptWord],
    again: &BTreeSet<&'b [char]>,
) -> Result<Vec<KeptWord>, AllocError>
    ensures { (u : Setting) → AreKept u kept.now → StayKept bench.now u again.now → IfOk result (λ words. KeepsWords bench.now words.items) }
{
    let all = words_of(alloc, bench)?;
    let mut words = Vec::with_capacity(alloc, all.len())?;
    let mut next = 0;
    for word in &all {
        let place = place_of(kept, next, word);
        let takes = list_now(alloc, bench, lists, kept, place, word, again)?;
        words.push(KeptWord {
            word: Vec::from_slice(alloc, word)?,
            takes,
        })?;
        if place < kept.len() {
            next = place + 1;
        }
    }
    Ok(words)
}

/// Returns the words of a bench with the strings that their runs take, by running each. Returns `AllocError` as `list_of` does.
fn words_anew(
    alloc: Global,
    bench: &Bench,
    lists: &mut SharedTakes,
) -> Result<Vec<KeptWord>, AllocError>
    ensures { IfOk result (λ words. KeepsWords bench.now words.items) }
{
    words_with_takes(alloc, bench, lists, &[], &BTreeSet::new(alloc))
}

/// Returns the words whose runs can take something else than in the kept run; `None` if all are to run again. Returns `AllocError` if
/// an allocation fails.
fn words_again<'a>(
    alloc: Global,
    bench: &'a Bench,
    run: &KeptRun,
) -> Result<Option<BTreeSet<&'a [char]>>, AllocError>
    ensures { IfOk result (λ found. IfSome found (StayKept bench.now (under (source_of run.now.script) run.now.limit))) }
{
    takes_stay();
    differing_agree();
    is_well_declared(bench.script());
    if run.limit != bench.limit() {
        return Ok(None);
    }
    match differences(alloc, bench.script(), &run.script)? {
        Some(items) => words_meeting(alloc, bench, &items),
        None => Ok(None),
    }
}

/// Returns the words of a bench with the strings that their runs take. Only those words run that an edit since the kept run can
/// concern. Returns `AllocError` as `list_of` does.
fn words_after(
    alloc: Global,
    bench: &Bench,
    lists: &mut SharedTakes,
    run: &KeptRun,
) -> Result<Vec<KeptWord>, AllocError>
    ensures { IfOk result (λ words. KeepsWords bench.now words.items) }
{
    match words_again(alloc, bench, run)? {
        Some(again) => words_with_takes(alloc, bench, lists, &run.words, &again),
        None => words_anew(alloc, bench, lists),
    }
}

/// Returns a script that differs in nothing; `None` if the canonical text is too long to be read. Returns `AllocError` if an
/// allocation fails.
fn copy_of(alloc: Global, script: &Script) -> Result<Option<Script>, AllocError>
    ensures { IfOk result (λ found. IfSome found (λ copy. differs (source_of script.now) (source_of copy) ≡ Some [])) }
{
    let text = script.print(alloc)?;
    let copy = match Script::parse(alloc, text.as_bytes(), script.external()) {
        Ok(copy) => copy,
        Err(ScriptFault::OutOfMemory) => return Err(AllocError),
        Err(_) => return Ok(None),
    };
    match differences(alloc, script, &copy)? {
        Some(items) if items.is_empty() => Ok(Some(copy)),
        _ => Ok(None),
    }
}

impl KeptTakes {
    /// Returns a value that keeps nothing. Does not allocate.
    pub fn new(alloc: Global) -> KeptTakes {
        KeptTakes {
            run: None,
            lists: SharedTakes::new(alloc),
        }
    }

    /// Returns the words of a bench with the strings that their runs take, and keeps nothing until `keep` is called. Returns
    /// `AllocError` as `list_of` does.
    pub(crate) fn words_now(
        &mut self,
        alloc: Global,
        bench: &Bench,
    ) -> Result<Vec<KeptWord>, AllocError>
        ensures { IfOk result (λ words. KeepsWords bench.now words.items) }
    {
        match self.run.take() {
            Some(run) => words_after(alloc, bench, &mut self.lists, &run),
            None => words_anew(alloc, bench, &mut self.lists),
        }
    }

    /// Keeps the words of a bench with the strings that their runs take. Returns `AllocError` if an allocation fails; then nothing
    /// is kept.
    #[tactic(auto, using(crate::proofs::KeptFacts::copy_keeps))]
    pub(crate) fn keep(
        &mut self,
        alloc: Global,
        bench: &Bench,
        words: Vec<KeptWord>,
    ) -> Result<(), AllocError>
        requires { KeepsWords bench.now words.items }
    {
        takes_stay();
        differing_agree();
        is_well_declared(bench.script());
        if let Some(script) = copy_of(alloc, bench.script())? {
            self.run = Some(KeptRun {
                script,
                limit: bench.limit(),
                words,
            });
        }
        Ok(())
    }
}
