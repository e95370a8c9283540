//! Families: lists of words that belong together, and the report of how far their stems agree with that.
ghost use Rattle.std.specs.Prelude.{◌≡◌, ◌++◌, ◌∷◌, [], ℕ, IfOk, List, OnOk, chars};
ghost use Rattle.sbl_bench.specs.KeptRuns.{contents_of};
ghost use Rattle.sbl_rows.specs.Families.{view_words};
ghost use Rattle.sbl_rows.specs.Classes.{texts_of};
ghost use Rattle.sbl_reports.specs.Families as spec;
ghost use Rattle.sbl_reports.specs.FamilyReader.{families_read, read_by, read_on, with_word, words_read};

use sbl_bench::Bench;
use sbl_records::records_text;
use sbl_rows::families;
use std::alloc::{AllocError, Global};

/// The families that are being read: those of the lines before, the words of the current line, and the current word.
#[derive(Drop)]
struct Reader {
    alloc: Global,
    families: Vec<Vec<Vec<char>>>,
    family: Vec<Vec<char>>,
    word: Vec<char>,
}

impl Reader {
    /// Returns a reader at the start of a text.
    fn new(alloc: Global) -> Reader
        ensures { (text : List ℕ) → read_by result text ≡ read_on [] [] [] text }
    {
        Reader {
            alloc,
            families: Vec::new(alloc),
            family: Vec::new(alloc),
            word: Vec::new(alloc),
        }
    }

    /// Ends the current word.
    fn end_word(&mut self) -> Result<(), AllocError>
        ensures families { OnOk result (families_read self.new.families.items ≡ families_read self.old.families.items) }
        ensures family { OnOk result (words_read self.new.family.items ≡ with_word (words_read self.old.family.items) self.old.word.items) }
        ensures word { OnOk result (self.new.word.items ≡ []) }
    {
        if self.word.is_empty() {
            return Ok(());
        }
        let word = std::mem::replace(&mut self.word, Vec::new(self.alloc));
        self.family.push(word)?;
        Ok(())
    }

    /// Ends the current line.
    fn end_line(&mut self) -> Result<(), AllocError>
        ensures families { OnOk result (families_read self.new.families.items ≡ families_read self.old.families.items ++ with_word (words_read self.old.family.items) self.old.word.items ∷ []) }
        ensures family { OnOk result (words_read self.new.family.items ≡ []) }
        ensures word { OnOk result (self.new.word.items ≡ []) }
    {
        self.end_word()?;
        let family = std::mem::replace(&mut self.family, Vec::new(self.alloc));
        self.families.push(family)?;
        Ok(())
    }

    /// Takes a character. A space, a tab or a comma ends a word, and a line feed ends a line.
    fn take(&mut self, character: char) -> Result<(), AllocError>
        ensures { OnOk result ((text : List ℕ) → read_by self.new text ≡ read_by self.old (character ∷ text)) }
    {
        if character == '\n' {
            return self.end_line();
        }
        if character == ' ' || character == '\t' || character == ',' {
            return self.end_word();
        }
        self.word.push(character)?;
        Ok(())
    }
}

/// Returns the families of a text: of each line its words, with spaces, tabs or commas between them. Returns `AllocError` if an
/// allocation fails.
fn families_in(alloc: Global, text: &str) -> Result<Vec<Vec<Vec<char>>>, AllocError>
    ensures { IfOk result (λ families. families_read families.items ≡ spec.families_in (chars text.now)) }
{
    let mut reader = Reader::new(alloc);
    for character in text.chars() {
        reader.take(character)?;
    }
    reader.end_line()?;
    Ok(reader.families)
}

/// Returns the words of a family. Returns `AllocError` if an allocation fails.
fn words_of(alloc: Global, family: &[Vec<char>]) -> Result<Vec<&[char]>, AllocError>
    ensures { IfOk result (λ words. texts_of words.items ≡ words_read family.now) }
{
    let mut words = Vec::with_capacity(alloc, family.len())?;
    for word in family {
        words.push(word.as_slice())?;
    }
    Ok(words)
}

/// Returns the words of each family. Returns `AllocError` if an allocation fails.
fn lists_of(alloc: Global, families: &[Vec<Vec<char>>]) -> Result<Vec<Vec<&[char]>>, AllocError>
    ensures { IfOk result (λ lists. view_words lists.items ≡ families_read families.now) }
{
    let mut lists = Vec::with_capacity(alloc, families.len())?;
    for family in families {
        let words = words_of(alloc, family)?;
        lists.push(words)?;
    }
    Ok(lists)
}

/// Returns the report of lists of words over the rows of a bench. Returns `AllocError` if an allocation fails.
fn lists_text(alloc: Global, bench: &Bench, lists: &[Vec<&[char]>]) -> Result<Vec<u8>, AllocError>
    ensures { IfOk result (λ text. text.items ≡ spec.families_text (contents_of bench.now) (view_words lists.now)) }
{
    let rows = bench.rows()?;
    let found = families(alloc, &rows, lists)?;
    records_text(alloc, &found)
}

/// Returns the report of the families of a text over the rows of a bench: a family for each line, with spaces, tabs or commas
/// between its words.
///
/// # Errors
///
/// Returns `AllocError` if an allocation fails.
pub fn families_text(alloc: Global, bench: &Bench, text: &str) -> Result<Vec<u8>, AllocError>
    ensures { IfOk result (λ report. report.items ≡ spec.families_text (contents_of bench.now) (spec.families_in (chars text.now))) }
{
    let families = families_in(alloc, text)?;
    let lists = lists_of(alloc, &families)?;
    lists_text(alloc, bench, &lists)
}
