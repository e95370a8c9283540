//! Lists of words and their stems, as search engines read them.
ghost use Rattle.std.specs.Prelude.{◌≡◌, ◌++◌, IfOk, OnOk};
ghost use Rattle.std.specs.List.{flat_map, list_all};
ghost use Rattle.std.specs.Str.{encode_utf8_all};
ghost use Rattle.sbl_bench.specs.Contents.{rows_now};
ghost use Rattle.sbl_bench.specs.KeptRuns.{contents_of};
ghost use Rattle.sbl_reports.specs.WordLists as spec;
ghost use Rattle.sbl_rows.specs.Rows.{view_row, view_rows};

use sbl_bench::{Bench, Row};
use sbl_io::text_of;
use sbl_semantics::Outcome;
use std::alloc::{AllocError, Global};

/// The form of a list of words and their stems.
#[derive(Clone, Copy, Debug, PartialEq, Eq)]
pub enum ListForm {
    /// `WORD STEM`: a file of synonyms for PostgreSQL.
    Synonym,
    /// `WORD => STEM`: rules of the filter `stemmer_override` of Elasticsearch and OpenSearch.
    Override,
    /// `WORD TAB STEM`: the dictionary of the filter `StemmerOverrideFilterFactory` of Solr.
    Tsv,
}

/// Returns whether a character is what lower case makes of it. Does not allocate.
fn is_lowered(c: char) -> bool
    ensures { result ≡ spec.is_lowered c }
{
    c.to_lowercase().next() == Some(c)
}

/// Returns whether a word and a stem may have a character. Does not allocate.
fn may_have(form: ListForm, c: char) -> bool
    ensures { result ≡ spec.may_have form c }
{
    if c.is_whitespace() || c == '\0' {
        return false;
    }
    match form {
        ListForm::Synonym => is_lowered(c),
        ListForm::Override => c != ',' && c != '=' && c != '\\',
        ListForm::Tsv => true,
    }
}

/// Returns whether a word or a stem may be these characters. Does not allocate.
fn may_be(form: ListForm, text: &[char]) -> bool
    ensures { result ≡ list_all (spec.may_have form) text.now }
{
    for character in text {
        if !may_have(form, *character) {
            return false;
        }
    }
    true
}

/// Returns whether a word and its stem mean nothing else in a list. Does not allocate.
fn is_plain(form: ListForm, word: &[char], stem: &[char]) -> bool
    ensures { result ≡ spec.is_plain form word.now stem.now }
{
    match form {
        ListForm::Synonym => stem.last() != Some(&'*'),
        ListForm::Override | ListForm::Tsv => word.first() != Some(&'#'),
    }
}

/// Returns whether a form has a line for a word and its stem. Does not allocate.
fn can_say(form: ListForm, word: &[char], stem: &[char]) -> bool
    ensures { result ≡ spec.can_say form word.now stem.now }
{
    may_be(form, word) && may_be(form, stem) && !stem.is_empty() && is_plain(form, word, stem)
}

/// Returns what is between a word and its stem. Does not allocate.
fn between(form: ListForm) -> &'static [u8]
    ensures { result.now ≡ spec.between form }
{
    match form {
        ListForm::Synonym => b" ".as_slice(),
        ListForm::Override => b" => ".as_slice(),
        ListForm::Tsv => b"\t".as_slice(),
    }
}

/// Appends characters as UTF-8. Returns `AllocError` if an allocation fails.
fn push_characters(alloc: Global, text: &mut Vec<u8>, characters: &[char]) -> Result<(), AllocError>
    ensures { OnOk result (text.new.items ≡ text.old.items ++ encode_utf8_all characters.now) }
{
    let encoded = text_of(alloc, characters)?;
    text.extend_from_slice(encoded.as_bytes())
}

/// Appends the line of a word and its stem. Returns `AllocError` if an allocation fails.
fn push_line(
    alloc: Global,
    text: &mut Vec<u8>,
    form: ListForm,
    word: &[char],
    stem: &[char],
) -> Result<(), AllocError>
    ensures { OnOk result (text.new.items ≡ text.old.items ++ spec.list_line form word.now stem.now) }
{
    push_characters(alloc, text, word)?;
    text.extend_from_slice(between(form))?;
    push_characters(alloc, text, stem)?;
    text.extend_from_slice(b"\n")
}

/// Appends the line of a row; nothing if the form has none. Returns `AllocError` if an allocation fails.
fn push_row(
    alloc: Global,
    text: &mut Vec<u8>,
    form: ListForm,
    row: &Row<'_>,
) -> Result<(), AllocError>
    ensures { OnOk result (text.new.items ≡ text.old.items ++ spec.row_line form (view_row row.now)) }
{
    match row.outcome {
        Outcome::Stem(stem) => {
            if can_say(form, row.word, stem.as_slice()) {
                return push_line(alloc, text, form, row.word, stem.as_slice());
            }
            Ok(())
        }
        Outcome::Refused(_) => Ok(()),
    }
}

/// Returns the lines of rows. Returns `AllocError` if an allocation fails.
fn list_of_rows(alloc: Global, form: ListForm, rows: &[Row<'_>]) -> Result<Vec<u8>, AllocError>
    ensures { IfOk result (λ text. text.items ≡ spec.list_text form (view_rows rows.now)) }
{
    let mut text = Vec::new(alloc);
    for row in rows {
        push_row(alloc, &mut text, form, row)?;
    }
    Ok(text)
}

/// Returns the list of a bench in this form, in vocabulary order: a line for each word whose run gives a stem, if the form has a line for
/// both. Returns `AllocError` if an allocation fails.
///
/// No form has a line for a word or a stem with white space or the character 0, nor for an empty stem. `Synonym` has none for a letter that
/// lower case changes, nor for a stem that ends in a star; `Override` none for a comma, an equals sign or a backslash; `Override` and `Tsv`
/// none for a word that begins with `#`.
pub fn word_list(alloc: Global, bench: &Bench, form: ListForm) -> Result<Vec<u8>, AllocError>
    ensures { IfOk result (λ text. text.items ≡ spec.list_text form (rows_now (contents_of bench.now))) }
{
    let rows = bench.rows()?;
    list_of_rows(alloc, form, &rows)
}
