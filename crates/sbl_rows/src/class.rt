//! The conflation classes, made from pairs of a stem and a word.

ghost use Rattle.std.specs.Prelude.{◌≡◌, ◌++◌, ◌∷◌, [], map, OnOk, IfOk};
ghost use Rattle.std.specs.BTreeSet.{IsOrdered};
ghost use Rattle.sbl_rows.specs.Classes.{members_of, view_class, words_of};
ghost use Rattle.sbl_rows.specs.Grouping as spec;
ghost use Rattle.sbl_rows.specs.Pairs.{key_cmp, plain};

use crate::pairs::Pairs;
use std::alloc::{AllocError, Global};

/// A stem and the words that have it, in code point order. A prefix comes first.
#[derive(Debug, Drop)]
pub struct Class {
    /// The stem.
    pub stem: Vec<char>,
    /// The words; there is at least one.
    pub words: Vec<Vec<char>>,
}

/// Returns the classes of pairs, in order. Returns `AllocError` if an allocation fails.
pub fn classes_among(alloc: Global, pairs: &Pairs) -> Result<Vec<Class>, AllocError>
    ensures classes { IfOk result (λ classes. map view_class classes.items ≡ spec.put_pairs [] (map plain pairs.now.keys)) }
    ensures ordered { IsOrdered key_cmp pairs.now }
{
    let mut classes = Vec::new(alloc);
    for pair in pairs.iter() {
        put_last(alloc, &mut classes, pair)?;
    }
    Ok(classes)
}

/// Returns the words of the pairs that have this stem, in order. Looks at these pairs alone, and at the one after them. Returns
/// `AllocError` if an allocation fails.
pub fn words_among(
    alloc: Global,
    stem: &[char],
    pairs: &Pairs,
) -> Result<Vec<Vec<char>>, AllocError>
    ensures words { IfOk result (λ words. words_of words.items ≡ members_of stem.now (map plain pairs.now.keys)) }
    ensures ordered { IsOrdered key_cmp pairs.now }
{
    let _count = pairs.len();
    let copy = Vec::from_slice(alloc, stem)?;
    let none = Vec::new(alloc);
    let mut words = Vec::new(alloc);
    for pair in pairs.range((copy, none)..) {
        if stem == pair.0.as_slice() {
            push_word(&mut words, Vec::from_slice(alloc, pair.1.as_slice())?)?;
        } else {
            return Ok(words);
        }
    }
    Ok(words)
}

/// Returns whether the last class has this stem. Does not allocate.
fn is_last(stem: &[char], classes: &[Class]) -> bool
    ensures { result ≡ spec.is_last stem.now (map view_class classes.now) }
{
    match classes.last() {
        Some(class) => class.stem.as_slice() == stem,
        None => false,
    }
}

/// Appends a word to the last class. Returns `AllocError` if an allocation fails.
fn put_in_last(classes: &mut Vec<Class>, word: Vec<char>) -> Result<(), AllocError>
    ensures { OnOk result (map view_class classes.new.items ≡ spec.put_in_last (map view_class classes.old.items) word.items) }
{
    match classes.last_mut() {
        Some(class) => push_word(&mut class.words, word),
        None => Ok(()),
    }
}

/// Appends a word. Returns `AllocError` if an allocation fails.
fn push_word(words: &mut Vec<Vec<char>>, word: Vec<char>) -> Result<(), AllocError>
    ensures { OnOk result (words_of words.new.items ≡ words_of words.old.items ++ word.items ∷ []) }
{
    words.push(word).map_err(|_| AllocError)
}

/// Returns a class of one word. Returns `AllocError` if an allocation fails.
fn one_word(alloc: Global, stem: &[char], word: Vec<char>) -> Result<Class, AllocError>
    ensures { IfOk result (λ class. view_class class ≡ spec.one_member (stem.now, word.items)) }
{
    let stem = Vec::from_slice(alloc, stem)?;
    let mut words = Vec::new(alloc);
    push_word(&mut words, word)?;
    Ok(Class { stem, words })
}

/// Appends the word of a pair to the last class, if that class has the stem of the pair, and otherwise appends a new class with
/// this word. Returns `AllocError` if an allocation fails.
fn put_last(
    alloc: Global,
    classes: &mut Vec<Class>,
    pair: &(Vec<char>, Vec<char>),
) -> Result<(), AllocError>
    ensures { OnOk result (map view_class classes.new.items ≡ spec.put_last (map view_class classes.old.items) (plain pair.now)) }
{
    let (stem, word) = pair;
    let word = Vec::from_slice(alloc, word.as_slice())?;
    if is_last(stem.as_slice(), classes) {
        return put_in_last(classes, word);
    }
    let class = one_word(alloc, stem.as_slice(), word)?;
    classes.push(class).map_err(|_| AllocError)
}
