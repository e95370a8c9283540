//! The words of a vocabulary while they are read.
ghost use Rattle.std.specs.Prelude.{◌≡◌, ◌∷◌, ◌++◌, ◌&&◌, [], ℕ, List, None, length, map, is_some, nat_le, not, OnOk, IfOk, IfErr};
ghost use Rattle.sbl_bench.specs.Contents.{IsFaultOrMemory, max_words, opening_fault, word_fault};
ghost use Rattle.sbl_bench.specs.Vocabulary.{is_word, vocabulary, with_word};
ghost use Rattle.sbl_input.specs.WordLists.{AreDistinct, AreKept, HasRoom, HoldsWords, IsVocabulary, KeepsWord, OpensAs, texts_in, texts_of};

use indexmap::IndexSet;
use sbl_bench::{EditFault, MAX_WORDS, WordKeys, word_fault};
use std::alloc::{AllocError, Global};
use std::mem;

/// The number of words for which a set has room at first: that of an ordinary vocabulary. More words make it grow.
const USUAL_WORDS: usize = 32_768;

/// The words so far that decide how a bench opens, and the first word that a bench refuses. Empty words and the words after that
/// one are not kept.
#[derive(Drop)]
pub(crate) struct WordList {
    alloc: Global,
    keys: WordKeys,
    words: KeptWords,
    refused: Option<Vec<char>>,
}

/// What becomes of repeats. A bench drops them itself: if they are kept, an ordinary vocabulary is hashed by the bench alone. Without a
/// bench the words need no second list if they are dropped at once.
#[derive(Clone, Copy)]
pub(crate) enum Repeats {
    Kept,
    Dropped,
}

/// Words that are kept: with repeats, as long as they are fewer than `MAX_WORDS`, or without.
#[derive(Drop)]
enum KeptWords {
    Plain(Vec<Vec<char>>),
    Distinct(IndexSet<Vec<char>, WordKeys>),
}

impl WordList {
    /// Returns the list of no words. If words are found by a hash, it has these keys.
    pub(crate) fn new(alloc: Global, keys: WordKeys, repeats: Repeats) -> WordList
        ensures { HoldsWords result [] }
    {
        let words = match repeats {
            Repeats::Kept => KeptWords::Plain(Vec::new(alloc)),
            Repeats::Dropped => KeptWords::Distinct(set_with_room(alloc, keys)),
        };
        WordList {
            alloc,
            keys,
            words,
            refused: None,
        }
    }

    /// Appends a word. Returns `AllocError` if an allocation fails.
    pub(crate) fn push(&mut self, word: Vec<char>) -> Result<(), AllocError>
        ensures { OnOk result ((all : List (List ℕ)) → HoldsWords self.old all → HoldsWords self.new (all ++ word.items ∷ [])) }
    {
        if self.refused.is_some() {
            return Ok(());
        }
        if word.is_empty() {
            return Ok(());
        }
        self.words.make_room(self.alloc, self.keys)?;
        if self.words.refuses(word.as_slice()) {
            self.refused = Some(word);
            return Ok(());
        }
        self.words.push(word)
    }

    /// Returns words with which a bench opens as with all the words that were appended. Returns `AllocError` if an allocation
    /// fails.
    pub(crate) fn into_words(self) -> Result<Vec<Vec<char>>, AllocError>
        ensures { IfOk result (λ words. (all : List (List ℕ)) → HoldsWords self all → OpensAs (map (λ w. w.items) words.items) all) }
    {
        let WordList {
            alloc,
            keys: _,
            words,
            refused,
        } = self;
        let mut list = words.into_list(alloc)?;
        if let Some(word) = refused {
            list.push(word).map_err(|_| AllocError)?;
        }
        Ok(list)
    }

    /// Returns the vocabulary of all the words that were appended. Returns `WordTooLong` and `Full` as `Bench::open` does with them,
    /// or `OutOfMemory` if an allocation fails.
    pub(crate) fn into_vocabulary(self) -> Result<IndexSet<Vec<char>, WordKeys>, EditFault>
        ensures ok { IfOk result (λ set. (all : List (List ℕ)) → HoldsWords self all → IsVocabulary (texts_of set.keys) all) }
        ensures fault { IfErr result (λ f. (all : List (List ℕ)) → HoldsWords self all → IsFaultOrMemory (opening_fault [] all) f) }
    {
        let WordList {
            alloc,
            keys,
            words,
            refused,
        } = self;
        let set = words.into_set(alloc, keys)?;
        if let Some(word) = refused {
            let text = word.as_slice();
            if let Some(fault) = word_fault(text, has_no_room(&set, text)) {
                return Err(fault);
            }
        }
        Ok(set)
    }
}

impl KeptWords {
    /// Drops the repeats if there are `MAX_WORDS` words or more with them. Returns `AllocError` if an allocation fails.
    fn make_room(&mut self, alloc: Global, keys: WordKeys) -> Result<(), AllocError>
        ensures kept { OnOk result ((all : List (List ℕ)) → AreKept (texts_in self.old) None all → AreKept (texts_in self.new) None all) }
        ensures room { OnOk result (AreDistinct self.old → HasRoom self.new) }
    {
        if let KeptWords::Plain(words) = self {
            if words.len() >= MAX_WORDS {
                let words = mem::replace(words, Vec::new(alloc));
                *self = KeptWords::Distinct(distinct(alloc, keys, words)?);
            }
        }
        Ok(())
    }

    /// Returns whether a bench refuses a word after these. Does not allocate.
    fn refuses(&self, word: &[char]) -> bool
        ensures { HasRoom self.now → result ≡ is_some (word_fault (vocabulary (texts_in self.now)) word.now) }
    {
        match self {
            KeptWords::Plain(_) => word_fault(word, false).is_some(),
            KeptWords::Distinct(words) => word_fault(word, has_no_room(words, word)).is_some(),
        }
    }

    /// Appends a word that a bench does not refuse. Returns `AllocError` if an allocation fails.
    fn push(&mut self, word: Vec<char>) -> Result<(), AllocError>
        ensures kept { OnOk result (KeepsWord self.old word.items self.new) }
        ensures distinct { OnOk result (AreDistinct self.old → AreDistinct self.new) }
    {
        match self {
            KeptWords::Plain(words) => words.push(word)?,
            KeptWords::Distinct(words) => insert(words, word)?,
        }
        Ok(())
    }

    /// Returns the words in their order. Returns `AllocError` if an allocation fails.
    fn into_list(self, alloc: Global) -> Result<Vec<Vec<char>>, AllocError>
        ensures { IfOk result (λ list. texts_of list.items ≡ texts_in self) }
    {
        match self {
            KeptWords::Plain(words) => Ok(words),
            KeptWords::Distinct(words) => words.into_iter().collect(alloc),
        }
    }

    /// Returns the words without repeats. Returns `AllocError` if an allocation fails.
    fn into_set(
        self,
        alloc: Global,
        keys: WordKeys,
    ) -> Result<IndexSet<Vec<char>, WordKeys>, AllocError>
        ensures { IfOk result (λ set. AreDistinct self → texts_of set.keys ≡ vocabulary (texts_in self)) }
    {
        match self {
            KeptWords::Plain(words) => distinct(alloc, keys, words),
            KeptWords::Distinct(words) => Ok(words),
        }
    }
}

/// Returns a set of no words, with room for an ordinary vocabulary if there is memory.
fn set_with_room(alloc: Global, keys: WordKeys) -> IndexSet<Vec<char>, WordKeys>
    ensures { result.keys ≡ [] }
{
    let mut words = IndexSet::with_hasher(alloc, keys);
    match words.reserve(USUAL_WORDS) {
        Ok(()) => words,
        // (a set that got a part of the room would want the rest of it for its first word)
        Err(_) => IndexSet::with_hasher(alloc, keys),
    }
}

/// Returns the words without empty words and repeats. Returns `AllocError` if an allocation fails.
fn distinct(
    alloc: Global,
    keys: WordKeys,
    words: Vec<Vec<char>>,
) -> Result<IndexSet<Vec<char>, WordKeys>, AllocError>
    ensures { IfOk result (λ set. texts_of set.keys ≡ vocabulary (texts_of words.items)) }
{
    let mut set = IndexSet::with_hasher(alloc, keys);
    for word in words {
        insert(&mut set, word)?;
    }
    Ok(set)
}

/// Appends a word, unless it is empty or in the set. Returns `AllocError` if an allocation fails.
fn insert(set: &mut IndexSet<Vec<char>, WordKeys>, word: Vec<char>) -> Result<(), AllocError>
    ensures { OnOk result (texts_of set.new.keys ≡ with_word (texts_of set.old.keys) word.items) }
{
    if word.is_empty() {
        return Ok(());
    }
    match set.insert(word) {
        Ok(_) => Ok(()),
        Err(_) => Err(AllocError),
    }
}

/// Returns whether a set has as many words as a vocabulary can have, and not this word. Does not allocate.
#[inline(always)]
pub(crate) fn has_no_room(set: &IndexSet<Vec<char>, WordKeys>, word: &[char]) -> bool
    ensures { result ≡ (nat_le max_words (length (texts_of set.now.keys)) && not (is_word word.now (texts_of set.now.keys))) }
{
    set.len() >= MAX_WORDS && !set.contains(word)
}
