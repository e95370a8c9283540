//! The conflation classes.

ghost use Rattle.std.specs.Prelude.{◌≡◌, map, IfOk};
ghost use Rattle.std.specs.Option.{option_map};
ghost use Rattle.sbl_rows.specs.Classes.{view_class};
ghost use Rattle.sbl_rows.specs.Rows.{rows_of};

use crate::bench::Bench;
use sbl_last_runs::{pairs_of, words_are_unique, words_of_stem};
use sbl_machine::Outcome;
use sbl_rows::{Class, classes_among};
use std::alloc::AllocError;

impl Bench {
    ghost use Rattle.sbl_bench.specs.KeptRuns.{setting_of};
    ghost use Rattle.sbl_rows.specs.Rows.{rows_of};
    ghost use Rattle.sbl_rows.specs.Classes.{class_of, classes_of};
    ghost use Rattle.std.specs.List.{find};
    ghost use Rattle.std.specs.Str.{bytes_eq};

    /// Returns the classes, by stem in code point order; a prefix comes first. A word whose run is refused is in no class, and
    /// no class is empty. Returns `AllocError` if an allocation fails.
    pub fn classes(&self) -> Result<Vec<Class>, AllocError>
        ensures { IfOk result (λ classes. map view_class classes.items ≡ classes_of (rows_of (setting_of self.now) self.now.words)) }
    {
        words_are_unique(&self.traces);
        match &self.pairs {
            Some(pairs) => classes_among(self.alloc, pairs),
            None => {
                let pairs = pairs_of(self.alloc, &self.traces)?;
                classes_among(self.alloc, &pairs)
            }
        }
    }

    /// Keeps the classes in order from now on: `classes` then costs its result, `class_of` a look-up and its result, and each edit
    /// keeps them up to date. The value of the bench stays the same. Returns `AllocError` if an allocation fails; nothing is
    /// kept then, and the classes can be asked for as before.
    pub fn keep_classes(&mut self) -> Result<(), AllocError>
        ensures { self.new ≡ self.old }
    {
        if self.pairs.is_none() {
            self.pairs = Some(pairs_of(self.alloc, &self.traces)?);
        }
        Ok(())
    }

    /// Returns the class of a word; `None` if the word is not in the vocabulary or its run is refused. Returns `AllocError` if
    /// an allocation fails.
    pub fn class_of(&self, word: &[char]) -> Result<Option<Class>, AllocError>
        ensures { IfOk result (λ class. option_map view_class class ≡ class_of (rows_of (setting_of self.now) self.now.words) word.now) }
    {
        words_are_unique(&self.traces);
        let Some(last) = self.traces.get(word) else {
            return Ok(None);
        };
        match last.outcome() {
            Outcome::Stem(stem) => {
                let words = words_of_stem(self.alloc, stem.as_slice(), &self.pairs, &self.traces)?;
                let stem = Vec::from_slice(self.alloc, stem.as_slice())?;
                Ok(Some(Class { stem, words }))
            }
            Outcome::Refused(_) => Ok(None),
        }
    }

    /// Returns the class of a stem; `None` if no word has it. Returns `AllocError` if an allocation fails.
    pub fn class_with(&self, stem: &[char]) -> Result<Option<Class>, AllocError>
        ensures { IfOk result (λ class. option_map view_class class ≡ find (λ c. bytes_eq stem.now c.stem) (classes_of (rows_of (setting_of self.now) self.now.words))) }
    {
        let words = words_of_stem(self.alloc, stem, &self.pairs, &self.traces)?;
        if words.is_empty() {
            return Ok(None);
        }
        let stem = Vec::from_slice(self.alloc, stem)?;
        Ok(Some(Class { stem, words }))
    }
}
