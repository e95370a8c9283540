//! Where a run is between two of its events.
ghost use Rattle.std.specs.Prelude.{◌≡◌, ◌-◌, IfOk, OnOk, length, take, drop};
ghost use Rattle.std.specs.List.{splice};
ghost use Rattle.sbl_semantics.specs.Events.{event_of};
ghost use Rattle.sbl_uses.specs.Moments as spec;
ghost use Rattle.sbl_uses.specs.OpenSearches.{view_search};

use crate::slices::first;
use sbl_ast::Mode;
use sbl_run_state::Event;
use std::alloc::{AllocError, Global};
use std::marker::Model;

/// A search that has not ended.
#[derive(Drop)]
pub(crate) struct OpenSearch {
    // which way it goes
    pub(crate) mode: Mode,
    // the characters that were ahead when it began
    pub(crate) ahead: Vec<char>,
}

/// Where a run is between two of its events: the routines whose bodies it is in, the searches that have not ended, and the text.
#[derive(Drop)]
pub struct Moment {
    alloc: Global,
    // the latest last
    routines: Vec<usize>,
    // the latest last
    searches: Vec<OpenSearch>,
    text: Vec<char>,
}

impl Model for Moment {
    ghost use Rattle.std.specs.Prelude.{map};
    ghost use Rattle.sbl_uses.specs.Moments as spec;
    ghost use Rattle.sbl_uses.specs.OpenSearches.{view_search};

    ghost Value = { spec.Moment };

    ghost view = { λ m. record { routines = m.routines.items; searches = map view_search m.searches.items; text = m.text.items } };
}

/// Returns the characters of a text after the first `number`.
fn rest(text: &[char], number: usize) -> &[char]
    ensures { result.now ≡ drop number text.now }
{
    if number < text.len() {
        &text[number..]
    } else {
        &[]
    }
}

/// Returns the characters ahead of an offset of a text.
fn ahead_of(mode: Mode, cursor: usize, text: &[char]) -> &[char]
    ensures { result.now ≡ spec.ahead_of mode cursor text.now }
{
    match mode {
        Mode::Forward => rest(text, cursor),
        Mode::Backward => first(text, cursor),
    }
}

/// Returns the nearest characters of those ahead, at most `number`.
fn nearest(mode: Mode, number: usize, ahead: &[char]) -> &[char]
    ensures { result.now ≡ spec.nearest mode number ahead.now }
{
    match mode {
        Mode::Forward => first(ahead, number),
        Mode::Backward => rest(ahead, ahead.len().saturating_sub(number)),
    }
}

/// Returns a text with the characters between two offsets replaced. Returns `AllocError` if an allocation fails.
fn splice_characters(
    alloc: Global,
    text: &[char],
    from: usize,
    to: usize,
    put: &[char],
) -> Result<Vec<char>, AllocError>
    ensures { IfOk result (λ t. t.items ≡ splice text.now from to put.now) }
{
    let mut made = Vec::from_slice(alloc, first(text, from))?;
    made.extend_from_slice(put)?;
    made.extend_from_slice(rest(text, to))?;
    Ok(made)
}

impl Moment {
    /// Returns where a run on a word is before its first event. Returns `AllocError` if an allocation fails.
    pub fn new(alloc: Global, word: &[char]) -> Result<Moment, AllocError>
        ensures { IfOk result (λ m. m ≡ spec.at_start word.now) }
    {
        Ok(Moment {
            alloc,
            routines: Vec::new(alloc),
            searches: Vec::new(alloc),
            text: Vec::from_slice(alloc, word)?,
        })
    }

    /// Goes past an event. Returns `AllocError` if an allocation fails.
    pub fn pass(&mut self, event: &Event) -> Result<(), AllocError>
        ensures { OnOk result (self.new ≡ spec.after (event_of event.now) self.old) }
    {
        match event {
            Event::Enters(routine) => self.routines.push(*routine)?,
            Event::Leaves(_) => {
                self.routines.pop();
            }
            Event::Searches { mode, cursor, .. } => {
                let ahead = Vec::from_slice(self.alloc, ahead_of(*mode, *cursor, &self.text))?;
                self.searches.push(OpenSearch { mode: *mode, ahead })?;
            }
            Event::Finds(_, _) => {
                self.searches.pop();
            }
            Event::Puts(from, to, put) => {
                self.text = splice_characters(self.alloc, &self.text, *from, *to, put)?;
            }
        }
        Ok(())
    }

    /// Returns the number of the routine whose commands the run makes.
    pub fn routine(&self) -> usize
        ensures { result ≡ spec.routine_of self.now }
    {
        match self.routines.last() {
            Some(routine) => *routine,
            None => 0,
        }
    }

    /// Returns how many calls deep the run is; the external is 0 deep.
    pub fn depth(&self) -> usize
        ensures { result ≡ spec.depth_of self.now }
    {
        self.routines.len().saturating_sub(1)
    }

    /// Returns the text.
    pub fn text(&self) -> &[char]
        ensures { result.now ≡ self.now.text }
    {
        &self.text
    }

    /// Returns the string of this many characters that the search which began last takes.
    pub fn string_taken(&self, length: usize) -> &[char]
        ensures { result.now ≡ spec.string_taken length self.now }
    {
        match self.searches.last() {
            Some(search) => nearest(search.mode, length, &search.ahead),
            None => &[],
        }
    }
}
