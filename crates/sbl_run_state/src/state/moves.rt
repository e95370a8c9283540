//! Moving and testing.

ghost use Rattle.std.specs.Prelude.{◌≡◌, ℕ, List, [], ◌∷◌, true, false, ◌≤◌, ◌<◌, length, map, nat_eq, IfOk, IsTrue, slice_get};
ghost use Rattle.std.specs.List.{starts_with};
ghost use Rattle.sbl_program.specs.CharacterClasses.{members};
ghost use Rattle.sbl_program.specs.Terms.{class_at};
ghost use Rattle.sbl_semantics.specs.Fitting.{read_as};
ghost use Rattle.sbl_semantics.specs.State.{Signals, ahead, room, move_cursor};
ghost use Rattle.sbl_program.specs.ProgramOf.{view_text};
ghost use Rattle.sbl_program.specs.Arithmetic.{characters};
ghost use Rattle.sbl_run_state.specs.Endings.{Leads};
ghost use Rattle.sbl_semantics.specs.Moves.{match, one_of, next, hop, at_limit, set_mark, at_mark, to_mark, set_boolean, test_boolean};
ghost use Rattle.sbl_semantics.specs.inside.MoveParts.{next_is};

use crate::halt::Halt;
use crate::state::State;
use crate::state::variables::{boolean_of, set_boolean, set_integer};
use sbl_ast::Mode;
use sbl_program::{CharacterClass, StringTerm, is_in_class};

impl State {
    // Returns the number of characters ahead.
    #[inline(always)]
    pub(super) fn room(&self, mode: Mode) -> usize
        ensures { result ≡ room mode self.now }
    {
        match mode {
            Mode::Forward => self.limit().saturating_sub(self.cursor),
            Mode::Backward => self.cursor.saturating_sub(self.left),
        }
    }

    // Moves the cursor by n characters, which are ahead.
    #[inline(always)]
    pub(super) fn advance(&mut self, mode: Mode, n: usize)
        requires { n ≤ room mode self.old }
        ensures { self.new ≡ move_cursor mode n self.old }
    {
        match mode {
            Mode::Forward => self.cursor += n,
            Mode::Backward => self.cursor -= n,
        }
    }

    /// Moves over a literal or the value of a string variable, and returns whether it is a prefix of the text ahead.
    #[inline(always)]
    pub fn take_term(&mut self, mode: Mode, term: &StringTerm) -> bool
        ensures leads { match (characters (view_text term.now) self.old) mode self.old ≡ Signals result self.new }
        ensures same_steps { self.new.steps ≡ self.old.steps }
    {
        let string = self.characters(term);
        if is_other(self.next_character(mode), first_read(mode, string)) {
            return false;
        }
        let found = is_prefix(mode, self.part_ahead(mode), string);
        let length = string.len();
        if found {
            self.advance(mode, length);
        }
        found
    }

    /// Moves over a literal, and returns whether it is a prefix of the text ahead.
    #[inline(always)]
    pub fn take_literal(&mut self, mode: Mode, string: &[char]) -> bool
        ensures leads { match string.now mode self.old ≡ Signals result self.new }
        ensures same_steps { self.new.steps ≡ self.old.steps }
    {
        if is_other(self.next_character(mode), first_read(mode, string)) {
            return false;
        }
        let found = is_prefix(mode, self.part_ahead(mode), string);
        if found {
            self.advance(mode, string.len());
        }
        found
    }

    /// Moves over this character, and returns whether it is the next one.
    #[inline(always)]
    pub fn take_character(&mut self, mode: Mode, wanted: char) -> bool
        ensures leads { match (wanted ∷ []) mode self.old ≡ Signals result self.new }
        ensures same_steps { self.new.steps ≡ self.old.steps }
    {
        let found = is_character(self.next_character(mode), wanted);
        if found {
            self.advance(mode, 1);
        }
        found
    }

    // Returns the next character to read, if any.
    #[inline(always)]
    fn next_character(&self, mode: Mode) -> Option<char>
        ensures value { result ≡ slice_get (ahead mode self.now) 0 }
    {
        match mode {
            Mode::Forward => {
                if self.cursor + self.beyond < self.text.len() {
                    Some(self.text[self.cursor])
                } else {
                    None
                }
            }
            Mode::Backward => {
                if self.left < self.cursor {
                    Some(self.text[self.cursor - 1])
                } else {
                    None
                }
            }
        }
    }

    /// Moves over one character that is in the class with this number, or over one that is not, as `wanted` says, and
    /// returns whether there is one. A class that does not exist has no characters.
    #[inline(always)]
    pub fn take_one(
        &mut self,
        mode: Mode,
        classes: &[CharacterClass],
        number: usize,
        wanted: bool,
    ) -> bool
        ensures leads { one_of wanted (class_at (map members classes.now) number) mode self.old ≡ Signals result self.new }
        ensures same_steps { self.new.steps ≡ self.old.steps }
    {
        let found = is_wanted(self.next_character(mode), classes, number, wanted);
        if found {
            self.advance(mode, 1);
        }
        found
    }

    /// `next`: moves over one character, and returns whether there is one.
    #[inline(always)]
    pub fn take_next(&mut self, mode: Mode) -> bool
        ensures leads { next mode self.old ≡ Signals result self.new }
        ensures same_steps { self.new.steps ≡ self.old.steps }
    {
        let found = 0 < self.room(mode);
        if found {
            self.advance(mode, 1);
        }
        found
    }

    /// `hop`: moves over this many characters, and returns whether they are ahead.
    pub fn hop(&mut self, mode: Mode, number: Option<usize>) -> bool
        ensures leads { hop number mode self.old ≡ Signals result self.new }
        ensures same_steps { self.new.steps ≡ self.old.steps }
    {
        match number {
            None => false,
            Some(n) => {
                let found = n <= self.room(mode);
                if found {
                    self.advance(mode, n);
                }
                found
            }
        }
    }

    /// `atlimit`: returns whether nothing is ahead.
    pub fn is_at_limit(&self, mode: Mode) -> bool
        ensures { at_limit mode self.now ≡ Signals result self.now }
    {
        self.room(mode) == 0
    }

    /// `setmark`: stores the cursor in an integer.
    pub fn set_mark(&mut self, number: usize) -> Result<(), Halt>
        ensures leads { Leads result self.new (Signals true (set_mark number self.old)) }
        ensures same_steps { IfOk result (λ _. self.new.steps ≡ self.old.steps) }
    {
        set_integer(&mut self.integers, number, self.cursor as i32)?;
        Ok(())
    }

    /// `atmark`: returns whether the cursor is at this offset.
    pub fn is_at_mark(&self, place: Option<usize>) -> bool
        ensures { at_mark place self.now ≡ Signals result self.now }
    {
        match place {
            None => false,
            Some(place) => self.cursor == place,
        }
    }

    /// `tomark`: moves the cursor to an offset between it and the limit of the direction, and returns whether the
    /// offset is there.
    pub fn to_mark(&mut self, mode: Mode, place: Option<usize>) -> bool
        ensures leads { to_mark place mode self.old ≡ Signals result self.new }
        ensures same_steps { self.new.steps ≡ self.old.steps }
    {
        let Some(place) = place else {
            return false;
        };
        let found = match mode {
            Mode::Forward => self.cursor <= place
                && place <= self.text.len()
                && place + self.beyond <= self.text.len(),
            Mode::Backward => self.left <= place && place <= self.cursor,
        };
        if found {
            self.cursor = place;
        }
        found
    }

    /// Sets a boolean.
    pub fn set_boolean(&mut self, number: usize, value: bool) -> Result<(), Halt>
        ensures leads { Leads result self.new (Signals true (set_boolean number value self.old)) }
        ensures same_steps { IfOk result (λ _. self.new.steps ≡ self.old.steps) }
    {
        set_boolean(&mut self.booleans, number, value)?;
        Ok(())
    }

    /// Returns the value of a boolean.
    pub fn test_boolean(&self, number: usize) -> bool
        ensures { test_boolean number self.now ≡ Signals result self.now }
    {
        boolean_of(&self.booleans, number)
    }
}

// Returns the character of `part` that the mode reads first, if any.
#[inline(always)]
fn first_read(mode: Mode, part: &[char]) -> Option<char>
    ensures { result ≡ slice_get (read_as mode part.now) 0 }
{
    match mode {
        Mode::Forward => part.first().copied(),
        Mode::Backward => part.last().copied(),
    }
}

// Returns whether a string with this first character, if it has one, begins in no text with that first character, if it has
// one.
#[inline(always)]
fn is_other(character: Option<char>, wanted: Option<char>) -> bool
    ensures { (text string : List ℕ) → IsTrue result → character ≡ slice_get text 0 → wanted ≡ slice_get string 0 → starts_with nat_eq text string ≡ false }
{
    match character {
        None => wanted.is_some(),
        Some(character) => match wanted {
            None => false,
            Some(wanted) => character != wanted,
        },
    }
}

// Returns whether there is a character that is this one.
#[inline(always)]
fn is_character(character: Option<char>, wanted: char) -> bool
    ensures value { (text : List ℕ) → character ≡ slice_get text 0 → starts_with nat_eq text (wanted ∷ []) ≡ result }
    ensures there { (text : List ℕ) → character ≡ slice_get text 0 → IsTrue result → 1 ≤ length text }
{
    match character {
        None => false,
        Some(character) => character == wanted,
    }
}

// Returns whether `string` is a prefix of `part` as read in the mode.
#[inline(never)]
fn is_prefix(mode: Mode, part: &[char], string: &[char]) -> bool
    ensures value { result ≡ starts_with nat_eq (read_as mode part.now) (read_as mode string.now) }
    ensures bound { IsTrue result → length string.now ≤ length part.now }
{
    match mode {
        Mode::Forward => part.starts_with(string),
        Mode::Backward => part.ends_with(string),
    }
}

// Returns whether there is a character that is in the class with this number, or is not, as `wanted` says.
#[inline(always)]
fn is_wanted(
    character: Option<char>,
    classes: &[CharacterClass],
    number: usize,
    wanted: bool,
) -> bool
    ensures { result ≡ next_is wanted (class_at (map members classes.now) number) character }
{
    match character {
        None => false,
        Some(c) => {
            if wanted {
                is_in_class(classes, number, c)
            } else {
                !is_in_class(classes, number, c)
            }
        }
    }
}
