//! The slice, replacement and insertion.

ghost use Rattle.std.specs.Prelude.{◌≡◌, ◌+◌, ◌≤◌, ◌<◌, ◌^◌, [], length, IfOk};
ghost use Rattle.std.specs.List.{splice};
ghost use Rattle.sbl_semantics.specs.Slices.{left_bracket, right_bracket, is_slice, cursor_after_splice, replace, keep, end_after_insertion, put_in, insert, attach};
ghost use Rattle.sbl_program.specs.ProgramOf.{view_text};
ghost use Rattle.sbl_program.specs.Arithmetic.{characters};
ghost use Rattle.sbl_run_state.specs.Endings.{Leads};

use crate::halt::Halt;
use crate::state::variables::set_string;
use crate::state::{MAX_TEXT_LENGTH, State};
use sbl_ast::Mode;
use sbl_program::StringTerm;
use sbl_semantics::Event;
use std::alloc::AllocError;
use std::mem;

/// Inserts a string at the cursor. The first flag says whether the cursor ends to the right of it forwards, the second
/// one whether it does backwards.
macro_rules! put_in {
    ($self:ident, $mode:ident, $term:ident; $forward:literal, $backward:literal) => {
        match $mode {
            Mode::Forward => $self.put_in($forward, $term),
            Mode::Backward => $self.put_in($backward, $term),
        }
    };
}

impl State {
    /// `[`
    pub fn left_bracket(&mut self, mode: Mode)
        ensures { self.new ≡ left_bracket mode self.old }
    {
        match mode {
            Mode::Forward => self.bra = self.cursor,
            Mode::Backward => self.ket = self.cursor,
        }
    }

    /// `]`
    pub fn right_bracket(&mut self, mode: Mode)
        ensures { self.new ≡ right_bracket mode self.old }
    {
        match mode {
            Mode::Forward => self.ket = self.cursor,
            Mode::Backward => self.bra = self.cursor,
        }
    }

    // Returns whether bra <= ket <= limit.
    fn is_slice(&self) -> bool
        ensures { result ≡ is_slice self.now }
    {
        self.bra <= self.ket && self.ket + self.beyond <= self.text.len()
    }

    // Returns the text with a part of it replaced by a string. The state is unchanged. Returns `AllocError` if an
    // allocation fails.
    fn splice_term(
        &mut self,
        from: usize,
        to: usize,
        term: &StringTerm,
    ) -> Result<Vec<char>, AllocError>
        requires ordered { from ≤ to }
        requires inside { to ≤ length self.old.text }
        ensures same { self.new ≡ self.old }
        ensures made { IfOk result (λ v. v.items ≡ splice self.old.text from to (characters (view_text term.now) self.old)) }
    {
        let alloc = *self.text.allocator();
        let buffer = mem::replace(&mut self.spare, Vec::new(alloc));
        splice_into(buffer, &self.text, from, to, self.characters(term))
    }

    /// `delete`: removes the characters of the slice. Returns `Slice` if there is no valid slice, and `OutOfMemory` if
    /// an allocation fails.
    #[inline(never)]
    pub fn delete(&mut self) -> Result<(), Halt>
        ensures leads { Leads result self.new (replace [] self.old) }
        ensures same_steps { IfOk result (λ _. self.new.steps ≡ self.old.steps) }
    {
        if !self.is_slice() {
            return Err(Halt::Slice);
        }
        let alloc = *self.text.allocator();
        let buffer = mem::replace(&mut self.spare, Vec::new(alloc));
        let made = splice_into(buffer, &self.text, self.bra, self.ket, &[])?;
        self.note_event(Event::Puts(self.bra, self.ket, Vec::new(alloc)))?;
        self.spare = mem::replace(&mut self.text, made);
        self.cursor = shift(self.cursor, self.bra, self.ket, 0);
        self.ket = self.bra;
        Ok(())
    }

    /// `<- S`: replaces the slice. Returns `Slice` if there is no valid slice, `TooLong` if the text would be too long,
    /// and `OutOfMemory` if an allocation fails.
    #[inline(never)]
    pub fn replace(&mut self, term: &StringTerm) -> Result<(), Halt>
        ensures leads { Leads result self.new (replace (characters (view_text term.now) self.old) self.old) }
        ensures same_steps { IfOk result (λ _. self.new.steps ≡ self.old.steps) }
    {
        if !self.is_slice() {
            return Err(Halt::Slice);
        }
        let gone = self.ket - self.bra;
        let length = self.characters(term).len();
        if length > MAX_TEXT_LENGTH || self.text.len() + length - gone > MAX_TEXT_LENGTH {
            return Err(Halt::TooLong);
        }
        let made = self.splice_term(self.bra, self.ket, term)?;
        self.note_put(self.bra, self.ket, term)?;
        self.spare = mem::replace(&mut self.text, made);
        self.cursor = shift(self.cursor, self.bra, self.ket, length);
        self.ket = self.bra + length;
        Ok(())
    }

    /// `-> s`: copies the slice to a string variable. Returns `Slice` if there is no valid slice, and `OutOfMemory` if
    /// an allocation fails.
    #[inline(never)]
    pub fn keep(&mut self, number: usize) -> Result<(), Halt>
        ensures leads { Leads result self.new (keep number self.old) }
        ensures same_steps { IfOk result (λ _. self.new.steps ≡ self.old.steps) }
    {
        if !self.is_slice() {
            return Err(Halt::Slice);
        }
        let alloc = *self.text.allocator();
        let kept = self.text[self.bra..self.ket].to_vec(alloc)?;
        set_string(&mut self.strings, number, kept)?;
        Ok(())
    }

    // Inserts a string at the cursor. The cursor ends to the right of it or to the left of it.
    fn put_in(&mut self, right: bool, term: &StringTerm) -> Result<(), Halt>
        ensures leads { Leads result self.new (put_in right (characters (view_text term.now) self.old) self.old) }
        ensures same_steps { IfOk result (λ _. self.new.steps ≡ self.old.steps) }
    {
        if self.cursor + self.beyond > self.text.len() {
            return Err(Halt::Cursor);
        }
        let length = self.characters(term).len();
        if length > MAX_TEXT_LENGTH || self.text.len() + length > MAX_TEXT_LENGTH {
            return Err(Halt::TooLong);
        }
        let made = self.splice_term(self.cursor, self.cursor, term)?;
        self.note_put(self.cursor, self.cursor, term)?;
        self.spare = mem::replace(&mut self.text, made);
        self.bra = push(length, self.cursor, self.bra);
        self.ket = push(length, self.cursor, self.ket);
        if right {
            self.cursor += length;
        }
        Ok(())
    }

    /// `insert S` and `<+ S`. Returns `Cursor` if the cursor is beyond the limit, `TooLong` if the text would be too
    /// long, and `OutOfMemory` if an allocation fails.
    #[inline(never)]
    pub fn insert(&mut self, mode: Mode, term: &StringTerm) -> Result<(), Halt>
        ensures leads { Leads result self.new (insert (characters (view_text term.now) self.old) mode self.old) }
        ensures same_steps { IfOk result (λ _. self.new.steps ≡ self.old.steps) }
    {
        put_in!(self, mode, term; true, false)
    }

    /// `attach S`. Returns the same errors as `insert`.
    #[inline(never)]
    pub fn attach(&mut self, mode: Mode, term: &StringTerm) -> Result<(), Halt>
        ensures leads { Leads result self.new (attach (characters (view_text term.now) self.old) mode self.old) }
        ensures same_steps { IfOk result (λ _. self.new.steps ≡ self.old.steps) }
    {
        put_in!(self, mode, term; false, true)
    }
}

// Returns where a cursor goes if bra..ket is replaced by this many characters.
fn shift(cursor: usize, bra: usize, ket: usize, length: usize) -> usize
    requires small { cursor + length < 2 ^ 32 }
    requires ordered { bra ≤ ket }
    ensures { result ≡ cursor_after_splice length bra ket cursor }
{
    if ket <= cursor {
        cursor + length - (ket - bra)
    } else if bra < cursor {
        bra
    } else {
        cursor
    }
}

// Returns where an end of the slice goes if this many characters are inserted at an offset.
fn push(length: usize, at: usize, place: usize) -> usize
    requires { length + place < 2 ^ 32 }
    ensures { result ≡ end_after_insertion length at place }
{
    if at <= place { place + length } else { place }
}

// Returns a text with a part of it replaced by a string, made in `buffer`. Returns `AllocError` if an allocation fails.
fn splice_into(
    mut buffer: Vec<char>,
    text: &[char],
    from: usize,
    to: usize,
    string: &[char],
) -> Result<Vec<char>, AllocError>
    requires ordered { from ≤ to }
    requires inside { to ≤ length text.now }
    ensures { IfOk result (λ v. v.items ≡ splice text.now from to string.now) }
{
    buffer.clear();
    buffer.extend_from_slice(&text[..from])?;
    buffer.extend_from_slice(string)?;
    buffer.extend_from_slice(&text[to..])?;
    Ok(buffer)
}
