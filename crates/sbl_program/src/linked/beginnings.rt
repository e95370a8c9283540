//! The first characters of the strings of a linked table.

ghost use Rattle.std.specs.Prelude.{◌≡◌, ◌||◌, ℕ, true, List};
ghost use Rattle.sbl_program.specs.Beginnings.{AreBeginnings, has_remainder, may_begin};
ghost use Rattle.sbl_semantics.specs.Fitting.{read_as};
ghost use Rattle.sbl_program.specs.Linked.{texts_of};

use sbl_ast::Mode;
use std::cmp::Reverse;

/// The number of remainders. Letters of one script are near one another, so that they leave different ones.
const REMAINDERS: usize = 64;

/// The first characters of the strings of a table, as read in the mode: the remainders of their code points. If the first
/// character of the text read leaves another remainder, no string matches, so the search is skipped.
#[derive(Drop)]
pub struct Beginnings {
    /// Whether a string may match whatever the first character is, since one of them is empty.
    pub everywhere: bool,
    /// For each remainder, whether the first character of a string leaves it.
    pub remainders: [bool; 64],
}

impl Beginnings {
    /// Returns whether some string may be a prefix of the text read. Does not allocate.
    #[inline(always)]
    pub fn may_begin(&self, direction: Mode, part: &[char]) -> bool
        ensures { result ≡ may_begin (has_remainder self.now.remainders) self.now.everywhere (read_as direction part.now) }
    {
        let first = match direction {
            Mode::Forward => part.first().copied(),
            Mode::Backward => part.last().copied(),
        };
        match first {
            None => self.everywhere,
            Some(c) => self.everywhere || self.remainders[c as usize % REMAINDERS],
        }
    }

    /// Adds the first character of one more string.
    fn add(&mut self, text: &[char])
        ensures own { may_begin (has_remainder self.new.remainders) self.new.everywhere text.now ≡ true }
        ensures others { (v : List ℕ) → may_begin (has_remainder self.old.remainders) self.old.everywhere v ≡ true → may_begin (has_remainder self.new.remainders) self.new.everywhere v ≡ true }
    {
        match text.first() {
            None => self.everywhere = true,
            Some(c) => self.remainders[*c as usize % REMAINDERS] = true,
        }
    }
}

/// Returns the first characters of the strings of these rows. Does not allocate.
pub fn beginnings_of(rows: &[(Vec<char>, Reverse<usize>)]) -> Beginnings
    ensures { AreBeginnings (has_remainder result.remainders) result.everywhere (texts_of rows.now) }
{
    let mut beginnings = Beginnings {
        everywhere: false,
        remainders: [false; 64],
    };
    for row in rows {
        beginnings.add(&row.0);
    }
    beginnings
}
