//! The cursors that the commands of a routine have saved.

ghost use Rattle.std.specs.Prelude.{◌≡◌, slice_index_or, slice_set};
ghost use Rattle.sbl_run_state.specs.Endings.{IsSaved};
ghost use Rattle.sbl_code.specs.Slots.{no_cursor, no_cursors};
ghost use Rattle.sbl_interpreter.specs.PackedCursors.{unpacked_cursor};

use sbl_code::SLOTS;
use sbl_semantics::SavedCursor;
use std::marker::Model;

/// A saved cursor in six bytes, since a run clears four of them at its start.
#[derive(Clone, Copy)]
struct PackedCursor {
    cursor: u16,
    beyond: u16,
    length: u16,
}

/// A cursor in an empty text, which a slot holds before one is saved in it.
const NO_CURSOR: PackedCursor = PackedCursor {
    cursor: 0,
    beyond: 0,
    length: 0,
};

impl PackedCursor {
    /// Returns the packed cursor.
    #[inline(always)]
    fn of(from: SavedCursor) -> PackedCursor
        requires { IsSaved from }
        ensures { unpacked_cursor result ≡ from }
    {
        PackedCursor {
            cursor: from.cursor as u16,
            beyond: from.beyond as u16,
            length: from.length as u16,
        }
    }

    /// Returns the saved cursor.
    #[inline(always)]
    fn unpack(self) -> SavedCursor
        ensures { result ≡ unpacked_cursor self }
    {
        SavedCursor {
            cursor: self.cursor as usize,
            beyond: self.beyond as usize,
            length: self.length as usize,
        }
    }
}

/// Saved cursors, by slot.
#[derive(Drop)]
pub struct SavedCursors {
    cursors: [PackedCursor; 4],
}

impl Model for SavedCursors {
    ghost use Rattle.std.specs.Prelude.{◌≡◌, ℕ, List, length, map, slice_index_or};
    ghost use Rattle.sbl_semantics.specs.declared.cursor.SavedCursor.{SavedCursor};
    ghost use Rattle.sbl_run_state.specs.Endings.{IsSaved};
    ghost use Rattle.sbl_code.specs.Slots.{no_cursor};
    ghost use Rattle.sbl_interpreter.specs.PackedCursors.{unpacked_cursor};

    ghost Value = { List SavedCursor };

    ghost view = { λ s. map unpacked_cursor s.cursors };

    ghost invariant = { λ s. (length s.cursors ≡ 4) × ((j : ℕ) → IsSaved (slice_index_or (map unpacked_cursor s.cursors) j no_cursor)) };
}

impl SavedCursors {
    /// Returns slots in which no cursor is saved.
    #[inline(always)]
    pub fn new() -> SavedCursors
        ensures { result ≡ no_cursors }
    {
        SavedCursors {
            cursors: [NO_CURSOR; 4],
        }
    }

    /// Saves a cursor; past the last slot nothing is done.
    #[inline(always)]
    pub fn set(&mut self, slot: usize, cursor: SavedCursor)
        requires { IsSaved cursor }
        ensures { self.new ≡ slice_set self.old slot cursor }
    {
        if slot < SLOTS {
            self.cursors[slot] = PackedCursor::of(cursor);
        }
    }

    /// Returns a saved cursor; past the last slot, one in an empty text.
    #[inline(always)]
    pub fn get(&self, slot: usize) -> SavedCursor
        ensures value { result ≡ slice_index_or self.now slot no_cursor }
        ensures saved { IsSaved result }
    {
        if slot < SLOTS {
            self.cursors[slot].unpack()
        } else {
            NO_CURSOR.unpack()
        }
    }
}
