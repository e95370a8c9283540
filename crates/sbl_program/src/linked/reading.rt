//! The characters of a text as read in a mode.

ghost use Rattle.std.specs.Prelude.{◌≡◌, ◌<◌, length, slice_index_or};
ghost use Rattle.sbl_semantics.specs.Fitting.{read_as};

use sbl_ast::Mode;

/// Returns the character at index `i` of the text read.
#[inline(always)]
pub fn read_at(direction: Mode, part: &[char], i: usize) -> char
    requires { i < length part.now }
    ensures { result ≡ slice_index_or (read_as direction part.now) i 0 }
{
    match direction {
        Mode::Forward => part[i],
        Mode::Backward => part[part.len() - 1 - i],
    }
}
