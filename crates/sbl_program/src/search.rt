//! Searches of the strings of an among.

ghost use Rattle.std.specs.Prelude.{◌≡◌, ◌++◌, ◌∷◌, ◌≤◌, List, ℕ, length, map, IfOk};
ghost use Rattle.sbl_semantics.specs.Fitting.{ahead_at, first, fitting, read_all};
ghost use Rattle.sbl_ast.specs.declared.mode.Mode.{Mode as ModeOf};

use sbl_ast::Mode;
use std::alloc::{AllocError, Global};

/// A search of the strings of an among. It is specified by its list of strings, which must all differ, and its mode.
pub trait AmongSearch: Drop + Sized {
    /// The strings.
    ghost entries: { Self → List (List ℕ) };

    /// The mode in which the strings are read.
    ghost mode: { Self → ModeOf };

    /// Builds a search of these strings. Returns `AllocError` if an allocation fails.
    fn build(alloc: Global, strings: &[Vec<char>], direction: Mode) -> Result<Self, AllocError>
        ensures { IfOk result (λ t. (entries t ≡ map (λ v. v.items) strings.now) × (mode t ≡ direction)) };

    /// Returns the number of the longest string that matches at `at`, up to `bound` (both indexes of characters): in
    /// forward mode a prefix of the text from `at` to `bound`, in backward mode a suffix of the text from `bound` to
    /// `at`.
    fn longest(&self, text: &[char], at: usize, bound: usize) -> Option<usize>
        requires at_in { at ≤ length text.now }
        requires bound_in { bound ≤ length text.now }
        ensures { result ≡ first (fitting (read_all (mode self.now) (entries self.now)) (ahead_at (mode self.now) text.now at bound)) };

    /// Returns the number of the longest string shorter than string `i` that matches wherever string `i` matches.
    fn next_shorter(&self, i: usize) -> Option<usize>
        ensures { (x before rest : List ℕ) → fitting (read_all (mode self.now) (entries self.now)) x ≡ before ++ (i ∷ rest) → result ≡ first rest };
}
