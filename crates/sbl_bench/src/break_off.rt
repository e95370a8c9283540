//! Whether an edit should be broken off.

ghost use Rattle.std.specs.Prelude.{◌≡◌, Bool, true, false};

/// Says whether an edit should be broken off before its next run.
pub trait BreakOff {
    /// Whether it has said so.
    ghost said: { Self → Bool };

    /// Returns whether the edit should be broken off. Is called before each run.
    fn is_wanted(&mut self) -> bool
        ensures yes { result ≡ true → said self.new ≡ true }
        ensures no { result ≡ false → said self.new ≡ said self.old };
}

/// Lets each edit go on to its end.
#[derive(Drop)]
pub struct NeverBreak {}

impl BreakOff for NeverBreak {
    ghost said = { λ _. false };

    #[inline(always)]
    fn is_wanted(&mut self) -> bool {
        false
    }
}
