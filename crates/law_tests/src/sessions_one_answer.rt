//! Laws of sbl_sessions (specs/OneAnswer.antt), written out.

ghost use Rattle.std.specs.Prelude.{◌≡◌, ℕ, List};
ghost use Rattle.sbl_bench.specs.Contents.{Contents};
ghost use Rattle.sbl_sessions.specs.Answers.{Answers, Memory};
ghost use Rattle.sbl_sessions.specs.Requests.{Request};

use sbl_sessions::laws::answers_are_one;

/// Needs the whole of the law `answers_are_one`.
pub fn needs_answers_are_one()
    ensures { (s : Contents) (requests : List Request) (m : List Memory) (a b : List ℕ) (t u : Contents)
        → Answers s requests m a t → Answers s requests m b u → (a ≡ b) × (t ≡ u) }
{
    answers_are_one();
}
