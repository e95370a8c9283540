//! The law of the replies of a session.
ghost use Rattle.sbl_sessions.specs.OneAnswer.{AnswersAreOne};

use sbl_bench::laws::one_verdict;

/// The replies to a list of requests are one text, and leave one bench: unless an allocation fails, they are a function of the
/// bench and the requests.
pub fn answers_are_one()
    ensures { AnswersAreOne }
{
    one_verdict();
}
