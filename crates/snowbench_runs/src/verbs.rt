//! The verbs over files and over standard input.

ghost use Rattle.std.specs.Prelude.{◌≡◌, Ok};

use crate::comparisons::run_compare;
use crate::file_runs::{run_check, run_filter, run_session};
use crate::lists::run_list;
use crate::standard_input::run_input;
use sbl_messages::{Failure, FileNames, REFUSED, refuse_twice};
use snowbench::{Verb, Wanted};

/// The line if `run` names standard input twice.
const NAMED_TWICE: &str =
    "snowbench: standard input can be only one of SCRIPT, WORDS and COMMANDS. Without WORDS it is these";

/// Does what the command line asks for, and returns the exit status. `work` has an entry of its own: here it reads and writes nothing, and
/// is refused.
pub fn run_verb(rt: &HostRuntime, wanted: &Wanted) -> Result<u8, Failure>
    ensures { wanted.now.verb ≡ Verb.Work → result ≡ Ok 2 }
{
    match wanted.verb {
        Verb::Work => return Ok(REFUSED),
        Verb::Compare => return run_compare(rt, wanted),
        _ => {}
    }
    match &wanted.options.script {
        None => run_input(rt, wanted),
        Some(script) => run_over_files(rt, wanted, script.as_str()),
    }
}

/// Runs over files, and returns the exit status.
fn run_over_files<'x>(
    rt: &HostRuntime,
    wanted: &'x Wanted,
    script: &'x str,
) -> Result<u8, Failure> {
    let options = &wanted.options;
    let names = FileNames {
        script,
        words: text_in(&options.words).unwrap_or("-"),
        rest: text_in(&options.commands).or(text_in(&options.stems)),
    };
    match (wanted.verb, &options.form) {
        (Verb::Filter, _) => run_filter(rt, wanted, names),
        (Verb::Check, _) => run_check(rt, wanted, names),
        (_, Some(form)) => {
            refuse_twice(names, NAMED_TWICE)?;
            run_list(rt, wanted, form.as_str(), names)
        }
        (_, None) => {
            refuse_twice(names, NAMED_TWICE)?;
            run_session(rt, wanted, names)
        }
    }
}

/// Returns the text, if there is one.
fn text_in(text: &Option<String>) -> Option<&str> {
    match text {
        Some(text) => Some(text.as_str()),
        None => None,
    }
}
