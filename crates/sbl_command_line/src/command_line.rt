//! The command line, defined with `clap`.
ghost use Rattle.std.specs.Prelude.{◌≡◌, IfOk, None, Some, codes, false, map, option_map};
ghost use Rattle.std.specs.String.{string_bytes};
ghost use Rattle.clap.specs.Walk.{rule_of};
ghost use Rattle.clap.specs.Words.{Text, app_of, first_value, found_of, new_rule, one_text, with_rule};
ghost use Rattle.sbl_command_line.specs.CommandLine.{IsFlag, IsGiven, IsMissing, IsVerb, LacksFlag, check_app, compare_app, flag, flag_in, program, required_rule, run_app, session_app, stem_app, filter_app, value_in, value_rule, verb_app, verb_and_external, work_app};

use clap::error::ErrorKind;
use clap::{Arg, ArgAction, ArgMatches, Command, Error};
use std::alloc::{AllocError, Global};

/// What the subcommands of the program do.
#[derive(Clone, Copy, Debug, PartialEq, Eq)]
pub enum Verb {
    /// Runs the commands of a session.
    Session,
    /// Writes the stem of each word of a vocabulary.
    Stem,
    /// Writes the stem of each word as it comes.
    Filter,
    /// Compares stems with the expected stems.
    Check,
    /// Compares two scripts over words.
    Compare,
    /// Works on a script and words in files.
    Work,
}

/// The face of the answers of `work` and `compare`.
#[derive(Clone, Copy, Debug, PartialEq, Eq)]
pub enum Face {
    /// Rows for programs.
    Rows,
    /// Text for people.
    Text,
}

/// What a command line asks for: a subcommand, the external to run, and the options of the subcommand.
#[derive(Debug, Drop)]
pub struct Wanted {
    /// The subcommand; that of `run` is `Session`.
    pub verb: Verb,
    /// The external to run.
    pub external: String,
    /// The files and the flags.
    pub options: Options,
}

/// The files and the flags of a command line.
#[derive(Debug, Drop)]
pub struct Options {
    /// The file of the script; `run` and `work` have one, and `filter` and `check` may.
    pub script: Option<String>,
    /// The file of the old script, if `compare` has one.
    pub old: Option<String>,
    /// The file of the new script, if `compare` has one.
    pub new: Option<String>,
    /// The file of the words, if there is one.
    pub words: Option<String>,
    /// The file of the commands, if `run` has one.
    pub commands: Option<String>,
    /// The file of the expected stems, if `check` has one.
    pub stems: Option<String>,
    /// Whether the exit status is 1 if a command was refused.
    pub is_strict: bool,
    /// Whether the place of a fault is shown.
    pub shows_places: bool,
    /// The face of the answers, if `work` or `compare` has one.
    pub face: Option<Face>,
    /// The file of the text that `work` begins with, if it is not that of the script.
    pub from: Option<String>,
    /// The file that breaks an edit of `work` off if it exists.
    pub stop: Option<String>,
    /// The name of the form in which `run` writes a list of stems, if it has one.
    pub form: Option<String>,
}

/// The first lines of the help of the program.
const ABOUT: &str =
    "Runs Snowball stemmers over a vocabulary, and keeps the answers true while the script is edited";

/// The last lines of the help of the program.
const READ_ON: &str = "\
run and work take files. The others read standard input: a script, up to a line that is only a
point, and then words. check takes files, too.
Answers go to standard output; a fault is one line on standard error, and ends with status 1.

Example:
  printf '%s\\n' 'externals ( stem )' \"define stem as ( [ 'un' ] delete )\" . undo redo . |
    snowbench stem

'snowbench COMMAND --help' says what each command reads and writes. To read on: README.md,
docs/LANGUAGE.md (the language of scripts), docs/REFERENCE.md (input, commands, faults, limits).";

/// The first lines of the help of `run`.
const ABOUT_RUN: &str = "Runs the commands of a session over files";

/// The last lines of the help of `run`.
const HELP_RUN: &str = "\
In:   a script, words (one a line) and commands, each from a file. A file '-' is standard input.
      Without WORDS they come from standard input, and without COMMANDS the command is 'stems'.
Out:  the answer to each command, as of 'session'. With --as and without COMMANDS: a list of
      words and stems for a search engine, as synonym, override or tsv; or the stems alone.

Example:
  printf '%s\\n' 'externals ( stem )' \"define stem as ( [ 'un' ] delete )\" > un.sbl
  printf '%s\\n' undo redo | snowbench run un.sbl
writes
  undo,stem,do
  redo,stem,redo

To read on: docs/REFERENCE.md has every command with its answers.";

/// The first lines of the help of `session`.
const ABOUT_SESSION: &str = "Answers commands that add words and edit the script";

/// The last lines of the help of `session`.
const HELP_SESSION: &str = "\
In:   the lines of a script, a line '.', words (one a line), a line '.', and then commands.
Out:  the answer to each command, before the next line is read: 'ok' or 'no' and the reason
      for an edit, rows for a report.

Example:
  printf '%s\\n' 'externals ( stem )' \"define stem as ( [ 'un' ] delete )\" . undo . \\
    'add unless' stems | snowbench session
writes
  ok
  undo,stem,do
  unless,stem,less

To read on: docs/REFERENCE.md has every command with its answers.";

/// The first lines of the help of `stem`.
const ABOUT_STEM: &str = "Writes the stem of each word";

/// The last lines of the help of `stem`.
const HELP_STEM: &str = "\
In:   the lines of a script, a line '.', and words (one a line) up to a line '.' or the end.
Out:  a row for each word, 'WORD,stem,STEM', or 'WORD,refused,NAME' where its run is refused.
      Empty lines and repeats are skipped.

Example:
  printf '%s\\n' 'externals ( stem )' \"define stem as ( [ 'un' ] delete )\" . undo redo |
    snowbench stem
writes
  undo,stem,do
  redo,stem,redo

To read on: docs/LANGUAGE.md for scripts, docs/REFERENCE.md for rows and refusals.";

/// The first lines of the help of `filter`.
const ABOUT_FILTER: &str = "Writes the stem of each word as it comes";

/// The last lines of the help of `filter`.
const HELP_FILTER: &str = "\
In:   the lines of a script, a line '.', and words (one a line) up to a line '.' or the end.
      With a file SCRIPT the input is the words alone, and with a file WORDS nothing is read.
Out:  a row for each word, as 'stem' writes it, before more input is read. Empty lines are
      skipped, repeats are not: nothing is kept of a word, so there may be any number of them.

Example:
  printf '%s\\n' 'externals ( stem )' \"define stem as ( [ 'un' ] delete )\" > un.sbl
  printf '%s\\n' undo undo | snowbench filter un.sbl
writes
  undo,stem,do
  undo,stem,do

To read on: docs/SCALE.md.";

/// The first lines of the help of `check`.
const ABOUT_CHECK: &str = "Writes where stems differ from those that are expected";

/// The last lines of the help of `check`.
const HELP_CHECK: &str = "\
In:   the lines of a script, a line '.', words (one a line), a line '.', and the expected stems,
      one for each word, to the end of input. Or three files, SCRIPT, WORDS and STEMS.
Out:  a row 'LINE,WORD,EXPECTED,GOT' for each difference, lines counted from 1. GOT is the stem,
      or 'refused NAME' where the run is refused, which is always a difference.
Status: 0 where nothing differs, 1 for a difference or a fault.

Example:
  printf '%s\\n' 'externals ( stem )' \"define stem as ( [ 'un' ] delete )\" . undo redo . \\
    do do | snowbench check
writes
  2,redo,do,redo

To read on: docs/REFERENCE.md.";

/// The first lines of the help of `compare`.
const ABOUT_COMPARE: &str = "Writes what a change of a script changes";

/// The last lines of the help of `compare`.
const HELP_COMPARE: &str = "\
In:   the old script, the new script, and words (one a line), each from a file. One of the files
      may be '-', which is standard input.
Out:  a row for each routine, among or grouping that differs, then the rows of 'changes', and at
      the end 'words,N,M': there are N words, and M of them have another outcome. At a terminal
      it is text for people, unless you give --rows.
Status: 0 if no word has another outcome, 1 if one has, 2 if a file cannot be read or has a fault.

Example:
  printf '%s\\n' 'externals ( stem )' \"define stem as ( [ 'un' ] delete )\" > old.sbl
  printf '%s\\n' 'externals ( stem )' \"define stem as ( [ 're' ] delete )\" > new.sbl
  printf '%s\\n' undo > my.words
  snowbench compare --rows old.sbl new.sbl my.words
writes
  differs,routine,stem
  changed,undo,stem,do,stem,undo
  renamed,do,undo
  words,1,1

To read on: docs/REFERENCE.md.";

/// The first lines of the help of `work`.
const ABOUT_WORK: &str = "Answers commands over a script and words in files";

/// The last lines of the help of `work`.
const HELP_WORK: &str = "\
In:   commands, one a line, up to 'quit' or the end.
Out:  the answer to each command, before the next line is read.

Example:
  printf '%s\\n' 'externals ( stem )' \"define stem as ( [ 'un' ] delete )\" > un.sbl
  printf '%s\\n' undo redo > un.words
  echo stems | snowbench work un.sbl un.words
writes
  undo,stem,do
  redo,stem,redo

To read on: docs/REFERENCE.md has every command with its answers.";

/// The help of an argument.
const SCRIPT_HELP: &str = "The file of the script";

/// The help of an argument.
const WORDS_HELP: &str = "The file of the words, one on each line";

/// The help of an argument.
const ROWS_HELP: &str = "Answers in rows, for programs";

/// The help of an argument.
const FROM_HELP: &str = "Begins with the script in this file; reload and save mean SCRIPT";

/// The help of an argument.
const STOP_HELP: &str = "Breaks an edit off if this file exists: no 68 BrokenOff";

/// The help of an argument.
const FORM_HELP: &str = "Writes a list of stems: synonym, override, tsv or stems";

/// The help of an argument.
const STRICT_HELP: &str = "Ends with status 1 if a command was refused";

/// The help of an argument.
const PLACES_HELP: &str = "Shows the place of a fault, and what a cut input lacks";

/// Returns the definition of a subcommand, with the option `--external NAME` and its default `stem`.
fn verb_command<'a>(
    alloc: Global,
    name: &'a str,
    about: &'a str,
    help: &'a str,
) -> Result<Command<'a>, AllocError>
    ensures { IfOk result (λ c. app_of c ≡ verb_app name.entry.now) }
{
    let external = Arg::new(alloc, "external")
        .long("external")
        .value_name("NAME")
        .help("The external of the script that is run")
        .default_value("stem");
    let command = Command::new(alloc, name).arg(external)?;
    Ok(command.about(about).after_help(help))
}

/// Returns the definition of a file that may be given.
fn file_arg<'a>(alloc: Global, name: &'a str, help: &'a str) -> Arg<'a>
    ensures rule { rule_of result ≡ new_rule name.entry.now }
    ensures here { result.global ≡ false }
{
    Arg::new(alloc, name).help(help)
}

/// Returns the definition of a file that has to be given.
fn required_file<'a>(alloc: Global, name: &'a str, help: &'a str) -> Arg<'a>
    ensures rule { rule_of result ≡ required_rule name.entry.now }
    ensures here { result.global ≡ false }
{
    Arg::new(alloc, name).required(true).help(help)
}

/// Returns the definition of a subcommand with this file of the script and the file WORDS, which may be missing.
fn words_command<'a>(
    alloc: Global,
    name: &'a str,
    about: &'a str,
    help: &'a str,
    script: Arg<'a>,
) -> Result<Command<'a>, AllocError>
    requires here { script.global ≡ false }
    ensures { IfOk result (λ c. app_of c ≡ with_rule (with_rule (verb_app name.entry.now) (rule_of script.entry)) (new_rule (codes "WORDS"))) }
{
    verb_command(alloc, name, about, help)?
        .arg(script)?
        .arg(file_arg(alloc, "WORDS", WORDS_HELP))
}

/// Returns the definition of an option with one value.
fn value_arg<'a>(alloc: Global, name: &'a str, value: &'a str, help: &'a str) -> Arg<'a>
    ensures rule { rule_of result ≡ value_rule name.entry.now }
    ensures here { result.global ≡ false }
{
    let arg = Arg::new(alloc, name).long(name);
    arg.value_name(value).help(help)
}

/// Returns the definition of an option without a value.
fn flag_arg<'a>(alloc: Global, name: &'a str, help: &'a str) -> Arg<'a>
    ensures rule { rule_of result ≡ flag name.entry.now }
    ensures here { result.global ≡ false }
{
    Arg::new(alloc, name)
        .long(name)
        .action(ArgAction::SetTrue)
        .help(help)
}

/// Returns the definition of `run`: a subcommand with the files SCRIPT, WORDS and COMMANDS, the flag `--strict`, and the option
/// `--as FORM`.
fn run_command<'a>(alloc: Global) -> Result<Command<'a>, AllocError>
    ensures { IfOk result (λ c. app_of c ≡ run_app) }
{
    let script = required_file(alloc, "SCRIPT", SCRIPT_HELP);
    words_command(alloc, "run", ABOUT_RUN, HELP_RUN, script)?
        .arg(file_arg(alloc, "COMMANDS", "The file of the commands"))?
        .arg(flag_arg(alloc, "strict", STRICT_HELP))?
        .arg(value_arg(alloc, "as", "FORM", FORM_HELP))
}

/// Returns the definition of `session`: a subcommand with the flags `--strict` and `--places`.
fn session_command<'a>(alloc: Global) -> Result<Command<'a>, AllocError>
    ensures { IfOk result (λ c. app_of c ≡ session_app) }
{
    verb_command(alloc, "session", ABOUT_SESSION, HELP_SESSION)?
        .arg(flag_arg(alloc, "strict", STRICT_HELP))?
        .arg(flag_arg(alloc, "places", PLACES_HELP))
}

/// Returns the definition of `stem`: a subcommand with the flag `--places`.
fn stem_command<'a>(alloc: Global) -> Result<Command<'a>, AllocError>
    ensures { IfOk result (λ c. app_of c ≡ stem_app) }
{
    verb_command(alloc, "stem", ABOUT_STEM, HELP_STEM)?.arg(flag_arg(alloc, "places", PLACES_HELP))
}

/// Returns the definition of `filter`: a subcommand with the files SCRIPT and WORDS, which may be missing, and the flag `--places`.
fn filter_command<'a>(alloc: Global) -> Result<Command<'a>, AllocError>
    ensures { IfOk result (λ c. app_of c ≡ filter_app) }
{
    let script = file_arg(alloc, "SCRIPT", SCRIPT_HELP);
    words_command(alloc, "filter", ABOUT_FILTER, HELP_FILTER, script)?.arg(flag_arg(
        alloc,
        "places",
        PLACES_HELP,
    ))
}

/// Returns the definition of `check`: a subcommand with the flag `--places` and the files SCRIPT, WORDS and STEMS. Each file
/// may be missing.
fn check_command<'a>(alloc: Global) -> Result<Command<'a>, AllocError>
    ensures { IfOk result (λ c. app_of c ≡ check_app) }
{
    let script = file_arg(alloc, "SCRIPT", SCRIPT_HELP);
    words_command(alloc, "check", ABOUT_CHECK, HELP_CHECK, script)?
        .arg(file_arg(
            alloc,
            "STEMS",
            "The file of the expected stems, one on each line",
        ))?
        .arg(flag_arg(alloc, "places", PLACES_HELP))
}

/// Returns the definition of `compare`: a subcommand with the files OLD, NEW and WORDS, and the flag `--rows`.
fn compare_command<'a>(alloc: Global) -> Result<Command<'a>, AllocError>
    ensures { IfOk result (λ c. app_of c ≡ compare_app) }
{
    verb_command(alloc, "compare", ABOUT_COMPARE, HELP_COMPARE)?
        .arg(required_file(alloc, "OLD", "The file of the old script"))?
        .arg(required_file(alloc, "NEW", "The file of the new script"))?
        .arg(required_file(alloc, "WORDS", WORDS_HELP))?
        .arg(flag_arg(alloc, "rows", ROWS_HELP))
}

/// Returns the definition of `work`: a subcommand with the files SCRIPT and WORDS, the flags `--rows` and `--text`, and the options
/// `--from TEXT` and `--stop FILE`.
fn work_command<'a>(alloc: Global) -> Result<Command<'a>, AllocError>
    ensures { IfOk result (λ c. app_of c ≡ work_app) }
{
    let script = required_file(alloc, "SCRIPT", SCRIPT_HELP);
    words_command(alloc, "work", ABOUT_WORK, HELP_WORK, script)?
        .arg(flag_arg(alloc, "rows", ROWS_HELP))?
        .arg(flag_arg(alloc, "text", "Answers in text, for people"))?
        .arg(value_arg(alloc, "from", "TEXT", FROM_HELP))?
        .arg(value_arg(alloc, "stop", "FILE", STOP_HELP))
}

/// Returns the text of an argument, if it is given. Returns `AllocError` if an allocation fails.
fn text_of(alloc: Global, options: &ArgMatches, name: &str) -> Result<Option<String>, AllocError>
    ensures { IfOk result (λ text. option_map string_bytes text ≡ first_value (found_of options.now) name.now) }
{
    match options.get_str(name) {
        Some(text) => Ok(Some(String::from_str(alloc, text)?)),
        None => Ok(None),
    }
}

/// Returns whether an option without a value is given.
fn has_flag(options: &ArgMatches, name: &str) -> bool
    ensures { IsFlag (one_text (found_of options.now) name.now) result }
{
    options.get_flag(name)
}

/// Returns the face that is asked for: rows, if both are.
fn face_of(options: &ArgMatches) -> Option<Face>
    ensures rows { one_text (found_of options.now) (codes "rows") ≡ Some (codes "true") → result ≡ Some Face.Rows }
    ensures text { one_text (found_of options.now) (codes "rows") ≡ Some (codes "false") → one_text (found_of options.now) (codes "text") ≡ Some (codes "true") → result ≡ Some Face.Text }
    ensures neither { one_text (found_of options.now) (codes "rows") ≡ Some (codes "false") → one_text (found_of options.now) (codes "text") ≡ Some (codes "false") → result ≡ None }
    ensures rows_alone { one_text (found_of options.now) (codes "rows") ≡ Some (codes "false") → one_text (found_of options.now) (codes "text") ≡ None → result ≡ None }
    ensures other { one_text (found_of options.now) (codes "rows") ≡ None → one_text (found_of options.now) (codes "text") ≡ None → result ≡ None }
{
    if options.get_flag("rows") {
        return Some(Face::Rows);
    }
    if options.get_flag("text") {
        return Some(Face::Text);
    }
    None
}

/// Returns the definition of the command line, with seven subcommands.
fn make_program<'a>(alloc: Global) -> Result<Command<'a>, AllocError>
    ensures { IfOk result (λ c. app_of c ≡ program) }
{
    Command::new(alloc, "snowbench")
        .bin_name("snowbench")?
        .about(ABOUT)
        .after_help(READ_ON)
        .subcommand_required(true)
        .arg_required_else_help(true)
        .subcommand(run_command(alloc)?)?
        .subcommand(session_command(alloc)?)?
        .subcommand(stem_command(alloc)?)?
        .subcommand(filter_command(alloc)?)?
        .subcommand(check_command(alloc)?)?
        .subcommand(compare_command(alloc)?)?
        .subcommand(work_command(alloc)?)
}

/// Parses the words of a command line: the name of the program, one of the subcommands `run`, `session`, `stem`, `filter`,
/// `check`, `compare` and `work`, the value of its option `--external`, by default `stem`, its files, and its flags.
/// `clap` does the parsing.
///
/// # Errors
///
/// Returns an error if `clap` refuses the words: there is no subcommand or an unknown word, or an option has no value
/// or is given twice. A request for help is also an error, with the help as its text. A failed allocation is an error
/// of its own kind.
pub fn read_words<'a>(alloc: Global, words: &'a [String]) -> Result<Wanted, Error>
    ensures subcommand { IfOk result (λ wanted. (name : Text) × (verb_and_external (map string_bytes words.now) ≡ Some (name, string_bytes wanted.external)) × IsVerb name wanted.verb) }
    ensures script { IfOk result (λ wanted. option_map string_bytes wanted.options.script ≡ value_in (codes "SCRIPT") (map string_bytes words.now)) }
    ensures old { IfOk result (λ wanted. option_map string_bytes wanted.options.old ≡ value_in (codes "OLD") (map string_bytes words.now)) }
    ensures new { IfOk result (λ wanted. option_map string_bytes wanted.options.new ≡ value_in (codes "NEW") (map string_bytes words.now)) }
    ensures words { IfOk result (λ wanted. option_map string_bytes wanted.options.words ≡ value_in (codes "WORDS") (map string_bytes words.now)) }
    ensures commands { IfOk result (λ wanted. option_map string_bytes wanted.options.commands ≡ value_in (codes "COMMANDS") (map string_bytes words.now)) }
    ensures stems { IfOk result (λ wanted. option_map string_bytes wanted.options.stems ≡ value_in (codes "STEMS") (map string_bytes words.now)) }
    ensures from { IfOk result (λ wanted. option_map string_bytes wanted.options.from ≡ value_in (codes "from") (map string_bytes words.now)) }
    ensures stop { IfOk result (λ wanted. option_map string_bytes wanted.options.stop ≡ value_in (codes "stop") (map string_bytes words.now)) }
    ensures form { IfOk result (λ wanted. option_map string_bytes wanted.options.form ≡ value_in (codes "as") (map string_bytes words.now)) }
    ensures strict { IfOk result (λ wanted. IsFlag (flag_in (codes "strict") (map string_bytes words.now)) wanted.options.is_strict) }
    ensures places { IfOk result (λ wanted. IsFlag (flag_in (codes "places") (map string_bytes words.now)) wanted.options.shows_places) }
    ensures rows { IfOk result (λ wanted. IsGiven (codes "rows") (map string_bytes words.now) → wanted.options.face ≡ Some Face.Rows) }
    ensures text { IfOk result (λ wanted. IsMissing (codes "rows") (map string_bytes words.now) → IsGiven (codes "text") (map string_bytes words.now) → wanted.options.face ≡ Some Face.Text) }
    ensures neither { IfOk result (λ wanted. IsMissing (codes "rows") (map string_bytes words.now) → IsMissing (codes "text") (map string_bytes words.now) → wanted.options.face ≡ None) }
    ensures rows_alone { IfOk result (λ wanted. IsMissing (codes "rows") (map string_bytes words.now) → LacksFlag (codes "text") (map string_bytes words.now) → wanted.options.face ≡ None) }
{
    let matches = make_program(alloc)?.try_get_matches_from(words)?;
    let Some((name, options)) = matches.subcommand() else {
        return Err(make_program(alloc)?.error(ErrorKind::MissingSubcommand, "no subcommand")?);
    };
    let verb = match name {
        "run" => Verb::Session,
        "session" => Verb::Session,
        "stem" => Verb::Stem,
        "filter" => Verb::Filter,
        "check" => Verb::Check,
        "compare" => Verb::Compare,
        "work" => Verb::Work,
        _ => {
            return Err(make_program(alloc)?.error(
                ErrorKind::InvalidSubcommand,
                "no such subcommand",
            )?);
        }
    };
    let Some(external) = options.get_str("external") else {
        return Err(make_program(alloc)?.error(ErrorKind::MissingRequiredArgument, "no external")?);
    };
    let script = text_of(alloc, options, "SCRIPT")?;
    let old = text_of(alloc, options, "OLD")?;
    let new = text_of(alloc, options, "NEW")?;
    let list = text_of(alloc, options, "WORDS")?;
    let commands = text_of(alloc, options, "COMMANDS")?;
    let stems = text_of(alloc, options, "STEMS")?;
    let from = text_of(alloc, options, "from")?;
    let stop = text_of(alloc, options, "stop")?;
    let form = text_of(alloc, options, "as")?;
    let is_strict = has_flag(options, "strict");
    let shows_places = has_flag(options, "places");
    let face = face_of(options);
    Ok(Wanted {
        verb,
        external: String::from_str(alloc, external)?,
        options: Options {
            script,
            old,
            new,
            words: list,
            commands,
            stems,
            is_strict,
            shows_places,
            face,
            from,
            stop,
            form,
        },
    })
}
